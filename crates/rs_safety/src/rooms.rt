//! The figures of derivations, and the room that they ask for.

ghost use Rattle.std.specs.Prelude.{◌≡◌, ◌≤◌, ◌+◌, ◌*◌, ◌^◌, max, All};
ghost use Rattle.rs_safety.specs.Figures as spec;
ghost use Rattle.rs_safety.specs.Figures.{OwesFew, lag_by, room_by};
ghost use Rattle.rs_safety.specs.Room.{room_of};

use rs_derive::Derivation;

/// The figures of a derivation: how many nodes it has, the most acts that are owed at a node, and the greatest rank.
#[derive(Clone, Copy, Debug)]
pub struct Figures {
    pub nodes: u64,
    pub owed: u8,
    pub rank: u32,
}

/// The figures of the derivation.
pub fn figures_of(derivation: &Derivation) -> Figures
    requires { OwesFew derivation.now }
    ensures { result ≡ spec.figures_of derivation.now }
{
    let mut owed = 0;
    let mut rank = 0;
    for node in &derivation.nodes {
        owed = owed.max(node.pending.as_slice().len() as u8);
        rank = rank.max(node.rank);
    }
    Figures {
        nodes: derivation.nodes.len() as u64,
        owed,
        rank,
    }
}

/// What some derivations ask of the rings: the most acts that are owed, and the greatest lag.
#[derive(Clone, Copy)]
struct Demand {
    owed: u8,
    lag: u64,
}

impl Demand {
    /// That of no derivation.
    fn none() -> Demand
        ensures owed { result.owed ≡ 0 }
        ensures lag { result.lag ≡ 0 }
    {
        Demand { owed: 0, lag: 0 }
    }

    /// That of one more derivation, with these figures.
    fn with(self, figures: Figures) -> Demand
        requires { self.lag ≤ 255 * 2 ^ 32 }
        ensures owed { result.owed ≡ max self.owed figures.owed }
        ensures lag { result.lag ≡ max self.lag (lag_by figures) }
        ensures within { result.lag ≤ 255 * 2 ^ 32 }
    {
        Demand {
            owed: self.owed.max(figures.owed),
            lag: self
                .lag
                .max(u64::from(figures.owed) * (u64::from(figures.rank) + 1)),
        }
    }

    /// How many messages each ring must hold.
    fn room(self) -> u64
        requires { self.lag ≤ 255 * 2 ^ 32 }
        ensures { result ≡ 1 + self.owed + self.lag }
    {
        1 + u64::from(self.owed) + self.lag
    }
}

/// How many messages each ring must hold, by the figures of the session's derivations.
pub fn room_by_figures(figures: &[Figures]) -> u64
    ensures { result ≡ room_by figures.now }
{
    let mut demand = Demand::none();
    for figures in figures {
        demand = demand.with(*figures);
    }
    demand.room()
}

/// How many messages each ring must hold, so that no role can be held up by full rings: one more than the greatest
/// number of acts that are owed and the greatest lag of a derivation.
pub fn room(derivations: &[Derivation]) -> u64
    requires { All OwesFew derivations.now }
    ensures { result ≡ room_of derivations.now }
{
    let mut demand = Demand::none();
    for derivation in derivations {
        demand = demand.with(figures_of(derivation));
    }
    demand.room()
}
