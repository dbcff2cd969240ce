//! Sessions that are accepted.

ghost use Rattle.std.specs.Prelude.{◌≡◌, ◌<◌, length, IfOk, IfErr, IfSome, IfNone, OnOk};
ghost use Rattle.rs_core.specs.Safety.{IsSafe};
ghost use Rattle.rs_model.specs.Data.{Protocol_data};
ghost use Rattle.rs_safety.specs.Accepting.{FirstRefused, HandsBack, IsAcceptedSession};
ghost use Rattle.rs_safety.specs.Room.{room_of};
ghost use Rattle.rs_safety.specs.Sessions.{AreDerivations, AreOneEach, IsSession};

use crate::rooms::room;
use rs_derive::{Derivation, DeriveFault, check};
use rs_model::{Machine, Protocol, Role};
use rs_project::Projection;
use std::marker::Model;

/// A session whose machines are safe: each has a derivation, which shows that it may stand for its role's projection.
///
/// It has the protocol, and for each role, in order, the projection, the derivation and the machine.
#[derive(Drop)]
pub struct Accepted {
    protocol: Protocol,
    projections: Vec<Projection>,
    derivations: Vec<Derivation>,
    machines: Vec<Machine>,
}

impl Model for Accepted {
    ghost use Rattle.rs_safety.specs.Accepting.{Accepted_data, IsAcceptedSession};

    ghost Value = { Accepted_data };

    ghost view = { λ a. record { protocol = a.protocol; projections = a.projections.items; derivations = a.derivations.items; machines = a.machines.items } };

    ghost invariant = { λ a. IsAcceptedSession (record { protocol = a.protocol; projections = a.projections.items; derivations = a.derivations.items; machines = a.machines.items }) };
}

impl Accepted {
    /// The machines, in role order. They are safe, and the session is all that `IsAcceptedSession` says.
    pub fn machines(&self) -> &[Machine]
        ensures machines { result.now ≡ self.now.machines }
        ensures session { IsAcceptedSession self.now }
        ensures safe { IsSafe result.now }
    {
        self.machines.as_slice()
    }

    /// The protocol.
    pub fn protocol(&self) -> &Protocol
        ensures { result.now ≡ self.now.protocol }
    {
        &self.protocol
    }

    /// The projections, in role order.
    pub fn projections(&self) -> &[Projection]
        ensures { result.now ≡ self.now.projections }
    {
        self.projections.as_slice()
    }

    /// The derivations, in role order.
    pub fn derivations(&self) -> &[Derivation]
        ensures derivations { result.now ≡ self.now.derivations }
        ensures session { IsAcceptedSession self.now }
    {
        self.derivations.as_slice()
    }

    /// How many messages each ring must hold, so that no role can be held up by full rings: the [`room`] of its
    /// derivations.
    pub fn room(&self) -> u64
        ensures { result ≡ room_of self.now.derivations }
    {
        room(self.derivations.as_slice())
    }
}

/// A session that is refused: the first role whose derivation is refused, the derivation's first fault, and all that was handed
/// in, unchanged.
#[derive(Drop)]
pub struct AcceptRefused {
    pub role: Role,
    pub cause: DeriveFault,
    pub protocol: Protocol,
    pub projections: Vec<Projection>,
    pub machines: Vec<Machine>,
    pub derivations: Vec<Derivation>,
}

impl Model for AcceptRefused {
    ghost use Rattle.rs_safety.specs.Accepting.{AcceptRefused_data};

    ghost Value = { AcceptRefused_data };

    ghost view = { λ r. record { role = r.role; cause = r.cause; protocol = r.protocol; projections = r.projections.items; machines = r.machines.items; derivations = r.derivations.items } };
}

/// The first place at which `check` refuses the derivation, and why.
fn first_refused(
    projections: &[Projection],
    machines: &[Machine],
    derivations: &[Derivation],
) -> Option<(usize, DeriveFault)>
    requires session { (protocol : Protocol_data) × IsSession protocol projections.now machines.now }
    requires derivations { AreOneEach (length machines.now) derivations.now }
    ensures some { IfSome result (λ r. FirstRefused machines.now projections.now derivations.now r.0 r.1) }
    ensures within { IfSome result (λ r. r.0 < length machines.now) }
    ensures none { IfNone result (AreDerivations machines.now projections.now derivations.now) }
{
    for place in 0..machines.len() {
        let projection = &projections[place];
        if let Err(cause) = check(&derivations[place], &machines[place], &projection.machine) {
            return Some((place, cause));
        }
    }
    None
}

/// Accepts the machines if each role's derivation shows that its machine may stand for its projection: then they are
/// safe.
///
/// The error names the first role whose derivation is refused, with the derivation's first fault, and hands everything back.
/// `accept` takes no memory.
pub fn accept(
    protocol: Protocol,
    projections: Vec<Projection>,
    machines: Vec<Machine>,
    derivations: Vec<Derivation>,
) -> Result<Accepted, AcceptRefused>
    requires session { IsSession protocol projections.items machines.items }
    requires derivations { AreOneEach protocol.roles derivations.items }
    ensures derived { OnOk result (AreDerivations machines.items projections.items derivations.items) }
    ensures accepted { IfOk result (λ a. a ≡ record { protocol = protocol; projections = projections.items; derivations = derivations.items; machines = machines.items }) }
    ensures session { IfOk result IsAcceptedSession }
    ensures safe { OnOk result (IsSafe machines.items) }
    ensures refused { IfErr result (λ e. FirstRefused machines.items projections.items derivations.items e.role.0 e.cause) }
    ensures back { IfErr result (λ e. HandsBack protocol projections.items machines.items derivations.items e) }
{
    match first_refused(
        projections.as_slice(),
        machines.as_slice(),
        derivations.as_slice(),
    ) {
        Some((place, cause)) => Err(AcceptRefused {
            role: Role(place as u8),
            cause,
            protocol,
            projections,
            machines,
            derivations,
        }),
        None => Ok(Accepted {
            protocol,
            projections,
            derivations,
            machines,
        }),
    }
}
