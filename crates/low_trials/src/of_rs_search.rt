//! The search that counts its steps, on a machine that sends ahead of a choice.

ghost use Rattle.std.specs.Prelude.{◌≡◌, ◌+◌, ◌<◌, ◌≤◌, [], ◌∷◌, IfOk, OnOk};
ghost use Rattle.low_trials.specs.Guessing.{chooses, plain_arm, sends, sends_ahead};

use rs_derive::{DNode, Derivation, StepCount};
use rs_model::{Arm, Arms, Label, Machine, NoMemory, Role, Sort, State};
use rs_search::{SearchFault, search_counted};
use std::alloc::Global;
use std::marker::Brand;
use std::sync::ledger::{Blank, Ledger};
use std::test::Fail;

fn plain_arm(label: u16, next: u32) -> Arm
    ensures { result ≡ plain_arm label next }
{
    Arm {
        label: Label(label),
        sort: Sort::Unit,
        next,
    }
}

fn sends(alloc: Global, peer: u8, label: u16, next: u32) -> State
    ensures { result ≡ sends peer label next }
{
    State::Puts {
        peer: Role(peer),
        arms: Arms::of_one(alloc, plain_arm(label, next)),
    }
}

/// The projection: A tells B x or y, and then C z.
fn chooses(alloc: Global) -> Result<Machine, NoMemory>
    ensures { IfOk result (λ machine. machine ≡ chooses) }
{
    let mut arms = Arms::of_one(alloc, plain_arm(0, 1));
    arms.push(plain_arm(1, 2))?;
    let mut states = Vec::new(alloc);
    states.push(State::Puts {
        peer: Role(1),
        arms,
    })?;
    states.push(sends(alloc, 2, 2, 3))?;
    states.push(sends(alloc, 2, 2, 3))?;
    states.push(State::Done)?;
    Ok(Machine {
        role: Role(0),
        states,
        start: 0,
    })
}

/// The machine: A tells C z first, and then B y.
fn sends_ahead(alloc: Global) -> Result<Machine, NoMemory>
    ensures { IfOk result (λ machine. machine ≡ sends_ahead) }
{
    let mut states = Vec::new(alloc);
    states.push(sends(alloc, 2, 2, 1))?;
    states.push(sends(alloc, 1, 1, 2))?;
    states.push(State::Done)?;
    Ok(Machine {
        role: Role(0),
        states,
        start: 0,
    })
}

/// There are six candidates, and all their moves together have five results: two where A guesses what it will tell B, one where
/// it tells C after either guess, and one where it tells B y. So the search takes at most 2 * 5 + 6 steps.
fn searched<L: Ledger>(
    alloc: Global,
    sub: &Machine,
    above: &Machine,
    steps: &mut StepCount<L>,
) -> Result<Derivation, SearchFault>
    requires machines { (sub.now ≡ sends_ahead) × (above.now ≡ chooses) }
    ensures { OnOk result (steps.new ≤ steps.old + 16) }
{
    search_counted(alloc, sub, above, 16, steps)
}

fn searched_by<L: Ledger>(alloc: Global, blank: Blank) -> Result<Derivation, SearchFault>
    requires name { blank.name ≡ L.name }
    requires parts { blank.parts ≡ L.parts }
    requires some { 0 < L.parts }
{
    let Ok(sub) = sends_ahead(alloc) else {
        return Err(SearchFault::NoMemory);
    };
    let Ok(above) = chooses(alloc) else {
        return Err(SearchFault::NoMemory);
    };
    let mut steps: StepCount<L> = StepCount::new(blank);
    searched(alloc, &sub, &above, &mut steps)
}

fn derived(alloc: Global) -> Result<Derivation, SearchFault> {
    searched_by::<Brand>(alloc, Blank::new(1))
}

/// The states of the machine and of the projection, how many acts are owed, the rank and the next nodes, of each node.
const NODES: [(u32, u32, usize, u32, &'static [u32]); 4] = [
    // A guesses y: after x it can't go on
    (0, 0, 0, 0, &[1]),
    (0, 2, 1, 1, &[2]),
    (1, 3, 1, 0, &[3]),
    (2, 3, 0, 0, &[]),
];

fn is_as(node: &DNode, row: &(u32, u32, usize, u32, &'static [u32])) -> bool {
    let (state, above, owed, rank, next) = row;
    node.state == *state
        && node.above == *above
        && node.pending.as_slice().len() == *owed
        && node.rank == *rank
        && node.next.as_slice() == *next
}

#[test]
fn a_guess_is_searched_in_counted_steps(rt: HostRuntime) {
    match derived(rt.alloc()) {
        Ok(derivation) => {
            assert!(rt; derivation.nodes.len() == NODES.len());
            for (node, row) in derivation.nodes.iter().zip(NODES.iter()) {
                assert!(rt; is_as(node, row));
            }
        }
        Err(_fault) => assert!(rt; false, "no derivation, or no memory"),
    }
}
