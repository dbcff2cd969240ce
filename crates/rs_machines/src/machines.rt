//! The reader of machines.

ghost use Rattle.std.specs.Prelude.{◌≡◌, ◌≤◌, ◌+◌, ◌++◌, length, map, IfOk, IfErr};
ghost use Rattle.rs_text.specs.FirstFaults.{IsRefusal};
ghost use Rattle.rs_text.specs.Sound.{AreReadable};
ghost use Rattle.rs_machines.specs.Faults.{FirstFault, Keeps, LeavesLabels};
ghost use Rattle.rs_machines.specs.Machines.{end_states};
ghost use Rattle.rs_machines.specs.Parts.{machine_spelt, state_of_point, state_of_head};
ghost use Rattle.rs_machines.specs.Read.{IsMachineRead};

use rs_bodies::{Dialect, Head, Point, Spelling, read_part};
use rs_model::{Arms, Machine, Names, NoMemory, State};
use rs_text::{Stop, TextFault};
use std::alloc::Global;

/// Reads a machine part from the offset `at` on, and gives the machine and the offset of the first byte behind it that
/// is neither a blank nor in a comment, or the length. The names are sound, with at most 16 roles and 256 labels.
///
/// States are numbered in order of text. All ends are one state behind the last act, which is there exactly where the
/// text has an end. A recursion name stands for the first state of its body. New labels are added to the names in order
/// of text, and nothing else changes there; after a fault the names have the labels before it.
///
/// A fault has the offset of its token: what was wanted instead, an unknown role, a name that is unbound or unguarded,
/// one too many of nesting, acts or labels, or a faulty token. After refused memory the names have the labels of
/// some first tokens.
pub fn read_machine(
    alloc: Global,
    bytes: &[u8],
    at: usize,
    names: &mut Names,
) -> Result<(Machine, usize), TextFault>
    requires at { at ≤ length bytes.now }
    requires names { AreReadable names.old }
    ensures ok { IfOk result (λ r. IsMachineRead bytes.now at names.old names.new r.0 r.1) }
    ensures err { IfErr result (λ e. IsRefusal (FirstFault names.old bytes.now at) bytes.now e) }
    ensures left { IfErr result (λ e. LeavesLabels names.old names.new bytes.now at e.kind e.at) }
    ensures names { AreReadable names.new }
    ensures kept { Keeps names.old names.new }
{
    let (spelling, until) = read_part(alloc, Dialect::Acts, bytes, at, names)?;
    match machine(alloc, spelling) {
        Ok(machine) => Ok((machine, until)),
        Err(_) => Err(Stop::Memory.into_fault(at)),
    }
}

/// The machine of what was read.
fn machine(alloc: Global, spelling: Spelling) -> Result<Machine, NoMemory>
    ensures machine { IfOk result (λ r. r ≡ machine_spelt spelling) }
    ensures count { IfOk result (λ r. length r.states ≤ length spelling.points + 1) }
{
    let role = spelling.role;
    let start = spelling.start;
    let ended = spelling.ended;
    Ok(Machine {
        role,
        states: states(alloc, spelling.points, ended)?,
        start,
    })
}

/// The states of heads, with the end behind them where there is one.
fn states(alloc: Global, points: Vec<Point>, ended: bool) -> Result<Vec<State>, NoMemory>
    ensures states { IfOk result (λ states. states.items ≡ map state_of_point points.items ++ end_states ended) }
    ensures count { IfOk result (λ states. length states.items ≤ length points.items + 1) }
{
    let mut states = acts(alloc, points)?;
    if ended {
        states.push(State::Done)?;
    }
    Ok(states)
}

fn acts(alloc: Global, points: Vec<Point>) -> Result<Vec<State>, NoMemory>
    ensures count { IfOk result (λ states. length states.items ≡ length points.items) }
    ensures states { IfOk result (λ states. states.items ≡ map state_of_point points.items) }
{
    let mut states = Vec::with_capacity(alloc, points.len().saturating_add(1))?;
    for point in points {
        let Point { head, arms } = point;
        states.reserve(1)?;
        states.push_reserved(state(head, arms));
    }
    Ok(states)
}

/// The state of a head. A machine has acts alone.
fn state(head: Head, arms: Arms) -> State
    ensures { result ≡ state_of_head head arms }
{
    match head {
        Head::Act { peer, mark } => mark.state(peer, arms),
        Head::Talk { .. } => State::Done,
    }
}
