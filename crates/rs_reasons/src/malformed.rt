//! What `explain` answers to a text that is at fault.

ghost use Rattle.std.specs.Prelude.{◌≡◌, ◌≤◌, length, IfOk, OnOk};
ghost use Rattle.rs_reasons.specs.Malformed as spec;
ghost use Rattle.rs_text.specs.declared.faults.TextKind.TheVariants as kind;

use rs_answers::{Answer, answer_to_fault};
use rs_model::NoMemory;
use rs_text::{TextFault, TextKind, Wanted};
use std::alloc::Global;

// The line of what was wanted: where that is a sort, all sorts.
fn wanted_line(wanted: Wanted) -> &'static str
    ensures { result.now ≡ spec.wanted_line wanted }
{
    match wanted {
        Wanted::SortOrCloseParen => "sorts: unit, bool, nat, int, bytes, list\n",
        _ => "",
    }
}

// What is said of the fault after its answer.
fn fault_lines(kind: TextKind) -> &'static str
    ensures { result.now ≡ spec.fault_lines kind }
{
    match kind {
        TextKind::Expected(wanted) => wanted_line(wanted),
        _ => "",
    }
}

/// What `explain` answers to the first fault of a text: what `check` answers, and where a sort is wanted after it the
/// line that lists all sorts.
///
/// Refused memory is the only error.
pub fn explain_fault(alloc: Global, bytes: &[u8], fault: TextFault) -> Result<Answer, NoMemory>
    requires { fault.at ≤ length bytes.now }
    ensures answer { IfOk result (λ a. a ≡ spec.explained_fault bytes.now fault.kind fault.at) }
    ensures memory { OnOk result (fault.kind ≡ kind.NoMemory → ⊥) }
{
    let mut answer = answer_to_fault(alloc, bytes, fault)?;
    answer.text.push(fault_lines(fault.kind).as_bytes())?;
    Ok(answer)
}
