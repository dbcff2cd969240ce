//! The reader of tables.

ghost use Rattle.std.specs.Prelude.{◌≤◌, length, IfOk, IfErr};
ghost use Rattle.rs_text.specs.FirstFaults.{IsRefusal};
ghost use Rattle.rs_text.specs.Kept.{Keeps};
ghost use Rattle.rs_text.specs.Sound.{AreReadable};
ghost use Rattle.rs_tables.specs.Faults.{FirstFault, LeavesLabels};
ghost use Rattle.rs_tables.specs.Read.{IsTableRead};

use crate::reading::Reader;
use rs_model::{Machine, Names};
use rs_text::{TextFault, read_tokens};
use std::alloc::Global;
use std::mem;

/// Reads a table from the offset `at` on, and gives its machine and the offset of the first byte behind it that is
/// neither a blank nor in a comment, or the length. The names are sound, with at most 16 roles and 256 labels.
///
/// Each row is a state, and rows stand in order of their numbers, from 0 on; state 0 is the first. An arm may lead to any
/// number, whether there is such a row or not. New labels are added to the names in order of text, and nothing else
/// changes there; after a fault the names have the labels before it, and after refused memory those of some first tokens.
///
/// A fault has the offset of its token: what was wanted instead (also where a row's number isn't the count of rows before
/// it), an unknown role, one too many of rows or labels, or a faulty token.
pub fn read_table(
    alloc: Global,
    bytes: &[u8],
    at: usize,
    names: &mut Names,
) -> Result<(Machine, usize), TextFault>
    requires at { at ≤ length bytes.now }
    requires names { AreReadable names.old }
    ensures ok { IfOk result (λ r. IsTableRead bytes.now at names.old names.new r.0 r.1) }
    ensures err { IfErr result (λ e. IsRefusal (FirstFault names.old bytes.now at) bytes.now e) }
    ensures left { IfErr result (λ e. LeavesLabels names.old names.new bytes.now at e.kind e.at) }
    ensures names { AreReadable names.new }
    ensures kept { Keeps names.old names.new }
{
    let labels = mem::replace(&mut names.labels, Vec::new(alloc));
    let mut reader = Reader::new(alloc, names.roles.as_slice(), labels);
    let result = read_tokens(&mut reader, bytes, at);
    names.labels = reader.labels.into_names();
    let machine = Machine {
        role: reader.role,
        states: reader.states,
        start: 0,
    };
    match result {
        Ok(until) => Ok((machine, until)),
        Err(stop) => Err(stop.into_fault(at)),
    }
}
