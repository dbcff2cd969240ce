//! The reader of derivations.

ghost use Rattle.std.specs.Prelude.{◌≤◌, length, IfOk, IfErr};
ghost use Rattle.rs_text.specs.FirstFaults.{IsRefusal};
ghost use Rattle.rs_text.specs.Kept.{Keeps};
ghost use Rattle.rs_text.specs.Sound.{AreReadable};
ghost use Rattle.rs_derivations.specs.Faults.{FirstFault};
ghost use Rattle.rs_derivations.specs.Read.{IsDerivationRead};

use crate::reading::Reader;
use rs_derive::Derivation;
use rs_model::Names;
use rs_text::{TextFault, read_tokens};
use std::alloc::Global;
use std::mem;

/// Reads a derivation part from the offset `at` on, and gives the derivation and the offset of the first byte after it
/// that is neither a blank nor in a comment, or the length. The names are sound, with at most 16 roles and 256 labels.
///
/// In format 1 each node has its pending acts. A text with `format 2` after the role has lists of acts before the
/// nodes, numbered from 1 on, and a node has the number of its list, or 0 for no acts; lists may be repeated or unused.
///
/// Nodes stand in order of their numbers, from 0 on. New labels are added to the names in order of text, and nothing
/// else changes there; after a fault or refused memory, further labels may be there.
///
/// A fault has the offset of its token: what was wanted instead (also where a node's number isn't the count of nodes
/// before it, a list's number isn't one more than the count of lists before it, a node's list isn't there, a format
/// isn't 2, or a bound isn't from 1 to 64), an unknown role, one too many of nodes or labels, the 65th act of a list or
/// of a node in format 1, or a faulty token.
pub fn read_derivation(
    alloc: Global,
    bytes: &[u8],
    at: usize,
    names: &mut Names,
) -> Result<(Derivation, usize), TextFault>
    requires at { at ≤ length bytes.now }
    requires names { AreReadable names.old }
    ensures ok { IfOk result (λ r. IsDerivationRead bytes.now at names.old names.new r.0 r.1) }
    ensures err { IfErr result (λ e. IsRefusal (FirstFault names.old bytes.now at) bytes.now e) }
    ensures names { AreReadable names.new }
    ensures kept { Keeps names.old names.new }
{
    let labels = mem::replace(&mut names.labels, Vec::new(alloc));
    let mut reader = Reader::new(alloc, names.roles.as_slice(), labels);
    let result = read_tokens(&mut reader, bytes, at);
    names.labels = reader.labels.into_names();
    let derivation = Derivation {
        role: reader.role,
        bound: reader.bound,
        nodes: reader.nodes,
    };
    match result {
        Ok(until) => Ok((derivation, until)),
        Err(stop) => Err(stop.into_fault(at)),
    }
}
