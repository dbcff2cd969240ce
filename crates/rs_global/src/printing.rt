//! The printer of protocols.

ghost use Rattle.std.specs.Prelude.{◌≡◌, ◌++◌, IfOk, OnOk};
ghost use Rattle.rs_text.specs.Sound.{IsSound};
ghost use Rattle.rs_global.specs.Canonical.{IsCanonicalProtocolText, IsTextShaped};
ghost use Rattle.rs_global.specs.Enough.{AreEnough};
ghost use Rattle.rs_global.specs.Printing as spec;
ghost use Rattle.rs_global.specs.Texts.{names_text};

use rs_bodies::print_body;
use rs_model::{Name, Names, NoMemory, Protocol};
use rs_text::Text;
use std::alloc::Global;

/// Prints the canonical text of a protocol: the roles line and the protocol on a line of its own.
///
/// Refused memory is the only error.
pub fn print_protocol(alloc: Global, names: &Names, protocol: &Protocol) -> Result<Text, NoMemory>
    requires shaped { IsTextShaped protocol.now }
    requires sound { IsSound names.now }
    requires enough { AreEnough names.now protocol.now }
    ensures canonical { IfOk result (λ text. IsCanonicalProtocolText names.now protocol.now text) }
{
    let mut text = Text::new(alloc);
    text.push(b"roles ")?;
    push_names(&mut text, names.roles.as_slice())?;
    text.push(b"\nprotocol ")?;
    let mut text = print_body(alloc, names, protocol, text)?;
    text.push(b"\n")?;
    Ok(text)
}

/// The roles line without its first word.
#[tactic(auto, using(crate::proofs::Printed::names_are))]
fn push_names(text: &mut Text, names: &[Name]) -> Result<(), NoMemory>
    ensures { OnOk result (text.new ≡ text.old ++ names_text names.now) }
{
    match names.split_first() {
        Some((first, others)) => {
            text.push(first.as_slice())?;
            push_others(text, others)
        }
        None => Ok(()),
    }
}

fn push_others(text: &mut Text, names: &[Name]) -> Result<(), NoMemory>
    ensures { OnOk result (text.new ≡ text.old ++ spec.further_names_text names.now) }
{
    for name in names {
        text.push(b", ")?;
        text.push(name.as_slice())?;
    }
    Ok(())
}
