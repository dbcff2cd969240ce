//! The printer of machines.

ghost use Rattle.std.specs.Prelude.{◌≡◌, ◌++◌, IfOk, OnOk};
ghost use Rattle.rs_text.specs.Sound.{IsSound};
ghost use Rattle.rs_machines.specs.Canonical.{IsCanonicalMachineText, IsMachineTextShaped};
ghost use Rattle.rs_machines.specs.Enough.{AreEnoughFor};

use rs_bodies::print_body;
use rs_model::{Machine, Names, NoMemory};
use rs_text::Text;
use rs_text::shown::push_name;
use std::alloc::Global;

/// Prints the canonical text of a machine: one line, with its role and its body.
///
/// Refused memory is the only error.
pub fn print_machine(alloc: Global, names: &Names, machine: &Machine) -> Result<Text, NoMemory>
    requires shaped { IsMachineTextShaped machine.now }
    requires sound { IsSound names.now }
    requires enough { AreEnoughFor names.now machine.now }
    ensures canonical { IfOk result (λ text. IsCanonicalMachineText names.now machine.now text) }
{
    let mut text = Text::new(alloc);
    text.push(b"machine ")?;
    push_name(
        &mut text,
        names.roles.as_slice(),
        usize::from(machine.role.0),
    )?;
    text.push(b": ")?;
    let mut text = print_body(alloc, names, machine, text)?;
    text.push(b"\n")?;
    Ok(text)
}
