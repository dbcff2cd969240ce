//! The canonical text of a document.

ghost use Rattle.std.specs.Prelude.{◌≡◌, ◌≤◌, ◌++◌, length, IfOk, IfSome, OnOk};
ghost use Rattle.rs_derivations.specs.Printable.{IsPrintable};
ghost use Rattle.rs_documents.specs.Canonical.{ArePrintable, AreShown, CanBeShown, CanBeWritten, derivations_text, own_text, IsCanonicalDocument, IsLineBehind, IsMachineBehind, IsOwnText, CanBePrinted, IsShownBehind};
ghost use Rattle.rs_global.specs.Canonical.{IsTextShaped};
ghost use Rattle.rs_global.specs.Enough.{AreEnough};
ghost use Rattle.rs_model.specs.declared.limits.TheConstants.{MOST_ROLES};
ghost use Rattle.rs_text.specs.Sound.{IsSound};

use crate::documents::Document;
use rs_derivations::print_derivation;
use rs_derive::Derivation;
use rs_global::print_protocol;
use rs_machines::{machine_text_shaped, print_machine};
use rs_model::{Machine, Names, NoMemory};
use rs_tables::print_table;
use rs_text::Text;
use std::alloc::Global;

/// Appends the canonical text of the machine, where it is there.
fn push_own(
    alloc: Global,
    text: &mut Text,
    names: &Names,
    own: &Option<Machine>,
) -> Result<(), NoMemory>
    requires sound { IsSound names.now }
    requires shown { CanBePrinted names.now own.now }
    ensures { OnOk result (IsLineBehind names.now own.now text.old text.new) }
{
    match own {
        Some(machine) => push_machine(alloc, text, names, machine),
        None => Ok(()),
    }
}

fn push_machine(
    alloc: Global,
    text: &mut Text,
    names: &Names,
    machine: &Machine,
) -> Result<(), NoMemory>
    requires sound { IsSound names.now }
    requires written { CanBeWritten names.now machine.now }
    ensures { OnOk result (IsMachineBehind names.now machine.now text.old text.new) }
{
    let own = machine_text(alloc, names, machine)?;
    text.push(own.as_slice())
}

/// The line of the machine where some body of acts reads to it, and else its table.
fn machine_text(alloc: Global, names: &Names, machine: &Machine) -> Result<Text, NoMemory>
    requires sound { IsSound names.now }
    requires written { CanBeWritten names.now machine.now }
    ensures { IfOk result (IsOwnText names.now machine.now) }
{
    if machine_text_shaped(machine) {
        print_machine(alloc, names, machine)
    } else {
        print_table(alloc, names, machine)
    }
}

/// Appends the canonical texts of the machines that are there.
fn push_machines(
    alloc: Global,
    text: &mut Text,
    names: &Names,
    machines: &[Option<Machine>],
) -> Result<(), NoMemory>
    requires sound { IsSound names.now }
    requires shown { AreShown names.now machines.now }
    ensures { OnOk result (IsShownBehind names.now machines.now text.old text.new) }
{
    for own in machines {
        push_own(alloc, text, names, own)?;
    }
    Ok(())
}

/// Appends the canonical text of the derivation, where it is there.
fn push_own_derivation(
    alloc: Global,
    text: &mut Text,
    names: &Names,
    own: &Option<Derivation>,
) -> Result<(), NoMemory>
    requires sound { IsSound names.now }
    requires bounded { length names.now.roles ≤ MOST_ROLES }
    requires printable { IfSome own.now (λ derivation. IsPrintable names.now derivation) }
    ensures { OnOk result (text.new ≡ text.old ++ own_text names.now own.now) }
{
    match own {
        Some(derivation) => {
            let lines = print_derivation(alloc, names, derivation)?;
            text.push(lines.as_slice())
        }
        None => Ok(()),
    }
}

/// Appends the canonical texts of the derivations that are there.
fn push_derivations(
    alloc: Global,
    text: &mut Text,
    names: &Names,
    derivations: &[Option<Derivation>],
) -> Result<(), NoMemory>
    requires sound { IsSound names.now }
    requires bounded { length names.now.roles ≤ MOST_ROLES }
    requires printable { ArePrintable names.now derivations.now }
    ensures { OnOk result (text.new ≡ text.old ++ derivations_text names.now derivations.now) }
{
    for own in derivations {
        push_own_derivation(alloc, text, names, own)?;
    }
    Ok(())
}

/// The canonical text of the document: the roles line, the protocol, the text of each machine that it has, and the lines
/// of each derivation that it has. A machine's text is one line with its body of acts, where some body reads to the
/// machine, and else the table of its states.
pub fn print_document(alloc: Global, document: &Document) -> Result<Text, NoMemory>
    requires shown { CanBeShown document.now }
    ensures { IfOk result (IsCanonicalDocument document.now) }
{
    let mut text = print_protocol(alloc, &document.names, &document.protocol)?;
    push_machines(
        alloc,
        &mut text,
        &document.names,
        document.machines.as_slice(),
    )?;
    push_derivations(
        alloc,
        &mut text,
        &document.names,
        document.derivations.as_slice(),
    )?;
    Ok(text)
}
