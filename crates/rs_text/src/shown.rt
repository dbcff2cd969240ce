//! How printers write names and sorts.

ghost use Rattle.std.specs.Prelude.{◌≡◌, ◌++◌, OnOk};
ghost use Rattle.rs_text.specs.NamePlaces.{name_at};
ghost use Rattle.rs_text.specs.Shown.{shown_sort, shown_text};

use crate::output::Text;
use rs_model::{Name, NoMemory, Sort};

/// Writes the name at a place, or nothing where there is none. Refused memory is the only error.
pub fn push_name(text: &mut Text, names: &[Name], place: usize) -> Result<(), NoMemory>
    ensures { OnOk result (text.new ≡ text.old ++ name_at names.now place) }
{
    match names.get(place) {
        Some(name) => text.push(name.as_slice()),
        None => Ok(()),
    }
}

/// Writes the name of a sort; the unit is written as nothing. Refused memory is the only error.
pub fn push_sort(text: &mut Text, sort: Sort) -> Result<(), NoMemory>
    ensures { OnOk result (text.new ≡ text.old ++ shown_text (shown_sort sort)) }
{
    match sort {
        Sort::Unit => Ok(()),
        Sort::Flag => text.push(b"bool"),
        Sort::Natural => text.push(b"nat"),
        Sort::Whole => text.push(b"int"),
        Sort::Octets => text.push(b"bytes"),
        Sort::Numbers => text.push(b"list"),
    }
}
