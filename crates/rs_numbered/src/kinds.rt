//! Kinds of values, by numbers.

ghost use Rattle.std.specs.Prelude.{◌≡◌, IfErr, IfOk};
ghost use Rattle.rs_numbered.specs.Kinds as spec;

use rs_model::{NoMemory, Numbers, Octets, Sort, Value};
use std::alloc::Global;

/// The number of the kind of a sort's values.
pub fn kind_of(sort: Sort) -> u32
    ensures { result ≡ spec.kind_of sort }
{
    match sort {
        Sort::Unit => 0,
        Sort::Flag => 1,
        Sort::Natural => 2,
        Sort::Whole => 3,
        Sort::Octets => 4,
        Sort::Numbers => 5,
    }
}

/// A value that stands for all of its kind, or for all `nat`s that are this one; None where no kind has the number.
///
/// The error is that memory was refused, which only a list asks for.
pub fn stand_in(alloc: Global, kind: u32, natural: u64) -> Result<Option<Value>, NoMemory>
    ensures value { IfOk result (λ value. value ≡ spec.stand_in kind natural) }
    ensures lists { IfErr result (λ e. kind ≡ 5) }
{
    Ok(match kind {
        0 => Some(Value::Unit),
        1 => Some(Value::Flag(false)),
        2 => Some(Value::Natural(natural)),
        3 => Some(Value::Whole(0)),
        4 => Some(Value::Octets(Octets::from(Vec::new(alloc)))),
        5 => Some(Value::Numbers(Numbers::of(alloc, &[])?)),
        _ => None,
    })
}
