//! The words of sorts.

ghost use Rattle.std.specs.Prelude.{◌≡◌, Some};
ghost use Rattle.rs_text.specs.Seen.{sort_named};

use rs_model::Sort;

/// The word for the sort in texts: `unit`, `bool`, `nat`, `int`, `bytes` or `list`.
pub fn sort_word(sort: Sort) -> &'static str
    ensures { sort_named result.now ≡ Some sort }
{
    match sort {
        Sort::Unit => "unit",
        Sort::Flag => "bool",
        Sort::Natural => "nat",
        Sort::Whole => "int",
        Sort::Octets => "bytes",
        Sort::Numbers => "list",
    }
}
