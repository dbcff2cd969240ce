//! Laws about the definitions: each function does nothing, and its contract is the law.

ghost use Rattle.std.specs.Prelude.{◌≡◌, ℕ, Some};
ghost use Rattle.rs_model.specs.Sorts.{fits};
ghost use Rattle.rs_model.specs.declared.values.Sort.{Sort};
ghost use Rattle.rs_model.specs.declared.values.Value.{Value};
ghost use Rattle.rs_numbered.specs.Kinds.{kind_of_value, natural_of, stand_in};
ghost use Rattle.rs_numbered.specs.Statuses.{CallStatus, number_of, status_numbered};

/// Statuses have numbers of their own.
pub fn statuses_have_their_own_numbers()
    ensures { (one other : CallStatus) → number_of one ≡ number_of other → one ≡ other }
{}

/// Each status is found by its number, and no other number finds it.
pub fn statuses_are_found_by_their_numbers()
    ensures found { (status : CallStatus) → status_numbered (number_of status) ≡ Some status }
    ensures own { (number : ℕ) (status : CallStatus) → status_numbered number ≡ Some status → number ≡ number_of status }
{}

/// For each value there is one that stands for its kind, and has the same sorts: a monitor that is told of kinds decides as one
/// that is told of the values.
pub fn kinds_tell_of_values()
    ensures { (value : Value) → (other : Value) × (stand_in (kind_of_value value) (natural_of value) ≡ Some other) × ((sort : Sort) → fits value sort ≡ fits other sort) }
{}
