//! Values of Rust that messages carry.

ghost use Rattle.std.specs.Prelude.{◌≡◌, ◌<◌, ◌^◌, pos};
ghost use Rattle.rs_model.specs.Sorts.{HasSort};
ghost use Rattle.rs_model.specs.declared.values.Sort.{Sort};
ghost use Rattle.rs_model.specs.declared.values.Value.{Value};

use crate::numbers::Nat;
use rs_model::{Numbers, Octets, Sort, Value};

/// A type whose values messages carry, all of one sort: `()`, `bool`, [`Nat`], `i64`, [`Octets`] and [`Numbers`]. For example
/// `true` is packed as `Value::Flag(true)`, of the sort `bool`.
pub trait Payload {
    /// The sort of its values.
    const SORT: Sort;

    ghost SORT: { Sort };

    // The value that carries this one.
    ghost packed: { Self → Value };

    // What a value of the sort carries.
    ghost unpacked: { Value → Self };

    /// The value that carries this one. It has the sort.
    fn pack(self) -> Value
        ensures { result ≡ packed self };

    /// What a value of the sort carries. It gives back what was packed.
    fn unpack(value: Value) -> Self
        requires { HasSort value SORT }
        ensures { result ≡ unpacked value };

    ghost has_sort: { (x : Self) → HasSort (packed x) SORT };

    ghost comes_back: { (x : Self) → unpacked (packed x) ≡ x };
}

impl Payload for () {
    ghost use Rattle.rs_model.specs.declared.values.Sort.TheVariants as sort;
    ghost use Rattle.rs_model.specs.declared.values.Value.TheVariants as value;
    ghost use Rattle.std.specs.Prelude.{refl};

    const SORT: Sort = Sort::Unit;

    ghost SORT = { sort.Unit };

    ghost packed = { λ x. value.Unit };

    ghost unpacked = { λ v. tt };

    fn pack(self) -> Value {
        Value::Unit
    }

    fn unpack(_value: Value) -> () {}

    ghost has_sort = { λ x. refl };

    ghost comes_back = { λ x. refl };
}

impl Payload for bool {
    ghost use Rattle.rs_model.specs.declared.values.Sort.TheVariants as sort;
    ghost use Rattle.rs_model.specs.declared.values.Value.TheVariants as value;
    ghost use Rattle.std.specs.Prelude.{refl};
    ghost use Rattle.rs_typed.specs.Payloads.{flag_of};

    const SORT: Sort = Sort::Flag;

    ghost SORT = { sort.Flag };

    ghost packed = { value.Flag };

    ghost unpacked = { flag_of };

    fn pack(self) -> Value {
        Value::Flag(self)
    }

    fn unpack(value: Value) -> bool {
        match value {
            Value::Flag(flag) => flag,
            _ => unreachable!(),
        }
    }

    ghost has_sort = { λ x. refl };

    ghost comes_back = { λ x. refl };
}

impl Payload for Nat {
    ghost use Rattle.rs_model.specs.declared.values.Sort.TheVariants as sort;
    ghost use Rattle.rs_model.specs.declared.values.Value.TheVariants as value;
    ghost use Rattle.rs_typed.specs.Naturals.{nat_of, nat_has_sort, nat_comes_back};

    const SORT: Sort = Sort::Natural;

    ghost SORT = { sort.Natural };

    ghost packed = { λ n. value.Natural n.number };

    ghost unpacked = { nat_of };

    fn pack(self) -> Value {
        Value::Natural(self.get())
    }

    fn unpack(value: Value) -> Nat {
        match value {
            Value::Natural(number) => match Nat::of(number) {
                Some(nat) => nat,
                None => unreachable!(),
            },
            _ => unreachable!(),
        }
    }

    ghost has_sort = { nat_has_sort };

    ghost comes_back = { nat_comes_back };
}

/// A whole number goes as itself. A `Natural` that comes is taken as that number.
impl Payload for i64 {
    ghost use Rattle.rs_model.specs.declared.values.Sort.TheVariants as sort;
    ghost use Rattle.rs_model.specs.declared.values.Value.TheVariants as value;
    ghost use Rattle.std.specs.Prelude.{refl};
    ghost use Rattle.rs_typed.specs.Payloads.{whole_of};

    const SORT: Sort = Sort::Whole;

    ghost SORT = { sort.Whole };

    ghost packed = { value.Whole };

    ghost unpacked = { whole_of };

    fn pack(self) -> Value {
        Value::Whole(self)
    }

    fn unpack(value: Value) -> i64 {
        match value {
            Value::Whole(number) => number,
            Value::Natural(number) => whole_of(number),
            _ => unreachable!(),
        }
    }

    ghost has_sort = { λ x. refl };

    ghost comes_back = { λ x. refl };
}

/// A natural number as a whole one.
fn whole_of(number: u64) -> i64
    requires { number < 2 ^ 63 }
    ensures { result ≡ pos number }
{
    number as i64
}

impl Payload for Octets {
    ghost use Rattle.rs_model.specs.declared.values.Sort.TheVariants as sort;
    ghost use Rattle.rs_model.specs.declared.values.Value.TheVariants as value;
    ghost use Rattle.std.specs.Prelude.{refl};
    ghost use Rattle.rs_typed.specs.Payloads.{octets_of};

    const SORT: Sort = Sort::Octets;

    ghost SORT = { sort.Octets };

    ghost packed = { value.Octets };

    ghost unpacked = { octets_of };

    fn pack(self) -> Value {
        Value::Octets(self)
    }

    fn unpack(value: Value) -> Octets {
        match value {
            Value::Octets(octets) => octets,
            _ => unreachable!(),
        }
    }

    ghost has_sort = { λ x. refl };

    ghost comes_back = { λ x. refl };
}

impl Payload for Numbers {
    ghost use Rattle.rs_model.specs.declared.values.Sort.TheVariants as sort;
    ghost use Rattle.rs_model.specs.declared.values.Value.TheVariants as value;
    ghost use Rattle.std.specs.Prelude.{refl};
    ghost use Rattle.rs_typed.specs.Payloads.{numbers_of};

    const SORT: Sort = Sort::Numbers;

    ghost SORT = { sort.Numbers };

    ghost packed = { value.Numbers };

    ghost unpacked = { numbers_of };

    fn pack(self) -> Value {
        Value::Numbers(self)
    }

    fn unpack(value: Value) -> Numbers {
        match value {
            Value::Numbers(numbers) => numbers,
            _ => unreachable!(),
        }
    }

    ghost has_sort = { λ x. refl };

    ghost comes_back = { λ x. refl };
}
