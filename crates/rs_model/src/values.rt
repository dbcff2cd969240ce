//! Values that messages carry, and their sorts.

ghost use Rattle.std.specs.Prelude.{◌≡◌, ◌↔◌, IfOk, IsTrue};

use crate::NoMemory;
use std::alloc::Global;
use std::marker::Model;

/// The sort of a payload; in texts `unit`, `bool`, `nat`, `int`, `bytes` and `list`.
#[derive(Clone, Copy, Debug, PartialEq, Eq)]
pub enum Sort {
    Unit,
    Flag,
    Natural,
    Whole,
    Octets,
    Numbers,
}

impl Sort {
    ghost use Rattle.rs_model.specs.Serving.{Serves, serves, sort_number};
    ghost use Rattle.rs_model.specs.Values.{empty_value};

    /// Whether a value of this sort may stand where one of the wanted sort is expected: each sort for itself, and
    /// `Natural` for `Whole`.
    pub fn serves(self, wanted: Sort) -> bool
        ensures test { result ≡ serves self wanted }
        ensures serves { IsTrue result ↔ Serves self wanted }
    {
        self == wanted || (self == Sort::Natural && wanted == Sort::Whole)
    }

    /// A value of the sort that says nothing: `false`, 0, or an empty list.
    pub fn empty_value(self, alloc: Global) -> Result<Value, NoMemory>
        ensures { IfOk result (λ v. v ≡ empty_value self) }
    {
        Ok(match self {
            Sort::Unit => Value::Unit,
            Sort::Flag => Value::Flag(false),
            Sort::Natural => Value::Natural(0),
            Sort::Whole => Value::Whole(0),
            Sort::Octets => Value::Octets(Octets::of(alloc, &[])?),
            Sort::Numbers => Value::Numbers(Numbers::of(alloc, &[])?),
        })
    }
}

/// A payload of the sort `bytes`.
#[derive(Drop, Debug)]
pub struct Octets {
    bytes: Vec<u8>,
}

impl Model for Octets {
    ghost use Rattle.std.specs.Prelude.{ℕ, List};

    ghost Value = { List ℕ };

    ghost view = { λ o. o.bytes.items };
}

impl From<Vec<u8>> for Octets {
    fn from(bytes: Vec<u8>) -> Octets
        ensures { result ≡ bytes.items }
    {
        Octets { bytes }
    }
}

impl Octets {
    /// Equal bytes in memory of their own.
    pub fn copy(&self, alloc: Global) -> Result<Octets, NoMemory>
        ensures { IfOk result (λ o. o ≡ self.now) }
    {
        Octets::of(alloc, self.as_slice())
    }

    /// A copy of the bytes.
    pub fn of(alloc: Global, bytes: &[u8]) -> Result<Octets, NoMemory>
        ensures { IfOk result (λ o. o ≡ bytes.now) }
    {
        Ok(Octets {
            bytes: Vec::from_slice(alloc, bytes)?,
        })
    }

    /// The bytes, in order.
    pub fn as_slice(&self) -> &[u8]
        ensures { result.now ≡ self.now }
    {
        self.bytes.as_slice()
    }
}

/// A payload of the sort `list`.
#[derive(Drop, Debug)]
pub struct Numbers {
    items: Vec<i64>,
}

impl Model for Numbers {
    ghost use Rattle.std.specs.Prelude.{ℤ, List};

    ghost Value = { List ℤ };

    ghost view = { λ n. n.items.items };
}

impl Numbers {
    /// Equal numbers in memory of their own.
    pub fn copy(&self, alloc: Global) -> Result<Numbers, NoMemory>
        ensures { IfOk result (λ n. n ≡ self.now) }
    {
        Numbers::of(alloc, self.as_slice())
    }

    /// A copy of the numbers.
    pub fn of(alloc: Global, items: &[i64]) -> Result<Numbers, NoMemory>
        ensures { IfOk result (λ n. n ≡ items.now) }
    {
        Ok(Numbers {
            items: Vec::from_slice(alloc, items)?,
        })
    }

    /// The numbers, in order.
    pub fn as_slice(&self) -> &[i64]
        ensures { result.now ≡ self.now }
    {
        self.items.as_slice()
    }
}

/// The payload of a message.
#[derive(Drop, Debug)]
pub enum Value {
    Unit,
    Flag(bool),
    Natural(u64),
    Whole(i64),
    Octets(Octets),
    Numbers(Numbers),
}

impl Value {
    ghost use Rattle.std.specs.Prelude.{◌≡◌, IfOk};
    ghost use Rattle.rs_model.specs.Sorts.{fits};

    /// Whether the value has the sort: it is of the sort's own kind, or a `Natural` for the sort `Whole`; and a
    /// `Natural` is at most 9,223,372,036,854,775,807.
    pub fn fits(&self, sort: Sort) -> bool
        ensures { result ≡ fits self.now sort }
    {
        match (self, sort) {
            (Value::Natural(n), Sort::Natural | Sort::Whole) => *n <= i64::MAX as u64,
            (Value::Unit, Sort::Unit)
            | (Value::Flag(_), Sort::Flag)
            | (Value::Whole(_), Sort::Whole)
            | (Value::Octets(_), Sort::Octets)
            | (Value::Numbers(_), Sort::Numbers) => true,
            _ => false,
        }
    }

    /// An equal value in memory of its own.
    pub fn copy(&self, alloc: Global) -> Result<Value, NoMemory>
        ensures { IfOk result (λ v. v ≡ self.now) }
    {
        Ok(match self {
            Value::Unit => Value::Unit,
            Value::Flag(b) => Value::Flag(*b),
            Value::Natural(n) => Value::Natural(*n),
            Value::Whole(n) => Value::Whole(*n),
            Value::Octets(bytes) => Value::Octets(bytes.copy(alloc)?),
            Value::Numbers(items) => Value::Numbers(items.copy(alloc)?),
        })
    }
}
