//! What a role does with values.

ghost use Rattle.std.specs.Prelude.{◌≡◌, IfOk, OnErr, OnOk};
ghost use Rattle.rs_actors.specs.Talking.{Conduct, carried, sort_of};

use rs_model::{NoMemory, Sort, Value};
use std::alloc::Global;

/// What has a value at hand, which it would send next, and makes something of each value that comes. It knows no arms, no
/// places and no labels; a [`TalkingActor`](crate::TalkingActor) plays it in a run.
pub trait Talker: Drop {
    /// What it has at hand, what it is when it has sent that, and what it is when a value has come.
    ghost conduct: { Conduct Self };

    /// The sort of the value at hand.
    fn sort(&self) -> Sort
        ensures { result ≡ sort_of (conduct.at_hand self.now) };

    /// Gives the value at hand, which is then sent. The one error is that memory was refused; it is then as it was.
    fn send(&mut self, alloc: Global) -> Result<Value, NoMemory>
        ensures value { IfOk result (λ v. v ≡ conduct.at_hand self.old) }
        ensures becomes { OnOk result (self.new ≡ conduct.behind_sending self.old) }
        ensures err { OnErr result (self.new ≡ self.old) };

    /// A value comes. The one error is that memory was refused; it is then as it was.
    fn take(&mut self, alloc: Global, value: &Value) -> Result<(), NoMemory>
        ensures becomes { OnOk result (self.new ≡ conduct.behind_value self.old value.now) }
        ensures err { OnErr result (self.new ≡ self.old) };
}

/// The sort of a value, as a talker tells it of the value that it has at hand.
pub fn sort_of(value: &Value) -> Sort
    ensures { result ≡ sort_of value.now }
{
    match value {
        Value::Unit => Sort::Unit,
        Value::Flag(_) => Sort::Flag,
        Value::Natural(_) => Sort::Natural,
        Value::Whole(_) => Sort::Whole,
        Value::Octets(_) => Sort::Octets,
        Value::Numbers(_) => Sort::Numbers,
    }
}

/// The value as messages carry it: a `Natural` above 9,223,372,036,854,775,807 is carried as 0.
pub(crate) fn carried(value: Value) -> Value
    ensures { result ≡ carried value }
{
    match value {
        Value::Natural(number) if number > i64::MAX as u64 => Value::Natural(0),
        value => value,
    }
}
