//! Values that wait to be sent.

ghost use Rattle.std.specs.Prelude.{◌≡◌, ◌++◌, ◌∷◌, [], OnErr, OnOk, drop};
ghost use Rattle.rs_actors.specs.Common.{next_or_unit};
ghost use Rattle.rs_actors.specs.Talking.{sort_of};

use crate::talkers::sort_of;
use rs_model::{NoMemory, Sort, Value};
use std::alloc::Global;
use std::collections::VecDeque;
use std::marker::Model;

/// Values that are still to be sent, in order.
#[derive(Drop, Debug)]
pub(crate) struct ValueQueue {
    values: VecDeque<Value>,
}

impl Model for ValueQueue {
    ghost use Rattle.std.specs.Prelude.{List};
    ghost use Rattle.rs_model.specs.declared.values.Value.{Value as Payload};

    ghost Value = { List Payload };

    ghost view = { λ q. q.values.items };
}

impl ValueQueue {
    pub(crate) fn new(values: VecDeque<Value>) -> ValueQueue
        ensures { result ≡ values.items }
    {
        ValueQueue { values }
    }

    pub(crate) fn empty(alloc: Global) -> ValueQueue
        ensures { result ≡ [] }
    {
        ValueQueue {
            values: VecDeque::new(alloc),
        }
    }

    /// The sort of the next value, or of the unit where there is none.
    pub(crate) fn sort(&self) -> Sort
        ensures { result ≡ sort_of (next_or_unit self.now) }
    {
        match self.values.front() {
            Some(value) => sort_of(value),
            None => Sort::Unit,
        }
    }

    /// The next value, which leaves the queue, or the unit where there is none.
    pub(crate) fn pop(&mut self) -> Value
        ensures value { result ≡ next_or_unit self.old }
        ensures rest { self.new ≡ drop 1 self.old }
    {
        match self.values.pop_front() {
            Some(value) => value,
            None => Value::Unit,
        }
    }

    /// Puts the value behind all others; where memory is refused nothing changes.
    pub(crate) fn push(&mut self, value: Value) -> Result<(), NoMemory>
        ensures ok { OnOk result (self.new ≡ self.old ++ value ∷ []) }
        ensures err { OnErr result (self.new ≡ self.old) }
    {
        Ok(self.values.push_back(value)?)
    }
}
