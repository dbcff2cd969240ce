//! A source of values.

ghost use Rattle.std.specs.Prelude.{◌≡◌};
ghost use Rattle.rs_actors.specs.Common.{source_conduct};

use crate::queues::ValueQueue;
use crate::talkers::Talker;
use rs_model::{NoMemory, Sort, Value};
use std::alloc::Global;
use std::collections::VecDeque;
use std::marker::Model;

/// It sends the values of a list, one after the other, and the unit behind the last: seen as the values that it has still to
/// send.
#[derive(Drop, Debug)]
pub struct ValueSource {
    values: ValueQueue,
}

impl Model for ValueSource {
    ghost use Rattle.std.specs.Prelude.{List};
    ghost use Rattle.rs_model.specs.declared.values.Value.{Value as Payload};

    ghost Value = { List Payload };

    ghost view = { λ s. s.values };
}

impl ValueSource {
    /// The source of these values.
    pub fn new(values: Vec<Value>) -> ValueSource
        ensures { result ≡ values.items }
    {
        ValueSource {
            values: ValueQueue::new(VecDeque::from(values)),
        }
    }
}

impl Talker for ValueSource {
    ghost conduct = { source_conduct };

    fn sort(&self) -> Sort {
        self.values.sort()
    }

    fn send(&mut self, _alloc: Global) -> Result<Value, NoMemory> {
        Ok(self.values.pop())
    }

    /// What comes changes nothing.
    fn take(&mut self, _alloc: Global, _value: &Value) -> Result<(), NoMemory> {
        Ok(())
    }
}
