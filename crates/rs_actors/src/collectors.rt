//! What keeps all that comes.

ghost use Rattle.std.specs.Prelude.{◌≡◌, []};
ghost use Rattle.rs_actors.specs.Common.{collector_conduct};

use crate::talkers::Talker;
use rs_model::{NoMemory, Sort, Value};
use std::alloc::Global;
use std::marker::Model;

/// It keeps the values that come, and sends the unit: seen as these values, in order.
#[derive(Drop, Debug)]
pub struct Collector {
    values: Vec<Value>,
}

impl Model for Collector {
    ghost use Rattle.std.specs.Prelude.{List};
    ghost use Rattle.rs_model.specs.declared.values.Value.{Value as Payload};

    ghost Value = { List Payload };

    ghost view = { λ c. c.values.items };
}

impl Collector {
    /// A collector to which nothing has come.
    pub fn new(alloc: Global) -> Collector
        ensures { result ≡ [] }
    {
        Collector {
            values: Vec::new(alloc),
        }
    }

    /// The values that have come, in order.
    pub fn as_slice(&self) -> &[Value]
        ensures { result.now ≡ self.now }
    {
        self.values.as_slice()
    }

    /// The values that have come, in order.
    pub fn into_values(self) -> Vec<Value>
        ensures { result.items ≡ self }
    {
        self.values
    }
}

impl Talker for Collector {
    ghost conduct = { collector_conduct };

    fn sort(&self) -> Sort {
        Sort::Unit
    }

    fn send(&mut self, _alloc: Global) -> Result<Value, NoMemory> {
        Ok(Value::Unit)
    }

    /// Keeps a copy of the value.
    fn take(&mut self, alloc: Global, value: &Value) -> Result<(), NoMemory> {
        Ok(self.values.push(value.copy(alloc)?)?)
    }
}
