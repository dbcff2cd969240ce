//! What stands for a role whose values don't matter.

ghost use Rattle.rs_actors.specs.Common.{placeholder_conduct};

use crate::talkers::Talker;
use rs_model::{NoMemory, Sort, Value};
use std::alloc::Global;

/// It sends the unit where an arm has that sort, else an empty value by the first arm, and what comes changes nothing.
#[derive(Clone, Copy, Debug)]
pub struct Placeholder;

impl Talker for Placeholder {
    ghost conduct = { placeholder_conduct };

    fn sort(&self) -> Sort {
        Sort::Unit
    }

    fn send(&mut self, _alloc: Global) -> Result<Value, NoMemory> {
        Ok(Value::Unit)
    }

    fn take(&mut self, _alloc: Global, _value: &Value) -> Result<(), NoMemory> {
        Ok(())
    }
}
