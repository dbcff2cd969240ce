//! What makes a value of each that comes, and sends it on.

ghost use Rattle.std.specs.Prelude.{◌≡◌, [], IfOk};
ghost use Rattle.rs_model.specs.declared.values.Value.{Value};
ghost use Rattle.rs_actors.specs.Common.{mapper_conduct};

use crate::queues::ValueQueue;
use crate::talkers::Talker;
use rs_model::{NoMemory, Sort, Value};
use std::alloc::Global;
use std::marker::Model;

/// A function on values.
pub trait ValueFunction: Drop {
    /// The image of a value.
    ghost image: { Self → Value → Value };

    /// The image of the value. The one error is that memory was refused.
    fn image(&self, alloc: Global, value: &Value) -> Result<Value, NoMemory>
        ensures { IfOk result (λ v. v ≡ image self.now value.now) };
}

/// It sends the image of each value that comes, in order, and the unit where it has none to send: seen as its function and the
/// images that it has still to send.
#[derive(Drop, Debug)]
pub struct Mapper<F: Drop> {
    function: F,
    images: ValueQueue,
}

impl<F: Drop> Model for Mapper<F> {
    ghost use Rattle.rs_actors.specs.Data.{Mapper_data};

    ghost Value = { Mapper_data F };

    ghost view = { λ m. record { function = m.function; images = m.images } };
}

impl<F: Drop> Mapper<F> {
    /// A mapper to which nothing has come.
    pub fn new(alloc: Global, function: F) -> Mapper<F>
        ensures { result ≡ record { function = function; images = [] } }
    {
        Mapper {
            function,
            images: ValueQueue::empty(alloc),
        }
    }
}

impl<F: ValueFunction> Talker for Mapper<F> {
    ghost conduct = { mapper_conduct F.image };

    fn sort(&self) -> Sort {
        self.images.sort()
    }

    fn send(&mut self, _alloc: Global) -> Result<Value, NoMemory> {
        Ok(self.images.pop())
    }

    /// The image of the value is sent behind all others.
    fn take(&mut self, alloc: Global, value: &Value) -> Result<(), NoMemory> {
        let image = self.function.image(alloc, value)?;
        self.images.push(image)
    }
}
