//! One type for the talkers of a session.

ghost use Rattle.rs_actors.specs.Common.{common_conduct};

use crate::collectors::Collector;
use crate::placeholders::Placeholder;
use crate::sources::ValueSource;
use crate::talkers::Talker;
use rs_model::{NoMemory, Sort, Value};
use std::alloc::Global;

/// A common talker, or one of the user's own: a run takes actors of one type.
#[derive(Drop, Debug)]
pub enum CommonTalker<T: Drop> {
    Source(ValueSource),
    Collector(Collector),
    Placeholder(Placeholder),
    Own(T),
}

impl<T: Talker> Talker for CommonTalker<T> {
    ghost conduct = { common_conduct T.conduct };

    fn sort(&self) -> Sort {
        match self {
            CommonTalker::Source(source) => source.sort(),
            CommonTalker::Collector(collector) => collector.sort(),
            CommonTalker::Placeholder(placeholder) => placeholder.sort(),
            CommonTalker::Own(talker) => talker.sort(),
        }
    }

    fn send(&mut self, alloc: Global) -> Result<Value, NoMemory> {
        match self {
            CommonTalker::Source(source) => source.send(alloc),
            CommonTalker::Collector(collector) => collector.send(alloc),
            CommonTalker::Placeholder(placeholder) => placeholder.send(alloc),
            CommonTalker::Own(talker) => talker.send(alloc),
        }
    }

    fn take(&mut self, alloc: Global, value: &Value) -> Result<(), NoMemory> {
        match self {
            CommonTalker::Source(source) => source.take(alloc, value),
            CommonTalker::Collector(collector) => collector.take(alloc, value),
            CommonTalker::Placeholder(placeholder) => placeholder.take(alloc, value),
            CommonTalker::Own(talker) => talker.take(alloc, value),
        }
    }
}
