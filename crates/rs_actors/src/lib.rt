//! Actors in ten lines, and common ones, with laws of what they send and keep.
//!
//! A run asks an actor for each role. Who writes one says what the role does with values, as a [`Talker`], and no more: which
//! value it has at hand, and what it makes of a value that comes. [`TalkingActor`] plays it, whatever the role's machine is.
//! This talker sends how many values have come:
//!
//! ```text
//! ghost use Rattle.std.specs.Prelude.{◌+◌, ◌-◌, ◌^◌, min};
//! ghost use Rattle.rs_model.specs.declared.values.Value.TheVariants.{Natural};
//!
//! #[derive(Drop)]
//! struct Counter {
//!     count: u64,
//! }
//!
//! impl Talker for Counter {
//!     ghost conduct = { record {
//!       at_hand = λ c. Natural c.count;
//!       behind_sending = λ c. c;
//!       behind_value = λ c v. record { count = min (c.count + 1) (2 ^ 64 - 1) };
//!     } };
//!
//!     fn sort(&self) -> Sort {
//!         Sort::Natural
//!     }
//!
//!     fn send(&mut self, _alloc: Global) -> Result<Value, NoMemory> {
//!         Ok(Value::Natural(self.count))
//!     }
//!
//!     fn take(&mut self, _alloc: Global, _value: &Value) -> Result<(), NoMemory> {
//!         self.count = self.count.saturating_add(1);
//!         Ok(())
//!     }
//! }
//! ```
//!
//! It needs no proof file. Where nothing is to be computed there is a common talker: [`ValueSource`], [`Collector`],
//! [`Mapper`] or [`Placeholder`]. A session with talkers of several kinds takes [`CommonTalker`]s; here is one of three roles,
//! in role order:
//!
//! ```text
//! let mut actors = Vec::new(alloc);
//! actors.push(TalkingActor::new(CommonTalker::Source(ValueSource::new(values))))?;
//! actors.push(TalkingActor::new(CommonTalker::Own(Counter { count: 0 })))?;
//! actors.push(TalkingActor::new(CommonTalker::Collector(Collector::new(alloc))))?;
//! ```
//!
//! [`laws`] says what each of them has sent, and what it holds, behind any history that its machine plays.
#![tactic(auto)]

mod actors;
mod collectors;
mod common;
pub mod laws;
mod mappers;
mod placeholders;
mod queues;
mod sources;
mod talkers;

pub use actors::TalkingActor;
pub use collectors::Collector;
pub use common::CommonTalker;
pub use mappers::{Mapper, ValueFunction};
pub use placeholders::Placeholder;
pub use sources::ValueSource;
pub use talkers::{Talker, sort_of};
