//! The source that Rumpsteak reads from and the sink that it writes to.
#![tactic(auto)]

mod memory;
mod never;
mod reading;
mod standard;
mod stock;
mod traits;
mod writing;

pub use memory::{MemSink, MemSource};
pub use never::{NeverSink, NeverSource};
pub use reading::{ReadStop, read_all};
pub use standard::{StdSink, StdSource};
pub use traits::{Failed, Sink, Source};
pub use writing::{WriteFault, write_all};
