//! The words of the program: read by clap, and exactly those that the grammar of words takes.
#![tactic(auto)]

mod commands;
mod dashes;
pub mod laws;
mod limits;
mod meaning;
mod numbers;
mod reading;
mod tasks;

pub use limits::{DEFAULT_DRAWN_LIMIT, DEFAULT_LIMIT, MOST_GEN, MOST_LIMIT, MOST_SEED, MOST_SWAPS};
pub use reading::read_words;
pub use tasks::{CheckOptions, DemoTask, DocumentTask, ImproveOptions, Task};
