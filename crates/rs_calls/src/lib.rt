//! The program's words, carried out on a text in memory: for libraries that have no command line and no files.
#![tactic(auto)]

mod answering;
mod keeping;
mod words;

pub use answering::{CallAnswer, CallFault, answer_to};
pub use keeping::KeptBytes;
