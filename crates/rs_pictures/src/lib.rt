//! Pictures of protocols and machines, in the syntax of Mermaid.
#![tactic(auto)]

pub mod laws;
mod lines;
mod machines;
mod sequences;

pub use machines::{machine_picture, push_puts_off};
pub use sequences::sequence_picture;
