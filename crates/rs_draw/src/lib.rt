//! What `draw` answers to a document: the picture of its protocol, or of a role's machine.
#![tactic(auto)]

mod drawing;
pub mod laws;
mod own;

pub use drawing::draw;
