//! What `draw --run` answers to a document: the picture of a run of its session.
#![tactic(auto)]

mod acts;
mod drawing;
pub mod laws;
mod lines;
mod plain;
mod scenes;

pub use drawing::draw_run;
