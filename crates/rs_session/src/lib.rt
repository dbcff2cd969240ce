//! Sessions of accepted machines over rings, and their typed stages: each stage speaks for one role, says by its type
//! whether the role sends, receives or has ended, and is used once.
#![tactic(auto)]

mod ends;
mod ensembles;
mod gathering;
pub mod laws;
mod leaving;
mod sessions;
mod stages;
mod standing;

pub use ends::CloseFault;
pub use ensembles::Ensemble;
pub use leaving::{LeftFault, LeftOver};
pub use sessions::Session;
pub use stages::{Ended, Left, Receiving, Sending, Sent, Stage, Taken};
