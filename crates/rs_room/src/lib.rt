//! Sessions over rings of a stated size: what they can do, and how large the rings have to be.
#![tactic(auto)]

mod counts;
pub mod laws;
mod rings;

pub use rings::{Bounded, BoundedFault, BoundedRefused};
