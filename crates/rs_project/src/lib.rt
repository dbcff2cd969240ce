//! The projection of a protocol onto a role: what the role has to do, where it can't tell apart all the nodes at which
//! the session may be.
#![tactic(auto)]

mod clashes;
mod filing;
mod finding;
mod fronts;
pub mod laws;
mod merging;
mod noting;
mod peeling;
mod projecting;
mod rounds;
mod searching;
mod spreading;
mod straight;
mod surveying;

pub use projecting::{ProjFault, Projection, project};
