//! Which sessions are safe: machines that do what a protocol with choice and recursion asks of them, each in an order
//! that its derivation allows.
#![tactic(auto)]

mod accepting;
pub mod laws;
mod rooms;

pub use accepting::{AcceptRefused, Accepted, accept};
pub use rooms::{Figures, figures_of, room, room_by_figures};
