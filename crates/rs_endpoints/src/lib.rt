//! Endpoints of sessions that own their share: each plays one role, may be handed to a thread, stored and dropped, and needs
//! no lifetime and no proof of its user.
#![tactic(auto)]

mod acts;
mod endpoints;
pub mod laws;
mod lockers;
mod sharing;
mod starting;

pub use acts::{Fetched, Posted, Room};
pub use endpoints::Endpoint;
pub use starting::begin;
