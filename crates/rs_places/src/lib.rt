//! Where the talks of a document's protocol and the states of its machines begin in the text.
#![tactic(auto)]

mod finding;
pub mod laws;
mod places;
mod tokens;

pub use finding::places_of;
pub use places::{Places, Position};
