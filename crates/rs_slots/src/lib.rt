//! Which words and slots of a table belong to which ring, and what a slot holds.
#![tactic(auto)]

pub mod laws;
mod layouts;
mod parcels;

pub use layouts::Layout;
pub use parcels::Parcel;
