//! The tables of machines: how one is read and printed.
#![tactic(auto)]

pub mod laws;
mod printing;
mod reading;
mod tables;

pub use printing::print_table;
pub use tables::read_table;
