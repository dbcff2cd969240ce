//! The text of derivations: how one is read and printed.
#![tactic(auto)]

mod derivations;
mod formats;
pub mod laws;
mod lists;
mod printing;
mod reading;

pub use derivations::read_derivation;
pub use formats::Format;
pub use printing::print_derivation;
