//! The reader and the printer of protocols with choice and recursion.
#![tactic(auto)]

pub mod canonical_laws;
pub mod fault_laws;
pub mod laws;
mod printing;
pub mod printing_laws;
mod protocols;
mod shapes;
pub mod spelling_laws;

pub use printing::print_protocol;
pub use protocols::read_protocol;
pub use shapes::text_shaped;
