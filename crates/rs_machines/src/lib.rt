//! The reader and the printer of machines.
#![tactic(auto)]

pub mod canonical_laws;
pub mod fault_laws;
pub mod laws;
mod machines;
mod printing;
pub mod printing_laws;
mod shapes;
pub mod spelling_laws;

pub use machines::read_machine;
pub use printing::print_machine;
pub use rs_bodies::Mark;
pub use shapes::machine_text_shaped;
