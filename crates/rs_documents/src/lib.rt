//! Documents: a protocol, and machines and derivations for some of its roles.
#![tactic(auto)]

mod documents;
pub mod laws;
mod printing;

pub use documents::{Document, read_document, read_machine_or_table};
pub use printing::print_document;
