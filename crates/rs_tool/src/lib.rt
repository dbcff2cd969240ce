//! `command`: the program's words, carried out on its input.
#![tactic(auto)]

mod calls;
mod generating;
pub mod laws;
mod never;
mod pipelines;
mod preparing;
mod statuses;
mod texts;

pub use calls::{command, command_serial};
pub use never::check_never;
pub use pipelines::{Pipeline, pipeline_of};
pub use rs_documents::{Document, print_document, read_document};
pub use rs_model::DEFAULT_BOUND;
pub use rs_pool::{Gate, NoGate};
pub use statuses::{Reply, Serial, Status};
pub use texts::{pipeline_summary, pipeline_text};
