//! What `run` answers to a document, and `demo` to its data: the words for which a session is run over rings, by one thread or
//! by several.
#![tactic(auto)]

mod answers;
mod demos;
pub mod laws;
mod limits;
mod ready;
mod running;
mod runs;
mod transcript_texts;

pub use answers::AnswerWithSession;
pub use demos::ready_demo;
pub use limits::DEMO_LIMIT;
pub use ready::{Prepared, Ready};
pub use running::{run_alone, run_by_crew};
pub use runs::{outcome_answer, ready_run};
