//! What `check`, `verify`, `migrate`, `show`, `project` and `improve` answer to a document, and sessions that are accepted.
#![tactic(auto)]

mod accepting;
mod answers;
mod checks;
mod derivations;
mod figures;
mod improving;
pub mod laws;
mod lines;
mod migrating;
mod refusal_texts;
mod refusals;
mod reports;
mod sessions;
mod shown;
mod tables;
mod texts;
mod verdicts;
mod verifying;

pub use accepting::{AcceptedDocument, RefusedDocument, accept_document};
pub use answers::Answer;
pub use checks::{check, check_with_derivations};
pub use derivations::{DerivedSession, Underivable, derivations_of, derived_session};
pub use improving::improve_role;
pub use migrating::migrate;
pub use refusal_texts::{
    answer_to_fault, label_name, line_of_answer, role_name, too_large, too_small, usage,
};
pub use refusals::{Refusal, refusal_answer};
pub use reports::report;
pub use sessions::{ProjectedSession, machines_of, projections_of, session_of};
pub use shown::show;
pub use tables::project_all;
pub use texts::{Piece, push_pieces};
pub use verdicts::Verdict;
pub use verifying::{Blame, accept_by_own, are_all_there, verify};
