//! The bounded search for a derivation.
#![tactic(auto)]

mod faults;
mod figures;
mod forward;
mod found;
mod itself;
pub mod laws;
mod nodes;
mod searches;
mod survivors;
mod table;
mod turns;

pub use faults::SearchFault;
pub use figures::{OwnFigures, own_figures};
pub use found::Candidates;
pub use searches::{search, search_counted, search_own};
pub use survivors::candidates_of;
pub use table::SpotTable;
