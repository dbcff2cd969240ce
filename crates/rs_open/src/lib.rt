//! From a text to a session that runs: the text is read and accepted, and its session runs by actors, with the names of the text.
#![tactic(auto)]

pub mod laws;
mod opening;
mod running;
mod sessions;
mod sorts;

pub use opening::{OpenRefused, open, open_certified, open_verified, open_within};
pub use running::CrewFault;
pub use sessions::OpenSession;
pub use sorts::sort_word;
