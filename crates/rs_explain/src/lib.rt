//! Why a machine has no derivation: the walk along which it comes to have no move, and what stands in its way there; a walk to a
//! cut, where a greater bound helps; or a way round on which an act that is owed is never made.
#![tactic(auto)]

mod deaths;
mod distances;
mod explaining;
mod forcing;
mod growth;
mod helping;
mod kept;
pub mod laws;
mod lost;
mod obstacles;
mod rounds;
mod walking;

pub use explaining::{Ending, Explanation, WalkStep, explain, explain_cut};
pub use forcing::is_forced;
pub use growth::{Rounds, grows_for_ever, rounds_of};
pub use obstacles::Obstacle;
pub use rounds::{Forgetting, explain_forgets};
