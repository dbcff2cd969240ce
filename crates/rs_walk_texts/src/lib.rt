//! How a machine's walk beside its projection is written: its acts, what it owes, and why it can't go on.
#![tactic(auto)]

mod acts;
mod alike;
mod dues;
mod elsewhere;
mod heads;
mod hints;
pub mod laws;
mod nearness;
mod oneway;
mod owing;
mod passed;
mod positions;
mod rounds;
mod sources;
mod stops;
mod talks;
mod walks;

pub use acts::{push_act, push_acts, push_maybe_act, push_owed_line};
pub use dues::push_dues;
pub use heads::{act_by, push_head, push_placed_head};
pub use hints::push_hints;
pub use nearness::is_near;
pub use positions::{push_at, push_position};
pub use rounds::push_walk;
pub use sources::{SpotRef, WalkSource};
pub use stops::push_stop;
pub use talks::{push_placed_talk, push_talk, push_talk_by};
pub use walks::{push_steps, spot_behind};
