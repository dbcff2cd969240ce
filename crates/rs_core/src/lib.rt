//! Configurations of machines over queues, their steps, and what it means that machines are safe.
#![tactic(auto)]

mod actors;
mod arm_places;
mod bounded;
mod cells;
pub mod laws;
mod messages;
mod players;
mod playing;
mod queues;
mod rows;
mod runs;
mod seeded;
mod steps;
mod transcripts;
mod turns;

pub use actors::Actor;
pub use arm_places::place_by_label;
pub use messages::{Event, GotBy, Message, Refused, StepFault, Stepped};
pub use players::Player;
pub use playing::{End, Finished, play};
pub use queues::{Posted, Queues};
pub use runs::{Outcome, Run, RunFault, got_from, run_bounded, run_of, run_plain, sent_to};
pub use seeded::SeededActor;
pub use steps::{Core, starts_of};
pub use transcripts::{Entry, Transcript, Transcripts};
