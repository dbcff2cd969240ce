//! Tests of sessions: runs on one thread and by workers, stages over rings, and what is received. A file is named by the crate
//! that it tests. The documents and the gates also serve the tests of the program.
#![tactic(auto)]

pub mod documents;
pub mod gates;
#[cfg(test)]
mod of_rs_alive;
#[cfg(test)]
mod of_rs_core_steps;
#[cfg(test)]
mod of_rs_demos;
#[cfg(test)]
mod of_rs_exec;
#[cfg(test)]
mod of_rs_pool;
#[cfg(test)]
mod of_rs_room;
#[cfg(test)]
mod of_rs_session;
#[cfg(test)]
mod recorder;
#[cfg(test)]
mod runs;
#[cfg(test)]
mod transcripts;
