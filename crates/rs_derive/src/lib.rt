//! Derivations: that a machine may replace its projection, and the test of one.
#![tactic(auto)]

mod checks;
mod derivations;
mod faults;
pub mod laws;
mod nexts;
mod rules;
mod targets;

pub use checks::check;
pub use derivations::{DNode, Derivation, longest, top_rank};
pub use faults::DeriveFault;
pub use rs_graph::{Graph, StepCount};
pub use rules::{Rule, arm_of, arms_at, rule_at};
pub use targets::{Change, EdgeTarget, is_target, same_acts};
