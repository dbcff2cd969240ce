//! Algorithms on graphs whose nodes are numbers: the removal of nodes that have no move left (`remove`), numbers by first
//! discovery (`number_all`), and, in rows of numbers, ranks (`rank_rows`) and cycles (`least_on_cycle`).
#![tactic(auto)]

mod build;
mod cycles;
mod graph;
mod number;
mod ranks;
mod removal;
mod steps;

pub use build::graph_of;
pub use cycles::least_on_cycle;
pub use graph::{Graph, NodeRow};
pub use number::{NumberedNodes, number_all};
pub use ranks::{RankFault, rank_rows};
pub use removal::{Removal, remove, remove_uncounted};
pub use steps::StepCount;
