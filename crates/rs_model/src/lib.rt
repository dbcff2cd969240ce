//! The types of Rumpsteak: protocols, machines, sorts, values and demos, and what a run is told; and the test of a machine.
#![tactic(auto)]

mod checks;
mod demos;
mod graph;
pub mod laws;
mod limits;
mod machines;
mod memory;
mod runs;
mod values;
mod words;

pub use checks::{MachineFault, first_repeat, has_next_from};
pub use demos::Demo;
pub use graph::{Arm, Arms, Label, Node, Protocol, Role};
pub use limits::{
    DEFAULT_BOUND, MOST_ACTS, MOST_ARMS, MOST_BOUND, MOST_BYTES, MOST_CANDIDATES, MOST_CAPACITY,
    MOST_LABELS, MOST_NAME_BYTES, MOST_NESTING, MOST_NUMBER, MOST_ROLES, MOST_STATES, MOST_TALKS,
    MOST_WORKERS,
};
pub use machines::{Act, Machine, State, copies_of};
pub use memory::NoMemory;
pub use runs::{Bound, Capacity, Crew, RunOptions, Workers};
pub use values::{Numbers, Octets, Sort, Value};
pub use words::{Name, Names};
