//! The examples that run on real data: double buffering, a ring, a stream and the butterfly of the Walsh-Hadamard
//! transform.
#![tactic(auto)]

mod actors;
mod documents;
mod exchanges;
mod faults;
pub mod laws;
mod numbers;
mod outputs;
mod parts;
mod sessions;
mod starts;

pub use actors::{DemoActor, DemoTalker};
pub use documents::demo_document;
pub use faults::DemoFault;
pub use outputs::{demo_output, into_demo_output};
pub use parts::{ButterflyMember, Kernel, PIECE_BYTES, PieceSink, PieceSource, RingMember};
pub use sessions::demo_session_document;
pub use starts::demo_actors;
