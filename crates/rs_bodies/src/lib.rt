//! The bodies of protocols and machines: one grammar in two dialects.
#![tactic(auto)]

mod ahead;
pub mod canonical_laws;
mod dialects;
mod drafts;
pub mod laws;
mod marks;
mod parts;
mod places;
mod points;
mod printing;
mod reading;
mod shapes;

pub use dialects::{Dialect, Head, Mark};
pub use parts::read_part;
pub use places::{NumberedGraph, Place, PointRef};
pub use points::{Point, Spelling};
pub use printing::print_body;
pub use shapes::has_body;
