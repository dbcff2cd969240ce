//! What runs over rings leave.
use rs_core::Run;
use rs_rings::Closed;

/// What a run of an accepted session leaves: its outcome and actors, and the session over rings that it went through, closed
/// or given up.
#[derive(Drop)]
pub struct Ran<A: Drop> {
    pub run: Run<A>,
    pub closed: Closed,
}
