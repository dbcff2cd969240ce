//! The names of the demos.

/// An example that runs on real data.
#[derive(Clone, Copy, Debug, PartialEq, Eq)]
pub enum Demo {
    /// A kernel between a source and a sink, which asks for the next piece before it hands on the last one.
    Double,
    /// Roles in a ring that pass numbers on until each has the sum of all.
    Ring,
    /// A source that sends one piece ahead of the sink's requests.
    Stream,
    /// Roles that exchange numbers in pairs until they hold the Walsh-Hadamard transform.
    Butterfly,
}
