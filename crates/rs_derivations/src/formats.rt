//! The formats of a derivation's text.

/// How a text writes the pending acts of nodes.
#[derive(Clone, Copy, Debug, PartialEq, Eq)]
pub enum Format {
    /// Format 1: the acts of each node stand in it.
    One,
    /// Format 2: each list of acts stands before the nodes, and a node has the number of its list.
    Two,
}
