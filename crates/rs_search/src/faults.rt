//! The answers of the search that are no derivation.
/// Why there is no derivation that the search could answer.
#[derive(Clone, Copy, Debug, PartialEq, Eq)]
pub enum SearchFault {
    /// There is no derivation within the bound. `cut` is whether some candidate owes as much as the bound allows and would
    /// owe more; if none does, there is no derivation of any bound.
    NotFound { cut: bool },
    /// The canonical derivation has a cycle of edges that keep their head; the node is the least on such a cycle. So
    /// each derivation forgets, of whatever bound.
    Forgets { node: u32 },
    /// There are more than 65,536 candidates.
    TooLarge,
    /// Memory ran out.
    NoMemory,
}
