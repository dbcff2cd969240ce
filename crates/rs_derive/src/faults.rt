//! The reasons for which the checker refuses.
/// Why a list of nodes is no derivation, or forgets something that is owed. `node` is the number of the node that is
/// at fault, `arm` a place among its nexts.
#[derive(Clone, Copy, Debug, PartialEq, Eq)]
pub enum DeriveFault {
    /// There is no node, or the first one isn't the start of both machines with nothing pending.
    BadStart,
    /// The machine or the projection has no such state.
    BadState { node: u32 },
    /// More acts are pending than the bound.
    TooLongPending { node: u32 },
    /// The node has no move.
    NoMove { node: u32 },
    /// The next doesn't name the result that is due there, or there is one too few or too many: the arm is then the
    /// lesser count.
    WrongNext { node: u32, arm: u32 },
    /// The edge keeps its head, and the rank doesn't fall.
    Forgets { node: u32, arm: u32 },
}
