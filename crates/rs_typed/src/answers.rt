//! What the acts of endpoints answer.

use crate::endpoints::At;
use crate::payloads::Payload;
use crate::spots::Spot;

/// What a send did. For example `let TypedSent::Went(at) = told else { .. }` goes on at the next spot.
pub enum TypedSent<S: Spot, N: Spot, V: Payload> {
    /// The value was sent, and the role stands at the next spot.
    Went(At<N>),
    /// The ring was full: the role has sent `sent` values to this receiver, of which the receiver had taken `taken` when this
    /// call looked, the capacity less. The endpoint and the value come back.
    Full {
        at: At<S>,
        value: V,
        sent: u64,
        taken: u64,
    },
}

/// What a receive did at a spot that takes one label. For example `TypedOne::Got(copy, at)` has the value and the next spot.
pub enum TypedOne<S: Spot, N: Spot, V: Payload> {
    /// The value was got, and the role stands at the next spot.
    Got(V, At<N>),
    /// The ring was empty: the sender had sent `seen` values when this call looked, and the role has got them all. The
    /// endpoint comes back.
    Empty { at: At<S>, seen: u64 },
}

/// What a receive did at a spot that takes two labels. For example a `match` with the cases `TypedTwo::First(copy, at)`,
/// `TypedTwo::Second((), at)` and `TypedTwo::Empty { at, .. }` is whole.
pub enum TypedTwo<S: Spot, M: Spot, V: Payload, N: Spot, W: Payload> {
    /// A value with the first label was got, and the role stands at the spot after it.
    First(V, At<M>),
    /// A value with the second label was got, and the role stands at the spot after it.
    Second(W, At<N>),
    /// The ring was empty: the sender had sent `seen` values when this call looked, and the role has got them all. The
    /// endpoint comes back.
    Empty { at: At<S>, seen: u64 },
}
