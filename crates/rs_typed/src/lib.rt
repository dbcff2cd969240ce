//! Endpoints as types: each state of a role's machine is a type of the author's own, and who holds the role there can do only
//! what the machine does there. No case is written for a message that can't come.
#![tactic(auto)]

mod answers;
mod endpoints;
pub mod laws;
mod numbers;
mod payloads;
mod spots;

pub use answers::{TypedOne, TypedSent, TypedTwo};
pub use endpoints::At;
pub use numbers::Nat;
pub use payloads::Payload;
pub use spots::{
    Finishes, HasLabel, HasRole, Message, Party, Puts, Spot, TakesOne, TakesTwo, Typing,
};
