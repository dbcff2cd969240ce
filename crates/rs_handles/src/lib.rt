//! Boxes as pointers, for the handles by which programs in C hold values of Rattle.
#![tactic(auto)]

mod pointers;

pub use pointers::OwnedPointer;
