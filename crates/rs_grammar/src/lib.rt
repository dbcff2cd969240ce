//! Grammars as data, and one reader for all of them.
//!
//! A grammar is a list of parts. Each way of a part begins with a token, so that the next token alone says how the reader goes
//! on; its place is the stack of the symbols that are still to be read. What a reader makes of the tokens is up to its
//! [`Builder`].
#![tactic(auto)]

mod builders;
mod classes;
pub mod laws;
mod reader;
mod symbols;
#[cfg(test)]
mod tests;

pub use builders::{Builder, Chosen};
pub use classes::{Class, Keyword};
pub use reader::{GrammarReader, Place, read};
pub use symbols::Symbol;
