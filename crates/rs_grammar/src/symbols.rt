//! What the ways of a grammar are made of.

use crate::Class;
use rs_text::Wanted;

/// A token of a class, with what a fault says was wanted if it is missing and the number of its action; or a part of the
/// grammar, by its number.
#[derive(Clone, Copy)]
pub enum Symbol {
    Terminal(Class, Wanted, u8),
    Part(u8),
}
