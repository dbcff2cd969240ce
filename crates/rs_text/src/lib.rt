//! Texts: their tokens, places, names and faults, and the buffer that texts are written into.
#![tactic(auto)]

mod bound;
mod byte_kinds;
mod faults;
pub mod laws;
mod lexing;
mod messages;
mod names;
mod output;
mod places;
mod reading;
pub mod seen;
pub mod shown;
mod tables;
mod terminals;
mod token_readers;
mod token_tests;
mod tokens;
mod word_lanes;

pub use bound::{Binding, bound_number, unbind};
pub use faults::{TextFault, TextKind, Wanted};
pub use lexing::{Lexer, next_token};
pub use messages::{MessagePlace, MessageStep, feed_label, feed_message};
pub use names::{add, find, find_role, is_role_word, is_word, sound};
pub use output::Text;
pub use places::place;
pub use reading::{Stop, expected, fault};
pub use tables::NameTable;
pub use terminals::{Terminal, TextToken};
pub use token_readers::{TokenReader, read_tokens};
pub use tokens::{FaultKind, Token, TokenFault, TokenKind};
