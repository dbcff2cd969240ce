//! What a reader has of its grammar, and what it makes of the tokens.

ghost use Rattle.std.specs.Prelude.{◌≡◌, ◌≤◌, length, true};
ghost use Rattle.std.specs.Option.{option_map};
ghost use Rattle.rs_grammar.specs.Building.{Building};
ghost use Rattle.rs_grammar.specs.Code.{chosen_way, shown_way};
ghost use Rattle.rs_grammar.specs.Grammar.{Grammar, part_at};
ghost use Rattle.rs_grammar.specs.Steps.{placed, way_by};
ghost use Rattle.rs_grammar.specs.Tests.{is_readable};
ghost use Rattle.rs_model.specs.Data.{Names_data};
ghost use Rattle.rs_text.specs.Lexing.{next_lexeme};
ghost use Rattle.rs_text.specs.Readings.{Feeds};

use crate::Symbol;
use rs_text::{Stop, TextToken, Wanted};

/// A way of a part: the number of its first token's action, and the symbols after the token.
#[derive(Clone, Copy)]
pub struct Chosen {
    pub action: u8,
    pub rest: &'static [Symbol],
}

/// The rows of a grammar, and what its tokens make of a value.
pub trait Builder<'a> {
    /// The grammar.
    ghost grammar: { Grammar };

    /// What the action of a token makes of the builder.
    ghost building: { Building Self };

    /// The names that were there, with those that were read.
    ghost names: { Self → Names_data };

    /// One token decides, and all parts derive something.
    ghost readable: { is_readable grammar ≡ true };

    /// The way of the part that begins with the token.
    fn way(part: u8, token: &TextToken) -> Option<Chosen>
        ensures { option_map shown_way result ≡ option_map chosen_way (way_by (part_at grammar part).ways token.now.sign) };

    /// Whether the part is optional.
    fn is_optional(part: u8) -> bool
        ensures { result ≡ (part_at grammar part).optional };

    /// What a fault says was wanted if no way of the part begins; nothing if it is what is wanted after the part.
    fn wanted(part: u8) -> Option<Wanted>
        ensures { result ≡ (part_at grammar part).wanted };

    /// Carries out the action of a token, which may read the next token.
    fn take(&mut self, action: u8, token: &TextToken<'a>, bytes: &'a [u8]) -> Result<(), Stop>
        requires { token.now.until ≤ length bytes.now }
        ensures { Feeds names result (placed (building action token.now.sign (next_lexeme bytes.now token.now.until).sign self.old) token.now.from) self.old self.new };
}
