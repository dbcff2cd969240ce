//! Readers that take a text token by token, and the loop over its tokens.

ghost use Rattle.std.specs.Prelude.{◌≡◌, ◌≤◌, length, IfOk, IfErr, Ok};
ghost use Rattle.rs_model.specs.Data.{Names_data};
ghost use Rattle.rs_text.specs.Lexing.{next_lexeme};
ghost use Rattle.rs_text.specs.Readings.{AreNamesBehind, Automaton, Feeds, Leaves, ReadsBy, StopsAtEnd, StopsBy, feed_sign};

use crate::{Stop, TextToken, next_token};

/// What reads a text token by token: its grammar is what it makes of a token.
pub trait TokenReader<'a> {
    /// What a token makes of the reader, and whether all is read.
    ghost automaton: { Automaton Self };

    /// It never takes the end, and nothing behind the end counts.
    ghost stops_at_end: { StopsAtEnd automaton };

    /// The names that were there, with those that were read.
    ghost names: { Self → Names_data };

    /// Takes one token of the text, which may look at the one behind it.
    fn feed(&mut self, token: &TextToken<'a>, bytes: &'a [u8]) -> Result<(), Stop>
        requires { token.now.until ≤ length bytes.now }
        ensures { Feeds names result (feed_sign automaton token.now.sign token.now.from (next_lexeme bytes.now token.now.until) self.old) self.old self.new };

    /// Whether all is read.
    fn is_read(&self) -> bool
        ensures { result ≡ automaton.is_read self.now };
}

/// Feeds the reader the tokens from the offset `at` on until all is read, and gives the offset of the token behind.
#[inline(always)]
pub fn read_tokens<'a, R: TokenReader<'a>>(
    reader: &mut R,
    bytes: &'a [u8],
    at: usize,
) -> Result<usize, Stop>
    requires at { at ≤ length bytes.now }
    ensures ok { IfOk result (λ until. ReadsBy R.automaton reader.old bytes.now at (Ok (record { reader = reader.new; until = until }))) }
    ensures within { IfOk result (λ until. until ≤ length bytes.now) }
    ensures err { IfErr result (λ stop. StopsBy R.automaton stop reader.old bytes.now at) }
    ensures left { IfErr result (λ stop. Leaves R.automaton R.names stop reader.old bytes.now at (R.names reader.new)) }
    ensures names { AreNamesBehind R.automaton R.names reader.old bytes.now at (R.names reader.new) }
{
    let mut until = at;
    while !reader.is_read() {
        let token = next_token(bytes, until);
        reader.feed(&token, bytes)?;
        until = token.until();
    }
    let behind = next_token(bytes, until);
    Ok(behind.from())
}
