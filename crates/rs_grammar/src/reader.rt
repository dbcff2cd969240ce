//! The one reader of all grammars.

ghost use Rattle.std.specs.Prelude.{◌≡◌, ◌≤◌, ◌++◌, ◌∷◌, [], is_some, length, IfOk, IfErr, OnOk, None};
ghost use Rattle.rs_grammar.specs.Code.{Steps, place_of};
ghost use Rattle.rs_grammar.specs.Grammar.{whole};
ghost use Rattle.rs_grammar.specs.Places as places;
ghost use Rattle.rs_grammar.specs.Readings.{IsFirstFault, IsReadAs};
ghost use Rattle.rs_grammar.specs.Steps as spec;
ghost use Rattle.rs_text.specs.Lexing.{next_lexeme};
ghost use Rattle.rs_text.specs.Readings.{Feeds};

use crate::{Builder, Symbol};
use rs_model::NoMemory;
use rs_text::{
    Stop, Terminal, TextKind, TextToken, TokenReader, Wanted, expected, fault, next_token,
    read_tokens,
};
use std::alloc::Global;
use std::marker::Model;

/// A place in a grammar: the stack of the symbols that are still to be read.
#[derive(Drop)]
pub struct Place {
    stack: Vec<Symbol>,
}

impl Model for Place {
    ghost use Rattle.std.specs.Prelude.{List};
    ghost use Rattle.rs_grammar.specs.Code.{place_of};
    ghost use Rattle.rs_grammar.specs.declared.symbols.Symbol.{Symbol};

    ghost Value = { List Symbol };

    ghost view = { λ p. place_of p.stack.items };
}

impl Place {
    /// The place before the first token of a grammar.
    pub fn new(alloc: Global) -> Result<Place, NoMemory>
        ensures { IfOk result (λ place. place ≡ whole) }
    {
        let mut stack = Vec::new(alloc);
        stack.push(Symbol::Part(0))?;
        Ok(Place { stack })
    }

    /// Whether nothing is left to be read.
    fn is_done(&self) -> bool
        ensures { result ≡ spec.is_done self.now }
    {
        self.stack.is_empty()
    }

    /// Makes the step of a token, and returns its action.
    fn step<'a, B: Builder<'a>>(&mut self, token: &TextToken) -> Result<Option<u8>, NoMemory>
        ensures { IfOk result (λ action. Steps B.grammar token.now.sign self.old self.new action) }
    {
        step_on::<B>(&mut self.stack, token)
    }

    /// Whether a token is taken here.
    fn takes<'a, B: Builder<'a>>(&self, token: &TextToken) -> bool
        ensures { result ≡ is_some (spec.step B.grammar self.now token.now.sign) }
    {
        takes_on::<B>(self.stack.as_slice(), token)
    }

    /// Whether all that is still to be read is optional.
    fn can_end<'a, B: Builder<'a>>(&self) -> bool
        ensures { result ≡ places.can_end B.grammar self.now }
    {
        can_end_on::<B>(self.stack.as_slice())
    }

    /// What is wanted here.
    fn wanted<'a, B: Builder<'a>>(&self) -> Wanted
        ensures { result ≡ places.wanted_at B.grammar self.now }
    {
        wanted_on::<B>(self.stack.as_slice())
    }

    /// Leaves the grammar if all that is still to be read is optional, and the next token doesn't begin it.
    fn settle<'a, B: Builder<'a>>(&mut self, bytes: &'a [u8], at: usize)
        requires { at ≤ length bytes.now }
        ensures { self.new ≡ spec.settled B.grammar self.old (next_lexeme bytes.now at).sign }
    {
        if self.is_done() || !self.can_end::<B>() {
            return;
        }
        let next = next_token(bytes, at);
        if is_whole(&next) && !self.takes::<B>(&next) {
            self.stack.clear();
        }
    }
}

/// Puts symbols on the stack, so that the first comes to the top.
fn push_all(stack: &mut Vec<Symbol>, symbols: &[Symbol]) -> Result<(), NoMemory>
    ensures { OnOk result (place_of stack.new.items ≡ symbols.now ++ place_of stack.old.items) }
{
    let mut left = symbols.len();
    while left > 0 {
        left -= 1;
        stack.push(symbols[left])?;
    }
    Ok(())
}

fn step_on<'a, B: Builder<'a>>(
    stack: &mut Vec<Symbol>,
    token: &TextToken,
) -> Result<Option<u8>, NoMemory>
    ensures { IfOk result (λ action. Steps B.grammar token.now.sign (place_of stack.old.items) (place_of stack.new.items) action) }
{
    let mut height = stack.len();
    while height > 0 {
        height -= 1;
        match stack[height] {
            Symbol::Terminal(class, _wanted, action) => {
                if !class.accepts(token) {
                    return Ok(None);
                }
                stack.truncate(height);
                return Ok(Some(action));
            }
            Symbol::Part(part) => {
                if let Some(chosen) = B::way(part, token) {
                    stack.truncate(height);
                    push_all(stack, chosen.rest)?;
                    return Ok(Some(chosen.action));
                }
                if !B::is_optional(part) {
                    return Ok(None);
                }
            }
        }
    }
    Ok(None)
}

fn takes_on<'a, B: Builder<'a>>(stack: &[Symbol], token: &TextToken) -> bool
    ensures { result ≡ is_some (spec.step B.grammar (place_of stack.now) token.now.sign) }
{
    let mut height = stack.len();
    while height > 0 {
        height -= 1;
        match stack[height] {
            Symbol::Terminal(class, _wanted, _action) => return class.accepts(token),
            Symbol::Part(part) => {
                if B::way(part, token).is_some() {
                    return true;
                }
                if !B::is_optional(part) {
                    return false;
                }
            }
        }
    }
    false
}

fn can_end_on<'a, B: Builder<'a>>(stack: &[Symbol]) -> bool
    ensures { result ≡ places.can_end B.grammar (place_of stack.now) }
{
    let mut height = stack.len();
    while height > 0 {
        height -= 1;
        match stack[height] {
            Symbol::Terminal(_class, _wanted, _action) => return false,
            Symbol::Part(part) => {
                if !B::is_optional(part) {
                    return false;
                }
            }
        }
    }
    true
}

fn wanted_on<'a, B: Builder<'a>>(stack: &[Symbol]) -> Wanted
    ensures { result ≡ places.wanted_at B.grammar (place_of stack.now) }
{
    let mut height = stack.len();
    while height > 0 {
        height -= 1;
        match stack[height] {
            Symbol::Terminal(_class, wanted, _action) => return wanted,
            Symbol::Part(part) => {
                if let Some(wanted) = B::wanted(part) {
                    return wanted;
                }
            }
        }
    }
    Wanted::PartOrEnd
}

fn is_whole(token: &TextToken) -> bool
    ensures { result ≡ spec.is_left token.now.sign None }
{
    !matches!(token.terminal(), Terminal::Faulty(_))
}

/// Reads a text by a grammar, token by token: a [`TokenReader`] for any builder.
#[derive(Drop)]
pub struct GrammarReader<B> {
    place: Place,
    pub builder: B,
}

impl<B> Model for GrammarReader<B> {
    ghost use Rattle.rs_grammar.specs.Steps.{Reader};

    ghost Value = { Reader B };

    ghost view = { λ r. record { place = r.place; value = r.builder } };
}

impl<B> GrammarReader<B> {
    /// A reader at a place, with what was made so far.
    pub fn new(place: Place, builder: B) -> GrammarReader<B>
        ensures { result ≡ record { place = place; value = builder } }
    {
        GrammarReader { place, builder }
    }
}

impl<'a, B: Builder<'a>> TokenReader<'a> for GrammarReader<B> {
    ghost use Rattle.rs_grammar.specs.Ends.{at_end_stops};
    ghost use Rattle.rs_grammar.specs.Steps.{automaton};

    ghost automaton = { automaton B.grammar B.building };

    ghost stops_at_end = { at_end_stops B.grammar B.building };

    ghost names = { λ r. B.names r.value };

    fn feed(&mut self, token: &TextToken<'a>, bytes: &'a [u8]) -> Result<(), Stop> {
        if let Terminal::Faulty(kind) = token.terminal() {
            return fault(TextKind::from(kind), token.from());
        }
        let Some(action) = self.place.step::<B>(token)? else {
            return expected(self.place.wanted::<B>(), token.from());
        };
        self.builder.take(action, token, bytes)?;
        self.place.settle::<B>(bytes, token.until());
        Ok(())
    }

    fn is_read(&self) -> bool {
        self.place.is_done()
    }
}

/// Reads a text from the offset `at` on by the builder's grammar, and returns what was made of its tokens, with the offset of
/// the token after them.
///
/// What is read is the longest sentence of the grammar that the text begins with there, and the builder is then what its
/// actions make of it. Otherwise the first fault is told, or that memory was refused.
pub fn read<'a, B: Builder<'a>>(
    place: Place,
    builder: B,
    bytes: &'a [u8],
    at: usize,
) -> (B, Result<usize, Stop>)
    requires begin { place ≡ whole }
    requires at { at ≤ length bytes.now }
    ensures ok { IfOk result.1 (λ until. IsReadAs B.grammar B.building builder bytes.now at result.0 until) }
    ensures within { IfOk result.1 (λ until. until ≤ length bytes.now) }
    ensures err { IfErr result.1 (λ stop. IsFirstFault B.grammar B.building builder bytes.now at stop) }
{
    let mut reader = GrammarReader::new(place, builder);
    let result = read_tokens(&mut reader, bytes, at);
    let GrammarReader { builder, .. } = reader;
    (builder, result)
}
