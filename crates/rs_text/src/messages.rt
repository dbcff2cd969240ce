//! Messages, `LABEL ( [sort] )`, token by token.

ghost use Rattle.std.specs.Prelude.{◌≡◌, ◌≤◌, ℕ, List, length, IfSome, IfNone, IfOk, IfErr, OnErr, Some, None, Ok};
ghost use Rattle.rs_model.specs.declared.limits.TheConstants.{MOST_LABELS};
ghost use Rattle.rs_text.specs.Messages as spec;
ghost use Rattle.rs_text.specs.Names.{place_of};
ghost use Rattle.rs_text.specs.Readings.{Fails};
ghost use Rattle.rs_text.specs.Seen.{word_text, sort_named};

use crate::{NameTable, Stop, Terminal, TextKind, TextToken, Wanted, expected, fault, seen};
use rs_model::{Label, MOST_LABELS, Sort};
use std::alloc::Global;

/// The place within a message, with what was read of it.
#[derive(Clone, Copy, PartialEq, Eq)]
pub enum MessagePlace {
    /// At the label.
    Label,
    /// At `(`.
    Paren { label: Label },
    /// At the sort, or at `)` where there is none.
    Sort { label: Label },
    /// At `)` behind the sort.
    Close { label: Label, sort: Sort },
}

/// What a token makes of a message.
#[derive(Clone, Copy, PartialEq, Eq)]
pub enum MessageStep {
    /// It goes on at this place.
    GoesOn { place: MessagePlace },
    /// It is read.
    Ends { label: Label, sort: Sort },
}

/// Takes one token of a message. A label that is new is put behind the others.
#[inline(always)]
pub fn feed_message(
    place: MessagePlace,
    token: &TextToken,
    alloc: Global,
    labels: &mut NameTable,
) -> Result<MessageStep, Stop>
    requires room { length labels.old ≤ MOST_LABELS }
    ensures step { spec.Feeds result (spec.feed_message place token.now.sign token.now.from labels.old) labels.old labels.new }
    ensures bounded { length labels.new ≤ MOST_LABELS }
{
    match place {
        MessagePlace::Label => {
            let label = feed_label(Wanted::Label, token, alloc, labels)?;
            Ok(MessageStep::GoesOn {
                place: MessagePlace::Paren { label },
            })
        }
        MessagePlace::Paren { label } => open_paren(label, token),
        MessagePlace::Sort { label } => sort(label, token),
        MessagePlace::Close { label, sort } => close_paren(label, sort, token),
    }
}

/// Takes the label of a message, at a place where this is wanted.
#[inline(always)]
pub fn feed_label(
    wanted: Wanted,
    token: &TextToken,
    alloc: Global,
    labels: &mut NameTable,
) -> Result<Label, Stop>
    requires room { length labels.old ≤ MOST_LABELS }
    ensures ok { IfOk result (λ label. spec.feed_label wanted (word_text token.now.sign) token.now.from labels.old ≡ Ok (spec.goes_on labels.new (MessagePlace.Paren label))) }
    ensures err { IfErr result (λ e. Fails e (spec.feed_label wanted (word_text token.now.sign) token.now.from labels.old)) }
    ensures kept { OnErr result (labels.new ≡ labels.old) }
    ensures bounded { length labels.new ≤ MOST_LABELS }
{
    let Some(word) = token.word() else {
        return expected(wanted, token.from());
    };
    label_of_word(word, token.from(), alloc, labels)
}

/// The label that a word names, be it known or new.
#[inline(always)]
fn label_of_word(
    word: &[u8],
    at: usize,
    alloc: Global,
    labels: &mut NameTable,
) -> Result<Label, Stop>
    requires room { length labels.old ≤ MOST_LABELS }
    ensures ok { IfOk result (λ label. spec.feed_label_number (place_of word.now labels.old) word.now at labels.old ≡ Ok (spec.goes_on labels.new (MessagePlace.Paren label))) }
    ensures err { IfErr result (λ e. Fails e (spec.feed_label_number (place_of word.now labels.old) word.now at labels.old)) }
    ensures kept { OnErr result (labels.new ≡ labels.old) }
    ensures bounded { length labels.new ≤ MOST_LABELS }
{
    match label_named(labels, word) {
        Some(label) => Ok(label),
        None => new_label(word, at, alloc, labels),
    }
}

/// The label with this name.
#[tactic(auto, using(crate::proofs::Numbers::place_below))]
fn label_named(labels: &NameTable, word: &[u8]) -> Option<Label>
    requires { length labels.now ≤ MOST_LABELS }
    ensures some { IfSome result (λ label. place_of word.now labels.now ≡ Some label.0) }
    ensures none { IfNone result (place_of word.now labels.now ≡ None) }
{
    let place = labels.find(word)?;
    Some(Label(place as u16))
}

#[inline(never)]
fn new_label(word: &[u8], at: usize, alloc: Global, labels: &mut NameTable) -> Result<Label, Stop>
    requires room { length labels.old ≤ MOST_LABELS }
    ensures ok { IfOk result (λ label. spec.feed_label_number None word.now at labels.old ≡ Ok (spec.goes_on labels.new (MessagePlace.Paren label))) }
    ensures err { IfErr result (λ e. Fails e (spec.feed_label_number None word.now at labels.old)) }
    ensures kept { OnErr result (labels.new ≡ labels.old) }
    ensures bounded { length labels.new ≤ MOST_LABELS }
{
    if labels.len() >= MOST_LABELS {
        return fault(TextKind::TooManyLabels, at);
    }
    let place = labels.add(alloc, word)?;
    Ok(Label(place as u16))
}

#[inline(always)]
fn open_paren(label: Label, token: &TextToken) -> Result<MessageStep, Stop>
    ensures { (labels : List (List ℕ)) → spec.Feeds result (spec.feed_paren label token.now.sign token.now.from labels) labels labels }
{
    match token.terminal() {
        Terminal::OpenParen => Ok(MessageStep::GoesOn {
            place: MessagePlace::Sort { label },
        }),
        _ => expected(Wanted::OpenParen, token.from()),
    }
}

#[inline(always)]
fn sort(label: Label, token: &TextToken) -> Result<MessageStep, Stop>
    ensures { (labels : List (List ℕ)) → spec.Feeds result (spec.feed_sort label token.now.sign token.now.from labels) labels labels }
{
    match token.terminal() {
        Terminal::CloseParen => Ok(MessageStep::Ends {
            label,
            sort: Sort::Unit,
        }),
        Terminal::Plain(word) => sort_word(label, word, token.from()),
        _ => expected(Wanted::SortOrCloseParen, token.from()),
    }
}

fn sort_word(label: Label, word: &[u8], at: usize) -> Result<MessageStep, Stop>
    ensures { (labels : List (List ℕ)) → spec.Feeds result (spec.feed_sort_word (sort_named word.now) label at labels) labels labels }
{
    let Some(sort) = seen::sort(word) else {
        return expected(Wanted::SortOrCloseParen, at);
    };
    Ok(MessageStep::GoesOn {
        place: MessagePlace::Close { label, sort },
    })
}

#[inline(always)]
fn close_paren(label: Label, sort: Sort, token: &TextToken) -> Result<MessageStep, Stop>
    ensures { (labels : List (List ℕ)) → spec.Feeds result (spec.feed_close label sort token.now.sign token.now.from labels) labels labels }
{
    match token.terminal() {
        Terminal::CloseParen => Ok(MessageStep::Ends { label, sort }),
        _ => expected(Wanted::CloseParen, token.from()),
    }
}
