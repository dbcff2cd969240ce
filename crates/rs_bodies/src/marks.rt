//! Marks that stand directly behind a token, in places where the grammar wants just them.

ghost use Rattle.std.specs.Prelude.{◌+◌, ◌≤◌, ◌∷◌, length, IfSome};
ghost use Rattle.rs_bodies.specs.Marks.{MarksLead, SortLeads};

use crate::dialects::Dialect;
use crate::reading::{Link, Mode};
use rs_model::{Label, Role, Sort};
use rs_text::MessagePlace;

/// Marks that were seen: the place in the grammar behind them, and their size.
#[derive(Clone, Copy)]
pub(crate) struct Marks {
    pub behind: Mode,
    pub size: usize,
}

/// A sort that was seen, and the size of it with the marks behind it.
#[derive(Clone, Copy)]
struct SortSeen {
    sort: Sort,
    size: usize,
}

impl Mode {
    /// The marks in front of the bytes, where just these are wanted here.
    #[inline(always)]
    pub fn marks(&self, dialect: Dialect, bytes: &[u8]) -> Option<Marks>
        ensures lead { IfSome result (λ marks. MarksLead dialect self.now bytes.now marks.behind marks.size) }
        ensures within { IfSome result (λ marks. marks.size ≤ length bytes.now) }
    {
        match *self {
            Mode::FirstComma => first_comma(dialect, bytes),
            Mode::Line => comma(dialect, bytes),
            Mode::AtColon => colon(dialect, bytes),
            Mode::RecDot { from } => rec_dot(dialect, from, bytes),
            Mode::AtTurn { from, first } => arrow(dialect, from, first, bytes),
            Mode::AtArms { act } => arm_colon(dialect, act, bytes),
            Mode::InMessage {
                act,
                place: MessagePlace::Paren { label },
            } => behind_label(dialect, act, label, bytes),
            Mode::InMessage {
                act,
                place: MessagePlace::Close { label, sort },
            } => behind_sort(dialect, act, label, sort, bytes),
            _ => None,
        }
    }
}

#[inline(always)]
fn first_comma(dialect: Dialect, bytes: &[u8]) -> Option<Marks>
    ensures lead { IfSome result (λ marks. MarksLead dialect Mode.FirstComma bytes.now marks.behind marks.size) }
    ensures within { IfSome result (λ marks. marks.size ≤ length bytes.now) }
{
    match bytes {
        [b',', ..] => Some(Marks {
            behind: Mode::FurtherRole,
            size: 1,
        }),
        _ => None,
    }
}

#[inline(always)]
fn comma(dialect: Dialect, bytes: &[u8]) -> Option<Marks>
    ensures lead { IfSome result (λ marks. MarksLead dialect Mode.Line bytes.now marks.behind marks.size) }
    ensures within { IfSome result (λ marks. marks.size ≤ length bytes.now) }
{
    match bytes {
        [b',', ..] => Some(Marks {
            behind: Mode::FurtherRole,
            size: 1,
        }),
        _ => None,
    }
}

#[inline(always)]
fn colon(dialect: Dialect, bytes: &[u8]) -> Option<Marks>
    ensures lead { IfSome result (λ marks. MarksLead dialect Mode.AtColon bytes.now marks.behind marks.size) }
    ensures within { IfSome result (λ marks. marks.size ≤ length bytes.now) }
{
    match bytes {
        [b':', ..] => Some(Marks {
            behind: Mode::Body { from: Link::Start },
            size: 1,
        }),
        _ => None,
    }
}

#[inline(always)]
fn rec_dot(dialect: Dialect, from: Link, bytes: &[u8]) -> Option<Marks>
    ensures lead { IfSome result (λ marks. MarksLead dialect (Mode.RecDot from) bytes.now marks.behind marks.size) }
    ensures within { IfSome result (λ marks. marks.size ≤ length bytes.now) }
{
    match bytes {
        [b'.', ..] => Some(Marks {
            behind: Mode::Body { from },
            size: 1,
        }),
        _ => None,
    }
}

/// The arrow of a talk.
#[inline(always)]
fn arrow(dialect: Dialect, from: Link, first: Role, bytes: &[u8]) -> Option<Marks>
    ensures lead { IfSome result (λ marks. MarksLead dialect (Mode.AtTurn from first) bytes.now marks.behind marks.size) }
    ensures within { IfSome result (λ marks. marks.size ≤ length bytes.now) }
{
    match dialect {
        Dialect::Talks => match bytes {
            [b'-', b'>', ..] => Some(Marks {
                behind: Mode::Receiver { from, first },
                size: 2,
            }),
            _ => None,
        },
        Dialect::Acts => None,
    }
}

/// The colon before the only arm of a talk.
#[inline(always)]
fn arm_colon(dialect: Dialect, act: u32, bytes: &[u8]) -> Option<Marks>
    ensures lead { IfSome result (λ marks. MarksLead dialect (Mode.AtArms act) bytes.now marks.behind marks.size) }
    ensures within { IfSome result (λ marks. marks.size ≤ length bytes.now) }
{
    match dialect {
        Dialect::Talks => match bytes {
            [b':', ..] => Some(Marks {
                behind: Mode::InMessage {
                    act,
                    place: MessagePlace::Label,
                },
                size: 1,
            }),
            _ => None,
        },
        Dialect::Acts => None,
    }
}

#[inline(always)]
fn behind_label(dialect: Dialect, act: u32, label: Label, bytes: &[u8]) -> Option<Marks>
    ensures lead { IfSome result (λ marks. MarksLead dialect (Mode.InMessage act (MessagePlace.Paren label)) bytes.now marks.behind marks.size) }
    ensures within { IfSome result (λ marks. marks.size ≤ length bytes.now) }
{
    match bytes {
        [b'(', behind @ ..] => Some(behind_paren(dialect, act, label, behind)),
        _ => None,
    }
}

/// The open parenthesis, with the sort and the marks behind it where they stand there.
#[inline(always)]
fn behind_paren(dialect: Dialect, act: u32, label: Label, behind: &[u8]) -> Marks
    ensures lead { MarksLead dialect (Mode.InMessage act (MessagePlace.Paren label)) (40 ∷ behind.now) result.behind result.size }
    ensures within { result.size ≤ length behind.now + 1 }
{
    match sort_in_front(behind) {
        Some(seen) => Marks {
            behind: Mode::Body {
                from: Link::OfArm {
                    act,
                    label,
                    sort: seen.sort,
                },
            },
            size: 1 + seen.size,
        },
        None => Marks {
            behind: Mode::InMessage {
                act,
                place: MessagePlace::Sort { label },
            },
            size: 1,
        },
    }
}

/// The sort in front of the bytes, or none, with the parenthesis and the dot behind it.
#[inline(always)]
fn sort_in_front(bytes: &[u8]) -> Option<SortSeen>
    ensures lead { IfSome result (λ seen. SortLeads bytes.now seen.sort seen.size) }
    ensures within { IfSome result (λ seen. seen.size ≤ length bytes.now) }
{
    match bytes {
        [b')', ..] => no_sort(bytes),
        [b'n', ..] => natural(bytes),
        [b'i', ..] => whole(bytes),
        [b'l', ..] => numbers(bytes),
        [b'b', ..] => flag_or_octets(bytes),
        _ => None,
    }
}

#[inline(always)]
fn flag_or_octets(bytes: &[u8]) -> Option<SortSeen>
    ensures lead { IfSome result (λ seen. SortLeads bytes.now seen.sort seen.size) }
    ensures within { IfSome result (λ seen. seen.size ≤ length bytes.now) }
{
    match bytes {
        [_, b'o', ..] => flag(bytes),
        _ => octets(bytes),
    }
}

#[inline(always)]
fn no_sort(bytes: &[u8]) -> Option<SortSeen>
    ensures lead { IfSome result (λ seen. SortLeads bytes.now seen.sort seen.size) }
    ensures within { IfSome result (λ seen. seen.size ≤ length bytes.now) }
{
    match bytes {
        [b')', b'.', ..] => Some(SortSeen {
            sort: Sort::Unit,
            size: 2,
        }),
        _ => None,
    }
}

#[inline(always)]
fn natural(bytes: &[u8]) -> Option<SortSeen>
    ensures lead { IfSome result (λ seen. SortLeads bytes.now seen.sort seen.size) }
    ensures within { IfSome result (λ seen. seen.size ≤ length bytes.now) }
{
    match bytes {
        [b'n', b'a', b't', b')', b'.', ..] => Some(SortSeen {
            sort: Sort::Natural,
            size: 5,
        }),
        _ => None,
    }
}

#[inline(always)]
fn whole(bytes: &[u8]) -> Option<SortSeen>
    ensures lead { IfSome result (λ seen. SortLeads bytes.now seen.sort seen.size) }
    ensures within { IfSome result (λ seen. seen.size ≤ length bytes.now) }
{
    match bytes {
        [b'i', b'n', b't', b')', b'.', ..] => Some(SortSeen {
            sort: Sort::Whole,
            size: 5,
        }),
        _ => None,
    }
}

#[inline(always)]
fn flag(bytes: &[u8]) -> Option<SortSeen>
    ensures lead { IfSome result (λ seen. SortLeads bytes.now seen.sort seen.size) }
    ensures within { IfSome result (λ seen. seen.size ≤ length bytes.now) }
{
    match bytes {
        [b'b', b'o', b'o', b'l', b')', b'.', ..] => Some(SortSeen {
            sort: Sort::Flag,
            size: 6,
        }),
        _ => None,
    }
}

#[inline(always)]
fn numbers(bytes: &[u8]) -> Option<SortSeen>
    ensures lead { IfSome result (λ seen. SortLeads bytes.now seen.sort seen.size) }
    ensures within { IfSome result (λ seen. seen.size ≤ length bytes.now) }
{
    match bytes {
        [b'l', b'i', b's', b't', b')', b'.', ..] => Some(SortSeen {
            sort: Sort::Numbers,
            size: 6,
        }),
        _ => None,
    }
}

#[inline(always)]
fn octets(bytes: &[u8]) -> Option<SortSeen>
    ensures lead { IfSome result (λ seen. SortLeads bytes.now seen.sort seen.size) }
    ensures within { IfSome result (λ seen. seen.size ≤ length bytes.now) }
{
    match bytes {
        [b'b', b'y', b't', b'e', b's', b')', b'.', ..] => Some(SortSeen {
            sort: Sort::Octets,
            size: 7,
        }),
        _ => None,
    }
}

#[inline(always)]
fn behind_sort(dialect: Dialect, act: u32, label: Label, sort: Sort, bytes: &[u8]) -> Option<Marks>
    ensures lead { IfSome result (λ marks. MarksLead dialect (Mode.InMessage act (MessagePlace.Close label sort)) bytes.now marks.behind marks.size) }
    ensures within { IfSome result (λ marks. marks.size ≤ length bytes.now) }
{
    match bytes {
        [b')', b'.', ..] => Some(Marks {
            behind: Mode::Body {
                from: Link::OfArm { act, label, sort },
            },
            size: 2,
        }),
        _ => None,
    }
}
