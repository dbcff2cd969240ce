//! The printer of canonical bodies.

ghost use Rattle.std.specs.Prelude.{◌≡◌, ◌<◌, ◌≤◌, ◌^◌, ◌+◌, ◌++◌, ◌∷◌, [], List, ℕ, drop, false, get_or, length, replicate, slice_get, IfNone, IfOk, IfSome, None, OnOk};
ghost use Rattle.rs_model.specs.declared.limits.TheConstants.{MOST_TALKS};
ghost use Rattle.rs_text.specs.NamePlaces.{name_at};
ghost use Rattle.rs_text.specs.Shown.{shown_sort, shown_text};
ghost use Rattle.rs_bodies.specs.Canonical.{Draws, IsSpelt};
ghost use Rattle.rs_bodies.specs.Places.{name_of_place};
ghost use Rattle.rs_bodies.specs.Printing as spec;
ghost use Rattle.rs_bodies.specs.Printing.{flags_behind_arms, flags_behind_places, head_text, label_text, lone_text_of, rec_text, place_step, point_step, whole_step, arms_step, brace_step};
ghost use Rattle.rs_bodies.specs.Texts as text;
ghost use Rattle.rs_bodies.specs.Texts.{body_text};
ghost use Rattle.rs_bodies.specs.Trees.{Body};

use crate::dialects::{Head, Mark};
use crate::places::{NumberedGraph, Place, PointRef};
use rs_model::{Arm, Name, Names, NoMemory, Sort};
use rs_text::Text;
use std::alloc::Global;
use std::marker::Model;

/// A place to be written: whole where its number is `from` or above, else by its name.
#[derive(Clone, Copy)]
pub(crate) struct PlaceToWrite {
    pub from: usize,
    pub number: u32,
}

/// Braces that are open: from which number on places are written whole in them, and the arms still to be written.
#[derive(Drop)]
pub(crate) struct Brace<'a> {
    from: usize,
    arms: &'a [Arm],
}

impl<'a> Model for Brace<'a> {
    ghost use Rattle.rs_bodies.specs.Printing.{Brace_data};

    ghost Value = { Brace_data };

    ghost view = { λ b. record { from = b.from; arms = b.arms.now } };
}

/// For each place whether an arm of it or of a later one leads to it.
fn gone_back_to<G: NumberedGraph>(alloc: Global, graph: &G) -> Result<Vec<bool>, NoMemory>
    requires { length (G.places graph.now) ≤ MOST_TALKS + 1 }
    ensures { IfOk result (λ flags. flags.items ≡ spec.back_flags (G.places graph.now)) }
{
    let mut flags = vec![in alloc; false; graph.size()]?;
    mark_all(flags.as_mut_slice(), graph);
    Ok(flags)
}

fn mark_all<G: NumberedGraph>(flags: &mut [bool], graph: &G)
    requires { length (G.places graph.now) ≤ MOST_TALKS + 1 }
    ensures { flags.new ≡ flags_behind_places 0 (G.places graph.now) flags.old }
{
    let size = graph.size();
    for number in 0..size {
        mark_place(flags, graph.place(number as u32), number);
    }
}

fn mark_place(flags: &mut [bool], place: Option<Place>, number: usize)
    ensures { flags.new ≡ spec.flags_behind_place number place.entry flags.old }
{
    match place {
        Some(Place::Point(point)) => mark(flags, point.arms, number),
        Some(Place::End) => {}
        None => {}
    }
}

fn mark(flags: &mut [bool], arms: &[Arm], number: usize)
    ensures { flags.new ≡ flags_behind_arms number arms.now flags.old }
{
    for arm in arms {
        let next = arm.next as usize;
        if next <= number && next < flags.len() {
            flags[next] = true;
        }
    }
}

fn is_back(flags: &[bool], number: usize) -> bool
    ensures { result ≡ get_or flags.now number false }
{
    match flags.get(number) {
        Some(flag) => *flag,
        None => false,
    }
}

/// The name with this number.
fn name(names: &[Name], number: usize) -> &[u8]
    ensures { result.now ≡ name_at names.now number }
{
    match names.get(number) {
        Some(name) => name.as_slice(),
        None => b"",
    }
}

/// What stands in the parentheses of an arm.
fn sort_text(sort: Sort) -> &'static [u8]
    ensures { result.now ≡ shown_text (shown_sort sort) }
{
    match sort {
        Sort::Unit => b"",
        Sort::Flag => b"bool",
        Sort::Natural => b"nat",
        Sort::Whole => b"int",
        Sort::Octets => b"bytes",
        Sort::Numbers => b"list",
    }
}

fn mark_text(mark: Mark) -> &'static [u8]
    ensures { result.now ≡ text.mark_text mark }
{
    match mark {
        Mark::Puts => b"!",
        Mark::Takes => b"?",
    }
}

/// What stands between a head and its only arm.
fn lone_text(head: Head) -> &'static [u8]
    ensures { result.now ≡ lone_text_of head }
{
    match head {
        Head::Talk { .. } => b":",
        Head::Act { .. } => b"",
    }
}

fn push_place_name(text: &mut Text, number: u32) -> Result<(), NoMemory>
    ensures { OnOk result (text.new ≡ text.old ++ name_of_place number) }
{
    text.push(b"X")?;
    text.push_number(u64::from(number))
}

fn push_rec(text: &mut Text, back: bool, number: u32) -> Result<(), NoMemory>
    ensures { OnOk result (text.new ≡ text.old ++ rec_text back number) }
{
    if !back {
        return Ok(());
    }
    text.push(b"rec ")?;
    push_place_name(text, number)?;
    text.push(b". ")
}

fn push_head(text: &mut Text, names: &Names, head: Head) -> Result<(), NoMemory>
    ensures { OnOk result (text.new ≡ text.old ++ head_text names.now head) }
{
    let roles = names.roles.as_slice();
    match head {
        Head::Talk { sender, receiver } => {
            text.push(name(roles, usize::from(sender.0)))?;
            text.push(b"->")?;
            text.push(name(roles, usize::from(receiver.0)))
        }
        Head::Act { peer, mark } => {
            text.push(name(roles, usize::from(peer.0)))?;
            text.push(mark_text(mark))
        }
    }
}

/// An arm as far as its body.
fn push_label(text: &mut Text, names: &Names, arm: Arm) -> Result<(), NoMemory>
    ensures { OnOk result (text.new ≡ text.old ++ label_text names.now arm) }
{
    text.push(name(names.labels.as_slice(), usize::from(arm.label.0)))?;
    text.push(b"(")?;
    text.push(sort_text(arm.sort))?;
    text.push(b"). ")
}

/// Writes a body, place by place, with the open braces on a stack.
#[derive(Drop)]
struct Printer<'a> {
    names: &'a Names,
    flags: Vec<bool>,
    text: Text,
    next: Option<PlaceToWrite>,
    braces: Vec<Brace<'a>>,
}

impl<'a> Model for Printer<'a> {
    ghost use Rattle.std.specs.Prelude.{reverse};
    ghost use Rattle.rs_bodies.specs.Printing.{Printer_data};

    ghost Value = { Printer_data };

    ghost view = { λ p. record { names = p.names.now; flags = p.flags.items; text = p.text; next = p.next; braces = reverse p.braces.items } };
}

impl<'a> Printer<'a> {
    fn new(alloc: Global, names: &'a Names, root: u32, flags: Vec<bool>, text: Text) -> Printer<'a>
        ensures { result ≡ spec.begins_with names.now root flags.items text }
    {
        Printer {
            names,
            flags,
            text,
            next: Some(PlaceToWrite {
                from: 0,
                number: root,
            }),
            braces: Vec::new(alloc),
        }
    }

    /// An arm as far as its body, which is to be written next.
    fn arm(&mut self, from: usize, arm: Arm) -> Result<(), NoMemory>
        ensures { OnOk result (self.new ≡ record self.old { text = self.old.text ++ label_text self.old.names arm; next = spec.target from arm.next }) }
    {
        push_label(&mut self.text, self.names, arm)?;
        self.next = Some(PlaceToWrite {
            from,
            number: arm.next,
        });
        Ok(())
    }

    /// The first of these arms, or the only one, which stands behind `lone`.
    fn arms(&mut self, lone: &[u8], from: usize, arms: &'a [Arm]) -> Result<(), NoMemory>
        ensures { OnOk result (self.new ≡ spec.printer_behind (arms_step self.old.names lone.now from arms.now) self.old) }
    {
        match arms.split_first() {
            None => {
                self.text.push(b"{}")?;
                self.next = None;
                Ok(())
            }
            Some((arm, more)) => {
                if more.is_empty() {
                    self.text.push(lone)?;
                } else {
                    self.text.push(b"{")?;
                    self.braces.push(Brace { from, arms: more })?;
                }
                self.arm(from, *arm)
            }
        }
    }

    fn point(&mut self, number: u32, head: Head, arms: &'a [Arm]) -> Result<(), NoMemory>
        ensures { OnOk result (self.new ≡ spec.printer_behind (point_step self.old.names (get_or self.old.flags number false) number head arms.now) self.old) }
    {
        let back = is_back(self.flags.as_slice(), number as usize);
        push_rec(&mut self.text, back, number)?;
        push_head(&mut self.text, self.names, head)?;
        self.arms(lone_text(head), number as usize + 1, arms)
    }

    fn end(&mut self) -> Result<(), NoMemory>
        ensures { OnOk result (self.new ≡ spec.printer_behind (whole_step self.old.names false 0 None) self.old) }
    {
        self.text.push(b"end")?;
        self.next = None;
        Ok(())
    }

    /// A place that is written whole.
    fn whole(&mut self, number: u32, place: Option<Place<'a>>) -> Result<(), NoMemory>
        ensures { OnOk result (self.new ≡ spec.printer_behind (whole_step self.old.names (get_or self.old.flags number false) number place.entry) self.old) }
    {
        match place {
            Some(Place::Point(PointRef { head, arms })) => self.point(number, head, arms),
            Some(Place::End) => self.end(),
            None => self.end(),
        }
    }

    fn place<G: NumberedGraph>(
        &mut self,
        graph: &'a G,
        target: PlaceToWrite,
    ) -> Result<(), NoMemory>
        ensures { OnOk result (self.new ≡ spec.printer_behind (place_step self.old.names (G.places graph.now) self.old.flags target) self.old) }
    {
        if (target.number as usize) < target.from {
            push_place_name(&mut self.text, target.number)?;
            self.next = None;
            return Ok(());
        }
        self.whole(target.number, graph.place(target.number))
    }

    /// A further arm in open braces, or their end.
    fn further(&mut self, brace: Brace<'a>) -> Result<(), NoMemory>
        ensures { OnOk result (self.new ≡ spec.printer_behind (brace_step self.old.names brace.entry) self.old) }
    {
        match brace.arms.split_first() {
            None => {
                self.text.push(b"}")?;
                self.next = None;
                Ok(())
            }
            Some((arm, more)) => {
                self.text.push(b", ")?;
                self.braces.push(Brace {
                    from: brace.from,
                    arms: more,
                })?;
                self.arm(brace.from, *arm)
            }
        }
    }

    /// The innermost open braces, taken off the stack.
    fn innermost(&mut self) -> Option<Brace<'a>>
        ensures some { IfSome result (λ brace. self.old.braces ≡ brace ∷ self.new.braces) }
        ensures none { IfNone result (self.old.braces ≡ []) }
        ensures same { IfNone result (self.new ≡ self.old) }
        ensures rest { self.new ≡ record self.old { braces = self.new.braces } }
    {
        self.braces.pop()
    }

    fn is_left(&self) -> bool
        ensures { result ≡ spec.is_left self.now }
    {
        self.next.is_some() || !self.braces.is_empty()
    }

    /// Writes one step on.
    fn turn<G: NumberedGraph>(&mut self, graph: &'a G) -> Result<(), NoMemory>
        ensures state { OnOk result (self.new ≡ spec.next_printer (G.places graph.now) self.old) }
        ensures size { length self.old.text < 2 ^ 64 }
    {
        let _size = self.text.as_slice().len();
        match self.next {
            Some(target) => self.place(graph, target),
            None => match self.innermost() {
                Some(brace) => self.further(brace),
                None => Ok(()),
            },
        }
    }
}

/// Writes the body of a canonical text behind a text. Refused memory is the only error.
pub fn print_body<G: NumberedGraph>(
    alloc: Global,
    names: &Names,
    graph: &G,
    text: Text,
) -> Result<Text, NoMemory>
    requires { IsSpelt G.dialect (G.places graph.now) (G.root graph.now) }
    ensures { IfOk result (λ whole. (body : Body G.dialect) → Draws G.dialect names.now (G.places graph.now) 0 (G.root graph.now) body → whole ≡ text ++ body_text G.dialect body) }
{
    let flags = gone_back_to(alloc, graph)?;
    let mut printer = Printer::new(alloc, names, graph.start(), flags, text);
    while printer.is_left() {
        printer.turn(graph)?;
    }
    Ok(printer.text)
}
