//! The pass over a text that finds where its talks and states begin.

ghost use Rattle.std.specs.Prelude.{◌≡◌, ◌≤◌, ◌<◌, ◌++◌, ◌∷◌, [], length, map, replicate, slice_index_or, slice_set, IfOk, OnOk};
ghost use Rattle.rs_places.specs.Finding.{AreOfRoles, IsOnWay, Takes, begin, moved_to, with_state, with_talk};
ghost use Rattle.rs_places.specs.Places.{ArePlaces, position_of};
ghost use Rattle.rs_places.specs.Starts.{trio};

use crate::places::{Places, Position};
use crate::tokens::{Part, StateStart, is_arrow, is_last, part_behind, state_at};
use rs_model::{Name, NoMemory};
use rs_text::{TextToken, next_token};
use std::alloc::Global;
use std::marker::Model;

/// Where the talks and the states of the machines begin in a text with these roles. In a text that spells no document,
/// what its tokens tell: as far as its end or its first faulty token.
pub fn places_of(alloc: Global, bytes: &[u8], roles: &[Name]) -> Result<Places, NoMemory>
    ensures { IfOk result (ArePlaces bytes.now roles.now) }
{
    let mut finder = PlaceFinder::new(alloc, bytes, roles)?;
    let mut first = next_token(bytes, 0);
    let mut second = next_token(bytes, first.until());
    while !is_last(&second) {
        let third = next_token(bytes, second.until());
        finder.take(&first, &second, &third)?;
        first = second;
        second = third;
    }
    Ok(finder.places)
}

/// The place of the offset `until`, where `position` is that of the offset `from`, which isn't greater.
fn moved(bytes: &[u8], position: Position, from: usize, until: usize) -> Position
    requires order { from ≤ until }
    requires within { until ≤ length bytes.now }
    requires counted { position ≡ position_of bytes.now from }
    ensures { result ≡ position_of bytes.now until }
{
    let mut line = position.line;
    let mut column = position.column;
    for offset in from..until {
        if bytes[offset] == b'\n' {
            line += 1;
            column = 1;
        } else {
            column += 1;
        }
    }
    Position { line, column }
}

/// So many lists of places, with nothing in them.
fn no_states(alloc: Global, count: usize) -> Result<Vec<Vec<Position>>, NoMemory>
    ensures { IfOk result (λ r. map (λ m. m.items) r.items ≡ replicate count []) }
{
    let mut machines = Vec::with_capacity(alloc, count)?;
    for _ in 0..count {
        machines.push(Vec::new(alloc))?;
    }
    Ok(machines)
}

/// One more place for the role.
fn push_at(machines: &mut Vec<Vec<Position>>, role: usize, place: Position) -> Result<(), NoMemory>
    requires { role < length machines.old.items }
    ensures { OnOk result (map (λ m. m.items) machines.new.items ≡ slice_set (map (λ m. m.items) machines.old.items) role (slice_index_or (map (λ m. m.items) machines.old.items) role [] ++ place ∷ [])) }
{
    machines[role].push(place)?;
    Ok(())
}

/// What goes over a text, and what it has found so far.
#[derive(Drop)]
struct PlaceFinder<'a> {
    bytes: &'a [u8],
    roles: &'a [Name],
    at: usize,
    position: Position,
    part: Part,
    places: Places,
}

impl<'a> Model for PlaceFinder<'a> {
    ghost use Rattle.rs_places.specs.Finding.{Finder_data};

    ghost Value = { Finder_data };

    ghost view = { λ f. record { bytes = f.bytes.now; roles = f.roles.now; at = f.at; position = f.position; part = f.part; places = f.places } };
}

impl<'a> PlaceFinder<'a> {
    /// Begins at the beginning of the text.
    fn new(alloc: Global, bytes: &'a [u8], roles: &'a [Name]) -> Result<PlaceFinder<'a>, NoMemory>
        ensures { IfOk result (λ f. f ≡ begin bytes.now roles.now) }
    {
        Ok(PlaceFinder {
            bytes,
            roles,
            at: 0,
            position: Position { line: 1, column: 1 },
            part: Part::Other,
            places: Places {
                talks: Vec::new(alloc),
                machines: no_states(alloc, roles.len())?,
            },
        })
    }

    /// The place of an offset, which isn't before those that were asked for.
    fn place_of(&mut self, offset: usize) -> Position
        requires { IsOnWay self.old offset }
        ensures place { result ≡ position_of self.old.bytes offset }
        ensures moved { self.new ≡ moved_to self.old offset }
    {
        self.position = moved(self.bytes, self.position, self.at, offset);
        self.at = offset;
        self.position
    }

    /// Notes that a talk begins at the offset.
    fn note_talk(&mut self, offset: usize) -> Result<(), NoMemory>
        requires { IsOnWay self.old offset }
        ensures { OnOk result (self.new ≡ with_talk (moved_to self.old offset) offset) }
    {
        let place = self.place_of(offset);
        self.places.talks.push(place)?;
        Ok(())
    }

    /// Notes where a state of a machine begins.
    fn note_state(&mut self, start: StateStart) -> Result<(), NoMemory>
        requires on_way { IsOnWay self.old start.from }
        requires present { start.role < length self.old.places.machines }
        ensures { OnOk result (self.new ≡ with_state (moved_to self.old start.from) start) }
    {
        let place = self.place_of(start.from);
        push_at(&mut self.places.machines, start.role, place)
    }

    /// Takes three tokens that stand one after the other, and notes what begins at the first two.
    fn take(
        &mut self,
        first: &TextToken<'a>,
        second: &TextToken<'a>,
        third: &TextToken<'a>,
    ) -> Result<(), NoMemory>
        requires on_way { IsOnWay self.old first.now.from }
        requires order { first.now.from ≤ second.now.from }
        requires within { second.now.from ≤ length self.old.bytes }
        requires present { AreOfRoles self.old }
        ensures takes { OnOk result (Takes self.old (trio first.now second.now third.now) self.new) }
    {
        if is_arrow(second) {
            self.note_talk(first.from())?;
        }
        if let Some(start) = state_at(self.part, first, second) {
            self.note_state(start)?;
        }
        self.part = part_behind(self.roles, self.part, first, second, third);
        Ok(())
    }
}
