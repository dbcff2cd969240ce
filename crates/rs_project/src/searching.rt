//! Fronts that are numbered as they are found, along runs or by marks.
ghost use Rattle.std.specs.Prelude.{◌≡◌, ◌≢◌, ◌<◌, ◌≤◌, ◌∷◌, [], length, IfOk, IfErr, IfSome, OnErr};
ghost use Rattle.std.specs.List.{All};
ghost use Rattle.rs_model.specs.declared.limits.TheConstants.{MOST_STATES};
ghost use Rattle.rs_project.specs.Filing.{IsFiledUnder, lone_front};
ghost use Rattle.rs_project.specs.Marks.{StandsFor};
ghost use Rattle.rs_project.specs.Working.{AddsFront, AreFoundFronts, FaultFrom, FindsFrom, IsFrontFrom, FrontIsNew, NumberFault};

use crate::ProjFault;
use crate::filing::{Filing, Fronts, filing_of, make_room, number_at, set_number};
use crate::fronts::{Front, marked_front};
use crate::spreading::Marks;
use crate::straight::{run_end, straight_front};
use crate::surveying::Survey;
use rs_model::{NoMemory, Role};
use std::alloc::Global;
use std::marker::Model;

/// The search for the fronts of one projection: those that were found, and at nodes where runs end the number of the front
/// from there, as one more than it is, or 0.
#[derive(Drop)]
pub struct Search<'a> {
    survey: &'a Survey<'a>,
    marks: Marks,
    fronts: Fronts,
    numbers: Vec<u16>,
}

impl<'a> Model for Search<'a> {
    ghost use Rattle.rs_project.specs.Working.{IsSearch, Search_data};

    ghost Value = { Search_data };

    ghost view = { λ s. record { survey = s.survey.now; fronts = s.fronts } };

    ghost invariant = { λ s. IsSearch (record { survey = s.survey.now; fronts = s.fronts }) s.numbers.items };
}

impl<'a> Search<'a> {
    /// Nothing is found yet; there is room for this number of fronts.
    pub fn new(alloc: Global, survey: &'a Survey<'a>, room: usize) -> Result<Search<'a>, NoMemory>
        ensures survey { IfOk result (λ s. s.survey ≡ survey.now) }
        ensures none { IfOk result (λ s. s.fronts ≡ []) }
    {
        let fronts = Fronts::with_room(alloc, room, survey.involved.len())?;
        Ok(Search {
            survey,
            marks: Marks::new(alloc),
            fronts,
            numbers: Vec::new(alloc),
        })
    }

    /// What is known of the protocol for the role.
    pub fn survey(&self) -> &'a Survey<'a>
        ensures survey { result.now ≡ self.now.survey }
        ensures found { AreFoundFronts self.now.survey.protocol self.now.survey.role self.now.fronts }
    {
        self.survey
    }

    /// The fronts, by their numbers.
    pub fn as_slice(&self) -> &[Front]
        ensures { result.now ≡ self.now.fronts }
    {
        self.fronts.as_slice()
    }

    /// How many there are.
    pub fn len(&self) -> usize
        ensures count { result ≡ length self.now.fronts }
        ensures bounded { result ≤ MOST_STATES }
    {
        self.fronts.len()
    }

    /// The fronts alone.
    pub fn into_fronts(self) -> Vec<Front>
        ensures { result.items ≡ self.entry.fronts }
    {
        let Search { fronts, .. } = self;
        fronts.into_items()
    }

    /// The number of what the role meets first from the starts, which is added where it is new.
    pub fn find(&mut self, alloc: Global, starts: &[u32]) -> Result<u32, ProjFault>
        requires some { starts.now ≢ [] }
        requires starts { All (λ s. s < length self.old.survey.protocol.nodes) starts.now }
        ensures survey { self.new.survey ≡ self.old.survey }
        ensures ok { IfOk result (λ n. FindsFrom self.old.survey.protocol self.old.survey.role self.old.fronts starts.now self.new.fronts n) }
        ensures err { IfErr result (λ e. FaultFrom self.old.survey.protocol self.old.survey.role self.old.fronts starts.now e) }
    {
        let survey = self.survey;
        if let Some(front) = straight_front(alloc, survey, starts) {
            return number_of(survey.role, &mut self.fronts, front);
        }
        if let Some(end) = one_end(survey, starts) {
            return self.find_from(alloc, end);
        }
        let front = marked_front(alloc, survey, &mut self.marks, starts)?;
        number_of(survey.role, &mut self.fronts, front)
    }

    /// The number of what the role meets first from the start, which is added where it is new.
    #[inline(always)]
    pub fn find_from(&mut self, alloc: Global, start: u32) -> Result<u32, ProjFault>
        requires start { start < length self.old.survey.protocol.nodes }
        ensures survey { self.new.survey ≡ self.old.survey }
        ensures ok { IfOk result (λ n. FindsFrom self.old.survey.protocol self.old.survey.role self.old.fronts (start ∷ []) self.new.fronts n) }
        ensures err { IfErr result (λ e. FaultFrom self.old.survey.protocol self.old.survey.role self.old.fronts (start ∷ []) e) }
    {
        let survey = self.survey;
        let end = run_end(survey, start);
        if survey.involved[end as usize] {
            return number_of_lone(alloc, survey.role, &mut self.fronts, end);
        }
        self.find_idle(alloc, end)
    }

    // The number of what the role meets first from a node that is no talk of the role.
    #[inline(never)]
    fn find_idle(&mut self, alloc: Global, end: u32) -> Result<u32, ProjFault>
        requires end { end < length self.old.survey.protocol.nodes }
        ensures survey { self.new.survey ≡ self.old.survey }
        ensures ok { IfOk result (λ n. FindsFrom self.old.survey.protocol self.old.survey.role self.old.fronts (end ∷ []) self.new.fronts n) }
        ensures err { IfErr result (λ e. FaultFrom self.old.survey.protocol self.old.survey.role self.old.fronts (end ∷ []) e) }
    {
        let survey = self.survey;
        let known = number_at(&self.numbers, end);
        if known > 0 {
            return Ok(u32::from(known) - 1);
        }
        make_room(&mut self.numbers, Some(end))?;
        let front = marked_front(alloc, survey, &mut self.marks, &[end])?;
        let number = number_of(survey.role, &mut self.fronts, front)?;
        set_number(&mut self.numbers, Some(end), number as u16 + 1);
        Ok(number)
    }
}

// The node at which the runs from all starts end, where they end at one.
fn one_end(survey: &Survey, starts: &[u32]) -> Option<u32>
    requires starts { All (λ s. s < length survey.now.protocol.nodes) starts.now }
    ensures within { IfSome result (λ end. end < length survey.now.protocol.nodes) }
    ensures stand { IfSome result (λ end. All (λ s. StandsFor survey.now.protocol survey.now.role s end) starts.now) }
{
    if starts.is_empty() {
        return None;
    }
    let end = run_end(survey, starts[0]);
    for start in starts {
        if run_end(survey, *start) != end {
            return None;
        }
    }
    Some(end)
}

// The number of the front of this talk alone, which is added where it is new.
#[inline(always)]
fn number_of_lone(
    alloc: Global,
    role: Role,
    fronts: &mut Fronts,
    talk: u32,
) -> Result<u32, ProjFault>
    ensures ok { IfOk result (λ n. AddsFront fronts.old (lone_front talk) fronts.new n) }
    ensures err { IfErr result (λ e. NumberFault role fronts.old (lone_front talk) e) }
    ensures same { OnErr result (fronts.new ≡ fronts.old) }
{
    if let Some(known) = fronts.number_of_lone(talk) {
        return Ok(known);
    }
    add_new_lone(alloc, role, fronts, talk)
}

#[inline(always)]
fn add_new_lone(alloc: Global, role: Role, fronts: &mut Fronts, talk: u32) -> Result<u32, ProjFault>
    requires { FrontIsNew fronts.old (lone_front talk) }
    ensures ok { IfOk result (λ n. AddsFront fronts.old (lone_front talk) fronts.new n) }
    ensures err { IfErr result (λ e. NumberFault role fronts.old (lone_front talk) e) }
    ensures same { OnErr result (fronts.new ≡ fronts.old) }
{
    if fronts.is_full() {
        return Err(ProjFault::TooManyStates { role });
    }
    let number = fronts.len();
    fronts.add_lone(alloc, talk)?;
    Ok(number as u32)
}

// The number of a front, which is added where it is new.
#[inline(always)]
fn number_of(role: Role, fronts: &mut Fronts, front: Front) -> Result<u32, ProjFault>
    ensures ok { IfOk result (λ n. AddsFront fronts.old front fronts.new n) }
    ensures err { IfErr result (λ e. NumberFault role fronts.old front e) }
    ensures same { OnErr result (fronts.new ≡ fronts.old) }
{
    let filing = filing_of(&front);
    if let Some(number) = fronts.number_of(&front, filing) {
        return Ok(number);
    }
    add_new(role, fronts, front, filing)
}

#[inline(always)]
fn add_new(role: Role, fronts: &mut Fronts, front: Front, filing: Filing) -> Result<u32, ProjFault>
    requires new { FrontIsNew fronts.old front }
    requires filing { IsFiledUnder filing front }
    ensures ok { IfOk result (λ n. AddsFront fronts.old front fronts.new n) }
    ensures err { IfErr result (λ e. NumberFault role fronts.old front e) }
    ensures same { OnErr result (fronts.new ≡ fronts.old) }
{
    if fronts.is_full() {
        return Err(ProjFault::TooManyStates { role });
    }
    let number = fronts.len();
    fronts.add(front, filing)?;
    Ok(number as u32)
}
