//! The projection onto a role, state by state, or the first reason why there is none.
ghost use Rattle.std.specs.Prelude.{◌≡◌, ◌⊎◌, ◌<◌, ◌≤◌, ◌^◌, ◌∷◌, [], ℕ, map, length, IfOk, IfErr};
ghost use Rattle.std.specs.List.{Contains};
ghost use Rattle.rs_model.specs.declared.limits.TheConstants.{MOST_STATES};
ghost use Rattle.rs_model.specs.WellFormed.{IsWellFormedMachine};
ghost use Rattle.rs_project.specs.Graph.{Involves};
ghost use Rattle.rs_graph.specs.Lists.{Among};
ghost use Rattle.rs_project.specs.Numbered.{IsNumberedProjection, nexts_behind, nexts_of};
ghost use Rattle.rs_project.specs.Projection.{Agree, choice_of, merged_choices};
ghost use Rattle.rs_project.specs.Refusals.{FirstRefusal, NoneUnreached};
ghost use Rattle.rs_project.specs.Working.{HasShape, StateFault, WorksOn};
ghost use Rattle.rs_wellformed.specs.WellFormed.{IsWellFormed};

use crate::clashes::first_clash;
use crate::finding::{joint_arms, lone_arms};
use crate::fronts::{Front, TalkSet};
use crate::rounds::first_unreached;
use crate::searching::Search;
use crate::surveying::{Survey, survey_of};
use rs_model::{Arms, Machine, NoMemory, Node, Protocol, Role, State};
use smallvec::SmallVec;
use std::alloc::{AllocError, AllocFailed, Global};
use std::marker::Model;

/// What a protocol asks of one of its roles: the role's machine, which starts at state 0, and for each state the talks
/// for which the state stands, by the numbers of their nodes in order; none for the end.
#[derive(Drop, Debug)]
pub struct Projection {
    pub machine: Machine,
    pub sets: Vec<TalkSet>,
}

impl Model for Projection {
    ghost use Rattle.std.specs.Prelude.{map};
    ghost use Rattle.rs_project.specs.Data.{Projection_data};

    ghost Value = { Projection_data };

    ghost view = { λ p. record { machine = p.machine; sets = map (λ s. s.items) p.sets.items } };
}

/// Why a protocol has no projection onto a role.
#[derive(Drop, Debug, PartialEq, Eq)]
pub enum ProjFault {
    /// The role may meet both talks first and can't tell them apart, and doesn't do the same in both. `a` and `b` are
    /// their numbers, `a` the lesser one; `b` is None where the role may as well meet the end.
    Unmergeable { role: Role, a: u32, b: Option<u32> },
    /// The session may reach the node and then loop for ever, with the role left waiting. It is the least such node.
    Unreached { role: Role, node: u32 },
    /// The role's machine has more than 1,024 states.
    TooManyStates { role: Role },
    /// Memory was refused.
    NoMemory,
}

impl From<NoMemory> for ProjFault {
    ghost use Rattle.std.specs.Prelude.{◌≡◌};
    ghost use Rattle.rs_project.specs.declared.projecting.ProjFault.TheVariants.{NoMemory};

    ghost from_gives = { λ _ e. e ≡ NoMemory };

    fn from(_error: NoMemory) -> Self {
        ProjFault::NoMemory
    }
}

impl From<AllocError> for ProjFault {
    ghost use Rattle.std.specs.Prelude.{◌≡◌};
    ghost use Rattle.rs_project.specs.declared.projecting.ProjFault.TheVariants.{NoMemory};

    ghost from_gives = { λ _ e. e ≡ NoMemory };

    fn from(_error: AllocError) -> Self {
        ProjFault::NoMemory
    }
}

impl<T: Drop> From<AllocFailed<T>> for ProjFault {
    ghost use Rattle.std.specs.Prelude.{◌≡◌};
    ghost use Rattle.rs_project.specs.declared.projecting.ProjFault.TheVariants.{NoMemory};

    ghost from_gives = { λ _ e. e ≡ NoMemory };

    fn from(_error: AllocFailed<T>) -> Self {
        ProjFault::NoMemory
    }
}

/// The projection of a well-formed protocol onto one of its roles.
///
/// The error is the first in this order: the least node that is unreached; then, working on the states in order of
/// number, for each state the first two members that clash, and after them, arm by arm, a set of talks that would be
/// the 1,025th state.
pub fn project(alloc: Global, protocol: &Protocol, role: Role) -> Result<Projection, ProjFault>
    requires well_formed { IsWellFormed protocol.now }
    requires role { role.0 < protocol.now.roles }
    requires bounded { length protocol.now.nodes < 2 ^ 32 }
    ensures ok { IfOk result (λ p. IsNumberedProjection protocol.now role p) }
    ensures machine { IfOk result (λ p. IsWellFormedMachine p.machine protocol.now.roles) }
    ensures bounded { IfOk result (λ p. length p.machine.states ≤ MOST_STATES) }
    ensures err { IfErr result (λ e. (e ≡ ProjFault.NoMemory) ⊎ FirstRefusal protocol.now role e) }
{
    let known = survey_of(alloc, protocol, role)?;
    if let Some(node) = first_unreached(alloc, &known.survey, known.has_no_rounds)? {
        return Err(ProjFault::Unreached { role, node });
    }
    let projection = work(alloc, &known.survey, known.usual_size)?;
    Ok(projection)
}

// The projection, with room for this number of states.
fn work(alloc: Global, survey: &Survey, room: usize) -> Result<Projection, ProjFault>
    requires reached { NoneUnreached survey.now.protocol survey.now.role }
    ensures ok { IfOk result (λ p. IsNumberedProjection survey.now.protocol survey.now.role p) }
    ensures err { IfErr result (λ e. (e ≡ ProjFault.NoMemory) ⊎ FirstRefusal survey.now.protocol survey.now.role e) }
{
    let protocol = survey.protocol;
    let mut search = Search::new(alloc, survey, room)?;
    let _first = search.find_from(alloc, protocol.root)?;
    let mut states: Vec<State> = Vec::with_capacity(alloc, room)?;
    while states.len() < search.len() {
        let state = state_of(alloc, &mut search, states.len())?;
        states.reserve(1)?;
        states.push_reserved(state);
    }
    let sets = sets_of(alloc, search.into_fronts())?;
    let machine = Machine {
        role: survey.role,
        states,
        start: 0,
    };
    Ok(Projection { machine, sets })
}

fn state_of(alloc: Global, search: &mut Search, number: usize) -> Result<State, ProjFault>
    requires number { number < length search.old.fronts }
    ensures survey { search.new.survey ≡ search.old.survey }
    ensures ok { IfOk result (λ s. WorksOn search.old.survey.protocol search.old.survey.role search.old.fronts number search.new.fronts s) }
    ensures err { IfErr result (λ e. StateFault search.old.survey.protocol search.old.survey.role search.old.fronts number e) }
{
    let survey = search.survey();
    let front = &search.as_slice()[number];
    if let Some(talk) = front.lone_talk() {
        let arms = lone_arms(alloc, search, talk)?;
        return Ok(act_of(survey.protocol, survey.role, &[talk], arms));
    }
    joint_state(alloc, search, number)
}

// The state that stands for the members of the front together.
fn joint_state(alloc: Global, search: &mut Search, number: usize) -> Result<State, ProjFault>
    requires number { number < length search.old.fronts }
    ensures survey { search.new.survey ≡ search.old.survey }
    ensures ok { IfOk result (λ s. WorksOn search.old.survey.protocol search.old.survey.role search.old.fronts number search.new.fronts s) }
    ensures err { IfErr result (λ e. StateFault search.old.survey.protocol search.old.survey.role search.old.fronts number e) }
{
    let survey = search.survey();
    let front = &search.as_slice()[number];
    let found = first_clash(alloc, survey.protocol, survey.role, front)?;
    if let Some(clash) = found {
        return Err(ProjFault::Unmergeable {
            role: survey.role,
            a: clash.a,
            b: clash.b,
        });
    }
    let talks: SmallVec<u32, 4> = SmallVec::from_slice(alloc, front.talks.as_slice())?;
    let arms = joint_arms(alloc, search, talks.as_slice())?;
    Ok(act_of(survey.protocol, survey.role, talks.as_slice(), arms))
}

// The state of a role that does what it does in the first of these talks, or of one that is done where there are none.
fn act_of(protocol: &Protocol, role: Role, talks: &[u32], arms: Arms) -> State
    requires well_formed { IsWellFormed protocol.now }
    requires involved { (t : ℕ) → Among talks.now t → Involves protocol.now role t }
    requires agree { (one other : ℕ) → Contains talks.now one → Contains talks.now other → Agree protocol.now role one other }
    requires choices { map choice_of arms ≡ merged_choices protocol.now talks.now }
    ensures shape { HasShape protocol.now role talks.now result }
    ensures nexts { nexts_behind result ≡ nexts_of arms }
{
    if talks.is_empty() {
        return State::Done;
    }
    match &protocol.nodes[talks[0] as usize] {
        Node::Finished => State::Done,
        Node::Talk {
            sender,
            receiver,
            ..
        } => {
            if *sender == role {
                State::Puts {
                    peer: *receiver,
                    arms,
                }
            } else {
                State::Takes {
                    peer: *sender,
                    arms,
                }
            }
        }
    }
}

fn sets_of(alloc: Global, fronts: Vec<Front>) -> Result<Vec<TalkSet>, NoMemory>
    ensures { IfOk result (λ v. map (λ s. s.items) v.items ≡ map (λ f. f.talks) fronts.items) }
{
    let mut sets = Vec::with_capacity(alloc, fronts.len())?;
    for front in fronts {
        let Front { talks, .. } = front;
        sets.push(talks)?;
    }
    Ok(sets)
}
