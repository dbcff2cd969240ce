//! Why a machine has no derivation within a bound.
ghost use Rattle.std.specs.Prelude.{◌≡◌, ◌<◌, ◌≤◌, Bool, IfOk, length};
ghost use Rattle.rs_derive.specs.Derivations.{IsProper, spot_of};
ghost use Rattle.rs_explain.specs.Deaths.{IsDyingWay};
ghost use Rattle.rs_explain.specs.Explanations.{AGreaterBoundHelps, IsExplanation};
ghost use Rattle.rs_explain.specs.OnWay.{ending_at};
ghost use Rattle.rs_explain.specs.Walks.{IsFirstCutWalk};
ghost use Rattle.rs_model.specs.declared.limits.TheConstants.{MOST_CANDIDATES};
ghost use Rattle.rs_search.specs.Candidates.{start_spot};
ghost use Rattle.rs_search.specs.Canonical.{IsNotFound};
ghost use Rattle.rs_search.specs.Found.{AreFoundCandidates};

use crate::Obstacle;
use crate::deaths::deaths;
use crate::distances::distances;
use crate::helping::{helped_cuts, helped_nodes};
use crate::lost::lost_graph;
use crate::obstacles::obstacle_at;
use crate::walking::{Way, walk};
use rs_derive::DNode;
use rs_model::{Machine, NoMemory};
use rs_prefix::Pending;
use rs_search::{Candidates, candidates_of};
use std::alloc::Global;
use std::marker::Model;

/// A step of a walk of a machine beside its projection: by the arm at the place to the spot behind it. The arm is the
/// machine's own where both send, and the projection's where the machine passes one of its acts; place 0 where the
/// machine makes an act that it owes.
#[derive(Drop, Debug)]
pub struct WalkStep {
    pub place: u32,
    /// The state of the machine behind the step.
    pub state: u32,
    /// What the machine owes behind the step, the oldest first.
    pub pending: Pending,
    /// The state of the projection behind the step.
    pub above: u32,
}

impl Model for WalkStep {
    ghost use Rattle.rs_derive.specs.Moves.{spot};
    ghost use Rattle.rs_explain.specs.Walks.{WalkStep_data};

    ghost Value = { WalkStep_data };

    ghost view = { λ s. record { place = s.place; spot = spot s.state s.pending s.above } };
}

/// Why a walk ends: its last spot has no move within the bound.
#[derive(Clone, Copy, Debug, PartialEq, Eq)]
pub enum Ending {
    /// It has no move of whatever bound.
    Blocked(Obstacle),
    /// By its move the machine would owe more acts than the bound.
    Cut,
}

/// Why the start of a machine and its projection doesn't survive: a walk from there, and why it ends.
#[derive(Drop, Debug)]
pub struct Explanation {
    pub steps: Vec<WalkStep>,
    pub ending: Ending,
}

impl Model for Explanation {
    ghost use Rattle.rs_explain.specs.Deaths.{IsDyingWay};
    ghost use Rattle.rs_explain.specs.Explanations.{Explanation_data};

    ghost Value = { Explanation_data };

    ghost view = { λ e. record { steps = e.steps.items; ending = e.ending } };
}

/// Why a dead end has no move within the bound.
pub fn ending_of(sub: &Machine, above: &Machine, node: &DNode) -> Ending
    requires state { node.now.state < length sub.now.states }
    requires present { node.now.above < length above.now.states }
    ensures { result ≡ ending_at sub.now above.now (spot_of node.now) }
{
    let state = &sub.states[node.state as usize];
    let there = &above.states[node.above as usize];
    match obstacle_at(&node.pending, state, there) {
        Some(obstacle) => Ending::Blocked(obstacle),
        None => Ending::Cut,
    }
}

// The walk along which the start dies.
fn way_to_dead_end(
    alloc: Global,
    sub: &Machine,
    above: &Machine,
    bound: u8,
    found: &Candidates,
) -> Result<Way, NoMemory>
    requires found { AreFoundCandidates sub.now above.now bound found.now }
    requires bounded { length found.now.table.spots ≤ MOST_CANDIDATES }
    requires refused { (cut : Bool) × IsNotFound sub.now above.now bound cut }
    ensures { IfOk result (λ w. IsDyingWay sub.now above.now bound found.now.table.spots w.steps.items w.node) }
{
    let lost = lost_graph(alloc, sub, above, bound, found)?;
    let far = deaths(alloc, sub, above, bound, found, lost.order.as_slice())?;
    let way = walk(alloc, &found.table, far.as_slice())?;
    Ok(way)
}

// The first walk to a spot that meets a cut, through spots that the greater bound helps.
fn way_to_cut(
    alloc: Global,
    sub: &Machine,
    above: &Machine,
    bound: u8,
    greater: u8,
    found: &Candidates,
) -> Result<Way, NoMemory>
    requires ours { IsProper sub.now }
    requires theirs { IsProper above.now }
    requires found { AreFoundCandidates sub.now above.now bound found.now }
    requires bounded { length found.now.table.spots ≤ MOST_CANDIDATES }
    requires refused { (cut : Bool) × IsNotFound sub.now above.now bound cut }
    requires helps { AGreaterBoundHelps sub.now above.now bound greater }
    ensures { IfOk result (λ w. IsFirstCutWalk sub.now above.now bound greater (start_spot sub.now above.now) w.steps.items) }
{
    let lost = lost_graph(alloc, sub, above, bound, found)?;
    let helped = helped_nodes(alloc, sub, above, bound, greater, found, &lost)?;
    let inside = helped.as_slice();
    let ends = helped_cuts(alloc, sub, above, bound, greater, found, &lost, inside)?;
    let far = distances(alloc, &lost.graph, inside, ends.as_slice())?;
    let way = walk(alloc, &found.table, far.as_slice())?;
    Ok(way)
}

/// Why the search finds no derivation of the machine `sub` from its projection `above` within the bound, where it doesn't.
/// The candidates are found again, and those that don't survive removed again.
pub fn explain(
    alloc: Global,
    sub: &Machine,
    above: &Machine,
    bound: u8,
) -> Result<Explanation, NoMemory>
    requires ours { IsProper sub.now }
    requires theirs { IsProper above.now }
    requires refused { (cut : Bool) × IsNotFound sub.now above.now bound cut }
    ensures { IfOk result (λ e. IsExplanation sub.now above.now bound e) }
{
    let found = match candidates_of(alloc, sub, above, bound) {
        Ok(found) => found,
        Err(_) => return Err(NoMemory),
    };
    let way = way_to_dead_end(alloc, sub, above, bound, &found)?;
    let ending = ending_of(sub, above, found.table.node(way.node));
    Ok(Explanation {
        steps: way.steps,
        ending,
    })
}

/// Where a greater bound helps: the first walk from the start to a spot that meets a cut, through spots that don't survive
/// within the bound and do within the greater one.
pub fn explain_cut(
    alloc: Global,
    sub: &Machine,
    above: &Machine,
    bound: u8,
    greater: u8,
) -> Result<Vec<WalkStep>, NoMemory>
    requires ours { IsProper sub.now }
    requires theirs { IsProper above.now }
    requires refused { (cut : Bool) × IsNotFound sub.now above.now bound cut }
    requires helps { AGreaterBoundHelps sub.now above.now bound greater }
    ensures { IfOk result (λ steps. IsFirstCutWalk sub.now above.now bound greater (start_spot sub.now above.now) steps.items) }
{
    let found = match candidates_of(alloc, sub, above, bound) {
        Ok(found) => found,
        Err(_) => return Err(NoMemory),
    };
    let way = way_to_cut(alloc, sub, above, bound, greater, &found)?;
    Ok(way.steps)
}
