//! The derivation of a machine from itself: both stand at one state, or the receive is owed that the one has passed.
ghost use Rattle.std.specs.Prelude.{◌≡◌, ◌<◌, ◌≤◌, ◌∷◌, ◌++◌, [], List, ℕ, OnOk, IfOk, length, map, slice_get, Option, Some};
ghost use Rattle.rs_model.specs.declared.limits.TheConstants.{MOST_CANDIDATES};
ghost use Rattle.rs_derive.specs.Derivations.{IsProper, spot_of};
ghost use Rattle.rs_derive.specs.Moves.{Spot, owing_receive};
ghost use Rattle.rs_derive.specs.Within.{HasLabelsOnce};
ghost use Rattle.rs_graph.specs.Naming.{AreNamed, IsNamed};
ghost use Rattle.rs_graph.specs.Lists.{Among};
ghost use Rattle.rs_search.specs.Canonical.{IsCanonical};
ghost use Rattle.rs_search.specs.Itself.{ArePositions, IsOfItself, even, nexts_itself};
ghost use Rattle.rs_search.specs.Longer.{AreUnranked, HasGotNexts, IsLonger, LeadsOn, LeadsTo};
ghost use Rattle.rs_search.specs.Spots.{spots_of};

use crate::found::SearchStop;
use rs_derive::{DNode, Derivation};
use rs_graph::NodeRow;
use rs_model::{Act, Arm, MOST_CANDIDATES, Machine, NoMemory, Role, State};
use rs_prefix::Pending;
use std::alloc::Global;

// The node with both at the state and nothing owed, without its nexts.
#[inline(always)]
fn even_node(alloc: Global, state: u32) -> DNode
    ensures spot { spot_of result ≡ even state }
    ensures rank { result.rank ≡ 0 }
{
    DNode {
        state,
        pending: Pending::new(alloc),
        above: state,
        rank: 0,
        next: NodeRow::new(alloc),
    }
}

// The node after an arm by which the projection has received, without its nexts.
#[inline(always)]
fn owing_node(alloc: Global, state: u32, peer: Role, arm: Arm) -> Result<DNode, NoMemory>
    ensures spot { IfOk result (λ n. spot_of n ≡ owing_receive (even state) peer arm) }
    ensures rank { IfOk result (λ n. n.rank ≡ 0) }
{
    let mut pending = Pending::new(alloc);
    pending.push(Act::Takes {
        peer,
        label: arm.label,
        sort: arm.sort,
    })?;
    Ok(DNode {
        state,
        pending,
        above: arm.next,
        rank: 0,
        next: NodeRow::new(alloc),
    })
}

// The number of the node with both at the state, which is added where it is new.
#[inline(always)]
fn come_to(
    alloc: Global,
    nodes: &mut Vec<DNode>,
    places: &mut Vec<Option<u32>>,
    state: u32,
) -> Result<u32, SearchStop>
    requires present { state < length places.old.items }
    requires positions { ArePositions (spots_of nodes.old.items) places.old.items (length places.old.items) }
    ensures named { IfOk result (IsNamed (spots_of nodes.old.items) (even state) (spots_of nodes.new.items)) }
    ensures longer { OnOk result (IsLonger nodes.old.items nodes.new.items) }
    ensures positions { OnOk result (ArePositions (spots_of nodes.new.items) places.new.items (length places.old.items)) }
{
    match places[state as usize] {
        Some(n) => Ok(n),
        None => {
            let n = nodes.len();
            if n == MOST_CANDIDATES {
                return Err(SearchStop::TooLarge);
            }
            nodes.reserve(1)?;
            nodes.push_reserved(even_node(alloc, state));
            places[state as usize] = Some(n as u32);
            Ok(n as u32)
        }
    }
}

// Gives the node its nexts.
#[inline(always)]
fn set_nexts(nodes: &mut Vec<DNode>, number: usize, row: NodeRow)
    requires here { number < length nodes.old.items }
    ensures { HasGotNexts nodes.old.items number row nodes.new.items }
{
    let node = &mut nodes[number];
    node.next = row;
}

// Leads the node to the one with both at the state alone.
#[inline(always)]
fn lead_to_one(
    alloc: Global,
    nodes: &mut Vec<DNode>,
    places: &mut Vec<Option<u32>>,
    number: usize,
    state: u32,
) -> Result<(), SearchStop>
    requires here { number < length nodes.old.items }
    requires present { state < length places.old.items }
    requires positions { ArePositions (spots_of nodes.old.items) places.old.items (length places.old.items) }
    ensures leads { OnOk result (LeadsTo nodes.old.items number (even state ∷ []) nodes.new.items) }
    ensures positions { OnOk result (ArePositions (spots_of nodes.new.items) places.new.items (length places.old.items)) }
{
    let n = come_to(alloc, nodes, places, state)?;
    set_nexts(nodes, number, NodeRow::of_one(alloc, n));
    Ok(())
}

// Leads the node to those after arms that both send.
#[inline(always)]
fn lead_to_all(
    alloc: Global,
    nodes: &mut Vec<DNode>,
    places: &mut Vec<Option<u32>>,
    number: usize,
    arms: &[Arm],
) -> Result<(), SearchStop>
    requires here { number < length nodes.old.items }
    requires present { (i : ℕ) (a : Arm) → slice_get arms.now i ≡ Some a → a.next < length places.old.items }
    requires positions { ArePositions (spots_of nodes.old.items) places.old.items (length places.old.items) }
    ensures leads { OnOk result (LeadsTo nodes.old.items number (map (λ a. even a.next) arms.now) nodes.new.items) }
    ensures positions { OnOk result (ArePositions (spots_of nodes.new.items) places.new.items (length places.old.items)) }
{
    match arms {
        [arm] => lead_to_one(alloc, nodes, places, number, arm.next),
        _ => {
            let row = come_to_each(alloc, nodes, places, arms)?;
            set_nexts(nodes, number, row);
            Ok(())
        }
    }
}

// The numbers of the nodes after arms that both send.
fn come_to_each(
    alloc: Global,
    nodes: &mut Vec<DNode>,
    places: &mut Vec<Option<u32>>,
    arms: &[Arm],
) -> Result<NodeRow, SearchStop>
    requires present { (i : ℕ) (a : Arm) → slice_get arms.now i ≡ Some a → a.next < length places.old.items }
    requires positions { ArePositions (spots_of nodes.old.items) places.old.items (length places.old.items) }
    ensures named { IfOk result (λ row. AreNamed (spots_of nodes.old.items) (map (λ a. even a.next) arms.now) (spots_of nodes.new.items) row) }
    ensures longer { OnOk result (IsLonger nodes.old.items nodes.new.items) }
    ensures positions { OnOk result (ArePositions (spots_of nodes.new.items) places.new.items (length places.old.items)) }
{
    let mut row = NodeRow::new(alloc);
    for i in 0..arms.len() {
        let n = come_to(alloc, nodes, places, arms[i].next)?;
        row.push(n)?;
    }
    Ok(row)
}

// Adds the node after an arm by which the projection receives.
#[inline(always)]
fn owe(
    alloc: Global,
    nodes: &mut Vec<DNode>,
    state: u32,
    peer: Role,
    arm: Arm,
) -> Result<u32, SearchStop>
    requires bounded { length nodes.old.items ≤ MOST_CANDIDATES }
    ensures number { IfOk result (λ n. n ≡ length nodes.old.items) }
    ensures added { OnOk result (spots_of nodes.new.items ≡ spots_of nodes.old.items ++ owing_receive (even state) peer arm ∷ []) }
    ensures longer { OnOk result (IsLonger nodes.old.items nodes.new.items) }
    ensures bounded { OnOk result (length nodes.new.items ≤ MOST_CANDIDATES) }
{
    let n = nodes.len();
    if n == MOST_CANDIDATES {
        return Err(SearchStop::TooLarge);
    }
    nodes.reserve(1)?;
    let node = owing_node(alloc, state, peer, arm)?;
    nodes.push_reserved(node);
    Ok(n as u32)
}

// Leads the node to the one after an arm by which the projection receives, which is new.
#[inline(always)]
fn lead_to_owing(
    alloc: Global,
    nodes: &mut Vec<DNode>,
    number: usize,
    state: u32,
    peer: Role,
    arm: Arm,
) -> Result<(), SearchStop>
    requires here { number < length nodes.old.items }
    requires fresh { (p : Spot) → Among (spots_of nodes.old.items) p → p.state ≡ state → p.pending ≡ [] }
    requires bounded { length nodes.old.items ≤ MOST_CANDIDATES }
    ensures leads { OnOk result (LeadsTo nodes.old.items number (owing_receive (even state) peer arm ∷ []) nodes.new.items) }
    ensures positions { OnOk result ((places : List (Option ℕ)) (states : ℕ) → ArePositions (spots_of nodes.old.items) places states → ArePositions (spots_of nodes.new.items) places states) }
{
    let n = owe(alloc, nodes, state, peer, arm)?;
    set_nexts(nodes, number, NodeRow::of_one(alloc, n));
    Ok(())
}

// Leads the node to those after arms by which the projection receives, which are all new.
#[inline(always)]
fn lead_to_all_owing(
    alloc: Global,
    nodes: &mut Vec<DNode>,
    number: usize,
    state: u32,
    peer: Role,
    arms: &[Arm],
) -> Result<(), SearchStop>
    requires here { number < length nodes.old.items }
    requires once { HasLabelsOnce arms.now }
    requires fresh { (p : Spot) → Among (spots_of nodes.old.items) p → p.state ≡ state → p.pending ≡ [] }
    requires bounded { length nodes.old.items ≤ MOST_CANDIDATES }
    ensures leads { OnOk result (LeadsTo nodes.old.items number (map (λ b. owing_receive (even state) peer b) arms.now) nodes.new.items) }
    ensures positions { OnOk result ((places : List (Option ℕ)) (states : ℕ) → ArePositions (spots_of nodes.old.items) places states → ArePositions (spots_of nodes.new.items) places states) }
{
    match arms {
        [arm] => lead_to_owing(alloc, nodes, number, state, peer, *arm),
        _ => {
            let row = owe_each(alloc, nodes, state, peer, arms)?;
            set_nexts(nodes, number, row);
            Ok(())
        }
    }
}

// The numbers of the nodes after arms by which the projection receives, which are all new.
fn owe_each(
    alloc: Global,
    nodes: &mut Vec<DNode>,
    state: u32,
    peer: Role,
    arms: &[Arm],
) -> Result<NodeRow, SearchStop>
    requires once { HasLabelsOnce arms.now }
    requires fresh { (p : Spot) → Among (spots_of nodes.old.items) p → p.state ≡ state → p.pending ≡ [] }
    requires bounded { length nodes.old.items ≤ MOST_CANDIDATES }
    ensures named { IfOk result (λ row. AreNamed (spots_of nodes.old.items) (map (λ b. owing_receive (even state) peer b) arms.now) (spots_of nodes.new.items) row) }
    ensures longer { OnOk result (IsLonger nodes.old.items nodes.new.items) }
    ensures positions { OnOk result ((places : List (Option ℕ)) (states : ℕ) → ArePositions (spots_of nodes.old.items) places states → ArePositions (spots_of nodes.new.items) places states) }
{
    let mut row = NodeRow::new(alloc);
    for i in 0..arms.len() {
        let n = owe(alloc, nodes, state, peer, arms[i])?;
        row.push(n)?;
    }
    Ok(row)
}

// Leads the node with both at the state to what it leads to; those that are new are added.
#[inline(always)]
fn lead_even(
    alloc: Global,
    machine: &Machine,
    nodes: &mut Vec<DNode>,
    places: &mut Vec<Option<u32>>,
    number: usize,
    state: u32,
) -> Result<(), SearchStop>
    requires proper { IsProper machine.now }
    requires here { number < length nodes.old.items }
    requires present { state < length machine.now.states }
    requires fresh { (p : Spot) → Among (spots_of nodes.old.items) p → p.state ≡ state → p.pending ≡ [] }
    requires positions { ArePositions (spots_of nodes.old.items) places.old.items (length machine.now.states) }
    ensures leads { OnOk result (LeadsTo nodes.old.items number (nexts_itself machine.now (even state)) nodes.new.items) }
    ensures positions { OnOk result (ArePositions (spots_of nodes.new.items) places.new.items (length machine.now.states)) }
{
    match &machine.states[state as usize] {
        State::Done => {
            set_nexts(nodes, number, NodeRow::new(alloc));
            Ok(())
        }
        State::Puts { arms, .. } => lead_to_all(alloc, nodes, places, number, arms.as_slice()),
        State::Takes { peer, arms } => {
            lead_to_all_owing(alloc, nodes, number, state, *peer, arms.as_slice())
        }
    }
}

// Leads the node to what it leads to; those that are new are added.
#[inline(always)]
fn lead_on(
    alloc: Global,
    machine: &Machine,
    nodes: &mut Vec<DNode>,
    places: &mut Vec<Option<u32>>,
    number: usize,
) -> Result<(), SearchStop>
    requires proper { IsProper machine.now }
    requires here { number < length nodes.old.items }
    requires kind { (p : Spot) → slice_get (spots_of nodes.old.items) number ≡ Some p → IsOfItself machine.now p }
    requires fresh { (p q : Spot) → slice_get (spots_of nodes.old.items) number ≡ Some p → p.pending ≡ [] → Among (spots_of nodes.old.items) q → q.state ≡ p.state → q.pending ≡ [] }
    requires positions { ArePositions (spots_of nodes.old.items) places.old.items (length machine.now.states) }
    ensures leads { OnOk result (LeadsOn (nexts_itself machine.now) nodes.old.items number nodes.new.items) }
    ensures positions { OnOk result (ArePositions (spots_of nodes.new.items) places.new.items (length machine.now.states)) }
{
    let node = &nodes[number];
    let state = node.state;
    if node.pending.as_slice().is_empty() {
        lead_even(alloc, machine, nodes, places, number, state)?;
        return Ok(());
    }
    let above = node.above;
    lead_to_one(alloc, nodes, places, number, above)?;
    Ok(())
}

// The number of nodes if all states are met: one for each state, and one for each arm of a receive.
fn usual_size(states: &[State]) -> usize {
    let mut size = states.len();
    for state in states {
        if let State::Takes { arms, .. } = state {
            size = size.saturating_add(arms.as_slice().len());
        }
    }
    size
}

// The nodes that are found, and the numbers of those with both at one state, by their states.
#[derive(Drop, Debug)]
struct Lists {
    nodes: Vec<DNode>,
    places: Vec<Option<u32>>,
}

// What there is at first: the start alone is found and has its place.
fn first_lists(alloc: Global, machine: &Machine) -> Result<Lists, SearchStop>
    requires proper { IsProper machine.now }
    ensures found { IfOk result (λ l. spots_of l.nodes.items ≡ even machine.now.start ∷ []) }
    ensures unranked { IfOk result (λ l. AreUnranked l.nodes.items) }
    ensures positions { IfOk result (λ l. ArePositions (spots_of l.nodes.items) l.places.items (length machine.now.states)) }
{
    let mut places: Vec<Option<u32>> = vec![in alloc; None; machine.states.len()]?;
    let mut nodes = Vec::with_capacity(alloc, usual_size(&machine.states))?;
    come_to(alloc, &mut nodes, &mut places, machine.start)?;
    Ok(Lists { nodes, places })
}

// The nodes of the derivation of the machine from itself, within any bound that allows one act to be owed.
fn nodes_itself(alloc: Global, machine: &Machine) -> Result<Vec<DNode>, SearchStop>
    requires proper { IsProper machine.now }
    ensures { IfOk result (λ v. (bound : ℕ) → 0 < bound → IsCanonical machine.now machine.now bound (record { role = machine.now.role; bound = bound; nodes = v.items })) }
{
    let Lists {
        mut nodes,
        mut places,
    } = first_lists(alloc, machine)?;
    let mut known = 0;
    while known < nodes.len() {
        lead_on(alloc, machine, &mut nodes, &mut places, known)?;
        known += 1;
    }
    Ok(nodes)
}

/// The derivation of the machine from itself within the bound.
pub fn search_itself(alloc: Global, machine: &Machine, bound: u8) -> Result<Derivation, SearchStop>
    requires proper { IsProper machine.now }
    requires some { 0 < bound }
    ensures { IfOk result (λ d. IsCanonical machine.now machine.now bound d) }
{
    let nodes = nodes_itself(alloc, machine)?;
    Ok(Derivation {
        role: machine.role,
        bound,
        nodes,
    })
}
