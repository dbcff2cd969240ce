//! The candidates: the spots that are reached within the bound, numbered in order of first sight.
ghost use Rattle.std.specs.Prelude.{◌*◌, ◌≡◌, ◌<◌, ◌≤◌, ◌+◌, ◌^◌, [], ◌∷◌, ◌++◌, List, ℕ, OnOk, OnErr, IfOk, IfErr, IfSome, MatchResult, length, map, slice_get, slice_index_or, Some, ◌||◌};
ghost use Rattle.rs_derive.specs.Targets.{target_spot};
ghost use Rattle.rs_derive.specs.Derivations.{IsProper, spot_of};
ghost use Rattle.rs_derive.specs.Due.{both_at, nexts_by};
ghost use Rattle.rs_derive.specs.Moves.{Spot, arm_of, spot};
ghost use Rattle.rs_derive.specs.Rules.{RuleFits, arms_at};
ghost use Rattle.rs_derive.specs.Within.{HasLabelsOnce};
ghost use Rattle.rs_prefix.specs.Earliest.{without};
ghost use Rattle.rs_search.specs.Candidates.{start_spot};
ghost use Rattle.rs_search.specs.Found.{AreFoundCandidates};
ghost use Rattle.rs_search.specs.FoundSoFar.{AreFoundSoFar};
ghost use Rattle.rs_search.specs.Itself.{AreNamedAt, GrowsBy};
ghost use Rattle.rs_search.specs.Table.{AddsAt, IsBucketCount, IsWithinAt, NamesMore, StandsWithin, numbers_of};
ghost use Rattle.rs_graph.specs.Naming.{MoreThan};
ghost use Rattle.rs_graph.specs.Lists.{concat};
ghost use Rattle.rs_search.specs.Turns.{BothHaveLabelsOnce, nexts_within, owing_by, spots_by};
ghost use Rattle.rs_model.specs.declared.limits.TheConstants.{MOST_CANDIDATES, MOST_STATES};
ghost use Rattle.rs_search.specs.declared.found.SearchStop.TheVariants.{TooLarge, Memory};

use crate::table::SpotTable;
use crate::turns::{
    has_choice, state_of, target_behind_payment, target_of_both, target_owing, turn_at,
};
use rs_derive::{EdgeTarget, Rule, arm_of, arms_at};
use rs_graph::NodeRow;
use rs_model::{Arm, MOST_CANDIDATES, MOST_STATES, Machine, NoMemory, Role, State};
use rs_prefix::ActKind;
use std::alloc::{AllocError, AllocFailed, Global};

/// Why the search for candidates stopped before all were found.
#[derive(Drop, Debug)]
pub enum SearchStop {
    /// There are more than `MOST_CANDIDATES` candidates.
    TooLarge,
    /// Memory ran out.
    Memory,
}

impl From<AllocError> for SearchStop {
    ghost use Rattle.rs_search.specs.declared.found.SearchStop.TheVariants.{Memory};

    ghost from_gives = { λ _ e. e ≡ Memory };

    fn from(_e: AllocError) -> SearchStop {
        SearchStop::Memory
    }
}

impl<T: Drop> From<AllocFailed<T>> for SearchStop {
    ghost use Rattle.rs_search.specs.declared.found.SearchStop.TheVariants.{Memory};

    ghost from_gives = { λ _ e. e ≡ Memory };

    fn from(_e: AllocFailed<T>) -> SearchStop {
        SearchStop::Memory
    }
}

impl From<NoMemory> for SearchStop {
    ghost use Rattle.rs_search.specs.declared.found.SearchStop.TheVariants.{Memory};

    ghost from_gives = { λ _ e. e ≡ Memory };

    fn from(_e: NoMemory) -> SearchStop {
        SearchStop::Memory
    }
}

/// The candidates: all spots that the start reaches within the bound, and what each leads to.
#[derive(Drop, Debug)]
pub struct Candidates {
    /// The spots by their numbers, each with the row of the numbers that it leads to.
    pub table: SpotTable,
    /// For each spot whether it may choose one number of its row. Otherwise its move leads to all of them.
    pub anys: Vec<bool>,
    /// For each spot whether its edges keep the oldest act that is owed.
    pub keeps: Vec<bool>,
    /// Whether some candidate meets a cut: the bound takes its moves away.
    pub cut: bool,
    /// Whether some candidate may choose.
    pub choosing: bool,
}

/// What a spot leads to: one spot, which needs no row, or several.
#[derive(Drop, Debug)]
pub enum Nexts {
    /// The number of the one spot.
    One(u32),
    /// The numbers of the spots, in the order of the arms.
    Several(NodeRow),
}

#[inline(always)]
fn count_of(nexts: &Nexts) -> usize
    ensures { result ≡ length (numbers_of nexts.now) }
{
    match nexts {
        Nexts::One(_) => 1,
        Nexts::Several(row) => row.as_slice().len(),
    }
}

#[inline(always)]
fn row_of(alloc: Global, nexts: Nexts) -> NodeRow
    ensures { result ≡ numbers_of nexts }
{
    match nexts {
        Nexts::One(n) => NodeRow::of_one(alloc, n),
        Nexts::Several(row) => row,
    }
}

// Adds the number of the spot of the target to the row; the spot is added where it is new.
#[inline(always)]
fn name(
    alloc: Global,
    table: &mut SpotTable,
    row: &mut NodeRow,
    k: usize,
    target: EdgeTarget,
    limit: usize,
) -> Result<(), SearchStop>
    requires within { StandsWithin table.old.spots k limit }
    requires place { IsWithinAt table.old.spots k target }
    ensures longer { length table.old.spots ≤ length table.new.spots }
    ensures named { OnOk result (NamesMore (λ p. target_spot p.pending target ∷ []) table.old.spots k table.new.spots row.old row.new) }
    ensures adds { AddsAt table.old.spots k target table.new.spots }
    ensures limit { MatchResult result (λ _. length table.new.spots ≤ limit) (λ e. e ≡ TooLarge → limit < length table.new.spots) }
    ensures rows { table.new.rows ≡ table.old.rows }
{
    let n = table.number_of(alloc, k, target, limit)?;
    row.push(n)?;
    Ok(())
}

// The number of the spot of the target alone.
#[inline(always)]
fn name_one(
    alloc: Global,
    table: &mut SpotTable,
    k: usize,
    target: EdgeTarget,
    limit: usize,
) -> Result<u32, SearchStop>
    requires within { StandsWithin table.old.spots k limit }
    requires place { IsWithinAt table.old.spots k target }
    ensures named { IfOk result (λ n. AreNamedAt (λ p. target_spot p.pending target ∷ []) table.old.spots k table.new.spots (n ∷ [])) }
    ensures grown { OnErr result (GrowsBy (λ p. target_spot p.pending target ∷ []) table.old.spots k table.new.spots) }
    ensures limit { MatchResult result (λ _. length table.new.spots ≤ limit) (λ e. e ≡ TooLarge → limit < length table.new.spots) }
    ensures rows { table.new.rows ≡ table.old.rows }
{
    let n = table.number_of(alloc, k, target, limit)?;
    Ok(n)
}

// The number of the spot to which making the act that is owed at the place leads.
#[inline(always)]
fn name_paid(
    alloc: Global,
    table: &mut SpotTable,
    k: usize,
    place: usize,
    arm: Arm,
    limit: usize,
) -> Result<u32, SearchStop>
    requires within { StandsWithin table.old.spots k limit }
    requires owed { (p : Spot) → slice_get table.old.spots k ≡ Some p → place < length p.pending }
    ensures named { IfOk result (λ n. AreNamedAt (λ p. spot arm.next (without p.pending place) p.above ∷ []) table.old.spots k table.new.spots (n ∷ [])) }
    ensures grown { OnErr result (GrowsBy (λ p. spot arm.next (without p.pending place) p.above ∷ []) table.old.spots k table.new.spots) }
    ensures limit { MatchResult result (λ _. length table.new.spots ≤ limit) (λ e. e ≡ TooLarge → limit < length table.new.spots) }
    ensures rows { table.new.rows ≡ table.old.rows }
{
    let target = target_behind_payment(table.node(k), place, arm);
    name_one(alloc, table, k, target, limit)
}

// The numbers of the spots after arms by which the projection has sent or received.
#[inline(always)]
fn name_owing(
    alloc: Global,
    table: &mut SpotTable,
    k: usize,
    kind: ActKind,
    peer: Role,
    theirs: &[Arm],
    limit: usize,
) -> Result<Nexts, SearchStop>
    requires within { StandsWithin table.old.spots k limit }
    requires once { HasLabelsOnce theirs.now }
    ensures named { IfOk result (λ nexts. AreNamedAt (λ p. map (λ b. owing_by kind p peer b) theirs.now) table.old.spots k table.new.spots (numbers_of nexts)) }
    ensures short { IfOk result (λ nexts. length (numbers_of nexts) ≤ 2 ^ 16) }
    ensures grown { OnErr result (GrowsBy (λ p. map (λ b. owing_by kind p peer b) theirs.now) table.old.spots k table.new.spots) }
    ensures limit { MatchResult result (λ _. length table.new.spots ≤ limit) (λ e. e ≡ TooLarge → limit < length table.new.spots) }
    ensures rows { table.new.rows ≡ table.old.rows }
{
    match theirs {
        [arm] => {
            let target = target_owing(table.node(k), kind, peer, *arm);
            let n = name_one(alloc, table, k, target, limit)?;
            Ok(Nexts::One(n))
        }
        _ => {
            let row = name_each_owing(alloc, table, k, kind, peer, theirs, limit)?;
            Ok(Nexts::Several(row))
        }
    }
}

// The same, arm by arm.
fn name_each_owing(
    alloc: Global,
    table: &mut SpotTable,
    k: usize,
    kind: ActKind,
    peer: Role,
    theirs: &[Arm],
    limit: usize,
) -> Result<NodeRow, SearchStop>
    requires within { StandsWithin table.old.spots k limit }
    requires once { HasLabelsOnce theirs.now }
    ensures named { IfOk result (λ row. AreNamedAt (λ p. map (λ b. owing_by kind p peer b) theirs.now) table.old.spots k table.new.spots row) }
    ensures short { IfOk result (λ row. length row ≤ 2 ^ 16) }
    ensures grown { OnErr result (GrowsBy (λ p. map (λ b. owing_by kind p peer b) theirs.now) table.old.spots k table.new.spots) }
    ensures limit { MatchResult result (λ _. length table.new.spots ≤ limit) (λ e. e ≡ TooLarge → limit < length table.new.spots) }
    ensures rows { table.new.rows ≡ table.old.rows }
{
    let mut row = NodeRow::new(alloc);
    for arm in theirs {
        let target = target_owing(table.node(k), kind, peer, *arm);
        name(alloc, table, &mut row, k, target, limit)?;
    }
    Ok(row)
}

// Adds the number of the spot after an arm that both send to the row, if the projection has the arm.
#[inline(always)]
fn name_if(
    alloc: Global,
    table: &mut SpotTable,
    row: &mut NodeRow,
    k: usize,
    arm: Arm,
    their: Option<Arm>,
    limit: usize,
) -> Result<(), SearchStop>
    requires within { StandsWithin table.old.spots k limit }
    ensures longer { length table.old.spots ≤ length table.new.spots }
    ensures named { OnOk result (NamesMore (λ p. both_at p.pending arm their) table.old.spots k table.new.spots row.old row.new) }
    ensures grown { OnErr result (GrowsBy (λ p. both_at p.pending arm their) table.old.spots k table.new.spots) }
    ensures limit { MatchResult result (λ _. length table.new.spots ≤ limit) (λ e. e ≡ TooLarge → limit < length table.new.spots) }
    ensures rows { table.new.rows ≡ table.old.rows }
{
    match their {
        Some(their) => {
            name(alloc, table, row, k, target_of_both(arm, their), limit)?;
            Ok(())
        }
        None => Ok(()),
    }
}

// The numbers of the spots after arms that both send, arm by arm.
fn name_both(
    alloc: Global,
    table: &mut SpotTable,
    k: usize,
    arms: &[Arm],
    theirs: &[Arm],
    limit: usize,
) -> Result<NodeRow, SearchStop>
    requires within { StandsWithin table.old.spots k limit }
    requires once { HasLabelsOnce arms.now }
    ensures named { IfOk result (λ row. AreNamedAt (λ p. concat (map (λ a. both_at p.pending a (arm_of theirs.now a.label)) arms.now)) table.old.spots k table.new.spots row) }
    ensures short { IfOk result (λ row. length row ≤ 2 ^ 16) }
    ensures grown { OnErr result (GrowsBy (λ p. concat (map (λ a. both_at p.pending a (arm_of theirs.now a.label)) arms.now)) table.old.spots k table.new.spots) }
    ensures limit { MatchResult result (λ _. length table.new.spots ≤ limit) (λ e. e ≡ TooLarge → limit < length table.new.spots) }
    ensures rows { table.new.rows ≡ table.old.rows }
{
    let mut row = NodeRow::new(alloc);
    for arm in arms {
        let their = arm_of(theirs, arm.label);
        name_if(alloc, table, &mut row, k, *arm, their, limit)?;
    }
    Ok(row)
}

// The number of the spot after an arm that both send, if the projection has the arm.
#[inline(always)]
fn name_one_sent(
    alloc: Global,
    table: &mut SpotTable,
    k: usize,
    arm: Arm,
    their: Option<Arm>,
    limit: usize,
) -> Result<Nexts, SearchStop>
    requires within { StandsWithin table.old.spots k limit }
    ensures named { IfOk result (λ nexts. AreNamedAt (λ p. both_at p.pending arm their) table.old.spots k table.new.spots (numbers_of nexts)) }
    ensures short { IfOk result (λ nexts. length (numbers_of nexts) ≤ 2 ^ 16) }
    ensures grown { OnErr result (GrowsBy (λ p. both_at p.pending arm their) table.old.spots k table.new.spots) }
    ensures limit { MatchResult result (λ _. length table.new.spots ≤ limit) (λ e. e ≡ TooLarge → limit < length table.new.spots) }
    ensures rows { table.new.rows ≡ table.old.rows }
{
    match their {
        Some(their) => {
            let n = name_one(alloc, table, k, target_of_both(arm, their), limit)?;
            Ok(Nexts::One(n))
        }
        None => {
            let none = NodeRow::new(alloc);
            Ok(Nexts::Several(none))
        }
    }
}

// The numbers of the spots after arms that both send; one arm needs no row.
#[inline(always)]
fn name_sent(
    alloc: Global,
    table: &mut SpotTable,
    k: usize,
    arms: &[Arm],
    theirs: &[Arm],
    limit: usize,
) -> Result<Nexts, SearchStop>
    requires within { StandsWithin table.old.spots k limit }
    requires once { HasLabelsOnce arms.now }
    ensures named { IfOk result (λ nexts. AreNamedAt (λ p. concat (map (λ a. both_at p.pending a (arm_of theirs.now a.label)) arms.now)) table.old.spots k table.new.spots (numbers_of nexts)) }
    ensures short { IfOk result (λ nexts. length (numbers_of nexts) ≤ 2 ^ 16) }
    ensures grown { OnErr result (GrowsBy (λ p. concat (map (λ a. both_at p.pending a (arm_of theirs.now a.label)) arms.now)) table.old.spots k table.new.spots) }
    ensures limit { MatchResult result (λ _. length table.new.spots ≤ limit) (λ e. e ≡ TooLarge → limit < length table.new.spots) }
    ensures rows { table.new.rows ≡ table.old.rows }
{
    match arms {
        [arm] => {
            let their = arm_of(theirs, arm.label);
            name_one_sent(alloc, table, k, *arm, their, limit)
        }
        _ => {
            let row = name_both(alloc, table, k, arms, theirs, limit)?;
            Ok(Nexts::Several(row))
        }
    }
}

// The numbers of the spots to which the rule leads.
#[inline(always)]
fn name_by(
    alloc: Global,
    table: &mut SpotTable,
    k: usize,
    rule: Rule,
    state: &State,
    there: &State,
    limit: usize,
) -> Result<Nexts, SearchStop>
    requires within { StandsWithin table.old.spots k limit }
    requires once { BothHaveLabelsOnce (arms_at state.now) (arms_at there.now) }
    requires fits { (p : Spot) → slice_get table.old.spots k ≡ Some p → RuleFits p.pending (arms_at state.now) (arms_at there.now) rule }
    ensures named { IfOk result (λ nexts. AreNamedAt (λ p. concat (nexts_by p (arms_at state.now) (arms_at there.now) rule)) table.old.spots k table.new.spots (numbers_of nexts)) }
    ensures short { IfOk result (λ nexts. length (numbers_of nexts) ≤ 2 ^ 16) }
    ensures grown { OnErr result (GrowsBy (λ p. concat (nexts_by p (arms_at state.now) (arms_at there.now) rule)) table.old.spots k table.new.spots) }
    ensures limit { MatchResult result (λ _. length table.new.spots ≤ limit) (λ e. e ≡ TooLarge → limit < length table.new.spots) }
    ensures rows { table.new.rows ≡ table.old.rows }
{
    match rule {
        Rule::Stops => {
            let none = NodeRow::new(alloc);
            Ok(Nexts::Several(none))
        }
        Rule::Pays { place, arm } => {
            let n = name_paid(alloc, table, k, place, arm, limit)?;
            Ok(Nexts::One(n))
        }
        Rule::SendsBoth => {
            let arms = arms_at(state);
            let theirs = arms_at(there);
            name_sent(alloc, table, k, arms, theirs, limit)
        }
        Rule::Guesses { peer } => {
            let theirs = arms_at(there);
            name_owing(alloc, table, k, ActKind::Send, peer, theirs, limit)
        }
        Rule::Follows { peer } => {
            let theirs = arms_at(there);
            name_owing(alloc, table, k, ActKind::Receive, peer, theirs, limit)
        }
    }
}

// The numbers of the spots to which the rule leads, if one applies.
#[inline(always)]
fn name_all(
    alloc: Global,
    table: &mut SpotTable,
    k: usize,
    rule: Option<Rule>,
    state: &State,
    there: &State,
    limit: usize,
) -> Result<Nexts, SearchStop>
    requires within { StandsWithin table.old.spots k limit }
    requires once { BothHaveLabelsOnce (arms_at state.now) (arms_at there.now) }
    requires fits { (p : Spot) → slice_get table.old.spots k ≡ Some p → IfSome rule (λ r. RuleFits p.pending (arms_at state.now) (arms_at there.now) r) }
    ensures named { IfOk result (λ nexts. AreNamedAt (λ p. spots_by p (arms_at state.now) (arms_at there.now) rule) table.old.spots k table.new.spots (numbers_of nexts)) }
    ensures short { IfOk result (λ nexts. length (numbers_of nexts) ≤ 2 ^ 16) }
    ensures grown { OnErr result (GrowsBy (λ p. spots_by p (arms_at state.now) (arms_at there.now) rule) table.old.spots k table.new.spots) }
    ensures limit { MatchResult result (λ _. length table.new.spots ≤ limit) (λ e. e ≡ TooLarge → limit < length table.new.spots) }
    ensures rows { table.new.rows ≡ table.old.rows }
{
    match rule {
        None => {
            let none = NodeRow::new(alloc);
            Ok(Nexts::Several(none))
        }
        Some(one) => name_by(alloc, table, k, one, state, there, limit),
    }
}

#[inline(always)]
fn either(a: bool, b: bool) -> bool
    ensures { result ≡ (a || b) }
{
    a || b
}

// How many states the machine has, as far as these are few.
fn state_count(machine: &Machine) -> usize
    ensures { result ≤ MOST_STATES }
{
    machine.states.len().min(MOST_STATES)
}

// For how many candidates there is room at once: one for each pair of states, as far as these are few, and a few at least.
fn first_room(sub: &Machine, above: &Machine) -> usize
    ensures { result ≤ MOST_CANDIDATES + 16 }
{
    let pairs = state_count(sub) * state_count(above);
    pairs.min(MOST_CANDIDATES) + 16
}

// How many buckets there are at first: some for each state.
fn few_buckets(sub: &Machine, above: &Machine) -> usize
    ensures some { 0 < result }
    ensures bounded { result ≤ MOST_STATES * 2 + 1 }
{
    state_count(sub) + state_count(above) + 1
}

// How many there are once the candidates are more: one for each pair of states, as far as these are few.
fn many_buckets(sub: &Machine, above: &Machine) -> usize
    ensures some { 0 < result }
    ensures bounded { result < 2 ^ 32 }
{
    first_room(sub, above) + few_buckets(sub, above)
}

// Notes of the next candidate what it may do within the bound, and numbers what it leads to.
#[inline(always)]
fn visit_next(
    alloc: Global,
    sub: &Machine,
    above: &Machine,
    bound: u8,
    buckets: usize,
    limit: usize,
    found: &mut Candidates,
) -> Result<(), SearchStop>
    requires buckets { IsBucketCount buckets }
    requires ours { IsProper sub.now }
    requires theirs { IsProper above.now }
    requires next { StandsWithin found.old.table.spots (length found.old.table.rows) limit }
    requires found { AreFoundSoFar sub.now above.now bound found.old }
    ensures next { OnOk result (length found.new.table.rows ≡ length found.old.table.rows + 1) }
    ensures found { OnOk result (AreFoundSoFar sub.now above.now bound found.new) }
    ensures limit { MatchResult result (λ _. length found.new.table.spots ≤ limit) (λ e. e ≡ TooLarge → MoreThan limit (nexts_within sub.now above.now bound) (start_spot sub.now above.now)) }
{
    found.table.spread(alloc, buckets)?;
    let k = found.table.known();
    let node = found.table.node(k);
    let state = state_of(sub, node.state);
    let there = state_of(above, node.above);
    let turn = turn_at(bound, node, state, there);
    found.anys.push(turn.any)?;
    found.keeps.push(turn.keeps)?;
    found.cut = either(found.cut, turn.cut);
    let nexts = match name_all(alloc, &mut found.table, k, turn.rule, state, there, limit) {
        Ok(nexts) => nexts,
        Err(fault) => return Err(fault),
    };
    found.choosing = either(found.choosing, has_choice(turn.any, count_of(&nexts)));
    found.table.push_row(row_of(alloc, nexts));
    Ok(())
}

/// The candidates within the bound, if they number no more than the limit.
pub fn find_all(
    alloc: Global,
    sub: &Machine,
    above: &Machine,
    bound: u8,
    limit: usize,
) -> Result<Candidates, SearchStop>
    requires some { 0 < limit }
    requires limit { limit + 1 < 2 ^ 32 }
    requires ours { IsProper sub.now }
    requires theirs { IsProper above.now }
    ensures found { IfOk result (AreFoundCandidates sub.now above.now bound) }
    ensures bounded { IfOk result (λ d. length d.table.spots ≤ limit) }
    ensures large { IfErr result (λ e. e ≡ TooLarge → MoreThan limit (nexts_within sub.now above.now bound) (start_spot sub.now above.now)) }
{
    let room = first_room(sub, above);
    let few = few_buckets(sub, above);
    let many = many_buckets(sub, above);
    let mut found = Candidates {
        table: SpotTable::new(alloc, sub.start, above.start, few, room)?,
        anys: Vec::with_capacity(alloc, room)?,
        keeps: Vec::with_capacity(alloc, room)?,
        cut: false,
        choosing: false,
    };
    while found.table.known() < found.table.len() {
        visit_next(alloc, sub, above, bound, many, limit, &mut found)?;
    }
    Ok(found)
}
