//! What each node is for a role, worked out once before the search.
ghost use Rattle.std.specs.Prelude.{◌≡◌, ◌+◌, ◌∷◌, ◌<◌, ◌^◌, ℕ, Bool, List, true, false, length, slice_get, [], Some, IfOk, IfSome};
ghost use Rattle.rs_model.specs.declared.graph.Node.{Node};
ghost use Rattle.rs_model.specs.declared.graph.Role.{Role};
ghost use Rattle.rs_project.specs.Awaited.{HasNoUnreached, MarksNode, all_on};
ghost use Rattle.rs_project.specs.Marks.{AreLeft, AreMarked, GoesOn, HasEnd, HasFlags, HaveNodeSizes, IsOn, IsSettled, LeadsWithin, any_on, arms_of_node, count_of_lowered, have_end, involves_role, leads_on};
ghost use Rattle.rs_project.specs.Refusals.{NoneUnreached};
ghost use Rattle.rs_wellformed.specs.WellFormed.{IsWellFormed};
ghost use Rattle.std.specs.List.{All};

use rs_model::{Arm, NoMemory, Node, Protocol, Role};
use std::alloc::Global;
use std::marker::Model;

/// A well-formed protocol, and what is known of its nodes for one role: whether a node is a talk that involves the role, whether such a
/// talk can be reached from it, whether it passes by the role, and where the run that begins there ends: a node from which
/// the role meets the same.
#[derive(Drop)]
pub struct Survey<'a> {
    pub protocol: &'a Protocol,
    pub role: Role,
    pub involved: Vec<bool>,
    pub awaited: Vec<bool>,
    pub passing: Vec<bool>,
    pub run_ends: Vec<u32>,
}

impl<'a> Model for Survey<'a> {
    ghost use Rattle.rs_project.specs.Marks.{IsTrueSurvey, Survey_data};

    ghost Value = { Survey_data };

    ghost view = { λ s. record { protocol = s.protocol.now; role = s.role; involved = s.involved.items; awaited = s.awaited.items; passing = s.passing.items; run_ends = s.run_ends.items } };

    ghost invariant = { λ s. IsTrueSurvey (record {
      protocol = s.protocol.now;
      role = s.role;
      involved = s.involved.items;
      awaited = s.awaited.items;
      passing = s.passing.items;
      run_ends = s.run_ends.items;
    }) };
}

/// A survey, how many states most projections have, and whether the survey shows that the session can't go round without the
/// role. Where it doesn't, it may yet be so.
#[derive(Drop)]
pub struct Surveyed<'a> {
    pub survey: Survey<'a>,
    pub usual_size: usize,
    pub has_no_rounds: bool,
}

/// What is known of the protocol's nodes for the role.
pub fn survey_of<'a>(
    alloc: Global,
    protocol: &'a Protocol,
    role: Role,
) -> Result<Surveyed<'a>, NoMemory>
    requires well_formed { IsWellFormed protocol.now }
    requires bounded { length protocol.now.nodes < 2 ^ 32 }
    ensures protocol { IfOk result (λ s. s.survey.protocol ≡ protocol.now) }
    ensures role { IfOk result (λ s. s.survey.role ≡ role) }
    ensures rounds { IfOk result (λ s. s.has_no_rounds ≡ true → NoneUnreached s.survey.protocol s.survey.role) }
{
    let count = protocol.nodes.len();
    let mut involved = vec![in alloc; false; count]?;
    let mut awaited = vec![in alloc; false; count]?;
    let mut passing = vec![in alloc; false; count]?;
    let mut run_ends = vec![in alloc; 0; count]?;
    let marked = mark_nodes(
        protocol,
        role,
        involved.as_mut_slice(),
        awaited.as_mut_slice(),
        passing.as_mut_slice(),
        run_ends.as_mut_slice(),
    );
    Ok(Surveyed {
        survey: Survey {
            protocol,
            role,
            involved,
            awaited,
            passing,
            run_ends,
        },
        usual_size: marked.usual_size,
        has_no_rounds: marked.has_no_rounds,
    })
}

/// How many states most projections have: one for each talk that involves the role, and the end; and whether the marks show
/// that the session can't go round without the role.
#[derive(Clone, Copy)]
struct Marked {
    usual_size: usize,
    has_no_rounds: bool,
}

// Marks all nodes, where none is marked yet.
fn mark_nodes(
    protocol: &Protocol,
    role: Role,
    involved: &mut [bool],
    awaited: &mut [bool],
    passing: &mut [bool],
    ends: &mut [u32],
) -> Marked
    requires well_formed { IsWellFormed protocol.now }
    requires bounded { length protocol.now.nodes < 2 ^ 32 }
    requires involved_size { length involved.old ≡ length protocol.now.nodes }
    requires sizes { HaveNodeSizes protocol.now awaited.old passing.old ends.old }
    requires begun { AreMarked protocol.now role (length protocol.now.nodes) involved.old awaited.old passing.old ends.old }
    ensures involved_size { length involved.new ≡ length protocol.now.nodes }
    ensures sizes { HaveNodeSizes protocol.now awaited.new passing.new ends.new }
    ensures marked { AreMarked protocol.now role 0 involved.new awaited.new passing.new ends.new }
    ensures settled { IsSettled protocol.now awaited.new }
    ensures rounds { result.has_no_rounds ≡ true → HasNoUnreached protocol.now role awaited.new }
{
    let found = mark_talks(protocol, role, involved, awaited, passing, ends);
    let by_all = await_all(protocol, awaited, passing, ends, found.left);
    Marked {
        usual_size: found.usual_size,
        has_no_rounds: by_all,
    }
}

/// The nodes from the first to before the end. All that aren't marked are among them.
#[derive(Clone, Copy)]
struct Stretch {
    first: usize,
    end: usize,
}

impl Stretch {
    // The stretch with this node, which is before it, as the first.
    fn with(self, number: usize) -> Stretch
        requires { number < 2 ^ 32 }
        ensures { (flags : List Bool) → number < length flags → AreLeft (number + 1) self.first self.end flags → AreLeft number result.first result.end flags }
    {
        Stretch {
            first: number,
            end: self.end.max(number + 1),
        }
    }
}

/// What came of a look at a node.
#[derive(Clone, Copy)]
enum Look {
    /// It is a talk of the role, or was marked before.
    Known,
    /// It leads to marked nodes, and is marked now.
    Marked,
    /// It isn't marked.
    Open,
}

/// The nodes that the first sweep left, and how many states most projections have.
#[derive(Clone, Copy)]
struct FirstSweep {
    left: Stretch,
    usual_size: usize,
}

// One sweep from the last node to the first: marks the talks of the role, and of the other nodes those that lead to marked
// ones alone.
#[inline(never)]
fn mark_talks(
    protocol: &Protocol,
    role: Role,
    involved: &mut [bool],
    awaited: &mut [bool],
    passing: &mut [bool],
    ends: &mut [u32],
) -> FirstSweep
    requires well_formed { IsWellFormed protocol.now }
    requires bounded { length protocol.now.nodes < 2 ^ 32 }
    requires involved_size { length involved.old ≡ length protocol.now.nodes }
    requires sizes { HaveNodeSizes protocol.now awaited.old passing.old ends.old }
    requires begun { AreMarked protocol.now role (length protocol.now.nodes) involved.old awaited.old passing.old ends.old }
    ensures involved_size { length involved.new ≡ length protocol.now.nodes }
    ensures sizes { HaveNodeSizes protocol.now awaited.new passing.new ends.new }
    ensures marked { AreMarked protocol.now role 0 involved.new awaited.new passing.new ends.new }
    ensures reached { HasNoUnreached protocol.now role awaited.new }
    ensures left { AreLeft 0 result.left.first result.left.end awaited.new }
{
    let mut usual_size = 1;
    let mut number = protocol.nodes.len();
    let mut left = Stretch {
        first: number,
        end: 0,
    };
    while number > 0 {
        number -= 1;
        match mark_first(protocol, role, number, involved, awaited, passing, ends) {
            Look::Known => usual_size += 1,
            Look::Marked => {}
            Look::Open => left = left.with(number),
        }
    }
    FirstSweep { left, usual_size }
}

// Marks the node where it is a talk of the role or leads to marked ones alone. Its run ends at itself or goes on.
#[inline(always)]
fn mark_first(
    protocol: &Protocol,
    role: Role,
    number: usize,
    involved: &mut [bool],
    awaited: &mut [bool],
    passing: &mut [bool],
    ends: &mut [u32],
) -> Look
    requires well_formed { IsWellFormed protocol.now }
    requires bounded { length protocol.now.nodes < 2 ^ 32 }
    requires node { number < length protocol.now.nodes }
    requires involved_size { length involved.old ≡ length protocol.now.nodes }
    requires sizes { HaveNodeSizes protocol.now awaited.old passing.old ends.old }
    requires marked { AreMarked protocol.now role (number + 1) involved.old awaited.old passing.old ends.old }
    requires reached { HasNoUnreached protocol.now role awaited.old }
    ensures involved_size { length involved.new ≡ length protocol.now.nodes }
    ensures sizes { HaveNodeSizes protocol.now awaited.new passing.new ends.new }
    ensures marked { AreMarked protocol.now role number involved.new awaited.new passing.new ends.new }
    ensures reached { HasNoUnreached protocol.now role awaited.new }
    ensures kept { HasFlags awaited.old awaited.new }
    ensures open { (IsOn awaited.new number → ⊥) → result ≡ Look.Open }
{
    ends[number] = number as u32;
    let node = &protocol.nodes[number];
    if involves(node, role) {
        involved[number] = true;
        awaited[number] = true;
        return Look::Known;
    }
    if mark_passing(node, number, awaited, passing, ends, true) {
        return Look::Marked;
    }
    Look::Open
}

fn involves(node: &Node, role: Role) -> bool
    ensures { result ≡ involves_role role node.now }
{
    match node {
        Node::Finished => false,
        Node::Talk {
            sender,
            receiver,
            ..
        } => *sender == role || *receiver == role,
    }
}

// Marks all nodes that lead to marked ones, where those that aren't marked are among these; whether each that was added leads
// only to nodes that were marked before. The second sweep sees what the first did to the nodes to which arms lead back.
fn await_all(
    protocol: &Protocol,
    awaited: &mut [bool],
    passing: &mut [bool],
    ends: &mut [u32],
    stretch: Stretch,
) -> bool
    requires well_formed { IsWellFormed protocol.now }
    requires bounded { length protocol.now.nodes < 2 ^ 32 }
    requires sizes { HaveNodeSizes protocol.now awaited.old passing.old ends.old }
    requires left { AreLeft 0 stretch.first stretch.end awaited.old }
    ensures sizes { HaveNodeSizes protocol.now awaited.new passing.new ends.new }
    ensures marked { (role : Role) (involved : List Bool) → AreMarked protocol.now role 0 involved awaited.old passing.old ends.old
        → AreMarked protocol.now role 0 involved awaited.new passing.new ends.new }
    ensures settled { IsSettled protocol.now awaited.new }
    ensures rounds { result ≡ true → (role : Role) → HasNoUnreached protocol.now role awaited.old → HasNoUnreached protocol.now role awaited.new }
{
    let mut left = stretch;
    await_left(protocol, awaited, passing, ends, &mut left, true);
    await_left(protocol, awaited, passing, ends, &mut left, true);
    let mut by_all = true;
    while await_left(protocol, awaited, passing, ends, &mut left, false) {
        by_all = false;
    }
    by_all
}

// Marks nodes of the stretch that lead to a marked one, or only those that lead to marked ones alone, from the last to the
// first; whether some were marked. The stretch becomes that of the nodes that are left.
#[inline(never)]
fn await_left(
    protocol: &Protocol,
    awaited: &mut [bool],
    passing: &mut [bool],
    ends: &mut [u32],
    stretch: &mut Stretch,
    by_all: bool,
) -> bool
    requires well_formed { IsWellFormed protocol.now }
    requires bounded { length protocol.now.nodes < 2 ^ 32 }
    requires sizes { HaveNodeSizes protocol.now awaited.old passing.old ends.old }
    requires left { AreLeft 0 stretch.old.first stretch.old.end awaited.old }
    ensures sizes { HaveNodeSizes protocol.now awaited.new passing.new ends.new }
    ensures marked { (role : Role) (involved : List Bool) → AreMarked protocol.now role 0 involved awaited.old passing.old ends.old
        → AreMarked protocol.now role 0 involved awaited.new passing.new ends.new }
    ensures left { AreLeft 0 stretch.new.first stretch.new.end awaited.new }
    ensures less { result ≡ true → count_of_lowered awaited.new < count_of_lowered awaited.old }
    ensures same { result ≡ false → awaited.new ≡ awaited.old }
    ensures settled { result ≡ false → by_all ≡ false → IsSettled protocol.now awaited.new }
    ensures rounds { by_all ≡ true → (role : Role) → HasNoUnreached protocol.now role awaited.old → HasNoUnreached protocol.now role awaited.new }
{
    let first = stretch.first;
    let mut number = stretch.end;
    let mut more = false;
    let mut left = Stretch {
        first: number,
        end: 0,
    };
    while number > first {
        number -= 1;
        match await_one(protocol, awaited, passing, ends, number, by_all) {
            Look::Known => {}
            Look::Marked => more = true,
            Look::Open => left = left.with(number),
        }
    }
    *stretch = left;
    more
}

// Marks the node where it isn't marked and leads to a marked one, or to marked ones alone.
#[inline(always)]
fn await_one(
    protocol: &Protocol,
    awaited: &mut [bool],
    passing: &mut [bool],
    ends: &mut [u32],
    number: usize,
    by_all: bool,
) -> Look
    requires well_formed { IsWellFormed protocol.now }
    requires sizes { HaveNodeSizes protocol.now awaited.old passing.old ends.old }
    requires node { number < length protocol.now.nodes }
    ensures sizes { HaveNodeSizes protocol.now awaited.new passing.new ends.new }
    ensures marked { (role : Role) (involved : List Bool) → AreMarked protocol.now role 0 involved awaited.old passing.old ends.old
        → AreMarked protocol.now role 0 involved awaited.new passing.new ends.new }
    ensures less { result ≡ Look.Marked → count_of_lowered awaited.new < count_of_lowered awaited.old }
    ensures same { (result ≡ Look.Marked → ⊥) → awaited.new ≡ awaited.old }
    ensures kept { HasFlags awaited.old awaited.new }
    ensures open { (IsOn awaited.new number → ⊥) → result ≡ Look.Open }
    ensures settled { result ≡ Look.Open → by_all ≡ false → (node : Node) → slice_get protocol.now.nodes number ≡ Some node → leads_on awaited.old node ≡ true → ⊥ }
    ensures rounds { by_all ≡ true → (role : Role) → HasNoUnreached protocol.now role awaited.old → HasNoUnreached protocol.now role awaited.new }
{
    if awaited[number] {
        return Look::Known;
    }
    if mark_passing(
        &protocol.nodes[number],
        number,
        awaited,
        passing,
        ends,
        by_all,
    ) {
        return Look::Marked;
    }
    Look::Open
}

// Marks the node as passing by where it leads to a marked one, or to marked ones alone; whether it did.
#[inline(always)]
fn mark_passing(
    node: &Node,
    number: usize,
    awaited: &mut [bool],
    passing: &mut [bool],
    ends: &mut [u32],
    by_all: bool,
) -> bool
    requires flagged { LeadsWithin (length awaited.old) node.now }
    requires run { LeadsWithin (length ends.old) node.now }
    requires awaited { number < length awaited.old }
    requires passing { number < length passing.old }
    requires ends { number < length ends.old }
    ensures marks { result ≡ true → MarksNode (arms_of_node node.now) number by_all awaited.old passing.old ends.old awaited.new passing.new ends.new }
    ensures awaited { result ≡ false → awaited.new ≡ awaited.old }
    ensures passing { result ≡ false → passing.new ≡ passing.old }
    ensures ends { result ≡ false → ends.new ≡ ends.old }
    ensures none { result ≡ false → by_all ≡ false → leads_on awaited.old node.now ≡ false }
{
    match node {
        Node::Finished => false,
        Node::Talk { arms, .. } => {
            mark_before(arms.as_slice(), number, awaited, passing, ends, by_all)
        }
    }
}

// The same for the node with these arms.
#[inline(always)]
fn mark_before(
    arms: &[Arm],
    number: usize,
    awaited: &mut [bool],
    passing: &mut [bool],
    ends: &mut [u32],
    by_all: bool,
) -> bool
    requires flagged { All (λ a. a.next < length awaited.old) arms.now }
    requires run { All (λ a. a.next < length ends.old) arms.now }
    requires awaited { number < length awaited.old }
    requires passing { number < length passing.old }
    requires ends { number < length ends.old }
    ensures marks { result ≡ true → MarksNode arms.now number by_all awaited.old passing.old ends.old awaited.new passing.new ends.new }
    ensures awaited { result ≡ false → awaited.new ≡ awaited.old }
    ensures passing { result ≡ false → passing.new ≡ passing.old }
    ensures ends { result ≡ false → ends.new ≡ ends.old }
    ensures none { result ≡ false → by_all ≡ false → any_on awaited.old arms.now ≡ false }
{
    match arms {
        [arm] => mark_before_one(arm, number, awaited, passing, ends),
        _ => mark_before_several(arms, number, awaited, passing, ends, by_all),
    }
}

// The same for the node with one arm.
#[inline(always)]
fn mark_before_one(
    arm: &Arm,
    number: usize,
    awaited: &mut [bool],
    passing: &mut [bool],
    ends: &mut [u32],
) -> bool
    requires flagged { arm.now.next < length awaited.old }
    requires run { arm.now.next < length ends.old }
    requires awaited { number < length awaited.old }
    requires passing { number < length passing.old }
    requires ends { number < length ends.old }
    ensures marks { result ≡ true → (by_all : Bool) → MarksNode (arm.now ∷ []) number by_all awaited.old passing.old ends.old awaited.new passing.new ends.new }
    ensures awaited { result ≡ false → awaited.new ≡ awaited.old }
    ensures passing { result ≡ false → passing.new ≡ passing.old }
    ensures ends { result ≡ false → ends.new ≡ ends.old }
    ensures none { result ≡ false → any_on awaited.old (arm.now ∷ []) ≡ false }
{
    let next = arm.next as usize;
    if !awaited[next] {
        return false;
    }
    ends[number] = ends[next];
    awaited[number] = true;
    passing[number] = true;
    true
}

// The same for a node with several arms or none.
#[inline(never)]
fn mark_before_several(
    arms: &[Arm],
    number: usize,
    awaited: &mut [bool],
    passing: &mut [bool],
    ends: &mut [u32],
    by_all: bool,
) -> bool
    requires flagged { All (λ a. a.next < length awaited.old) arms.now }
    requires run { All (λ a. a.next < length ends.old) arms.now }
    requires awaited { number < length awaited.old }
    requires passing { number < length passing.old }
    requires ends { number < length ends.old }
    ensures marks { result ≡ true → MarksNode arms.now number by_all awaited.old passing.old ends.old awaited.new passing.new ends.new }
    ensures awaited { result ≡ false → awaited.new ≡ awaited.old }
    ensures passing { result ≡ false → passing.new ≡ passing.old }
    ensures ends { result ≡ false → ends.new ≡ ends.old }
    ensures none { result ≡ false → by_all ≡ false → any_on awaited.old arms.now ≡ false }
{
    if !several_lead_on(arms, awaited, by_all) {
        return false;
    }
    go_on(arms, ends, number);
    awaited[number] = true;
    passing[number] = true;
    true
}

// Whether an arm leads to a marked node, and where that is asked, all arms do.
fn several_lead_on(arms: &[Arm], awaited: &[bool], by_all: bool) -> bool
    requires { All (λ a. a.next < length awaited.now) arms.now }
    ensures some { result ≡ true → any_on awaited.now arms.now ≡ true }
    ensures all { result ≡ true → by_all ≡ true → all_on awaited.now arms.now ≡ true }
    ensures none { result ≡ false → by_all ≡ false → any_on awaited.now arms.now ≡ false }
{
    if by_all && !are_all_on(arms, awaited) {
        return false;
    }
    has_next_on(arms, awaited)
}

fn are_all_on(arms: &[Arm], awaited: &[bool]) -> bool
    requires { All (λ a. a.next < length awaited.now) arms.now }
    ensures { result ≡ all_on awaited.now arms.now }
{
    for arm in arms {
        if !awaited[arm.next as usize] {
            return false;
        }
    }
    true
}

/// Whether an arm of the node leads to a marked one.
pub fn leads_to_one(node: &Node, awaited: &[bool]) -> bool
    requires { LeadsWithin (length awaited.now) node.now }
    ensures { result ≡ leads_on awaited.now node.now }
{
    match node {
        Node::Finished => false,
        Node::Talk { arms, .. } => has_next_on(arms.as_slice(), awaited),
    }
}

fn has_next_on(arms: &[Arm], awaited: &[bool]) -> bool
    requires { All (λ a. a.next < length awaited.now) arms.now }
    ensures { result ≡ any_on awaited.now arms.now }
{
    for arm in arms {
        if awaited[arm.next as usize] {
            return true;
        }
    }
    false
}

// The run that begins at a node that passes by the role ends where the runs after its arms end, if all of them end at one node.
fn go_on(arms: &[Arm], ends: &mut [u32], number: usize)
    requires run { All (λ a. a.next < length ends.old) arms.now }
    requires number { number < length ends.old }
    ensures { GoesOn arms.now number ends.old ends.new }
{
    if let Some(end) = common_end(arms, ends) {
        ends[number] = end;
    }
}

fn common_end(arms: &[Arm], ends: &[u32]) -> Option<u32>
    requires { All (λ a. a.next < length ends.now) arms.now }
    ensures { IfSome result (λ end. HasEnd ends.now end arms.now) }
{
    if arms.is_empty() {
        return None;
    }
    let end = ends[arms[0].next as usize];
    if !have_end(arms, ends, end) {
        return None;
    }
    Some(end)
}

fn have_end(arms: &[Arm], ends: &[u32], end: u32) -> bool
    requires { All (λ a. a.next < length ends.now) arms.now }
    ensures { result ≡ have_end ends.now end arms.now }
{
    for arm in arms {
        if ends[arm.next as usize] != end {
            return false;
        }
    }
    true
}
