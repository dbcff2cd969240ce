//! The test whether some body spells a graph.

ghost use Rattle.std.specs.Prelude.{◌≡◌, ◌≤◌, ◌<◌, ◌+◌, length, Some, None, nat_lt, replicate, if◌then◌else◌, ◌↔◌, IsTrue};
ghost use Rattle.rs_model.specs.declared.limits.TheConstants.{MOST_LABELS, MOST_NESTING, MOST_ROLES, MOST_TALKS};
ghost use Rattle.rs_bodies.specs.Bodied.{HasBody};
ghost use Rattle.rs_bodies.specs.Shapes as spec;
ghost use Rattle.rs_bodies.specs.Shapes.{IsTrailOf, AreReaches, outline, reach_of};
ghost use Rattle.rs_bodies.specs.declared.places.Place.TheVariants as place;

use crate::dialects::{Dialect, Head};
use crate::places::{NumberedGraph, Place, PointRef};
use crate::reading::most_heads;
use rs_model::{Arm, MOST_LABELS, MOST_NESTING, MOST_TALKS};

const MOST_PLACES: usize = MOST_TALKS + 1;

/// What a walk over the heads has met so far.
#[derive(Clone, Copy)]
pub struct HeadsMet {
    pub count: u32,
    pub labels: u32,
    pub ended: bool,
}

/// What a walk goes by: the dialect, how many roles there are, the number of the end, and for each place one more than
/// the number of the last place that leads to it.
#[derive(Drop)]
pub struct Trail {
    pub dialect: Dialect,
    pub roles: u32,
    pub last: u32,
    pub reaches: [u32; MOST_PLACES],
}

/// Whether some body of the dialect spells the graph, with so many roles and so many labels before it: heads are numbered
/// in order of text, each arm leads to a head round it, to the next new head or to the end, which is the last place and
/// is there where something leads to it, new labels are numbered in order of their first places, and roles, heads,
/// labels and the nesting of the canonical text are within their limits.
pub fn has_body<G: NumberedGraph>(graph: &G, dialect: Dialect, roles: u32, labels: u32) -> bool
    requires roles { roles ≤ MOST_ROLES }
    requires labels { labels ≤ MOST_LABELS }
    ensures { IsTrue result ↔ HasBody dialect roles labels (G.places graph.now) (G.root graph.now) }
{
    is_walked(graph, dialect, roles, labels)
}

/// Whether a walk over the places in order of text meets them all.
fn is_walked<G: NumberedGraph>(graph: &G, dialect: Dialect, roles: u32, labels: u32) -> bool
    ensures { result ≡ spec.is_walked dialect (record { roles = roles; places = G.places graph.now }) (G.root graph.now) labels }
{
    if graph.size() > MOST_PLACES {
        return false;
    }
    let last = number_of_end(graph);
    if last > most_heads(dialect) {
        return false;
    }
    let trail = Trail {
        dialect,
        roles,
        last: last as u32,
        reaches: reaches(graph),
    };
    walks(graph, &trail, labels)
}

fn walks<G: NumberedGraph>(graph: &G, trail: &Trail, labels: u32) -> bool
    requires { IsTrailOf (G.places graph.now) trail.now }
    ensures { result ≡ spec.is_whole (G.places graph.now) (spec.walk_from trail.now.dialect (outline (G.places graph.now) trail.now) (G.root graph.now) labels) }
{
    let begin = HeadsMet {
        count: 0,
        labels,
        ended: false,
    };
    let walk = walk_behind_next(graph, trail, trail.last + 1, 0, 0, graph.start(), begin);
    is_whole(graph, walk)
}

/// Whether all heads were met, and an end where there is one.
fn is_whole<G: NumberedGraph>(graph: &G, walk: Option<HeadsMet>) -> bool
    requires bounded { length (G.places graph.now) ≤ MOST_TALKS + 1 }
    ensures { result ≡ spec.is_whole (G.places graph.now) walk }
{
    match walk {
        Some(walk) => walk.count as usize == number_of_end(graph)
            && same_bool(walk.ended, ends_last(graph)),
        None => false,
    }
}

fn same_bool(a: bool, b: bool) -> bool
    ensures { result ≡ spec.same_bool a b }
{
    if a { b } else { !b }
}

fn is_end(place: Option<Place>) -> bool
    ensures { result ≡ spec.is_end_at place.entry }
{
    match place {
        Some(Place::End) => true,
        _ => false,
    }
}

fn ends_last<G: NumberedGraph>(graph: &G) -> bool
    requires bounded { length (G.places graph.now) ≤ MOST_TALKS + 1 }
    ensures { result ≡ spec.ends_last (G.places graph.now) }
{
    is_end(graph.place(graph.size().saturating_sub(1) as u32))
}

/// The number of the end, which is the count of heads.
fn number_of_end<G: NumberedGraph>(graph: &G) -> usize
    requires bounded { length (G.places graph.now) ≤ MOST_TALKS + 1 }
    ensures number { result ≡ spec.number_of_end (G.places graph.now) }
    ensures within { result ≤ MOST_TALKS + 1 }
{
    if ends_last(graph) {
        graph.size().saturating_sub(1)
    } else {
        graph.size()
    }
}

/// For each place one more than the number of the last place that leads to it.
fn reaches<G: NumberedGraph>(graph: &G) -> [u32; MOST_PLACES]
    requires bounded { length (G.places graph.now) ≤ MOST_TALKS + 1 }
    ensures { result ≡ spec.reaches_behind_places 0 (G.places graph.now) (replicate (MOST_TALKS + 1) 0) }
{
    let mut reaches = [0; MOST_PLACES];
    for number in 0..graph.size() as u32 {
        mark_place(&mut reaches, number, graph.place(number));
    }
    reaches
}

fn mark_place(reaches: &mut [u32; MOST_PLACES], number: u32, place: Option<Place>)
    requires bounded { number < MOST_TALKS + 1 }
    ensures { reaches.new ≡ spec.there_reached number place.entry reaches.old }
{
    if let Some(Place::Point(point)) = place {
        mark(reaches, number, point.arms);
    }
}

/// Marks where the arms of a place lead.
fn mark(reaches: &mut [u32; MOST_PLACES], number: u32, arms: &[Arm])
    requires bounded { number < MOST_TALKS + 1 }
    ensures { reaches.new ≡ spec.reaches_behind_arms number arms.now reaches.old }
{
    for arm in arms {
        if (arm.next as usize) < MOST_PLACES {
            reaches[arm.next as usize] = number + 1;
        }
    }
}

/// Whether an arm of place `from` or of a later one leads to a place.
fn leads_from(trail: &Trail, from: u32, to: u32) -> bool
    requires { to < MOST_TALKS + 1 }
    ensures { result ≡ nat_lt from (reach_of trail.now.reaches to) }
{
    from < trail.reaches[to as usize]
}

fn walk_behind_label(label: u16, walk: HeadsMet) -> Option<HeadsMet>
    ensures { result ≡ spec.walk_behind_label label walk }
{
    let label = u32::from(label);
    if label < walk.labels {
        Some(walk)
    } else if label == walk.labels && (label as usize) < MOST_LABELS {
        Some(HeadsMet {
            labels: walk.labels + 1,
            ..walk
        })
    } else {
        None
    }
}

fn nesting_within(trail: &Trail, depth: u32, n: u32, arms: &[Arm]) -> u32
    requires shallow { depth ≤ MOST_NESTING }
    requires present { n < MOST_TALKS + 1 }
    ensures { result ≡ spec.deeper (spec.are_more arms.now) (spec.deeper (nat_lt n (reach_of trail.now.reaches n)) depth) }
{
    let mut depth = depth;
    if leads_from(trail, n, n) {
        depth += 1;
    }
    if arms.len() > 1 {
        depth += 1;
    }
    depth
}

fn is_known(dialect: Dialect, roles: u32, head: Head) -> bool
    ensures { result ≡ spec.is_known dialect roles head }
{
    match (dialect, head) {
        (Dialect::Talks, Head::Talk { sender, receiver }) => u32::from(sender.0) < roles
            && u32::from(receiver.0) < roles,
        (Dialect::Acts, Head::Act { peer, .. }) => u32::from(peer.0) < roles,
        _ => false,
    }
}

fn is_fit(trail: &Trail, nesting: u32, point: &PointRef) -> bool
    ensures { result ≡ spec.is_fit trail.now.dialect trail.now.roles nesting point.now }
{
    is_known(trail.dialect, trail.roles, point.head)
        && nesting as usize <= MOST_NESTING
        && !point.arms.is_empty()
}

#[cycle(walking)]
fn walk_behind_next<G: NumberedGraph>(
    graph: &G,
    trail: &Trail,
    fuel: u32,
    depth: u32,
    from: u32,
    next: u32,
    walk: HeadsMet,
) -> Option<HeadsMet>
    requires shallow { depth ≤ MOST_NESTING }
    requires trail { IsTrailOf (G.places graph.now) trail.now }
    requires fuelled { fuel ≤ MOST_TALKS + 2 }
    ensures { result ≡ spec.walk_behind_next (spec.walk_behind_head fuel trail.now.dialect (outline (G.places graph.now) trail.now) depth) (spec.number_of_end (G.places graph.now)) from next walk }
{
    if next < from {
        Some(walk)
    } else if next == walk.count && next < trail.last {
        walk_behind_head(graph, trail, fuel, depth, next, walk)
    } else if next == trail.last {
        Some(HeadsMet {
            ended: true,
            ..walk
        })
    } else {
        None
    }
}

#[cycle(walking)]
fn walk_behind_arms<G: NumberedGraph>(
    graph: &G,
    trail: &Trail,
    fuel: u32,
    depth: u32,
    from: u32,
    arms: &[Arm],
    walk: HeadsMet,
) -> Option<HeadsMet>
    requires shallow { depth ≤ MOST_NESTING }
    requires trail { IsTrailOf (G.places graph.now) trail.now }
    requires fuelled { fuel ≤ MOST_TALKS + 2 }
    ensures { result ≡ spec.walk_behind_arms (spec.walk_behind_head fuel trail.now.dialect (outline (G.places graph.now) trail.now) depth) (spec.number_of_end (G.places graph.now))
        from arms.now walk }
{
    let mut walk = walk;
    for arm in arms {
        walk = walk_behind_label(arm.label.0, walk)?;
        walk = walk_behind_next(graph, trail, fuel, depth, from, arm.next, walk)?;
    }
    Some(walk)
}

/// No later arm leads back to head `n`.
fn walk_where_closed(trail: &Trail, n: u32, walk: HeadsMet) -> Option<HeadsMet>
    requires { n < MOST_TALKS + 1 }
    ensures { result ≡ (if nat_lt walk.count (reach_of trail.now.reaches n) then None else Some walk) }
{
    if leads_from(trail, walk.count, n) {
        None
    } else {
        Some(walk)
    }
}

#[cycle(walking)]
fn walk_behind_point<G: NumberedGraph>(
    graph: &G,
    trail: &Trail,
    fuel: u32,
    depth: u32,
    n: u32,
    walk: HeadsMet,
    point: &PointRef,
) -> Option<HeadsMet>
    requires shallow { depth ≤ MOST_NESTING }
    requires trail { IsTrailOf (G.places graph.now) trail.now }
    requires fuelled { fuel ≤ MOST_TALKS + 2 }
    requires counted { walk.count ≤ MOST_TALKS + 1 }
    requires present { n < MOST_TALKS + 1 }
    ensures { result ≡ spec.walk_behind_place (λ inner next v. spec.walk_behind_head fuel trail.now.dialect (outline (G.places graph.now) trail.now) inner next v) trail.now.dialect
        (outline (G.places graph.now) trail.now) depth n walk (Some (place.Point point.now)) }
{
    let inner = nesting_within(trail, depth, n, point.arms);
    if !is_fit(trail, inner, point) {
        return None;
    }
    let begin = HeadsMet {
        count: walk.count + 1,
        ..walk
    };
    let walk = walk_behind_arms(graph, trail, fuel, inner, n + 1, point.arms, begin)?;
    walk_where_closed(trail, n, walk)
}

/// Head `n` and what stands behind its arms.
#[cycle(walking)]
fn walk_behind_head<G: NumberedGraph>(
    graph: &G,
    trail: &Trail,
    fuel: u32,
    depth: u32,
    n: u32,
    walk: HeadsMet,
) -> Option<HeadsMet>
    requires shallow { depth ≤ MOST_NESTING }
    requires trail { IsTrailOf (G.places graph.now) trail.now }
    requires fuelled { fuel ≤ MOST_TALKS + 2 }
    requires counted { walk.count ≤ MOST_TALKS + 1 }
    requires present { n < MOST_TALKS + 1 }
    ensures { result ≡ spec.walk_behind_head fuel trail.now.dialect (outline (G.places graph.now) trail.now) depth n walk }
{
    if fuel == 0 {
        return None;
    }
    match graph.place(n) {
        Some(Place::Point(point)) => {
            walk_behind_point(graph, trail, fuel - 1, depth, n, walk, &point)
        }
        _ => None,
    }
}
