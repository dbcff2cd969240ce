//! Runs: nodes with one arm, along which a role meets the same.
ghost use Rattle.std.specs.Prelude.{◌≡◌, ◌<◌, length, IfSome};
ghost use Rattle.std.specs.List.{All};
ghost use Rattle.rs_project.specs.Filing.{lone_front};
ghost use Rattle.rs_project.specs.Working.{IsFrontFrom};
ghost use Rattle.rs_project.specs.Marks.{MeetsOnly, StandsFor};

use crate::fronts::{Front, in_order};
use crate::surveying::Survey;
use smallvec::SmallVec;
use std::alloc::Global;

// From more nodes than these marks lead to the talks at less cost.
const FEW: usize = 4;

/// Where the run that begins at the node ends: a node from which the role meets the same.
pub fn run_end(survey: &Survey, start: u32) -> u32
    requires start { start < length survey.now.protocol.nodes }
    ensures within { result < length survey.now.protocol.nodes }
    ensures stands { StandsFor survey.now.protocol survey.now.role start result }
{
    let mut node = start;
    for _ in 0..survey.run_ends.len() {
        let end = survey.run_ends[node as usize];
        if end == node {
            return node;
        }
        node = end;
    }
    node
}

// The one talk that the role meets from a node, where a run leads to it.
fn only_talk(survey: &Survey, start: u32) -> Option<u32>
    requires start { start < length survey.now.protocol.nodes }
    ensures { IfSome result (λ talk. MeetsOnly survey.now.protocol survey.now.role start talk) }
{
    let end = run_end(survey, start);
    if survey.involved[end as usize] {
        return Some(end);
    }
    None
}

/// What the role may meet first from few nodes, where runs lead to one talk from each.
#[inline(always)]
pub fn straight_front(alloc: Global, survey: &Survey, starts: &[u32]) -> Option<Front>
    requires starts { All (λ s. s < length survey.now.protocol.nodes) starts.now }
    ensures { IfSome result (λ f. IsFrontFrom survey.now.protocol survey.now.role starts.now f) }
{
    if starts.len() > FEW {
        return None;
    }
    let mut talks = SmallVec::new(alloc);
    for start in starts {
        let Some(talk) = only_talk(survey, *start) else {
            return None;
        };
        talks.push_reserved(talk);
    }
    Some(Front {
        talks: in_order(talks),
        ends: false,
    })
}

/// What a role may meet first where it is this talk alone.
pub fn lone_front(alloc: Global, talk: u32) -> Front
    ensures { result ≡ lone_front talk }
{
    let mut talks = SmallVec::new(alloc);
    talks.push_reserved(talk);
    Front { talks, ends: false }
}
