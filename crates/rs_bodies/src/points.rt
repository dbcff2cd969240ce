//! What a part spells: its heads with their arms.

ghost use Rattle.std.specs.Prelude.{◌≡◌, ◌≤◌, length, map, take, IfOk};
ghost use Rattle.rs_bodies.specs.Drafts.{point_of_draft, settled_arm, settled_target};

use crate::dialects::Head;
use crate::drafts::{Draft, DraftArm};
use rs_model::{Arm, Arms, NoMemory, Role};
use std::alloc::Global;
use std::marker::Model;

/// A head with its arms.
#[derive(Drop)]
pub struct Point {
    pub head: Head,
    pub arms: Arms,
}

impl Model for Point {
    ghost use Rattle.rs_bodies.specs.Data.{Point_data};

    ghost Value = { Point_data };

    ghost view = { λ p. record { head = p.head; arms = p.arms } };
}

/// What a part spells: the role of a machine, the heads in order of text, whether an end stands behind them, and the
/// number with which the body begins. The end has the number behind the last head.
#[derive(Drop)]
pub struct Spelling {
    pub role: Role,
    pub points: Vec<Point>,
    pub ended: bool,
    pub start: u32,
}

impl Model for Spelling {
    ghost use Rattle.rs_bodies.specs.Data.{Spelling_data};

    ghost Value = { Spelling_data };

    ghost view = { λ s. record { role = s.role; points = s.points.items; ended = s.ended; start = s.start } };
}

/// The number of a target, where the end has the number `last`.
#[inline(always)]
pub(crate) fn settled_number(last: u32, target: Option<u32>) -> u32
    ensures { result ≡ settled_target last target }
{
    match target {
        Some(act) => act,
        None => last,
    }
}

/// The heads that were read, where the end has the number `last`.
pub(crate) fn points(alloc: Global, drafts: &[Draft], last: u32) -> Result<Vec<Point>, NoMemory>
    ensures count { IfOk result (λ points. length points.items ≡ length drafts.now) }
    ensures points { IfOk result (λ points. points.items ≡ map (point_of_draft last) drafts.now) }
{
    let mut points = Vec::with_capacity(alloc, drafts.len())?;
    for draft in drafts {
        let arms = arms(alloc, draft.arms.as_slice(), last)?;
        points.reserve(1)?;
        points.push_reserved(Point {
            head: draft.head,
            arms,
        });
    }
    Ok(points)
}

// An arm, where the end has the number `last`.
#[inline(always)]
fn settled_arm(last: u32, arm: DraftArm) -> Arm
    ensures { result ≡ settled_arm last arm }
{
    Arm {
        label: arm.label,
        sort: arm.sort,
        next: settled_number(last, arm.next),
    }
}

#[inline(always)]
fn arms(alloc: Global, drafts: &[DraftArm], last: u32) -> Result<Arms, NoMemory>
    ensures { IfOk result (λ arms. arms ≡ map (settled_arm last) drafts.now) }
{
    match drafts {
        [arm] => Ok(Arms::of_one(alloc, settled_arm(last, *arm))),
        _ => several_arms(alloc, drafts, last),
    }
}

#[inline(never)]
fn several_arms(alloc: Global, drafts: &[DraftArm], last: u32) -> Result<Arms, NoMemory>
    ensures { IfOk result (λ arms. arms ≡ map (settled_arm last) drafts.now) }
{
    let mut arms = Arms::with_capacity(alloc, drafts.len())?;
    for arm in drafts {
        arms.push(settled_arm(last, *arm))?;
    }
    Ok(arms)
}
