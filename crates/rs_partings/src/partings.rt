//! Where the ways part to two members of a front.
ghost use Rattle.std.specs.Prelude.{◌≡◌, ◌<◌, ◌≤◌, ◌^◌, ℕ, Some, None, length, IfOk, MatchOption, slice_get, if◌then◌else◌};
ghost use Rattle.std.specs.List.{All};
ghost use Rattle.rs_model.specs.Data.{Protocol_data};
ghost use Rattle.rs_model.specs.declared.graph.Arm.{Arm};
ghost use Rattle.rs_model.specs.declared.graph.Role.{Role};
ghost use Rattle.rs_partings.specs.Flags.{AreFlags, IsMemberNode};
ghost use Rattle.rs_partings.specs.Meeting.{AreMeeting};
ghost use Rattle.rs_partings.specs.Partings.{IsParting, MeetsMember, PartNowhere};
ghost use Rattle.rs_partings.specs.Searching.{arm_toward, parting_by, parting_of_arms, parting_of_nodes};
ghost use Rattle.rs_project.specs.Graph.{Involves, IsReached, PassesBy};
ghost use Rattle.rs_project.specs.Marks.{IsAwaited, IsOn, LeadsWithin, arms_of_node};
ghost use Rattle.rs_wellformed.specs.WellFormed.{IsWellFormed};

use crate::searching::{Parting, first_parting};
use crate::spreading::reaching_through;
use crate::surveying::{Survey, all_but, only, reached_nodes, survey_of};
use rs_model::{NoMemory, Protocol, Role};
use std::alloc::Global;

/// The first choice that decides between two members of a front of the role: the talk `a`, and the talk `b` or, where that
/// is None, the end. There is none where both members stand behind the same choices of others.
///
/// The work is linear in the nodes and their arms. The error is want of memory.
pub fn parting(
    alloc: Global,
    protocol: &Protocol,
    role: Role,
    a: u32,
    b: Option<u32>,
) -> Result<Option<Parting>, NoMemory>
    requires well_formed { IsWellFormed protocol.now }
    requires bounded { length protocol.now.nodes < 2 ^ 32 }
    ensures { IfOk result (λ o. MatchOption o (PartNowhere protocol.now role a b) (λ p. IsParting protocol.now role a b p)) }
{
    let survey = survey_of(alloc, protocol, role)?;
    let here = others_talks(alloc, protocol, &survey.involved)?;
    let ones = meeting(alloc, protocol, role, &survey, Some(a))?;
    let others = meeting(alloc, protocol, role, &survey, b)?;
    Ok(first_parting(protocol, &here, &ones, &others))
}

/// Of each node of the protocol, whether the role may meet the member of a front first from there: the talk, or the end where
/// the member is None. The work is linear in the nodes and their arms. The error is want of memory.
pub fn meets_member(
    alloc: Global,
    protocol: &Protocol,
    role: Role,
    member: Option<u32>,
) -> Result<Vec<bool>, NoMemory>
    requires well_formed { IsWellFormed protocol.now }
    requires bounded { length protocol.now.nodes < 2 ^ 32 }
    ensures { IfOk result (λ v. AreMeeting protocol.now role member v.items) }
{
    let survey = survey_of(alloc, protocol, role)?;
    meeting(alloc, protocol, role, &survey, member)
}

// The nodes that are reached and don't involve the role.
fn others_talks(
    alloc: Global,
    protocol: &Protocol,
    involved: &[bool],
) -> Result<Vec<bool>, NoMemory>
    requires well_formed { IsWellFormed protocol.now }
    requires bounded { length protocol.now.nodes < 2 ^ 32 }
    requires size { length involved.now ≡ length protocol.now.nodes }
    ensures { IfOk result (λ v. (role : Role) → AreFlags (length protocol.now.nodes) (λ n. Involves protocol.now role n) involved.now
        → AreFlags (length protocol.now.nodes) (λ n. IsReached protocol.now n × (Involves protocol.now role n → ⊥)) v.items) }
{
    let reached = reached_nodes(alloc, protocol)?;
    all_but(alloc, &reached, involved)
}

// The nodes from which the role may meet the member first.
fn meeting(
    alloc: Global,
    protocol: &Protocol,
    role: Role,
    survey: &Survey,
    member: Option<u32>,
) -> Result<Vec<bool>, NoMemory>
    requires well_formed { IsWellFormed protocol.now }
    requires bounded { length protocol.now.nodes < 2 ^ 32 }
    requires involved { AreFlags (length protocol.now.nodes) (λ n. Involves protocol.now role n) survey.now.involved.items }
    requires awaited { AreFlags (length protocol.now.nodes) (λ n. IsAwaited protocol.now role n) survey.now.awaited.items }
    requires passing { AreFlags (length protocol.now.nodes) (λ n. PassesBy protocol.now role n) survey.now.passing.items }
    ensures { IfOk result (λ v. AreFlags (length protocol.now.nodes) (λ n. MeetsMember protocol.now role n member) v.items) }
{
    let targets = member_nodes(alloc, survey, member)?;
    reaching_through(alloc, protocol, &survey.passing, &targets)
}

// The talk itself, where it involves the role, or the nodes that are idle for the role.
fn member_nodes(alloc: Global, survey: &Survey, member: Option<u32>) -> Result<Vec<bool>, NoMemory>
    requires size { length survey.now.awaited.items ≡ length survey.now.involved.items }
    ensures { IfOk result (λ v. (protocol : Protocol_data) (role : Role) (count : ℕ) → AreFlags count (λ n. Involves protocol role n) survey.now.involved.items
        → AreFlags count (λ n. IsAwaited protocol role n) survey.now.awaited.items → AreFlags count (λ n. IsMemberNode protocol role member n) v.items) }
{
    match member {
        Some(talk) => talk_alone(alloc, &survey.involved, talk),
        None => {
            let every = vec![in alloc; true; survey.awaited.len()]?;
            all_but(alloc, &every, &survey.awaited)
        }
    }
}

// The flag of the talk alone, where it stands.
fn talk_alone(alloc: Global, flags: &[bool], talk: u32) -> Result<Vec<bool>, NoMemory>
    ensures { IfOk result (λ v. AreFlags (length flags.now) (λ n. (n ≡ talk) × IsOn flags.now n) v.items) }
{
    let alone = only(alloc, flags.len(), talk)?;
    let others = all_but(alloc, &alone, flags)?;
    all_but(alloc, &alone, &others)
}
