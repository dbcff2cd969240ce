//! The arms of a state, and the fronts to which they lead.
ghost use Rattle.std.specs.Prelude.{◌≡◌, ◌≢◌, ◌<◌, ◌∷◌, [], map, length, IfOk, IfErr};
ghost use Rattle.std.specs.List.{All};
ghost use Rattle.rs_project.specs.Marks.{IsSurvey, arms_of_node};
ghost use Rattle.rs_project.specs.Numbered.{nexts_of};
ghost use Rattle.rs_project.specs.Projection.{choice_of, merged_choices};
ghost use Rattle.rs_project.specs.Working.{AreFoundFronts, ArmsFault, Discovers, IsOneChoice};

use crate::ProjFault;
use crate::merging::{merged_arms, one_choice, starts_behind};
use crate::searching::Search;
use rs_model::{Arm, Arms, Node};
use std::alloc::Global;

/// The arms of the state that stands for this talk alone. Fronts that weren't found before are added.
pub fn lone_arms(alloc: Global, search: &mut Search, talk: u32) -> Result<Arms, ProjFault>
    requires talk { talk < length search.old.survey.protocol.nodes }
    ensures survey { search.new.survey ≡ search.old.survey }
    ensures ok { IfOk result (λ arms. Discovers search.old.survey.protocol search.old.survey.role search.old.fronts (talk ∷ [])
        (merged_choices search.old.survey.protocol (talk ∷ [])) search.new.fronts (nexts_of arms)) }
    ensures choices { IfOk result (λ arms. map choice_of arms ≡ merged_choices search.old.survey.protocol (talk ∷ [])) }
    ensures err { IfErr result (λ e. ArmsFault search.old.survey.protocol search.old.survey.role search.old.fronts (talk ∷ []) (merged_choices search.old.survey.protocol (talk ∷ [])) e) }
{
    let survey = search.survey();
    let protocol = survey.protocol;
    match arms_in(&protocol.nodes[talk as usize]) {
        [choice] => only_arm(alloc, search, talk, *choice),
        _ => several_arms(alloc, search, talk),
    }
}

// The arms of a talk that has this choice alone.
fn only_arm(alloc: Global, search: &mut Search, talk: u32, choice: Arm) -> Result<Arms, ProjFault>
    requires next { choice.next < length search.old.survey.protocol.nodes }
    requires only { IsOneChoice search.old.survey.protocol (talk ∷ []) (choice.next ∷ []) (choice_of choice) }
    requires survey { IsSurvey search.old.survey.protocol search.old.survey.role search.old.survey }
    requires found { AreFoundFronts search.old.survey.protocol search.old.survey.role search.old.fronts }
    ensures survey { search.new.survey ≡ search.old.survey }
    ensures ok { IfOk result (λ arms. Discovers search.old.survey.protocol search.old.survey.role search.old.fronts (talk ∷ [])
        (merged_choices search.old.survey.protocol (talk ∷ [])) search.new.fronts (nexts_of arms)) }
    ensures choices { IfOk result (λ arms. map choice_of arms ≡ merged_choices search.old.survey.protocol (talk ∷ [])) }
    ensures err { IfErr result (λ e. ArmsFault search.old.survey.protocol search.old.survey.role search.old.fronts (talk ∷ []) (merged_choices search.old.survey.protocol (talk ∷ [])) e) }
{
    let next = search.find_from(alloc, choice.next)?;
    Ok(Arms::of_one(
        alloc,
        Arm {
            label: choice.label,
            sort: choice.sort,
            next,
        },
    ))
}

// The arms of a talk that has any choices.
fn several_arms(alloc: Global, search: &mut Search, talk: u32) -> Result<Arms, ProjFault>
    requires talk { talk < length search.old.survey.protocol.nodes }
    ensures survey { search.new.survey ≡ search.old.survey }
    ensures ok { IfOk result (λ arms. Discovers search.old.survey.protocol search.old.survey.role search.old.fronts (talk ∷ [])
        (merged_choices search.old.survey.protocol (talk ∷ [])) search.new.fronts (nexts_of arms)) }
    ensures choices { IfOk result (λ arms. map choice_of arms ≡ merged_choices search.old.survey.protocol (talk ∷ [])) }
    ensures err { IfErr result (λ e. ArmsFault search.old.survey.protocol search.old.survey.role search.old.fronts (talk ∷ []) (merged_choices search.old.survey.protocol (talk ∷ [])) e) }
{
    let survey = search.survey();
    let protocol = survey.protocol;
    let choices = arms_in(&protocol.nodes[talk as usize]);
    let mut arms = Arms::with_capacity(alloc, choices.len())?;
    for choice in choices {
        let next = search.find_from(alloc, choice.next)?;
        arms.push(Arm {
            label: choice.label,
            sort: choice.sort,
            next,
        })?;
    }
    Ok(arms)
}

fn arms_in(node: &Node) -> &[Arm]
    ensures { result.now ≡ arms_of_node node.now }
{
    match node {
        Node::Finished => &[],
        Node::Talk { arms, .. } => arms.as_slice(),
    }
}

/// The arms of the state that stands for these talks together. Fronts that weren't found before are added.
pub fn joint_arms(alloc: Global, search: &mut Search, talks: &[u32]) -> Result<Arms, ProjFault>
    requires talks { All (λ t. t < length search.old.survey.protocol.nodes) talks.now }
    ensures survey { search.new.survey ≡ search.old.survey }
    ensures ok { IfOk result (λ arms. Discovers search.old.survey.protocol search.old.survey.role search.old.fronts talks.now
        (merged_choices search.old.survey.protocol talks.now) search.new.fronts (nexts_of arms)) }
    ensures choices { IfOk result (λ arms. map choice_of arms ≡ merged_choices search.old.survey.protocol talks.now) }
    ensures err { IfErr result (λ e. ArmsFault search.old.survey.protocol search.old.survey.role search.old.fronts talks.now (merged_choices search.old.survey.protocol talks.now) e) }
{
    let survey = search.survey();
    match one_choice(alloc, survey.protocol, talks)? {
        Some(one) => joint_arm(alloc, search, talks, one.starts.as_slice(), one.arm),
        None => several_joint_arms(alloc, search, talks),
    }
}

// The arms of talks that have the choice of this arm alone, and lead to the starts.
fn joint_arm(
    alloc: Global,
    search: &mut Search,
    talks: &[u32],
    starts: &[u32],
    choice: Arm,
) -> Result<Arms, ProjFault>
    requires some { starts.now ≢ [] }
    requires starts { All (λ s. s < length search.old.survey.protocol.nodes) starts.now }
    requires one { IsOneChoice search.old.survey.protocol talks.now starts.now (choice_of choice) }
    requires survey { IsSurvey search.old.survey.protocol search.old.survey.role search.old.survey }
    requires found { AreFoundFronts search.old.survey.protocol search.old.survey.role search.old.fronts }
    ensures survey { search.new.survey ≡ search.old.survey }
    ensures ok { IfOk result (λ arms. Discovers search.old.survey.protocol search.old.survey.role search.old.fronts talks.now
        (merged_choices search.old.survey.protocol talks.now) search.new.fronts (nexts_of arms)) }
    ensures choices { IfOk result (λ arms. map choice_of arms ≡ merged_choices search.old.survey.protocol talks.now) }
    ensures err { IfErr result (λ e. ArmsFault search.old.survey.protocol search.old.survey.role search.old.fronts talks.now (merged_choices search.old.survey.protocol talks.now) e) }
{
    let next = search.find(alloc, starts)?;
    Ok(Arms::of_one(
        alloc,
        Arm {
            label: choice.label,
            sort: choice.sort,
            next,
        },
    ))
}

// The arms of talks that have any choices.
fn several_joint_arms(alloc: Global, search: &mut Search, talks: &[u32]) -> Result<Arms, ProjFault>
    requires talks { All (λ t. t < length search.old.survey.protocol.nodes) talks.now }
    ensures survey { search.new.survey ≡ search.old.survey }
    ensures ok { IfOk result (λ arms. Discovers search.old.survey.protocol search.old.survey.role search.old.fronts talks.now
        (merged_choices search.old.survey.protocol talks.now) search.new.fronts (nexts_of arms)) }
    ensures choices { IfOk result (λ arms. map choice_of arms ≡ merged_choices search.old.survey.protocol talks.now) }
    ensures err { IfErr result (λ e. ArmsFault search.old.survey.protocol search.old.survey.role search.old.fronts talks.now (merged_choices search.old.survey.protocol talks.now) e) }
{
    let survey = search.survey();
    let choices = merged_arms(alloc, survey.protocol, talks)?;
    let mut arms = Arms::with_capacity(alloc, choices.len())?;
    for choice in choices.as_slice() {
        let starts = starts_behind(alloc, survey.protocol, talks, choice.label)?;
        let next = search.find(alloc, starts.as_slice())?;
        arms.push(Arm {
            label: choice.label,
            sort: choice.sort,
            next,
        })?;
    }
    Ok(arms)
}
