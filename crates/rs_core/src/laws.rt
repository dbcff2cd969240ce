//! Laws about the definitions: each function does nothing, and its contract is the law.

ghost use Rattle.std.specs.Prelude.{◌≡◌, ◌≢◌, ◌↔◌, ◌<◌, ◌≤◌, ◌∷◌, ℕ, List, Option, Some, None, slice_get, length};
ghost use Rattle.rs_model.specs.Sorts.{HasSort};
ghost use Rattle.rs_model.specs.declared.graph.Arm.{Arm};
ghost use Rattle.rs_model.specs.declared.values.Value.{Value};
ghost use Rattle.rs_model.specs.Data.{Machine_data};
ghost use Rattle.rs_model.specs.declared.graph.Role.{Role};
ghost use Rattle.rs_model.specs.declared.machines.State.TheVariants.{Done, Puts, Takes};
ghost use Rattle.rs_core.specs.Choices.{AreWellFormed, HaveArms, HaveLabelsOnce};
ghost use Rattle.rs_core.specs.Configurations.{Message, Configuration, Event, Send, Receive, StartsAt, Step, IsReachable, IsSame, state_at};
ghost use Rattle.rs_core.specs.Core.{step_fault};
ghost use Rattle.rs_core.specs.Determined.{IsSafePlain, IsSafeRun, StandsAtLimit, EndsWith, WasStopped, PlainIs, SameOutcome};
ghost use Rattle.rs_core.specs.Examples.{another_arm, another_label, another_sort, both_wait, left_behind, one_talk};
ghost use Rattle.rs_core.specs.Histories.{History};
ghost use Rattle.rs_core.specs.Plain.{Moment, Ending, Ended, Stopped, Stuck, IsPlain, IsAtLimit, IsStoppedEventually, Settles, StartsWith, FirstFull};
ghost use Rattle.rs_core.specs.Safety.{CanStep, AllEnded, IsSafe};
ghost use Rattle.rs_core.specs.StepFaults.{StepBlames};
ghost use Rattle.rs_core.specs.declared.messages.StepFault.{StepFault};

use crate::Actor;

/// Every list of machines has a start.
pub fn machines_have_a_start()
    ensures { (machines : List Machine_data) → (c : Configuration) × StartsAt machines c }
{}

/// What has the same states and the same messages under way as a configuration that is reached, is reached.
pub fn same_configurations_are_reached()
    ensures { (machines : List Machine_data) (c d : Configuration) → IsReachable machines c → IsSame c d → IsReachable machines d }
{}

/// Each arm at each place of a state that sends can be picked, with each value of its sort.
pub fn each_arm_can_be_sent()
    ensures { (machines : List Machine_data) (c : Configuration) (role peer : Role) (arms : List Arm) (place : ℕ) (arm : Arm) (value : Value) → state_at machines c role.0 ≡ Some (Puts peer arms)
        → slice_get arms place ≡ Some arm → HasSort value arm.sort → (d : Configuration) × Step machines c (Send role place value) d }
{}

/// Each oldest message can be taken, where an arm has its label and a sort that its value has.
pub fn each_message_can_be_taken()
    ensures { (machines : List Machine_data) (c : Configuration) (role peer : Role) (arms : List Arm) (place : ℕ) (arm : Arm) (message : Message) (later : List Message)
        → state_at machines c role.0 ≡ Some (Takes peer arms) → c.queue peer.0 role.0 ≡ message ∷ later → slice_get arms place ≡ Some arm → arm.label ≡ message.label → HasSort message.value arm.sort
        → (d : Configuration) × Step machines c (Receive role) d }
{}

/// An event leads to one configuration, where no state takes one label at two places.
pub fn an_event_leads_to_one_configuration()
    ensures { (machines : List Machine_data) → HaveLabelsOnce machines → (c : Configuration) (event : Event) (d e : Configuration) → Step machines c event d → Step machines c event e → IsSame d e }
{}

/// `CanStep` promises no more than there is: where safe machines can step, some event can come next.
pub fn safe_machines_can_step()
    ensures { (machines : List Machine_data) → IsSafe machines → HaveArms machines → (c : Configuration) → IsReachable machines c → CanStep machines c
        → (e : Event) × (d : Configuration) × Step machines c e d }
{}

/// An event has no fault exactly where it is a step, wherever safe machines have come to. Where it has one, the fault says
/// what is wrong.
pub fn faults_of_steps()
    ensures none { (machines : List Machine_data) (c : Configuration) (event : Event) → IsSafe machines → IsReachable machines c
        → (step_fault machines c event ≡ None) ↔ ((d : Configuration) × Step machines c event d) }
    ensures some { (machines : List Machine_data) (c : Configuration) (event : Event) (fault : StepFault) → step_fault machines c event ≡ Some fault → StepBlames machines c event fault }
{}

/// A label that the other doesn't take is a mismatch.
pub fn another_label_is_not_safe()
    ensures { IsSafe another_label → ⊥ }
{}

/// A value of a sort that the other doesn't take is a mismatch.
pub fn another_sort_is_not_safe()
    ensures { IsSafe another_sort → ⊥ }
{}

/// Each arm that a sender may pick counts, and not the first alone.
pub fn another_arm_is_not_safe()
    ensures { IsSafe another_arm → ⊥ }
{}

/// Where each waits for the other none can go on, and they haven't ended.
pub fn two_that_wait_are_not_safe()
    ensures { IsSafe both_wait → ⊥ }
{}

/// Where all are Done and a message is still under way, they haven't ended.
pub fn a_message_left_behind_is_not_safe()
    ensures { IsSafe left_behind → ⊥ }
{}

/// Two roles with one talk come to their end.
pub fn one_talk_comes_to_its_end()
    ensures { (c : Configuration) × IsReachable one_talk c × AllEnded one_talk c }
{}

/// Two runs of the same actors come to the same, in whatever order the roles act and whatever the queues hold. The
/// machines are safe and well formed.
///
/// Where a run within the limit leads to the end of all, the plain run over unbounded queues ends with its histories
/// and its actors. Where in a run a role is at its limit and hasn't ended, the plain run is stopped, and that role is
/// stopped eventually. And so it is for what the plain run with queues of any capacity leads to.
pub fn determined<A: Actor>()
    ensures ended { (machines : List Machine_data) (actors : ℕ → A) (limit : ℕ) (history : ℕ → History) (c : Configuration) (after : ℕ → A)
        → IsSafeRun machines A.behaviour actors limit history c after → AllEnded machines c → PlainIs machines A.behaviour actors limit None (EndsWith machines history after) }
    ensures stopped { (machines : List Machine_data) (actors : ℕ → A) (limit : ℕ) (history : ℕ → History) (c : Configuration) (after : ℕ → A)
        → IsSafeRun machines A.behaviour actors limit history c after → (role : ℕ) → StandsAtLimit machines limit history c role
        → PlainIs machines A.behaviour actors limit None WasStopped × IsStoppedEventually machines A.behaviour actors limit role }
    ensures with_capacity { (machines : List Machine_data) (actors : ℕ → A) (limit : ℕ) (capacity : Option ℕ) (end : Moment A) → IsSafePlain machines A.behaviour actors limit capacity (Ended end)
        → PlainIs machines A.behaviour actors limit None (EndsWith machines end.history end.actor) }
    ensures stopped_with_capacity { (machines : List Machine_data) (actors : ℕ → A) (limit : ℕ) (capacity : Option ℕ) (role : ℕ) (end : Moment A)
        → IsSafePlain machines A.behaviour actors limit capacity (Stopped role end)
        → PlainIs machines A.behaviour actors limit None WasStopped × IsStoppedEventually machines A.behaviour actors limit role }
    ensures never_stuck { (machines : List Machine_data) (actors : ℕ → A) (limit : ℕ) (end : Moment A) → IsSafePlain machines A.behaviour actors limit None (Stuck end) → ⊥ }
{}

/// The plain run of well-formed machines has one outcome at most, with queues of any capacity or of none.
pub fn one_outcome_at_most<A: Actor>()
    ensures { (machines : List Machine_data) (actors : ℕ → A) (limit : ℕ) (capacity : Option ℕ) (one other : Ending A) → AreWellFormed machines → IsPlain machines A.behaviour actors limit capacity one
        → IsPlain machines A.behaviour actors limit capacity other → SameOutcome (length machines) one other }
{}

/// Wherever the rounds settle in which roles at their limits pass, the same roles are at their limits.
pub fn settled_runs_stop_the_same_roles<A: Actor>()
    ensures { (machines : List Machine_data) (actors : ℕ → A) (limit role : ℕ) (first last : Moment A) → AreWellFormed machines → IsStoppedEventually machines A.behaviour actors limit role
        → StartsWith machines actors first → Settles machines A.behaviour limit first last → IsAtLimit machines limit role last }
{}

/// Where the plain run of safe and well-formed machines is stuck, some role's send finds its queue full.
pub fn stuck_runs_are_full<A: Actor>()
    ensures { (machines : List Machine_data) (actors : ℕ → A) (limit : ℕ) (capacity : Option ℕ) (end : Moment A) → IsSafe machines → AreWellFormed machines
        → IsPlain machines A.behaviour actors limit capacity (Stuck end) → (sender : ℕ) × (receiver : Role) × FirstFull machines capacity end sender receiver }
{}

/// The plain run of safe and well-formed machines comes to an end, with queues of any capacity or of none.
pub fn runs_come_to_an_end<A: Actor>()
    ensures { (machines : List Machine_data) (actors : ℕ → A) (limit : ℕ) (capacity : Option ℕ) → IsSafe machines → AreWellFormed machines
        → (o : Ending A) × IsPlain machines A.behaviour actors limit capacity o }
{}
