//! Laws over the definitions: each function does nothing, and its contract is the law.

ghost use Rattle.std.specs.Prelude.{◌≡◌, ◌≢◌, ◌+◌, ◌*◌, ◌<◌, ◌≤◌, ℕ, List, Some, length, slice_get};
ghost use Rattle.rs_core.specs.Configurations.{Configuration, IsReachable};
ghost use Rattle.rs_core.specs.declared.messages.Event.{Event};
ghost use Rattle.rs_core.specs.declared.messages.Message.{Message};
ghost use Rattle.rs_model.specs.declared.graph.Role.{Role};
ghost use Rattle.rs_model.specs.Data.{Machine_data, Protocol_data};
ghost use Rattle.rs_project.specs.Data.{Projection_data};
ghost use Rattle.rs_derive.specs.Data.{Derivation_data};
ghost use Rattle.rs_core.specs.Choices.{HaveLabelsOnce};
ghost use Rattle.rs_safety.specs.Sessions.{IsDerivedSession};
ghost use Rattle.rs_safety.specs.Room.{room_of};
ghost use Rattle.rs_alive.specs.Pasts.{AgreeFor, IsNoPast, PastLeadsTo};
ghost use Rattle.rs_alive.specs.Taken.{EndsWithReceive, IsTaken, acts_by};

/// Every message that is under way can be taken: some events lead to its receive, and they are at most twice the number
/// of roles times the number of nodes times the sum of the sender's own events and three times the room.
pub fn every_message_can_be_taken()
    ensures { (protocol : Protocol_data) (projections : List Projection_data) (machines : List Machine_data) (derivations : List Derivation_data)
        → IsDerivedSession protocol projections machines derivations
        → (c : Configuration) (reached : IsReachable machines c) (sender receiver : Role) (place : ℕ)
        → sender.0 < length machines → receiver.0 < length machines → sender.0 ≢ receiver.0 → place < length (c.queue sender.0 receiver.0)
        → (events : List Event) × IsTaken machines sender receiver c place events
        × (length events ≤ 2 * length machines * length protocol.nodes * (acts_by sender.0 reached.events + 3 * room_of derivations)) }
{}

/// What is taken is the message that stood at the place: it is received by the last event.
pub fn taken_is_the_message_at_the_place()
    ensures { (machines : List Machine_data) (sender receiver : Role) (c : Configuration) (place : ℕ) (events : List Event) (message : Message)
        → IsTaken machines sender receiver c place events → slice_get (c.queue sender.0 receiver.0) place ≡ Some message
        → EndsWithReceive machines sender receiver c events message }
{}

/// A past leads to one configuration, as far as the roles and the queues go.
pub fn a_past_leads_to_one_configuration()
    ensures { (machines : List Machine_data) (past : List Event) (c d : Configuration) → HaveLabelsOnce machines → PastLeadsTo machines past c → PastLeadsTo machines past d
        → AgreeFor (length machines) c d }
{}

/// What has an event that is no step leads nowhere.
pub fn no_past_leads_nowhere()
    ensures { (machines : List Machine_data) (past : List Event) (place : ℕ) (c : Configuration) → HaveLabelsOnce machines → IsNoPast machines past place → PastLeadsTo machines past c → ⊥ }
{}
