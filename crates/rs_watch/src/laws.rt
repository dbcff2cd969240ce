//! Laws about the definitions: each function does nothing, and its contract is the law.
ghost use Rattle.std.specs.Prelude.{◌⊎◌, ◌≤◌, ℕ, List};
ghost use Rattle.rs_core.specs.Safety.{AllEnded};
ghost use Rattle.rs_derive.specs.Data.{Derivation_data};
ghost use Rattle.rs_model.specs.Data.{Machine_data, Protocol_data};
ghost use Rattle.rs_model.specs.declared.graph.Role.{Role};
ghost use Rattle.rs_monitor.specs.declared.acts.ProgramAct.{ProgramAct};
ghost use Rattle.rs_monitor.specs.Sessions.{IsMonitored, MonitoredSession, MonitoredStep, shown};
ghost use Rattle.rs_project.specs.Data.{Projection_data};
ghost use Rattle.rs_safety.specs.Room.{room_of};
ghost use Rattle.rs_safety.specs.Sessions.{IsDerivedSession};
ghost use Rattle.rs_watch.specs.Rooms.{FindsRoom};

/// Queues that hold at least as many messages as the room of the session never hold its programs up: at every moment some program
/// can make an act that its monitor lets through, with room in the queue for the message that it sends, or all have ended with
/// nothing under way.
pub fn queues_of_the_room_are_enough()
    ensures { (protocol : Protocol_data) (projections : List Projection_data) (machines : List Machine_data) (derivations : List Derivation_data)
        → IsDerivedSession protocol projections machines derivations
        → (capacity : ℕ) → room_of derivations ≤ capacity → (session : MonitoredSession) → IsMonitored machines session
        → ((role : Role) × (act : ProgramAct) × (after : MonitoredSession) × MonitoredStep machines session role act after × FindsRoom capacity session.queue role act)
        ⊎ AllEnded machines (shown session) }
{}
