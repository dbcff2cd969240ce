//! Laws about the definitions: each function does nothing, and its contract is the law.
ghost use Rattle.std.specs.Prelude.{◌≡◌, ◌⊎◌, ◌<◌, ◌∷◌, ℕ, List, Option, Some, None, length};
ghost use Rattle.rs_core.specs.Choices.{AreWellFormed};
ghost use Rattle.rs_core.specs.Configurations.{Configuration, IsReachable, IsSame, Step};
ghost use Rattle.rs_core.specs.declared.messages.Message.{Message};
ghost use Rattle.rs_core.specs.declared.messages.Event.{Event};
ghost use Rattle.rs_core.specs.Safety.{AllEnded, IsSafe};
ghost use Rattle.rs_model.specs.Data.{Machine_data};
ghost use Rattle.rs_model.specs.declared.graph.Arm.{Arm};
ghost use Rattle.rs_model.specs.declared.graph.Role.{Role};
ghost use Rattle.rs_model.specs.declared.machines.State.{State};
ghost use Rattle.rs_model.specs.declared.machines.State.TheVariants.{Takes};
ghost use Rattle.rs_monitor.specs.Acts.{ProgramAct, Received, IsActOf};
ghost use Rattle.rs_monitor.specs.Monitors.{state_now};
ghost use Rattle.rs_monitor.specs.Refusals.{IsRefusedFor};
ghost use Rattle.rs_monitor.specs.Sessions.{IsMonitored, MonitoredSession, MonitoredStep, act_of, acting, shown};
ghost use Rattle.rs_monitor.specs.declared.acts.Refusal.{Refusal};

/// Each act is one of a state's, or is refused for one reason, and never both.
pub fn an_act_is_let_through_or_refused_for_one_reason()
    ensures either { (state : Option State) (act : ProgramAct) → ((next : ℕ) × IsActOf state act next) ⊎ ((refusal : Refusal) × IsRefusedFor state act refusal) }
    ensures not_both { (state : Option State) (act : ProgramAct) (next : ℕ) (refusal : Refusal) → IsActOf state act next → IsRefusedFor state act refusal → ⊥ }
    ensures one { (state : Option State) (act : ProgramAct) (refusal other : Refusal) → IsRefusedFor state act refusal → IsRefusedFor state act other → refusal ≡ other }
{}

/// If each act of each program goes through the monitor of its role, over queues that neither lose nor reorder messages, then
/// what the monitors and the queues show is at every moment a configuration that the machines can reach.
pub fn monitored_runs_are_reachable()
    ensures { (machines : List Machine_data) (session : MonitoredSession) → IsMonitored machines session → IsReachable machines (shown session) }
{}

/// The monitors refuse nothing that the machines can do: each step of the machines is an act that the monitor of its role lets
/// through, and that leads to what the machines' step leads to.
pub fn each_step_is_let_through()
    ensures { (machines : List Machine_data) (session : MonitoredSession) (event : Event) (d : Configuration) → IsMonitored machines session → (step : Step machines (shown session) event d)
        → (after : MonitoredSession) × MonitoredStep machines session (acting event) (act_of machines (shown session) event d step) after × IsSame (shown after) d }
{}

/// If the machines are safe, no monitor refuses the oldest message of the queue from which its state receives.
pub fn no_monitor_refuses_what_comes()
    ensures { (machines : List Machine_data) (session : MonitoredSession) → IsSafe machines → IsMonitored machines session
        → (role peer : Role) (arms : List Arm) (message : Message) (later : List Message) → role.0 < length machines → state_now (session.monitor role.0) ≡ Some (Takes peer arms)
        → session.queue peer.0 role.0 ≡ message ∷ later → (next : ℕ) × IsActOf (state_now (session.monitor role.0)) (Received peer message) next }
{}

/// If the machines are safe and well formed, at every moment some program can make an act that its monitor lets through, or all
/// have ended with nothing under way.
pub fn some_program_can_act_or_all_have_ended()
    ensures { (machines : List Machine_data) (session : MonitoredSession) → IsSafe machines → AreWellFormed machines → IsMonitored machines session
        → ((role : Role) × (act : ProgramAct) × (after : MonitoredSession) × MonitoredStep machines session role act after) ⊎ AllEnded machines (shown session) }
{}
