//! Laws of endpoints. The function does nothing: what is proved is its contract.
ghost use Rattle.std.specs.Prelude.{◌≡◌, List};
ghost use Rattle.rs_core.specs.Safety.{IsSafe};
ghost use Rattle.rs_model.specs.Data.{Machine_data};
ghost use Rattle.rs_rings.specs.Passes.{Rings_data};
ghost use Rattle.rs_safety.specs.Accepting.{Accepted_data, IsAcceptedSession};
ghost use Rattle.rs_session.specs.declared.stages.Stage.{Stage};
ghost use Rattle.rs_typed.specs.Endpoints.{AreEndpoints};

/// Where each role of a session of accepted machines has an endpoint, the machines that the endpoints' types name are safe.
pub fn typed_sessions_are_safe()
    ensures { (accepted : Accepted_data) (session : Rings_data) (machines : List Machine_data) (stages : List Stage) → IsAcceptedSession accepted → session.machines ≡ accepted.machines
        → AreEndpoints session machines stages → IsSafe machines }
{}
