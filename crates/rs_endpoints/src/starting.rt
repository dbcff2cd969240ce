//! Sessions that are begun, with an endpoint for each role.
ghost use Rattle.std.specs.Prelude.{◌≡◌, ◌<◌, ◌≤◌, ◌+◌, ◌++◌, ◌∷◌, [], IfOk, Some, map, vec_capacity, vec_len};
ghost use Rattle.rs_endpoints.specs.Endpoints.{AreBegun, endpoint_at};
ghost use Rattle.rs_session.specs.Ends.{AreOf};
ghost use Rattle.std.specs.Arc.{arc_value};

use crate::endpoints::Endpoint;
use crate::sharing::Shared;
use rs_model::{Capacity, NoMemory};
use rs_safety::Accepted;
use rs_session::{Session, Stage};
use std::alloc::Global;
use std::sync::Arc;

/// Begins a session of the accepted machines over rings that hold so many messages each: an endpoint for each role, in role
/// order, each to be taken out of its place. It takes all the memory that sends and receives ever use.
///
/// With the capacity of `OpenSession::capacity` (`rs_open`), which is the session's room where a ring can hold as much, no role
/// can be held up by full rings.
pub fn begin(
    alloc: Global,
    accepted: &Accepted,
    capacity: Capacity,
) -> Result<Vec<Option<Endpoint>>, NoMemory>
    ensures { IfOk result (λ endpoints. AreBegun accepted.now.machines capacity endpoints.items) }
{
    let (session, stages) = Session::begin(alloc, accepted, capacity.messages())?;
    let roles = stages.len();
    let shared = match Shared::new(alloc, session, roles) {
        Ok(shared) => shared,
        Err(refused) => {
            give_all_up(stages);
            return Err(refused);
        }
    };
    match Arc::new(alloc, shared) {
        Ok(shared) => {
            let endpoints = endpoints_of(alloc, &shared, stages)?;
            Ok(endpoints)
        }
        Err(_) => {
            give_all_up(stages);
            Err(NoMemory)
        }
    }
}

/// An endpoint for each stage, in order.
fn endpoints_of(
    alloc: Global,
    shared: &Arc<Shared>,
    stages: Vec<Stage>,
) -> Result<Vec<Option<Endpoint>>, NoMemory>
    requires of { AreOf (arc_value shared.now).session stages.items }
    ensures { IfOk result (λ endpoints. endpoints.items ≡ map (endpoint_at (arc_value shared.now).session) stages.items) }
{
    let mut stages = stages;
    let Ok(mut endpoints) = Vec::with_capacity(alloc, stages.len()) else {
        give_all_up(stages);
        return Err(NoMemory);
    };
    while let Some(stage) = stages.pop() {
        let Ok(own) = Arc::try_clone(shared) else {
            give_up(stage);
            give_all_up(stages);
            return Err(NoMemory);
        };
        append(&mut endpoints, Endpoint::of(own, stage));
    }
    stages.destroy_empty();
    endpoints.reverse();
    Ok(endpoints)
}

/// Appends an endpoint, for which there is room.
fn append(endpoints: &mut Vec<Option<Endpoint>>, endpoint: Endpoint)
    requires room { vec_len endpoints.old < vec_capacity endpoints.old }
    ensures items { endpoints.new.items ≡ endpoints.old.items ++ Some endpoint ∷ [] }
    ensures length { vec_len endpoints.new ≡ vec_len endpoints.old + 1 }
    ensures capacity { vec_capacity endpoints.old ≤ vec_capacity endpoints.new }
{
    match endpoints.push(Some(endpoint)) {
        Ok(()) => {}
        Err(_) => unreachable!(),
    }
}

/// Gives the role up for good.
fn give_up(stage: Stage) {
    stage.leave().give_up();
}

/// Gives all the roles up for good.
fn give_all_up(mut stages: Vec<Stage>) {
    while let Some(stage) = stages.pop() {
        give_up(stage);
    }
    stages.destroy_empty();
}
