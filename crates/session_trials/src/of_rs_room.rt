//! What rings do after two sends.

ghost use Rattle.std.specs.Prelude.{◌≡◌, length};
ghost use Rattle.rs_model.specs.Limits.{IsCapacity};
ghost use Rattle.rs_core.specs.Configurations.{role_of};

use crate::documents::{TWICE, accepted_of};
use rs_core::Event;
use rs_model::{Role, Value};
use rs_room::{Bounded, BoundedFault};
use rs_safety::Accepted;
use std::alloc::Global;

/// The room, which role can go on after both roles have sent once by their first arms, and why the first one can't send again.
#[derive(Drop)]
struct RingsTold {
    room: u64,
    movable: Option<Role>,
    fault: Option<BoundedFault>,
}

fn sends(number: u8) -> Event
    ensures { role_of result ≡ number }
{
    Event::Send {
        role: Role(number),
        arm: 0,
        value: Value::Unit,
    }
}

fn told_of(alloc: Global, accepted: &Accepted, capacity: u16) -> Option<RingsTold>
    requires { IsCapacity capacity }
{
    if accepted.machines().len() < 2 {
        return None;
    }
    let Ok(mut rings) = Bounded::begin(alloc, accepted, capacity) else {
        return None;
    };
    let Ok(_) = rings.step(sends(0)) else {
        return None;
    };
    let Ok(_) = rings.step(sends(1)) else {
        return None;
    };
    let room = rings.room();
    let movable = rings.movable();
    let fault = match rings.step(sends(0)) {
        Ok(_) => None,
        Err(refused) => Some(refused.fault),
    };
    Some(RingsTold {
        room,
        movable,
        fault,
    })
}

/// What is written of the text's session over rings of that capacity: none if it isn't accepted, the two roles can't send,
/// or memory was refused.
fn rings_of(alloc: Global, text: &[u8], capacity: u16) -> Option<RingsTold>
    requires { IsCapacity capacity }
{
    match accepted_of(alloc, text) {
        Some(accepted) => told_of(alloc, &accepted, capacity),
        None => None,
    }
}

#[test]
fn rings_of_the_room_are_enough(rt: HostRuntime) {
    let full = BoundedFault::QueueFull { sent: 1, taken: 0 };
    match rings_of(rt.alloc(), TWICE, 1) {
        Some(told) => {
            assert!(rt; told.room == 11);
            assert!(rt; told.movable.is_none());
            assert!(rt; told.fault == Some(full));
        }
        None => assert!(rt; false, "not accepted"),
    }
    match rings_of(rt.alloc(), TWICE, 11) {
        Some(told) => {
            assert!(rt; told.movable == Some(Role(0)));
            assert!(rt; told.fault.is_none());
        }
        None => assert!(rt; false, "not accepted"),
    }
}
