//! The calls of endpoints.

ghost use Rattle.std.specs.Prelude.{◌≡◌, ⊤};
ghost use Rattle.rs_endpoints.specs.Endpoints.{StandsAt};
ghost use Rattle.rs_held.specs.Endpoints.{CopySendTells, NumbersTell, OctetsTell, ReceiveTells, SendTells};
ghost use Rattle.rs_held.specs.Opens.{Changes, Closes, Reads};
ghost use Rattle.rs_model.specs.declared.machines.State.{State as AnyState};
ghost use Rattle.rs_model.specs.declared.values.Value.TheVariants as kind;
ghost use Rattle.rs_numbered.specs.States.{ArmTells, Shows};
ghost use Rattle.rs_numbered.specs.declared.statuses.CallStatus.TheVariants.{Fine};
ghost use Rattle.rs_numbered.specs.Statuses.{Answers};

use rs_held::{EndpointHandle, endpoints};
use rs_model::Value;
use rs_numbered::MessageView;
use std::alloc::Global;

/// Tells the direction, the peer and the number of arms of the role's state.
#[unsafe(no_mangle)]
pub extern "C" fn rumpsteak_state(
    alloc: Global,
    endpoint: &mut EndpointHandle,
    direction: &mut u32,
    peer: &mut u32,
    arms: &mut u32,
) -> u32
    ensures { Answers result (λ status. Reads endpoint.old.value endpoint.new.value ((direction.new ≡ direction.old) × (peer.new ≡ peer.old) × (arms.new ≡ arms.old))
        (λ held. (status ≡ Fine) × ((state : AnyState) × StandsAt held.endpoint state × Shows state direction.new peer.new arms.new)) status) }
{
    endpoints::state(alloc, endpoint, direction, peer, arms).number()
}

/// Tells the label and the kind of the arm at that place of the role's state.
#[unsafe(no_mangle)]
pub extern "C" fn rumpsteak_arm(
    alloc: Global,
    endpoint: &mut EndpointHandle,
    place: u32,
    label: &mut u32,
    kind: &mut u32,
) -> u32
    ensures { Answers result (λ status. Reads endpoint.old.value endpoint.new.value ((label.new ≡ label.old) × (kind.new ≡ kind.old))
        (λ held. (state : AnyState) × StandsAt held.endpoint state × ArmTells state place label.old label.new kind.old kind.new status) status) }
{
    endpoints::arm(alloc, endpoint, place, label, kind).number()
}

/// Sends a message without a value.
#[unsafe(no_mangle)]
pub extern "C" fn rumpsteak_send_unit(
    alloc: Global,
    endpoint: &mut EndpointHandle,
    label: u32,
) -> u32
    ensures { Answers result (λ status. Changes endpoint.old.value endpoint.new.value ⊤ (λ before after. SendTells before.endpoint label kind.Unit after.endpoint status × (after.last ≡ before.last)) status) }
{
    endpoints::send(alloc, endpoint, label, Value::Unit).number()
}

/// Sends a truth value.
#[unsafe(no_mangle)]
pub extern "C" fn rumpsteak_send_bool(
    alloc: Global,
    endpoint: &mut EndpointHandle,
    label: u32,
    value: bool,
) -> u32
    ensures { Answers result (λ status. Changes endpoint.old.value endpoint.new.value ⊤ (λ before after. SendTells before.endpoint label (kind.Flag value) after.endpoint status × (after.last ≡ before.last)) status) }
{
    endpoints::send(alloc, endpoint, label, Value::Flag(value)).number()
}

/// Sends a natural number.
#[unsafe(no_mangle)]
pub extern "C" fn rumpsteak_send_nat(
    alloc: Global,
    endpoint: &mut EndpointHandle,
    label: u32,
    value: u64,
) -> u32
    ensures { Answers result (λ status. Changes endpoint.old.value endpoint.new.value ⊤ (λ before after. SendTells before.endpoint label (kind.Natural value) after.endpoint status × (after.last ≡ before.last)) status) }
{
    endpoints::send(alloc, endpoint, label, Value::Natural(value)).number()
}

/// Sends a whole number.
#[unsafe(no_mangle)]
pub extern "C" fn rumpsteak_send_int(
    alloc: Global,
    endpoint: &mut EndpointHandle,
    label: u32,
    value: i64,
) -> u32
    ensures { Answers result (λ status. Changes endpoint.old.value endpoint.new.value ⊤ (λ before after. SendTells before.endpoint label (kind.Whole value) after.endpoint status × (after.last ≡ before.last)) status) }
{
    endpoints::send(alloc, endpoint, label, Value::Whole(value)).number()
}

/// Sends a copy of the bytes.
#[unsafe(no_mangle)]
pub extern "C" fn rumpsteak_send_bytes(
    alloc: Global,
    endpoint: &mut EndpointHandle,
    label: u32,
    value: &[u8],
) -> u32
    ensures { Answers result (λ status. Changes endpoint.old.value endpoint.new.value ⊤ (λ before after. CopySendTells before.endpoint label (kind.Octets value.now) after.endpoint status × (after.last ≡ before.last)) status) }
{
    endpoints::send_octets(alloc, endpoint, label, value).number()
}

/// Sends a copy of the numbers.
#[unsafe(no_mangle)]
pub extern "C" fn rumpsteak_send_list(
    alloc: Global,
    endpoint: &mut EndpointHandle,
    label: u32,
    value: &[i64],
) -> u32
    ensures { Answers result (λ status. Changes endpoint.old.value endpoint.new.value ⊤ (λ before after. CopySendTells before.endpoint label (kind.Numbers value.now) after.endpoint status × (after.last ≡ before.last)) status) }
{
    endpoints::send_numbers(alloc, endpoint, label, value).number()
}

/// Receives a message.
#[unsafe(no_mangle)]
pub extern "C" fn rumpsteak_receive(
    alloc: Global,
    endpoint: &mut EndpointHandle,
    message: &mut MessageView,
) -> u32
    ensures { Answers result (λ status. Changes endpoint.old.value endpoint.new.value (message.new ≡ message.old) (λ before after. ReceiveTells before after message.old message.new status) status) }
{
    endpoints::receive(alloc, endpoint, message).number()
}

/// Hands out the bytes of the message that was received last.
#[unsafe(no_mangle)]
pub extern "C" fn rumpsteak_bytes(
    alloc: Global,
    endpoint: &mut EndpointHandle,
    out: &mut [u8],
    written: &mut usize,
) -> u32
    ensures { Answers result (λ status. Reads endpoint.old.value endpoint.new.value ((out.new ≡ out.old) × (written.new ≡ written.old)) (λ held. OctetsTell held.last out.old out.new written.old written.new status) status) }
{
    endpoints::octets(alloc, endpoint, out, written).number()
}

/// Hands out the numbers of the message that was received last.
#[unsafe(no_mangle)]
pub extern "C" fn rumpsteak_list(
    alloc: Global,
    endpoint: &mut EndpointHandle,
    out: &mut [i64],
    written: &mut usize,
) -> u32
    ensures { Answers result (λ status. Reads endpoint.old.value endpoint.new.value ((out.new ≡ out.old) × (written.new ≡ written.old)) (λ held. NumbersTell held.last out.old out.new written.old written.new status) status) }
{
    endpoints::numbers(alloc, endpoint, out, written).number()
}

/// Gives the role up, and frees the endpoint.
#[unsafe(no_mangle)]
pub extern "C" fn rumpsteak_leave(alloc: Global, endpoint: &mut EndpointHandle) -> u32
    ensures { Answers result (λ status. Closes endpoint.old.value endpoint.new.value status) }
{
    endpoints::leave(alloc, endpoint).number()
}
