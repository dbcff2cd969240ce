//! The monitors of an accepted session.
ghost use Rattle.std.specs.Prelude.{◌≡◌, ◌<◌, [], IfOk, Some, length, slice_get};
ghost use Rattle.rs_monitor.specs.Monitors.{new_monitor};

use rs_model::{Machine, NoMemory, Role};
use rs_monitor::{Monitor, TracedMonitor};
use rs_safety::Accepted;
use std::alloc::Global;

/// A copy of the role's machine.
fn machine_of(alloc: Global, session: &Accepted, role: Role) -> Result<Machine, NoMemory>
    requires present { role.0 < length session.now.machines }
    ensures { IfOk result (λ m. slice_get session.now.machines role.0 ≡ Some m) }
{
    session.machines()[role.0 as usize].copy(alloc)
}

/// The monitor of the role's program, which has made no act yet. It owns a copy of the role's machine.
///
/// The machines of an accepted session are safe ([`Accepted::machines`]), so the laws of `rs_monitor` hold of its monitors. The one
/// error is that memory was refused.
pub fn monitor_of(alloc: Global, session: &Accepted, role: Role) -> Result<Monitor, NoMemory>
    requires present { role.0 < length session.now.machines }
    ensures new { IfOk result (λ m. m ≡ new_monitor m.machine) }
    ensures machine { IfOk result (λ m. slice_get session.now.machines role.0 ≡ Some m.machine) }
{
    let machine = machine_of(alloc, session, role)?;
    Ok(Monitor::new(machine))
}

/// The same, of a monitor that keeps its acts.
pub fn traced_monitor_of(
    alloc: Global,
    session: &Accepted,
    role: Role,
) -> Result<TracedMonitor, NoMemory>
    requires present { role.0 < length session.now.machines }
    ensures new { IfOk result (λ m. m.monitor ≡ new_monitor m.monitor.machine) }
    ensures machine { IfOk result (λ m. slice_get session.now.machines role.0 ≡ Some m.monitor.machine) }
    ensures trace { IfOk result (λ m. m.trace ≡ []) }
{
    let machine = machine_of(alloc, session, role)?;
    Ok(TracedMonitor::new(alloc, machine))
}
