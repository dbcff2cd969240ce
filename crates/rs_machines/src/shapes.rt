//! The test whether some text reads to a machine.

ghost use Rattle.std.specs.Prelude.{◌≡◌, nat_lt, IsTrue, ◌↔◌};
ghost use Rattle.rs_model.specs.declared.limits.TheConstants.{MOST_ROLES};
ghost use Rattle.rs_machines.specs.Canonical.{IsMachineTextShaped};

use rs_bodies::{Dialect, has_body};
use rs_model::{MOST_LABELS, MOST_ROLES, Machine, Role};

/// Whether some text reads to the machine: its acts are numbered in order of text, each arm leads to an act round it, to
/// the next new act or to the end, which is the last state and is there where something leads to it, and acts, the
/// nesting of the canonical text, and the numbers of roles and labels are within their limits.
pub fn machine_text_shaped(machine: &Machine) -> bool
    ensures { IsTrue result ↔ IsMachineTextShaped machine.now }
{
    can_be_named(machine.role)
        && has_body(
            machine,
            Dialect::Acts,
            MOST_ROLES as u32,
            MOST_LABELS as u32,
        )
}

/// Whether there can be a name for the role.
fn can_be_named(role: Role) -> bool
    ensures { result ≡ nat_lt role.0 MOST_ROLES }
{
    usize::from(role.0) < MOST_ROLES
}
