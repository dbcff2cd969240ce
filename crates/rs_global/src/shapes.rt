//! The test whether some text reads to a protocol.

ghost use Rattle.std.specs.Prelude.{◌≡◌, ◌&&◌, nat_le, IsTrue, ◌↔◌};
ghost use Rattle.rs_model.specs.declared.limits.TheConstants.{MOST_ROLES};
ghost use Rattle.rs_global.specs.Canonical.{IsTextShaped};

use rs_bodies::{Dialect, has_body};
use rs_model::{MOST_ROLES, Protocol};

/// Whether some text reads to the protocol: its talks are numbered in order of text, each arm leads to a talk round
/// it, to the next new talk or to the end, which is the last node and is there where something leads to it, labels are
/// numbered in order of their first places, and roles, talks, labels and the nesting of the canonical text are within
/// their limits.
pub fn text_shaped(protocol: &Protocol) -> bool
    ensures { IsTrue result ↔ IsTextShaped protocol.now }
{
    fit_a_line(protocol.roles) && has_body(protocol, Dialect::Talks, u32::from(protocol.roles), 0)
}

/// Whether so many roles can stand in a roles line.
fn fit_a_line(roles: u8) -> bool
    ensures { result ≡ (nat_le 2 roles && nat_le roles MOST_ROLES) }
{
    roles >= 2 && usize::from(roles) <= MOST_ROLES
}
