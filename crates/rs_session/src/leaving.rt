//! Sessions that are given up with all that they hold.
ghost use Rattle.std.specs.Prelude.{◌≡◌, IfErr, IfOk, OnOk, length};
ghost use Rattle.rs_rings.specs.Closed.{IsLeft, loose_in};
ghost use Rattle.rs_session.specs.Ends.{AreAll, AreAllThere, KnowsFrom};
ghost use Rattle.rs_session.specs.Leaving.{IsFrom, LeavingRefuses};
ghost use Rattle.rs_slots.specs.Places.{ring_count};

use crate::gathering::{gather, least_missing};
use crate::sessions::Session;
use crate::stages::Left;
use rs_model::Role;
use rs_rings::{Closed, Loose};
use std::alloc::Global;

/// What is left of a session that was given up: what the roles had done, and what was under way, ordered by sender, then by
/// receiver, then the oldest first.
#[derive(Drop)]
pub struct LeftOver {
    pub closed: Closed,
    pub loose: Vec<Loose>,
}

/// Why a session wasn't given up. It must be spent.
pub enum LeftFault {
    /// A role isn't among those that were handed in; this is the least one.
    Missing {
        session: Session,
        left: Vec<Left>,
        missing: Role,
    },
    /// Memory for what is under way was refused.
    NoMemory {
        session: Session,
        left: Vec<Left>,
    },
}

impl Session {
    /// Gives the session up, wherever its roles were left, and hands out what is under way.
    ///
    /// The errors are that a role is missing, and that memory was refused. Either hands all back.
    pub fn close_left(self, alloc: Global, left: Vec<Left>) -> Result<LeftOver, LeftFault>
        requires of { AreAll (IsFrom self) left.items }
        ensures present { OnOk result (AreAllThere (length self.machines) left.items) }
        ensures machines { IfOk result (λ over. over.closed.machines ≡ self.machines) }
        ensures capacity { IfOk result (λ over. over.closed.capacity ≡ self.capacity) }
        ensures left { IfOk result (λ over. IsLeft over.closed) }
        ensures knows { IfOk result (λ over. KnowsFrom left.items over.closed) }
        ensures loose { IfOk result (λ over. over.loose.items ≡ loose_in over.closed.last (length self.machines) (ring_count (length self.machines))) }
        ensures refused { IfErr result (LeavingRefuses self left.items) }
    {
        match least_missing(left.as_slice(), self.count()) {
            Some(missing) => Err(LeftFault::Missing {
                session: self,
                left,
                missing,
            }),
            None => match Vec::with_capacity(alloc, self.rings().slots()) {
                Ok(loose) => {
                    let rings = self.into_rings();
                    let pass = gather(&rings, left);
                    let (closed, loose) = rings.close_left(pass, loose);
                    Ok(LeftOver { closed, loose })
                }
                Err(_) => Err(LeftFault::NoMemory {
                    session: self,
                    left,
                }),
            },
        }
    }
}
