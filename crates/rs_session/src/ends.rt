//! How sessions end.
ghost use Rattle.std.specs.Prelude.{◌≡◌, IfErr, IfOk, OnOk, length, map};
ghost use Rattle.rs_rings.specs.Closed.{IsLeft, IsOver};
ghost use Rattle.rs_session.specs.Ends.{AreAll, AreAllThere, AreOf, IsLeastMissing, KnowsFrom};
ghost use Rattle.rs_session.specs.Stages.{IsEnded, sight_of_stage};

use crate::gathering::{gather, least_missing};
use crate::sessions::Session;
use crate::stages::{Ended, Stage};
use rs_model::Role;
use rs_rings::Closed;

/// A session that can't be closed, since a role's stage is missing. It must be spent.
pub struct CloseFault {
    pub session: Session,
    pub ended: Vec<Ended>,
    pub missing: Role,
}

impl Session {
    /// Closes the session, once all its roles have ended. Takes no memory.
    ///
    /// The error names the least role that isn't among those that were handed in, and hands all back.
    pub fn close(self, ended: Vec<Ended>) -> Result<Closed, CloseFault>
        requires of { AreAll (IsEnded self) ended.items }
        ensures present { OnOk result (AreAllThere (length self.machines) ended.items) }
        ensures machines { IfOk result (λ c. c.machines ≡ self.machines) }
        ensures capacity { IfOk result (λ c. c.capacity ≡ self.capacity) }
        ensures over { IfOk result IsOver }
        ensures knows { IfOk result (KnowsFrom ended.items) }
        ensures missing { IfErr result (λ e. IsLeastMissing (length self.machines) ended.items e.missing.0) }
        ensures back { IfErr result (λ e. (e.session ≡ self) × (e.ended.items ≡ ended.items)) }
    {
        match least_missing(ended.as_slice(), self.count()) {
            Some(missing) => Err(CloseFault {
                session: self,
                ended,
                missing,
            }),
            None => {
                let rings = self.into_rings();
                let pass = gather(&rings, ended);
                Ok(rings.close(pass))
            }
        }
    }

    /// Gives the session up, wherever its roles stand. What is under way is dropped. Takes no memory.
    pub fn abandon(self, stages: Vec<Stage>) -> Closed
        requires of { AreOf self stages.items }
        requires each { AreAllThere (length self.machines) (map sight_of_stage stages.items) }
        ensures machines { result.machines ≡ self.machines }
        ensures capacity { result.capacity ≡ self.capacity }
        ensures left { IsLeft result }
        ensures knows { KnowsFrom (map sight_of_stage stages.items) result }
    {
        let rings = self.into_rings();
        let pass = gather(&rings, stages);
        rings.abandon(pass)
    }
}
