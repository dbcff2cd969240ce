//! Stages that are handed in at the end of a session.
ghost use Rattle.std.specs.Prelude.{◌≡◌, ◌<◌, ◌≤◌, ℕ, true, false, map, IfSome, IfNone, vec_len};
ghost use Rattle.rs_model.specs.declared.limits.TheConstants.{MOST_ROLES};
ghost use Rattle.rs_rings.specs.Views.{SpeaksFor, part_of};
ghost use Rattle.rs_session.specs.Data.{Stage_data};
ghost use Rattle.rs_session.specs.Ends.{AreAll, AreAllThere, IsLeastMissing, IsMissing, IsThere};
ghost use Rattle.rs_session.specs.Stages.{sight_of_stage};

use crate::stages::{Ended, Left, Stage};
use crate::standing::Standing;
use rs_model::Role;
use rs_rings::{Pass, Rings};

/// A stage of some kind.
pub(crate) trait Stands {
    ghost stage: { Self → Stage_data };

    fn role_of(&self) -> Role
        ensures { result ≡ (stage self.now).role };

    fn into_standing(self) -> Standing
        ensures { result ≡ stage self };
}

impl Stands for Stage {
    ghost use Rattle.rs_session.specs.Stages.{sight_of_stage};

    ghost stage = { sight_of_stage };

    fn role_of(&self) -> Role {
        self.role()
    }

    fn into_standing(self) -> Standing {
        let Left { standing } = self.leave();
        standing
    }
}

impl Stands for Ended {
    ghost stage = { λ s. s };

    fn role_of(&self) -> Role {
        self.role()
    }

    fn into_standing(self) -> Standing {
        let Ended { standing } = self;
        standing
    }
}

impl Stands for Left {
    ghost stage = { λ s. s };

    fn role_of(&self) -> Role {
        self.role()
    }

    fn into_standing(self) -> Standing {
        let Left { standing } = self;
        standing
    }
}

/// The least role of which there is no stage.
pub(crate) fn least_missing<S: Stands>(stages: &[S], roles: usize) -> Option<Role>
    requires bounded { roles ≤ MOST_ROLES }
    ensures some { IfSome result (λ r. IsLeastMissing roles (map S.stage stages.now) r.0) }
    ensures none { IfNone result (AreAllThere roles (map S.stage stages.now)) }
{
    for number in 0..roles {
        let role = Role(number as u8);
        if !is_there(stages, role) {
            return Some(role);
        }
    }
    None
}

fn is_there<S: Stands>(stages: &[S], role: Role) -> bool
    ensures present { result ≡ true → IsThere (map S.stage stages.now) role.0 }
    ensures missing { result ≡ false → IsMissing (map S.stage stages.now) role.0 }
{
    for stage in stages {
        if stage.role_of() == role {
            return true;
        }
    }
    false
}

/// One pass of the roles of all stages.
pub(crate) fn gather<S: Stands>(rings: &Rings, stages: Vec<S>) -> Pass
    requires some { 0 < vec_len stages }
    requires tables { AreAll (λ s. s.table ≡ rings.now.table) (map S.stage stages.items) }
    ensures table { result.table ≡ rings.now.table }
    ensures speaks { (r : ℕ) → IsThere (map S.stage stages.items) r → SpeaksFor result.view r }
    ensures parts { (r : ℕ) → SpeaksFor result.view r → (from : IsThere (map S.stage stages.items) r) × (part_of result.view r ≡ from.stage.part) }
{
    let mut stages = stages;
    let mut pass = match stages.pop() {
        Some(stage) => stage.into_standing().into_pass(),
        None => unreachable!(),
    };
    while let Some(stage) = stages.pop() {
        rings.join(&mut pass, stage.into_standing().into_pass());
    }
    stages.destroy_empty();
    pass
}

/// The pass with the roles of all stages too.
pub(crate) fn gather_into(rings: &Rings, pass: Pass, stages: Vec<Stage>) -> Pass
    requires table { pass.table ≡ rings.now.table }
    requires tables { AreAll (λ s. s.table ≡ rings.now.table) (map sight_of_stage stages.items) }
    ensures table { result.table ≡ rings.now.table }
    ensures kept { (r : ℕ) → SpeaksFor pass.view r → SpeaksFor result.view r }
    ensures speaks { (r : ℕ) → IsThere (map sight_of_stage stages.items) r → SpeaksFor result.view r }
{
    if stages.is_empty() {
        stages.destroy_empty();
        return pass;
    }
    let mut all = gather(rings, stages);
    rings.join(&mut all, pass);
    all
}
