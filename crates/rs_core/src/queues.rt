//! What rounds are made over: a session whose roles are all in one hand.
ghost use Rattle.std.specs.Prelude.{◌≡◌, ◌<◌, ℕ, List, Option, Some, IfOk, OnOk, OnErr, length, slice_get};
ghost use Rattle.rs_core.specs.Configurations.{state_at};
ghost use Rattle.rs_core.specs.Core.{Core_data, configuration_of};
ghost use Rattle.rs_core.specs.Queues.{FetchNotes, FetchTells, IsCounted, IsStanding, PostNotes, PostTells};
ghost use Rattle.rs_core.specs.Choosable.{CanChooseBy};
ghost use Rattle.rs_core.specs.declared.transcripts.Entry.{Entry};
ghost use Rattle.rs_model.specs.declared.graph.Arm.{Arm};
ghost use Rattle.rs_model.specs.declared.machines.State.TheVariants.{Takes};

use crate::GotBy;
use rs_model::{Arm, Machine, NoMemory, Role, Value};

/// What came of a send.
#[derive(Drop)]
pub enum Posted {
    /// The message is in its queue.
    Sent,
    /// The queue was full, and the value comes back.
    Full(Value),
}

/// A session whose roles are all in one hand: well-formed machines, where each stands, and a queue for each ordered pair of
/// roles. A run is made over it, round by round.
pub trait Queues {
    /// What the session shows: the machines, where each stands, and what is under way.
    ghost core: { Self → Core_data };

    /// How many messages a queue holds at most.
    ghost capacity: { Self → Option ℕ };

    /// What the session itself knows of what its roles have done: which lists may be a role's transcript.
    ghost notes: { Self → ℕ → List Entry → Type 0 };

    /// How many roles there are.
    fn roles(&self) -> usize
        ensures { result ≡ length (core self.now).machines };

    /// The role at a place, whose number it is.
    fn role_at(&self, place: usize) -> Role
        requires present { place < length (core self.now).machines }
        ensures { result.0 ≡ place };

    /// The machine of the role.
    fn machine(&self, role: Role) -> &Machine
        requires present { role.0 < length (core self.now).machines }
        ensures { slice_get (core self.now).machines role.0 ≡ Some result.now };

    /// The number of the state in which the role's machine stands.
    fn state(&self, role: Role) -> u32
        requires present { role.0 < length (core self.now).machines }
        ensures state { result ≡ (configuration_of (core self.now)).at role.0 }
        ensures standing { IsStanding (core self.now) };

    /// Sends the value from the role to the peer, by the arm at that place of the role's state, where the queue has room. The
    /// arm comes with it, so that nobody looks it up.
    fn post(
        &mut self,
        role: Role,
        peer: Role,
        place: u16,
        arm: Arm,
        value: Value,
    ) -> Result<Posted, NoMemory>
        requires present { role.0 < length (core self.old).machines }
        requires peer { peer.0 < length (core self.old).machines }
        requires can { CanChooseBy (core self.old) role.0 (place, value) peer arm }
        requires counted { IsCounted (notes self.old) role.0 }
        ensures told { IfOk result (λ p. PostTells (capacity self.old) (core self.old) role.0 peer (place, value) (core self.new) p) }
        ensures noted { IfOk result (λ p. PostNotes (core self.old) role.0 peer (place, value) (notes self.old) (notes self.new) p) }
        ensures capacity { OnOk result (capacity self.new ≡ capacity self.old) };

    /// Receives the oldest message from the peer, where one is under way, and tells by which arm.
    fn fetch(&mut self, role: Role, peer: Role) -> Option<GotBy>
        requires present { role.0 < length (core self.old).machines }
        requires takes { (arms : List Arm) × (state_at (core self.old).machines (configuration_of (core self.old)) role.0 ≡ Some (Takes peer arms)) }
        requires counted { IsCounted (notes self.old) role.0 }
        ensures told { FetchTells (core self.old) role.0 peer (core self.new) result }
        ensures noted { FetchNotes role.0 peer (notes self.old) (notes self.new) result }
        ensures capacity { capacity self.new ≡ capacity self.old };
}
