//! What the endpoints of a session share: the session itself, and a locker for each role's pass.
ghost use Rattle.std.specs.Prelude.{◌≡◌, ◌<◌, ◌≤◌, ◌+◌, ◌++◌, ◌∷◌, [], All, IfOk, IfSome, length, true, vec_capacity, vec_len};
ghost use Rattle.rs_rings.specs.Acts.{parcels_sent};
ghost use Rattle.rs_endpoints.specs.Endpoints.{IsLeftOf};
ghost use Rattle.rs_session.specs.Data.{Stage_data};
ghost use Rattle.rs_session.specs.Ends.{AreAll};
ghost use Rattle.rs_session.specs.Leaving.{IsFrom};

use crate::lockers::Locker;
use rs_model::{NoMemory, Role};
use rs_session::{Left, LeftFault, LeftOver, Session};
use std::alloc::Global;

/// A session, and a locker for each role, in which its pass lies once it was given up.
#[derive(Drop)]
pub(crate) struct Shared {
    pub(crate) session: Session,
    lockers: Vec<Locker>,
    ghost keyed: { All (λ key. key ≡ session) lockers.items },
}

impl Shared {
    /// The session with lockers for so many roles. If memory is refused the session comes back.
    pub fn new(alloc: Global, session: Session, roles: usize) -> Result<Shared, NoMemory>
        ensures { IfOk result (λ shared. shared.session ≡ session) }
    {
        let mut lockers = Vec::new(alloc);
        for _ in 0..roles {
            lockers.push(Locker::new(alloc, &session)?)?;
        }
        Ok(Shared { session, lockers })
    }

    /// Keeps the pass of a role that was given up.
    pub fn keep(&self, left: Left)
        requires { IsFrom self.now.session left }
    {
        match self.lockers.get(left.role().0 as usize) {
            Some(locker) => locker.put(left),
            None => left.give_up(),
        }
    }

    /// Whether the sender was given up and has sent so many parcels to the receiver.
    pub fn is_gone(&self, sender: Role, receiver: Role, sent: u64) -> bool
        ensures { result ≡ true → (left : Stage_data) × IsFrom self.now.session left × (left.role ≡ sender) × (sent ≡ length (parcels_sent receiver.0 left.part.history)) }
    {
        match self.lockers.get(sender.0 as usize) {
            Some(locker) => locker.is_spent(sender, receiver, sent),
            None => false,
        }
    }

    /// What is left of the session, once all its roles were given up; None where one wasn't.
    pub fn close(self, alloc: Global) -> Result<Option<LeftOver>, NoMemory>
        ensures { IfOk result (λ left. IfSome left (IsLeftOf self.session)) }
    {
        let Shared {
            session,
            mut lockers,
        } = self;
        let mut lefts = Vec::with_capacity(alloc, lockers.len())?;
        while let Some(locker) = lockers.pop() {
            if let Some(left) = locker.into_left() {
                push_left(&mut lefts, left);
            }
        }
        match session.close_left(alloc, lefts) {
            Ok(over) => Ok(Some(over)),
            Err(
                LeftFault::Missing {
                    session: _,
                    left,
                    missing: _,
                },
            ) => {
                give_all_up(left);
                Ok(None)
            }
            Err(LeftFault::NoMemory { session: _, left }) => {
                give_all_up(left);
                Err(NoMemory)
            }
        }
    }
}

/// Gives all the roles up for good.
fn give_all_up(mut lefts: Vec<Left>) {
    while let Some(left) = lefts.pop() {
        left.give_up();
    }
    lefts.destroy_empty();
}

/// Appends a pass, for which there is room.
fn push_left(lefts: &mut Vec<Left>, left: Left)
    requires room { vec_len lefts.old < vec_capacity lefts.old }
    ensures items { lefts.new.items ≡ lefts.old.items ++ left ∷ [] }
    ensures length { vec_len lefts.new ≡ vec_len lefts.old + 1 }
    ensures capacity { vec_capacity lefts.old ≤ vec_capacity lefts.new }
{
    match lefts.push(left) {
        Ok(()) => {}
        Err(_) => unreachable!(),
    }
}
