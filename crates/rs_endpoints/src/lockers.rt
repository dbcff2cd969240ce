//! A locker, in which a role's pass lies once the role was given up. Threads share it, and none ever waits for it.
ghost use Rattle.std.specs.Prelude.{◌≡◌, IfOk, IfSome, length, true};
ghost use Rattle.rs_rings.specs.Acts.{parcels_sent};
ghost use Rattle.rs_endpoints.specs.Lockers.{HasOpened, HoldsSlot};
ghost use Rattle.rs_session.specs.Data.{Stage_data};
ghost use Rattle.rs_session.specs.Leaving.{IsFrom};

use atomic_table::{Play, Seat, Table, TableRule};
use rs_model::{MOST_ROLES, NoMemory, Role};
use rs_session::{Left, Session};
use std::alloc::Global;
use std::marker::Model;

/// The word of a locker whose content is out: whoever opens it closes it again.
const OPEN: u64 = 0;

/// The word of a locker in which nothing lies.
const EMPTY: u64 = 1;

/// The word of a locker in which a pass lies.
const FILLED: u64 = 2;

/// The pass of a role that was given up.
pub(crate) struct GivenUp {
    left: Left,
}

impl Model for GivenUp {
    ghost use Rattle.rs_session.specs.Data.{Stage_data};

    ghost Value = { Stage_data };

    ghost view = { λ g. g.left };
}

impl GivenUp {
    fn into_left(self) -> Left
        ensures { result ≡ self }
    {
        let GivenUp { left } = self;
        left
    }
}

impl Drop for GivenUp {
    fn drop(self) {
        let GivenUp { left } = self;
        left.give_up();
    }
}

/// What holds of a locker between any two steps, and what opening it tells.
struct LockerRule;

impl TableRule<Option<GivenUp>, Session, Session> for LockerRule {
    ghost use Rattle.rs_endpoints.specs.Lockers.{IsKept};
    ghost use Rattle.rs_session.specs.Leaving.{IsFrom};

    ghost holds = { λ session. IsKept (IsFrom session) };

    ghost first = { λ session. session };
}

impl Play<Option<GivenUp>, Session> for LockerRule {
    ghost use Rattle.rs_endpoints.specs.Lockers.{HasOpened};
    ghost use Rattle.rs_session.specs.Leaving.{IsFrom};

    ghost then = { λ step old found new. HasOpened (IsFrom old.0) found new };
}

/// Closing a locker tells nothing.
struct Closing;

impl Play<Option<GivenUp>, Session> for Closing {
    ghost then = { λ step old found new. Unit {0} };
}

/// A locker of a session.
#[derive(Drop)]
pub(crate) struct Locker {
    table: Table<Option<GivenUp>, Session, Session, LockerRule, Global>,
    ghost sized: { (table.shared.table_id.words ≡ 1) × (table.shared.table_id.slots ≡ 1) },
}

impl Model for Locker {
    ghost use Rattle.rs_rings.specs.Passes.{Rings_data};

    ghost Value = { Rings_data };

    ghost view = { λ l. l.table.shared.key };
}

impl Locker {
    /// A locker of the session, in which nothing lies.
    pub fn new(alloc: Global, session: &Session) -> Result<Locker, NoMemory>
        ensures { IfOk result (λ locker. locker ≡ session.now) }
    {
        let (table, _seat) = Table::vacant(alloc, &[EMPTY], 1, session)?;
        Ok(Locker { table })
    }

    /// Puts the pass of a role of the session into the locker. One that isn't empty drops it.
    pub fn put(&self, left: Left)
        requires { IsFrom self.now left }
    {
        let shared = &self.table.shared;
        let given_up = GivenUp { left };
        let (found, mut seat) = shared.swap_new_seat::<LockerRule>(0, OPEN);
        if found == EMPTY {
            drop(shared.exchange(&mut seat, 0, Some(given_up)));
            shared.store::<Closing>(&mut seat, 0, FILLED);
        }
    }

    /// Whether the pass of the sender lies in the locker, and the sender has sent so many parcels to the receiver.
    pub fn is_spent(&self, sender: Role, receiver: Role, sent: u64) -> bool
        ensures { result ≡ true → (left : Stage_data) × IsFrom self.now left × (left.role ≡ sender) × (sent ≡ length (parcels_sent receiver.0 left.part.history)) }
    {
        let shared = &self.table.shared;
        if shared.peek(0) != FILLED {
            return false;
        }
        let (found, mut seat) = shared.swap_new_seat::<LockerRule>(0, OPEN);
        if found != FILLED {
            return false;
        }
        match shared.exchange(&mut seat, 0, None) {
            Some(given_up) => {
                let is_spent = has_sent(&given_up.left, sender, receiver, sent);
                drop(shared.exchange(&mut seat, 0, Some(given_up)));
                shared.store::<Closing>(&mut seat, 0, FILLED);
                is_spent
            }
            None => unreachable!(),
        }
    }

    /// The pass that lies in the locker.
    pub fn into_left(self) -> Option<Left>
        ensures { IfSome result (IsFrom self) }
    {
        let Locker { table } = self;
        let mut closed = table.close();
        let word = closed.word(0);
        let content = closed.take(0);
        closed.free();
        if word != FILLED {
            return None;
        }
        Some(content?.into_left())
    }
}

/// Whether it is the pass of the sender, which has sent so many parcels to the receiver.
fn has_sent(left: &Left, sender: Role, receiver: Role, sent: u64) -> bool
    ensures role { result ≡ true → left.now.role ≡ sender }
    ensures sent { result ≡ true → sent ≡ length (parcels_sent receiver.0 left.now.part.history) }
{
    left.role() == sender && usize::from(receiver.0) < MOST_ROLES && left.sent(receiver) == sent
}
