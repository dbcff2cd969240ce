//! A session whose roles are all in one hand, as rounds are made over it.
ghost use Rattle.std.specs.Prelude.{◌≡◌, ◌<◌, ◌≤◌, List, IfOk, OnOk, Some, length, slice_get};
ghost use Rattle.rs_core.specs.Configurations.{state_of};
ghost use Rattle.rs_model.specs.declared.graph.Arm.{Arm};
ghost use Rattle.rs_model.specs.declared.graph.Role.{Role};
ghost use Rattle.rs_model.specs.declared.machines.State.TheVariants.{Takes};
ghost use Rattle.rs_model.specs.Limits.{IsCapacity};
ghost use Rattle.rs_model.specs.declared.limits.TheConstants.{MOST_ROLES};
ghost use Rattle.rs_exec.specs.Hands.{IsSpent, MayEnd};
ghost use Rattle.rs_rings.specs.Views.{starting};
ghost use Rattle.rs_safety.specs.Accepting.{IsAcceptedSession};

use rs_core::{End, GotBy, Message, Posted, Queues};
use rs_model::{Arm, Machine, NoMemory, Role, State, Value};
use rs_rings::{Closed, GotOn, Put};
use rs_safety::Accepted;
use rs_session::{Ensemble, Session};
use rs_slots::Parcel;
use std::alloc::Global;
use std::marker::Model;

/// A session, the hand that holds all its roles, and how many they are. It must be spent.
pub(crate) struct Hand {
    session: Session,
    all: Ensemble,
    count: usize,
}

impl Model for Hand {
    ghost use Rattle.rs_exec.specs.Hands.{Hand_data, IsHeld};

    ghost Value = { Hand_data };

    ghost view = { λ h. record { session = h.session; all = h.all; count = h.count } };

    ghost invariant = { λ h. IsHeld h.session h.all h.count };
}

impl Hand {
    /// A session of the accepted machines at its start.
    pub(crate) fn begin(alloc: Global, accepted: &Accepted, capacity: u16) -> Result<Hand, NoMemory>
        requires capacity { IsCapacity capacity }
        ensures accepted { OnOk result (IsAcceptedSession accepted.now) }
        ensures machines { IfOk result (λ h. h.session.machines ≡ accepted.now.machines) }
        ensures capacity { IfOk result (λ h. h.session.capacity ≡ capacity) }
        ensures first { IfOk result (λ h. h.all.view ≡ starting h.session.machines) }
    {
        let count = accepted.machines().len();
        let (session, all) = Session::begin_together(alloc, accepted, capacity)?;
        Ok(Hand {
            session,
            all,
            count,
        })
    }

    /// Closes the session where its rounds ended so, and else gives it up. Takes no memory.
    pub(crate) fn spend(self, end: End) -> Closed
        requires ended { MayEnd self.session.machines self.all.view end }
        ensures closed { (result.machines ≡ self.session.machines) × (result.last ≡ self.all.view) }
        ensures capacity { result.capacity ≡ self.session.capacity }
        ensures spent { IsSpent end result }
    {
        let Hand {
            session,
            all,
            count: _,
        } = self;
        match end {
            End::Ended => session.close_together(all),
            End::Stopped(_) => session.abandon_together(all),
            End::Full { .. } => session.abandon_together(all),
        }
    }

    /// Gives the session up, wherever its roles stand. Takes no memory.
    pub(crate) fn give_up(self) {
        let Hand {
            session,
            all,
            count: _,
        } = self;
        session.abandon_together(all);
    }
}

impl Queues for Hand {
    ghost use Rattle.rs_exec.specs.Hands.{core_of, notes_of};

    ghost core = { λ h. core_of h.session.machines h.all.view };

    ghost capacity = { λ h. Some h.session.capacity };

    ghost notes = { λ h. notes_of h.all.view };

    #[inline(always)]
    fn roles(&self) -> usize {
        self.count
    }

    #[inline(always)]
    fn role_at(&self, place: usize) -> Role {
        role_numbered(&self.session, place)
    }

    #[inline(always)]
    fn machine(&self, role: Role) -> &Machine {
        self.session.machine(role)
    }

    #[inline(always)]
    fn state(&self, role: Role) -> u32 {
        self.all.state(role)
    }

    #[inline(always)]
    fn post(
        &mut self,
        role: Role,
        peer: Role,
        _place: u16,
        arm: Arm,
        value: Value,
    ) -> Result<Posted, NoMemory> {
        let parcel = Parcel {
            label: arm.label,
            value,
        };
        match self
            .all
            .put_next(&self.session, role, peer, parcel, arm.next)
        {
            Put::Done => Ok(Posted::Sent),
            Put::Full { parcel, .. } => Ok(Posted::Full(parcel.value)),
        }
    }

    #[inline(always)]
    fn fetch(&mut self, role: Role, peer: Role) -> Option<GotBy> {
        let number = self.all.state(role);
        let arms = arms_at(&self.session, role, number);
        match self.all.take_by(&self.session, role, peer, arms) {
            GotOn::Empty { .. } => None,
            GotOn::One { place, parcel } => {
                let Parcel { label, value } = parcel;
                Some(GotBy {
                    arm: place,
                    message: Message { label, value },
                })
            }
        }
    }
}

/// The arms of the state of that number, at which the role takes.
#[inline(always)]
fn arms_at(session: &Session, role: Role, number: u32) -> &[Arm]
    requires present { role.0 < length session.now.machines }
    requires takes { (peer : Role) × (arms : List Arm) × (state_of (slice_get session.now.machines role.0) number ≡ Some (Takes peer arms)) }
    ensures { (peer : Role) (arms : List Arm) → state_of (slice_get session.now.machines role.0) number ≡ Some (Takes peer arms) → result.now ≡ arms }
{
    match session.machine(role).states.get(number as usize) {
        Some(State::Takes { arms, .. }) => arms.as_slice(),
        _ => unreachable!(),
    }
}

/// The role of the session with that number.
#[inline(always)]
fn role_numbered(session: &Session, number: usize) -> Role
    requires present { number < length session.now.machines }
    requires roles { length session.now.machines ≤ MOST_ROLES }
    ensures { result.0 ≡ number }
{
    Role(number as u8)
}
