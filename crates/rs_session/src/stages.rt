//! Where a role of a session stands, by what it may do next; and what its acts answer.
ghost use Rattle.std.specs.Prelude.{◌≡◌, ◌<◌, ◌^◌, length};
ghost use Rattle.rs_model.specs.declared.limits.TheConstants.{MOST_ROLES};
ghost use Rattle.rs_rings.specs.Acts.{parcels_sent};
ghost use Rattle.rs_session.specs.Acts.{SendsBy, RoomTells, SendTells, ReceiveTells};
ghost use Rattle.rs_session.specs.Stages.{IsReceiving, IsSending, sight_of_stage};

use crate::sessions::Session;
use crate::standing::{ParcelFound, Standing};
use rs_model::{Arm, Role, Value};
use rs_rings::Put;
use rs_slots::Parcel;
use std::marker::Model;

/// A role of a session that stands at a state which sends. It must be spent.
pub struct Sending {
    pub(crate) standing: Standing,
}

impl Model for Sending {
    ghost use Rattle.rs_session.specs.Data.{Stage_data};

    ghost Value = { Stage_data };

    ghost view = { λ s. s.standing };
}

/// A role of a session that stands at a state which receives. It must be spent.
pub struct Receiving {
    pub(crate) standing: Standing,
}

impl Model for Receiving {
    ghost use Rattle.rs_session.specs.Data.{Stage_data};

    ghost Value = { Stage_data };

    ghost view = { λ s. s.standing };
}

/// A role of a session that stands at the end of its machine. It must be spent.
pub struct Ended {
    pub(crate) standing: Standing,
}

impl Model for Ended {
    ghost use Rattle.rs_session.specs.Data.{Stage_data};

    ghost Value = { Stage_data };

    ghost view = { λ s. s.standing };
}

/// A role of a session, which only who holds its stage can act for.
pub enum Stage {
    Sending(Sending),
    Receiving(Receiving),
    Ended(Ended),
}

/// What a send did.
pub enum Sent {
    /// The value was sent, and the role stands at the next stage.
    Went(Stage),
    /// The ring was full: the role has sent `sent` values to this receiver, of which the receiver had taken `taken` when this
    /// call looked, the capacity less. The stage and the value come back.
    Full {
        stage: Sending,
        value: Value,
        sent: u64,
        taken: u64,
    },
}

/// What a receive did.
pub enum Taken {
    /// The value was got by the arm at that place, and the role stands at the next stage.
    Got {
        arm: u16,
        value: Value,
        stage: Stage,
    },
    /// The ring was empty: the sender had sent `seen` values when this call looked, and the role has got them all. The stage
    /// comes back.
    Empty {
        stage: Receiving,
        seen: u64,
    },
}

/// A role of a session that was left where it stood.
///
/// It must be spent: [`Session::close_left`](crate::Session::close_left) takes those of all roles and ends the session. The one
/// other way is [`Left::give_up`], after which the session can't be ended any more.
pub struct Left {
    pub(crate) standing: Standing,
}

impl Model for Left {
    ghost use Rattle.rs_session.specs.Data.{Stage_data};

    ghost Value = { Stage_data };

    ghost view = { λ s. s.standing };
}

impl Sending {
    /// The role that it stands for.
    #[inline(always)]
    pub fn role(&self) -> Role
        ensures { result ≡ self.now.role }
    {
        self.standing.role()
    }

    /// The number of the state at which the role stands.
    #[inline(always)]
    pub fn state(&self) -> u32
        ensures { result ≡ self.now.part.state }
    {
        self.standing.state()
    }

    /// How many acts the role has made.
    pub fn acts(&self) -> u64
        ensures { result ≡ length self.now.part.history }
    {
        self.standing.acts()
    }

    /// Whether the ring to the state's peer has room for a value. It looks once at the ring, and takes no memory.
    ///
    /// Nothing changes but what is known of the ring. Only this role sends into it: so after the answer `true` the next send
    /// isn't answered by [`Sent::Full`] ([`seen_room_stays`](crate::laws::seen_room_stays)). A value that is costly to make need
    /// not be made while there is no room.
    #[inline(always)]
    pub fn has_room(&mut self, session: &Session) -> bool
        requires of { IsSending session.now self.old }
        requires acts { length self.old.part.history < 2 ^ 63 }
        ensures told { RoomTells session.now self.old self.new result }
    {
        let peer = session.sending_peer(&self.standing);
        self.standing.has_room(session.rings(), peer)
    }

    /// Sends the value by the arm at that place of the state. It looks once at the ring to the state's peer, and takes no memory.
    ///
    /// Where the ring has room the role goes on to the arm's next state. Else the stage and the value come back, and nothing
    /// has changed but what is known of the ring.
    #[inline(always)]
    pub fn send(self, session: &Session, arm: u16, value: Value) -> Sent
        requires table { self.table ≡ session.now.table }
        requires arm { SendsBy session.now self arm value }
        requires acts { length self.part.history < 2 ^ 63 }
        ensures told { SendTells session.now self arm value result }
    {
        let (peer, by) = session.sending_arm(&self.standing, arm);
        self.send_by(session, peer, arm, by, value)
    }

    /// Sends the value to the state's peer by the arm, which stands at that place of the state and is at hand.
    ///
    /// The outcome is that of [`Sending::send`]. The state isn't looked up.
    #[inline(always)]
    pub fn send_by(self, session: &Session, peer: Role, place: u16, arm: Arm, value: Value) -> Sent
        requires table { self.table ≡ session.now.table }
        requires by { (by : SendsBy session.now self place value) × (by.peer ≡ peer) × (by.arm ≡ arm) }
        requires acts { length self.part.history < 2 ^ 63 }
        ensures told { SendTells session.now self place value result }
    {
        let Sending { standing } = self;
        let mut standing = standing;
        let parcel = Parcel {
            label: arm.label,
            value,
        };
        match standing.put(session.rings(), peer, parcel, arm.next) {
            Put::Done => Sent::Went(session.stage(standing)),
            Put::Full {
                sent,
                taken,
                parcel,
            } => Sent::Full {
                stage: Sending { standing },
                value: parcel.value,
                sent,
                taken,
            },
        }
    }
}

impl Receiving {
    /// The role that it stands for.
    #[inline(always)]
    pub fn role(&self) -> Role
        ensures { result ≡ self.now.role }
    {
        self.standing.role()
    }

    /// The number of the state at which the role stands.
    #[inline(always)]
    pub fn state(&self) -> u32
        ensures { result ≡ self.now.part.state }
    {
        self.standing.state()
    }

    /// How many acts the role has made.
    pub fn acts(&self) -> u64
        ensures { result ≡ length self.now.part.history }
    {
        self.standing.acts()
    }

    /// Receives the oldest value that is under way from the state's peer. It looks once at the ring, and takes no memory.
    ///
    /// Where a value is there the role goes on by the arm with its label. Else the stage comes back, and nothing has changed
    /// but what is known of the ring.
    #[inline(always)]
    pub fn receive(self, session: &Session) -> Taken
        requires of { IsReceiving session.now self }
        requires acts { length self.part.history < 2 ^ 63 }
        ensures told { ReceiveTells session.now self result }
    {
        let (peer, arms) = session.receiving_arms(&self.standing);
        self.receive_by(session, peer, arms)
    }

    /// Receives the oldest value that is under way from the peer. Peer and arms are the state's own, at hand.
    ///
    /// The outcome is that of [`Receiving::receive`]. The state isn't looked up.
    #[inline(always)]
    pub fn receive_by(self, session: &Session, peer: Role, arms: &[Arm]) -> Taken
        requires of { (of : IsReceiving session.now self) × (of.peer ≡ peer) × (of.arms ≡ arms.now) }
        requires acts { length self.part.history < 2 ^ 63 }
        ensures told { ReceiveTells session.now self result }
    {
        let Receiving { standing } = self;
        let mut standing = standing;
        match standing.look_take(session.rings(), peer, arms) {
            ParcelFound::One { arm, value } => Taken::Got {
                arm,
                value,
                stage: session.stage(standing),
            },
            ParcelFound::Nothing { seen } => Taken::Empty {
                stage: Receiving { standing },
                seen,
            },
        }
    }
}

impl Ended {
    /// The role that it stands for.
    pub fn role(&self) -> Role
        ensures { result ≡ self.now.role }
    {
        self.standing.role()
    }

    /// The number of the state at which the role stands.
    pub fn state(&self) -> u32
        ensures { result ≡ self.now.part.state }
    {
        self.standing.state()
    }

    /// How many acts the role has made.
    pub fn acts(&self) -> u64
        ensures { result ≡ length self.now.part.history }
    {
        self.standing.acts()
    }
}

impl Stage {
    /// The role that it stands for.
    pub fn role(&self) -> Role
        ensures { result ≡ (sight_of_stage self.now).role }
    {
        match self {
            Stage::Sending(stage) => stage.role(),
            Stage::Receiving(stage) => stage.role(),
            Stage::Ended(stage) => stage.role(),
        }
    }

    /// Leaves the role where it stands: it acts no more, and is kept for [`Session::close_left`]. Takes no memory.
    pub fn leave(self) -> Left
        ensures { result ≡ sight_of_stage self }
    {
        match self {
            Stage::Sending(stage) => {
                let Sending { standing } = stage;
                Left { standing }
            }
            Stage::Receiving(stage) => {
                let Receiving { standing } = stage;
                Left { standing }
            }
            Stage::Ended(stage) => {
                let Ended { standing } = stage;
                Left { standing }
            }
        }
    }
}

impl Left {
    /// The role that it stands for.
    pub fn role(&self) -> Role
        ensures { result ≡ self.now.role }
    {
        self.standing.role()
    }

    /// The number of the state at which the role stands.
    pub fn state(&self) -> u32
        ensures { result ≡ self.now.part.state }
    {
        self.standing.state()
    }

    /// How many messages the role has sent to the peer.
    pub fn sent(&self, peer: Role) -> u64
        requires peer { peer.0 < MOST_ROLES }
        ensures { result ≡ length (parcels_sent peer.0 self.now.part.history) }
    {
        self.standing.sent(peer)
    }

    /// Gives the role up for good: nobody can act for it any more, and its session can't be ended.
    ///
    /// For roles whose holder the compiler can't watch, such as a program in another language. Who receives from the role may
    /// then wait for ever.
    pub fn give_up(self) {
        let Left { standing } = self;
        standing.into_pass().give_up();
    }
}
