//! Roles of a session that stand at spots, and what they do there.

ghost use Rattle.std.specs.Prelude.{◌≡◌, ◌<◌, ◌^◌, length, IfOk, IfErr};
ghost use Rattle.rs_rings.specs.Passes.{Rings_data};
ghost use Rattle.rs_session.specs.Stages.{IsEnded, IsOf, sight_of_stage};
ghost use Rattle.rs_session.specs.declared.stages.Stage.TheVariants as stage;
ghost use Rattle.rs_typed.specs.Endpoints.{CanEnter, IsEndpoint};
ghost use Rattle.rs_typed.specs.Tells.{SentTells, OneTells, TwoTells};

use crate::answers::{TypedOne, TypedSent, TypedTwo};
use crate::payloads::Payload;
use crate::spots::{Finishes, HasLabel, Puts, Spot, TakesOne, TakesTwo};
use rs_model::Machine;
use rs_session::{Ended, Sent, Session, Stage, Taken};
use std::marker::{Model, PhantomData};

/// A role of a session that stands at the spot. It must be spent. For example `At<Begun>` is the kernel of double buffering where
/// it starts, and `at.send::<0>(&session, ())` is the one act that it has there.
///
/// It keeps in its type that it stands at the state of the spot. Which session it is of, whose machine of the role is the one
/// that the spot's `Typing` means, is a condition of each act, and each act says it of the endpoint that comes back.
pub struct At<S: Spot> {
    stage: Stage,
    spot: PhantomData<S>,
}

impl<S: Spot> Model for At<S> {
    ghost use Rattle.rs_session.specs.declared.stages.Stage.{Stage};
    ghost use Rattle.rs_typed.specs.Endpoints.{StandsAt};

    ghost Value = { Stage };

    ghost view = { λ a. a.stage };

    ghost invariant = { λ a. StandsAt S.Of.meaning S.AT a.stage };
}

impl<S: Spot> At<S> {
    /// The stage as an endpoint at the spot; `machine` is that of the spot's `Typing`. For example
    /// `At::<Begun>::enter(&session, &Kernel::machine(alloc)?, stage)`.
    ///
    /// The stage comes back where it is of another role, stands in another state, or the session's machine of the role is another.
    pub fn enter(session: &Session, machine: &Machine, stage: Stage) -> Result<At<S>, Stage>
        requires of { IsOf session.now stage }
        requires machine { machine.now ≡ S.Of.meaning }
        ensures ok { IfOk result (λ at. (at ≡ stage) × CanEnter session.now S.Of.meaning S.AT stage) }
        ensures is { IfOk result (IsEndpoint session.now S.Of.meaning) }
        ensures err { IfErr result (λ back. (back ≡ stage) × (CanEnter session.now S.Of.meaning S.AT stage → ⊥)) }
    {
        let role = stage.role();
        if role == machine.role
            && state_of(&stage) == <S as Spot>::AT
            && session.machine(role).same(machine)
        {
            Ok(At {
                stage,
                spot: PhantomData,
            })
        } else {
            Err(stage)
        }
    }

    /// How many acts the role has made.
    pub fn acts(&self) -> u64
        ensures { result ≡ length (sight_of_stage self.now).part.history }
    {
        match &self.stage {
            Stage::Sending(stage) => stage.acts(),
            Stage::Receiving(stage) => stage.acts(),
            Stage::Ended(stage) => stage.acts(),
        }
    }

    /// Sends the value by the arm at place `ARM` of the state, as `Sending::send` does. For example `at.send::<1>(&session, ())`.
    ///
    /// If the ring to the peer has room, the role goes on to the arm's spot. Otherwise the endpoint and the value come back.
    pub fn send<const ARM: u16>(
        self,
        session: &Session,
        value: <<S as Puts<ARM>>::Message as HasLabel>::Carries,
    ) -> TypedSent<S, <S as Puts<ARM>>::Next, <<S as Puts<ARM>>::Message as HasLabel>::Carries>
    where
        S: Puts<ARM>,
        requires of { IsEndpoint session.now S.Of.meaning self }
        requires acts { length (sight_of_stage self).part.history < 2 ^ 63 }
        ensures told { SentTells session.now S.Of.meaning S.Peer.ROLE self S.Message.Carries.packed ARM (record { label = S.Message.LABEL; sort = S.Message.Carries.SORT; next = S.Next.AT }) value result }
    {
        let At { stage, spot: _ } = self;
        match stage {
            Stage::Sending(sending) => match sending.send(session, ARM, value.pack()) {
                Sent::Went(stage) => TypedSent::Went(At {
                    stage,
                    spot: PhantomData,
                }),
                Sent::Full {
                    stage,
                    value,
                    sent,
                    taken,
                } => TypedSent::Full {
                    at: At {
                        stage: Stage::Sending(stage),
                        spot: PhantomData,
                    },
                    value: <<<S as Puts<ARM>>::Message as HasLabel>::Carries as Payload>::unpack(
                        value,
                    ),
                    sent,
                    taken,
                },
            },
            _ => unreachable!(),
        }
    }

    /// Receives the oldest value that is under way from the spot's peer, as `Receiving::receive` does. For example
    /// `match at.receive(&session) { TypedOne::Got(copy, at) => .., TypedOne::Empty { at, .. } => .. }`.
    ///
    /// If there is a value, the role goes on to the next spot. Otherwise the endpoint comes back.
    pub fn receive(
        self,
        session: &Session,
    ) -> TypedOne<S, <S as TakesOne>::Next, <<S as TakesOne>::Message as HasLabel>::Carries>
    where
        S: TakesOne,
        requires of { IsEndpoint session.now S.Of.meaning self }
        requires acts { length (sight_of_stage self).part.history < 2 ^ 63 }
        ensures told { OneTells session.now S.Of.meaning S.Peer.ROLE self S.Message.Carries.unpacked (record { label = S.Message.LABEL; sort = S.Message.Carries.SORT; next = S.Next.AT }) result }
    {
        let At { stage, spot: _ } = self;
        match stage {
            Stage::Receiving(receiving) => match receiving.receive(session) {
                Taken::Got {
                    arm: _,
                    value,
                    stage,
                } => TypedOne::Got(
                    <<<S as TakesOne>::Message as HasLabel>::Carries as Payload>::unpack(value),
                    At {
                        stage,
                        spot: PhantomData,
                    },
                ),
                Taken::Empty { stage, seen } => TypedOne::Empty {
                    at: At {
                        stage: Stage::Receiving(stage),
                        spot: PhantomData,
                    },
                    seen,
                },
            },
            _ => unreachable!(),
        }
    }

    /// Receives the oldest value that is under way from the spot's peer, by one of the spot's two arms. For example
    /// `match at.receive_two(&session) { TypedTwo::First(copy, at) => .., TypedTwo::Second((), at) => .., TypedTwo::Empty { at, .. } => .. }`.
    ///
    /// If there is a value, the role goes on to the spot after the arm with its label. Otherwise the endpoint comes back.
    pub fn receive_two(
        self,
        session: &Session,
    ) -> TypedTwo<
        S,
        <S as TakesTwo>::FirstNext,
        <<S as TakesTwo>::First as HasLabel>::Carries,
        <S as TakesTwo>::SecondNext,
        <<S as TakesTwo>::Second as HasLabel>::Carries,
    >
    where
        S: TakesTwo,
        requires of { IsEndpoint session.now S.Of.meaning self }
        requires acts { length (sight_of_stage self).part.history < 2 ^ 63 }
        ensures told { TwoTells session.now S.Of.meaning S.Peer.ROLE self S.First.Carries.unpacked (record { label = S.First.LABEL; sort = S.First.Carries.SORT; next = S.FirstNext.AT }) S.Second.Carries.unpacked (record { label = S.Second.LABEL; sort = S.Second.Carries.SORT; next = S.SecondNext.AT }) result }
    {
        let At { stage, spot: _ } = self;
        match stage {
            Stage::Receiving(receiving) => match receiving.receive(session) {
                Taken::Got {
                    arm: 0,
                    value,
                    stage,
                } => TypedTwo::First(
                    <<<S as TakesTwo>::First as HasLabel>::Carries as Payload>::unpack(value),
                    At {
                        stage,
                        spot: PhantomData,
                    },
                ),
                Taken::Got {
                    arm: _,
                    value,
                    stage,
                } => TypedTwo::Second(
                    <<<S as TakesTwo>::Second as HasLabel>::Carries as Payload>::unpack(value),
                    At {
                        stage,
                        spot: PhantomData,
                    },
                ),
                Taken::Empty { stage, seen } => TypedTwo::Empty {
                    at: At {
                        stage: Stage::Receiving(stage),
                        spot: PhantomData,
                    },
                    seen,
                },
            },
            _ => unreachable!(),
        }
    }

    /// The ended stage, at a spot that is the end of the machine. For example `ended.push(at.finish())`, for `Session::close`.
    pub fn finish(self) -> Ended
    where
        S: Finishes,
        ensures same { self ≡ stage.Ended result }
        ensures role { result.role ≡ S.Of.meaning.role }
        ensures ended { (session : Rings_data) → IsEndpoint session S.Of.meaning self → IsEnded session result }
    {
        let At { stage, spot: _ } = self;
        match stage {
            Stage::Ended(ended) => ended,
            _ => unreachable!(),
        }
    }

    /// The stage as it stands, so that the session can be given up, or gone on with by hand. For example
    /// `stages.push(at.into_stage())`, for `Session::abandon`.
    pub fn into_stage(self) -> Stage
        ensures same { result ≡ self }
        ensures of { (session : Rings_data) → IsEndpoint session S.Of.meaning self → IsOf session result }
    {
        let At { stage, spot: _ } = self;
        stage
    }
}

/// The number of the state at which the stage's role stands.
fn state_of(stage: &Stage) -> u32
    ensures { result ≡ (sight_of_stage stage.now).part.state }
{
    match stage {
        Stage::Sending(stage) => stage.state(),
        Stage::Receiving(stage) => stage.state(),
        Stage::Ended(stage) => stage.state(),
    }
}
