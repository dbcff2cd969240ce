//! The states of a role's machine as types.

ghost use Rattle.std.specs.Prelude.{◌≡◌, ℕ, IfOk};
ghost use Rattle.rs_model.specs.Data.{Machine_data};
ghost use Rattle.rs_model.specs.declared.graph.Role.{Role};
ghost use Rattle.rs_model.specs.declared.graph.Label.{Label};
ghost use Rattle.rs_typed.specs.Spots.{HasArmPut, HasArmTaken, HasTwoArmsTaken, IsDone};

use crate::payloads::Payload;
use rs_model::{Arm, Label, Machine, NoMemory};
use std::alloc::Global;
use std::marker::PhantomData;

/// A role by its number. For example `Party<1>` is the second role of a text.
pub struct Party<const ROLE: u8>;

/// A role that is sent to, or received from, as [`Party`] is.
pub trait HasRole {
    ghost ROLE: { Role };
}

impl<const ROLE: u8> HasRole for Party<ROLE> {
    ghost ROLE = { record { 0 = ROLE } };
}

/// A label by its number, with the type of what it carries. For example `Message<1, Octets>` is a message with the second label
/// of a text, and bytes.
pub struct Message<const LABEL: u16, V: Payload> {
    carries: PhantomData<V>,
}

impl<const LABEL: u16, V: Payload> Message<LABEL, V> {
    /// The arm of a state by which the message goes, and after which the role stands in the state `next`. For example
    /// `Message::<1, Octets>::then(4)` is the arm of a text's `copy(bytes)` after which stands state 4.
    pub fn then(next: u32) -> Arm
        ensures { result ≡ record { label = record { 0 = LABEL }; sort = V.SORT; next = next } }
    {
        Arm {
            label: Label(LABEL),
            sort: <V as Payload>::SORT,
            next,
        }
    }
}

/// A label with the type of what it carries, as [`Message`] is.
pub trait HasLabel {
    /// What the message carries.
    type Carries: Payload;

    ghost LABEL: { Label };
}

impl<const LABEL: u16, V: Payload> HasLabel for Message<LABEL, V> {
    type Carries = V;

    ghost LABEL = { record { 0 = LABEL } };
}

/// The machine of one role, whose states are named by types, each a [`Spot`]. For example `Kernel` stands for the machine of
/// the role K in double buffering.
pub trait Typing {
    // The machine that is meant.
    ghost meaning: { Machine_data };

    /// The machine that is meant.
    fn machine(alloc: Global) -> Result<Machine, NoMemory>
        ensures { IfOk result (λ m. m ≡ meaning) };
}

/// A state of a [`Typing`]'s machine. For example `KernelAt<0>` is the state in which K starts: one implementation serves all
/// states of a machine.
///
/// The number stands twice, for the code and for its contracts, and the check proves both equal.
pub trait Spot {
    /// The machine.
    type Of: Typing;

    /// The number of the state.
    const AT: u32;

    ghost AT: { ℕ };
}

/// The state sends to `Peer`, and its arm at place `ARM` has this message and the state of the next spot. For example a state
/// `S!{copy(bytes). X, stop(). end}` has `Puts<0>`, by which it sends `Octets` and goes on to the spot of X, and `Puts<1>`, by
/// which it sends `()` and goes on to the spot of the end.
pub trait Puts<const ARM: u16>: Spot {
    /// To whom it sends.
    type Peer: HasRole;

    /// What it sends.
    type Message: HasLabel;

    /// Where the role stands after it.
    type Next: Spot<Of = <Self as Spot>::Of>;

    ghost puts: { HasArmPut Self.Of.meaning Self.AT Self.Peer.ROLE ARM (record { label = Self.Message.LABEL; sort = Self.Message.Carries.SORT; next = Self.Next.AT }) };
}

/// The state receives from `Peer`, by one arm, which has this message and the state of the next spot. For example a state
/// `T?ready(). X` takes `()` and goes on to the spot of X.
pub trait TakesOne: Spot {
    /// From whom it receives.
    type Peer: HasRole;

    /// What it receives.
    type Message: HasLabel;

    /// Where the role stands after it.
    type Next: Spot<Of = <Self as Spot>::Of>;

    ghost takes: { HasArmTaken Self.Of.meaning Self.AT Self.Peer.ROLE (record { label = Self.Message.LABEL; sort = Self.Message.Carries.SORT; next = Self.Next.AT }) };
}

/// The state receives from `Peer`, by two arms, which are these in order. For example a state
/// `S?{copy(bytes). X, stop(). Y}` takes `Octets` and goes on to the spot of X, or takes `()` and goes on to that of Y.
///
/// A state that receives three or more labels has no typed form: there [`At::into_stage`](crate::At) gives the stage, which is
/// gone on with by hand.
pub trait TakesTwo: Spot {
    /// From whom it receives.
    type Peer: HasRole;

    /// What it receives by the first arm.
    type First: HasLabel;

    /// Where the role stands after it.
    type FirstNext: Spot<Of = <Self as Spot>::Of>;

    /// What it receives by the second arm.
    type Second: HasLabel;

    /// Where the role stands after it.
    type SecondNext: Spot<Of = <Self as Spot>::Of>;

    ghost takes: { HasTwoArmsTaken Self.Of.meaning Self.AT Self.Peer.ROLE (record { label = Self.First.LABEL; sort = Self.First.Carries.SORT; next = Self.FirstNext.AT }) (record { label = Self.Second.LABEL; sort = Self.Second.Carries.SORT; next = Self.SecondNext.AT }) };
}

/// The state is the end of the machine. For example that of a state that is written `end`.
pub trait Finishes: Spot {
    ghost finishes: { IsDone Self.Of.meaning Self.AT };
}
