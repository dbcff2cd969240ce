//! Protocols as graphs of numbered nodes.

ghost use Rattle.std.specs.Prelude.{◌≡◌, ◌↔◌, [], ◌∷◌, ◌++◌, IfOk, IsTrue, OnOk, OnErr};

use crate::{NoMemory, Sort};
use smallvec::SmallVec;
use std::alloc::Global;
use std::marker::Model;

/// A participant, by its place in the roles line, from 0.
#[derive(Clone, Copy, Debug, PartialEq, Eq)]
pub struct Role(pub u8);

/// A label, by its place among the labels of its document, from 0.
#[derive(Clone, Copy, Debug, PartialEq, Eq)]
pub struct Label(pub u16);

/// One alternative of a talk or of a state: a label, the sort of the payload, and the number of the node or state
/// behind it.
#[derive(Clone, Copy, Debug, PartialEq, Eq)]
pub struct Arm {
    pub label: Label,
    pub sort: Sort,
    pub next: u32,
}

impl Default for Arm {
    /// An arm without a payload that leads to number 0, which stands at the unused places of lists that keep a few arms in
    /// the value itself.
    fn default() -> Arm {
        Arm {
            label: Label(0),
            sort: Sort::Unit,
            next: 0,
        }
    }
}

/// The alternatives of a talk or of a state, in the order of the text. One or two of them need no allocation.
#[derive(Drop, Debug)]
pub struct Arms {
    items: SmallVec<Arm, 2>,
}

impl Model for Arms {
    ghost use Rattle.std.specs.Prelude.{List};
    ghost use Rattle.rs_model.specs.declared.graph.Arm.{Arm};

    ghost Value = { List Arm };

    ghost view = { λ a. a.items.items };
}

impl Arms {
    /// No arms.
    pub fn new(alloc: Global) -> Arms
        ensures { result ≡ [] }
    {
        Arms {
            items: SmallVec::new(alloc),
        }
    }

    /// One arm, which needs no allocation.
    #[inline]
    pub fn of_one(alloc: Global, arm: Arm) -> Arms
        ensures { result ≡ arm ∷ [] }
    {
        let mut items = SmallVec::new(alloc);
        items.push_reserved(arm);
        Arms { items }
    }

    /// No arms, with room for so many.
    pub fn with_capacity(alloc: Global, room: usize) -> Result<Arms, NoMemory>
        ensures { IfOk result (λ a. a ≡ []) }
    {
        Ok(Arms {
            items: SmallVec::with_capacity(alloc, room)?,
        })
    }

    /// Appends an arm; where memory is refused nothing changes.
    pub fn push(&mut self, arm: Arm) -> Result<(), NoMemory>
        ensures ok { OnOk result (self.new ≡ self.old ++ arm ∷ []) }
        ensures err { OnErr result (self.new ≡ self.old) }
    {
        self.items.push(arm)?;
        Ok(())
    }

    /// The arms, in order.
    pub fn as_slice(&self) -> &[Arm]
        ensures { result.now ≡ self.now }
    {
        self.items.as_slice()
    }

    /// The same arms in memory of their own.
    #[inline]
    pub fn copy(&self, alloc: Global) -> Result<Arms, NoMemory>
        ensures { IfOk result (λ a. a ≡ self.now) }
    {
        match self.as_slice() {
            [arm] => Ok(Arms::of_one(alloc, *arm)),
            arms => Arms::of(alloc, arms),
        }
    }

    // Apart from `copy`, so that the copy of one arm is made in place.
    #[inline(never)]
    fn of(alloc: Global, arms: &[Arm]) -> Result<Arms, NoMemory>
        ensures { IfOk result (λ a. a ≡ arms.now) }
    {
        Ok(Arms {
            items: SmallVec::from_slice(alloc, arms)?,
        })
    }

    /// Whether the arms are equal, one by one and in order.
    pub fn same(&self, other: &Arms) -> bool
        ensures { IsTrue result ↔ (self.now ≡ other.now) }
    {
        self.as_slice() == other.as_slice()
    }
}

/// A node of a protocol: its end, or one talk with its alternatives.
#[derive(Drop, Debug)]
pub enum Node {
    Finished,
    Talk {
        sender: Role,
        receiver: Role,
        arms: Arms,
    },
}

/// A protocol among `roles` participants (a global type as a graph): its nodes, numbered by their places, and the
/// number of the first one.
#[derive(Drop, Debug)]
pub struct Protocol {
    pub roles: u8,
    pub nodes: Vec<Node>,
    pub root: u32,
}

impl Model for Protocol {
    ghost use Rattle.rs_model.specs.Data.{Protocol_data};

    ghost Value = { Protocol_data };

    ghost view = { λ p. record { roles = p.roles; nodes = p.nodes.items; root = p.root } };
}
