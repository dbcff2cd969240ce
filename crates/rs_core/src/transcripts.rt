//! What roles did: entries and transcripts.
ghost use Rattle.std.specs.Prelude.{◌≡◌, ◌++◌, ◌∷◌, [], length, OnErr, OnOk};

use rs_model::{Label, NoMemory, Role, Value};
use std::alloc::Global;
use std::marker::Model;

/// What a role did: it sent a message to a peer, or it got one from a peer. The value of a send went to the receiver.
#[derive(Drop, Debug)]
pub enum Entry {
    Sent {
        peer: Role,
        label: Label,
    },
    Got {
        peer: Role,
        label: Label,
        value: Value,
    },
}

/// What a role did, in its own order.
#[derive(Drop, Debug)]
pub struct Transcript {
    entries: Vec<Entry>,
}

impl Model for Transcript {
    ghost use Rattle.std.specs.Prelude.{List};
    ghost use Rattle.rs_core.specs.declared.transcripts.Entry.{Entry};

    ghost Value = { List Entry };

    ghost view = { λ t. t.entries.items };
}

impl Transcript {
    /// The transcript with these entries.
    pub fn of(list: Vec<Entry>) -> Transcript
        ensures { result ≡ list.items }
    {
        Transcript { entries: list }
    }

    /// The entries, the first act first.
    pub fn as_slice(&self) -> &[Entry]
        ensures { result.now ≡ self.now }
    {
        self.entries.as_slice()
    }

    pub(crate) fn new(alloc: Global) -> Transcript
        ensures { result ≡ [] }
    {
        Transcript {
            entries: Vec::new(alloc),
        }
    }

    #[inline(always)]
    pub(crate) fn push(&mut self, entry: Entry) -> Result<(), NoMemory>
        ensures ok { OnOk result (self.new ≡ self.old ++ entry ∷ []) }
        ensures err { OnErr result (self.new ≡ self.old) }
    {
        self.entries.reserve(1)?;
        self.entries.push_reserved(entry);
        Ok(())
    }

    pub(crate) fn len(&self) -> usize
        ensures { result ≡ length self.now }
    {
        self.entries.len()
    }
}

/// The transcripts of all roles, in role order.
#[derive(Drop, Debug)]
pub struct Transcripts {
    items: Vec<Transcript>,
}

impl Model for Transcripts {
    ghost use Rattle.std.specs.Prelude.{List};
    ghost use Rattle.rs_core.specs.declared.transcripts.Entry.{Entry};

    ghost Value = { List (List Entry) };

    ghost view = { λ t. t.items.items };
}

impl Transcripts {
    /// These transcripts, the first one that of role 0.
    pub fn of(list: Vec<Transcript>) -> Transcripts
        ensures { result ≡ list.items }
    {
        Transcripts { items: list }
    }

    /// The transcripts, in role order.
    pub fn as_slice(&self) -> &[Transcript]
        ensures { result.now ≡ self.now }
    {
        self.items.as_slice()
    }
}
