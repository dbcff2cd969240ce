//! The names of roles and labels.

ghost use Rattle.std.specs.Prelude.{◌≡◌, ℕ, List, IfOk};

use crate::NoMemory;
use std::alloc::Global;
use std::marker::Model;

/// The bytes of a role's or a label's name.
#[derive(Drop, Debug)]
pub struct Name {
    bytes: Vec<u8>,
}

impl Model for Name {
    ghost Value = { List ℕ };

    ghost view = { λ n. n.bytes.items };
}

impl Name {
    /// A copy of the bytes.
    pub fn of(alloc: Global, bytes: &[u8]) -> Result<Name, NoMemory>
        ensures { IfOk result (λ n. n ≡ bytes.now) }
    {
        Ok(Name {
            bytes: Vec::from_slice(alloc, bytes)?,
        })
    }

    /// The bytes of the name.
    pub fn as_slice(&self) -> &[u8]
        ensures { result.now ≡ self.now }
    {
        self.bytes.as_slice()
    }
}

/// The names of a document: that of role `r` is at place `r` of `roles`, that of label `l` at place `l` of `labels`.
#[derive(Drop, Debug)]
pub struct Names {
    pub roles: Vec<Name>,
    pub labels: Vec<Name>,
}

impl Model for Names {
    ghost use Rattle.rs_model.specs.Data.{Names_data};

    ghost Value = { Names_data };

    ghost view = { λ n. record { roles = n.roles.items; labels = n.labels.items } };
}
