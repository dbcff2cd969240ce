//! What the contracts of the table of jobs see. No value of these types is made at run time but the key: a view is a ghost.
use std::collections::LinkedList;

/// What a view counted for one role.
#[derive(Drop)]
pub(crate) struct Count {
    pub(crate) role: u8,
    pub(crate) amount: u64,
}

/// What a seat of the table of jobs knows: the role whose job it holds, the roles that it has counted, the number that it last read of the
/// word of ends, and its shares.
#[derive(Drop)]
pub(crate) struct JobView {
    pub(crate) held: Option<u8>,
    pub(crate) counted: LinkedList<Count>,
    pub(crate) seen: u64,
    pub(crate) shares: u32,
}

/// What stays the same as long as the table of jobs lives. All its views together have this number of shares.
#[derive(Drop)]
pub(crate) struct JobKey {
    pub(crate) roles: u8,
    pub(crate) shares: u32,
}
