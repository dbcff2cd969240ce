//! What the talkers of the demos hold.

ghost use Rattle.std.specs.Prelude.{◌≡◌, ◌++◌, [], IfOk, OnErr, OnOk};
ghost use Rattle.rs_demos.specs.Acting.{behind_piece, piece_of};

use rs_model::{NoMemory, Octets};
use rs_text::Text;
use std::alloc::Global;
use std::marker::Model;

/// The bytes of a piece; the last one may have fewer.
pub const PIECE_BYTES: usize = 4_096;

/// A role that sends bytes piece by piece: seen as the bytes that it has still to send.
#[derive(Drop, Debug)]
pub struct PieceSource {
    bytes: Vec<u8>,
    sent: usize,
}

impl Model for PieceSource {
    ghost use Rattle.std.specs.Prelude.{ℕ, ◌≤◌, List, drop, length};

    ghost Value = { List ℕ };

    ghost view = { λ s. drop s.sent s.bytes.items };

    ghost invariant = { λ s. s.sent ≤ length s.bytes.items };
}

impl PieceSource {
    pub(crate) fn new(alloc: Global, bytes: &[u8]) -> Result<PieceSource, NoMemory>
        ensures { IfOk result (λ s. s ≡ bytes.now) }
    {
        Ok(PieceSource {
            bytes: Vec::from_slice(alloc, bytes)?,
            sent: 0,
        })
    }

    /// The bytes that are left.
    pub fn left(&self) -> &[u8]
        ensures { result.now ≡ self.now }
    {
        self.bytes.as_slice().split_at(self.sent).1
    }

    /// Takes the next piece off, and returns a copy of it. If memory runs out, it fails, and nothing is taken.
    pub(crate) fn send_piece(&mut self, alloc: Global) -> Result<Octets, NoMemory>
        ensures ok { IfOk result (λ o. o ≡ piece_of self.old) }
        ensures left { OnOk result (self.new ≡ behind_piece self.old) }
        ensures err { OnErr result (self.new ≡ self.old) }
    {
        let piece = first_piece(self.left());
        let many = piece.len();
        let piece = Octets::of(alloc, piece)?;
        self.sent += many;
        Ok(piece)
    }
}

fn first_piece(bytes: &[u8]) -> &[u8]
    ensures { result.now ≡ piece_of bytes.now }
{
    if bytes.len() < PIECE_BYTES {
        bytes
    } else {
        bytes.split_at(PIECE_BYTES).0
    }
}

/// The role that turns pieces over: the piece that it holds for the sink, if any, each byte of it inverted.
#[derive(Drop, Debug)]
pub struct Kernel {
    pub piece: Option<Octets>,
}

/// A role that joins the pieces that come: seen as the bytes so far.
#[derive(Drop, Debug)]
pub struct PieceSink {
    bytes: Text,
}

impl Model for PieceSink {
    ghost use Rattle.std.specs.Prelude.{ℕ, List};

    ghost Value = { List ℕ };

    ghost view = { λ s. s.bytes };
}

impl PieceSink {
    // With room for n bytes.
    pub(crate) fn with_capacity(alloc: Global, capacity: usize) -> Result<PieceSink, NoMemory>
        ensures { IfOk result (λ s. s ≡ []) }
    {
        Ok(PieceSink {
            bytes: Text::with_capacity(alloc, capacity)?,
        })
    }

    /// Appends a piece. If memory runs out, it fails, and nothing changes.
    pub(crate) fn append(&mut self, piece: &[u8]) -> Result<(), NoMemory>
        ensures ok { OnOk result (self.new ≡ self.old ++ piece.now) }
        ensures err { OnErr result (self.new ≡ self.old) }
    {
        self.bytes.push(piece)
    }

    /// The bytes that have come.
    pub fn as_slice(&self) -> &[u8]
        ensures { result.now ≡ self.now }
    {
        self.bytes.as_slice()
    }

    pub(crate) fn into_text(self) -> Text
        ensures { result ≡ self }
    {
        self.bytes
    }
}

/// A role of the ring: the number that came last, at first its own, and the sum of its own and all that came.
#[derive(Clone, Copy, Debug, PartialEq, Eq)]
pub struct RingMember {
    pub last: i64,
    pub sum: i64,
}

/// A role of the butterfly: the bits of its number, lowest first, without those of the rounds that are over, and the number
/// that it holds.
#[derive(Clone, Copy, Debug, PartialEq, Eq)]
pub struct ButterflyMember {
    pub bits: usize,
    pub held: i64,
}
