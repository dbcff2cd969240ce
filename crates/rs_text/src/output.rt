//! The buffer that a text is written into.

ghost use Rattle.std.specs.Prelude.{◌≡◌, ◌<◌, ◌+◌, [], ◌∷◌, ◌++◌, OnOk, OnErr, IfOk};
ghost use Rattle.std.specs.Fmt.{decimal};

use itoa::Buffer;
use rs_model::NoMemory;
use std::alloc::Global;
use std::marker::Model;

/// A buffer that a text is written into.
#[derive(Drop, Debug)]
pub struct Text {
    bytes: Vec<u8>,
}

impl Model for Text {
    ghost use Rattle.std.specs.Prelude.{ℕ, List};

    ghost Value = { List ℕ };

    ghost view = { λ t. t.bytes.items };
}

impl Text {
    /// An empty text.
    pub fn new(alloc: Global) -> Text
        ensures { result ≡ [] }
    {
        Text {
            bytes: Vec::new(alloc),
        }
    }

    /// An empty text with room for so many bytes.
    pub fn with_capacity(alloc: Global, capacity: usize) -> Result<Text, NoMemory>
        ensures { IfOk result (λ t. t ≡ []) }
    {
        let bytes = Vec::with_capacity(alloc, capacity)?;
        Ok(Text { bytes })
    }

    /// Appends bytes; where memory is refused nothing changes.
    #[inline(always)]
    pub fn push(&mut self, bytes: &[u8]) -> Result<(), NoMemory>
        ensures ok { OnOk result (self.new ≡ self.old ++ bytes.now) }
        ensures err { OnErr result (self.new ≡ self.old) }
    {
        match bytes {
            [byte] => self.push_byte(*byte),
            _ => self.push_all(bytes),
        }
    }

    #[inline(always)]
    fn push_byte(&mut self, byte: u8) -> Result<(), NoMemory>
        ensures ok { OnOk result (self.new ≡ self.old ++ byte ∷ []) }
        ensures err { OnErr result (self.new ≡ self.old) }
    {
        self.bytes.push(byte)?;
        Ok(())
    }

    fn push_all(&mut self, bytes: &[u8]) -> Result<(), NoMemory>
        ensures ok { OnOk result (self.new ≡ self.old ++ bytes.now) }
        ensures err { OnErr result (self.new ≡ self.old) }
    {
        self.bytes.extend_from_slice(bytes)?;
        Ok(())
    }

    /// Appends a number in decimal; where memory is refused nothing changes.
    pub fn push_number(&mut self, n: u64) -> Result<(), NoMemory>
        ensures ok { OnOk result (self.new ≡ self.old ++ decimal n) }
        ensures err { OnErr result (self.new ≡ self.old) }
    {
        if n < 10 {
            return self.push_byte(digit(n));
        }
        if n < 100 {
            return self.push_all(&[digit(n / 10), digit(n % 10)]);
        }
        let mut digits = Buffer::new();
        self.push_all(digits.format(n).as_bytes())
    }

    /// The bytes of the text.
    pub fn as_slice(&self) -> &[u8]
        ensures { result.now ≡ self.now }
    {
        self.bytes.as_slice()
    }
}

#[inline(always)]
fn digit(n: u64) -> u8
    requires { n < 10 }
    ensures { result ≡ 48 + n }
{
    b'0' + n as u8
}
