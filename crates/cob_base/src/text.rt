ghost use Rattle.std.specs.Prelude.{◌≡◌, IfOk};

use crate::NoMemory;
use std::alloc::Global;
use std::marker::Model;

/// Bytes that contracts see as their list.
#[derive(Debug, Drop)]
pub struct ByteText {
    bytes: Vec<u8>,
}

impl Model for ByteText {
    ghost use Rattle.std.specs.Prelude.{ℕ, List};

    ghost Value = { List ℕ };

    ghost view = { λ text. text.bytes.items };
}

impl ByteText {
    /// A text with these bytes.
    pub fn from_bytes(alloc: Global, bytes: &[u8]) -> Result<ByteText, NoMemory>
        ensures { IfOk result (λ text. text ≡ bytes.now) }
    {
        Ok(ByteText {
            bytes: Vec::from_slice(alloc, bytes)?,
        })
    }

    /// A text of the bytes that a vector has, without a copy.
    pub fn from_vec(bytes: Vec<u8>) -> ByteText
        ensures { result ≡ bytes.items }
    {
        ByteText { bytes }
    }

    /// A text with the same bytes.
    pub fn copy(&self, alloc: Global) -> Result<ByteText, NoMemory>
        ensures { IfOk result (λ text. text ≡ self.now) }
    {
        ByteText::from_bytes(alloc, self.bytes.as_slice())
    }

    /// The bytes.
    pub fn as_bytes(&self) -> &[u8]
        ensures { result.now ≡ self.now }
    {
        self.bytes.as_slice()
    }
}
