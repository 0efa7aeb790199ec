//! Words.

ghost use Rattle.std.specs.Prelude.{◌≡◌, ◌≤◌, IsTrue, length};
ghost use Rattle.std.specs.List.{list_all};
ghost use Rattle.tie_desc.specs.Names.{is_word_byte, padded};

use std::marker::Model;

/// Letters, digits and `_`, at most 32 bytes.
#[derive(Clone, Copy, PartialEq, Eq)]
pub struct Word {
    bytes: [u8; 32],
    len: u8,
}

impl Model for Word {
    ghost use Rattle.std.specs.Prelude.{◌≡◌, ◌≤◌, ℕ, List, length, take, IsTrue};
    ghost use Rattle.std.specs.List.{list_all};
    ghost use Rattle.tie_desc.specs.Names.{is_word_byte, padded};

    ghost Value = { List ℕ };

    ghost view = { λ n. take n.len n.bytes };

    ghost invariant = { λ n. (n.len ≤ 32) × (n.bytes ≡ padded (take n.len n.bytes)) × IsTrue (list_all is_word_byte (take n.len n.bytes)) };

    ghost inverse = { λ bytes. record { bytes = padded bytes; len = length bytes } };

    ghost use Rattle.asm_lines.specs.KeptWord.{kept_again};

    ghost inverse_ok = { kept_again };
}

/// The bytes, filled to 32 with zeros.
fn padded(bytes: &[u8]) -> [u8; 32]
    requires { length bytes.now ≤ 32 }
    ensures { result ≡ padded bytes.now }
{
    let mut kept = [0; 32];
    kept[..bytes.len()].copy_from_slice(bytes);
    kept
}

/// The text that such bytes are.
fn text_of(bytes: &[u8]) -> &str
    requires { IsTrue (list_all is_word_byte bytes.now) }
    ensures { result.now ≡ bytes.now }
{
    match std::str::from_utf8(bytes) {
        Ok(text) => text,
        Err(_) => unreachable!(),
    }
}

impl Word {
    /// The word of these bytes.
    pub fn new(bytes: &[u8]) -> Word
        requires short { length bytes.now ≤ 32 }
        requires word { IsTrue (list_all is_word_byte bytes.now) }
        ensures { result ≡ bytes.now }
    {
        Word {
            bytes: padded(bytes),
            len: bytes.len() as u8,
        }
    }

    /// Its bytes, all ASCII.
    pub fn as_bytes(&self) -> &[u8]
        ensures bytes { result.now ≡ self.now }
        ensures word { IsTrue (list_all is_word_byte result.now) }
    {
        &self.bytes[..self.len as usize]
    }

    /// Its text.
    pub fn as_str(&self) -> &str
        ensures { result.now ≡ self.now }
    {
        text_of(self.as_bytes())
    }
}
