//! Names.

ghost use Rattle.std.specs.Prelude.{◌≡◌, Some, None, slice_index, length, ◌≤◌, IsTrue, if◌then◌else◌};
ghost use Rattle.std.specs.List.{list_all};
ghost use Rattle.std.specs.Str.{bytes_eq};
ghost use Rattle.std.specs.Char.{is_ascii_alphabetic};
ghost use Rattle.tie_desc.specs.Names.{is_word, is_word_byte, padded};

use std::marker::Model;

/// A name: a letter, then letters, digits and `_`, of 1 to 32 bytes.
#[derive(Clone, Copy, PartialEq, Eq)]
pub struct Name {
    bytes: [u8; 32],
    len: u8,
}

impl Model for Name {
    ghost use Rattle.std.specs.Prelude.{◌≡◌, ◌≤◌, ℕ, List, length, take, IsTrue};
    ghost use Rattle.tie_desc.specs.Names.{is_word, padded};

    ghost Value = { List ℕ };

    ghost view = { λ n. take n.len n.bytes };

    ghost invariant = { λ n. (n.len ≤ 32) × (n.bytes ≡ padded (take n.len n.bytes)) × IsTrue (is_word (take n.len n.bytes)) };

    ghost inverse = { λ bytes. record { bytes = padded bytes; len = length bytes } };

    ghost use Rattle.tie_desc.specs.KeptName.{kept_again};

    ghost inverse_ok = { kept_again };
}

/// Whether the bytes begin with a letter.
fn begins_with_letter(bytes: &[u8]) -> bool
    ensures { result ≡ is_ascii_alphabetic (slice_index bytes.now 0) }
{
    !bytes.is_empty() && bytes[0].is_ascii_alphabetic()
}

/// Whether each byte is a letter, a digit or `_`.
fn has_word_bytes(bytes: &[u8]) -> bool
    ensures { result ≡ list_all is_word_byte bytes.now }
{
    bytes
        .iter()
        .all(|b| b.is_ascii_alphanumeric() || *b == b'_')
}

/// Whether the bytes are a letter, then letters, digits and `_`, of 1 to 32 bytes.
fn is_word(bytes: &[u8]) -> bool
    ensures { result ≡ is_word bytes.now }
{
    begins_with_letter(bytes) && has_word_bytes(bytes) && bytes.len() <= 32
}

/// The text that such bytes are.
fn text_of(bytes: &[u8]) -> &str
    requires { IsTrue (is_word bytes.now) }
    ensures { result.now ≡ bytes.now }
{
    match std::str::from_utf8(bytes) {
        Ok(text) => text,
        Err(_) => unreachable!(),
    }
}

/// The bytes, filled to 32 with zeros.
fn padded(bytes: &[u8]) -> [u8; 32]
    requires { length bytes.now ≤ 32 }
    ensures { result ≡ padded bytes.now }
{
    let mut kept = [0; 32];
    kept[..bytes.len()].copy_from_slice(bytes);
    kept
}

impl Name {
    /// The name of these bytes, None where they are none.
    pub fn new(bytes: &[u8]) -> Option<Name>
        ensures { result ≡ (if is_word bytes.now then Some bytes.now else None) }
    {
        if !is_word(bytes) {
            return None;
        }
        Some(Name {
            bytes: padded(bytes),
            len: bytes.len() as u8,
        })
    }

    /// Its bytes, all ASCII.
    pub fn as_bytes(&self) -> &[u8]
        ensures bytes { result.now ≡ self.now }
        ensures word { IsTrue (is_word result.now) }
    {
        &self.bytes[..self.len as usize]
    }

    /// Whether it is these bytes.
    pub fn is(&self, bytes: &[u8]) -> bool
        ensures { result ≡ bytes_eq self.now bytes.now }
    {
        self.as_bytes() == bytes
    }

    /// Its text.
    pub fn as_str(&self) -> &str
        ensures { result.now ≡ self.now }
    {
        text_of(self.as_bytes())
    }
}
