//! Classes of bytes.

ghost use Rattle.std.specs.Prelude.{◌≡◌, drop};
ghost use Rattle.tie_desc.specs.Names.{is_word_byte};
ghost use Rattle.std.specs.List.{prefix_len};
ghost use Rattle.std.specs.Prelude.{slice_index};
ghost use Rattle.asm_lines.specs.Tokens as spec;

pub fn is_word_start(byte: u8) -> bool
    ensures { result ≡ spec.is_word_start byte }
{
    byte.is_ascii_alphabetic() || byte == b'_'
}

pub fn is_word_byte(byte: u8) -> bool
    ensures { result ≡ is_word_byte byte }
{
    byte.is_ascii_alphanumeric() || byte == b'_'
}

// The byte at a place, or 0 behind the end.
pub fn byte_at(bytes: &[u8], at: usize) -> u8
    ensures { result ≡ slice_index bytes.now at }
{
    if at < bytes.len() { bytes[at] } else { 0 }
}

// The bytes from a place on; none behind the end.
pub fn behind(bytes: &[u8], at: usize) -> &[u8]
    ensures { result.now ≡ drop at bytes.now }
{
    if at < bytes.len() {
        &bytes[at..]
    } else {
        &bytes[..0]
    }
}

pub fn line_len(bytes: &[u8]) -> usize
    ensures { result ≡ spec.line_len bytes.now }
{
    bytes.iter().take_while(|b| **b != b'\n').count()
}

pub fn word_len(bytes: &[u8]) -> usize
    ensures { result ≡ spec.word_len bytes.now }
{
    bytes.iter().take_while(|b| is_word_byte(**b)).count()
}

pub fn digits_len(bytes: &[u8]) -> usize
    ensures { result ≡ spec.digits_len bytes.now }
{
    bytes.iter().take_while(|b| b.is_ascii_digit()).count()
}

pub fn hexadecimal_len(bytes: &[u8]) -> usize
    ensures { result ≡ spec.hexadecimal_len bytes.now }
{
    bytes.iter().take_while(|b| b.is_ascii_hexdigit()).count()
}
