ghost use Rattle.std.specs.Prelude.{◌≡◌, ◌≤◌, ◌<◌, ◌+◌, ◌*◌, ◌^◌, ℕ, length, slice_index, Err, Ok, IfOk, MatchResult};
ghost use Rattle.hex_text.specs.Hexadecimal.{hex_bytes, digit_value, is_white, first_foreign, digits, paired};
ghost use Rattle.hex_text.specs.Answers.{RefusesText};

use std::alloc::{AllocError, Global};

/// A rule of hexadecimal text.
#[derive(Clone, Copy, Debug, PartialEq, Eq)]
pub enum HexRule {
    /// A byte is neither a digit nor white space.
    BadHex,
    /// The count of digits is odd.
    OddHex,
    /// There are more digits than the limit allows.
    LongHex,
}

/// Why a text was not read.
#[derive(Drop)]
pub enum HexRefusal {
    Fault { rule: HexRule, place: u32 },
    NoMemory,
}

fn is_white(byte: u8) -> bool
    ensures { result ≡ is_white byte }
{
    byte == b' ' || byte == b'\t' || byte == b'\n' || byte == b'\r'
}

fn digit_value(byte: u8) -> Option<u8>
    ensures { result ≡ digit_value byte }
{
    match byte {
        b'0'..=b'9' => Some(byte - b'0'),
        b'A'..=b'F' => Some(byte - b'A' + 10),
        b'a'..=b'f' => Some(byte - b'a' + 10),
        _ => None,
    }
}

// The place of the first byte that is neither a digit nor white space.
fn first_foreign(text: &[u8]) -> Option<usize>
    ensures { result ≡ first_foreign text.now }
{
    text.iter()
        .position(|byte| !(is_white(*byte) || digit_value(*byte).is_some()))
}

fn digits(alloc: Global, text: &[u8]) -> Result<Vec<u8>, AllocError>
    ensures { IfOk result (λ values. values.items ≡ digits text.now) }
{
    text.iter()
        .filter_map(|byte| digit_value(*byte))
        .collect(alloc)
}

// The bytes of the digits, two digits a byte.
fn paired(alloc: Global, digits: &[u8]) -> Result<Vec<u8>, AllocError>
    requires { (k : ℕ) → slice_index digits.now k < 16 }
    ensures bytes { IfOk result (λ bytes. bytes.items ≡ paired digits.now) }
    ensures half { IfOk result (λ bytes. 2 * length bytes.items ≤ length digits.now) }
{
    let mut bytes = Vec::new(alloc);
    for i in 0..digits.len() / 2 {
        bytes.push(16 * digits[2 * i] + digits[2 * i + 1])?;
    }
    Ok(bytes)
}

/// The bytes of a hexadecimal text of at most `limit` bytes, or the first rule that it breaks, with the place.
pub fn read_hex(alloc: Global, text: &[u8], limit: usize) -> Result<Vec<u8>, HexRefusal>
    requires text { length text.now ≤ 2 ^ 31 }
    requires limit { limit ≤ 2 ^ 31 }
    ensures value { MatchResult result
        (λ bytes. hex_bytes limit text.now ≡ Ok bytes.items)
        (λ refusal. RefusesText refusal (hex_bytes limit text.now)) }
    ensures within { IfOk result (λ bytes. length bytes.items ≤ limit) }
{
    if let Some(place) = first_foreign(text) {
        return fault(HexRule::BadHex, place);
    }
    let Ok(digits) = digits(alloc, text) else {
        return Err(HexRefusal::NoMemory);
    };
    if digits.len() % 2 == 1 {
        return fault(HexRule::OddHex, text.len());
    }
    if 2 * limit < digits.len() {
        return fault(HexRule::LongHex, text.len());
    }
    match paired(alloc, &digits) {
        Ok(bytes) => Ok(bytes),
        Err(_) => Err(HexRefusal::NoMemory),
    }
}

fn fault(rule: HexRule, place: usize) -> Result<Vec<u8>, HexRefusal>
    requires { place ≤ 2 ^ 31 }
    ensures { result ≡ Err (HexRefusal.Fault rule place) }
{
    Err(HexRefusal::Fault {
        rule,
        place: place as u32,
    })
}
