//! Numbers and sized numbers.
//!
//! Values are exact below 2^128, and greater ones are told apart from these, in time linear in the digits and without memory.

ghost use Rattle.std.specs.Prelude.{◌≡◌, ◌+◌, ◌-◌, ◌*◌, ◌^◌, ◌<◌, ◌≤◌, nat_lt, min, take, drop, length, SomeIff};
ghost use Rattle.tie_mean.specs.Literals as spec;

use tie_grammar::tree::Literal;

/// The value of a digit.
fn digit_value(b: u8) -> u8
    ensures { result ≡ spec.digit_value b }
{
    if b <= b'9' {
        b.saturating_sub(b'0')
    } else if b <= b'F' {
        b.saturating_sub(b'7')
    } else {
        b.saturating_sub(b'W')
    }
}

/// One more digit behind those of `before`, or `None` from 2^128 on.
fn next_digit(base: u8, before: u128, b: u8) -> Option<u128>
    ensures { SomeIff result (spec.next_digit base before b < 2 ^ 128) (spec.next_digit base before b) }
{
    if b == b'_' {
        Some(before)
    } else {
        let more = before.checked_mul(u128::from(base))?;
        more.checked_add(u128::from(digit_value(b)))
    }
}

/// What the digits spell, or `None` from 2^128 on.
fn spelled(base: u8, digits: &[u8]) -> Option<u128>
    requires { 1 ≤ base }
    ensures { SomeIff result (spec.spelled base digits.now < 2 ^ 128) (spec.spelled base digits.now) }
{
    let mut value = 0;
    for b in digits {
        match next_digit(base, value, *b) {
            Some(more) => value = more,
            None => return None,
        }
    }
    Some(value)
}

/// The value of a number, or `None` from 2^128 on.
pub fn number_value(bytes: &[u8]) -> Option<u128>
    ensures { SomeIff result (spec.number bytes.now < 2 ^ 128) (spec.number bytes.now) }
{
    match bytes {
        [_, b'x', digits @ ..] => spelled(16, digits),
        _ => spelled(10, bytes),
    }
}

/// A number, or 2^128 - 1 where it is greater.
pub fn number(bytes: &[u8]) -> u128
    ensures { result ≡ spec.capped (spec.number bytes.now) }
{
    number_value(bytes).unwrap_or(u128::MAX)
}

/// The place of the `'` of a sized number.
fn quote_at(bytes: &[u8]) -> usize
    ensures is { result ≡ spec.quote_at bytes.now }
    ensures within { result ≤ length bytes.now }
{
    bytes.iter().take_while(|b| **b != b'\'').count()
}

/// The width of a sized number, or 2^128 - 1 where it is greater.
pub fn sized_width(bytes: &[u8]) -> u128
    ensures { result ≡ spec.capped (spec.sized_width bytes.now) }
{
    spelled(10, &bytes[..quote_at(bytes)]).unwrap_or(u128::MAX)
}

/// The base that a letter names.
fn base_of(letter: u8) -> u8
    ensures is { result ≡ spec.base_of letter }
    ensures some { 1 ≤ result }
{
    match letter {
        b'h' => 16,
        b'd' => 10,
        _ => 2,
    }
}

/// The bytes from a place on.
fn from(bytes: &[u8], place: usize) -> &[u8]
    ensures { result.now ≡ drop place bytes.now }
{
    bytes.get(place..).unwrap_or(&[])
}

/// The value of a sized number, or `None` from 2^128 on.
pub fn sized_value(bytes: &[u8]) -> Option<u128>
    ensures { SomeIff result (spec.sized_value bytes.now < 2 ^ 128) (spec.sized_value bytes.now) }
{
    let quote = quote_at(bytes);
    let base = base_of(bytes.get(quote + 1).copied().unwrap_or(0));
    spelled(base, from(bytes, quote + 2))
}

/// The value of a literal, or `None` from 2^128 on.
pub fn literal_value(x: &Literal) -> Option<u128>
    ensures { SomeIff result (spec.literal_value x.now < 2 ^ 128) (spec.literal_value x.now) }
{
    match x {
        Literal::Number(leaf) => number_value(leaf.bytes.as_slice()),
        Literal::Sized(leaf) => sized_value(leaf.bytes.as_slice()),
    }
}

/// The width of a literal, or 2^128 - 1 where it is greater.
pub fn literal_width(x: &Literal) -> u128
    ensures { result ≡ spec.capped (spec.literal_width x.now) }
{
    match x {
        Literal::Number(_) => 32,
        Literal::Sized(leaf) => sized_width(leaf.bytes.as_slice()),
    }
}

/// A number fits a width.
#[tactic(auto, using(crate::proofs::Fits::within_mask))]
fn fits(value: u128, width: u8) -> bool
    requires { width ≤ 128 }
    ensures { result ≡ nat_lt value (2 ^ width) }
{
    if width == 0 {
        value == 0
    } else {
        value <= u128::MAX >> (128 - width)
    }
}

/// A literal's value fits a width.
#[tactic(auto, using(crate::proofs::Fits::beyond))]
pub fn literal_fits(x: &Literal, width: u8) -> bool
    requires { width ≤ 128 }
    ensures { result ≡ spec.literal_fits width x.now }
{
    match literal_value(x) {
        Some(value) => fits(value, width),
        None => false,
    }
}

/// A literal of an expression fits its own width, of 1 to 128 bits.
pub fn literal_sound(x: &Literal) -> bool
    ensures { result ≡ spec.literal_sound x.now }
{
    let width = literal_width(x);
    if width == 0 || width > 128 {
        return false;
    }
    literal_fits(x, width as u8)
}
