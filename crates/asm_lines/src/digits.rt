//! Values of digits.

ghost use Rattle.std.specs.Prelude.{◌≡◌, ◌<◌, ◌≤◌, ◌^◌, pos};
ghost use Rattle.std.specs.Char.{digit_value};
ghost use Rattle.asm_lines.specs.Tokens as spec;

/// Where values end.
const MOST: u64 = 1099511627776;

fn digit_value(byte: u8) -> u64
    ensures value { result ≡ digit_value byte }
    ensures small { result ≤ 36 }
{
    match byte {
        b'0'..=b'9' => u64::from(byte - b'0'),
        b'A'..=b'Z' => u64::from(byte - 55),
        b'a'..=b'z' => u64::from(byte - 87),
        _ => 36,
    }
}

/// The number that digits write, at most 2^40.
pub fn value(base: u64, digits: &[u8]) -> i64
    requires some { 1 ≤ base }
    requires few { base ≤ 16 }
    ensures { result ≡ pos (spec.value base digits.now) }
{
    let mut value = 0u64;
    for digit in digits {
        value = (value * base + digit_value(*digit)).min(MOST);
    }
    value as i64
}
