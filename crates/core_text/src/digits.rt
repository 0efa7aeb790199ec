ghost use Rattle.std.specs.Prelude.{◌≡◌, ◌++◌, ◌∷◌, [], ◌<◌, ◌≤◌, OnOk, string_bytes};
ghost use Rattle.core_text.specs.Digits.{hex_digits, hex_digit, digit_count};

use std::alloc::AllocError;

/// Appends the last so many upper-case hexadecimal digits of a value.
#[tactic(auto, unfolding(crate::specs::Digits::hex_digits))]
pub fn push_hex(text: &mut String, count: u32, value: u128) -> Result<(), AllocError>
    requires { count ≤ 32 }
    ensures { OnOk result (string_bytes text.new ≡ string_bytes text.old ++ hex_digits count value) }
{
    let mut left = count;
    while left > 0 {
        left -= 1;
        push_digit(text, ((value >> (4 * left)) % 16) as u8)?;
    }
    Ok(())
}

fn push_digit(text: &mut String, value: u8) -> Result<(), AllocError>
    requires { value < 16 }
    ensures { OnOk result (string_bytes text.new ≡ string_bytes text.old ++ (hex_digit value ∷ [])) }
{
    text.push(char::from(hex_digit(value)))
}

fn hex_digit(value: u8) -> u8
    requires { value < 16 }
    ensures { result ≡ hex_digit value }
{
    if value < 10 {
        b'0' + value
    } else {
        b'A' - 10 + value
    }
}

/// How many digits a value of this width has.
pub fn digit_count(width: u8) -> u32
    ensures value { result ≡ digit_count width }
    ensures most { width ≤ 128 → result ≤ 32 }
{
    (u32::from(width) + 3) / 4
}
