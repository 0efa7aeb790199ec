ghost use Rattle.std.specs.Prelude.{◌≡◌, ◌++◌, ◌+◌, ◌<◌, ◌≤◌, ◌%◌, ◌==◌, ◌^◌, OnOk, codes, length, string_bytes};
ghost use Rattle.core_text.specs.Digits.{hex_digits};
ghost use Rattle.core_text.specs.Memory.{memory_lines};

use crate::digits::push_hex;
use std::alloc::AllocError;

/// Appends the bytes that stand from an address on, 16 a line, each line with the address of its first byte.
pub fn push_memory(text: &mut String, address: u32, bytes: &[u8]) -> Result<(), AllocError>
    requires { address + length bytes.now ≤ 2 ^ 32 }
    ensures { OnOk result (string_bytes text.new ≡ string_bytes text.old ++ memory_lines address bytes.now) }
{
    for (number, byte) in bytes.iter().enumerate() {
        if number % 16 == 0 {
            push_address(text, address + number as u32)?;
        }
        push_byte(text, *byte)?;
        if number % 16 == 15 || number + 1 == bytes.len() {
            text.push_str("\n")?;
        }
    }
    Ok(())
}

fn push_address(text: &mut String, address: u32) -> Result<(), AllocError>
    ensures { OnOk result (string_bytes text.new ≡ string_bytes text.old ++ (codes "  mem " ++ hex_digits 8 address)) }
{
    text.push_str("  mem ")?;
    push_hex(text, 8, u128::from(address))
}

fn push_byte(text: &mut String, byte: u8) -> Result<(), AllocError>
    ensures { OnOk result (string_bytes text.new ≡ string_bytes text.old ++ (codes " " ++ hex_digits 2 byte)) }
{
    text.push_str(" ")?;
    push_hex(text, 2, u128::from(byte))
}
