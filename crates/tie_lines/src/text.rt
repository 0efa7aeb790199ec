ghost use Rattle.std.specs.Prelude.{◌≡◌, ◌++◌, ◌+◌, ◌*◌, ◌/◌, ◌%◌, ◌<◌, ◌≤◌, IfOk, OnOk, codes, string_bytes, length};
ghost use Rattle.std.specs.Fmt.{decimal};
ghost use Rattle.core_text.specs.Digits.{hex_digits};
ghost use Rattle.tie_lines.specs.Lines.{check_text, image_text, operation_code, operation_lines, format_lines};

use core_text::push_hex;
use std::alloc::{AllocError, Global};
use tie_desc::{Desc, FormatDecl, OpDecl};

/// What an accepted text declares: its operations with their codes, and its formats.
pub fn check_text(alloc: Global, desc: &Desc) -> Result<String, AllocError>
    ensures { IfOk result (λ text. string_bytes text ≡ check_text desc.now) }
{
    desc.facts();
    let mut text = String::from_str(alloc, "accepted\n")?;
    push_operations(&mut text, desc.ops.as_slice())?;
    push_formats(&mut text, desc.formats.as_slice())?;
    Ok(text)
}

fn push_operations(text: &mut String, ops: &[OpDecl]) -> Result<(), AllocError>
    requires { length ops.now ≤ 32 }
    ensures { OnOk result (string_bytes text.new ≡ string_bytes text.old ++ operation_lines 0 ops.now) }
{
    for (number, op) in ops.iter().enumerate() {
        push_operation(text, op.name.as_str(), number as u32)?;
    }
    Ok(())
}

fn push_operation(text: &mut String, name: &str, number: u32) -> Result<(), AllocError>
    requires { number < 32 }
    ensures { OnOk result (string_bytes text.new ≡ string_bytes text.old
        ++ (codes "operation " ++ name.now ++ codes " " ++ hex_digits 6 (operation_code number) ++ codes "\n")) }
{
    write!(text, "operation {name} ")?;
    push_hex(text, 6, u128::from(operation_code(number)))?;
    text.push_str("\n")
}

// The 24 bits of an operation with 0 in its fields: op0 is 0, op1 6 and on, op2 the number modulo 16.
fn operation_code(number: u32) -> u32
    requires { number < 32 }
    ensures { result ≡ operation_code number }
{
    (number % 16 * 16 + 6 + number / 16) * 65536
}

fn push_formats(text: &mut String, formats: &[FormatDecl]) -> Result<(), AllocError>
    ensures { OnOk result (string_bytes text.new ≡ string_bytes text.old ++ format_lines formats.now) }
{
    for format in formats {
        push_format(text, format.name.as_str(), format.width, format.number)?;
    }
    Ok(())
}

fn push_format(text: &mut String, name: &str, width: u8, number: u8) -> Result<(), AllocError>
    ensures { OnOk result (string_bytes text.new ≡ string_bytes text.old
        ++ (codes "format " ++ name.now ++ codes " " ++ decimal width ++ codes " " ++ decimal number ++ codes "\n")) }
{
    write!(text, "format {name} {width} {number}\n")
}

/// An image, 16 bytes a line, one space between two bytes.
pub fn image_text(alloc: Global, bytes: &[u8]) -> Result<String, AllocError>
    ensures { IfOk result (λ text. string_bytes text ≡ image_text bytes.now) }
{
    let mut text = String::new(alloc);
    for (number, byte) in bytes.iter().enumerate() {
        push_hex(&mut text, 2, u128::from(*byte))?;
        if number + 1 == bytes.len() || number % 16 == 15 {
            text.push_str("\n")?;
        } else {
            text.push_str(" ")?;
        }
    }
    Ok(text)
}
