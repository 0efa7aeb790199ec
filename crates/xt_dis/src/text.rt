//! The text of a listing, written from the front on.

ghost use Rattle.std.specs.Prelude.{◌≡◌, ◌++◌, ◌<◌, OnOk, false};
ghost use Rattle.std.specs.Fmt.{signed_decimal, decimal, digit_glyph};
ghost use Rattle.xt_dis.specs.Words as words;

use itoa::Buffer;
use tie_flix::NoMemory;

pub fn push(text: &mut Vec<u8>, bytes: &[u8]) -> Result<(), NoMemory>
    ensures { OnOk result (text.new.items ≡ text.old.items ++ bytes.now) }
{
    text.extend_from_slice(bytes)?;
    Ok(())
}

pub fn push_number(text: &mut Vec<u8>, number: i32) -> Result<(), NoMemory>
    ensures { OnOk result (text.new.items ≡ text.old.items ++ signed_decimal number) }
{
    let mut buffer = Buffer::new();
    push(text, buffer.format(number).as_bytes())
}

pub fn push_decimal(text: &mut Vec<u8>, number: u8) -> Result<(), NoMemory>
    ensures { OnOk result (text.new.items ≡ text.old.items ++ decimal number) }
{
    let mut buffer = Buffer::new();
    push(text, buffer.format(number).as_bytes())
}

/// A register: the short name of its file, and its number.
#[tactic(auto, using(std::proofs::Common::append_assoc))]
pub fn push_register(text: &mut Vec<u8>, short: &[u8], number: u8) -> Result<(), NoMemory>
    ensures { OnOk result (text.new.items ≡ text.old.items ++ words.register short.now number) }
{
    push(text, short)?;
    push_decimal(text, number)
}

/// A digit to the base 16.
fn digit(value: u32) -> u8
    requires { value < 16 }
    ensures { result ≡ digit_glyph false value }
{
    if value < 10 {
        48 + value as u8
    } else {
        87 + value as u8
    }
}

/// `0x` and eight digits.
#[tactic(auto, unfolding(crate::specs::Words::address))]
fn address_digits(address: u32) -> [u8; 10]
    ensures { result ≡ words.address address }
{
    [
        b'0',
        b'x',
        digit(address / 0x1000_0000 % 16),
        digit(address / 0x100_0000 % 16),
        digit(address / 0x10_0000 % 16),
        digit(address / 0x1_0000 % 16),
        digit(address / 0x1000 % 16),
        digit(address / 0x100 % 16),
        digit(address / 0x10 % 16),
        digit(address % 16),
    ]
}

pub fn push_address(text: &mut Vec<u8>, address: u32) -> Result<(), NoMemory>
    ensures { OnOk result (text.new.items ≡ text.old.items ++ words.address address) }
{
    push(text, &address_digits(address))
}
