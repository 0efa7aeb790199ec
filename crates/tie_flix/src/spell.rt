//! Writing the bytes of bundles that have a spelling.

ghost use Rattle.std.specs.Prelude.{◌≡◌, ◌<◌, ◌≤◌, ◌^◌, ◌-◌, ◌+◌, ◌*◌, length, IsTrue, Some};
ghost use Rattle.tie_desc.specs.Invariant.{IsFormat};
ghost use Rattle.tie_desc.specs.Slots.{slots_space};
ghost use Rattle.tie_desc.specs.Spelling as spelling;

use crate::fields::{code_space, longest};
use crate::listed::place_of;
use arrayvec::ArrayVec;
use tie_desc::{Desc, FormatDecl, Part, SlotDecl};

fn put(used: bool, field: u8, above: u64) -> u64
    requires { spelling.put used field above < 2 ^ 64 }
    ensures { result ≡ spelling.put used field above }
{
    if used {
        above * 16 + u64::from(field)
    } else {
        above
    }
}

/// The fields of a part below the bits above them.
fn fields_below(count: usize, fields: &[u8; 3], above: u64) -> u64
    requires { spelling.fields_below count 0 fields.now above < 2 ^ 64 }
    ensures { result ≡ spelling.fields_below count 0 fields.now above }
{
    let third = put(2 < count, fields[2], above);
    let second = put(1 < count, fields[1], third);
    put(0 < count, fields[0], second)
}

/// A slot below the bits above it.
fn slot_below(desc: &Desc, slot: &SlotDecl, part: &Part, above: u64) -> u64
    requires { spelling.slot_below desc.now slot.now part.now above < 2 ^ 64 }
    ensures { result ≡ spelling.slot_below desc.now slot.now part.now above }
{
    let codes = slot.codes.as_slice();
    let fields = fields_below(longest(desc, codes), &part.fields, above);
    fields * code_space(codes.len()) + place_of(part.code, codes) as u64
}

/// The slots, the first lowest.
fn slots_word(desc: &Desc, slots: &[SlotDecl], parts: &[Part]) -> u64
    requires { spelling.slots_word desc.now slots.now parts.now < 2 ^ 64 }
    ensures { result ≡ spelling.slots_word desc.now slots.now parts.now }
{
    match slots {
        [] => 0,
        [slot, others @ ..] => match parts {
            [] => 0,
            [part, more @ ..] => slot_below(desc, slot, part, slots_word(desc, others, more)),
        },
    }
}

/// Some bytes, at most eight.
pub fn pushed(bytes: &[u8]) -> ArrayVec<u8, 8>
    requires { length bytes.now ≤ 8 }
    ensures { result.items ≡ bytes.now }
{
    let mut out = ArrayVec::new();
    for byte in bytes {
        out.push(*byte);
    }
    out
}

/// The word of a format with these parts.
fn format_word(desc: &Desc, format: &FormatDecl, parts: &[Part]) -> u64
    requires format { IsFormat desc.now format.now }
    requires number { format.now.number < 16 }
    requires fit { IsTrue (spelling.slots_fit desc.now format.now.slots parts.now) }
    requires room { slots_space desc.now format.now.slots ≤ 2 ^ (format.now.width - 8) }
    ensures word { result ≡ spelling.format_word desc.now format.now parts.now }
    ensures small { format.now.width ≡ 32 → result < 2 ^ 32 }
{
    desc.facts();
    let bits = slots_word(desc, format.slots.as_slice(), parts);
    let op0 = if format.width == 64 { 15 } else { 14 };
    joined(bits, format.number, op0)
}

/// Four bits, then the number of a format, then the slots.
fn joined(bits: u64, number: u8, op0: u8) -> u64
    requires bits { bits < 2 ^ 56 }
    requires number { number < 16 }
    requires op0 { op0 < 16 }
    ensures value { result ≡ (bits * 16 + number) * 16 + op0 }
    ensures small { bits < 2 ^ 24 → result < 2 ^ 32 }
{
    (bits * 16 + u64::from(number)) * 16 + u64::from(op0)
}

/// The bytes of a format with these parts.
pub fn word_bytes(desc: &Desc, format: &FormatDecl, parts: &[Part]) -> ArrayVec<u8, 8>
    requires format { IsFormat desc.now format.now }
    requires number { format.now.number < 16 }
    requires fit { IsTrue (spelling.slots_fit desc.now format.now.slots parts.now) }
    requires room { slots_space desc.now format.now.slots ≤ 2 ^ (format.now.width - 8) }
    ensures { result.items ≡ spelling.wide_bytes desc.now (Some format.now) parts.now }
{
    if format.width == 64 {
        pushed(&format_word(desc, format, parts).to_le_bytes())
    } else {
        pushed(&(format_word(desc, format, parts) as u32).to_le_bytes())
    }
}
