//! Codes in the list of a slot.

ghost use Rattle.std.specs.Prelude.{◌≡◌};
ghost use Rattle.tie_desc.specs.Slots as slots;

use tie_desc::{Code, SlotCore};

fn core_number(core: SlotCore) -> u8
    ensures { result ≡ slots.core_number core }
{
    match core {
        SlotCore::Add => 0,
        SlotCore::Addx2 => 1,
        SlotCore::Addx4 => 2,
        SlotCore::Addx8 => 3,
        SlotCore::Sub => 4,
        SlotCore::Subx2 => 5,
        SlotCore::Subx4 => 6,
        SlotCore::Subx8 => 7,
        SlotCore::And => 8,
        SlotCore::Or => 9,
        SlotCore::Xor => 10,
        SlotCore::Min => 11,
        SlotCore::Max => 12,
        SlotCore::Minu => 13,
        SlotCore::Maxu => 14,
        SlotCore::Mull => 15,
        SlotCore::Nop => 16,
    }
}

fn same_code(a: Code, b: Code) -> bool
    ensures { result ≡ slots.same_code a b }
{
    match (a, b) {
        (Code::Core(a), Code::Core(b)) => core_number(a) == core_number(b),
        (Code::Op(a), Code::Op(b)) => a == b,
        _ => false,
    }
}

/// The number of a code in a list, the list's length where it isn't there.
pub fn place_of(code: Code, codes: &[Code]) -> usize
    ensures { result ≡ slots.place_of code codes.now }
{
    codes
        .iter()
        .take_while(|listed| !same_code(**listed, code))
        .count()
}
