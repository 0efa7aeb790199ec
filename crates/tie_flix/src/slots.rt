//! Reading slots.

ghost use Rattle.std.specs.Prelude.{◌≡◌, ◌≤◌, [], length};
ghost use Rattle.std.specs.Option.{option_map};
ghost use Rattle.tie_flix.specs.Reading as reading;

use crate::fields::{code_space, longest, part_fits};
use arrayvec::ArrayVec;
use tie_desc::{Code, Desc, Part, SlotDecl};

fn field(used: bool, bits: u64) -> u8
    ensures { result ≡ reading.field used bits }
{
    if used { (bits % 16) as u8 } else { 0 }
}

fn above(used: bool, bits: u64) -> u64
    ensures { result ≡ reading.above used bits }
{
    if used { bits / 16 } else { bits }
}

fn fitting(desc: &Desc, part: Part, rest: u64) -> Option<(Part, u64)>
    ensures { result ≡ reading.fitting desc.now part rest }
{
    if part_fits(desc, &part) {
        Some((part, rest))
    } else {
        None
    }
}

fn read_fields(desc: &Desc, count: usize, bits: u64, code: Code) -> Option<(Part, u64)>
    ensures { result ≡ reading.read_fields desc.now count bits code }
{
    let second = above(0 < count, bits);
    let third = above(1 < count, second);
    let fields = [
        field(0 < count, bits),
        field(1 < count, second),
        field(2 < count, third),
    ];
    fitting(desc, Part { code, fields }, above(2 < count, third))
}

#[tactic(auto, unfolding(crate::specs::Reading::read_slot))]
fn read_slot(desc: &Desc, slot: &SlotDecl, bits: u64) -> Option<(Part, u64)>
    ensures { result ≡ reading.read_slot desc.now slot.now bits }
{
    let codes = slot.codes.as_slice();
    let space = code_space(codes.len());
    match slot.codes.get((bits % space) as usize) {
        None => None,
        Some(code) => read_fields(desc, longest(desc, codes), bits / space, *code),
    }
}

/// The parts in the slots, the first lowest, where they take all the bits.
pub fn read_slots(desc: &Desc, slots: &[SlotDecl], bits: u64) -> Option<ArrayVec<Part, 4>>
    requires { length slots.now ≤ 4 }
    ensures { option_map (λ v. v.items) result ≡ reading.read_slots desc.now slots.now [] bits }
{
    let mut parts = ArrayVec::new();
    let mut rest = bits;
    for slot in slots {
        let (part, above) = read_slot(desc, slot, rest)?;
        parts.push(part);
        rest = above;
    }
    if rest == 0 { Some(parts) } else { None }
}
