//! Core instructions and core operations of slots.

ghost use Rattle.std.specs.Prelude.{◌≡◌, ◌+◌, ◌<◌, ◌≤◌, ◌^◌, All, IsTrue, length};
ghost use Rattle.xt_isa.specs.Table.{Fits};
ghost use Rattle.xt_core.specs.Range.{IsWritable};
ghost use Rattle.tie_desc.specs.Spelling.{part_fits};
ghost use Rattle.xt_operate.specs.Operate.{action_values, slot_instruction};
ghost use Rattle.xt_operate.specs.Values.{IsHeld};

use crate::values::Values;
use tie_desc::{Desc, SlotCore, Spot};
use xt_core::Action;
use xt_isa::Inst;

/// The instruction of a core operation with fields r, s and t.
pub fn instruction_of(core: SlotCore, fields: [u8; 3]) -> Inst
    ensures { result ≡ slot_instruction core fields }
{
    let r = fields[0];
    let s = fields[1];
    let t = fields[2];
    match core {
        SlotCore::Add => Inst::Add(r, s, t),
        SlotCore::Addx2 => Inst::Addx2(r, s, t),
        SlotCore::Addx4 => Inst::Addx4(r, s, t),
        SlotCore::Addx8 => Inst::Addx8(r, s, t),
        SlotCore::Sub => Inst::Sub(r, s, t),
        SlotCore::Subx2 => Inst::Subx2(r, s, t),
        SlotCore::Subx4 => Inst::Subx4(r, s, t),
        SlotCore::Subx8 => Inst::Subx8(r, s, t),
        SlotCore::And => Inst::And(r, s, t),
        SlotCore::Or => Inst::Or(r, s, t),
        SlotCore::Xor => Inst::Xor(r, s, t),
        SlotCore::Min => Inst::Min(r, s, t),
        SlotCore::Max => Inst::Max(r, s, t),
        SlotCore::Minu => Inst::Minu(r, s, t),
        SlotCore::Maxu => Inst::Maxu(r, s, t),
        SlotCore::Mull => Inst::Mull(r, s, t),
        SlotCore::Nop => Inst::Nop,
    }
}

/// The places that an action writes; what it loads isn't among them.
pub fn action_values(desc: &Desc, action: &Action) -> Values
    requires { IsWritable action.now }
    ensures value { result ≡ action_values action.now }
    ensures fit { All (IsHeld desc.now) result }
{
    let mut values = Values::new();
    if let Some((register, value)) = action.write {
        values.push(Spot::Ar(register), u128::from(value));
    }
    if let Some(amount) = action.sar {
        values.push(Spot::Sar, u128::from(amount));
    }
    values
}
