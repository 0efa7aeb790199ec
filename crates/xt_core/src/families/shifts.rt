// Shifts, and products of halves.
ghost use Rattle.std.specs.Prelude.{◌≡◌, ◌<◌, ◌≤◌};
ghost use Rattle.xt_isa.specs.Families.{family_of};
ghost use Rattle.xt_isa.specs.Table.{Fits};
ghost use Rattle.xt_core.specs.Action.{action};
ghost use Rattle.xt_core.specs.Range.{IsWritable};
ghost use Rattle.xt_core.specs.View.{view_of};

use crate::Registers;
use crate::action::{Action, gives};
use crate::numbers::{
    funnel, low_half, natural, shifted_left, sign_copies, signed_half, signed_product,
};
use xt_isa::{Family, Inst};

// What an instruction of this family does.
pub fn action_of(inst: Inst, registers: &Registers) -> Action
    requires family { family_of inst ≡ Family.Shifts }
    requires fits { Fits inst }
    requires sar { registers.now.sar ≤ 32 }
    ensures value { result ≡ action inst (view_of registers.now) }
    ensures writable { IsWritable result }
{
    match inst {
        Inst::Slli(r, s, amount) => gives(r, shifted_left(registers.at(s), natural(amount))),
        Inst::Srai(r, t, amount) => gives(
            r,
            funnel(
                sign_copies(registers.at(t)),
                registers.at(t),
                natural(amount),
            ),
        ),
        Inst::Srli(r, t, amount) => gives(r, funnel(0, registers.at(t), natural(amount))),
        Inst::Src(r, s, t) => gives(
            r,
            funnel(registers.at(s), registers.at(t), u32::from(registers.sar)),
        ),
        Inst::Srl(r, t) => gives(r, funnel(0, registers.at(t), u32::from(registers.sar))),
        Inst::Sll(r, s) => gives(r, funnel(registers.at(s), 0, u32::from(registers.sar))),
        Inst::Sra(r, t) => gives(
            r,
            funnel(
                sign_copies(registers.at(t)),
                registers.at(t),
                u32::from(registers.sar),
            ),
        ),
        Inst::Mul16u(r, s, t) => gives(r, low_half(registers.at(s)) * low_half(registers.at(t))),
        Inst::Mul16s(r, s, t) => gives(
            r,
            signed_product(signed_half(registers.at(s)), signed_half(registers.at(t))),
        ),
        _ => unreachable!(),
    }
}
