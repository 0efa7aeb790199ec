// Logic, sums, differences, sign.
ghost use Rattle.std.specs.Prelude.{◌≡◌, ◌<◌, ◌≤◌, ◌*◌, ◌^◌, slice_index};
ghost use Rattle.xt_isa.specs.Families.{family_of};
ghost use Rattle.xt_isa.specs.Table.{Fits};
ghost use Rattle.xt_core.specs.Action.{action};
ghost use Rattle.xt_core.specs.Range.{IsWritable};
ghost use Rattle.xt_core.specs.View.{view_of};

use crate::Registers;
use crate::action::{Action, gives};
use crate::numbers::{difference32, signed32, sum32};
use xt_isa::{Family, Inst};

// A register's value times a scale.
fn scaled(registers: &Registers, s: u8, scale: u64) -> u64
    requires register { s < 16 }
    requires scale { scale ≤ 8 }
    ensures value { result ≡ scale * slice_index registers.now.ar s }
    ensures small { result < 2 ^ 36 }
{
    scale * u64::from(registers.at(s))
}

// What an instruction of this family does.
pub fn action_of(inst: Inst, registers: &Registers) -> Action
    requires family { family_of inst ≡ Family.Arithmetic }
    requires fits { Fits inst }
    ensures value { result ≡ action inst (view_of registers.now) }
    ensures writable { IsWritable result }
{
    match inst {
        Inst::And(r, s, t) => gives(r, registers.at(s) & registers.at(t)),
        Inst::Or(r, s, t) => gives(r, registers.at(s) | registers.at(t)),
        Inst::Xor(r, s, t) => gives(r, registers.at(s) ^ registers.at(t)),
        Inst::Add(r, s, t) => gives(r, sum32(scaled(registers, s, 1), registers.at(t))),
        Inst::Addx2(r, s, t) => gives(r, sum32(scaled(registers, s, 2), registers.at(t))),
        Inst::Addx4(r, s, t) => gives(r, sum32(scaled(registers, s, 4), registers.at(t))),
        Inst::Addx8(r, s, t) => gives(r, sum32(scaled(registers, s, 8), registers.at(t))),
        Inst::Sub(r, s, t) => gives(r, difference32(scaled(registers, s, 1), registers.at(t))),
        Inst::Subx2(r, s, t) => gives(r, difference32(scaled(registers, s, 2), registers.at(t))),
        Inst::Subx4(r, s, t) => gives(r, difference32(scaled(registers, s, 4), registers.at(t))),
        Inst::Subx8(r, s, t) => gives(r, difference32(scaled(registers, s, 8), registers.at(t))),
        Inst::Neg(r, t) => gives(r, difference32(0, registers.at(t))),
        Inst::Abs(r, t) => gives(r, signed32(registers.at(t)).unsigned_abs()),
        _ => unreachable!(),
    }
}
