// Branches on two registers, or on one bit.
ghost use Rattle.std.specs.Prelude.{◌≡◌, ◌<◌, ◌≤◌};
ghost use Rattle.xt_isa.specs.Families.{family_of};
ghost use Rattle.xt_isa.specs.Table.{Fits};
ghost use Rattle.xt_core.specs.Action.{action};
ghost use Rattle.xt_core.specs.Range.{IsWritable};
ghost use Rattle.xt_core.specs.View.{view_of};

use super::branch;
use crate::Registers;
use crate::action::Action;
use crate::numbers::{bit_of, natural, signed_less};
use xt_isa::{Family, Inst};

// What an instruction of this family does.
pub fn action_of(inst: Inst, registers: &Registers) -> Action
    requires family { family_of inst ≡ Family.Branches }
    requires fits { Fits inst }
    ensures value { result ≡ action inst (view_of registers.now) }
    ensures writable { IsWritable result }
{
    match inst {
        Inst::Bnone(s, t, target) => branch(
            registers,
            target,
            registers.at(s) & registers.at(t) == 0,
        ),
        Inst::Beq(s, t, target) => branch(registers, target, registers.at(s) == registers.at(t)),
        Inst::Blt(s, t, target) => branch(
            registers,
            target,
            signed_less(registers.at(s), registers.at(t)),
        ),
        Inst::Bltu(s, t, target) => branch(registers, target, registers.at(s) < registers.at(t)),
        Inst::Ball(s, t, target) => branch(
            registers,
            target,
            registers.at(s) & registers.at(t) == registers.at(t),
        ),
        Inst::Bbc(s, t, target) => branch(
            registers,
            target,
            bit_of(registers.at(s), registers.at(t) % 32) == 0,
        ),
        Inst::Bany(s, t, target) => branch(
            registers,
            target,
            registers.at(s) & registers.at(t) != 0,
        ),
        Inst::Bne(s, t, target) => branch(registers, target, registers.at(s) != registers.at(t)),
        Inst::Bge(s, t, target) => branch(
            registers,
            target,
            !signed_less(registers.at(s), registers.at(t)),
        ),
        Inst::Bgeu(s, t, target) => branch(registers, target, !(registers.at(s) < registers.at(t))),
        Inst::Bnall(s, t, target) => branch(
            registers,
            target,
            registers.at(s) & registers.at(t) != registers.at(t),
        ),
        Inst::Bbs(s, t, target) => branch(
            registers,
            target,
            bit_of(registers.at(s), registers.at(t) % 32) == 1,
        ),
        Inst::Bbci(s, bit, target) => branch(
            registers,
            target,
            bit_of(registers.at(s), natural(bit)) == 0,
        ),
        Inst::Bbsi(s, bit, target) => branch(
            registers,
            target,
            bit_of(registers.at(s), natural(bit)) == 1,
        ),
        _ => unreachable!(),
    }
}
