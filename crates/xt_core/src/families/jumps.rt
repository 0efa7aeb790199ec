// A call, a jump, branches on one register.
ghost use Rattle.std.specs.Prelude.{◌≡◌, ◌<◌, ◌≤◌};
ghost use Rattle.xt_isa.specs.Families.{family_of};
ghost use Rattle.xt_isa.specs.Table.{Fits};
ghost use Rattle.xt_core.specs.Action.{action};
ghost use Rattle.xt_core.specs.Range.{IsWritable};
ghost use Rattle.xt_core.specs.View.{view_of};

use super::{ahead, branch};
use crate::Registers;
use crate::action::{Action, calls, goes};
use crate::numbers::{aligned, is_negative, moved, natural, signed32, sum32, word32};
use xt_isa::{Family, Inst};

// What an instruction of this family does.
pub fn action_of(inst: Inst, registers: &Registers) -> Action
    requires family { family_of inst ≡ Family.Jumps }
    requires fits { Fits inst }
    ensures value { result ≡ action inst (view_of registers.now) }
    ensures writable { IsWritable result }
{
    match inst {
        Inst::Call0(target) => calls(
            ahead(registers, 3),
            moved(sum32(u64::from(aligned(registers.pc)), 4), target),
        ),
        Inst::J(target) => goes(moved(ahead(registers, 4), target)),
        Inst::Beqz(s, target) => branch(registers, target, registers.at(s) == 0),
        Inst::Bnez(s, target) => branch(registers, target, registers.at(s) != 0),
        Inst::Bltz(s, target) => branch(registers, target, is_negative(registers.at(s))),
        Inst::Bgez(s, target) => branch(registers, target, !is_negative(registers.at(s))),
        Inst::Beqi(s, constant, target) => branch(
            registers,
            target,
            registers.at(s) == word32(constant),
        ),
        Inst::Bnei(s, constant, target) => branch(
            registers,
            target,
            registers.at(s) != word32(constant),
        ),
        Inst::Blti(s, constant, target) => branch(
            registers,
            target,
            signed32(registers.at(s)) < constant,
        ),
        Inst::Bgei(s, constant, target) => branch(
            registers,
            target,
            !(signed32(registers.at(s)) < constant),
        ),
        Inst::Bltui(s, constant, target) => branch(
            registers,
            target,
            registers.at(s) < natural(constant),
        ),
        Inst::Bgeui(s, constant, target) => branch(
            registers,
            target,
            !(registers.at(s) < natural(constant)),
        ),
        _ => unreachable!(),
    }
}
