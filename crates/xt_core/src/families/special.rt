// The shift amount register, jumps through a register, and what has no operand.
ghost use Rattle.std.specs.Prelude.{◌≡◌, ◌<◌, ◌≤◌};
ghost use Rattle.xt_isa.specs.Families.{family_of};
ghost use Rattle.xt_isa.specs.Table.{Fits};
ghost use Rattle.xt_core.specs.Action.{action};
ghost use Rattle.xt_core.specs.Range.{IsWritable};
ghost use Rattle.xt_core.specs.View.{view_of};

use super::ahead;
use crate::Registers;
use crate::action::{Action, calls, goes, idle, shifts_by};
use crate::numbers::natural;
use xt_isa::{Family, Inst};

// What an instruction of this family does.
pub fn action_of(inst: Inst, registers: &Registers) -> Action
    requires family { family_of inst ≡ Family.Special }
    requires fits { Fits inst }
    ensures value { result ≡ action inst (view_of registers.now) }
    ensures writable { IsWritable result }
{
    match inst {
        Inst::Ssr(s) => shifts_by((registers.at(s) % 32) as u8),
        Inst::Ssl(s) => shifts_by(32 - (registers.at(s) % 32) as u8),
        Inst::Ssai(amount) => shifts_by(natural(amount) as u8),
        Inst::Ret => goes(registers.at(0)),
        Inst::Jx(s) => goes(registers.at(s)),
        Inst::Callx0(s) => calls(ahead(registers, 3), registers.at(s)),
        Inst::Nop => idle(),
        Inst::Simcall => Action {
            halts: true,
            ..idle()
        },
        _ => unreachable!(),
    }
}
