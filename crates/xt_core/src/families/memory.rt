// Loads, stores, immediates.
ghost use Rattle.std.specs.Prelude.{◌≡◌, ◌<◌, ◌≤◌};
ghost use Rattle.xt_isa.specs.Families.{family_of};
ghost use Rattle.xt_isa.specs.Table.{Fits};
ghost use Rattle.xt_core.specs.Action.{action, address_of};
ghost use Rattle.xt_core.specs.Range.{IsWritable};
ghost use Rattle.xt_core.specs.View.{view_of};

use super::ahead;
use crate::Registers;
use crate::action::{Action, gives, loads, stores};
use crate::numbers::{aligned, moved, word32};
use xt_isa::{Family, Inst};

// A register's value and the offset.
fn address_of(registers: &Registers, s: u8, offset: i32) -> u32
    requires { s < 16 }
    ensures { result ≡ address_of (view_of registers.now) s offset }
{
    moved(registers.at(s), offset)
}

// What an instruction of this family does.
pub fn action_of(inst: Inst, registers: &Registers) -> Action
    requires family { family_of inst ≡ Family.Memory }
    requires fits { Fits inst }
    ensures value { result ≡ action inst (view_of registers.now) }
    ensures writable { IsWritable result }
{
    match inst {
        Inst::L32r(t, target) => loads(moved(aligned(ahead(registers, 3)), target), 4, false, t),
        Inst::L8ui(t, s, offset) => loads(address_of(registers, s, offset), 1, false, t),
        Inst::L16ui(t, s, offset) => loads(address_of(registers, s, offset), 2, false, t),
        Inst::L32i(t, s, offset) => loads(address_of(registers, s, offset), 4, false, t),
        Inst::L16si(t, s, offset) => loads(address_of(registers, s, offset), 2, true, t),
        Inst::S8i(t, s, offset) => stores(address_of(registers, s, offset), 1, registers.at(t)),
        Inst::S16i(t, s, offset) => stores(address_of(registers, s, offset), 2, registers.at(t)),
        Inst::S32i(t, s, offset) => stores(address_of(registers, s, offset), 4, registers.at(t)),
        Inst::Movi(t, value) => gives(t, word32(value)),
        Inst::Addi(t, s, value) => gives(t, moved(registers.at(s), value)),
        Inst::Addmi(t, s, value) => gives(t, moved(registers.at(s), value)),
        _ => unreachable!(),
    }
}
