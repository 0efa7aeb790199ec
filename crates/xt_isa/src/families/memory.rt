// Loads, stores, immediates.
ghost use Rattle.std.specs.Prelude.{◌≡◌, ◌<◌, ◌↔◌, IsTrue};
ghost use Rattle.xt_isa.specs.Families.{family_of};
ghost use Rattle.xt_isa.specs.Reading.{read_l32r, read_lsai};
ghost use Rattle.xt_isa.specs.Table.{Fits, Spells};

use super::Family;
use crate::Inst;
use crate::formats::{ri16, rri8};
use crate::numbers::{
    byte_of, is_backward, is_between, is_multiple, is_signed, near, signed_value, twos_complement,
};
use crate::operands::is_register;

// Whether an instruction of this family has such operands.
pub fn fits(inst: &Inst) -> bool
    requires { family_of inst.now ≡ Family.Memory }
    ensures { IsTrue result ↔ Fits inst.now }
{
    match *inst {
        Inst::L32r(t, target) => is_register(t)
            && is_backward(262144, target)
            && is_multiple(4, target),
        Inst::L8ui(t, s, offset) => is_register(t) && is_register(s) && is_between(0, 255, offset),
        Inst::L16ui(t, s, offset) => is_register(t)
            && is_register(s)
            && is_between(0, 510, offset)
            && is_multiple(2, offset),
        Inst::L32i(t, s, offset) => is_register(t)
            && is_register(s)
            && is_between(0, 1020, offset)
            && is_multiple(4, offset),
        Inst::L16si(t, s, offset) => is_register(t)
            && is_register(s)
            && is_between(0, 510, offset)
            && is_multiple(2, offset),
        Inst::S8i(t, s, offset) => is_register(t) && is_register(s) && is_between(0, 255, offset),
        Inst::S16i(t, s, offset) => is_register(t)
            && is_register(s)
            && is_between(0, 510, offset)
            && is_multiple(2, offset),
        Inst::S32i(t, s, offset) => is_register(t)
            && is_register(s)
            && is_between(0, 1020, offset)
            && is_multiple(4, offset),
        Inst::Movi(t, value) => is_register(t) && is_signed(2048, value),
        Inst::Addi(t, s, value) => is_register(t) && is_register(s) && is_signed(128, value),
        Inst::Addmi(t, s, value) => is_register(t)
            && is_register(s)
            && is_signed(32768, value)
            && is_multiple(256, value),
        _ => unreachable!(),
    }
}

// The bytes of an instruction of this family.
pub fn encode(inst: &Inst) -> [u8; 3]
    requires family { family_of inst.now ≡ Family.Memory }
    requires fits { Fits inst.now }
    ensures { Spells inst.now result }
{
    match *inst {
        Inst::L32r(t, target) => ri16(1, t, ((target + 262144) / 4) as u16),
        Inst::L8ui(t, s, offset) => rri8(2, t, s, 0, byte_of(offset)),
        Inst::L16ui(t, s, offset) => rri8(2, t, s, 1, (offset.unsigned_abs() / 2) as u8),
        Inst::L32i(t, s, offset) => rri8(2, t, s, 2, (offset.unsigned_abs() / 4) as u8),
        Inst::L16si(t, s, offset) => rri8(2, t, s, 9, (offset.unsigned_abs() / 2) as u8),
        Inst::S8i(t, s, offset) => rri8(2, t, s, 4, byte_of(offset)),
        Inst::S16i(t, s, offset) => rri8(2, t, s, 5, (offset.unsigned_abs() / 2) as u8),
        Inst::S32i(t, s, offset) => rri8(2, t, s, 6, (offset.unsigned_abs() / 4) as u8),
        Inst::Movi(t, value) => {
            let code = twos_complement(2048, value);
            rri8(2, t, (code / 256) as u8, 10, (code % 256) as u8)
        },
        Inst::Addi(t, s, value) => rri8(2, t, s, 12, near(value)),
        Inst::Addmi(t, s, value) => rri8(2, t, s, 13, (twos_complement(32768, value) / 256) as u8),
        _ => unreachable!(),
    }
}

// The instruction of op0 1: a word from before the pc. The sixteen bits stand below ones.
pub fn read_l32r(t: u8, imm16: u32) -> Option<Inst>
    requires { imm16 < 65536 }
    ensures { result ≡ read_l32r t imm16 }
{
    Some(Inst::L32r(t, 4 * imm16 as i32 - 262144))
}

// Instructions of op0 2: loads, stores, and what adds or sets an immediate.
pub fn read_lsai(r: u8, s: u8, t: u8, imm8: u8) -> Option<Inst>
    requires { s < 16 }
    ensures { result ≡ read_lsai r s t imm8 }
{
    let imm = u32::from(imm8);
    let offset = i32::from(imm8);
    match r {
        0 => Some(Inst::L8ui(t, s, offset)),
        1 => Some(Inst::L16ui(t, s, 2 * offset)),
        2 => Some(Inst::L32i(t, s, 4 * offset)),
        4 => Some(Inst::S8i(t, s, offset)),
        5 => Some(Inst::S16i(t, s, 2 * offset)),
        6 => Some(Inst::S32i(t, s, 4 * offset)),
        9 => Some(Inst::L16si(t, s, 2 * offset)),
        10 => Some(Inst::Movi(t, signed_value(2048, imm + 256 * u32::from(s)))),
        12 => Some(Inst::Addi(t, s, signed_value(128, imm))),
        13 => Some(Inst::Addmi(t, s, signed_value(32768, 256 * imm))),
        _ => None,
    }
}
