// Branches on two registers, or on one bit.
ghost use Rattle.std.specs.Prelude.{◌≡◌, ◌<◌, ◌↔◌, IsTrue};
ghost use Rattle.xt_isa.specs.Families.{family_of};
ghost use Rattle.xt_isa.specs.Reading.{read_b};
ghost use Rattle.xt_isa.specs.Table.{Fits, Spells};

use super::Family;
use crate::Inst;
use crate::formats::rri8;
use crate::numbers::{byte_of, is_between, is_signed, near, signed_value};
use crate::operands::is_register;

// Whether an instruction of this family has such operands.
pub fn fits(inst: &Inst) -> bool
    requires { family_of inst.now ≡ Family.Branches }
    ensures { IsTrue result ↔ Fits inst.now }
{
    match *inst {
        Inst::Bnone(s, t, target) => is_register(s) && is_register(t) && is_signed(128, target),
        Inst::Beq(s, t, target) => is_register(s) && is_register(t) && is_signed(128, target),
        Inst::Blt(s, t, target) => is_register(s) && is_register(t) && is_signed(128, target),
        Inst::Bltu(s, t, target) => is_register(s) && is_register(t) && is_signed(128, target),
        Inst::Ball(s, t, target) => is_register(s) && is_register(t) && is_signed(128, target),
        Inst::Bbc(s, t, target) => is_register(s) && is_register(t) && is_signed(128, target),
        Inst::Bany(s, t, target) => is_register(s) && is_register(t) && is_signed(128, target),
        Inst::Bne(s, t, target) => is_register(s) && is_register(t) && is_signed(128, target),
        Inst::Bge(s, t, target) => is_register(s) && is_register(t) && is_signed(128, target),
        Inst::Bgeu(s, t, target) => is_register(s) && is_register(t) && is_signed(128, target),
        Inst::Bnall(s, t, target) => is_register(s) && is_register(t) && is_signed(128, target),
        Inst::Bbs(s, t, target) => is_register(s) && is_register(t) && is_signed(128, target),
        Inst::Bbci(s, bit, target) => is_register(s)
            && is_between(0, 31, bit)
            && is_signed(128, target),
        Inst::Bbsi(s, bit, target) => is_register(s)
            && is_between(0, 31, bit)
            && is_signed(128, target),
        _ => unreachable!(),
    }
}

// The bytes of an instruction of this family.
pub fn encode(inst: &Inst) -> [u8; 3]
    requires family { family_of inst.now ≡ Family.Branches }
    requires fits { Fits inst.now }
    ensures { Spells inst.now result }
{
    match *inst {
        Inst::Bnone(s, t, target) => rri8(7, t, s, 0, near(target)),
        Inst::Beq(s, t, target) => rri8(7, t, s, 1, near(target)),
        Inst::Blt(s, t, target) => rri8(7, t, s, 2, near(target)),
        Inst::Bltu(s, t, target) => rri8(7, t, s, 3, near(target)),
        Inst::Ball(s, t, target) => rri8(7, t, s, 4, near(target)),
        Inst::Bbc(s, t, target) => rri8(7, t, s, 5, near(target)),
        Inst::Bany(s, t, target) => rri8(7, t, s, 8, near(target)),
        Inst::Bne(s, t, target) => rri8(7, t, s, 9, near(target)),
        Inst::Bge(s, t, target) => rri8(7, t, s, 10, near(target)),
        Inst::Bgeu(s, t, target) => rri8(7, t, s, 11, near(target)),
        Inst::Bnall(s, t, target) => rri8(7, t, s, 12, near(target)),
        Inst::Bbs(s, t, target) => rri8(7, t, s, 13, near(target)),
        Inst::Bbci(s, bit, target) => {
            let bit = byte_of(bit);
            rri8(7, bit % 16, s, 6 + bit / 16, near(target))
        },
        Inst::Bbsi(s, bit, target) => {
            let bit = byte_of(bit);
            rri8(7, bit % 16, s, 14 + bit / 16, near(target))
        },
        _ => unreachable!(),
    }
}

// Instructions of op0 7: branches on two registers, or on one bit, whose number's fifth bit is the lowest of r.
pub fn read_b(r: u8, s: u8, t: u8, imm8: u8) -> Option<Inst>
    requires r { r < 16 }
    requires t { t < 16 }
    ensures { result ≡ read_b r s t imm8 }
{
    let target = signed_value(128, u32::from(imm8));
    match r {
        0 => Some(Inst::Bnone(s, t, target)),
        1 => Some(Inst::Beq(s, t, target)),
        2 => Some(Inst::Blt(s, t, target)),
        3 => Some(Inst::Bltu(s, t, target)),
        4 => Some(Inst::Ball(s, t, target)),
        5 => Some(Inst::Bbc(s, t, target)),
        6..=7 => Some(Inst::Bbci(s, i32::from(t + 16 * (r - 6)), target)),
        8 => Some(Inst::Bany(s, t, target)),
        9 => Some(Inst::Bne(s, t, target)),
        10 => Some(Inst::Bge(s, t, target)),
        11 => Some(Inst::Bgeu(s, t, target)),
        12 => Some(Inst::Bnall(s, t, target)),
        13 => Some(Inst::Bbs(s, t, target)),
        _ => Some(Inst::Bbsi(s, i32::from(t + 16 * (r - 14)), target)),
    }
}
