// A product, sign extension, minimum and maximum, conditional moves, a field of bits.
ghost use Rattle.std.specs.Prelude.{◌≡◌, ◌<◌, ◌↔◌, IsTrue};
ghost use Rattle.xt_isa.specs.Families.{family_of};
ghost use Rattle.xt_isa.specs.Reading.{read_qrst, read_rst2, read_rst3};
ghost use Rattle.xt_isa.specs.Table.{Fits, Spells};

use super::Family;
use super::arithmetic::read_rst0;
use super::shifts::read_rst1;
use crate::Inst;
use crate::formats::rrr;
use crate::numbers::{byte_of, is_between};
use crate::operands::is_register;

// Whether an instruction of this family has such operands.
pub fn fits(inst: &Inst) -> bool
    requires { family_of inst.now ≡ Family.Choices }
    ensures { IsTrue result ↔ Fits inst.now }
{
    match *inst {
        Inst::Mull(r, s, t)
        | Inst::Min(r, s, t)
        | Inst::Max(r, s, t)
        | Inst::Minu(r, s, t)
        | Inst::Maxu(r, s, t)
        | Inst::Moveqz(r, s, t)
        | Inst::Movnez(r, s, t)
        | Inst::Movltz(r, s, t)
        | Inst::Movgez(r, s, t) => is_register(r) && is_register(s) && is_register(t),
        Inst::Sext(r, s, place) => is_register(r) && is_register(s) && is_between(7, 22, place),
        Inst::Extui(r, t, shift, width) => is_register(r)
            && is_register(t)
            && is_between(0, 31, shift)
            && is_between(1, 16, width),
        _ => unreachable!(),
    }
}

// The bytes of an instruction of this family.
pub fn encode(inst: &Inst) -> [u8; 3]
    requires family { family_of inst.now ≡ Family.Choices }
    requires fits { Fits inst.now }
    ensures { Spells inst.now result }
{
    match *inst {
        Inst::Mull(r, s, t) => rrr(0, t, s, r, 2, 8),
        Inst::Sext(r, s, place) => rrr(0, byte_of(place) - 7, s, r, 3, 2),
        Inst::Min(r, s, t) => rrr(0, t, s, r, 3, 4),
        Inst::Max(r, s, t) => rrr(0, t, s, r, 3, 5),
        Inst::Minu(r, s, t) => rrr(0, t, s, r, 3, 6),
        Inst::Maxu(r, s, t) => rrr(0, t, s, r, 3, 7),
        Inst::Moveqz(r, s, t) => rrr(0, t, s, r, 3, 8),
        Inst::Movnez(r, s, t) => rrr(0, t, s, r, 3, 9),
        Inst::Movltz(r, s, t) => rrr(0, t, s, r, 3, 10),
        Inst::Movgez(r, s, t) => rrr(0, t, s, r, 3, 11),
        Inst::Extui(r, t, shift, width) => {
            let shift = byte_of(shift);
            rrr(0, t, shift % 16, r, 4 + shift / 16, byte_of(width) - 1)
        },
        _ => unreachable!(),
    }
}

// Instructions of op0 0, op1 2: a product.
fn read_rst2(op2: u8, r: u8, s: u8, t: u8) -> Option<Inst>
    ensures { result ≡ read_rst2 op2 r s t }
{
    match op2 {
        8 => Some(Inst::Mull(r, s, t)),
        _ => None,
    }
}

// Instructions of op0 0, op1 3: sign extension, minimum and maximum, conditional moves.
fn read_rst3(op2: u8, r: u8, s: u8, t: u8) -> Option<Inst>
    requires t { t < 16 }
    ensures { result ≡ read_rst3 op2 r s t }
{
    match op2 {
        2 => Some(Inst::Sext(r, s, i32::from(t + 7))),
        4 => Some(Inst::Min(r, s, t)),
        5 => Some(Inst::Max(r, s, t)),
        6 => Some(Inst::Minu(r, s, t)),
        7 => Some(Inst::Maxu(r, s, t)),
        8 => Some(Inst::Moveqz(r, s, t)),
        9 => Some(Inst::Movnez(r, s, t)),
        10 => Some(Inst::Movltz(r, s, t)),
        11 => Some(Inst::Movgez(r, s, t)),
        _ => None,
    }
}

// Instructions of op0 0, without an immediate of eight bits.
pub fn read_qrst(op1: u8, op2: u8, r: u8, s: u8, t: u8) -> Option<Inst>
    requires op2 { op2 < 16 }
    requires s { s < 16 }
    requires t { t < 16 }
    ensures { result ≡ read_qrst op1 op2 r s t }
{
    match op1 {
        0 => read_rst0(op2, r, s, t),
        1 => read_rst1(op2, r, s, t),
        2 => read_rst2(op2, r, s, t),
        3 => read_rst3(op2, r, s, t),
        4..=5 => {
            let shift = s + 16 * (op1 - 4);
            Some(Inst::Extui(r, t, i32::from(shift), i32::from(op2 + 1)))
        }
        _ => None,
    }
}
