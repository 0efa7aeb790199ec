// Logic, sums, differences, sign.
ghost use Rattle.std.specs.Prelude.{◌≡◌, ◌<◌, ◌↔◌, IsTrue};
ghost use Rattle.xt_isa.specs.Families.{family_of};
ghost use Rattle.xt_isa.specs.Reading.{read_rst0, read_rt0};
ghost use Rattle.xt_isa.specs.Table.{Fits, Spells};

use super::Family;
use super::special::{read_st0, read_st1};
use crate::Inst;
use crate::formats::rrr;
use crate::operands::is_register;

// Whether an instruction of this family has such operands.
pub fn fits(inst: &Inst) -> bool
    requires { family_of inst.now ≡ Family.Arithmetic }
    ensures { IsTrue result ↔ Fits inst.now }
{
    match *inst {
        Inst::And(r, s, t)
        | Inst::Or(r, s, t)
        | Inst::Xor(r, s, t)
        | Inst::Add(r, s, t)
        | Inst::Addx2(r, s, t)
        | Inst::Addx4(r, s, t)
        | Inst::Addx8(r, s, t)
        | Inst::Sub(r, s, t)
        | Inst::Subx2(r, s, t)
        | Inst::Subx4(r, s, t)
        | Inst::Subx8(r, s, t) => is_register(r) && is_register(s) && is_register(t),
        Inst::Neg(r, t) | Inst::Abs(r, t) => is_register(r) && is_register(t),
        _ => unreachable!(),
    }
}

// The bytes of an instruction of this family.
pub fn encode(inst: &Inst) -> [u8; 3]
    requires family { family_of inst.now ≡ Family.Arithmetic }
    requires fits { Fits inst.now }
    ensures { Spells inst.now result }
{
    match *inst {
        Inst::And(r, s, t) => rrr(0, t, s, r, 0, 1),
        Inst::Or(r, s, t) => rrr(0, t, s, r, 0, 2),
        Inst::Xor(r, s, t) => rrr(0, t, s, r, 0, 3),
        Inst::Add(r, s, t) => rrr(0, t, s, r, 0, 8),
        Inst::Addx2(r, s, t) => rrr(0, t, s, r, 0, 9),
        Inst::Addx4(r, s, t) => rrr(0, t, s, r, 0, 10),
        Inst::Addx8(r, s, t) => rrr(0, t, s, r, 0, 11),
        Inst::Sub(r, s, t) => rrr(0, t, s, r, 0, 12),
        Inst::Subx2(r, s, t) => rrr(0, t, s, r, 0, 13),
        Inst::Subx4(r, s, t) => rrr(0, t, s, r, 0, 14),
        Inst::Subx8(r, s, t) => rrr(0, t, s, r, 0, 15),
        Inst::Neg(r, t) => rrr(0, t, 0, r, 0, 6),
        Inst::Abs(r, t) => rrr(0, t, 1, r, 0, 6),
        _ => unreachable!(),
    }
}

// Instructions of op0 0, op1 0, op2 6: sign and absolute value.
fn read_rt0(r: u8, s: u8, t: u8) -> Option<Inst>
    ensures { result ≡ read_rt0 r s t }
{
    match s {
        0 => Some(Inst::Neg(r, t)),
        1 => Some(Inst::Abs(r, t)),
        _ => None,
    }
}

// Instructions of op0 0, op1 0: logic, sums, differences, and the three families above.
pub fn read_rst0(op2: u8, r: u8, s: u8, t: u8) -> Option<Inst>
    requires s { s < 16 }
    ensures { result ≡ read_rst0 op2 r s t }
{
    match op2 {
        0 => read_st0(r, s, t),
        1 => Some(Inst::And(r, s, t)),
        2 => Some(Inst::Or(r, s, t)),
        3 => Some(Inst::Xor(r, s, t)),
        4 => read_st1(r, s, t),
        6 => read_rt0(r, s, t),
        8 => Some(Inst::Add(r, s, t)),
        9 => Some(Inst::Addx2(r, s, t)),
        10 => Some(Inst::Addx4(r, s, t)),
        11 => Some(Inst::Addx8(r, s, t)),
        12 => Some(Inst::Sub(r, s, t)),
        13 => Some(Inst::Subx2(r, s, t)),
        14 => Some(Inst::Subx4(r, s, t)),
        15 => Some(Inst::Subx8(r, s, t)),
        _ => None,
    }
}
