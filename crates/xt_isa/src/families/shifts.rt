// Shifts, and products of halves.
ghost use Rattle.std.specs.Prelude.{◌≡◌, ◌<◌, ◌↔◌, IsTrue};
ghost use Rattle.xt_isa.specs.Families.{family_of};
ghost use Rattle.xt_isa.specs.Reading.{read_rst1};
ghost use Rattle.xt_isa.specs.Table.{Fits, Spells};

use super::Family;
use crate::Inst;
use crate::formats::rrr;
use crate::numbers::{byte_of, is_between};
use crate::operands::is_register;

// Whether an instruction of this family has such operands.
pub fn fits(inst: &Inst) -> bool
    requires { family_of inst.now ≡ Family.Shifts }
    ensures { IsTrue result ↔ Fits inst.now }
{
    match *inst {
        Inst::Src(r, s, t) | Inst::Mul16u(r, s, t) | Inst::Mul16s(r, s, t) => is_register(r)
            && is_register(s)
            && is_register(t),
        Inst::Srl(r, t) | Inst::Sra(r, t) => is_register(r) && is_register(t),
        Inst::Slli(r, s, amount) => is_register(r) && is_register(s) && is_between(1, 31, amount),
        Inst::Srai(r, t, amount) => is_register(r) && is_register(t) && is_between(0, 31, amount),
        Inst::Srli(r, t, amount) => is_register(r) && is_register(t) && is_between(0, 15, amount),
        Inst::Sll(r, s) => is_register(r) && is_register(s),
        _ => unreachable!(),
    }
}

// The bytes of an instruction of this family.
pub fn encode(inst: &Inst) -> [u8; 3]
    requires family { family_of inst.now ≡ Family.Shifts }
    requires fits { Fits inst.now }
    ensures { Spells inst.now result }
{
    match *inst {
        Inst::Slli(r, s, amount) => {
            let rest = 32 - byte_of(amount);
            rrr(0, rest % 16, s, r, 1, rest / 16)
        },
        Inst::Srai(r, t, amount) => {
            let amount = byte_of(amount);
            rrr(0, t, amount % 16, r, 1, 2 + amount / 16)
        },
        Inst::Srli(r, t, amount) => rrr(0, t, byte_of(amount), r, 1, 4),
        Inst::Src(r, s, t) => rrr(0, t, s, r, 1, 8),
        Inst::Srl(r, t) => rrr(0, t, 0, r, 1, 9),
        Inst::Sll(r, s) => rrr(0, 0, s, r, 1, 10),
        Inst::Sra(r, t) => rrr(0, t, 0, r, 1, 11),
        Inst::Mul16u(r, s, t) => rrr(0, t, s, r, 1, 12),
        Inst::Mul16s(r, s, t) => rrr(0, t, s, r, 1, 13),
        _ => unreachable!(),
    }
}

// Instructions of op0 0, op1 1: shifts, and products of halves. The lowest bit of op2 is the fifth bit of an amount;
// SLLI holds 32 minus its amount.
pub fn read_rst1(op2: u8, r: u8, s: u8, t: u8) -> Option<Inst>
    requires s { s < 16 }
    requires t { t < 16 }
    ensures { result ≡ read_rst1 op2 r s t }
{
    if op2 < 2 && 0 < t + 16 * op2 {
        return Some(Inst::Slli(r, s, i32::from(32 - (t + 16 * op2))));
    }
    if 2 <= op2 && op2 < 4 {
        return Some(Inst::Srai(r, t, i32::from(s + 16 * (op2 - 2))));
    }
    match op2 {
        4 => Some(Inst::Srli(r, t, i32::from(s))),
        8 => Some(Inst::Src(r, s, t)),
        9 if s == 0 => Some(Inst::Srl(r, t)),
        10 if t == 0 => Some(Inst::Sll(r, s)),
        11 if s == 0 => Some(Inst::Sra(r, t)),
        12 => Some(Inst::Mul16u(r, s, t)),
        13 => Some(Inst::Mul16s(r, s, t)),
        _ => None,
    }
}
