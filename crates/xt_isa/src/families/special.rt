// The shift amount register, jumps through a register, and what has no operand.
ghost use Rattle.std.specs.Prelude.{◌≡◌, ◌<◌, ◌↔◌, IsTrue};
ghost use Rattle.xt_isa.specs.Families.{family_of};
ghost use Rattle.xt_isa.specs.Reading.{read_st0, read_st1};
ghost use Rattle.xt_isa.specs.Table.{Fits, Spells};

use super::Family;
use crate::Inst;
use crate::formats::rrr;
use crate::numbers::{byte_of, is_between};
use crate::operands::is_register;

// Whether an instruction of this family has such operands.
pub fn fits(inst: &Inst) -> bool
    requires { family_of inst.now ≡ Family.Special }
    ensures { IsTrue result ↔ Fits inst.now }
{
    match *inst {
        Inst::Ssr(s) | Inst::Ssl(s) | Inst::Jx(s) | Inst::Callx0(s) => is_register(s),
        Inst::Ssai(amount) => is_between(0, 31, amount),
        Inst::Ret | Inst::Nop | Inst::Simcall => true,
        _ => unreachable!(),
    }
}

// The bytes of an instruction of this family.
pub fn encode(inst: &Inst) -> [u8; 3]
    requires family { family_of inst.now ≡ Family.Special }
    requires fits { Fits inst.now }
    ensures { Spells inst.now result }
{
    match *inst {
        Inst::Ssr(s) => rrr(0, 0, s, 0, 0, 4),
        Inst::Ssl(s) => rrr(0, 0, s, 1, 0, 4),
        Inst::Ssai(amount) => {
            let amount = byte_of(amount);
            rrr(0, amount / 16, amount % 16, 4, 0, 4)
        },
        Inst::Ret => rrr(0, 8, 0, 0, 0, 0),
        Inst::Jx(s) => rrr(0, 10, s, 0, 0, 0),
        Inst::Callx0(s) => rrr(0, 12, s, 0, 0, 0),
        Inst::Nop => rrr(0, 15, 0, 2, 0, 0),
        Inst::Simcall => rrr(0, 0, 1, 5, 0, 0),
        _ => unreachable!(),
    }
}

// Instructions of op0 0, op1 0, op2 0: jumps through a register, and what has no operand.
pub fn read_st0(r: u8, s: u8, t: u8) -> Option<Inst>
    ensures { result ≡ read_st0 r s t }
{
    match (r, s, t) {
        (0, 0, 8) => Some(Inst::Ret),
        (0, _, 10) => Some(Inst::Jx(s)),
        (0, _, 12) => Some(Inst::Callx0(s)),
        (2, 0, 15) => Some(Inst::Nop),
        (5, 1, 0) => Some(Inst::Simcall),
        _ => None,
    }
}

// Instructions of op0 0, op1 0, op2 4: the shift amount register.
pub fn read_st1(r: u8, s: u8, t: u8) -> Option<Inst>
    requires s { s < 16 }
    ensures { result ≡ read_st1 r s t }
{
    match (r, t) {
        (4, 0..=1) => Some(Inst::Ssai(i32::from(s + 16 * t))),
        (0, 0) => Some(Inst::Ssr(s)),
        (1, 0) => Some(Inst::Ssl(s)),
        _ => None,
    }
}
