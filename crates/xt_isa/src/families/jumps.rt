// A call, a jump, branches on one register.
ghost use Rattle.std.specs.Prelude.{◌≡◌, ◌<◌, ◌↔◌, IsTrue};
ghost use Rattle.xt_isa.specs.Families.{family_of};
ghost use Rattle.xt_isa.specs.Reading.{read_bi, read_bz, read_calls, read_si};
ghost use Rattle.xt_isa.specs.Table.{Fits, Spells};

use super::Family;
use crate::Inst;
use crate::constants::{
    constant_at, constant_code, is_constant, is_unsigned_constant, unsigned_at, unsigned_code,
};
use crate::formats::{bri8, bri12, call_format};
use crate::numbers::{is_multiple, is_signed, near, signed_value, twos_complement};
use crate::operands::is_register;

// Whether an instruction of this family has such operands.
pub fn fits(inst: &Inst) -> bool
    requires { family_of inst.now ≡ Family.Jumps }
    ensures { IsTrue result ↔ Fits inst.now }
{
    match *inst {
        Inst::Call0(target) => is_signed(524288, target) && is_multiple(4, target),
        Inst::J(target) => is_signed(131072, target),
        Inst::Beqz(s, target) => is_register(s) && is_signed(2048, target),
        Inst::Bnez(s, target) => is_register(s) && is_signed(2048, target),
        Inst::Bltz(s, target) => is_register(s) && is_signed(2048, target),
        Inst::Bgez(s, target) => is_register(s) && is_signed(2048, target),
        Inst::Beqi(s, constant, target) => is_register(s)
            && is_constant(constant)
            && is_signed(128, target),
        Inst::Bnei(s, constant, target) => is_register(s)
            && is_constant(constant)
            && is_signed(128, target),
        Inst::Blti(s, constant, target) => is_register(s)
            && is_constant(constant)
            && is_signed(128, target),
        Inst::Bgei(s, constant, target) => is_register(s)
            && is_constant(constant)
            && is_signed(128, target),
        Inst::Bltui(s, constant, target) => is_register(s)
            && is_unsigned_constant(constant)
            && is_signed(128, target),
        Inst::Bgeui(s, constant, target) => is_register(s)
            && is_unsigned_constant(constant)
            && is_signed(128, target),
        _ => unreachable!(),
    }
}

// The bytes of an instruction of this family.
pub fn encode(inst: &Inst) -> [u8; 3]
    requires family { family_of inst.now ≡ Family.Jumps }
    requires fits { Fits inst.now }
    ensures { Spells inst.now result }
{
    match *inst {
        Inst::Call0(target) => call_format(5, 0, twos_complement(524288, target) / 4),
        Inst::J(target) => call_format(6, 0, twos_complement(131072, target)),
        Inst::Beqz(s, target) => bri12(6, 1, 0, s, twos_complement(2048, target) as u16),
        Inst::Bnez(s, target) => bri12(6, 1, 1, s, twos_complement(2048, target) as u16),
        Inst::Bltz(s, target) => bri12(6, 1, 2, s, twos_complement(2048, target) as u16),
        Inst::Bgez(s, target) => bri12(6, 1, 3, s, twos_complement(2048, target) as u16),
        Inst::Beqi(s, constant, target) => bri8(
            6,
            2,
            0,
            s,
            constant_code(constant) as u8,
            near(target),
        ),
        Inst::Bnei(s, constant, target) => bri8(
            6,
            2,
            1,
            s,
            constant_code(constant) as u8,
            near(target),
        ),
        Inst::Blti(s, constant, target) => bri8(
            6,
            2,
            2,
            s,
            constant_code(constant) as u8,
            near(target),
        ),
        Inst::Bgei(s, constant, target) => bri8(
            6,
            2,
            3,
            s,
            constant_code(constant) as u8,
            near(target),
        ),
        Inst::Bltui(s, constant, target) => bri8(
            6,
            3,
            2,
            s,
            unsigned_code(constant) as u8,
            near(target),
        ),
        Inst::Bgeui(s, constant, target) => bri8(
            6,
            3,
            3,
            s,
            unsigned_code(constant) as u8,
            near(target),
        ),
        _ => unreachable!(),
    }
}

// The instruction of op0 5, where the low two bits of t are 0: a call.
pub fn read_calls(t: u8, offset: u32) -> Option<Inst>
    requires { offset < 262144 }
    ensures { result ≡ read_calls t offset }
{
    match t % 4 {
        0 => Some(Inst::Call0(signed_value(524288, 4 * offset))),
        _ => None,
    }
}

// Instructions of op0 6 whose low two bits of t are 1: branches on one register.
fn read_bz(t: u8, s: u8, imm12: u32) -> Option<Inst>
    requires { imm12 < 4096 }
    ensures { result ≡ read_bz t s imm12 }
{
    let target = signed_value(2048, imm12);
    match t {
        1 => Some(Inst::Beqz(s, target)),
        5 => Some(Inst::Bnez(s, target)),
        9 => Some(Inst::Bltz(s, target)),
        13 => Some(Inst::Bgez(s, target)),
        _ => None,
    }
}

// Instructions of op0 6 whose low two bits of t are 2 or 3: branches on a register and a constant.
fn read_bi(t: u8, r: u8, s: u8, imm8: u8) -> Option<Inst>
    requires { r < 16 }
    ensures { result ≡ read_bi t r s imm8 }
{
    let target = signed_value(128, u32::from(imm8));
    match t {
        2 => Some(Inst::Beqi(s, constant_at(r), target)),
        6 => Some(Inst::Bnei(s, constant_at(r), target)),
        10 => Some(Inst::Blti(s, constant_at(r), target)),
        14 => Some(Inst::Bgei(s, constant_at(r), target)),
        11 => Some(Inst::Bltui(s, unsigned_at(r), target)),
        15 => Some(Inst::Bgeui(s, unsigned_at(r), target)),
        _ => None,
    }
}

// Instructions of op0 6: a jump, and branches on one register.
pub fn read_si(t: u8, r: u8, s: u8, imm8: u8, imm12: u32, offset: u32) -> Option<Inst>
    requires r { r < 16 }
    requires imm12 { imm12 < 4096 }
    requires offset { offset < 262144 }
    ensures { result ≡ read_si t r s imm8 imm12 offset }
{
    match t % 4 {
        0 => Some(Inst::J(signed_value(131072, offset))),
        1 => read_bz(t, s, imm12),
        _ => read_bi(t, r, s, imm8),
    }
}
