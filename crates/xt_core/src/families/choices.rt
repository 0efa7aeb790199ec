// A product, sign extension, minimum and maximum, conditional moves, a field of bits.
ghost use Rattle.std.specs.Prelude.{◌≡◌, ◌<◌, ◌≤◌, nat_lt, if◌then◌else◌};
ghost use Rattle.xt_isa.specs.Families.{family_of};
ghost use Rattle.xt_isa.specs.Table.{Fits};
ghost use Rattle.xt_core.specs.Action.{action};
ghost use Rattle.xt_core.specs.Range.{IsWritable};
ghost use Rattle.xt_core.specs.View.{view_of};
ghost use Rattle.xt_core.specs.Words.{signed_less};

use crate::Registers;
use crate::action::{Action, gives, only_if};
use crate::numbers::{field_of, is_negative, natural, sign_extended, signed_less};
use xt_isa::{Family, Inst};

fn signed_min(x: u32, y: u32) -> u32
    ensures { result ≡ (if signed_less x y then x else y) }
{
    if signed_less(x, y) { x } else { y }
}

fn signed_max(x: u32, y: u32) -> u32
    ensures { result ≡ (if signed_less x y then y else x) }
{
    if signed_less(x, y) { y } else { x }
}

fn unsigned_min(x: u32, y: u32) -> u32
    ensures { result ≡ (if nat_lt x y then x else y) }
{
    if x < y { x } else { y }
}

fn unsigned_max(x: u32, y: u32) -> u32
    ensures { result ≡ (if nat_lt x y then y else x) }
{
    if x < y { y } else { x }
}

// What an instruction of this family does.
pub fn action_of(inst: Inst, registers: &Registers) -> Action
    requires family { family_of inst ≡ Family.Choices }
    requires fits { Fits inst }
    ensures value { result ≡ action inst (view_of registers.now) }
    ensures writable { IsWritable result }
{
    match inst {
        Inst::Mull(r, s, t) => gives(r, registers.at(s).wrapping_mul(registers.at(t))),
        Inst::Sext(r, s, place) => gives(r, sign_extended(registers.at(s), natural(place))),
        Inst::Min(r, s, t) => gives(r, signed_min(registers.at(s), registers.at(t))),
        Inst::Max(r, s, t) => gives(r, signed_max(registers.at(s), registers.at(t))),
        Inst::Minu(r, s, t) => gives(r, unsigned_min(registers.at(s), registers.at(t))),
        Inst::Maxu(r, s, t) => gives(r, unsigned_max(registers.at(s), registers.at(t))),
        Inst::Moveqz(r, s, t) => only_if(registers.at(t) == 0, gives(r, registers.at(s))),
        Inst::Movnez(r, s, t) => only_if(registers.at(t) != 0, gives(r, registers.at(s))),
        Inst::Movltz(r, s, t) => only_if(is_negative(registers.at(t)), gives(r, registers.at(s))),
        Inst::Movgez(r, s, t) => only_if(!is_negative(registers.at(t)), gives(r, registers.at(s))),
        Inst::Extui(r, t, shift, width) => gives(
            r,
            field_of(registers.at(t), natural(shift), natural(width)),
        ),
        _ => unreachable!(),
    }
}
