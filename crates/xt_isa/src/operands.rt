ghost use Rattle.std.specs.Prelude.{◌↔◌, IsTrue};
ghost use Rattle.xt_isa.specs.Table.{Fits, IsRegister};

use crate::Inst;
use crate::families::{
    Family, arithmetic, branches, choices, family_of, jumps, memory, shifts, special,
};

// Whether a number is that of a register.
pub fn is_register(number: u8) -> bool
    ensures { IsTrue result ↔ IsRegister number }
{
    number < 16
}

/// Whether the instruction's pattern has these operands: registers below 16, numbers, constants and targets as the
/// variant's line says.
pub fn fits(inst: &Inst) -> bool
    ensures { IsTrue result ↔ Fits inst.now }
{
    match family_of(inst) {
        Family::Arithmetic => arithmetic::fits(inst),
        Family::Special => special::fits(inst),
        Family::Shifts => shifts::fits(inst),
        Family::Choices => choices::fits(inst),
        Family::Memory => memory::fits(inst),
        Family::Jumps => jumps::fits(inst),
        Family::Branches => branches::fits(inst),
    }
}
