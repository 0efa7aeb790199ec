ghost use Rattle.xt_isa.specs.Table.{Fits, Spells};

use crate::Inst;
use crate::families::{
    Family, arithmetic, branches, choices, family_of, jumps, memory, shifts, special,
};

/// The three bytes of an instruction, the lowest first.
pub fn encode_core(inst: &Inst) -> [u8; 3]
    requires { Fits inst.now }
    ensures { Spells inst.now result }
{
    match family_of(inst) {
        Family::Arithmetic => arithmetic::encode(inst),
        Family::Special => special::encode(inst),
        Family::Shifts => shifts::encode(inst),
        Family::Choices => choices::encode(inst),
        Family::Memory => memory::encode(inst),
        Family::Jumps => jumps::encode(inst),
        Family::Branches => branches::encode(inst),
    }
}
