// The families of the table, a file each: whether operands fit, the bytes, and the reading of a word's fields.
ghost use Rattle.std.specs.Prelude.{◌≡◌};
ghost use Rattle.xt_isa.specs.Families.{family_of};

pub mod arithmetic;
pub mod branches;
pub mod choices;
pub mod jumps;
pub mod memory;
pub mod shifts;
pub mod special;

use crate::Inst;

/// A family of instructions, which stands in the file of its name.
#[derive(Clone, Copy)]
pub enum Family {
    /// logic, sums, differences, sign
    Arithmetic,
    /// the shift amount register, jumps through a register, and what has no operand
    Special,
    /// shifts, and products of halves
    Shifts,
    /// a product, sign extension, minimum and maximum, conditional moves, a field of bits
    Choices,
    /// loads, stores, immediates
    Memory,
    /// a call, a jump, branches on one register
    Jumps,
    /// branches on two registers, or on one bit
    Branches,
}

/// The family of an instruction.
pub fn family_of(inst: &Inst) -> Family
    ensures { result ≡ family_of inst.now }
{
    match *inst {
        Inst::And(..)
        | Inst::Or(..)
        | Inst::Xor(..)
        | Inst::Add(..)
        | Inst::Addx2(..)
        | Inst::Addx4(..)
        | Inst::Addx8(..)
        | Inst::Sub(..)
        | Inst::Subx2(..)
        | Inst::Subx4(..)
        | Inst::Subx8(..)
        | Inst::Neg(..)
        | Inst::Abs(..) => Family::Arithmetic,
        Inst::Ssr(..)
        | Inst::Ssl(..)
        | Inst::Ssai(..)
        | Inst::Ret
        | Inst::Jx(..)
        | Inst::Callx0(..)
        | Inst::Nop
        | Inst::Simcall => Family::Special,
        Inst::Slli(..)
        | Inst::Srai(..)
        | Inst::Srli(..)
        | Inst::Src(..)
        | Inst::Srl(..)
        | Inst::Sll(..)
        | Inst::Sra(..)
        | Inst::Mul16u(..)
        | Inst::Mul16s(..) => Family::Shifts,
        Inst::Mull(..)
        | Inst::Sext(..)
        | Inst::Min(..)
        | Inst::Max(..)
        | Inst::Minu(..)
        | Inst::Maxu(..)
        | Inst::Moveqz(..)
        | Inst::Movnez(..)
        | Inst::Movltz(..)
        | Inst::Movgez(..)
        | Inst::Extui(..) => Family::Choices,
        Inst::L32r(..)
        | Inst::L8ui(..)
        | Inst::L16ui(..)
        | Inst::L32i(..)
        | Inst::L16si(..)
        | Inst::S8i(..)
        | Inst::S16i(..)
        | Inst::S32i(..)
        | Inst::Movi(..)
        | Inst::Addi(..)
        | Inst::Addmi(..) => Family::Memory,
        Inst::Call0(..)
        | Inst::J(..)
        | Inst::Beqz(..)
        | Inst::Bnez(..)
        | Inst::Bltz(..)
        | Inst::Bgez(..)
        | Inst::Beqi(..)
        | Inst::Bnei(..)
        | Inst::Blti(..)
        | Inst::Bgei(..)
        | Inst::Bltui(..)
        | Inst::Bgeui(..) => Family::Jumps,
        Inst::Bnone(..)
        | Inst::Beq(..)
        | Inst::Blt(..)
        | Inst::Bltu(..)
        | Inst::Ball(..)
        | Inst::Bbc(..)
        | Inst::Bany(..)
        | Inst::Bne(..)
        | Inst::Bge(..)
        | Inst::Bgeu(..)
        | Inst::Bnall(..)
        | Inst::Bbs(..)
        | Inst::Bbci(..)
        | Inst::Bbsi(..) => Family::Branches,
    }
}
