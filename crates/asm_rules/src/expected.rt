//! What stands in the operands' places.

ghost use Rattle.std.specs.Prelude.{◌≡◌, length, slice_get};
ghost use Rattle.asm_rules.specs.Expected as spec;

use asm_lines::Operator;
use tie_desc::{Code, Desc, Kind, args_of};
use xt_mnemonics::{Shape, shapes};

/// What stands in an operand's place.
#[derive(Clone, Copy, Debug, PartialEq, Eq)]
pub enum Expected {
    /// As in a core instruction.
    Core(Shape),
    /// A register of the file of a number.
    File(u8),
    /// A value of the range of a number.
    Immediate(u8),
    /// A value of `.byte`.
    Byte,
    /// A value of `.word`.
    Word,
    /// The number of `.align`.
    Alignment,
}

pub fn of_kind(kind: Kind) -> Expected
    ensures { result ≡ spec.of_kind kind }
{
    match kind {
        Kind::File(file) => Expected::File(file),
        Kind::Range(range) => Expected::Immediate(range),
        _ => Expected::Core(Shape::Register),
    }
}

/// What stands in the place of an operand, None behind the last.
#[tactic(auto, using(crate::proofs::Mapped::get_mapped))]
pub fn expected_at(desc: &Desc, operator: Operator, at: usize) -> Option<Expected>
    ensures { result ≡ slice_get (spec.expected desc.now operator) at }
{
    match operator {
        Operator::Core(mnemonic) => match shapes(mnemonic).get(at) {
            Some(shape) => Some(Expected::Core(*shape)),
            None => None,
        },
        Operator::Op(op) => match args_of(desc, Code::Op(op)).as_slice().get(at) {
            Some(arg) => Some(of_kind(arg.kind)),
            None => None,
        },
    }
}

/// How many operands there are.
#[tactic(auto, using(crate::proofs::Mapped::length_mapped))]
pub fn expected_count(desc: &Desc, operator: Operator) -> usize
    ensures { result ≡ length (spec.expected desc.now operator) }
{
    match operator {
        Operator::Core(mnemonic) => shapes(mnemonic).len(),
        Operator::Op(op) => args_of(desc, Code::Op(op)).as_slice().len(),
    }
}
