//! Operations as parts of formats.

ghost use Rattle.std.specs.Prelude.{◌≡◌, ◌∷◌, [], ◌<◌, slice_get, unsigned_abs, Some, None, pos, unwrap_or};
ghost use Rattle.asm_rules.specs.Slots as spec;
ghost use Rattle.asm_rules.specs.Expected.{of_access};

use crate::expected::{Expected, of_kind};
use crate::meaning::{meant, place_in};
use asm_lines::{Operand, Operation, Operator};
use tie_desc::{Access, Code, Desc, SlotCore, args_of};
use xt_mnemonics::Mnemonic;

fn slot_core(mnemonic: Mnemonic) -> Option<SlotCore>
    ensures { result ≡ spec.slot_core mnemonic }
{
    match mnemonic {
        Mnemonic::Add => Some(SlotCore::Add),
        Mnemonic::Addx2 => Some(SlotCore::Addx2),
        Mnemonic::Addx4 => Some(SlotCore::Addx4),
        Mnemonic::Addx8 => Some(SlotCore::Addx8),
        Mnemonic::Sub => Some(SlotCore::Sub),
        Mnemonic::Subx2 => Some(SlotCore::Subx2),
        Mnemonic::Subx4 => Some(SlotCore::Subx4),
        Mnemonic::Subx8 => Some(SlotCore::Subx8),
        Mnemonic::And => Some(SlotCore::And),
        Mnemonic::Or => Some(SlotCore::Or),
        Mnemonic::Xor => Some(SlotCore::Xor),
        Mnemonic::Min => Some(SlotCore::Min),
        Mnemonic::Max => Some(SlotCore::Max),
        Mnemonic::Minu => Some(SlotCore::Minu),
        Mnemonic::Maxu => Some(SlotCore::Maxu),
        Mnemonic::Mull => Some(SlotCore::Mull),
        Mnemonic::Nop => Some(SlotCore::Nop),
        _ => None,
    }
}

fn code_of(operator: Operator) -> Option<Code>
    ensures { result ≡ spec.code_of operator }
{
    match operator {
        Operator::Core(mnemonic) => match slot_core(mnemonic) {
            Some(core) => Some(Code::Core(core)),
            None => None,
        },
        Operator::Op(op) => Some(Code::Op(op)),
    }
}

/// The code of an operation in a slot, if slots may hold it.
pub fn code_in(operation: &Operation) -> Option<Code>
    ensures { result ≡ spec.code_in operation.now }
{
    match operation.operator {
        None => None,
        Some(operator) => code_of(operator),
    }
}

fn range_place(desc: &Desc, range: u8, number: i64) -> u128
    ensures { result ≡ spec.range_place (slice_get desc.now.ranges range) number }
{
    desc.facts();
    match desc.ranges.get(range as usize) {
        None => 0,
        Some(range) => place_in(range, number),
    }
}

/// The number in the field of an operand: of its register, or of its value in the range.
pub fn field_of(desc: &Desc, expected: Expected, operand: &Operand) -> u8
    ensures { result ≡ spec.field_of desc.now expected operand.now }
{
    let number = meant(desc, expected, operand).unwrap_or(0);
    match expected {
        Expected::Immediate(range) => (range_place(desc, range, number) % 16) as u8,
        _ => (number.unsigned_abs() % 16) as u8,
    }
}

fn field_at(desc: &Desc, args: &[Access], operands: &[Operand], at: usize) -> u8
    ensures { result ≡ spec.field_at desc.now (slice_get args.now at) (slice_get operands.now at) }
{
    match args.get(at) {
        None => 0,
        Some(arg) => match operands.get(at) {
            None => 0,
            Some(operand) => field_of(desc, of_kind(arg.kind), operand),
        },
    }
}

/// The fields of a code with these operands; one that the code doesn't have is 0.
pub fn fields(desc: &Desc, code: Code, operands: &[Operand]) -> [u8; 3]
    ensures { result ≡ spec.fields desc.now code operands.now }
{
    let args = args_of(desc, code);
    let args = args.as_slice();
    [
        field_at(desc, args, operands, 0),
        field_at(desc, args, operands, 1),
        field_at(desc, args, operands, 2),
    ]
}
