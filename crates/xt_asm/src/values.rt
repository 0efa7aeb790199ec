//! What operands of core instructions and of values stand for.

ghost use Rattle.std.specs.Prelude.{◌≡◌, ◌<◌, ◌^◌, ℤ, FitsSigned, IsTrue, Some, map, length, pos, unwrap_or, slice_get};
ghost use Rattle.std.specs.Int.{w32};
ghost use Rattle.std.specs.HashMap.{get_by_text};
ghost use Rattle.xt_isa.specs.Numbers.{twos_complement};
ghost use Rattle.xt_mnemonics.specs.Build.{filled, number_at};
ghost use Rattle.asm_rules.specs.Expected.{expected};
ghost use Rattle.asm_rules.specs.Operands.{is_word_value};
ghost use Rattle.asm_rules.specs.Labels.{find_in};
ghost use Rattle.asm_lines.specs.Lines as lines;
ghost use Rattle.xt_asm.specs.Bytes as spec;

use asm_lines::{Operand, Operator};
use asm_rules::{Expected, Labels, expected_at, meant, target};
use tie_desc::Desc;
use xt_mnemonics::{Shape, distance};

/// What an operand of an instruction at an address stands for.
fn value_of(
    desc: &Desc,
    labels: &Labels,
    addresses: &[u32],
    at: u32,
    expected: Expected,
    operand: &Operand,
) -> i32
    requires { FitsSigned w32 (spec.value_of desc.now (find_in addresses.now (λ q. get_by_text labels.now q)) at expected operand.now) }
    ensures { result ≡ spec.value_of desc.now (find_in addresses.now (λ q. get_by_text labels.now q)) at expected operand.now }
{
    match expected {
        Expected::Core(Shape::Target(way)) => {
            distance(way, at, target(labels, addresses, operand).unwrap_or(0))
        }
        _ => meant(desc, expected, operand).unwrap_or(0) as i32,
    }
}

/// What the operand of a number stands for, 0 where there is none.
fn value_at(
    desc: &Desc,
    labels: &Labels,
    addresses: &[u32],
    at: u32,
    operator: Operator,
    operands: &[Operand],
    number: usize,
) -> i32
    requires { FitsSigned w32 (number_at (spec.values desc.now (find_in addresses.now (λ q. get_by_text labels.now q)) at (expected desc.now operator) operands.now) number) }
    ensures { result ≡ number_at (spec.values desc.now (find_in addresses.now (λ q. get_by_text labels.now q)) at (expected desc.now operator) operands.now) number }
{
    match expected_at(desc, operator, number) {
        None => 0,
        Some(expected) => {
            if number < operands.len() {
                value_of(desc, labels, addresses, at, expected, &operands[number])
            } else {
                0
            }
        }
    }
}

/// What the first four operands stand for.
pub fn values(
    desc: &Desc,
    labels: &Labels,
    addresses: &[u32],
    at: u32,
    operator: Operator,
    operands: &[Operand],
) -> [i32; 4]
    requires { (i : _) → FitsSigned w32 (number_at (spec.values desc.now (find_in addresses.now (λ q. get_by_text labels.now q)) at (expected desc.now operator) operands.now) i) }
    ensures { result ≡ filled (spec.values desc.now (find_in addresses.now (λ q. get_by_text labels.now q)) at (expected desc.now operator) operands.now) }
{
    [
        value_at(desc, labels, addresses, at, operator, operands, 0),
        value_at(desc, labels, addresses, at, operator, operands, 1),
        value_at(desc, labels, addresses, at, operator, operands, 2),
        value_at(desc, labels, addresses, at, operator, operands, 3),
    ]
}

/// The number that an operand is, 0 of a word.
pub fn number_or_zero(operand: &Operand) -> i64
    ensures { result ≡ unwrap_or (lines.number_of operand.now) (pos 0) }
{
    match operand {
        Operand::Word(_, _) => 0,
        Operand::Number(_, number) => *number,
    }
}

/// The code of a number of 32 bits.
pub fn word_code(number: i64) -> u32
    requires { IsTrue (is_word_value number) }
    ensures { result ≡ twos_complement (2 ^ 31) number }
{
    if number < 0 {
        (number + 4294967296) as u32
    } else {
        number as u32
    }
}
