//! Tests of operands.

ghost use Rattle.std.specs.Prelude.{◌≡◌};
ghost use Rattle.std.specs.HashMap.{get_by_text};
ghost use Rattle.asm_rules.specs.Operands as operands;
ghost use Rattle.asm_rules.specs.Expected as expected;
ghost use Rattle.asm_rules.specs.Labels.{find_in};
ghost use Rattle.asm_rules.specs.Judge.{judge_of};
ghost use Rattle.asm_rules.specs.Rules as spec;

use crate::expected::{Expected, expected_at};
use crate::labels::{Labels, line_of};
use crate::meaning::{accepts, column_of, meant, target};
use asm_lines::{Operand, Operation, Operator, Statement, Word};
use tie_desc::Desc;
use xt_mnemonics::{Shape, Way, distance, fits_shape};

/// Which of the tests of operands is made.
#[derive(Clone, Copy, Debug, PartialEq, Eq)]
pub enum Test {
    Kind,
    Range,
    Known,
    /// From the address of the instruction.
    Reach(u32),
}

pub fn unless(ok: bool, column: u32) -> Option<u32>
    ensures { result ≡ spec.unless ok column }
{
    if ok { None } else { Some(column) }
}

fn is_target(expected: Expected) -> bool
    ensures { result ≡ operands.is_target expected }
{
    matches!(expected, Expected::Core(Shape::Target(_)))
}

fn is_kind(desc: &Desc, expected: Expected, operand: &Operand) -> bool
    ensures { result ≡ operands.is_kind desc.now expected operand.now }
{
    is_target(expected) || meant(desc, expected, operand).is_some()
}

fn in_range(desc: &Desc, expected: Expected, operand: &Operand) -> bool
    ensures { result ≡ operands.in_range desc.now expected operand.now }
{
    match meant(desc, expected, operand) {
        None => true,
        Some(number) => accepts(desc, expected, number),
    }
}

fn is_known(labels: &Labels, expected: Expected, operand: &Operand) -> bool
    ensures { result ≡ operands.is_known (λ q. get_by_text labels.now q) expected operand.now }
{
    match expected {
        Expected::Core(Shape::Target(_)) => match operand {
            Operand::Word(_, word) => line_of(labels, word).is_some(),
            Operand::Number(_, _) => true,
        },
        _ => true,
    }
}

fn reached(way: Way, at: u32, target: Option<u32>) -> bool
    ensures { result ≡ operands.reached way at target }
{
    match target {
        None => false,
        Some(target) => fits_shape(Shape::Target(way), i64::from(distance(way, at, target))),
    }
}

fn reaches(
    labels: &Labels,
    addresses: &[u32],
    at: u32,
    expected: Expected,
    operand: &Operand,
) -> bool
    ensures { result ≡ operands.reaches (find_in addresses.now (λ q. get_by_text labels.now q)) at expected operand.now }
{
    match expected {
        Expected::Core(Shape::Target(way)) => reached(way, at, target(labels, addresses, operand)),
        _ => true,
    }
}

fn judge(
    desc: &Desc,
    labels: &Labels,
    addresses: &[u32],
    test: Test,
    expected: Expected,
    operand: &Operand,
) -> bool
    ensures { result ≡ judge_of desc.now (λ q. get_by_text labels.now q) addresses.now test expected operand.now }
{
    match test {
        Test::Kind => is_kind(desc, expected, operand),
        Test::Range => in_range(desc, expected, operand),
        Test::Known => is_known(labels, expected, operand),
        Test::Reach(at) => reaches(labels, addresses, at, expected, operand),
    }
}

fn judged(
    desc: &Desc,
    labels: &Labels,
    addresses: &[u32],
    test: Test,
    operator: Operator,
    operands: &[Operand],
) -> Option<u32>
    ensures { result ≡ spec.judged (judge_of desc.now (λ q. get_by_text labels.now q) addresses.now test) (expected.expected desc.now operator) operands.now }
{
    for (i, operand) in operands.iter().enumerate() {
        match expected_at(desc, operator, i) {
            None => return None,
            Some(expected) => {
                if !judge(desc, labels, addresses, test, expected, operand) {
                    return Some(column_of(operand));
                }
            }
        }
    }
    None
}

fn judged_operation(
    desc: &Desc,
    labels: &Labels,
    addresses: &[u32],
    test: Test,
    operation: &Operation,
) -> Option<u32>
    ensures { result ≡ spec.judged_operation desc.now (judge_of desc.now (λ q. get_by_text labels.now q) addresses.now test) operation.now }
{
    match operation.operator {
        None => None,
        Some(operator) => judged(
            desc,
            labels,
            addresses,
            test,
            operator,
            operation.operands.as_slice(),
        ),
    }
}

fn judged_operations(
    desc: &Desc,
    labels: &Labels,
    addresses: &[u32],
    test: Test,
    operations: &[Operation],
) -> Option<u32>
    ensures { result ≡ spec.first_in (spec.judged_operation desc.now (judge_of desc.now (λ q. get_by_text labels.now q) addresses.now test)) operations.now }
{
    for operation in operations {
        if let Some(column) = judged_operation(desc, labels, addresses, test, operation) {
            return Some(column);
        }
    }
    None
}

fn of_size(size: u8) -> Expected
    ensures { result ≡ expected.of_size size }
{
    if size == 1 {
        Expected::Byte
    } else {
        Expected::Word
    }
}

fn judged_value(
    desc: &Desc,
    labels: &Labels,
    addresses: &[u32],
    test: Test,
    size: u8,
    operand: &Operand,
) -> Option<u32>
    ensures { result ≡ spec.judged_value (judge_of desc.now (λ q. get_by_text labels.now q) addresses.now test) size operand.now }
{
    unless(
        judge(desc, labels, addresses, test, of_size(size), operand),
        column_of(operand),
    )
}

fn judged_values(
    desc: &Desc,
    labels: &Labels,
    addresses: &[u32],
    test: Test,
    size: u8,
    values: &[Operand],
) -> Option<u32>
    ensures { result ≡ spec.first_in (spec.judged_value (judge_of desc.now (λ q. get_by_text labels.now q) addresses.now test) size) values.now }
{
    for operand in values {
        if let Some(column) = judged_value(desc, labels, addresses, test, size, operand) {
            return Some(column);
        }
    }
    None
}

/// The operand of `.align`.
fn align_operand(place: u32, number: Option<i64>) -> Operand
    ensures { result ≡ spec.align_operand place number }
{
    match number {
        None => Operand::Word(place, Word::new(&[])),
        Some(number) => Operand::Number(place, number),
    }
}

fn judged_align(
    desc: &Desc,
    labels: &Labels,
    addresses: &[u32],
    test: Test,
    place: u32,
    number: Option<i64>,
) -> Option<u32>
    ensures { result ≡ spec.judged_align (judge_of desc.now (λ q. get_by_text labels.now q) addresses.now test) place number }
{
    let operand = align_operand(place, number);
    unless(
        judge(desc, labels, addresses, test, Expected::Alignment, &operand),
        place,
    )
}

/// The first column of a statement at which a test refuses an operand.
pub fn judged_in(
    desc: &Desc,
    labels: &Labels,
    addresses: &[u32],
    test: Test,
    statement: &Statement,
) -> Option<u32>
    ensures { result ≡ spec.judged_in desc.now (judge_of desc.now (λ q. get_by_text labels.now q) addresses.now test) statement.now }
{
    match statement {
        Statement::Nothing => None,
        Statement::Alone(operation) => judged_operation(desc, labels, addresses, test, operation),
        Statement::Wide { operations, .. } => {
            judged_operations(desc, labels, addresses, test, operations.as_slice())
        }
        Statement::Values { size, values, .. } => {
            judged_values(desc, labels, addresses, test, *size, values.as_slice())
        }
        Statement::Align { place, number, .. } => {
            judged_align(desc, labels, addresses, test, *place, *number)
        }
    }
}
