//! The rules that look at lines alone.

ghost use Rattle.std.specs.Prelude.{◌≡◌, length, slice_get, IfOk};
ghost use Rattle.std.specs.HashMap.{get_by_text};
ghost use Rattle.std.specs.Option.{option_copied};
ghost use Rattle.asm_rules.specs.Rules as spec;
ghost use Rattle.asm_rules.specs.Labels as layout;

use crate::expected::expected_count;
use crate::judge::{Test, judged_in, unless};
use crate::labels::{Labels, line_of};
use crate::listed::place_of;
use crate::parts::code_in;
use crate::written::{rewritten, rewritten_alone};
use asm_lines::{AsmRule, Label, Line, Operation, Statement};
use std::alloc::{AllocError, Global};
use tie_desc::{Code, Desc, FormatDecl, SlotDecl};

fn unknown_operation(operation: &Operation) -> Option<u32>
    ensures { result ≡ spec.unknown_operation operation.now }
{
    unless(operation.operator.is_some(), operation.column)
}

fn unknown_operations(operations: &[Operation]) -> Option<u32>
    ensures { result ≡ spec.first_in spec.unknown_operation operations.now }
{
    for operation in operations {
        if let Some(column) = unknown_operation(operation) {
            return Some(column);
        }
    }
    None
}

fn unknown(statement: &Statement) -> Option<u32>
    ensures { result ≡ spec.unknown statement.now }
{
    match statement {
        Statement::Alone(operation) => unknown_operation(operation),
        Statement::Wide {
            column,
            format,
            operations,
        } => match format {
            None => Some(*column),
            Some(_) => unknown_operations(operations.as_slice()),
        },
        _ => None,
    }
}

fn counts(desc: &Desc, operation: &Operation) -> bool
    ensures { result ≡ spec.counts desc.now operation.now.operator (length operation.now.operands) }
{
    match operation.operator {
        None => true,
        Some(operator) => expected_count(desc, operator) == operation.operands.len(),
    }
}

fn miscounted_operation(desc: &Desc, operation: &Operation) -> Option<u32>
    ensures { result ≡ spec.miscounted_operation desc.now operation.now }
{
    unless(counts(desc, operation), operation.column)
}

fn miscounted_operations(desc: &Desc, operations: &[Operation]) -> Option<u32>
    ensures { result ≡ spec.first_in (spec.miscounted_operation desc.now) operations.now }
{
    for operation in operations {
        if let Some(column) = miscounted_operation(desc, operation) {
            return Some(column);
        }
    }
    None
}

fn miscounted(desc: &Desc, statement: &Statement) -> Option<u32>
    ensures { result ≡ spec.miscounted desc.now statement.now }
{
    match statement {
        Statement::Alone(operation) => miscounted_operation(desc, operation),
        Statement::Wide { operations, .. } => miscounted_operations(desc, operations.as_slice()),
        _ => None,
    }
}

fn doubled(labels: &Labels, line: usize, label: &Option<Label>) -> Option<u32>
    ensures { result ≡ spec.doubled (λ q. get_by_text labels.now q) line label.now }
{
    match label {
        None => None,
        Some(label) => match line_of(labels, &label.name) {
            None => Some(label.column),
            Some(first) => unless(line == first, label.column),
        },
    }
}

fn format_at(desc: &Desc, format: Option<u8>) -> Option<&FormatDecl>
    ensures { option_copied result ≡ layout.format_at desc.now format }
{
    match format {
        None => None,
        Some(format) => desc.formats.get(format as usize),
    }
}

fn miscounted_slots(desc: &Desc, statement: &Statement) -> Option<u32>
    ensures { result ≡ spec.miscounted_slots desc.now statement.now }
{
    match statement {
        Statement::Wide {
            column,
            format,
            operations,
        } => match format_at(desc, *format) {
            None => None,
            Some(format) => unless(format.slots.len() == operations.len(), *column),
        },
        _ => None,
    }
}

fn lists(slot: &SlotDecl, code: Option<Code>) -> bool
    ensures { result ≡ spec.lists slot.now code }
{
    match code {
        None => false,
        Some(code) => place_of(code, slot.codes.as_slice()) < slot.codes.len(),
    }
}

#[tactic(auto, using(crate::proofs::Steps::unlisted_done))]
fn unlisted_in(slots: &[SlotDecl], operations: &[Operation]) -> Option<u32>
    ensures { result ≡ spec.unlisted_in slots.now operations.now }
{
    for (i, operation) in operations.iter().enumerate() {
        match slots.get(i) {
            None => return None,
            Some(slot) => {
                if !lists(slot, code_in(operation)) {
                    return Some(operation.column);
                }
            }
        }
    }
    None
}

fn unlisted(desc: &Desc, statement: &Statement) -> Option<u32>
    ensures { result ≡ spec.unlisted desc.now statement.now }
{
    match statement {
        Statement::Wide {
            format,
            operations,
            ..
        } => match format_at(desc, *format) {
            None => None,
            Some(format) => unlisted_in(format.slots.as_slice(), operations.as_slice()),
        },
        _ => None,
    }
}

fn rewritten_in(
    alloc: Global,
    desc: &Desc,
    statement: &Statement,
) -> Result<Option<u32>, AllocError>
    ensures { IfOk result (λ found. found ≡ spec.rewritten desc.now statement.now) }
{
    match statement {
        Statement::Alone(operation) => rewritten_alone(alloc, desc, operation),
        Statement::Wide { operations, .. } => rewritten(alloc, desc, operations.as_slice()),
        _ => Ok(None),
    }
}

/// The first column of the line of a number at which a rule is broken.
pub fn breach(
    alloc: Global,
    desc: &Desc,
    labels: &Labels,
    rule: AsmRule,
    number: usize,
    line: &Line,
) -> Result<Option<u32>, AllocError>
    ensures { IfOk result (λ found. found ≡ spec.breach desc.now (λ q. get_by_text labels.now q) rule number line.now) }
{
    let statement = &line.statement;
    match rule {
        AsmRule::UnknownMnemonic => Ok(unknown(statement)),
        AsmRule::OperandCount => Ok(miscounted(desc, statement)),
        AsmRule::DoubledLabel => Ok(doubled(labels, number, &line.label)),
        AsmRule::OperandKind => Ok(judged_in(desc, labels, &[], Test::Kind, statement)),
        AsmRule::OperandRange => Ok(judged_in(desc, labels, &[], Test::Range, statement)),
        AsmRule::UnknownLabel => Ok(judged_in(desc, labels, &[], Test::Known, statement)),
        AsmRule::SlotCount => Ok(miscounted_slots(desc, statement)),
        AsmRule::SlotOpcode => Ok(unlisted(desc, statement)),
        AsmRule::SameDest => rewritten_in(alloc, desc, statement),
        _ => Ok(None),
    }
}
