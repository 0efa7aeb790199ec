//! The grammar of lines.

ghost use Rattle.std.specs.Prelude.{◌≡◌, [], drop};
ghost use Rattle.asm_lines.specs.Reading.{many_from};
ghost use Rattle.asm_lines.specs.Lines as spec;
ghost use Rattle.asm_lines.specs.Answers.{Gives};

use crate::line::{Label, Line, Operand, Operation, Statement};
use crate::naming::{format_of, named};
use crate::read::{
    align, directive, expect, left, line_end, name, operand, refused, sees, sees_align,
    sees_directive, sees_end, sees_name, sees_operand,
};
use crate::refusal::AsmRefusal;
use crate::token::{Mark, Token};
use std::alloc::Global;
use tie_desc::{Desc, Sequence};

#[tactic(auto, unfolding(crate::specs::Lines::more_operands))]
fn more_operands(
    alloc: Global,
    first: Operand,
    tokens: &[Token],
    at: usize,
) -> Result<(Sequence<Operand>, usize), AsmRefusal>
    ensures { Gives (λ x. (x.0, drop x.1 tokens.now)) result (spec.more_operands first (drop at tokens.now)) }
{
    let mut found = Vec::new(alloc);
    found.push(first)?;
    let mut at = at;
    let turns = left(tokens, at) + 1;
    for turn in 0..turns {
        if !sees(tokens, at, Mark::Comma) {
            return Ok((Sequence::from_vec(found), at));
        }
        let after = expect(tokens, at, Mark::Comma)?;
        let (next, after) = operand(tokens, after)?;
        found.push(next)?;
        at = after;
    }
    Err(refused(tokens, at))
}

#[tactic(auto, unfolding(crate::specs::Lines::some_operands))]
fn some_operands(
    alloc: Global,
    tokens: &[Token],
    at: usize,
) -> Result<(Sequence<Operand>, usize), AsmRefusal>
    ensures { Gives (λ x. (x.0, drop x.1 tokens.now)) result (spec.some_operands (drop at tokens.now)) }
{
    let (first, at) = operand(tokens, at)?;
    more_operands(alloc, first, tokens, at)
}

#[tactic(auto, unfolding(crate::specs::Lines::operands))]
fn operands(
    alloc: Global,
    tokens: &[Token],
    at: usize,
) -> Result<(Sequence<Operand>, usize), AsmRefusal>
    ensures { Gives (λ x. (x.0, drop x.1 tokens.now)) result (spec.operands (drop at tokens.now)) }
{
    if sees_operand(tokens, at) {
        some_operands(alloc, tokens, at)
    } else {
        Ok((Sequence::new(alloc), at))
    }
}

/// The operands behind a mnemonic.
#[tactic(auto, unfolding(crate::specs::Lines::operation_of))]
fn operation_of(
    alloc: Global,
    desc: &Desc,
    name: Label,
    tokens: &[Token],
    at: usize,
) -> Result<(Operation, usize), AsmRefusal>
    ensures { Gives (λ x. (x.0, drop x.1 tokens.now)) result (spec.operation_of desc.now name (drop at tokens.now)) }
{
    let (operands, at) = operands(alloc, tokens, at)?;
    let operator = named(desc, &name.name);
    Ok((
        Operation {
            column: name.column,
            operator,
            operands,
        },
        at,
    ))
}

#[tactic(auto, unfolding(crate::specs::Lines::operation))]
fn operation(
    alloc: Global,
    desc: &Desc,
    tokens: &[Token],
    at: usize,
) -> Result<(Operation, usize), AsmRefusal>
    ensures { Gives (λ x. (x.0, drop x.1 tokens.now)) result (spec.operation desc.now (drop at tokens.now)) }
{
    let (name, at) = name(tokens, at)?;
    operation_of(alloc, desc, name, tokens, at)
}

#[tactic(auto, unfolding(crate::specs::Lines::next_operation))]
fn next_operation(
    alloc: Global,
    desc: &Desc,
    tokens: &[Token],
    at: usize,
) -> Result<(Operation, usize), AsmRefusal>
    ensures { Gives (λ x. (x.0, drop x.1 tokens.now)) result (spec.next_operation desc.now (drop at tokens.now)) }
{
    let at = expect(tokens, at, Mark::Semicolon)?;
    operation(alloc, desc, tokens, at)
}

#[tactic(auto, unfolding(crate::specs::Lines::more_operations))]
fn more_operations(
    alloc: Global,
    desc: &Desc,
    first: Operation,
    tokens: &[Token],
    at: usize,
) -> Result<(Sequence<Operation>, usize), AsmRefusal>
    ensures { Gives (λ x. (x.0, drop x.1 tokens.now)) result (spec.more_operations desc.now first (drop at tokens.now)) }
{
    let mut found = Vec::new(alloc);
    found.push(first)?;
    let mut at = at;
    let turns = left(tokens, at) + 1;
    for turn in 0..turns {
        if !sees(tokens, at, Mark::Semicolon) {
            return Ok((Sequence::from_vec(found), at));
        }
        let (next, after) = next_operation(alloc, desc, tokens, at)?;
        found.push(next)?;
        at = after;
    }
    Err(refused(tokens, at))
}

/// A format's operations in braces.
#[tactic(auto, unfolding(crate::specs::Lines::wide))]
fn wide(
    alloc: Global,
    desc: &Desc,
    name: Label,
    tokens: &[Token],
    at: usize,
) -> Result<(Statement, usize), AsmRefusal>
    ensures { Gives (λ x. (x.0, drop x.1 tokens.now)) result (spec.wide desc.now name (drop at tokens.now)) }
{
    let at = expect(tokens, at, Mark::OpenBrace)?;
    let (first, at) = operation(alloc, desc, tokens, at)?;
    let (operations, at) = more_operations(alloc, desc, first, tokens, at)?;
    let at = expect(tokens, at, Mark::CloseBrace)?;
    let format = format_of(desc, &name.name);
    Ok((
        Statement::Wide {
            column: name.column,
            format,
            operations,
        },
        at,
    ))
}

/// A statement that begins with a word.
#[tactic(auto, unfolding(crate::specs::Lines::named_statement))]
fn named_statement(
    alloc: Global,
    desc: &Desc,
    name: Label,
    tokens: &[Token],
    at: usize,
) -> Result<(Statement, usize), AsmRefusal>
    ensures { Gives (λ x. (x.0, drop x.1 tokens.now)) result (spec.named_statement desc.now name (drop at tokens.now)) }
{
    if sees(tokens, at, Mark::OpenBrace) {
        wide(alloc, desc, name, tokens, at)
    } else {
        let (operation, at) = operation_of(alloc, desc, name, tokens, at)?;
        Ok((Statement::Alone(operation), at))
    }
}

#[tactic(auto, unfolding(crate::specs::Lines::values_statement))]
fn values_statement(
    alloc: Global,
    tokens: &[Token],
    at: usize,
) -> Result<(Statement, usize), AsmRefusal>
    ensures { Gives (λ x. (x.0, drop x.1 tokens.now)) result (spec.values_statement (drop at tokens.now)) }
{
    let ((column, size), at) = directive(tokens, at)?;
    let (values, at) = some_operands(alloc, tokens, at)?;
    Ok((
        Statement::Values {
            column,
            size,
            values,
        },
        at,
    ))
}

fn place_of(operand: &Operand) -> u32
    ensures { result ≡ spec.column_of operand.now }
{
    match operand {
        Operand::Word(column, _) | Operand::Number(column, _) => *column,
    }
}

fn number_of(operand: &Operand) -> Option<i64>
    ensures { result ≡ spec.number_of operand.now }
{
    match operand {
        Operand::Word(_, _) => None,
        Operand::Number(_, number) => Some(*number),
    }
}

#[tactic(auto, unfolding(crate::specs::Lines::align_statement))]
fn align_statement(tokens: &[Token], at: usize) -> Result<(Statement, usize), AsmRefusal>
    ensures { Gives (λ x. (x.0, drop x.1 tokens.now)) result (spec.align_statement (drop at tokens.now)) }
{
    let (column, at) = align(tokens, at)?;
    let (operand, at) = operand(tokens, at)?;
    Ok((
        Statement::Align {
            column,
            place: place_of(&operand),
            number: number_of(&operand),
        },
        at,
    ))
}

/// What stands behind a label, or in a line that no word begins.
#[tactic(auto, unfolding(crate::specs::Lines::statement))]
fn statement(
    alloc: Global,
    desc: &Desc,
    tokens: &[Token],
    at: usize,
) -> Result<(Statement, usize), AsmRefusal>
    ensures { Gives (λ x. (x.0, drop x.1 tokens.now)) result (spec.statement desc.now (drop at tokens.now)) }
{
    if sees_end(tokens, at) {
        return Ok((Statement::Nothing, at));
    }
    if sees_directive(tokens, at) {
        return values_statement(alloc, tokens, at);
    }
    if sees_align(tokens, at) {
        return align_statement(tokens, at);
    }
    let (name, at) = name(tokens, at)?;
    named_statement(alloc, desc, name, tokens, at)
}

#[tactic(auto, unfolding(crate::specs::Lines::ended))]
fn ended(
    label: Option<Label>,
    statement: Statement,
    tokens: &[Token],
    at: usize,
) -> Result<(Line, usize), AsmRefusal>
    ensures { Gives (λ x. (x.0, drop x.1 tokens.now)) result (spec.ended label statement (drop at tokens.now)) }
{
    let (number, at) = line_end(tokens, at)?;
    Ok((
        Line {
            number,
            label,
            statement,
        },
        at,
    ))
}

/// A line that begins with a word.
#[tactic(auto, unfolding(crate::specs::Lines::named_line))]
fn named_line(
    alloc: Global,
    desc: &Desc,
    name: Label,
    tokens: &[Token],
    at: usize,
) -> Result<(Line, usize), AsmRefusal>
    ensures { Gives (λ x. (x.0, drop x.1 tokens.now)) result (spec.named_line desc.now name (drop at tokens.now)) }
{
    if sees(tokens, at, Mark::Colon) {
        let at = expect(tokens, at, Mark::Colon)?;
        let (statement, at) = statement(alloc, desc, tokens, at)?;
        ended(Some(name), statement, tokens, at)
    } else {
        let (statement, at) = named_statement(alloc, desc, name, tokens, at)?;
        ended(None, statement, tokens, at)
    }
}

#[tactic(auto, unfolding(crate::specs::Lines::line))]
fn line(
    alloc: Global,
    desc: &Desc,
    tokens: &[Token],
    at: usize,
) -> Result<(Line, usize), AsmRefusal>
    ensures { Gives (λ x. (x.0, drop x.1 tokens.now)) result (spec.line desc.now (drop at tokens.now)) }
{
    if sees_name(tokens, at) {
        let (name, at) = name(tokens, at)?;
        named_line(alloc, desc, name, tokens, at)
    } else {
        let (statement, at) = statement(alloc, desc, tokens, at)?;
        ended(None, statement, tokens, at)
    }
}

/// The lines of a source's tokens; a `Fault` names the first token of the source after which no line goes on. Takes time
/// linear in the tokens.
#[tactic(auto, unfolding(crate::specs::Lines::lines))]
pub fn lines(alloc: Global, desc: &Desc, tokens: &[Token]) -> Result<Vec<Line>, AsmRefusal>
    ensures { Gives (λ v. (v.items, [])) result (spec.lines desc.now tokens.now) }
{
    let mut found = Vec::new(alloc);
    let mut at = 0;
    let turns = tokens.len() + 1;
    for turn in 0..turns {
        if at >= tokens.len() {
            return Ok(found);
        }
        let (next, after) = line(alloc, desc, tokens, at)?;
        found.push(next)?;
        at = after;
    }
    Err(refused(tokens, at))
}
