//! Single tokens.

ghost use Rattle.std.specs.Prelude.{◌≡◌, drop, length};
ghost use Rattle.asm_lines.specs.Reading as reading;
ghost use Rattle.asm_lines.specs.Lines as spec;
ghost use Rattle.asm_lines.specs.Answers.{Gives};
ghost use Rattle.asm_lines.specs.Refused.{refusal_of};

use crate::line::{Label, Operand};
use crate::refusal::{AsmRefusal, AsmRule};
use crate::token::{Mark, Token, TokenKind};

/// How many tokens stand from a place on.
pub fn left(tokens: &[Token], at: usize) -> usize
    ensures { result ≡ length (drop at tokens.now) }
{
    tokens.len().saturating_sub(at)
}

/// The first token that is left breaks the grammar.
#[tactic(auto, using(crate::proofs::Single::place_at))]
pub fn refused(tokens: &[Token], at: usize) -> AsmRefusal
    ensures { result ≡ refusal_of (reading.place (drop at tokens.now)) }
{
    match tokens.get(at) {
        Some(first) => AsmRefusal::Fault {
            rule: AsmRule::Syntax,
            line: first.line,
            column: first.column,
        },
        None => AsmRefusal::Fault {
            rule: AsmRule::Syntax,
            line: 0,
            column: 0,
        },
    }
}

#[tactic(auto, unfolding(crate::specs::Lines::same))]
fn same(a: Mark, b: Mark) -> bool
    ensures { result ≡ spec.same a b }
{
    a == b
}

#[tactic(auto, using(crate::proofs::Single::first_at))]
pub fn sees(tokens: &[Token], at: usize, mark: Mark) -> bool
    ensures { result ≡ spec.sees mark (drop at tokens.now) }
{
    match tokens.get(at) {
        Some(first) => match first.kind {
            TokenKind::Mark(found) => same(found, mark),
            _ => false,
        },
        None => false,
    }
}

#[tactic(auto, using(crate::proofs::Single::first_at))]
pub fn sees_name(tokens: &[Token], at: usize) -> bool
    ensures { result ≡ spec.sees_name (drop at tokens.now) }
{
    match tokens.get(at) {
        Some(first) => matches!(first.kind, TokenKind::Name(_)),
        None => false,
    }
}

#[tactic(auto, using(crate::proofs::Single::first_at))]
pub fn sees_operand(tokens: &[Token], at: usize) -> bool
    ensures { result ≡ spec.sees_operand (drop at tokens.now) }
{
    match tokens.get(at) {
        Some(first) => matches!(first.kind, TokenKind::Name(_) | TokenKind::Number(_)),
        None => false,
    }
}

#[tactic(auto, using(crate::proofs::Single::first_at))]
pub fn sees_end(tokens: &[Token], at: usize) -> bool
    ensures { result ≡ spec.sees_end (drop at tokens.now) }
{
    match tokens.get(at) {
        Some(first) => matches!(first.kind, TokenKind::LineEnd),
        None => false,
    }
}

#[tactic(auto, using(crate::proofs::Single::first_at))]
pub fn sees_directive(tokens: &[Token], at: usize) -> bool
    ensures { result ≡ spec.sees_directive (drop at tokens.now) }
{
    match tokens.get(at) {
        Some(first) => matches!(
            first.kind,
            TokenKind::ByteDirective | TokenKind::WordDirective
        ),
        None => false,
    }
}

#[tactic(auto, using(crate::proofs::Single::first_at))]
pub fn sees_align(tokens: &[Token], at: usize) -> bool
    ensures { result ≡ spec.sees_align (drop at tokens.now) }
{
    match tokens.get(at) {
        Some(first) => matches!(first.kind, TokenKind::AlignDirective),
        None => false,
    }
}

/// The place behind a mark.
#[tactic(auto, using(crate::proofs::Single::one_at))]
pub fn expect(tokens: &[Token], at: usize, mark: Mark) -> Result<usize, AsmRefusal>
    ensures { Gives (λ x. (tt, drop x tokens.now)) result (spec.expect mark (drop at tokens.now)) }
{
    match tokens.get(at) {
        Some(first) => match first.kind {
            TokenKind::Mark(found) => {
                if same(found, mark) {
                    Ok(at + 1)
                } else {
                    Err(refused(tokens, at))
                }
            }
            _ => Err(refused(tokens, at)),
        },
        None => Err(refused(tokens, at)),
    }
}

#[tactic(auto, using(crate::proofs::Single::one_at))]
pub fn name(tokens: &[Token], at: usize) -> Result<(Label, usize), AsmRefusal>
    ensures { Gives (λ x. (x.0, drop x.1 tokens.now)) result (reading.one spec.name_of (drop at tokens.now)) }
{
    match tokens.get(at) {
        Some(first) => match first.kind {
            TokenKind::Name(name) => Ok((
                Label {
                    column: first.column,
                    name,
                },
                at + 1,
            )),
            _ => Err(refused(tokens, at)),
        },
        None => Err(refused(tokens, at)),
    }
}

#[tactic(auto, using(crate::proofs::Single::one_at))]
pub fn operand(tokens: &[Token], at: usize) -> Result<(Operand, usize), AsmRefusal>
    ensures { Gives (λ x. (x.0, drop x.1 tokens.now)) result (spec.operand (drop at tokens.now)) }
{
    match tokens.get(at) {
        Some(first) => match first.kind {
            TokenKind::Name(word) => Ok((Operand::Word(first.column, word), at + 1)),
            TokenKind::Number(number) => Ok((Operand::Number(first.column, number), at + 1)),
            _ => Err(refused(tokens, at)),
        },
        None => Err(refused(tokens, at)),
    }
}

/// The number of a line, at its end.
#[tactic(auto, using(crate::proofs::Single::one_at))]
pub fn line_end(tokens: &[Token], at: usize) -> Result<(u32, usize), AsmRefusal>
    ensures { Gives (λ x. (x.0, drop x.1 tokens.now)) result (reading.one spec.end_of (drop at tokens.now)) }
{
    match tokens.get(at) {
        Some(first) => match first.kind {
            TokenKind::LineEnd => Ok((first.line, at + 1)),
            _ => Err(refused(tokens, at)),
        },
        None => Err(refused(tokens, at)),
    }
}

/// The column of a directive, and how many bytes a value of it has.
#[tactic(auto, using(crate::proofs::Single::one_at))]
pub fn directive(tokens: &[Token], at: usize) -> Result<((u32, u8), usize), AsmRefusal>
    ensures { Gives (λ x. (x.0, drop x.1 tokens.now)) result (reading.one spec.directive_of (drop at tokens.now)) }
{
    match tokens.get(at) {
        Some(first) => match first.kind {
            TokenKind::ByteDirective => Ok(((first.column, 1), at + 1)),
            TokenKind::WordDirective => Ok(((first.column, 4), at + 1)),
            _ => Err(refused(tokens, at)),
        },
        None => Err(refused(tokens, at)),
    }
}

/// The column of `.align`.
#[tactic(auto, using(crate::proofs::Single::one_at))]
pub fn align(tokens: &[Token], at: usize) -> Result<(u32, usize), AsmRefusal>
    ensures { Gives (λ x. (x.0, drop x.1 tokens.now)) result (reading.one spec.align_of (drop at tokens.now)) }
{
    match tokens.get(at) {
        Some(first) => match first.kind {
            TokenKind::AlignDirective => Ok((first.column, at + 1)),
            _ => Err(refused(tokens, at)),
        },
        None => Err(refused(tokens, at)),
    }
}
