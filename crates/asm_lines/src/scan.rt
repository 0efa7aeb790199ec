//! The tokens of a source.

ghost use Rattle.std.specs.Prelude.{◌≡◌, ◌+◌, ◌<◌, ◌≤◌, ◌^◌, ◌++◌, length, OnOk, IfOk};
ghost use Rattle.asm_lines.specs.Tokens as spec;
ghost use Rattle.asm_lines.specs.Answers.{Gives};

use crate::piece::{Piece, piece_at};
use crate::refusal::{AsmRefusal, AsmRule};
use crate::token::{Spot, Token, TokenKind};
use std::alloc::{AllocError, Global};

fn moved(n: usize, at: Spot) -> Spot
    requires { at.column + n < 2 ^ 32 }
    ensures { result ≡ spec.moved n at }
{
    Spot {
        line: at.line,
        column: at.column + n as u32,
        behind: at.behind,
    }
}

fn past(n: usize, at: Spot) -> Spot
    requires { at.column + n < 2 ^ 32 }
    ensures { result ≡ spec.past n at }
{
    let column = at.column + n as u32;
    Spot {
        line: at.line,
        column,
        behind: column,
    }
}

fn next_line(at: Spot) -> Spot
    requires { at.line + 1 < 2 ^ 32 }
    ensures { result ≡ spec.next_line at }
{
    Spot {
        line: at.line + 1,
        column: 1,
        behind: 0,
    }
}

fn token_at(kind: TokenKind, at: Spot) -> Token
    ensures { result ≡ spec.token_at kind at }
{
    Token {
        kind,
        line: at.line,
        column: at.column,
    }
}

/// Ends a line that has tokens.
fn push_end(found: &mut Vec<Token>, at: Spot) -> Result<(), AllocError>
    ensures { OnOk result (found.new.items ≡ found.old.items ++ spec.line_end at) }
{
    if at.behind > 0 {
        found.push(Token {
            kind: TokenKind::LineEnd,
            line: at.line,
            column: at.behind,
        })?;
    }
    Ok(())
}

/// The tokens of a source of at most 2^31 bytes, each line that has some ended by `LineEnd`; a `Fault` names the first byte
/// at which no token, white space or comment begins. Takes time linear in the source.
pub fn tokens(alloc: Global, text: &[u8]) -> Result<Vec<Token>, AsmRefusal>
    requires { length text.now ≤ 2 ^ 31 }
    ensures { Gives (λ v. v.items) result (spec.tokens text.now) }
{
    let mut found = Vec::new(alloc);
    let mut spot = Spot {
        line: 1,
        column: 1,
        behind: 0,
    };
    let mut at = 0;
    while at < text.len() {
        match piece_at(text, at) {
            Piece::Gap(n) => {
                spot = moved(n, spot);
                at += n;
            }
            Piece::Token(kind, n) => {
                found.push(token_at(kind, spot))?;
                spot = past(n, spot);
                at += n;
            }
            Piece::LineFeed => {
                push_end(&mut found, spot)?;
                spot = next_line(spot);
                at += 1;
            }
            Piece::Bad => {
                return Err(AsmRefusal::Fault {
                    rule: AsmRule::BadToken,
                    line: spot.line,
                    column: spot.column,
                });
            }
        }
    }
    push_end(&mut found, spot)?;
    Ok(found)
}
