//! The tokens of a TIE text, or its first fault.
//!
//! `docs/TIE-LANGUAGE.md` describes the tokens for a user. `specs/Tokens.antt` says which tokens a text has, and
//! `specs/Pieces.antt` what a token, white space, a comment and a fault are.
#![tactic(auto)]

ghost use Rattle.std.specs.Prelude.{◌≡◌, ℕ, ◌<◌, ◌≤◌, ◌⊎◌, List, length, take, IfOk};
ghost use Rattle.std.specs.List.{AllByRecursion};
ghost use Rattle.tie_lexer.specs.declared.TokenKind.{TokenKind};
ghost use Rattle.tie_lexer.specs.declared.Token.{Token};
ghost use Rattle.tie_lexer.specs.declared.LexRule.{LexRule};
ghost use Rattle.tie_lexer.specs.Pieces.{IsToken};
ghost use Rattle.tie_lexer.specs.Tokens.{AreTokens, IsFault, IsInText, IsSpelled, IsAlone, AreInOrder};

mod classes;
mod front;

use front::{Piece, piece_at};
use std::alloc::{AllocError, AllocFailed, Global};

/// What a token is.
#[derive(Clone, Copy, Debug, PartialEq, Eq)]
pub enum TokenKind {
    /// A letter, then letters, digits and `_`.
    Word,
    /// Decimal digits, or `0x` and hexadecimal digits.
    Number,
    /// A literal with its width, such as `8'hFF`.
    Sized,
    /// One of the marks, such as `{` and `<=`.
    Mark,
}

/// A token: what it is, the place of its first byte, and the place behind its last one.
#[derive(Clone, Copy, Debug, PartialEq, Eq)]
pub struct Token {
    pub kind: TokenKind,
    pub start: u32,
    pub end: u32,
}

/// Why a text has no tokens.
#[derive(Clone, Copy, Debug, PartialEq, Eq)]
pub enum LexRule {
    /// A byte that no text has, or at which no token, white space or comment begins.
    BadByte,
    /// A comment that does not end.
    OpenComment,
    /// A word or a literal that is too long, or a literal that is malformed.
    BadLiteral,
}

/// The first fault of a text and its place, or want of memory.
#[derive(Debug, Drop)]
pub enum LexRefusal {
    Fault { rule: LexRule, place: u32 },
    NoMemory,
}

impl From<AllocError> for LexRefusal {
    ghost use Rattle.tie_lexer.specs.declared.LexRefusal.TheVariants.{NoMemory};

    ghost from_gives = { λ _ e. e ≡ NoMemory };

    fn from(_error: AllocError) -> LexRefusal {
        LexRefusal::NoMemory
    }
}

impl<T: Drop> From<AllocFailed<T>> for LexRefusal {
    ghost use Rattle.tie_lexer.specs.declared.LexRefusal.TheVariants.{NoMemory};

    ghost from_gives = { λ _ e. e ≡ NoMemory };

    fn from(_error: AllocFailed<T>) -> LexRefusal {
        LexRefusal::NoMemory
    }
}

/// The tokens of a text, in its order.
///
/// A `Fault` names the first fault of the text. Takes time linear in the text.
pub fn lex(alloc: Global, text: &[u8]) -> Result<Vec<Token>, LexRefusal>
    requires { length text.now ≤ 1048576 }
    ensures tokens { IfOk result (λ found. AreTokens text.now found.items) }
    ensures fault { (rule : LexRule) (place : ℕ) → result ≡ Err (LexRefusal.Fault rule place) → IsFault text.now rule place }
{
    let mut found = Vec::new(alloc);
    let mut at = 0;
    while at < text.len() {
        match piece_at(text, at) {
            Piece::Gap(n) => at += n,
            Piece::Token(kind, n) => {
                found.push(Token {
                    kind,
                    start: at as u32,
                    end: (at + n) as u32,
                })?;
                at += n;
            }
            Piece::Bad(rule, offset) => {
                return Err(LexRefusal::Fault {
                    rule,
                    place: (at + offset) as u32,
                });
            }
        }
    }
    Ok(found)
}

/// A text has one list of tokens at most.
pub fn one_tokens()
    ensures { (text : List ℕ) (a b : List Token) → AreTokens text a → AreTokens text b → a ≡ b }
{}

/// A text has one first fault at most, and none where it has tokens.
pub fn one_fault()
    ensures rule { (text : List ℕ) (r s : LexRule) (p q : ℕ) → IsFault text r p → IsFault text s q → r ≡ s }
    ensures place { (text : List ℕ) (r s : LexRule) (p q : ℕ) → IsFault text r p → IsFault text s q → p ≡ q }
    ensures no_tokens { (text : List ℕ) (ts : List Token) (r : LexRule) (p : ℕ) → AreTokens text ts → IsFault text r p → ⊥ }
{}

/// Every text has tokens or a fault.
pub fn tokens_or_fault()
    ensures { (text : List ℕ) → ((ts : List Token) × AreTokens text ts) ⊎ ((r : LexRule) × (p : ℕ) × IsFault text r p) }
{}

/// Longest match: where a token stands at the front of a text, its bytes alone are that token, and no longer front of
/// the text is a token.
pub fn longest_match()
    ensures alone { (text : List ℕ) (kind : TokenKind) (n : ℕ) → IsToken text kind n → IsToken (take n text) kind n }
    ensures longest { (text : List ℕ) (kind other : TokenKind) (n m : ℕ)
        → IsToken text kind n → n < m → m ≤ length text → IsToken (take m text) other m → ⊥ }
{}

/// The tokens of a text stand in it one behind the other, none is empty, each is the longest one at its place, and its
/// bytes alone are that token.
pub fn tokens_stand()
    ensures in_text { (text : List ℕ) (ts : List Token) → AreTokens text ts → AllByRecursion (IsInText text) ts }
    ensures in_order { (text : List ℕ) (ts : List Token) → AreTokens text ts → AreInOrder 0 ts }
    ensures spelled { (text : List ℕ) (ts : List Token) → AreTokens text ts → AllByRecursion (IsSpelled text) ts }
    ensures alone { (text : List ℕ) (ts : List Token) → AreTokens text ts → AllByRecursion (IsAlone text) ts }
{}
