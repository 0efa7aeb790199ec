//! What stands at the front of the bytes that are left.

ghost use Rattle.std.specs.Prelude.{◌≡◌, ◌+◌, ◌<◌, length, true, drop};
ghost use Rattle.std.specs.Char.{is_ascii_digit};
ghost use Rattle.asm_lines.specs.Tokens as spec;
ghost use Rattle.asm_lines.specs.Within.{IsWithin};

use crate::classes::{
    behind, byte_at, digits_len, hexadecimal_len, is_word_start, line_len, word_len,
};
use crate::digits::value;
use crate::token::{Mark, TokenKind};
use crate::word::Word;

/// What stands at the front, and how many bytes it has.
#[derive(Clone, Copy)]
pub enum Piece {
    /// White space or a comment.
    Gap(usize),
    Token(TokenKind, usize),
    LineFeed,
    /// No token begins, or a malformed one.
    Bad,
}

fn is_blank(bytes: &[u8]) -> bool
    ensures { result ≡ spec.is_blank bytes.now }
{
    let first = byte_at(bytes, 0);
    first == b' ' || first == b'\t' || (first == b'\r' && byte_at(bytes, 1) == b'\n')
}

fn comment(bytes: &[u8]) -> Piece
    requires { spec.first bytes.now ≡ 35 }
    ensures piece { result ≡ Piece.Gap (spec.line_len bytes.now) }
    ensures within { IsWithin (length bytes.now) result }
{
    Piece::Gap(line_len(bytes))
}

fn word(bytes: &[u8]) -> Piece
    requires { spec.is_word_start (spec.first bytes.now) ≡ true }
    ensures piece { result ≡ spec.word_piece bytes.now }
    ensures within { IsWithin (length bytes.now) result }
{
    let n = word_len(bytes);
    if n <= 32 {
        Piece::Token(TokenKind::Name(Word::new(&bytes[..n])), n)
    } else {
        Piece::Bad
    }
}

/// What stands behind `0x`.
fn hexadecimal(digits: &[u8]) -> Piece
    ensures piece { result ≡ spec.hexadecimal_piece digits.now }
    ensures within { IsWithin (length digits.now + 2) result }
{
    let n = hexadecimal_len(digits);
    if n == 0 {
        Piece::Bad
    } else {
        Piece::Token(TokenKind::Number(value(16, &digits[..n])), n + 2)
    }
}

/// What stands behind `-`.
fn negative(digits: &[u8]) -> Piece
    ensures piece { result ≡ spec.negative_piece digits.now }
    ensures within { IsWithin (length digits.now + 1) result }
{
    let n = digits_len(digits);
    if n == 0 {
        Piece::Bad
    } else {
        Piece::Token(TokenKind::Number(-value(10, &digits[..n])), n + 1)
    }
}

fn decimal(bytes: &[u8]) -> Piece
    requires { is_ascii_digit (spec.first bytes.now) ≡ true }
    ensures piece { result ≡ spec.decimal_piece bytes.now }
    ensures within { IsWithin (length bytes.now) result }
{
    let n = digits_len(bytes);
    Piece::Token(TokenKind::Number(value(10, &bytes[..n])), n)
}

fn number(bytes: &[u8]) -> Piece
    requires { is_ascii_digit (spec.first bytes.now) ≡ true }
    ensures piece { result ≡ spec.number_piece bytes.now }
    ensures within { IsWithin (length bytes.now) result }
{
    if byte_at(bytes, 0) == b'0' && byte_at(bytes, 1) == b'x' {
        hexadecimal(behind(bytes, 2))
    } else {
        decimal(bytes)
    }
}

/// What stands behind `.`.
fn directive(bytes: &[u8]) -> Piece
    ensures piece { result ≡ spec.directive_piece bytes.now }
    ensures within { IsWithin (length bytes.now + 1) result }
{
    let name = &bytes[..word_len(bytes)];
    if name == b"byte".as_slice() {
        Piece::Token(TokenKind::ByteDirective, 5)
    } else if name == b"word".as_slice() {
        Piece::Token(TokenKind::WordDirective, 5)
    } else if name == b"align".as_slice() {
        Piece::Token(TokenKind::AlignDirective, 6)
    } else {
        Piece::Bad
    }
}

fn mark(byte: u8) -> Piece
    ensures piece { result ≡ spec.mark_piece byte }
    ensures within { (n : _) → 0 < n → IsWithin n result }
{
    match byte {
        b',' => Piece::Token(TokenKind::Mark(Mark::Comma), 1),
        b':' => Piece::Token(TokenKind::Mark(Mark::Colon), 1),
        b';' => Piece::Token(TokenKind::Mark(Mark::Semicolon), 1),
        b'{' => Piece::Token(TokenKind::Mark(Mark::OpenBrace), 1),
        b'}' => Piece::Token(TokenKind::Mark(Mark::CloseBrace), 1),
        _ => Piece::Bad,
    }
}

/// A token, or nothing.
fn token(bytes: &[u8]) -> Piece
    requires { 0 < length bytes.now }
    ensures piece { result ≡ spec.token_piece bytes.now }
    ensures within { IsWithin (length bytes.now) result }
{
    let first = byte_at(bytes, 0);
    if is_word_start(first) {
        word(bytes)
    } else if first.is_ascii_digit() {
        number(bytes)
    } else if first == b'-' {
        negative(behind(bytes, 1))
    } else if first == b'.' {
        directive(behind(bytes, 1))
    } else {
        mark(first)
    }
}

fn front(bytes: &[u8]) -> Piece
    requires { 0 < length bytes.now }
    ensures piece { result ≡ spec.front bytes.now }
    ensures within { IsWithin (length bytes.now) result }
{
    let first = byte_at(bytes, 0);
    if first == b'\n' {
        Piece::LineFeed
    } else if is_blank(bytes) {
        Piece::Gap(1)
    } else if first == b'#' {
        comment(bytes)
    } else {
        token(bytes)
    }
}

/// What stands at a place of a text.
pub fn piece_at(text: &[u8], at: usize) -> Piece
    requires { at < length text.now }
    ensures piece { result ≡ spec.front (drop at text.now) }
    ensures within { IsWithin (length (drop at text.now)) result }
{
    front(behind(text, at))
}
