//! What stands at the front of the rest of a text.

ghost use Rattle.std.specs.Prelude.{◌≡◌, ◌==◌, ◌&&◌, ◌^◌, ◌<◌, length, true, false, drop, ◌∷◌, [], if◌then◌else◌};
ghost use Rattle.std.specs.List.{prefix_len};
ghost use Rattle.tie_lexer.specs.Bytes as class;
ghost use Rattle.tie_lexer.specs.Pieces as spec;
ghost use Rattle.tie_lexer.specs.Front.{IsPiece, Closes, Marks};

use crate::classes::{
    is_base, is_blank, is_digit, is_digit_of, is_hexadecimal_digit, is_letter, is_text_byte,
    is_value_byte, is_word_byte,
};
use crate::{LexRule, TokenKind};

const LONGEST_WORD: usize = 32;

const MOST_DIGITS: usize = 39;

const MOST_HEXADECIMAL_DIGITS: usize = 32;

/// What stands at the front, and how many bytes it has.
#[derive(Clone, Copy, Debug)]
pub enum Piece {
    Gap(usize),
    Token(TokenKind, usize),
    /// With the place of the fault behind the front.
    Bad(LexRule, usize),
}

/// The byte at a place, or 0 behind the end.
fn byte_at(bytes: &[u8], at: usize) -> u8
    ensures { result ≡ class.byte_at bytes.now at }
{
    if at < bytes.len() { bytes[at] } else { 0 }
}

fn stand_at(bytes: &[u8], at: usize, a: u8, b: u8) -> bool
    requires { at < 2 ^ 63 }
    ensures { result ≡ spec.stand_at bytes.now at a b }
{
    byte_at(bytes, at) == a && byte_at(bytes, at + 1) == b
}

/// The bytes from a place on; none behind the end.
fn behind(bytes: &[u8], at: usize) -> &[u8]
    ensures { result.now ≡ drop at bytes.now }
{
    if at < bytes.len() {
        &bytes[at..]
    } else {
        &bytes[..0]
    }
}

/// How many bytes, from the front on, may stand in a text.
fn text_len(bytes: &[u8]) -> usize
    ensures { result ≡ prefix_len class.is_text_byte bytes.now }
{
    bytes.iter().take_while(|b| is_text_byte(**b)).count()
}

fn line_len(rest: &[u8]) -> usize
    ensures { result ≡ spec.line_len rest.now }
{
    rest.iter().take_while(|b| **b != b'\n').count()
}

fn word_len(rest: &[u8]) -> usize
    ensures { result ≡ spec.word_len rest.now }
{
    rest.iter().take_while(|b| is_word_byte(**b)).count()
}

fn digits_len(rest: &[u8]) -> usize
    ensures { result ≡ spec.digits_len rest.now }
{
    rest.iter().take_while(|b| is_digit(**b)).count()
}

fn hexadecimal_digits_len(rest: &[u8]) -> usize
    ensures { result ≡ prefix_len class.is_hexadecimal_digit rest.now }
{
    rest.iter()
        .take_while(|b| is_hexadecimal_digit(**b))
        .count()
}

fn value_len(letter: u8, rest: &[u8]) -> usize
    ensures { result ≡ prefix_len (class.is_value_byte letter) rest.now }
{
    rest.iter()
        .take_while(|b| is_value_byte(letter, **b))
        .count()
}

/// Where the block comment at the front ends, if it does.
fn block_len(rest: &[u8]) -> Option<usize>
    ensures { Closes rest.now result }
{
    let mut at = 3;
    while at < rest.len() {
        if rest[at - 1] == b'*' && rest[at] == b'/' {
            return Some(at + 1);
        }
        at += 1;
    }
    None
}

/// The comment with these many bytes, or the first of its bytes that may not stand in a text.
fn comment(rest: &[u8], n: usize) -> Piece
    requires { spec.IsComment rest.now n }
    ensures { IsPiece rest.now result }
{
    let clean = text_len(&rest[..n]);
    if clean < n {
        Piece::Bad(LexRule::BadByte, clean)
    } else {
        Piece::Gap(n)
    }
}

fn block_comment(rest: &[u8]) -> Piece
    requires { spec.opens_block rest.now ≡ true }
    ensures { IsPiece rest.now result }
{
    match block_len(rest) {
        None => Piece::Bad(LexRule::OpenComment, 0),
        Some(n) => comment(rest, n),
    }
}

fn word(rest: &[u8]) -> Piece
    requires { class.is_letter (class.first rest.now) ≡ true }
    ensures { IsPiece rest.now result }
{
    let n = word_len(rest);
    if n > LONGEST_WORD {
        Piece::Bad(LexRule::BadLiteral, 0)
    } else {
        Piece::Token(TokenKind::Word, n)
    }
}

#[tactic(auto, using(crate::proofs::Literals::too_many_digits))]
fn hexadecimal(rest: &[u8]) -> Piece
    requires { spec.opens_hexadecimal rest.now ≡ true }
    ensures { IsPiece rest.now result }
{
    let n = hexadecimal_digits_len(behind(rest, 2));
    if n == 0 {
        Piece::Bad(LexRule::BadLiteral, 0)
    } else if n > MOST_HEXADECIMAL_DIGITS {
        Piece::Bad(LexRule::BadLiteral, 0)
    } else {
        Piece::Token(TokenKind::Number, 2 + n)
    }
}

fn decimal(rest: &[u8]) -> Piece
    requires digit { class.is_digit (class.first rest.now) ≡ true }
    requires not_hexadecimal { spec.opens_hexadecimal rest.now ≡ false }
    requires not_sized { spec.has_quote rest.now ≡ false }
    ensures { IsPiece rest.now result }
{
    let n = digits_len(rest);
    if n > MOST_DIGITS {
        Piece::Bad(LexRule::BadLiteral, 0)
    } else {
        Piece::Token(TokenKind::Number, n)
    }
}

/// How many bytes a literal of this base may have.
fn sized_limit(letter: u8) -> usize
    ensures { result ≡ (if letter == 98 then 200 else 64) }
{
    if letter == b'b' { 200 } else { 64 }
}

/// Whether a digit of the base stands behind the letter of the base.
fn has_value(base: u8, value: &[u8]) -> bool
    ensures { result ≡ (class.is_base base && class.is_digit_of base (class.first value.now)) }
{
    is_base(base) && is_digit_of(base, byte_at(value, 0))
}

fn sized(rest: &[u8], width: usize) -> Piece
    requires digit { class.is_digit (class.first rest.now) ≡ true }
    requires quote { spec.has_quote rest.now ≡ true }
    requires width { width ≡ spec.digits_len rest.now }
    ensures { IsPiece rest.now result }
{
    let base = byte_at(rest, width + 1);
    let value = behind(rest, width + 2);
    if has_value(base, value) {
        let n = width + 2 + value_len(base, value);
        if n > sized_limit(base) {
            Piece::Bad(LexRule::BadLiteral, 0)
        } else {
            Piece::Token(TokenKind::Sized, n)
        }
    } else {
        Piece::Bad(LexRule::BadLiteral, 0)
    }
}

fn literal(rest: &[u8]) -> Piece
    requires { class.is_digit (class.first rest.now) ≡ true }
    ensures { IsPiece rest.now result }
{
    if stand_at(rest, 0, b'0', b'x') {
        return hexadecimal(rest);
    }
    let width = digits_len(rest);
    if byte_at(rest, width) == b'\'' {
        sized(rest, width)
    } else {
        decimal(rest)
    }
}

fn is_one(a: u8) -> bool
    ensures { result ≡ spec.is_mark (a ∷ []) }
{
    matches!(
        a,
        b'{' | b'}'
            | b'('
            | b')'
            | b'['
            | b']'
            | b','
            | b';'
            | b':'
            | b'?'
            | b'='
            | b'<'
            | b'>'
            | b'+'
            | b'-'
            | b'*'
            | b'&'
            | b'|'
            | b'^'
            | b'~'
            | b'!'
    )
}

fn is_two(a: u8, b: u8) -> bool
    ensures { result ≡ spec.is_mark (a ∷ b ∷ []) }
{
    b == b'=' && matches!(a, b'=' | b'!' | b'<' | b'>')
        || a == b && matches!(a, b'<' | b'>' | b'&' | b'|')
}

#[tactic(auto, using(crate::proofs::Marks::mark_of_two, crate::proofs::Marks::mark_of_one, crate::proofs::Marks::no_mark))]
fn mark_len(rest: &[u8]) -> Option<usize>
    ensures { Marks rest.now result }
{
    let (a, b) = (byte_at(rest, 0), byte_at(rest, 1));
    if is_two(a, b) {
        Some(2)
    } else if is_one(a) {
        Some(1)
    } else {
        None
    }
}

fn next_piece(rest: &[u8]) -> Piece
    requires { 0 < length rest.now }
    ensures { IsPiece rest.now result }
{
    let first = rest[0];
    if is_blank(first) {
        return Piece::Gap(1);
    }
    if is_letter(first) {
        return word(rest);
    }
    if is_digit(first) {
        return literal(rest);
    }
    if stand_at(rest, 0, b'/', b'/') {
        return comment(rest, line_len(rest));
    }
    if stand_at(rest, 0, b'/', b'*') {
        return block_comment(rest);
    }
    match mark_len(rest) {
        Some(n) => Piece::Token(TokenKind::Mark, n),
        None => Piece::Bad(LexRule::BadByte, 0),
    }
}

/// The longest token, one blank or the comment at a place of a text, or the fault there.
pub fn piece_at(text: &[u8], at: usize) -> Piece
    requires { at < length text.now }
    ensures { IsPiece (drop at text.now) result }
{
    next_piece(&text[at..])
}
