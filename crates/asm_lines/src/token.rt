//! Tokens and spots.

use crate::word::Word;

/// A mark.
#[derive(Clone, Copy, Debug, PartialEq, Eq)]
pub enum Mark {
    Comma,
    Colon,
    Semicolon,
    OpenBrace,
    CloseBrace,
}

/// What a token is.
#[derive(Clone, Copy)]
pub enum TokenKind {
    /// A letter or `_`, then letters, digits and `_`, at most 32 bytes.
    Name(Word),
    /// Decimal digits, `-` and decimal digits, or `0x` and hexadecimal digits. One of 2^40 or more, whatever its sign, is
    /// that of 2^40.
    Number(i64),
    Mark(Mark),
    /// `.byte`
    ByteDirective,
    /// `.word`
    WordDirective,
    /// `.align`
    AlignDirective,
    /// The end of a line that has other tokens.
    LineEnd,
}

/// A token, with its line and the column of its first byte, both from 1; of a line's end one column behind the last token.
#[derive(Clone, Copy)]
pub struct Token {
    pub kind: TokenKind,
    pub line: u32,
    pub column: u32,
}

// A place in a source, and the column behind the last token of its line, 0 where there is none.
#[derive(Clone, Copy, Debug)]
pub struct Spot {
    pub line: u32,
    pub column: u32,
    pub behind: u32,
}
