//! Symbols of tokens.

ghost use Rattle.std.specs.Prelude.{◌≡◌, ℕ, IfOk};
ghost use Rattle.tie_lexer.specs.Tokens.{bytes_of as token_bytes};
ghost use Rattle.tie_ast.specs.Symbols as spec;
ghost use Rattle.tie_ast.specs.Symbols.{lookup};

use sqlite_items::Items;
use std::alloc::{AllocError, Global};
use tie_grammar::symbol::{
    Direction, Leaf, Mark, Sign, Stage, StageWord, Symbol, TieFunction, TieWord,
};
use tie_lexer::{Token, TokenKind};

fn is(word: &[u8], other: &[u8]) -> bool
    ensures { result ≡ spec.is word.now other.now }
{
    word == other
}

fn stage(stage: Stage, place: u32) -> Symbol
    ensures { result ≡ spec.stage_at stage place }
{
    Symbol::Stage(StageWord { stage, place })
}

fn tie(function: TieFunction, place: u32) -> Symbol
    ensures { result ≡ spec.tie_at function place }
{
    Symbol::Tie(TieWord { function, place })
}

/// Words that begin a declaration.
fn declaration_word(word: &[u8], place: u32) -> Option<Symbol>
    ensures { result ≡ lookup word.now place spec.declaration_words }
{
    if is(word, b"state") {
        return Some(Symbol::Mark(Mark::State));
    }
    if is(word, b"regfile") {
        return Some(Symbol::Mark(Mark::Regfile));
    }
    if is(word, b"queue") {
        return Some(Symbol::Mark(Mark::Queue));
    }
    if is(word, b"table") {
        return Some(Symbol::Mark(Mark::Table));
    }
    if is(word, b"immediate_range") {
        return Some(Symbol::Mark(Mark::ImmediateRange));
    }
    if is(word, b"function") {
        return Some(Symbol::Mark(Mark::Function));
    }
    if is(word, b"operation") {
        return Some(Symbol::Mark(Mark::Operation));
    }
    if is(word, b"schedule") {
        return Some(Symbol::Mark(Mark::Schedule));
    }
    if is(word, b"format") {
        return Some(Symbol::Mark(Mark::Format));
    }
    if is(word, b"slot_opcodes") {
        return Some(Symbol::Mark(Mark::SlotOpcodes));
    }
    None
}

/// Words that begin an item.
fn item_word(word: &[u8], place: u32) -> Option<Symbol>
    ensures { result ≡ lookup word.now place spec.item_words }
{
    if is(word, b"wire") {
        return Some(Symbol::Mark(Mark::Wire));
    }
    if is(word, b"assign") {
        return Some(Symbol::Mark(Mark::Assign));
    }
    if is(word, b"use") {
        return Some(Symbol::Mark(Mark::Use));
    }
    if is(word, b"def") {
        return Some(Symbol::Mark(Mark::Def));
    }
    None
}

/// Words that a tree keeps.
fn kept_word(word: &[u8], place: u32) -> Option<Symbol>
    ensures { result ≡ lookup word.now place spec.kept_words }
{
    if is(word, b"in") {
        return Some(Symbol::Direction(Direction::In));
    }
    if is(word, b"out") {
        return Some(Symbol::Direction(Direction::Out));
    }
    if is(word, b"inout") {
        return Some(Symbol::Direction(Direction::Inout));
    }
    if is(word, b"Estage") {
        return Some(stage(Stage::Estage, place));
    }
    if is(word, b"Mstage") {
        return Some(stage(Stage::Mstage, place));
    }
    if is(word, b"TIEadd") {
        return Some(tie(TieFunction::Add, place));
    }
    if is(word, b"TIEmul") {
        return Some(tie(TieFunction::Mul, place));
    }
    if is(word, b"TIEmux") {
        return Some(tie(TieFunction::Mux, place));
    }
    None
}

/// Brackets.
fn bracket(word: &[u8], place: u32) -> Option<Symbol>
    ensures { result ≡ lookup word.now place spec.brackets }
{
    if is(word, b"(") {
        return Some(Symbol::Paren(place));
    }
    if is(word, b")") {
        return Some(Symbol::Mark(Mark::EndParen));
    }
    if is(word, b"[") {
        return Some(Symbol::Mark(Mark::Bracket));
    }
    if is(word, b"]") {
        return Some(Symbol::Mark(Mark::EndBracket));
    }
    if is(word, b"{") {
        return Some(Symbol::Brace(place));
    }
    if is(word, b"}") {
        return Some(Symbol::Mark(Mark::EndBrace));
    }
    None
}

/// Marks between parts.
fn separator(word: &[u8], place: u32) -> Option<Symbol>
    ensures { result ≡ lookup word.now place spec.separators }
{
    if is(word, b",") {
        return Some(Symbol::Mark(Mark::Comma));
    }
    if is(word, b";") {
        return Some(Symbol::Mark(Mark::Semicolon));
    }
    if is(word, b":") {
        return Some(Symbol::Mark(Mark::Colon));
    }
    if is(word, b"?") {
        return Some(Symbol::Mark(Mark::Question));
    }
    if is(word, b"=") {
        return Some(Symbol::Mark(Mark::Equals));
    }
    None
}

/// Signs of logic.
fn bit_sign(word: &[u8], place: u32) -> Option<Symbol>
    ensures { result ≡ lookup word.now place spec.bit_signs }
{
    if is(word, b"||") {
        return Some(Symbol::Sign(Sign::BarBar, place));
    }
    if is(word, b"&&") {
        return Some(Symbol::Sign(Sign::AmpAmp, place));
    }
    if is(word, b"|") {
        return Some(Symbol::Sign(Sign::Bar, place));
    }
    if is(word, b"^") {
        return Some(Symbol::Sign(Sign::Caret, place));
    }
    if is(word, b"&") {
        return Some(Symbol::Sign(Sign::Amp, place));
    }
    if is(word, b"~") {
        return Some(Symbol::Sign(Sign::Tilde, place));
    }
    if is(word, b"!") {
        return Some(Symbol::Sign(Sign::Bang, place));
    }
    None
}

/// Signs of arithmetic.
fn number_sign(word: &[u8], place: u32) -> Option<Symbol>
    ensures { result ≡ lookup word.now place spec.number_signs }
{
    if is(word, b"==") {
        return Some(Symbol::Sign(Sign::EqualEqual, place));
    }
    if is(word, b"!=") {
        return Some(Symbol::Sign(Sign::BangEqual, place));
    }
    if is(word, b"<") {
        return Some(Symbol::Sign(Sign::Less, place));
    }
    if is(word, b"<=") {
        return Some(Symbol::Sign(Sign::LessEqual, place));
    }
    if is(word, b">") {
        return Some(Symbol::Sign(Sign::Greater, place));
    }
    if is(word, b">=") {
        return Some(Symbol::Sign(Sign::GreaterEqual, place));
    }
    if is(word, b"<<") {
        return Some(Symbol::Sign(Sign::LessLess, place));
    }
    if is(word, b">>") {
        return Some(Symbol::Sign(Sign::GreaterGreater, place));
    }
    if is(word, b"+") {
        return Some(Symbol::Sign(Sign::Plus, place));
    }
    if is(word, b"-") {
        return Some(Symbol::Sign(Sign::Minus, place));
    }
    if is(word, b"*") {
        return Some(Symbol::Sign(Sign::Star, place));
    }
    None
}

/// The symbol of a reserved word or a mark.
fn reserved(word: &[u8], place: u32) -> Option<Symbol>
    ensures { result ≡ spec.reserved word.now place }
{
    if let Some(found) = declaration_word(word, place) {
        return Some(found);
    }
    if let Some(found) = item_word(word, place) {
        return Some(found);
    }
    if let Some(found) = kept_word(word, place) {
        return Some(found);
    }
    if let Some(found) = bracket(word, place) {
        return Some(found);
    }
    if let Some(found) = separator(word, place) {
        return Some(found);
    }
    if let Some(found) = bit_sign(word, place) {
        return Some(found);
    }
    number_sign(word, place)
}

/// The bytes of a token, which are in the text.
#[tactic(auto, using(crate::proofs::Clamp::clamped))]
fn bytes_of(text: &[u8], token: Token) -> &[u8]
    ensures { result.now ≡ token_bytes text.now token }
{
    let start = (token.start as usize).min(text.len());
    let rest = &text[start..];
    let size = token.end.saturating_sub(token.start) as usize;
    &rest[..size.min(rest.len())]
}

fn leaf(alloc: Global, text: &[u8], token: Token) -> Result<Leaf, AllocError>
    ensures { IfOk result (λ leaf. leaf ≡ spec.leaf_of text.now token) }
{
    let bytes = Items::from_slice(alloc, bytes_of(text, token))?;
    Ok(Leaf {
        bytes,
        place: token.start,
    })
}

fn symbol(alloc: Global, text: &[u8], token: Token) -> Result<Symbol, AllocError>
    ensures { IfOk result (λ symbol. symbol ≡ spec.symbol_of text.now token) }
{
    match token.kind {
        TokenKind::Number => Ok(Symbol::Number(leaf(alloc, text, token)?)),
        TokenKind::Sized => Ok(Symbol::Sized(leaf(alloc, text, token)?)),
        TokenKind::Word | TokenKind::Mark => {
            match reserved(bytes_of(text, token), token.start) {
                Some(found) => Ok(found),
                None => Ok(Symbol::Name(leaf(alloc, text, token)?)),
            }
        }
    }
}

/// The symbols of the tokens, one for each.
pub fn symbols(alloc: Global, text: &[u8], tokens: &[Token]) -> Result<Items<Symbol>, AllocError>
    ensures { IfOk result (λ found. found ≡ spec.symbols text.now tokens.now) }
{
    let mut found = Items::new(alloc);
    for token in tokens {
        found.push(symbol(alloc, text, *token)?)?;
    }
    Ok(found)
}
