//! The limit on the symbols of an expression.

ghost use Rattle.std.specs.Prelude.{◌≡◌, ℕ, ◌≤◌, ◌<◌, length};
ghost use Rattle.tie_grammar.specs.Grammar.{IsBeyond};

use crate::token::is_mark;
use tie_grammar::symbol::{Mark, Symbol};

/// How many symbols an expression may have.
const LIMIT: usize = 1024;

/// How many symbols stand before the first that is beyond the limit, or how many there are.
///
/// An expression begins behind a `=` and ends at a `;`.
pub fn allowed(symbols: &[Symbol]) -> usize
    ensures within { result ≤ length symbols.now }
    ensures before { (k : ℕ) → k < result → IsBeyond symbols.now k → ⊥ }
    ensures there { result < length symbols.now → IsBeyond symbols.now result }
{
    let mut opened = None;
    for (at, symbol) in symbols.iter().enumerate() {
        if is_mark(symbol, Mark::Semicolon) {
            opened = None;
        } else if let Some(start) = opened {
            if at - start > LIMIT {
                return at;
            }
        } else if is_mark(symbol, Mark::Equals) {
            opened = Some(at);
        }
    }
    symbols.len()
}
