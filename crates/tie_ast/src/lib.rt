//! The tree of a TIE text, or its first fault.
//!
//! `docs/TIE-LANGUAGE.md` gives the grammar for a user. `tie_grammar` has the trees, what they spell and which of them the
//! grammar has. `specs/Symbols.antt` says what a token is to the grammar, `specs/Parsing.antt` what `parse` answers.
#![tactic(auto)]

ghost use Rattle.std.specs.Prelude.{◌≡◌, ℕ, ◌≤◌, ◌⊎◌, List, length, IfOk, Err};
ghost use Rattle.tie_lexer.specs.declared.Token.{Token};
ghost use Rattle.tie_lexer.specs.Tokens.{AreTokens};
ghost use Rattle.tie_grammar.specs.declared.tree.Tree.{Tree};
ghost use Rattle.tie_ast.specs.Parsing.{IsTreeOf, IsFaultOf};
ghost use Rattle.tie_ast.specs.Symbols.{place_at as place_of};

mod decls;
mod expr;
mod items;
mod limit;
mod lists;
mod place;
mod refusal;
mod symbols;
mod token;

use refusal::Refusal;
use std::alloc::{AllocError, Global};
use tie_grammar::tree::Tree;
pub use tie_grammar::{symbol, tree};
use tie_lexer::Token;

/// The first fault of a text's tokens, or want of memory.
#[derive(Debug, Drop)]
pub enum ParseRefusal {
    /// No text of the grammar goes on with the token at this place, or the 1,024 tokens of an expression end before it.
    /// It is the text's length where the tokens end too early.
    Fault { place: u32 },
    NoMemory,
}

impl From<AllocError> for ParseRefusal {
    ghost use Rattle.tie_ast.specs.declared.ParseRefusal.TheVariants.{NoMemory};

    ghost from_gives = { λ _ e. e ≡ NoMemory };

    fn from(_error: AllocError) -> ParseRefusal {
        ParseRefusal::NoMemory
    }
}

/// The fault at the symbol with this number.
fn fault(text: &[u8], tokens: &[Token], at: usize) -> ParseRefusal
    requires { length text.now ≤ 1048576 }
    ensures { result ≡ ParseRefusal.Fault (place_of text.now tokens.now at) }
{
    let place = match tokens.get(at) {
        Some(token) => token.start,
        None => text.len() as u32,
    };
    ParseRefusal::Fault { place }
}

/// The tree of a text, for its tokens.
///
/// Takes time linear in the text. Expressions nest no deeper than they have tokens, of which 1,024 are allowed.
pub fn parse(alloc: Global, text: &[u8], tokens: &[Token]) -> Result<Tree, ParseRefusal>
    requires size { length text.now ≤ 1048576 }
    requires tokens { AreTokens text.now tokens.now }
    ensures tree { IfOk result (λ tree. IsTreeOf text.now tokens.now tree) }
    ensures fault { (place : ℕ) → result ≡ Err (ParseRefusal.Fault place) → IsFaultOf text.now tokens.now place }
{
    let symbols = symbols::symbols(alloc, text, tokens)?;
    let allowed = limit::allowed(symbols.as_slice());
    match decls::text(alloc, &symbols.as_slice()[..allowed], allowed) {
        Ok((tree, _)) => {
            if allowed == symbols.len() {
                Ok(tree)
            } else {
                Err(fault(text, tokens, allowed))
            }
        }
        Err(Refusal::Fault(left)) => Err(fault(text, tokens, allowed - left)),
        Err(Refusal::NoMemory) => Err(ParseRefusal::NoMemory),
    }
}

/// The tokens of a text have one tree at most.

pub fn one_tree()
    ensures { (text : List ℕ) (tokens : List Token) (a b : Tree) → IsTreeOf text tokens a → IsTreeOf text tokens b → a ≡ b }
{}

/// They have one first fault at most, and none where they have a tree.
pub fn one_fault()
    ensures place { (text : List ℕ) (tokens : List Token) (p q : ℕ) → IsFaultOf text tokens p → IsFaultOf text tokens q → p ≡ q }
    ensures no_tree { (text : List ℕ) (tokens : List Token) (tree : Tree) (p : ℕ) → IsTreeOf text tokens tree → IsFaultOf text tokens p → ⊥ }
{}

/// They have a tree or a fault.
pub fn tree_or_fault()
    ensures { (text : List ℕ) (tokens : List Token) → ((tree : Tree) × IsTreeOf text tokens tree) ⊎ ((p : ℕ) × IsFaultOf text tokens p) }
{}
