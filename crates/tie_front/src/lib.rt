//! The front end: the description of a TIE text, or the first rule that the text breaks.
//!
//! `docs/TIE-LANGUAGE.md` has the language and the rules. `specs/Front.antt` says what is answered.
#![tactic(auto)]

ghost use Rattle.std.specs.Prelude.{◌≡◌, ◌≤◌, ℕ, length, IfOk, Err};
ghost use Rattle.tie_lexer.specs.declared.Token.{Token};
ghost use Rattle.tie_lexer.specs.Tokens.{AreTokens};
ghost use Rattle.tie_grammar.specs.declared.tree.Tree.{Tree};
ghost use Rattle.tie_ast.specs.Parsing.{IsTreeOf};
ghost use Rattle.tie_check.specs.tie_rules.RuleBook as book;
ghost use Rattle.tie_check.specs.tie_rules.Least.{IsFirst};
ghost use Rattle.tie_desc.specs.Description.{Description};
ghost use Rattle.tie_check.specs.Checked.{Accepted};
ghost use Rattle.tie_front.specs.Front.{IsDescriptionOf, IsRefused};

mod refusal;

pub use refusal::{TieRefusal, TieRule, rule_name};
use std::alloc::Global;
use tie_ast::{ParseRefusal, parse};
pub use tie_check::{tie_describe, tie_rules, tie_tree_law};
use tie_check::{CheckRefusal, check};
use tie_desc::Desc;
use tie_lexer::{LexRefusal, Token, lex};

/// The description of a TIE text, or why it is refused: the first fault of its tokens, else of its grammar, else the least
/// broken rule at its least place.
pub fn read_tie(alloc: Global, text: &[u8]) -> Result<Desc, TieRefusal>
    requires { length text.now ≤ 1048576 }
    ensures description { IfOk result (IsDescriptionOf text.now) }
    ensures refused { (rule : TieRule) (place : ℕ) → result ≡ Err (TieRefusal.Fault rule place) → IsRefused text.now rule place }
{
    let tokens = tokens_of(alloc, text)?;
    description_of(alloc, text, &tokens)
}

fn tokens_of(alloc: Global, text: &[u8]) -> Result<Vec<Token>, TieRefusal>
    requires { length text.now ≤ 1048576 }
    ensures tokens { IfOk result (λ tokens. AreTokens text.now tokens.items) }
    ensures refused { (rule : TieRule) (place : ℕ) → result ≡ Err (TieRefusal.Fault rule place) → IsRefused text.now rule place }
{
    match lex(alloc, text) {
        Ok(tokens) => Ok(tokens),
        Err(LexRefusal::Fault { rule, place }) => Err(TieRefusal::Fault {
            rule: TieRule::Lex(rule),
            place,
        }),
        Err(LexRefusal::NoMemory) => Err(TieRefusal::NoMemory),
    }
}

fn description_of(alloc: Global, text: &[u8], tokens: &[Token]) -> Result<Desc, TieRefusal>
    requires size { length text.now ≤ 1048576 }
    requires tokens { AreTokens text.now tokens.now }
    ensures description { IfOk result (λ d. (tree : Tree) × IsTreeOf text.now tokens.now tree × Accepted tree d) }
    ensures refused { (rule : TieRule) (place : ℕ) → result ≡ Err (TieRefusal.Fault rule place) → IsRefused text.now rule place }
{
    let tree = match parse(alloc, text, tokens) {
        Ok(tree) => tree,
        Err(ParseRefusal::Fault { place }) => {
            return Err(TieRefusal::Fault {
                rule: TieRule::Parse,
                place,
            });
        }
        Err(ParseRefusal::NoMemory) => return Err(TieRefusal::NoMemory),
    };
    match check(alloc, &tree) {
        Ok(desc) => Ok(desc),
        Err(CheckRefusal::Rule { rule, place }) => Err(TieRefusal::Fault {
            rule: TieRule::Rule(rule),
            place,
        }),
        Err(CheckRefusal::NoMemory) => Err(TieRefusal::NoMemory),
    }
}
