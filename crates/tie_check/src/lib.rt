//! Judges a TIE text by the 31 rules, and describes the extension that it declares.
//!
//! `specs/Checked.antt` says what is accepted and what a description is of. The rules stand in `tie_rules`, what an
//! operation writes in `tie_mean`, the declarations of a description in `tie_describe`.
#![tactic(auto)]

ghost use Rattle.std.specs.Prelude.{◌≡◌, ℕ, IfOk, OnOk, Err};
ghost use Rattle.tie_rules.specs.RuleBook as book;
ghost use Rattle.tie_rules.specs.Least.{IsFirst, NoneBroken};
ghost use Rattle.tie_description_law.specs.tie_tree_law.Shape.{IsRead};
ghost use Rattle.tie_check.specs.Checked.{Accepted};

mod operations;
mod refusal;

use crate::operations::all_results;
pub use refusal::CheckRefusal;
use std::alloc::Global;
use tie_desc::Desc;
use tie_describe::describe;
use tie_description_law::facts;
pub use tie_description_law::{tie_describe, tie_tree_law};
use tie_grammar::tree::Tree;
use tie_results::{NoMemory, functions_of};
pub use tie_rules;
use tie_rules::{RuleRefusal, judge};
use tie_sizes_law::{sound_operation, sound_text};
use tie_tree_law::read_trees;

/// The description of a text that breaks no rule.
fn described(alloc: Global, tree: &Tree) -> Result<Desc, NoMemory>
    requires read { IsRead tree.now }
    requires holds { NoneBroken (book.rules tree.now) }
    ensures { IfOk result (Accepted tree.now) }
{
    read_trees();
    sound_text();
    sound_operation();
    facts();
    let functions = functions_of(alloc, tree)?;
    let results = all_results(alloc, tree, &functions)?;
    let parts = describe(alloc, tree, results)?;
    Ok(Desc::new(
        parts.states,
        parts.files,
        parts.ranges,
        parts.ops,
        parts.formats,
        parts.ins,
        parts.outs,
    ))
}

/// Judges a text by the rules.
fn judged(alloc: Global, tree: &Tree) -> Result<(), CheckRefusal>
    ensures none { OnOk result (NoneBroken (book.rules tree.now)) }
    ensures first { (rule place : ℕ) → result ≡ Err (CheckRefusal.Rule rule place) → IsFirst 1 (book.rules tree.now) rule place }
{
    match judge(alloc, tree) {
        Ok(()) => Ok(()),
        Err(RuleRefusal::Rule { rule, place }) => Err(CheckRefusal::Rule { rule, place }),
        Err(RuleRefusal::NoMemory) => Err(CheckRefusal::NoMemory),
    }
}

/// The description of a text that breaks no rule, or the least rule that it breaks, at the least place.
///
/// The tree is one that was read from a text. A later rule is judged only where lesser ones hold.
pub fn check(alloc: Global, tree: &Tree) -> Result<Desc, CheckRefusal>
    requires { IsRead tree.now }
    ensures accepted { IfOk result (Accepted tree.now) }
    ensures refused { (rule place : ℕ) → result ≡ Err (CheckRefusal.Rule rule place) → IsFirst 1 (book.rules tree.now) rule place }
{
    if let Err(refusal) = judged(alloc, tree) {
        return Err(refusal);
    }
    match described(alloc, tree) {
        Ok(desc) => Ok(desc),
        Err(_) => Err(CheckRefusal::NoMemory),
    }
}
