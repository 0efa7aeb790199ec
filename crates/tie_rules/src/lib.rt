//! The 31 rules of TIE texts, and the first one that a text breaks.
//!
//! `specs/RuleBook.antt` has the rules in their order, each by the places at which it is broken: `specs/Declarations.antt`
//! those of declarations, `specs/Bodies.antt` those of functions and operations, `specs/Schedules.antt` those of schedules
//! and formats. `specs/Least.antt` says which one is answered.
#![tactic(auto)]

ghost use Rattle.std.specs.Prelude.{◌≡◌, ℕ, OnOk, Err};
ghost use Rattle.tie_grammar.specs.declared.tree.Tree.{Tree};
ghost use Rattle.tie_rules.specs.RuleBook as book;
ghost use Rattle.tie_rules.specs.Least.{first_broken, NoneBroken, IsFirst};
ghost use Rattle.tie_rules.specs.Answers.{Judged};

mod again;
mod assigned;
mod bodies;
mod body_names;
mod counted;
mod declarations;
mod each;
mod least;
mod locals;
mod measured;
mod mnemonics;
mod names;
mod parts;
mod scheduled;
mod schedules;
mod sizes;
mod slots;
mod unknown;
mod widths;

use assigned::{assigned_twice, not_assigned, used_before};
use bodies::{arg_count, direction, recursion};
use counted::{too_many, too_many_opcodes};
use declarations::{
    depth_range, doubled, format_width, imm_range, literal_range, short_name, slot_count,
    slot_opcode, table_count, too_many_args, width_range,
};
use locals::local_doubled;
use scheduled::schedule_twice;
use schedules::{format_too_wide, queue_twice, schedule_order, state_twice};
use sizes::{arg_size, select_range, size_range, too_large};
use slots::slot_list;
use std::alloc::Global;
use tie_grammar::tree::Tree;
use unknown::unknown_name;

/// The first broken rule at its least place, or want of memory.
#[derive(Clone, Copy, Debug, PartialEq, Eq)]
pub enum RuleRefusal {
    /// The rule's number, 1 to 31, and a place in the text.
    Rule { rule: u8, place: u32 },
    NoMemory,
}

/// Rule 1.
fn judge_names(alloc: Global, tree: &Tree) -> Result<(), RuleRefusal>
    ensures { Judged result (first_broken 1 (book.name_rules tree.now)) }
{
    match doubled(alloc, tree) {
        Ok(Some(place)) => Err(RuleRefusal::Rule { rule: 1, place }),
        Ok(None) => Ok(()),
        Err(_) => Err(RuleRefusal::NoMemory),
    }
}

/// Rule 2.
fn judge_short_names(alloc: Global, tree: &Tree) -> Result<(), RuleRefusal>
    ensures { Judged result (first_broken 2 (book.short_rules tree.now)) }
{
    match short_name(alloc, tree) {
        Ok(Some(place)) => Err(RuleRefusal::Rule { rule: 2, place }),
        Ok(None) => Ok(()),
        Err(_) => Err(RuleRefusal::NoMemory),
    }
}

/// Rules 3 to 14.
fn judge_declarations(alloc: Global, tree: &Tree) -> Result<(), RuleRefusal>
    ensures { Judged result (first_broken 3 (book.declaration_rules tree.now)) }
{
    match too_many(alloc, tree) {
        Ok(None) => {}
        Ok(Some(place)) => return Err(RuleRefusal::Rule { rule: 3, place }),
        Err(_) => return Err(RuleRefusal::NoMemory),
    }
    match too_many_opcodes(alloc, tree) {
        Ok(None) => {}
        Ok(Some(place)) => return Err(RuleRefusal::Rule { rule: 4, place }),
        Err(_) => return Err(RuleRefusal::NoMemory),
    }
    if let Some(place) = too_many_args(tree) {
        return Err(RuleRefusal::Rule { rule: 5, place });
    }
    if let Some(place) = width_range(tree) {
        return Err(RuleRefusal::Rule { rule: 6, place });
    }
    if let Some(place) = depth_range(tree) {
        return Err(RuleRefusal::Rule { rule: 7, place });
    }
    if let Some(place) = literal_range(tree) {
        return Err(RuleRefusal::Rule { rule: 8, place });
    }
    if let Some(place) = table_count(tree) {
        return Err(RuleRefusal::Rule { rule: 9, place });
    }
    if let Some(place) = imm_range(tree) {
        return Err(RuleRefusal::Rule { rule: 10, place });
    }
    if let Some(place) = format_width(tree) {
        return Err(RuleRefusal::Rule { rule: 11, place });
    }
    if let Some(place) = slot_count(tree) {
        return Err(RuleRefusal::Rule { rule: 12, place });
    }
    match slot_list(alloc, tree) {
        Ok(None) => {}
        Ok(Some(place)) => return Err(RuleRefusal::Rule { rule: 13, place }),
        Err(_) => return Err(RuleRefusal::NoMemory),
    }
    if let Some(place) = slot_opcode(tree) {
        return Err(RuleRefusal::Rule { rule: 14, place });
    }
    Ok(())
}

/// Rules 15 to 25.
fn judge_bodies(alloc: Global, tree: &Tree) -> Result<(), RuleRefusal>
    ensures { Judged result (first_broken 15 (book.body_rules tree.now)) }
{
    match local_doubled(alloc, tree) {
        Ok(None) => {}
        Ok(Some(place)) => return Err(RuleRefusal::Rule { rule: 15, place }),
        Err(_) => return Err(RuleRefusal::NoMemory),
    }
    match unknown_name(alloc, tree) {
        Ok(None) => {}
        Ok(Some(place)) => return Err(RuleRefusal::Rule { rule: 16, place }),
        Err(_) => return Err(RuleRefusal::NoMemory),
    }
    if let Some(place) = direction(tree) {
        return Err(RuleRefusal::Rule { rule: 17, place });
    }
    if let Some(place) = recursion(tree) {
        return Err(RuleRefusal::Rule { rule: 18, place });
    }
    if let Some(place) = arg_count(tree) {
        return Err(RuleRefusal::Rule { rule: 19, place });
    }
    match used_before(alloc, tree) {
        Ok(None) => {}
        Ok(Some(place)) => return Err(RuleRefusal::Rule { rule: 20, place }),
        Err(_) => return Err(RuleRefusal::NoMemory),
    }
    match assigned_twice(alloc, tree) {
        Ok(None) => {}
        Ok(Some(place)) => return Err(RuleRefusal::Rule { rule: 21, place }),
        Err(_) => return Err(RuleRefusal::NoMemory),
    }
    match not_assigned(alloc, tree) {
        Ok(None) => {}
        Ok(Some(place)) => return Err(RuleRefusal::Rule { rule: 22, place }),
        Err(_) => return Err(RuleRefusal::NoMemory),
    }
    match select_range(alloc, tree) {
        Ok(None) => {}
        Ok(Some(place)) => return Err(RuleRefusal::Rule { rule: 23, place }),
        Err(_) => return Err(RuleRefusal::NoMemory),
    }
    match arg_size(alloc, tree) {
        Ok(None) => {}
        Ok(Some(place)) => return Err(RuleRefusal::Rule { rule: 24, place }),
        Err(_) => return Err(RuleRefusal::NoMemory),
    }
    match size_range(alloc, tree) {
        Ok(None) => {}
        Ok(Some(place)) => return Err(RuleRefusal::Rule { rule: 25, place }),
        Err(_) => return Err(RuleRefusal::NoMemory),
    }
    Ok(())
}

/// Rule 31.
fn judge_size(alloc: Global, tree: &Tree) -> Result<(), RuleRefusal>
    ensures { Judged result (first_broken 31 (book.size_rules tree.now)) }
{
    match too_large(alloc, tree) {
        Ok(Some(place)) => Err(RuleRefusal::Rule { rule: 31, place }),
        Ok(None) => Ok(()),
        Err(_) => Err(RuleRefusal::NoMemory),
    }
}

/// Rules 26 to 30.
fn judge_schedules(alloc: Global, tree: &Tree) -> Result<(), RuleRefusal>
    ensures { Judged result (first_broken 26 (book.schedule_rules tree.now)) }
{
    match schedule_twice(alloc, tree) {
        Ok(None) => {}
        Ok(Some(place)) => return Err(RuleRefusal::Rule { rule: 26, place }),
        Err(_) => return Err(RuleRefusal::NoMemory),
    }
    if let Some(place) = schedule_order(tree) {
        return Err(RuleRefusal::Rule { rule: 27, place });
    }
    if let Some(place) = format_too_wide(tree) {
        return Err(RuleRefusal::Rule { rule: 28, place });
    }
    if let Some(place) = state_twice(tree) {
        return Err(RuleRefusal::Rule { rule: 29, place });
    }
    if let Some(place) = queue_twice(tree) {
        return Err(RuleRefusal::Rule { rule: 30, place });
    }
    Ok(())
}

/// Rules 26 to 31.
fn judge_late(alloc: Global, tree: &Tree) -> Result<(), RuleRefusal>
    ensures { Judged result (first_broken 26 (book.late_rules tree.now)) }
{
    if let Err(refusal) = judge_schedules(alloc, tree) {
        return Err(refusal);
    }
    judge_size(alloc, tree)
}

/// Rules 3 to 31.
fn judge_behind_names(alloc: Global, tree: &Tree) -> Result<(), RuleRefusal>
    ensures { Judged result (first_broken 3 (book.rules_behind_names tree.now)) }
{
    if let Err(refusal) = judge_declarations(alloc, tree) {
        return Err(refusal);
    }
    if let Err(refusal) = judge_bodies(alloc, tree) {
        return Err(refusal);
    }
    judge_late(alloc, tree)
}

/// All rules.
fn first_refused(alloc: Global, tree: &Tree) -> Result<(), RuleRefusal>
    ensures { Judged result (first_broken 1 (book.rules tree.now)) }
{
    if let Err(refusal) = judge_names(alloc, tree) {
        return Err(refusal);
    }
    if let Err(refusal) = judge_short_names(alloc, tree) {
        return Err(refusal);
    }
    judge_behind_names(alloc, tree)
}

/// Judges a text: `Ok` where no rule is broken anywhere, else the least rule that is, at the least place at which it is.
/// Later rules are judged only where lesser ones hold.
pub fn judge(alloc: Global, tree: &Tree) -> Result<(), RuleRefusal>
    ensures none { OnOk result (NoneBroken (book.rules tree.now)) }
    ensures first { (rule place : ℕ) → result ≡ Err (RuleRefusal.Rule rule place) → IsFirst 1 (book.rules tree.now) rule place }
{
    first_refused(alloc, tree)
}

/// One rule at one place is the first, and none is where no rule is broken.
pub fn one_first()
    ensures one { (tree : Tree) (rule place other at : ℕ) → IsFirst 1 (book.rules tree) rule place → IsFirst 1 (book.rules tree) other at → (rule ≡ other) × (place ≡ at) }
    ensures none { (tree : Tree) (rule place : ℕ) → NoneBroken (book.rules tree) → IsFirst 1 (book.rules tree) rule place → ⊥ }
{}
