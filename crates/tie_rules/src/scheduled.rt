//! Rule 26: operations that a second schedule lists, and operands that a schedule names twice.

ghost use Rattle.std.specs.Prelude.{◌≡◌, List, IfOk};
ghost use Rattle.tie_rules.specs.Least as spec;
ghost use Rattle.tie_rules.specs.Schedules as rule;
ghost use Rattle.tie_rules.specs.NameSets as sets;

use crate::again::{JudgeLists, least_lists, leaves_again};
use crate::each::{Judge, JudgeIn, least_in, least_made};
use crate::least::{earlier, when};
use std::alloc::Global;
use std::collections::BTreeSet;
use tie_grammar::symbol::Leaf;
use tie_grammar::tree::{Decl, ScheduleItem, Tree};
use tie_mean::NoMemory;
use tie_mean::kept::is_met;

// ---- operations

/// The operations that a schedule lists.
fn operations_of(decl: &Decl) -> &[Leaf]
    ensures { result.now ≡ sets.scheduled_leaves decl.now }
{
    match decl {
        Decl::Schedule(x) => x.operations.as_slice(),
        _ => &[],
    }
}

/// Names that were met before.
#[derive(Clone, Copy)]
struct Known<'a, 'b> {
    before: &'a BTreeSet<&'b [u8]>,
}

impl Judge<Leaf> for Known<'_, '_> {
    ghost use Rattle.tie_mean.specs.Kept.{met};
    ghost use Rattle.tie_rules.specs.NameSets.{known_leaf};

    ghost places = { λ s. known_leaf (met s.before.now) };

    fn judge(&self, leaf: &Leaf) -> Option<u32> {
        when(is_met(self.before, leaf), leaf.place)
    }
}

#[derive(Clone, Copy)]
struct Operations;

impl JudgeLists<Decl> for Operations {
    ghost use Rattle.tie_rules.specs.NameSets.{scheduled_here, scheduled_leaves};

    ghost leaves = { λ _. scheduled_leaves };

    ghost places = { λ _. scheduled_here };

    fn leaves_of<'t>(&self, decl: &'t Decl) -> &'t [Leaf] {
        operations_of(decl)
    }

    fn judge(
        &self,
        _alloc: Global,
        before: &BTreeSet<&[u8]>,
        decl: &Decl,
    ) -> Result<Option<u32>, NoMemory> {
        Ok(least_in(&Known { before }, operations_of(decl)))
    }
}

// ---- operands

/// The names that an item of a schedule uses, or those that it defines.
fn operands_of(defined: bool, item: &ScheduleItem) -> &[Leaf]
    ensures { result.now ≡ sets.operands defined item.now }
{
    match item {
        ScheduleItem::Use(names, _) => { if defined { &[] } else { names.as_slice() } }
        ScheduleItem::Def(names, _) => { if defined { names.as_slice() } else { &[] } }
    }
}

/// The used operands of a schedule's items, or the defined ones.
#[derive(Clone, Copy)]
struct Operands {
    defined: bool,
}

impl JudgeLists<ScheduleItem> for Operands {
    ghost use Rattle.tie_rules.specs.NameSets.{operands, operands_here};

    ghost leaves = { λ s. operands s.defined };

    ghost places = { λ s. operands_here s.defined };

    fn leaves_of<'t>(&self, item: &'t ScheduleItem) -> &'t [Leaf] {
        operands_of(self.defined, item)
    }

    fn judge(
        &self,
        alloc: Global,
        before: &BTreeSet<&[u8]>,
        item: &ScheduleItem,
    ) -> Result<Option<u32>, NoMemory> {
        leaves_again(alloc, before, operands_of(self.defined, item))
    }
}

fn operand_twice(alloc: Global, items: &[ScheduleItem]) -> Result<Option<u32>, NoMemory>
    ensures { IfOk result (λ place. place ≡ spec.least (spec.behind rule.operand_again items.now)) }
{
    let used = least_lists(alloc, &Operands { defined: false }, items)?;
    let defined = least_lists(alloc, &Operands { defined: true }, items)?;
    Ok(earlier(used, defined))
}

#[derive(Clone, Copy)]
struct OperandTwice;

impl JudgeIn<Decl> for OperandTwice {
    ghost use Rattle.tie_rules.specs.NameSets.{operands_twice};

    ghost places = { λ _. operands_twice };

    fn judge(&self, alloc: Global, decl: &Decl) -> Result<Option<u32>, NoMemory> {
        match decl {
            Decl::Schedule(x) => operand_twice(alloc, x.items.as_slice()),
            _ => Ok(None),
        }
    }
}

// ---- the rule

pub fn schedule_twice(alloc: Global, tree: &Tree) -> Result<Option<u32>, NoMemory>
    ensures { IfOk result (λ place. place ≡ spec.least (rule.schedule_twice tree.now)) }
{
    let decls = tree.declarations.as_slice();
    let operations = least_lists(alloc, &Operations, decls)?;
    let operands = least_made(alloc, &OperandTwice, decls)?;
    Ok(earlier(operations, operands))
}
