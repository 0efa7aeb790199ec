//! Rules 20 to 22: assignments in the bodies of functions and operations.

ghost use Rattle.std.specs.Prelude.{◌≡◌, IfOk, option_copied};
ghost use Rattle.tie_mean.specs.Kept.{met};
ghost use Rattle.tie_rules.specs.Least as spec;
ghost use Rattle.tie_rules.specs.Bodies as rule;
ghost use Rattle.tie_rules.specs.NameSets as sets;

use crate::again::{JudgeAgain, JudgeMet, least_again, least_met};
use crate::body_names::{BodyNames, body_names, has_wire, is_assigned, set_name};
use crate::declarations::InItems;
use crate::each::{Judge, JudgeIn, least_in, least_made};
use crate::least::{earlier, when};
use crate::names::{Way, arguments, body, goes, links, own_name};
use std::alloc::Global;
use std::collections::BTreeSet;
use tie_grammar::symbol::Leaf;
use tie_grammar::tree::{Argument, Decl, Expr, Item, Link, Tree};
use tie_mean::NoMemory;
use tie_mean::kept::is_met;

// ---- 20

#[tactic(auto, unfolding(crate::specs::NameSets::early_by))]
fn early(names: &BodyNames, before: &BTreeSet<&[u8]>, n: &Leaf) -> Option<u32>
    ensures { result ≡ spec.least (sets.early_by (sets.waits names.now.decl.now) (met before.now) n.now) }
{
    let waits = has_wire(n, names) && is_assigned(n, names);
    when(waits && !is_met(before, n), n.place)
}

#[derive(Clone, Copy)]
struct EarlyHere<'a, 'b, 't> {
    names: &'a BodyNames<'t>,
    before: &'a BTreeSet<&'b [u8]>,
}

impl Judge<Expr> for EarlyHere<'_, '_, '_> {
    ghost use Rattle.tie_mean.specs.Kept.{met};
    ghost use Rattle.tie_rules.specs.NameSets.{early_here_by, waits};

    ghost places = { λ s. early_here_by (waits s.names.now.decl.now) (met s.before.now) };

    fn judge(&self, x: &Expr) -> Option<u32> {
        match x {
            Expr::Name(n) => early(self.names, self.before, n),
            Expr::Select(n, _, _) => early(self.names, self.before, n),
            Expr::Index(n, _) => early(self.names, self.before, n),
            _ => None,
        }
    }
}

#[derive(Clone, Copy)]
struct UsedBeforeItem<'a, 't> {
    names: &'a BodyNames<'t>,
}

impl JudgeMet<Item> for UsedBeforeItem<'_, '_> {
    ghost use Rattle.tie_rules.specs.NameSets.{early_item, set_name, waits};

    ghost name = { λ _. set_name };

    ghost places = { λ s. early_item (waits s.names.now.decl.now) };

    fn name_of<'t>(&self, item: &'t Item) -> Option<&'t Leaf> {
        set_name(item)
    }

    fn judge(&self, before: &BTreeSet<&[u8]>, item: &Item) -> Option<u32> {
        let rule = EarlyHere {
            names: self.names,
            before,
        };
        InItems { rule: &rule }.judge(item)
    }
}

#[derive(Clone, Copy)]
struct UsedBefore;

impl JudgeIn<Decl> for UsedBefore {
    ghost use Rattle.tie_rules.specs.Bodies.{used_before_at};

    ghost places = { λ _. used_before_at };

    fn judge(&self, alloc: Global, decl: &Decl) -> Result<Option<u32>, NoMemory> {
        let names = body_names(alloc, decl)?;
        least_met(alloc, &UsedBeforeItem { names: &names }, body(decl))
    }
}

pub fn used_before(alloc: Global, tree: &Tree) -> Result<Option<u32>, NoMemory>
    ensures { IfOk result (λ place. place ≡ spec.least (rule.used_before tree.now)) }
{
    least_made(alloc, &UsedBefore, tree.declarations.as_slice())
}

// ---- 21

fn set_again(again: bool, name: Option<&Leaf>) -> Option<u32>
    ensures { result ≡ spec.least (sets.set_again_by again (option_copied name.entry)) }
{
    match name {
        Some(n) => when(again, n.place),
        None => None,
    }
}

#[derive(Clone, Copy)]
struct AssignedTwiceItem;

impl JudgeAgain<Item> for AssignedTwiceItem {
    ghost use Rattle.tie_rules.specs.NameSets.{set_again_here, set_name};

    ghost name = { λ _. set_name };

    ghost places = { λ _. set_again_here };

    fn name_of<'t>(&self, item: &'t Item) -> Option<&'t Leaf> {
        set_name(item)
    }

    fn judge(&self, again: bool, item: &Item) -> Option<u32> {
        set_again(again, set_name(item))
    }
}

#[derive(Clone, Copy)]
struct AssignedTwice;

impl JudgeIn<Decl> for AssignedTwice {
    ghost use Rattle.tie_rules.specs.Bodies.{assigned_twice_at};

    ghost places = { λ _. assigned_twice_at };

    fn judge(&self, alloc: Global, decl: &Decl) -> Result<Option<u32>, NoMemory> {
        least_again(alloc, &AssignedTwiceItem, body(decl))
    }
}

pub fn assigned_twice(alloc: Global, tree: &Tree) -> Result<Option<u32>, NoMemory>
    ensures { IfOk result (λ place. place ≡ spec.least (rule.assigned_twice tree.now)) }
{
    least_made(alloc, &AssignedTwice, tree.declarations.as_slice())
}

// ---- 22

#[derive(Clone, Copy)]
struct UnsetWire<'a, 't> {
    names: &'a BodyNames<'t>,
}

impl Judge<Item> for UnsetWire<'_, '_> {
    ghost use Rattle.tie_rules.specs.Bodies.{unset_wire};

    ghost places = { λ s. unset_wire s.names.now.decl.now };

    fn judge(&self, item: &Item) -> Option<u32> {
        match item {
            Item::Wire(_, n) => when(!is_assigned(n, self.names), n.place),
            _ => None,
        }
    }
}

#[derive(Clone, Copy)]
struct UnsetArgument<'a, 't> {
    names: &'a BodyNames<'t>,
}

impl Judge<Argument> for UnsetArgument<'_, '_> {
    ghost use Rattle.tie_rules.specs.Bodies.{unset_argument};

    ghost places = { λ s. unset_argument s.names.now.decl.now };

    fn judge(&self, x: &Argument) -> Option<u32> {
        let written = goes(Way::Written, x.direction);
        when(written && !is_assigned(&x.name, self.names), x.name.place)
    }
}

#[derive(Clone, Copy)]
struct UnsetLink<'a, 't> {
    names: &'a BodyNames<'t>,
}

impl Judge<Link> for UnsetLink<'_, '_> {
    ghost use Rattle.tie_rules.specs.Bodies.{unset_link};

    ghost places = { λ s. unset_link s.names.now.decl.now };

    fn judge(&self, x: &Link) -> Option<u32> {
        let written = goes(Way::Written, x.direction);
        when(written && !is_assigned(&x.name, self.names), x.name.place)
    }
}

fn unset_name(names: &BodyNames, name: Option<&Leaf>) -> Option<u32>
    ensures { result ≡ spec.least (rule.unset_name names.now.decl.now (option_copied name.entry)) }
{
    match name {
        Some(n) => when(!is_assigned(n, names), n.place),
        None => None,
    }
}

#[tactic(auto, using(crate::proofs::Places::places))]
fn unset_in(names: &BodyNames) -> Option<u32>
    ensures { result ≡ spec.least (rule.not_assigned_at names.now.decl.now) }
{
    let decl = names.decl;
    let own = unset_name(names, own_name(decl));
    let wires = least_in(&UnsetWire { names }, body(decl));
    let arguments = least_in(&UnsetArgument { names }, arguments(decl));
    let links = least_in(&UnsetLink { names }, links(decl));
    earlier(earlier(own, wires), earlier(arguments, links))
}

#[derive(Clone, Copy)]
struct NotAssigned;

impl JudgeIn<Decl> for NotAssigned {
    ghost use Rattle.tie_rules.specs.Bodies.{not_assigned_at};

    ghost places = { λ _. not_assigned_at };

    fn judge(&self, alloc: Global, decl: &Decl) -> Result<Option<u32>, NoMemory> {
        let names = body_names(alloc, decl)?;
        Ok(unset_in(&names))
    }
}

pub fn not_assigned(alloc: Global, tree: &Tree) -> Result<Option<u32>, NoMemory>
    ensures { IfOk result (λ place. place ≡ spec.least (rule.not_assigned tree.now)) }
{
    least_made(alloc, &NotAssigned, tree.declarations.as_slice())
}
