//! Rule 16: names that aren't known.

ghost use Rattle.std.specs.Prelude.{◌≡◌, ℕ, Bool, ◌&&◌, ◌++◌, List, IfOk};
ghost use Rattle.std.specs.List.{flat_map, list_any};
ghost use Rattle.tie_grammar.specs.declared.tree.Decl.{Decl};
ghost use Rattle.tie_mean.specs.Kept.{met};
ghost use Rattle.tie_rules.specs.Least as spec;
ghost use Rattle.tie_rules.specs.Names.{has, listed};
ghost use Rattle.tie_rules.specs.Bodies as rule;
ghost use Rattle.tie_rules.specs.NameSets as sets;
ghost use Rattle.tie_rules.specs.Sorts as sorts;

use crate::again::{Named, names_in};
use crate::body_names::{BodyNames, body_names, sees};
use crate::declarations::least_in_body;
use crate::each::{Judge, JudgeIn, Test, least_in, least_made, some};
use crate::least::{earlier, when};
use crate::names::{Sort, Way, arguments, body, has, is_text, links, operand_is};
use std::alloc::Global;
use std::collections::BTreeSet;
use tie_grammar::symbol::Leaf;
use tie_grammar::tree::{Argument, Decl, Expr, Item, Link, ScheduleItem, Tree};
use tie_mean::NoMemory;
use tie_mean::kept::is_met;

#[derive(Clone, Copy)]
struct UnknownKind<'a> {
    tree: &'a Tree,
}

impl Judge<Argument> for UnknownKind<'_> {
    ghost use Rattle.tie_rules.specs.Bodies.{unknown_kind};

    ghost places = { λ s. unknown_kind s.tree.now };

    fn judge(&self, x: &Argument) -> Option<u32> {
        let known = is_text(&x.kind, b"AR") || has(self.tree, Sort::Kind, &x.kind);
        when(!known, x.kind.place)
    }
}

#[derive(Clone, Copy)]
struct UnknownLink<'a> {
    tree: &'a Tree,
}

impl Judge<Link> for UnknownLink<'_> {
    ghost use Rattle.tie_rules.specs.Bodies.{unknown_link};

    ghost places = { λ s. unknown_link s.tree.now };

    fn judge(&self, x: &Link) -> Option<u32> {
        when(!has(self.tree, Sort::Link, &x.name), x.name.place)
    }
}

#[tactic(auto, unfolding(crate::specs::Bodies::unseen))]
fn unseen(names: &BodyNames, n: &Leaf) -> Option<u32>
    ensures { result ≡ spec.least (rule.unseen names.now.decl.now n.now) }
{
    when(!sees(n, names), n.place)
}

#[tactic(auto, unfolding(crate::specs::Bodies::unseen_index))]
fn unseen_index(tree: &Tree, names: &BodyNames, n: &Leaf) -> Option<u32>
    ensures { result ≡ spec.least (rule.unseen_index tree.now names.now.decl.now n.now) }
{
    let known = sees(n, names) || has(tree, Sort::Table, n);
    when(!known, n.place)
}

#[tactic(auto, unfolding(crate::specs::Bodies::no_function))]
fn no_function(tree: &Tree, n: &Leaf) -> Option<u32>
    ensures { result ≡ spec.least (rule.no_function tree.now n.now) }
{
    when(!has(tree, Sort::Function, n), n.place)
}

#[derive(Clone, Copy)]
struct UnknownHere<'a, 't> {
    tree: &'a Tree,
    names: &'a BodyNames<'t>,
}

impl Judge<Expr> for UnknownHere<'_, '_> {
    ghost use Rattle.tie_rules.specs.Bodies.{unknown_here};

    ghost places = { λ s. unknown_here s.tree.now s.names.now.decl.now };

    fn judge(&self, x: &Expr) -> Option<u32> {
        match x {
            Expr::Name(n) => unseen(self.names, n),
            Expr::Select(n, _, _) => unseen(self.names, n),
            Expr::Index(n, _) => unseen_index(self.tree, self.names, n),
            Expr::Call(n, _, _) => no_function(self.tree, n),
            _ => None,
        }
    }
}

#[derive(Clone, Copy)]
struct UnknownTarget<'a, 't> {
    names: &'a BodyNames<'t>,
}

impl Judge<Item> for UnknownTarget<'_, '_> {
    ghost use Rattle.tie_rules.specs.Bodies.{unknown_target};

    ghost places = { λ s. unknown_target s.names.now.decl.now };

    fn judge(&self, item: &Item) -> Option<u32> {
        match item {
            Item::Assign(n, _) => unseen(self.names, n),
            _ => None,
        }
    }
}

/// Names by themselves.
#[derive(Clone, Copy)]
struct Leaves;

impl Named<Leaf> for Leaves {
    ghost use Rattle.std.specs.Prelude.{Some};

    ghost name = { λ _ leaf. Some leaf };

    fn name_of<'t>(&self, leaf: &'t Leaf) -> Option<&'t Leaf> {
        Some(leaf)
    }
}

/// A schedule lists this declaration, which is of an operation.
fn is_listed(names: &BTreeSet<&[u8]>, decl: &Decl) -> bool
    ensures { result ≡ sets.is_listed_by (met names.now) decl.now }
{
    match decl {
        Decl::Operation(x) => is_met(names, &x.name),
        _ => false,
    }
}

/// The operations of a text that a schedule lists.
#[derive(Drop)]
struct Listed<'t> {
    tree: &'t Tree,
    operations: &'t [Leaf],
    found: Vec<&'t Decl>,
    ghost right: { (test : Decl → Bool) → list_any (λ decl. test decl.now) found.items ≡ list_any (λ decl. sets.is_listed operations.now decl && test decl) tree.now.declarations },
}

fn names_of(alloc: Global, operations: &[Leaf]) -> Result<BTreeSet<&[u8]>, NoMemory>
    ensures { IfOk result (λ found. (q : List ℕ) → met found q ≡ listed q operations.now) }
{
    names_in(alloc, &Leaves, operations)
}

/// The declarations that a schedule lists.
fn listed_among<'t>(
    alloc: Global,
    names: &BTreeSet<&[u8]>,
    decls: &'t [Decl],
) -> Result<Vec<&'t Decl>, NoMemory>
    ensures { IfOk result (λ found. (test : Decl → Bool) → list_any (λ decl. test decl.now) found.items ≡ list_any (λ decl. sets.is_listed_by (met names.now) decl && test decl) decls.now) }
{
    let mut found = Vec::new(alloc);
    for decl in decls {
        if is_listed(names, decl) {
            found.push(decl)?;
        }
    }
    Ok(found)
}

fn listed_by<'t>(
    alloc: Global,
    tree: &'t Tree,
    operations: &'t [Leaf],
) -> Result<Listed<'t>, NoMemory>
    ensures { IfOk result (λ list. (list.tree.now ≡ tree.now) × (list.operations.now ≡ operations.now)) }
{
    let names = names_of(alloc, operations)?;
    let found = listed_among(alloc, &names, tree.declarations.as_slice())?;
    Ok(Listed {
        tree,
        operations,
        found,
    })
}

/// Operations that lack an operand.
#[derive(Clone, Copy)]
struct Lacks<'a> {
    way: Way,
    name: &'a Leaf,
}

impl Test<&Decl> for Lacks<'_> {
    ghost use Rattle.std.specs.Prelude.{not};
    ghost use Rattle.tie_rules.specs.Names.{operand_is};
    ghost use Rattle.tie_rules.specs.Sorts.{goes};

    ghost holds = { λ s decl. not (operand_is (goes s.way) s.name.now.bytes decl.now) };

    fn holds_of(&self, decl: &&Decl) -> bool {
        !operand_is(self.way, self.name, *decl)
    }
}

/// One of the listed operations lacks an operand.
fn is_lacking(list: &Listed, way: Way, name: &Leaf) -> bool
    ensures { result ≡ has (rule.lacks (sorts.goes way) list.now.operations.now name.now.bytes) list.now.tree.now }
{
    some(&Lacks { way, name }, &list.found)
}

#[derive(Clone, Copy)]
struct UnknownOperand<'a, 't> {
    list: &'a Listed<'t>,
    way: Way,
}

#[tactic(auto, unfolding(crate::specs::Bodies::unknown_operand))]
impl Judge<Leaf> for UnknownOperand<'_, '_> {
    ghost use Rattle.tie_rules.specs.Bodies.{unknown_operand};
    ghost use Rattle.tie_rules.specs.Sorts.{goes};

    ghost places = { λ s. unknown_operand s.list.now.tree.now (goes s.way) s.list.now.operations.now };

    fn judge(&self, name: &Leaf) -> Option<u32> {
        when(is_lacking(self.list, self.way, name), name.place)
    }
}

#[derive(Clone, Copy)]
struct UnknownUse<'a, 't> {
    list: &'a Listed<'t>,
}

#[tactic(auto, unfolding(crate::specs::Bodies::unknown_use))]
impl Judge<ScheduleItem> for UnknownUse<'_, '_> {
    ghost use Rattle.tie_rules.specs.Bodies.{unknown_use};

    ghost places = { λ s. unknown_use s.list.now.tree.now s.list.now.operations.now };

    fn judge(&self, item: &ScheduleItem) -> Option<u32> {
        let list = self.list;
        match item {
            ScheduleItem::Use(names, _) => {
                least_in(
                    &UnknownOperand {
                        list,
                        way: Way::Read,
                    },
                    names.as_slice(),
                )
            }
            ScheduleItem::Def(names, _) => {
                least_in(
                    &UnknownOperand {
                        list,
                        way: Way::Written,
                    },
                    names.as_slice(),
                )
            }
        }
    }
}

#[derive(Clone, Copy)]
struct UnknownOperation<'a> {
    tree: &'a Tree,
}

#[tactic(auto, unfolding(crate::specs::Bodies::unknown_operation))]
impl Judge<Leaf> for UnknownOperation<'_> {
    ghost use Rattle.tie_rules.specs.Bodies.{unknown_operation};

    ghost places = { λ s. unknown_operation s.tree.now };

    fn judge(&self, name: &Leaf) -> Option<u32> {
        when(!has(self.tree, Sort::Operation, name), name.place)
    }
}

#[tactic(auto, using(crate::proofs::Places::places))]
fn unknown_listed(list: &Listed, items: &[ScheduleItem]) -> Option<u32>
    ensures { result ≡ spec.least (flat_map (rule.unknown_operation list.now.tree.now) list.now.operations.now ++ flat_map (rule.unknown_use list.now.tree.now list.now.operations.now) items.now) }
{
    let tree = list.tree;
    let unknown = least_in(&UnknownOperation { tree }, list.operations);
    earlier(unknown, least_in(&UnknownUse { list }, items))
}

fn unknown_in_schedule(alloc: Global, tree: &Tree, decl: &Decl) -> Result<Option<u32>, NoMemory>
    ensures { IfOk result (λ place. place ≡ spec.least (rule.unknown_in_schedule tree.now decl.now)) }
{
    match decl {
        Decl::Schedule(x) => {
            let list = listed_by(alloc, tree, x.operations.as_slice())?;
            Ok(unknown_listed(&list, x.items.as_slice()))
        }
        _ => Ok(None),
    }
}

#[tactic(auto, using(crate::proofs::Places::places))]
fn unknown_in_body(tree: &Tree, names: &BodyNames) -> Option<u32>
    ensures { result ≡ spec.least (sets.unknown_in_body tree.now names.now.decl.now) }
{
    let decl = names.decl;
    let kinds = least_in(&UnknownKind { tree }, arguments(decl));
    let links = least_in(&UnknownLink { tree }, links(decl));
    let targets = least_in(&UnknownTarget { names }, body(decl));
    let reads = least_in_body(&UnknownHere { tree, names }, decl);
    earlier(earlier(kinds, links), earlier(targets, reads))
}

#[derive(Clone, Copy)]
struct UnknownName<'a> {
    tree: &'a Tree,
}

#[tactic(auto, using(crate::proofs::Places::places))]
impl JudgeIn<Decl> for UnknownName<'_> {
    ghost use Rattle.tie_rules.specs.Bodies.{unknown_name_at};

    ghost places = { λ s. unknown_name_at s.tree.now };

    fn judge(&self, alloc: Global, decl: &Decl) -> Result<Option<u32>, NoMemory> {
        let names = body_names(alloc, decl)?;
        let uses = unknown_in_schedule(alloc, self.tree, decl)?;
        Ok(earlier(unknown_in_body(self.tree, &names), uses))
    }
}

pub fn unknown_name(alloc: Global, tree: &Tree) -> Result<Option<u32>, NoMemory>
    ensures { IfOk result (λ place. place ≡ spec.least (rule.unknown_name tree.now)) }
{
    least_made(alloc, &UnknownName { tree }, tree.declarations.as_slice())
}
