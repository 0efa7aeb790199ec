//! Rules 23 to 25 and 31: sizes, and the nodes of an operation.

ghost use Rattle.std.specs.Prelude.{◌≡◌, ◌==◌, ◌≤◌, ◌<◌, IfOk, option_copied, length, slice_get};
ghost use Rattle.std.specs.List.{flat_map};
ghost use Rattle.tie_mean.specs.Values as value;
ghost use Rattle.tie_mean.specs.Sizes.{limited};
ghost use Rattle.tie_mean.specs.Counts.{operation_seen};
ghost use Rattle.tie_mean.specs.CountScope.{AreFunctions};
ghost use Rattle.tie_rules.specs.Least as spec;
ghost use Rattle.tie_rules.specs.Bodies as rule;
ghost use Rattle.tie_rules.specs.Names.{seen_widths};

use crate::bodies::number_of;
use crate::declarations::{least_in_body, value as number_value};
use crate::each::{Judge, JudgeIn, least_in, least_made};
use crate::least::{earlier, when};
use crate::measured::measured;
use crate::names::body as items_of;
use crate::widths::{Body, body_of};
use std::alloc::Global;
use tie_grammar::symbol::{Leaf, TieFunction};
use tie_grammar::tree::{Decl, Expr, Item, Tree};
use tie_mean::NoMemory;
use tie_mean::body::{function_counts, operation_count};
use tie_mean::scope::FunctionCount;
use tie_mean::size::{Scope, size};

// ---- 23

fn bad_bit(width: u64, number: Option<&Leaf>) -> Option<u32>
    ensures { result ≡ spec.least (rule.bad_bit width (option_copied number.entry)) }
{
    match number {
        Some(leaf) => when(u128::from(width) <= number_value(leaf), leaf.place),
        None => None,
    }
}

fn bad_index(body: &Body, name: &Leaf, number: Option<&Leaf>) -> Option<u32>
    ensures { result ≡ spec.least (rule.bad_index (seen_widths body.now.tree.now body.now.decl.now) name.now (option_copied number.entry)) }
{
    if body.is_table(name) {
        None
    } else {
        bad_bit(body.name_width(name), number)
    }
}

#[derive(Clone, Copy)]
struct SelectHere<'a, 's, 't> {
    body: &'a Body<'s, 't>,
}

impl Judge<Expr> for SelectHere<'_, '_, '_> {
    ghost use Rattle.tie_rules.specs.Bodies.{select_here};
    ghost use Rattle.tie_rules.specs.Names.{seen_widths};

    ghost places = { λ s. select_here (seen_widths s.body.now.tree.now s.body.now.decl.now) };

    fn judge(&self, x: &Expr) -> Option<u32> {
        match x {
            Expr::Select(n, high, low) => {
                let top = number_value(high);
                let beyond = u128::from(self.body.name_width(n)) <= top;
                when(top < number_value(low) || beyond, high.place)
            }
            Expr::Index(n, index) => bad_index(self.body, n, number_of(index.get())),
            Expr::Repeat(_, count, _, _) => when(number_value(count) == 0, count.place),
            _ => None,
        }
    }
}

#[derive(Clone, Copy)]
struct SelectRange<'a> {
    tree: &'a Tree,
}

impl JudgeIn<Decl> for SelectRange<'_> {
    ghost use Rattle.tie_rules.specs.Bodies.{select_range_at};

    ghost places = { λ s. select_range_at s.tree.now };

    fn judge(&self, alloc: Global, decl: &Decl) -> Result<Option<u32>, NoMemory> {
        let body = body_of(alloc, self.tree, decl)?;
        Ok(least_in_body(&SelectHere { body: &body }, decl))
    }
}

pub fn select_range(alloc: Global, tree: &Tree) -> Result<Option<u32>, NoMemory>
    ensures { IfOk result (λ place. place ≡ spec.least (rule.select_range tree.now)) }
{
    least_made(alloc, &SelectRange { tree }, tree.declarations.as_slice())
}

// ---- 24

fn size_of(body: &Body, x: Option<&Expr>) -> u64
    ensures { result ≡ limited (rule.size_of (seen_widths body.now.tree.now body.now.decl.now) (option_copied x.entry)) }
{
    match x {
        Some(x) => size(body, x),
        None => 0,
    }
}

fn fits_arms(size: u64, count: usize) -> bool
    ensures { result ≡ rule.fits_arms size count }
{
    match size {
        0 => count == 2,
        1 => count == 3,
        2 => count == 5,
        3 => count == 9,
        4 => count == 17,
        _ => false,
    }
}

fn fits_sizes(body: &Body, function: TieFunction, arguments: &[Expr]) -> bool
    ensures { result ≡ rule.fits_sizes (seen_widths body.now.tree.now body.now.decl.now) function arguments.now }
{
    match function {
        TieFunction::Mux => fits_arms(size_of(body, arguments.get(0)), arguments.len()),
        _ => size_of(body, arguments.get(2)) == 1,
    }
}

#[derive(Clone, Copy)]
struct ArgSizeHere<'a, 's, 't> {
    body: &'a Body<'s, 't>,
}

impl Judge<Expr> for ArgSizeHere<'_, '_, '_> {
    ghost use Rattle.tie_rules.specs.Bodies.{arg_size_here};
    ghost use Rattle.tie_rules.specs.Names.{seen_widths};

    ghost places = { λ s. arg_size_here (seen_widths s.body.now.tree.now s.body.now.decl.now) };

    fn judge(&self, x: &Expr) -> Option<u32> {
        match x {
            Expr::Tie(word, _, arguments) => {
                when(
                    !fits_sizes(self.body, word.function, arguments.as_slice()),
                    word.place,
                )
            }
            _ => None,
        }
    }
}

#[derive(Clone, Copy)]
struct ArgSize<'a> {
    tree: &'a Tree,
}

impl JudgeIn<Decl> for ArgSize<'_> {
    ghost use Rattle.tie_rules.specs.Bodies.{arg_size_at};

    ghost places = { λ s. arg_size_at s.tree.now };

    fn judge(&self, alloc: Global, decl: &Decl) -> Result<Option<u32>, NoMemory> {
        let body = body_of(alloc, self.tree, decl)?;
        Ok(least_in_body(&ArgSizeHere { body: &body }, decl))
    }
}

pub fn arg_size(alloc: Global, tree: &Tree) -> Result<Option<u32>, NoMemory>
    ensures { IfOk result (λ place. place ≡ spec.least (rule.arg_size tree.now)) }
{
    least_made(alloc, &ArgSize { tree }, tree.declarations.as_slice())
}

// ---- 25

#[derive(Clone, Copy)]
struct WideItem<'a, 's, 't> {
    body: &'a Body<'s, 't>,
}

impl Judge<Item> for WideItem<'_, '_, '_> {
    ghost use Rattle.tie_rules.specs.Bodies.{size_here};
    ghost use Rattle.tie_rules.specs.Declarations.{in_item};
    ghost use Rattle.tie_rules.specs.Names.{seen_widths};

    ghost places = { λ s. in_item (size_here (seen_widths s.body.now.tree.now s.body.now.decl.now)) };

    fn judge(&self, item: &Item) -> Option<u32> {
        match item {
            Item::Wire(_, _) => None,
            Item::WireSet(_, _, x) => measured(self.body, x).place,
            Item::Assign(_, x) => measured(self.body, x).place,
        }
    }
}

#[derive(Clone, Copy)]
struct SizeRange<'a> {
    tree: &'a Tree,
}

impl JudgeIn<Decl> for SizeRange<'_> {
    ghost use Rattle.tie_rules.specs.Bodies.{size_range_at};

    ghost places = { λ s. size_range_at s.tree.now };

    fn judge(&self, alloc: Global, decl: &Decl) -> Result<Option<u32>, NoMemory> {
        let body = body_of(alloc, self.tree, decl)?;
        Ok(least_in(&WideItem { body: &body }, items_of(decl)))
    }
}

pub fn size_range(alloc: Global, tree: &Tree) -> Result<Option<u32>, NoMemory>
    ensures { IfOk result (λ place. place ≡ spec.least (rule.size_range tree.now)) }
{
    least_made(alloc, &SizeRange { tree }, tree.declarations.as_slice())
}

// ---- 31

fn too_large_at(
    alloc: Global,
    tree: &Tree,
    functions: &[FunctionCount],
    decl: &Decl,
) -> Result<Option<u32>, NoMemory>
    requires { AreFunctions functions.now (operation_seen tree.now) }
    ensures { IfOk result (λ place. place ≡ spec.least (rule.too_large_at tree.now decl.now)) }
{
    match decl {
        Decl::Operation(x) => {
            let n = operation_count(alloc, tree, functions, x)?;
            Ok(when(n > 4096, x.name.place))
        }
        _ => Ok(None),
    }
}

#[tactic(auto, using(crate::proofs::Places::places))]
fn too_large_among(
    alloc: Global,
    tree: &Tree,
    functions: &[FunctionCount],
    decls: &[Decl],
) -> Result<Option<u32>, NoMemory>
    requires { AreFunctions functions.now (operation_seen tree.now) }
    ensures { IfOk result (λ place. place ≡ spec.least (flat_map (rule.too_large_at tree.now) decls.now)) }
{
    let mut found = None;
    for decl in decls {
        let place = too_large_at(alloc, tree, functions, decl)?;
        found = earlier(found, place);
    }
    Ok(found)
}

pub fn too_large(alloc: Global, tree: &Tree) -> Result<Option<u32>, NoMemory>
    ensures { IfOk result (λ place. place ≡ spec.least (rule.too_large tree.now)) }
{
    let functions = function_counts(alloc, tree)?;
    too_large_among(alloc, tree, &functions, tree.declarations.as_slice())
}
