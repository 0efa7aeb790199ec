//! The names that the items of a body read, and the items that set them.

ghost use Rattle.std.specs.Prelude.{◌≡◌, ℕ, List, Some, [], ◌∷◌, ◌++◌, map, length, take, drop, IfOk, OnOk, if◌then◌else◌};
ghost use Rattle.std.specs.Option.{option_to_list};
ghost use Rattle.tie_mean.specs.Kept as by_name;
ghost use Rattle.tie_mean.specs.Names as names;
ghost use Rattle.tie_mean.specs.Setters.{leaf_names, setter};
ghost use Rattle.tie_results.specs.Reads as spec;
ghost use Rattle.tie_results.specs.Texts.{tables_in};
ghost use Rattle.tie_results.specs.Plans as plan;

use crate::frame::Frame;
use crate::memory::NoMemory;
use crate::text::is_table;
use std::alloc::Global;
use std::collections::BTreeMap;
use tie_grammar::symbol::Leaf;
use tie_grammar::tree::{Expr, Item, Table};
use tie_mean::kept::{keep, kept};
use tie_mean::names::has;

/// Adds the names that an expression reads.
#[cycle(collect)]
fn collect<'t>(tables: &[&Table], x: &'t Expr, found: &mut Vec<&'t Leaf>) -> Result<(), NoMemory>
    ensures { OnOk result (leaf_names found.new.items ≡ leaf_names found.old.items ++ spec.names_read (names.is_among (map names.table_declared (map (λ x. x.now) tables.now))) x.now) }
{
    match x {
        Expr::Literal(_) => Ok(()),
        Expr::Name(name) => add(name, found),
        Expr::Select(name, _, _) => add(name, found),
        Expr::Index(name, index) => {
            if is_table(tables, name) {
                collect(tables, index.get(), found)
            } else {
                add(name, found)
            }
        }
        Expr::Call(_, _, arguments) => collect_all(tables, arguments.as_slice(), found),
        Expr::Tie(_, _, arguments) => collect_all(tables, arguments.as_slice(), found),
        Expr::Paren(_, inner) => collect(tables, inner.get(), found),
        Expr::Concat(_, parts) => collect_all(tables, parts.as_slice(), found),
        Expr::Repeat(_, _, _, part) => collect(tables, part.get(), found),
        Expr::Unary(_, _, operand) => collect(tables, operand.get(), found),
        Expr::Binary(_, left, right) => {
            collect(tables, left.get(), found)?;
            collect(tables, right.get(), found)
        }
        Expr::Conditional(condition, met, unmet) => {
            collect(tables, condition.get(), found)?;
            collect(tables, met.get(), found)?;
            collect(tables, unmet.get(), found)
        }
    }
}

/// Adds the names that some expressions read.
#[cycle(collect)]
fn collect_all<'t>(
    tables: &[&Table],
    parts: &'t [Expr],
    found: &mut Vec<&'t Leaf>,
) -> Result<(), NoMemory>
    ensures { OnOk result (leaf_names found.new.items ≡ leaf_names found.old.items ++ spec.all_of (map (spec.names_read (names.is_among (map names.table_declared (map (λ x. x.now) tables.now)))) parts.now)) }
{
    for part in parts {
        collect(tables, part, found)?;
    }
    Ok(())
}

/// Adds a name.
fn add<'t>(name: &'t Leaf, found: &mut Vec<&'t Leaf>) -> Result<(), NoMemory>
    ensures { OnOk result (leaf_names found.new.items ≡ leaf_names found.old.items ++ name.now.bytes ∷ []) }
{
    found.push(name)?;
    Ok(())
}

/// The item that sets a name, unless it is an input.
fn setter_of(inputs: &[&Leaf], setters: &BTreeMap<&[u8], usize>, name: &Leaf) -> Option<usize>
    ensures { option_to_list result ≡ spec.used_by (by_name.kept setters.now) (leaf_names inputs.now) name.now.bytes }
{
    if has(inputs, name) {
        None
    } else {
        kept(setters, name)
    }
}

/// The items that set some names.
fn setters_of(
    alloc: Global,
    inputs: &[&Leaf],
    setters: &BTreeMap<&[u8], usize>,
    found: &[&Leaf],
) -> Result<Vec<usize>, NoMemory>
    ensures { IfOk result (λ numbers. numbers.items ≡ spec.used (by_name.kept setters.now) (leaf_names inputs.now) (leaf_names found.now)) }
{
    let mut numbers = Vec::new(alloc);
    for name in found {
        if let Some(number) = setter_of(inputs, setters, name) {
            numbers.push(number)?;
        }
    }
    Ok(numbers)
}

/// The items that set the names which an expression reads.
fn uses_of(
    alloc: Global,
    frame: &Frame,
    setters: &BTreeMap<&[u8], usize>,
    value: &Expr,
) -> Result<Vec<usize>, NoMemory>
    ensures { IfOk result (λ numbers. numbers.items ≡ spec.used (by_name.kept setters.now) (leaf_names frame.now.inputs.now) (spec.names_read (names.is_among (map names.table_declared (tables_in frame.now.text.now))) value.now)) }
{
    let mut found = Vec::new(alloc);
    collect(&frame.text.tables, value, &mut found)?;
    setters_of(alloc, frame.inputs, setters, &found)
}

/// The items that set the names which an item reads.
fn item_uses(
    alloc: Global,
    frame: &Frame,
    setters: &BTreeMap<&[u8], usize>,
    item: &Item,
) -> Result<Vec<usize>, NoMemory>
    ensures { IfOk result (λ numbers. numbers.items ≡ spec.setting_uses (names.is_among (map names.table_declared (tables_in frame.now.text.now))) (leaf_names frame.now.inputs.now) (by_name.kept setters.now) (names.setting item.now)) }
{
    match item {
        Item::Wire(_, _) => Ok(Vec::new(alloc)),
        Item::WireSet(_, _, value) | Item::Assign(_, value) => {
            uses_of(alloc, frame, setters, value)
        }
    }
}

/// Keeps the number of an item for the name that it sets.
pub fn keep_setter<'t>(
    setters: &mut BTreeMap<&'t [u8], usize>,
    item: &'t Item,
    number: usize,
) -> Result<(), NoMemory>
    ensures { OnOk result ((q : List ℕ) → by_name.kept setters.new q ≡ (if names.sets q (names.setting item.now) then Some number else by_name.kept setters.old q)) }
{
    match item {
        Item::Wire(_, _) => Ok(()),
        Item::WireSet(_, name, _) | Item::Assign(name, _) => {
            keep(setters, name, number)?;
            Ok(())
        }
    }
}

/// Which items set the names that the items of a body read, and the items that names are last set by.
#[derive(Drop)]
pub struct Uses<'t> {
    pub items: Vec<Vec<usize>>,
    pub setters: BTreeMap<&'t [u8], usize>,
}

/// The uses of a body.
pub fn body_uses<'t>(alloc: Global, frame: &Frame<'_, 't>) -> Result<Uses<'t>, NoMemory>
    ensures { IfOk result (plan.AreUses (names.is_among (map names.table_declared (tables_in frame.now.text.now))) (leaf_names frame.now.inputs.now) frame.now.items.now) }
{
    let mut setters = BTreeMap::new(alloc);
    let mut items = Vec::new(alloc);
    for k in 0..frame.items.len() {
        let item = &frame.items[k];
        items.push(item_uses(alloc, frame, &setters, item)?)?;
        keep_setter(&mut setters, item, k)?;
    }
    Ok(Uses { items, setters })
}
