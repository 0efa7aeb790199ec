//! The names that a body sees, with their widths.

ghost use Rattle.std.specs.Prelude.{◌≡◌, ℕ, ◌+◌, ◌++◌, drop, take, map, codes, List, IfOk, OnOk, IsTrue, unwrap_or, option_copied};
ghost use Rattle.std.specs.List.{flat_map, list_all};
ghost use Rattle.tie_mean.specs.Sizes.{limited};
ghost use Rattle.tie_mean.specs.Names as names;
ghost use Rattle.tie_mean.specs.Kept.{kept};
ghost use Rattle.tie_results.specs.Texts as spec;

use crate::memory::NoMemory;
use crate::text::{leaf_width, range_width};
use std::alloc::Global;
use std::collections::BTreeMap;
use tie_grammar::symbol::Leaf;
use tie_grammar::tree::{Argument, Decl, Function, Item, Link, Operation, Parameter, Tree};
use tie_mean::kept::keep_first;
use tie_mean::names::is_named;

/// The width of operands of the kind that a declaration of this name is.
fn kind_of(declaration: &Decl, name: &Leaf) -> Option<usize>
    ensures { result ≡ spec.first_width (map spec.limited_declared (names.kind_declared declaration.now)) name.now.bytes }
{
    match declaration {
        Decl::Regfile(x) => {
            if is_named(name, &x.name) {
                Some(leaf_width(&x.width))
            } else {
                None
            }
        }
        Decl::ImmediateRange(x) => {
            if is_named(name, &x.name) {
                Some(32)
            } else {
                None
            }
        }
        _ => None,
    }
}

/// The width of a state or queue of this name.
fn link_of(declaration: &Decl, name: &Leaf) -> Option<usize>
    ensures { result ≡ spec.first_width (map spec.limited_declared (names.link_declared declaration.now)) name.now.bytes }
{
    match declaration {
        Decl::State(x) => {
            if is_named(name, &x.name) {
                Some(leaf_width(&x.width))
            } else {
                None
            }
        }
        Decl::QueueIn(x) | Decl::QueueOut(x) => {
            if is_named(name, &x.name) {
                Some(leaf_width(&x.width))
            } else {
                None
            }
        }
        _ => None,
    }
}

/// The width of operands of the first register file or immediate range of a name.
fn declared_kind(declarations: &[Decl], name: &Leaf) -> Option<usize>
    ensures { result ≡ spec.first_width (flat_map (λ d. map spec.limited_declared (names.kind_declared d)) declarations.now) name.now.bytes }
{
    for declaration in declarations {
        if let Some(width) = kind_of(declaration, name) {
            return Some(width);
        }
    }
    None
}

/// The width of the first state or queue of a name.
fn declared_link(declarations: &[Decl], name: &Leaf) -> Option<usize>
    ensures { result ≡ spec.first_width (flat_map (λ d. map spec.limited_declared (names.link_declared d)) declarations.now) name.now.bytes }
{
    for declaration in declarations {
        if let Some(width) = link_of(declaration, name) {
            return Some(width);
        }
    }
    None
}

/// The kind is that of the address registers.
fn is_address(kind: &Leaf) -> bool
    ensures { result ≡ names.is_named (codes "AR") kind.now }
{
    kind.bytes.as_slice() == b"AR".as_slice()
}

/// The width of operands of a kind.
fn kind_width(tree: &Tree, kind: &Leaf) -> usize
    ensures { result ≡ limited (names.kind_width tree.now kind.now) }
{
    if is_address(kind) {
        return 32;
    }
    declared_kind(tree.declarations.as_slice(), kind).unwrap_or(0)
}

/// The width of a state or queue.
fn link_width(tree: &Tree, name: &Leaf) -> usize
    ensures { result ≡ limited (names.width_in (flat_map names.link_declared tree.now.declarations) name.now.bytes) }
{
    declared_link(tree.declarations.as_slice(), name).unwrap_or(0)
}

/// Adds arguments to names with widths.
fn add_arguments<'t>(
    tree: &Tree,
    arguments: &'t [Argument],
    found: &mut Vec<(&'t Leaf, usize)>,
) -> Result<(), NoMemory>
    ensures { OnOk result (map spec.shown found.new.items ≡ map spec.shown found.old.items ++ map spec.limited_declared (map (names.argument_declared tree.now) arguments.now)) }
{
    for argument in arguments {
        let width = kind_width(tree, &argument.kind);
        found.push((&argument.name, width))?;
    }
    Ok(())
}

/// Adds interface names.
fn add_links<'t>(
    tree: &Tree,
    links: &'t [Link],
    found: &mut Vec<(&'t Leaf, usize)>,
) -> Result<(), NoMemory>
    ensures { OnOk result (map spec.shown found.new.items ≡ map spec.shown found.old.items ++ map spec.limited_declared (map (names.link_width tree.now) links.now)) }
{
    for link in links {
        let width = link_width(tree, &link.name);
        found.push((&link.name, width))?;
    }
    Ok(())
}

/// Adds parameters.
fn add_parameters<'t>(
    parameters: &'t [Parameter],
    found: &mut Vec<(&'t Leaf, usize)>,
) -> Result<(), NoMemory>
    ensures { OnOk result (map spec.shown found.new.items ≡ map spec.shown found.old.items ++ map spec.limited_declared (map names.parameter_declared parameters.now)) }
{
    for parameter in parameters {
        let width = range_width(&parameter.range);
        found.push((&parameter.name, width))?;
    }
    Ok(())
}

/// Adds wires.
fn add_wires<'t>(items: &'t [Item], found: &mut Vec<(&'t Leaf, usize)>) -> Result<(), NoMemory>
    ensures { OnOk result (map spec.shown found.new.items ≡ map spec.shown found.old.items ++ map spec.limited_declared (names.wires items.now)) }
{
    for item in items {
        match item {
            Item::Wire(range, name) | Item::WireSet(range, name, _) => {
                found.push((name, range_width(range)))?;
            }
            Item::Assign(_, _) => {}
        }
    }
    Ok(())
}

/// The names that an operation sees.
pub fn operation_names<'t>(
    alloc: Global,
    tree: &Tree,
    operation: &'t Operation,
) -> Result<Vec<(&'t Leaf, usize)>, NoMemory>
    ensures { IfOk result (λ xs. map spec.shown xs.items ≡ map spec.limited_declared (names.operation_names tree.now operation.now)) }
{
    let mut found = Vec::new(alloc);
    add_arguments(tree, operation.arguments.as_slice(), &mut found)?;
    add_links(tree, operation.links.as_slice(), &mut found)?;
    add_wires(operation.items.as_slice(), &mut found)?;
    Ok(found)
}

/// The names that a function sees.
pub fn function_names<'t>(
    alloc: Global,
    function: &'t Function,
) -> Result<Vec<(&'t Leaf, usize)>, NoMemory>
    ensures { IfOk result (λ xs. map spec.shown xs.items ≡ map spec.limited_declared (names.function_names function.now)) }
{
    let mut found = Vec::new(alloc);
    add_parameters(function.parameters.as_slice(), &mut found)?;
    add_wires(function.items.as_slice(), &mut found)?;
    let width = range_width(&function.range);
    found.push((&function.name, width))?;
    Ok(found)
}

/// The widths of names, the first of each.
pub fn by_name<'t>(
    alloc: Global,
    declared: &[(&'t Leaf, usize)],
) -> Result<BTreeMap<&'t [u8], usize>, NoMemory>
    ensures { IfOk result (λ widths. (q : List ℕ) → unwrap_or (kept widths q) 0 ≡ names.width_in (map spec.shown declared.now) q) }
{
    let mut widths = BTreeMap::new(alloc);
    for (name, width) in declared {
        keep_first(&mut widths, name, *width)?;
    }
    Ok(widths)
}
