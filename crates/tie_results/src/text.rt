//! The functions and tables of a text, found by their names.

ghost use Rattle.std.specs.Prelude.{◌≡◌, ◌^◌, ◌<◌, ◌≤◌, ◌+◌, drop, take, map, length, slice_index, All, IfOk, IsTrue, option_copied, vec_len};
ghost use Rattle.std.specs.List.{flat_map, list_all};
ghost use Rattle.tie_mean.specs.Literals.{is_width, literal_fits, literal_value};
ghost use Rattle.tie_mean.specs.Sizes.{bounded, limited};
ghost use Rattle.tie_mean.specs.Names as names;
ghost use Rattle.tie_results.specs.Texts as spec;

use std::alloc::Global;
use tie_expr::NoMemory;
use tie_grammar::symbol::Leaf;
use tie_grammar::tree::{Decl, Function, Literal, Parameter, Range, Table, Tree};
use tie_mean::literal::{literal_value, number};
use tie_mean::names::is_named;

/// The functions and tables of a text.
#[derive(Drop)]
pub struct Text<'t> {
    pub functions: Vec<&'t Function>,
    pub tables: Vec<&'t Table>,
}

/// The functions that are declared.
fn functions_of(alloc: Global, declarations: &[Decl]) -> Result<Vec<&Function>, NoMemory>
    ensures { IfOk result (λ fs. map (λ f. f.now) fs.items ≡ flat_map names.function_of declarations.now) }
{
    let mut found = Vec::new(alloc);
    for declaration in declarations {
        if let Decl::Function(function) = declaration {
            found.push(function)?;
        }
    }
    Ok(found)
}

/// The tables that are declared.
fn tables_of(alloc: Global, declarations: &[Decl]) -> Result<Vec<&Table>, NoMemory>
    ensures { IfOk result (λ xs. map (λ x. x.now) xs.items ≡ flat_map names.table_of declarations.now) }
{
    let mut found = Vec::new(alloc);
    for declaration in declarations {
        if let Decl::Table(table) = declaration {
            found.push(table)?;
        }
    }
    Ok(found)
}

/// The functions and tables of a text.
pub fn text_of(alloc: Global, tree: &Tree) -> Result<Text<'_>, NoMemory>
    ensures { IfOk result (spec.IsTextOf tree.now) }
{
    let functions = functions_of(alloc, tree.declarations.as_slice())?;
    let tables = tables_of(alloc, tree.declarations.as_slice())?;
    Ok(Text { functions, tables })
}

/// The first function of a name.
fn find_function<'t>(functions: &[&'t Function], name: &Leaf) -> Option<&'t Function>
    ensures { option_copied result ≡ spec.first_function (map (λ f. f.now) functions.now) name.now.bytes }
{
    for function in functions {
        if is_named(name, &function.name) {
            return Some(function);
        }
    }
    None
}

/// The first table of a name.
pub fn find_table<'t>(tables: &[&'t Table], name: &Leaf) -> Option<&'t Table>
    ensures { option_copied result ≡ spec.first_table (map (λ x. x.now) tables.now) name.now.bytes }
{
    for table in tables {
        if is_named(name, &table.name) {
            return Some(table);
        }
    }
    None
}

/// A width, up to the limit from which on widths aren't told apart.
fn limited_width(width: u128) -> usize
    ensures { result ≡ limited width }
{
    if width < 4294967296 {
        width as usize
    } else {
        4294967296
    }
}

/// The width that a number says.
pub fn leaf_width(leaf: &Leaf) -> usize
    ensures { result ≡ limited (bounded leaf.now) }
{
    limited_width(number(leaf.bytes.as_slice()))
}

/// The width of a range.
pub fn range_width(range: &Option<Range>) -> usize
    ensures { result ≡ limited (names.range_width range.now) }
{
    match range {
        Some(range) => limited_width(number(range.high.bytes.as_slice()).saturating_add(1)),
        None => 1,
    }
}

/// The width of what a call of a function gives.
#[tactic(auto, using(crate::proofs::Found::found_by_name))]
pub fn function_width(functions: &[&Function], name: &Leaf) -> usize
    ensures { result ≡ limited (names.width_in (map names.function_declared (map (λ f. f.now) functions.now)) name.now.bytes) }
{
    match find_function(functions, name) {
        Some(function) => range_width(&function.range),
        None => 0,
    }
}

/// The width of the parameter of a number.
fn parameter_at(parameters: &[Parameter], number: usize) -> u8
    requires { IsTrue (is_width (slice_index (map (λ x. names.range_width x.range) parameters.now) number)) }
    ensures { result ≡ slice_index (map (λ x. names.range_width x.range) parameters.now) number }
{
    match parameters.get(number) {
        Some(parameter) => range_width(&parameter.range) as u8,
        None => unreachable!(),
    }
}

/// The width of the parameter of a number of a function.
#[tactic(auto, using(crate::proofs::Found::parameters_by_name))]
pub fn parameter_width(functions: &[&Function], name: &Leaf, number: usize) -> u8
    requires { IsTrue (is_width (slice_index (names.parameters_in (map (λ f. f.now) functions.now) name.now.bytes) number)) }
    ensures { result ≡ slice_index (names.parameters_in (map (λ f. f.now) functions.now) name.now.bytes) number }
{
    match find_function(functions, name) {
        Some(function) => parameter_at(function.parameters.as_slice(), number),
        None => unreachable!(),
    }
}

/// The name is that of a table.
#[tactic(auto, using(crate::proofs::Found::found_by_name))]
pub fn is_table(tables: &[&Table], name: &Leaf) -> bool
    ensures { result ≡ names.is_among (map names.table_declared (map (λ x. x.now) tables.now)) name.now.bytes }
{
    find_table(tables, name).is_some()
}

/// The width of the entries of a table.
#[tactic(auto, using(crate::proofs::Found::found_by_name))]
pub fn table_width(tables: &[&Table], name: &Leaf) -> usize
    ensures { result ≡ limited (names.width_in (map names.table_declared (map (λ x. x.now) tables.now)) name.now.bytes) }
{
    match find_table(tables, name) {
        Some(table) => leaf_width(&table.width),
        None => 0,
    }
}

/// An entry of a table.
fn entry(width: u8, x: &Literal) -> u128
    requires high { width ≤ 128 }
    requires fits { IsTrue (literal_fits width x.now) }
    ensures is { result ≡ literal_value x.now }
    ensures below { result < 2 ^ width }
{
    literal_value(x).unwrap_or(0)
}

/// The entries of a table.
pub fn entries(alloc: Global, width: u8, literals: &[Literal]) -> Result<Vec<u128>, NoMemory>
    requires high { width ≤ 128 }
    requires fit { IsTrue (list_all (literal_fits width) literals.now) }
    ensures are { IfOk result (λ xs. xs.items ≡ map literal_value literals.now) }
    ensures below { IfOk result (λ xs. All (λ x. x < 2 ^ width) xs.items) }
    ensures many { IfOk result (λ xs. vec_len xs ≡ length literals.now) }
{
    let mut found = Vec::new(alloc);
    for literal in literals {
        found.push(entry(width, literal))?;
    }
    Ok(found)
}
