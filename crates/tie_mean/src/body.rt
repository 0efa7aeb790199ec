//! The counts of bodies.

ghost use Rattle.std.specs.Prelude.{◌≡◌, ℕ, List, Some, ◌+◌, ◌<◌, ◌≤◌, length, drop, map, sum, IfOk, OnOk, if◌then◌else◌, option_copied};
ghost use Rattle.tie_mean.specs.Names as names;
ghost use Rattle.tie_mean.specs.Counts as spec;
ghost use Rattle.tie_mean.specs.Counts.{seen_behind};
ghost use Rattle.tie_mean.specs.Setters.{leaf_names};
ghost use Rattle.tie_mean.specs.Kept as by_name;
ghost use Rattle.tie_mean.specs.CountScope.{IsRight, AreFunctions, AreTables, AreCounts, counted_of, seen_in, setting_count, IsFunction, times_of};

use crate::count::{bounded_count, count};
use crate::kept::{keep, kept};
use crate::memory::NoMemory;
use crate::scope::{CountScope, FunctionCount};
use std::alloc::Global;
use std::collections::BTreeMap;
use tie_grammar::symbol::{Direction, Leaf};
use tie_grammar::tree::{Decl, Function, Item, Operation, Parameter, Tree};

/// The count of what an item sets behind the items whose counts the scope keeps, 0 where it sets nothing.
fn item_count(scope: &CountScope, item: &Item) -> u32
    requires { IsRight scope.now }
    ensures { result ≡ spec.limited (setting_count scope.now scope.now.behind (names.setting item.now)) }
{
    match item {
        Item::Wire(_, _) => 0,
        Item::WireSet(_, _, value) | Item::Assign(_, value) => count(scope, value),
    }
}

/// Keeps a count for the name that an item sets.
fn keep_count<'t>(
    counts: &mut BTreeMap<&'t [u8], u32>,
    item: &'t Item,
    count: u32,
) -> Result<(), NoMemory>
    ensures { OnOk result ((q : List ℕ) → by_name.kept counts.new q ≡ (if names.sets q (names.setting item.now) then Some count else by_name.kept counts.old q)) }
{
    match item {
        Item::Wire(_, _) => Ok(()),
        Item::WireSet(_, name, _) | Item::Assign(name, _) => keep(counts, name, count),
    }
}

/// The counts of what names are last set to by a body.
pub fn last_counts<'t>(
    alloc: Global,
    body: &CountScope<'_, 't>,
) -> Result<BTreeMap<&'t [u8], u32>, NoMemory>
    requires functions { AreFunctions body.now.functions.now (seen_in body.now) }
    requires tables { AreTables body.now.tables.now body.now.tree.now }
    ensures { IfOk result (λ counts. AreCounts body.now counts (length body.now.items.now)) }
{
    let mut counts = BTreeMap::new(alloc);
    for k in 0..body.items.len() {
        let item = &body.items[k];
        let scope = CountScope {
            what: body.what,
            tree: body.tree,
            declarations: body.declarations,
            functions: body.functions,
            tables: body.tables,
            inputs: body.inputs,
            items: body.items,
            behind: k,
            counts: &counts,
        };
        let count = item_count(&scope, item);
        keep_count(&mut counts, item, count)?;
    }
    Ok(counts)
}

/// The count of what a name is last set to.
pub fn last_count(body: &CountScope, counts: &BTreeMap<&[u8], u32>, name: &Leaf) -> u32
    requires { AreCounts body.now counts.now (length body.now.items.now) }
    ensures { result ≡ spec.limited (spec.set_count (counted_of body.now.what) (seen_in body.now) (leaf_names body.now.inputs.now) body.now.items.now name.now.bytes) }
{
    kept(counts, name).unwrap_or(0)
}

/// The count of what a body sets a name to.
fn body_count(alloc: Global, body: &CountScope, name: &Leaf) -> Result<u32, NoMemory>
    requires functions { AreFunctions body.now.functions.now (seen_in body.now) }
    requires tables { AreTables body.now.tables.now body.now.tree.now }
    ensures { IfOk result (λ n. n ≡ spec.limited (spec.set_count (counted_of body.now.what) (seen_in body.now) (leaf_names body.now.inputs.now) body.now.items.now name.now.bytes)) }
{
    let counts = last_counts(alloc, body)?;
    Ok(last_count(body, &counts, name))
}

/// The names of the tables of a text.
fn table_leaves(alloc: Global, tree: &Tree) -> Result<Vec<&Leaf>, NoMemory>
    ensures { IfOk result (λ leaves. AreTables leaves.items tree.now) }
{
    let mut leaves = Vec::new(alloc);
    for declaration in tree.declarations.as_slice() {
        if let Decl::Table(table) = declaration {
            leaves.push(&table.name)?;
        }
    }
    Ok(leaves)
}

/// The names of some parameters.
fn parameter_leaves<'a>(
    alloc: Global,
    parameters: &'a [Parameter],
) -> Result<Vec<&'a Leaf>, NoMemory>
    ensures { IfOk result (λ leaves. leaf_names leaves.items ≡ map (λ x. x.name.bytes) parameters.now) }
{
    let mut leaves = Vec::new(alloc);
    for parameter in parameters {
        leaves.push(&parameter.name)?;
    }
    Ok(leaves)
}

/// A count of a function's body, where the functions before it are known.
fn function_body_count<'t>(
    alloc: Global,
    what: Option<&'t Leaf>,
    tree: &'t Tree,
    declarations: usize,
    functions: &[FunctionCount<'t>],
    tables: &[&'t Leaf],
    inputs: &[&'t Leaf],
    function: &'t Function,
) -> Result<u32, NoMemory>
    requires right { AreFunctions functions.now (seen_behind (names.table_named tree.now) tree.now.declarations declarations) }
    requires tables { AreTables tables.now tree.now }
    requires inputs { leaf_names inputs.now ≡ names.parameter_names function.now }
    ensures { IfOk result (λ n. n ≡ spec.limited (spec.body_count (counted_of what.entry) (seen_behind (names.table_named tree.now) tree.now.declarations declarations) function.now)) }
{
    let none = BTreeMap::new(alloc);
    let body = CountScope {
        what,
        tree,
        declarations,
        functions,
        tables,
        inputs,
        items: function.items.as_slice(),
        behind: 0,
        counts: &none,
    };
    body_count(alloc, &body, &function.name)
}

/// How often each argument of a call counts: once, and at each read of its parameter.
fn parameter_times<'t>(
    alloc: Global,
    tree: &'t Tree,
    declarations: usize,
    functions: &[FunctionCount<'t>],
    tables: &[&'t Leaf],
    inputs: &[&'t Leaf],
    function: &'t Function,
) -> Result<Vec<u32>, NoMemory>
    requires right { AreFunctions functions.now (seen_behind (names.table_named tree.now) tree.now.declarations declarations) }
    requires tables { AreTables tables.now tree.now }
    requires inputs { leaf_names inputs.now ≡ names.parameter_names function.now }
    ensures { IfOk result (λ times. times.items ≡ map (times_of (seen_behind (names.table_named tree.now) tree.now.declarations declarations) function.now) function.now.parameters) }
{
    let mut times = Vec::new(alloc);
    for parameter in function.parameters.as_slice() {
        let what = Some(&parameter.name);
        let reads = function_body_count(
            alloc,
            what,
            tree,
            declarations,
            functions,
            tables,
            inputs,
            function,
        )?;
        times.push(bounded_count(1 + reads))?;
    }
    Ok(times)
}

/// What a call of a function counts where the functions before it are known.
fn function_count<'t>(
    alloc: Global,
    tree: &'t Tree,
    declarations: usize,
    functions: &[FunctionCount<'t>],
    tables: &[&'t Leaf],
    function: &'t Function,
) -> Result<FunctionCount<'t>, NoMemory>
    requires right { AreFunctions functions.now (seen_behind (names.table_named tree.now) tree.now.declarations declarations) }
    requires tables { AreTables tables.now tree.now }
    ensures { IfOk result (λ count. IsFunction count (seen_behind (names.table_named tree.now) tree.now.declarations declarations) function.now) }
{
    let inputs = parameter_leaves(alloc, function.parameters.as_slice())?;
    let nodes = function_body_count(
        alloc,
        None,
        tree,
        declarations,
        functions,
        tables,
        &inputs,
        function,
    )?;
    let times = parameter_times(
        alloc,
        tree,
        declarations,
        functions,
        tables,
        &inputs,
        function,
    )?;
    Ok(FunctionCount {
        name: &function.name,
        call: bounded_count(1 + nodes),
        times,
    })
}

/// The function that a declaration declares.
fn function_of(declaration: &Decl) -> Option<&Function>
    ensures { option_copied result ≡ names.declared_function (Some declaration.now) }
{
    match declaration {
        Decl::Function(function) => Some(function),
        _ => None,
    }
}

/// What calls of the functions of a text count.
pub fn function_counts(alloc: Global, tree: &Tree) -> Result<Vec<FunctionCount<'_>>, NoMemory>
    ensures { IfOk result (λ counts. AreFunctions counts.items (spec.operation_seen tree.now)) }
{
    let tables = table_leaves(alloc, tree)?;
    let mut functions = Vec::new(alloc);
    let declarations = tree.declarations.as_slice();
    for k in 0..declarations.len() {
        match function_of(&declarations[k]) {
            Some(function) => {
                let count = function_count(alloc, tree, k, &functions, &tables, function)?;
                functions.push(count)?;
            }
            None => {}
        }
    }
    Ok(functions)
}

/// An operand of a direction is written, or read.
fn is_operand(direction: Direction, written: bool) -> bool
    ensures { result ≡ names.operand_side written direction }
{
    match direction {
        Direction::In => !written,
        Direction::Out => written,
        Direction::Inout => true,
    }
}

/// The names of the operands that an operation writes, or of those that it reads, arguments before interface names.
pub fn operand_leaves(
    alloc: Global,
    operation: &Operation,
    written: bool,
) -> Result<Vec<&Leaf>, NoMemory>
    ensures { IfOk result (λ leaves. leaf_names leaves.items ≡ names.operands_if (names.operand_side written) operation.now) }
{
    let mut leaves = Vec::new(alloc);
    for argument in operation.arguments.as_slice() {
        if is_operand(argument.direction, written) {
            leaves.push(&argument.name)?;
        }
    }
    for link in operation.links.as_slice() {
        if is_operand(link.direction, written) {
            leaves.push(&link.name)?;
        }
    }
    Ok(leaves)
}

/// The counts of what some names are last set to, together.
fn total_count(body: &CountScope, counts: &BTreeMap<&[u8], u32>, leaves: &[&Leaf]) -> u32
    requires { AreCounts body.now counts.now (length body.now.items.now) }
    ensures { result ≡ spec.limited (sum (map (spec.set_count (counted_of body.now.what) (seen_in body.now) (leaf_names body.now.inputs.now) body.now.items.now) (leaf_names leaves.now))) }
{
    let mut total = 0;
    for leaf in leaves {
        total = bounded_count(total + last_count(body, counts, leaf));
    }
    total
}

/// The nodes of the results of an operation together, 5000 where there are more.
pub fn operation_count<'t>(
    alloc: Global,
    tree: &'t Tree,
    functions: &[FunctionCount<'t>],
    operation: &'t Operation,
) -> Result<u32, NoMemory>
    requires { AreFunctions functions.now (spec.operation_seen tree.now) }
    ensures { IfOk result (λ n. n ≡ spec.limited (spec.operation_count tree.now operation.now)) }
{
    let inputs = operand_leaves(alloc, operation, false)?;
    let outputs = operand_leaves(alloc, operation, true)?;
    let tables = table_leaves(alloc, tree)?;
    let none = BTreeMap::new(alloc);
    let body = CountScope {
        what: None,
        tree,
        declarations: tree.declarations.len(),
        functions,
        tables: &tables,
        inputs: &inputs,
        items: operation.items.as_slice(),
        behind: 0,
        counts: &none,
    };
    let counts = last_counts(alloc, &body)?;
    Ok(total_count(&body, &counts, &outputs))
}
