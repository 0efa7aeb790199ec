//! What the functions of a text translate to.

ghost use Rattle.std.specs.Prelude.{◌≡◌, ◌+◌, ◌≤◌, [], ◌∷◌, Some, drop, take, map, length, IfOk, option_copied};
ghost use Rattle.tie_mean.specs.CountScope as counted;
ghost use Rattle.tie_mean.specs.Counts.{operation_seen};
ghost use Rattle.tie_mean.specs.Names as names;
ghost use Rattle.tie_mean.specs.Setters.{leaf_names};
ghost use Rattle.tie_results.specs.Sound.{SoundText, SoundFunction};
ghost use Rattle.tie_results.specs.Texts as texts;
ghost use Rattle.tie_results.specs.Bodies as spec;
ghost use Rattle.tie_results.specs.Callees as frames;
ghost use Rattle.tie_results.specs.Translated as translated;

use crate::body::results_at;
use crate::frame::Callee;
use crate::memory::NoMemory;
use crate::text::{Text, text_of};
use crate::widths::{by_name, function_names};
use std::alloc::Global;
use tie_expr::Expr;
use tie_grammar::symbol::Leaf;
use tie_grammar::tree::{Decl, Function, Parameter, Tree};
use tie_mean::body::function_counts;
use tie_mean::names::is_named;
use tie_mean::scope::FunctionCount;

/// What every function of a text translates to, made once.
#[derive(Drop)]
pub struct Functions<'t> {
    pub(crate) text: Text<'t>,
    pub(crate) callees: Vec<Callee<'t>>,
}

/// What a call of the last function of a name counts, up to the limit of counts.
fn call_count(counts: &[FunctionCount], name: &Leaf) -> u32
    ensures { result ≡ counted.call_in counts.now name.now.bytes 1 }
{
    let mut found = 1;
    for count in counts {
        if is_named(name, count.name) {
            found = count.call;
        }
    }
    found
}

/// The names of some parameters.
fn parameter_leaves<'t>(
    alloc: Global,
    parameters: &'t [Parameter],
) -> Result<Vec<&'t Leaf>, NoMemory>
    ensures { IfOk result (λ leaves. leaf_names leaves.items ≡ map (λ x. x.name.bytes) parameters.now) }
{
    let mut leaves = Vec::new(alloc);
    for parameter in parameters {
        leaves.push(&parameter.name)?;
    }
    Ok(leaves)
}

/// What a function's body sets its name to, as an expression over its parameters.
fn translated<'t>(
    alloc: Global,
    tree: &'t Tree,
    declarations: usize,
    text: &Text<'t>,
    callees: &[Callee<'t>],
    function: &'t Function,
) -> Result<Vec<Expr>, NoMemory>
    requires text { texts.IsTextOf tree.now text.now }
    requires sound { SoundText tree.now }
    requires function { SoundFunction tree.now function.now }
    requires callees { frames.AreCallees (translated.calls_behind tree.now declarations) callees.now }
    requires few { translated.body_nodes tree.now function.now declarations ≤ 4095 }
    ensures { IfOk result (λ es. spec.AreResultsOf (translated.function_body tree.now function.now declarations) (function.now.name.bytes ∷ []) es.items) }
{
    let declared = function_names(alloc, function)?;
    let widths = by_name(alloc, &declared)?;
    let inputs = parameter_leaves(alloc, function.parameters.as_slice())?;
    let outputs = [&function.name];
    results_at(
        alloc,
        tree,
        declarations,
        text,
        callees,
        &widths,
        &inputs,
        function.items.as_slice(),
        &outputs,
    )
}

/// What calls of a function stand for, where it hasn't too many nodes.
fn callee_of<'t>(
    alloc: Global,
    tree: &'t Tree,
    declarations: usize,
    text: &Text<'t>,
    callees: &[Callee<'t>],
    counts: &[FunctionCount<'t>],
    function: &'t Function,
) -> Result<Callee<'t>, NoMemory>
    requires text { texts.IsTextOf tree.now text.now }
    requires sound { SoundText tree.now }
    requires callees { frames.AreCallees (translated.calls_behind tree.now declarations) callees.now }
    requires counts { counted.AreFunctions counts.now (operation_seen tree.now) }
    requires function { names.function_at tree.now.declarations declarations ≡ Some function.now }
    ensures name { IfOk result (λ callee. callee.name.now ≡ function.now.name) }
    ensures kept { IfOk result (λ callee. spec.IsKept (translated.calls_behind tree.now (declarations + 1)) function.now.name.bytes callee.body) }
{
    if call_count(counts, &function.name) > 4096 {
        return Ok(Callee {
            name: &function.name,
            body: None,
        });
    }
    let mut results = translated(alloc, tree, declarations, text, callees, function)?;
    Ok(Callee {
        name: &function.name,
        body: results.pop(),
    })
}

/// The function that a declaration declares.
fn function_of(declaration: &Decl) -> Option<&Function>
    ensures { option_copied result ≡ names.declared_function (Some declaration.now) }
{
    match declaration {
        Decl::Function(function) => Some(function),
        _ => None,
    }
}

/// What the functions of a text stand for.
fn callees_of<'t>(
    alloc: Global,
    tree: &'t Tree,
    text: &Text<'t>,
    counts: &[FunctionCount<'t>],
) -> Result<Vec<Callee<'t>>, NoMemory>
    requires text { texts.IsTextOf tree.now text.now }
    requires sound { SoundText tree.now }
    requires counts { counted.AreFunctions counts.now (operation_seen tree.now) }
    ensures { IfOk result (λ callees. frames.AreCallees (translated.calls_behind tree.now (length tree.now.declarations)) callees.items) }
{
    let mut callees = Vec::new(alloc);
    let declarations = tree.declarations.as_slice();
    for k in 0..declarations.len() {
        match function_of(&declarations[k]) {
            Some(function) => {
                let callee = callee_of(alloc, tree, k, text, &callees, counts, function)?;
                callees.push(callee)?;
            }
            None => {}
        }
    }
    Ok(callees)
}

/// What every function of a text translates to.
pub fn functions_of(alloc: Global, tree: &Tree) -> Result<Functions<'_>, NoMemory>
    requires { SoundText tree.now }
    ensures { IfOk result (translated.AreFunctions tree.now) }
{
    let text = text_of(alloc, tree)?;
    let counts = function_counts(alloc, tree)?;
    let callees = callees_of(alloc, tree, &text, &counts)?;
    Ok(Functions { text, callees })
}
