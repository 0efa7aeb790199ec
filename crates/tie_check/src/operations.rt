//! The results of all operations of a text.

ghost use Rattle.std.specs.Prelude.{◌≡◌, ℕ, [], IfOk, IfSome, IfNone, Some, map, slice_get};
ghost use Rattle.std.specs.List.{flat_map};
ghost use Rattle.tie_grammar.specs.declared.tree.Operation.{Operation};
ghost use Rattle.tie_grammar.specs.declared.tree.Decl.TheVariants as d;
ghost use Rattle.tie_results.specs.Sound.{SoundText, SoundOperation};
ghost use Rattle.tie_results.specs.Translated.{AreFunctions};
ghost use Rattle.tie_description_law.specs.tie_describe.Operations.{operation_of, operations};
ghost use Rattle.tie_check.specs.Checked.{AllResults};

use std::alloc::Global;
use tie_expr::Expr;
use tie_grammar::tree::{Decl, Operation, Tree};
use tie_results::{Functions, NoMemory, results};

/// The operation that a declaration declares.
fn operation_in(declaration: &Decl) -> Option<&Operation>
    ensures some { IfSome result (λ o. declaration.now ≡ d.Operation o.now) }
    ensures none { IfNone result (operation_of declaration.now ≡ []) }
{
    match declaration {
        Decl::Operation(operation) => Some(operation),
        _ => None,
    }
}

/// The results of the operations among some declarations of a text, in their order.
fn results_among<'t>(
    alloc: Global,
    tree: &'t Tree,
    functions: &Functions<'t>,
    declarations: &'t [Decl],
) -> Result<Vec<Vec<Expr>>, NoMemory>
    requires text { SoundText tree.now }
    requires functions { AreFunctions tree.now functions.now }
    requires operations { (k : ℕ) (o : Operation) → slice_get declarations.now k ≡ Some (d.Operation o) → SoundOperation tree.now o }
    ensures { IfOk result (λ all. AllResults tree.now (flat_map operation_of declarations.now) (map (λ r. r.items) all.items)) }
{
    let mut all = Vec::new(alloc);
    for k in 0..declarations.len() {
        match operation_in(&declarations[k]) {
            Some(operation) => {
                let own = results(alloc, tree, functions, operation)?;
                all.push(own)?;
            }
            None => {}
        }
    }
    Ok(all)
}

/// The results of each operation, in the order of the text.
pub fn all_results<'t>(
    alloc: Global,
    tree: &'t Tree,
    functions: &Functions<'t>,
) -> Result<Vec<Vec<Expr>>, NoMemory>
    requires text { SoundText tree.now }
    requires functions { AreFunctions tree.now functions.now }
    requires operations { (k : ℕ) (o : Operation) → slice_get tree.now.declarations k ≡ Some (d.Operation o) → SoundOperation tree.now o }
    ensures { IfOk result (λ all. AllResults tree.now (operations tree.now) (map (λ r. r.items) all.items)) }
{
    results_among(alloc, tree, functions, tree.declarations.as_slice())
}
