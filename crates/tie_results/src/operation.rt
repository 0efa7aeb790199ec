//! The results of an operation.

ghost use Rattle.std.specs.Prelude.{IfOk};
ghost use Rattle.tie_results.specs.Sound.{SoundText, SoundOperation};
ghost use Rattle.tie_results.specs.Results.{AreResults};
ghost use Rattle.tie_results.specs.Translated.{AreFunctions};

use crate::body::results_at;
use crate::callees::Functions;
use crate::memory::NoMemory;
use crate::widths::{by_name, operation_names};
use std::alloc::Global;
use tie_expr::Expr;
use tie_grammar::tree::{Operation, Tree};
use tie_mean::body::operand_leaves;

/// One expression for each operand that an operation writes, in order, over those that it reads.
///
/// An input is numbered among the operands that are read, arguments before interface names. An operand that is
/// read and written stands in the expressions for its old value.
pub fn results<'t>(
    alloc: Global,
    tree: &'t Tree,
    functions: &Functions<'t>,
    operation: &'t Operation,
) -> Result<Vec<Expr>, NoMemory>
    requires text { SoundText tree.now }
    requires functions { AreFunctions tree.now functions.now }
    requires operation { SoundOperation tree.now operation.now }
    ensures { IfOk result (λ es. AreResults tree.now operation.now es.items) }
{
    let declared = operation_names(alloc, tree, operation)?;
    let widths = by_name(alloc, &declared)?;
    let inputs = operand_leaves(alloc, operation, false)?;
    let outputs = operand_leaves(alloc, operation, true)?;
    results_at(
        alloc,
        tree,
        tree.declarations.len(),
        &functions.text,
        &functions.callees,
        &widths,
        &inputs,
        operation.items.as_slice(),
        &outputs,
    )
}
