//! What the names that an expression sees stand for.

ghost use Rattle.std.specs.Prelude.{◌≡◌, ◌<◌, ◌≤◌, ◌+◌, ◌*◌, true, IsTrue, IfOk, All, map, slice_index};
ghost use Rattle.tie_expr.specs.Size.{table_weight, size_limit};
ghost use Rattle.tie_expr.specs.Substitute.{IsOver};
ghost use Rattle.tie_expr.specs.Tree as typed;
ghost use Rattle.tie_mean.specs.Literals.{is_width};
ghost use Rattle.tie_mean.specs.Sizes.{limited};
ghost use Rattle.tie_mean.specs.Values.{size};
ghost use Rattle.tie_translate.specs.Translation.{name_typed, lookup_typed, call_typed, widths_of};
ghost use Rattle.tie_translate.specs.Bounds as bound;

use std::alloc::Global;
use tie_expr::{Expr, NoMemory};
use tie_grammar::symbol::Leaf;
use tie_grammar::tree;

/// What the names that an expression sees stand for, as typed expressions over some inputs.
///
/// A typed expression may have as much of a size as its counted nodes together, `bound.node_size` for each.
pub trait Bindings {
    ghost use Rattle.std.specs.Prelude.{List};
    ghost use Rattle.tie_expr.specs.Word.{Word};
    ghost use Rattle.tie_mean.specs.Scope.{Widths};
    ghost use Rattle.tie_mean.specs.Values.{Values};
    ghost use Rattle.tie_translate.specs.Bounds.{Bounds};

    ghost widths: { Self → Widths };

    /// What names stand for, as a function of the inputs.
    ghost env: { Self → List Word → Values };

    /// The inputs, and what names and calls count.
    ghost bounds: { Self → Bounds };

    /// What holds of a value whose answers are right.
    ghost right: { Self → Type 0 };

    /// The self size of an expression.
    fn size(&self, x: &tree::Expr) -> u64
        ensures { result ≡ limited (size (widths self.now) x.now) };

    /// The name is that of a table.
    fn is_table(&self, name: &Leaf) -> bool
        ensures sized { result ≡ (widths self.now).is_table name.now.bytes }
        ensures counted { result ≡ (bounds self.now).seen.is_table name.now.bytes };

    /// A name that is read.
    fn name(&self, alloc: Global, name: &Leaf) -> Result<Expr, NoMemory>
        requires right { right self.now }
        requires known { IsTrue (is_width ((widths self.now).name name.now.bytes)) }
        requires few { (bounds self.now).names name.now.bytes ≤ bound.node_limit }
        ensures means { IfOk result (λ e. typed.meaning e ≡ name_typed (widths self.now) (env self.now) name.now.bytes) }
        ensures bounded { IfOk result (bound.IsNameBounded (bounds self.now) bound.name_room name.now.bytes) };

    /// The entry of a table at an index.
    fn look_up(&self, alloc: Global, name: &Leaf, index: Expr) -> Result<Expr, NoMemory>
        requires right { right self.now }
        requires table { (widths self.now).is_table name.now.bytes ≡ true }
        requires known { IsTrue (is_width ((widths self.now).table name.now.bytes)) }
        requires limit { table_weight + typed.size index ≤ size_limit }
        ensures means { IfOk result (λ e. typed.meaning e ≡ lookup_typed (widths self.now) (env self.now) name.now.bytes (typed.meaning index)) }
        ensures inputs { IfOk result (λ e. typed.inputs e ≡ typed.inputs index) }
        ensures size { IfOk result (λ e. typed.size e ≡ table_weight + typed.size index) };

    /// The width of the parameter of a number, from 0 on.
    fn parameter(&self, name: &Leaf, number: usize) -> u8
        requires right { right self.now }
        requires known { IsTrue (is_width (slice_index ((widths self.now).parameters name.now.bytes) number)) }
        ensures is { result ≡ slice_index ((widths self.now).parameters name.now.bytes) number }

        // The argument counts at least once.
        ensures counted { 0 < (bounds self.now).seen.times name.now.bytes number };

    /// A call on arguments that have the widths of the parameters.
    fn call(&self, alloc: Global, name: &Leaf, arguments: Vec<Expr>) -> Result<Expr, NoMemory>
        requires right { right self.now }
        requires known { IsTrue (is_width ((widths self.now).function name.now.bytes)) }
        requires widths { widths_of (map typed.meaning arguments.items) ≡ (widths self.now).parameters name.now.bytes }
        requires over { All (λ a. IsOver (bounds self.now).widths (typed.inputs a)) arguments.items }
        requires few { bound.call_size (bounds self.now) name.now.bytes arguments.items ≤ bound.expression_limit }
        ensures means { IfOk result (λ e. typed.meaning e ≡ call_typed (widths self.now) (env self.now) name.now.bytes (map typed.meaning arguments.items)) }
        ensures bounded { IfOk result (bound.IsCallBounded (bounds self.now) bound.name_room name.now.bytes arguments.items) };
}
