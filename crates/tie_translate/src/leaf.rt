//! Expressions with no parts: literals, names and bits of names.

ghost use Rattle.std.specs.Prelude.{◌≡◌, ◌<◌, ◌≤◌, ◌+◌, ◌*◌, [], IsTrue, IfOk};
ghost use Rattle.tie_expr.specs.Tree as typed;
ghost use Rattle.tie_mean.specs.Literals.{literal_sound, literal_value, literal_width, is_width};
ghost use Rattle.tie_mean.specs.Sizes.{bounded};
ghost use Rattle.tie_mean.specs.Values.{select_sized};
ghost use Rattle.tie_translate.specs.Bounds as bound;
ghost use Rattle.tie_translate.specs.Translation.{bit_typed, constant_typed, select_typed};

use crate::bindings::Bindings;
use crate::operate::widen;
use std::alloc::Global;
use tie_expr::{Bits, Expr, NoMemory};
use tie_grammar::symbol::Leaf;
use tie_grammar::tree::Literal;
use tie_mean::literal::{literal_value, literal_width, number};

/// A literal in a greater width.
pub fn literal(alloc: Global, x: &Literal, n: u8) -> Result<Expr, NoMemory>
    requires sound { IsTrue (literal_sound x.now) }
    requires low { literal_width x.now ≤ n }
    requires high { n ≤ 128 }
    ensures means { IfOk result (λ e. typed.meaning e ≡ constant_typed n (literal_value x.now)) }
    ensures inputs { IfOk result (λ e. typed.inputs e ≡ []) }
    ensures size { IfOk result (λ e. typed.size e ≡ 8) }
{
    let width = literal_width(x) as u8;
    let value = literal_value(x).unwrap_or(0);
    let constant = Expr::constant(alloc, Bits::new(width, value))?;
    widen(alloc, constant, n)
}

/// The bits of a name from `high` to `low`.
pub fn select<B: Bindings>(
    alloc: Global,
    b: &B,
    name: &Leaf,
    high: &Leaf,
    low: &Leaf,
) -> Result<Expr, NoMemory>
    requires right { B.right b.now }
    requires sized { IsTrue (select_sized ((B.widths b.now).name name.now.bytes) (bounded high.now) (bounded low.now)) }
    requires few { (B.bounds b.now).names name.now.bytes ≤ bound.node_limit }
    ensures means { IfOk result (λ e. typed.meaning e ≡ select_typed (B.env b.now) name.now.bytes (bounded high.now) (bounded low.now)) }
    ensures bounded { IfOk result (bound.IsNameBounded (B.bounds b.now) bound.part_room name.now.bytes) }
{
    let whole = b.name(alloc, name)?;
    let high = number(high.bytes.as_slice());
    let low = number(low.bytes.as_slice());
    Expr::part(alloc, whole, high as u8, low as u8)
}

/// The bit of a name at an index.
pub fn bit<B: Bindings>(alloc: Global, b: &B, name: &Leaf, at: u128) -> Result<Expr, NoMemory>
    requires right { B.right b.now }
    requires known { IsTrue (is_width ((B.widths b.now).name name.now.bytes)) }
    requires within { at < (B.widths b.now).name name.now.bytes }
    requires few { (B.bounds b.now).names name.now.bytes ≤ bound.node_limit }
    ensures means { IfOk result (λ e. typed.meaning e ≡ bit_typed (B.env b.now) name.now.bytes at) }
    ensures bounded { IfOk result (bound.IsNameBounded (B.bounds b.now) bound.part_room name.now.bytes) }
{
    let whole = b.name(alloc, name)?;
    Expr::part(alloc, whole, at as u8, at as u8)
}
