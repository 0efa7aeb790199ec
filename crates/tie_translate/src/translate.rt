//! Expressions of a text as typed expressions.

ghost use Rattle.std.specs.Prelude.{◌≡◌, ◌<◌, ◌≤◌, ◌+◌, ◌-◌, ◌*◌, false, true, IsTrue, IfOk, All, map, max, slice_index, sum, length, take, vec_len};
ghost use Rattle.tie_expr.specs.Tree as typed;
ghost use Rattle.tie_grammar.specs.declared.tree.Expr.TheVariants as text;
ghost use Rattle.tie_mean.specs.Scope.{Widths};
ghost use Rattle.tie_mean.specs.Sizes.{binary_size};
ghost use Rattle.tie_mean.specs.Values.{meaning, size, left_side, right_side, unary_side, all_sized, arguments_sized, number_of};
ghost use Rattle.tie_translate.specs.Bounds as bound;
ghost use Rattle.tie_translate.specs.Translation.{in_size, assigned_in, arguments_typed, own_typed};

use crate::bindings::Bindings;
use crate::leaf::{bit, literal, select};
use crate::operate::{binary, unary, widen};
use crate::parts::{join_all, tie};
use std::alloc::Global;
use tie_expr::{Expr, NoMemory};
use tie_grammar::symbol::{Leaf, TieWord};
use tie_grammar::tree;
use tie_grammar::tree::{BinaryOp, Literal, Operator, UnaryOp};
use tie_mean::literal::number;

/// The self size of an expression of at most 128 bits.
#[tactic(auto, using(crate::proofs::Own::own_sizes))]
fn own_size<B: Bindings>(b: &B, x: &tree::Expr) -> u8
    requires { IsTrue (meaning (B.widths b.now) x.now).sized }
    ensures is { result ≡ size (B.widths b.now) x.now }
    ensures low { 0 < result }
    ensures high { result ≤ 128 }
{
    b.size(x) as u8
}

/// The sizes in which the sides of an operator are valued.
fn sides(op: BinaryOp, n: u8, a: u8, b: u8) -> (u8, u8)
    requires fits { binary_size op a b ≤ n }
    requires a { a ≤ 128 }
    requires b { b ≤ 128 }
    requires n { n ≤ 128 }
    ensures left { result.0 ≡ left_side op n a b }
    ensures right { result.1 ≡ right_side op n a b }
    ensures left_low { a ≤ result.0 }
    ensures right_low { b ≤ result.1 }
    ensures left_high { result.0 ≤ 128 }
    ensures right_high { result.1 ≤ 128 }
{
    match op {
        BinaryOp::LogicalOr | BinaryOp::LogicalAnd => (a, b),
        BinaryOp::Equal
        | BinaryOp::NotEqual
        | BinaryOp::Less
        | BinaryOp::LessEqual
        | BinaryOp::Greater
        | BinaryOp::GreaterEqual => (a.max(b), a.max(b)),
        BinaryOp::ShiftLeft | BinaryOp::ShiftRight => (n, b),
        _ => (n, n),
    }
}

/// The size in which the operand of a sign is valued.
fn side(op: UnaryOp, n: u8, a: u8) -> u8
    ensures { result ≡ unary_side op n a }
{
    match op {
        UnaryOp::Not => n,
        _ => a,
    }
}

/// An expression in a size n, which is at least its own.
#[cycle(translate)]
pub fn translate<B: Bindings>(alloc: Global, b: &B, x: &tree::Expr, n: u8) -> Result<Expr, NoMemory>
    requires right { B.right b.now }
    requires sized { IsTrue (meaning (B.widths b.now) x.now).sized }
    requires low { size (B.widths b.now) x.now ≤ n }
    requires high { n ≤ 128 }
    requires few { bound.nodes_of (B.bounds b.now) x.now ≤ bound.node_limit }
    ensures means { IfOk result (λ e. typed.meaning e ≡ in_size (B.widths b.now) (B.env b.now) n x.now) }
    ensures bounded { IfOk result (bound.IsBounded (B.bounds b.now) bound.room x.now) }
{
    match x {
        tree::Expr::Literal(x) => literal(alloc, x, n),
        tree::Expr::Name(name) => name_form(alloc, b, name, n),
        tree::Expr::Select(name, high, low) => select_form(alloc, b, name, high, low, n),
        tree::Expr::Index(name, index) => index_form(alloc, b, name, index.get(), n),
        tree::Expr::Call(name, _, arguments) => call_form(alloc, b, name, arguments.as_slice(), n),
        tree::Expr::Tie(word, _, arguments) => tie_form(alloc, b, word, arguments.as_slice(), n),
        tree::Expr::Paren(_, inner) => translate(alloc, b, inner.get(), n),
        tree::Expr::Concat(_, parts) => concat_form(alloc, b, parts.as_slice(), n),
        tree::Expr::Repeat(_, count, _, part) => repeat_form(alloc, b, count, part.get(), n),
        tree::Expr::Unary(op, _, operand) => unary_form(alloc, b, *op, operand.get(), n),
        tree::Expr::Binary(operator, left, right) => {
            binary_form(alloc, b, *operator, left.get(), right.get(), n)
        }
        tree::Expr::Conditional(condition, met, unmet) => {
            conditional_form(alloc, b, condition.get(), met.get(), unmet.get(), n)
        }
    }
}

/// A name that is read.
fn name_form<B: Bindings>(alloc: Global, b: &B, name: &Leaf, n: u8) -> Result<Expr, NoMemory>
    requires right { B.right b.now }
    requires sized { IsTrue (meaning (B.widths b.now) (text.Name name.now)).sized }
    requires low { size (B.widths b.now) (text.Name name.now) ≤ n }
    requires high { n ≤ 128 }
    requires few { bound.nodes_of (B.bounds b.now) (text.Name name.now) ≤ bound.node_limit }
    ensures means { IfOk result (λ e. typed.meaning e ≡ in_size (B.widths b.now) (B.env b.now) n (text.Name name.now)) }
    ensures bounded { IfOk result (bound.IsBounded (B.bounds b.now) bound.room (text.Name name.now)) }
{
    widen(alloc, b.name(alloc, name)?, n)
}

/// Bits of a name.
fn select_form<B: Bindings>(
    alloc: Global,
    b: &B,
    name: &Leaf,
    high: &Leaf,
    low: &Leaf,
    n: u8,
) -> Result<Expr, NoMemory>
    requires right { B.right b.now }
    requires sized { IsTrue (meaning (B.widths b.now) (text.Select name.now high.now low.now)).sized }
    requires low { size (B.widths b.now) (text.Select name.now high.now low.now) ≤ n }
    requires high { n ≤ 128 }
    requires few { bound.nodes_of (B.bounds b.now) (text.Select name.now high.now low.now) ≤ bound.node_limit }
    ensures means { IfOk result (λ e. typed.meaning e ≡ in_size (B.widths b.now) (B.env b.now) n (text.Select name.now high.now low.now)) }
    ensures bounded { IfOk result (bound.IsBounded (B.bounds b.now) bound.room (text.Select name.now high.now low.now)) }
{
    widen(alloc, select(alloc, b, name, high, low)?, n)
}

/// Copies of a part.
#[cycle(translate)]
fn repeat_form<B: Bindings>(
    alloc: Global,
    b: &B,
    count: &Leaf,
    part: &tree::Expr,
    n: u8,
) -> Result<Expr, NoMemory>
    requires right { B.right b.now }
    requires sized { IsTrue (meaning (B.widths b.now) (text.Repeat 0 count.now 0 part.now)).sized }
    requires low { size (B.widths b.now) (text.Repeat 0 count.now 0 part.now) ≤ n }
    requires high { n ≤ 128 }
    requires few { bound.nodes_of (B.bounds b.now) (text.Repeat 0 count.now 0 part.now) ≤ bound.node_limit }
    ensures means { IfOk result (λ e. typed.meaning e ≡ in_size (B.widths b.now) (B.env b.now) n (text.Repeat 0 count.now 0 part.now)) }
    ensures bounded { IfOk result (bound.IsBounded (B.bounds b.now) bound.room (text.Repeat 0 count.now 0 part.now)) }
{
    let one = translate(alloc, b, part, own_size(b, part))?;
    let all = Expr::repeat(alloc, one, number(count.bytes.as_slice()) as u8)?;
    widen(alloc, all, n)
}

/// A sign before an operand.
#[cycle(translate)]
fn unary_form<B: Bindings>(
    alloc: Global,
    b: &B,
    op: UnaryOp,
    operand: &tree::Expr,
    n: u8,
) -> Result<Expr, NoMemory>
    requires right { B.right b.now }
    requires sized { IsTrue (meaning (B.widths b.now) (text.Unary op 0 operand.now)).sized }
    requires low { size (B.widths b.now) (text.Unary op 0 operand.now) ≤ n }
    requires high { n ≤ 128 }
    requires few { bound.nodes_of (B.bounds b.now) (text.Unary op 0 operand.now) ≤ bound.node_limit }
    ensures means { IfOk result (λ e. typed.meaning e ≡ in_size (B.widths b.now) (B.env b.now) n (text.Unary op 0 operand.now)) }
    ensures bounded { IfOk result (bound.IsBounded (B.bounds b.now) bound.room (text.Unary op 0 operand.now)) }
{
    let width = side(op, n, own_size(b, operand));
    let operand = translate(alloc, b, operand, width)?;
    unary(alloc, op, operand, n)
}

/// An operator between two operands.
#[cycle(translate)]
fn binary_form<B: Bindings>(
    alloc: Global,
    b: &B,
    operator: Operator,
    left: &tree::Expr,
    right: &tree::Expr,
    n: u8,
) -> Result<Expr, NoMemory>
    requires right { B.right b.now }
    requires sized { IsTrue (meaning (B.widths b.now) (text.Binary operator left.now right.now)).sized }
    requires low { size (B.widths b.now) (text.Binary operator left.now right.now) ≤ n }
    requires high { n ≤ 128 }
    requires few { bound.nodes_of (B.bounds b.now) (text.Binary operator left.now right.now) ≤ bound.node_limit }
    ensures means { IfOk result (λ e. typed.meaning e ≡ in_size (B.widths b.now) (B.env b.now) n (text.Binary operator left.now right.now)) }
    ensures bounded { IfOk result (bound.IsBounded (B.bounds b.now) bound.room (text.Binary operator left.now right.now)) }
{
    let (left_width, right_width) = sides(operator.op, n, own_size(b, left), own_size(b, right));
    let left = translate(alloc, b, left, left_width)?;
    let right = translate(alloc, b, right, right_width)?;
    binary(alloc, operator.op, left, right, n)
}

/// A choice.
#[cycle(translate)]
fn conditional_form<B: Bindings>(
    alloc: Global,
    b: &B,
    condition: &tree::Expr,
    met: &tree::Expr,
    unmet: &tree::Expr,
    n: u8,
) -> Result<Expr, NoMemory>
    requires right { B.right b.now }
    requires sized { IsTrue (meaning (B.widths b.now) (text.Conditional condition.now met.now unmet.now)).sized }
    requires low { size (B.widths b.now) (text.Conditional condition.now met.now unmet.now) ≤ n }
    requires high { n ≤ 128 }
    requires few { bound.nodes_of (B.bounds b.now) (text.Conditional condition.now met.now unmet.now) ≤ bound.node_limit }
    ensures means { IfOk result (λ e. typed.meaning e ≡ in_size (B.widths b.now) (B.env b.now) n (text.Conditional condition.now met.now unmet.now)) }
    ensures bounded { IfOk result (bound.IsBounded (B.bounds b.now) bound.room (text.Conditional condition.now met.now unmet.now)) }
{
    let condition = translate(alloc, b, condition, own_size(b, condition))?;
    let met = translate(alloc, b, met, n)?;
    let unmet = translate(alloc, b, unmet, n)?;
    Expr::choose(alloc, condition, met, unmet)
}

/// A bare number.
fn literal_number(x: &Literal) -> Option<u128>
    ensures { result ≡ number_of x.now }
{
    match x {
        Literal::Number(leaf) => Some(number(leaf.bytes.as_slice())),
        Literal::Sized(_) => None,
    }
}

/// The number that an expression is, if it is one.
fn number_at(x: &tree::Expr) -> Option<u128>
    ensures { (w : Widths) → result ≡ (meaning w x.now).number }
{
    match x {
        tree::Expr::Literal(literal) => literal_number(literal),
        tree::Expr::Name(_) => None,
        tree::Expr::Select(_, _, _) => None,
        tree::Expr::Index(_, _) => None,
        tree::Expr::Call(_, _, _) => None,
        tree::Expr::Tie(_, _, _) => None,
        tree::Expr::Paren(_, _) => None,
        tree::Expr::Concat(_, _) => None,
        tree::Expr::Repeat(_, _, _, _) => None,
        tree::Expr::Unary(_, _, _) => None,
        tree::Expr::Binary(_, _, _) => None,
        tree::Expr::Conditional(_, _, _) => None,
    }
}

/// A bit of a name.
fn bit_form<B: Bindings>(
    alloc: Global,
    b: &B,
    name: &Leaf,
    index: &tree::Expr,
    n: u8,
) -> Result<Expr, NoMemory>
    requires bit { (B.widths b.now).is_table name.now.bytes ≡ false }
    requires one { (B.bounds b.now).seen.is_table name.now.bytes ≡ false }
    requires right { B.right b.now }
    requires sized { IsTrue (meaning (B.widths b.now) (text.Index name.now index.now)).sized }
    requires low { size (B.widths b.now) (text.Index name.now index.now) ≤ n }
    requires high { n ≤ 128 }
    requires few { bound.nodes_of (B.bounds b.now) (text.Index name.now index.now) ≤ bound.node_limit }
    ensures means { IfOk result (λ e. typed.meaning e ≡ in_size (B.widths b.now) (B.env b.now) n (text.Index name.now index.now)) }
    ensures bounded { IfOk result (bound.IsBounded (B.bounds b.now) bound.room (text.Index name.now index.now)) }
{
    let at = number_at(index).unwrap();
    widen(alloc, bit(alloc, b, name, at)?, n)
}

/// A look-up, or a bit.
#[cycle(translate)]
fn index_form<B: Bindings>(
    alloc: Global,
    b: &B,
    name: &Leaf,
    index: &tree::Expr,
    n: u8,
) -> Result<Expr, NoMemory>
    requires right { B.right b.now }
    requires sized { IsTrue (meaning (B.widths b.now) (text.Index name.now index.now)).sized }
    requires low { size (B.widths b.now) (text.Index name.now index.now) ≤ n }
    requires high { n ≤ 128 }
    requires few { bound.nodes_of (B.bounds b.now) (text.Index name.now index.now) ≤ bound.node_limit }
    ensures means { IfOk result (λ e. typed.meaning e ≡ in_size (B.widths b.now) (B.env b.now) n (text.Index name.now index.now)) }
    ensures bounded { IfOk result (bound.IsBounded (B.bounds b.now) bound.room (text.Index name.now index.now)) }
{
    if !b.is_table(name) {
        return bit_form(alloc, b, name, index, n);
    }
    let index = translate(alloc, b, index, own_size(b, index))?;
    let entry = b.look_up(alloc, name, index)?;
    widen(alloc, entry, n)
}

/// Each of some expressions in its own size.
#[cycle(translate)]
fn own_parts<B: Bindings>(alloc: Global, b: &B, parts: &[tree::Expr]) -> Result<Vec<Expr>, NoMemory>
    requires right { B.right b.now }
    requires sized { IsTrue (all_sized (map (meaning (B.widths b.now)) parts.now)) }
    requires few { sum (map (bound.nodes_of (B.bounds b.now)) parts.now) ≤ bound.node_limit }
    ensures means { IfOk result (λ es. map typed.meaning es.items ≡ map (own_typed (B.env b.now)) (map (meaning (B.widths b.now)) parts.now)) }
    ensures bounded { IfOk result (λ es. bound.AreBounded (B.bounds b.now) parts.now es.items) }
{
    let mut built = Vec::new(alloc);
    for i in 0..parts.len() {
        let part = &parts[i];
        let width = own_size(b, part);
        built.push(translate(alloc, b, part, width)?)?;
    }
    Ok(built)
}

/// A concatenation.
#[cycle(translate)]
fn concat_form<B: Bindings>(
    alloc: Global,
    b: &B,
    parts: &[tree::Expr],
    n: u8,
) -> Result<Expr, NoMemory>
    requires right { B.right b.now }
    requires sized { IsTrue (meaning (B.widths b.now) (text.Concat 0 parts.now)).sized }
    requires low { size (B.widths b.now) (text.Concat 0 parts.now) ≤ n }
    requires high { n ≤ 128 }
    requires few { bound.nodes_of (B.bounds b.now) (text.Concat 0 parts.now) ≤ bound.node_limit }
    ensures means { IfOk result (λ e. typed.meaning e ≡ in_size (B.widths b.now) (B.env b.now) n (text.Concat 0 parts.now)) }
    ensures bounded { IfOk result (bound.IsBounded (B.bounds b.now) bound.room (text.Concat 0 parts.now)) }
{
    let parts = own_parts(alloc, b, parts)?;
    widen(alloc, join_all(alloc, parts)?, n)
}

/// A TIE function.
#[cycle(translate)]
fn tie_form<B: Bindings>(
    alloc: Global,
    b: &B,
    word: &TieWord,
    arguments: &[tree::Expr],
    n: u8,
) -> Result<Expr, NoMemory>
    requires right { B.right b.now }
    requires sized { IsTrue (meaning (B.widths b.now) (text.Tie word.now 0 arguments.now)).sized }
    requires low { size (B.widths b.now) (text.Tie word.now 0 arguments.now) ≤ n }
    requires high { n ≤ 128 }
    requires few { bound.nodes_of (B.bounds b.now) (text.Tie word.now 0 arguments.now) ≤ bound.node_limit }
    ensures means { IfOk result (λ e. typed.meaning e ≡ in_size (B.widths b.now) (B.env b.now) n (text.Tie word.now 0 arguments.now)) }
    ensures bounded { IfOk result (bound.IsBounded (B.bounds b.now) bound.room (text.Tie word.now 0 arguments.now)) }
{
    let arguments = own_parts(alloc, b, arguments)?;
    widen(alloc, tie(alloc, word.function, arguments)?, n)
}

/// The arguments of a call, each as it is assigned to its parameter.
#[cycle(translate)]
fn assigned_arguments<B: Bindings>(
    alloc: Global,
    b: &B,
    name: &Leaf,
    arguments: &[tree::Expr],
) -> Result<Vec<Expr>, NoMemory>
    requires right { B.right b.now }
    requires sized { IsTrue (arguments_sized ((B.widths b.now).parameters name.now.bytes) (map (meaning (B.widths b.now)) arguments.now)) }
    requires few { bound.arguments_of (B.bounds b.now) name.now.bytes arguments.now ≤ bound.node_limit }
    ensures means { IfOk result (λ es. map typed.meaning es.items ≡ arguments_typed (B.env b.now) ((B.widths b.now).parameters name.now.bytes) (map (meaning (B.widths b.now)) arguments.now)) }
    ensures bounded { IfOk result (λ es. bound.AreArgumentsBounded (B.bounds b.now) name.now.bytes arguments.now es.items) }
{
    let mut built = Vec::new(alloc);
    for i in 0..arguments.len() {
        let argument = &arguments[i];
        let width = b.parameter(name, i);
        built.push(assign(alloc, b, argument, width)?)?;
    }
    Ok(built)
}

/// A call.
#[cycle(translate)]
fn call_form<B: Bindings>(
    alloc: Global,
    b: &B,
    name: &Leaf,
    arguments: &[tree::Expr],
    n: u8,
) -> Result<Expr, NoMemory>
    requires right { B.right b.now }
    requires sized { IsTrue (meaning (B.widths b.now) (text.Call name.now 0 arguments.now)).sized }
    requires low { size (B.widths b.now) (text.Call name.now 0 arguments.now) ≤ n }
    requires high { n ≤ 128 }
    requires few { bound.nodes_of (B.bounds b.now) (text.Call name.now 0 arguments.now) ≤ bound.node_limit }
    ensures means { IfOk result (λ e. typed.meaning e ≡ in_size (B.widths b.now) (B.env b.now) n (text.Call name.now 0 arguments.now)) }
    ensures bounded { IfOk result (bound.IsBounded (B.bounds b.now) bound.room (text.Call name.now 0 arguments.now)) }
{
    let arguments = assigned_arguments(alloc, b, name, arguments)?;
    widen(alloc, b.call(alloc, name, arguments)?, n)
}

/// An expression as it is assigned to a name: valued in the greater of its size and the name's width, and cut to the width.
#[cycle(translate)]
pub fn assign<B: Bindings>(
    alloc: Global,
    b: &B,
    x: &tree::Expr,
    width: u8,
) -> Result<Expr, NoMemory>
    requires right { B.right b.now }
    requires sized { IsTrue (meaning (B.widths b.now) x.now).sized }
    requires low { 0 < width }
    requires high { width ≤ 128 }
    requires few { bound.nodes_of (B.bounds b.now) x.now ≤ bound.node_limit }
    ensures means { IfOk result (λ e. typed.meaning e ≡ assigned_in (B.widths b.now) (B.env b.now) width x.now) }
    ensures bounded { IfOk result (bound.IsBounded (B.bounds b.now) bound.assigned_room x.now) }
{
    let n = own_size(b, x).max(width);
    let whole = translate(alloc, b, x, n)?;
    Expr::part(alloc, whole, width - 1, 0)
}
