//! Concatenations and TIE functions, of typed expressions that are each in their own size.

ghost use Rattle.std.specs.Prelude.{◌≡◌, ◌<◌, ◌≤◌, ◌+◌, ◌*◌, ◌-◌, ◌^◌, [], ◌∷◌, All, IfOk, length, map, sum, sum_by, vec_len};
ghost use Rattle.std.specs.List.{flat_map};
ghost use Rattle.tie_expr.specs.Meaning.{mul_meaning};
ghost use Rattle.tie_expr.specs.Size.{size_limit};
ghost use Rattle.tie_expr.specs.Tree as typed;
ghost use Rattle.tie_mean.specs.Sizes.{greatest_size};
ghost use Rattle.tie_translate.specs.Bounds.{IsMadeOf};
ghost use Rattle.tie_translate.specs.Translation.{add_typed, concat_typed, mux_typed, tie_typed, widened, widths_of, TieFits};

use crate::operate::widen;
use std::alloc::Global;
use tie_expr::{Expr, NoMemory, Op2};
use tie_grammar::symbol::TieFunction;

/// Expressions behind each other, the first highest.
pub fn join_all(alloc: Global, mut parts: Vec<Expr>) -> Result<Expr, NoMemory>
    requires some { 0 < vec_len parts }
    requires widths { sum (widths_of (map typed.meaning parts.items)) ≤ 128 }
    requires limit { sum_by typed.size parts.items + 4 * vec_len parts + 100 ≤ size_limit }
    ensures means { IfOk result (λ e. typed.meaning e ≡ concat_typed (map typed.meaning parts.items)) }
    ensures made { IfOk result (IsMadeOf parts.items) }
{
    let mut low = parts.pop().unwrap();
    while let Some(high) = parts.pop() {
        low = Expr::join(alloc, high, low)?;
    }
    Ok(low)
}

/// Three expressions.
fn three(mut parts: Vec<Expr>) -> (Expr, Expr, Expr)
    requires { vec_len parts ≡ 3 }
    ensures { parts.items ≡ result.0 ∷ result.1 ∷ result.2 ∷ [] }
{
    let third = parts.pop().unwrap();
    let second = parts.pop().unwrap();
    let first = parts.pop().unwrap();
    (first, second, third)
}

/// The sum of two expressions and a carry.
fn add(alloc: Global, a: Expr, b: Expr, carry: Expr) -> Result<Expr, NoMemory>
    requires carry { (typed.meaning carry).width ≡ 1 }
    requires limit { typed.size a + typed.size b + typed.size carry + 200 ≤ size_limit }
    ensures means { IfOk result (λ e. typed.meaning e ≡ add_typed (typed.meaning a) (typed.meaning b) (typed.meaning carry)) }
    ensures made { IfOk result (IsMadeOf (a ∷ b ∷ carry ∷ [])) }
{
    let width = a.width().max(b.width());
    let a = widen(alloc, a, width)?;
    let b = widen(alloc, b, width)?;
    let sum = Expr::two(alloc, Op2::Add, a, b)?;
    let carry = widen(alloc, carry, width)?;
    Expr::two(alloc, Op2::Add, sum, carry)
}

/// The greatest width of some expressions.
fn greatest_width(parts: &[Expr]) -> u8
    ensures is { result ≡ greatest_size (widths_of (map typed.meaning parts.now)) }
    ensures high { result ≤ 128 }
    ensures some { 0 < length parts.now → 0 < result }
{
    let mut greatest = 0;
    for part in parts {
        greatest = part.width().max(greatest);
    }
    greatest
}

/// Expressions, each in a width.
fn widen_all(alloc: Global, parts: Vec<Expr>, width: u8) -> Result<Vec<Expr>, NoMemory>
    requires low { All (λ a. (typed.meaning a).width ≤ width) parts.items }
    requires some { 0 < width }
    requires high { width ≤ 128 }
    requires limit { sum_by typed.size parts.items + 100 ≤ size_limit }
    ensures means { IfOk result (λ es. map typed.meaning es.items ≡ map (λ t. widened t width) (map typed.meaning parts.items)) }
    ensures inputs { IfOk result (λ es. flat_map typed.inputs es.items ≡ flat_map typed.inputs parts.items) }
    ensures size { IfOk result (λ es. sum_by typed.size es.items ≡ sum_by typed.size parts.items + 4 * vec_len parts) }
{
    let mut wide = Vec::new(alloc);
    for part in parts {
        wide.push(widen(alloc, part, width)?)?;
    }
    Ok(wide)
}

/// The arm of the number that an expression gives, in the greatest width of all arms.
fn mux(alloc: Global, selector: Expr, arms: Vec<Expr>) -> Result<Expr, NoMemory>
    requires few { (typed.meaning selector).width ≤ 4 }
    requires count { vec_len arms ≡ 2 ^ (typed.meaning selector).width }
    requires limit { typed.size selector + sum_by typed.size arms.items + 200 ≤ size_limit }
    ensures means { IfOk result (λ e. typed.meaning e ≡ mux_typed (typed.meaning selector) (map typed.meaning arms.items)) }
    ensures made { IfOk result (IsMadeOf (selector ∷ arms.items)) }
{
    let width = greatest_width(&arms);
    let arms = widen_all(alloc, arms, width)?;
    Expr::select(alloc, selector, arms)
}

/// A TIE function.
pub fn tie(alloc: Global, function: TieFunction, parts: Vec<Expr>) -> Result<Expr, NoMemory>
    requires fits { TieFits function (map typed.meaning parts.items) }
    requires limit { sum_by typed.size parts.items + 200 ≤ size_limit }
    ensures means { IfOk result (λ e. typed.meaning e ≡ tie_typed function (map typed.meaning parts.items)) }
    ensures made { IfOk result (IsMadeOf parts.items) }
{
    match function {
        TieFunction::Add => {
            let (a, b, carry) = three(parts);
            add(alloc, a, b, carry)
        }
        TieFunction::Mul => {
            let (a, b, signed) = three(parts);
            Expr::mul(alloc, a, b, signed)
        }
        TieFunction::Mux => {
            let mut arms = parts;
            let selector = arms.remove(0);
            mux(alloc, selector, arms)
        }
    }
}
