//! Rules that look at each part of an expression by itself.

ghost use Rattle.std.specs.Prelude.{◌≡◌};
ghost use Rattle.std.specs.List.{flat_map};
ghost use Rattle.tie_rules.specs.Least as spec;
ghost use Rattle.tie_rules.specs.Parts as part;

use crate::each::Judge;
use crate::least::earlier;
use tie_grammar::tree::Expr;

/// The least place at which an expression or a part of it breaks a rule.
#[cycle(parts)]
#[tactic(auto, using(crate::proofs::Places::places))]
pub fn least_over<R: Judge<Expr>>(rule: &R, x: &Expr) -> Option<u32>
    ensures { result ≡ spec.least (part.at_parts (R.places rule.now) x.now) }
{
    earlier(rule.judge(x), least_below(rule, x))
}

#[cycle(parts)]
#[tactic(auto, using(crate::proofs::Places::places))]
fn least_below<R: Judge<Expr>>(rule: &R, x: &Expr) -> Option<u32>
    ensures { result ≡ spec.least (flat_map (R.places rule.now) (part.below x.now)) }
{
    match x {
        Expr::Literal(_) => None,
        Expr::Name(_) => None,
        Expr::Select(_, _, _) => None,
        Expr::Index(_, index) => least_over(rule, index.get()),
        Expr::Call(_, _, arguments) => least_over_all(rule, arguments.as_slice()),
        Expr::Tie(_, _, arguments) => least_over_all(rule, arguments.as_slice()),
        Expr::Paren(_, inner) => least_over(rule, inner.get()),
        Expr::Concat(_, parts) => least_over_all(rule, parts.as_slice()),
        Expr::Repeat(_, _, _, part) => least_over(rule, part.get()),
        Expr::Unary(_, _, operand) => least_over(rule, operand.get()),
        Expr::Binary(_, left, right) => {
            earlier(least_over(rule, left.get()), least_over(rule, right.get()))
        }
        Expr::Conditional(condition, met, unmet) => {
            let arms = earlier(least_over(rule, met.get()), least_over(rule, unmet.get()));
            earlier(least_over(rule, condition.get()), arms)
        }
    }
}

#[cycle(parts)]
#[tactic(auto, using(crate::proofs::Places::places))]
fn least_over_all<R: Judge<Expr>>(rule: &R, parts: &[Expr]) -> Option<u32>
    ensures { result ≡ spec.least (flat_map (part.at_parts (R.places rule.now)) parts.now) }
{
    let mut found = None;
    for part in parts {
        found = earlier(found, least_over(rule, part));
    }
    found
}
