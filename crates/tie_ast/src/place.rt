//! Places of expressions.

ghost use Rattle.std.specs.Prelude.{◌≡◌, Some};
ghost use Rattle.tie_grammar.specs.Spelling.{expr as spelled, begins_at};

use tie_grammar::tree::{Expr, Literal};

/// The place of an expression's first token.
#[tactic(auto, using(tie_grammar::proofs::Places::begins_index, tie_grammar::proofs::Places::begins_call, tie_grammar::proofs::Places::begins_tie, tie_grammar::proofs::Places::begins_paren, tie_grammar::proofs::Places::begins_concat, tie_grammar::proofs::Places::begins_repeat, tie_grammar::proofs::Places::begins_unary))]
pub fn first_place(x: &Expr) -> u32
    ensures { begins_at (spelled x.now) ≡ Some result }
{
    match x {
        Expr::Literal(Literal::Number(leaf)) => leaf.place,
        Expr::Literal(Literal::Sized(leaf)) => leaf.place,
        Expr::Name(name) => name.place,
        Expr::Select(name, _, _) => name.place,
        Expr::Index(name, _) => name.place,
        Expr::Call(name, _, _) => name.place,
        Expr::Tie(word, _, _) => word.place,
        Expr::Paren(place, _) => *place,
        Expr::Concat(place, _) => *place,
        Expr::Repeat(place, _, _, _) => *place,
        Expr::Unary(_, place, _) => *place,
        Expr::Binary(_, left, _) => first_place(left.get()),
        Expr::Conditional(condition, _, _) => first_place(condition.get()),
    }
}
