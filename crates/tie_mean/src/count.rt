//! The nodes of expressions once wires and calls are replaced by their expressions. Counts beyond 5000 aren't told apart.

ghost use Rattle.std.specs.Prelude.{◌≡◌, ◌+◌, ◌*◌, ◌-◌, ◌≤◌, ◌<◌, min, sum, map, take, drop, length};
ghost use Rattle.tie_mean.specs.Counts as spec;

use tie_grammar::symbol::Leaf;
use tie_grammar::tree::Expr;

/// The count from which on counts aren't told apart.
pub const COUNT_LIMIT: u32 = 5000;

/// What the names that an expression sees count.
pub trait NameCounts {
    ghost use Rattle.tie_mean.specs.Counts.{Counts};

    ghost counts: { Self → Counts };

    /// What holds of a value whose answers are right.
    ghost right: { Self → Type 0 };

    /// What a number of nodes counts.
    fn nodes(&self, count: u32) -> u32
        ensures { result ≡ spec.nodes (counts self.now).counted count };

    /// A name that is read, with what replaces it.
    fn name_count(&self, name: &Leaf) -> u32
        requires { right self.now }
        ensures { result ≡ spec.limited ((counts self.now).name name.now.bytes) };

    /// A call besides its arguments.
    fn call_count(&self, name: &Leaf) -> u32
        requires { right self.now }
        ensures { result ≡ spec.limited ((counts self.now).call name.now.bytes) };

    /// How often the argument of a number counts in a call.
    fn times(&self, name: &Leaf, number: usize) -> u32
        requires { right self.now }
        ensures { result ≡ spec.limited ((counts self.now).times name.now.bytes number) };

    /// The name is that of a table.
    fn is_table(&self, name: &Leaf) -> bool
        requires { right self.now }
        ensures { result ≡ (counts self.now).is_table name.now.bytes };
}

pub fn bounded_count(n: u32) -> u32
    ensures { result ≡ spec.limited n }
{
    n.min(COUNT_LIMIT)
}

/// An expression's count.
#[cycle(count)]
#[tactic(auto, using(crate::proofs::CountLimits::count_limits))]
pub fn count<C: NameCounts>(c: &C, x: &Expr) -> u32
    requires { C.right c.now }
    ensures { result ≡ spec.limited (spec.count (C.counts c.now) x.now) }
{
    match x {
        Expr::Literal(_) => bounded_count(c.nodes(1)),
        Expr::Name(name) => c.name_count(name),
        Expr::Select(name, _, _) => bounded_count(c.nodes(1).saturating_add(c.name_count(name))),
        Expr::Index(name, index) => index_count(c, name, index.get()),
        Expr::Call(name, _, arguments) => {
            bounded_count(c.call_count(name) + arguments_count(c, name, arguments.as_slice()))
        }
        Expr::Tie(_, _, arguments) => with_node(c, counts(c, arguments.as_slice())),
        Expr::Paren(_, inner) => count(c, inner.get()),
        Expr::Concat(_, parts) => with_node(c, counts(c, parts.as_slice())),
        Expr::Repeat(_, _, _, part) => with_node(c, count(c, part.get())),
        Expr::Unary(_, _, operand) => with_node(c, count(c, operand.get())),
        Expr::Binary(_, left, right) => {
            with_node(c, count(c, left.get()) + count(c, right.get()))
        }
        Expr::Conditional(condition, met, unmet) => {
            let arms = count(c, met.get()) + count(c, unmet.get());
            with_node(c, count(c, condition.get()) + arms)
        }
    }
}

/// One node more.
fn with_node<C: NameCounts>(c: &C, n: u32) -> u32
    ensures { result ≡ spec.limited (spec.nodes (C.counts c.now).counted 1 + n) }
{
    bounded_count(c.nodes(1).saturating_add(n))
}

#[cycle(count)]
fn index_count<C: NameCounts>(c: &C, name: &Leaf, index: &Expr) -> u32
    requires { C.right c.now }
    ensures { result ≡ spec.limited (spec.index_count (C.counts c.now) name.now (spec.count (C.counts c.now) index.now)) }
{
    if c.is_table(name) {
        bounded_count(c.nodes(3).saturating_add(count(c, index)))
    } else {
        with_node(c, c.name_count(name))
    }
}

/// The counts of some parts together.
#[cycle(count)]
fn counts<C: NameCounts>(c: &C, parts: &[Expr]) -> u32
    requires { C.right c.now }
    ensures { result ≡ spec.limited (sum (map (spec.count (C.counts c.now)) parts.now)) }
{
    let mut total = 0;
    for part in parts {
        total = bounded_count(total + count(c, part));
    }
    total
}

/// The arguments of a call, each as often as it counts.
#[cycle(count)]
fn arguments_count<C: NameCounts>(c: &C, name: &Leaf, arguments: &[Expr]) -> u32
    requires { C.right c.now }
    ensures { result ≡ spec.limited (spec.weighted ((C.counts c.now).times name.now.bytes) 0 (map (spec.count (C.counts c.now)) arguments.now)) }
{
    let mut total = 0;
    for i in 0..arguments.len() {
        total = bounded_count(total + c.times(name, i) * count(c, &arguments[i]));
    }
    total
}
