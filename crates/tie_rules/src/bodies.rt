//! Rules 17 to 19: the bodies of functions and operations.

ghost use Rattle.std.specs.Prelude.{◌≡◌, ◌==◌, ◌≤◌, ◌<◌, nat_lt, nat_le, not, option_copied, length, List};
ghost use Rattle.std.specs.List.{list_any};
ghost use Rattle.tie_rules.specs.Least as spec;
ghost use Rattle.tie_rules.specs.Bodies as rule;

use crate::declarations::{InItems, least_in_body};
use crate::each::{Judge, JudgeBehind, Test, least_behind, least_in, some};
use crate::least::{earlier, when};
use crate::names::{
    Sort, Way, among, arguments, body, goes, has, has_parameter, is_own, links, operand_is,
};
use tie_grammar::symbol::{Leaf, TieFunction};
use tie_grammar::tree::{Argument, Decl, Expr, Item, Link, Literal, Tree};
use tie_mean::names::is_named;

// ---- 17

#[derive(Clone, Copy)]
struct BadImmediate<'a> {
    tree: &'a Tree,
}

impl Judge<Argument> for BadImmediate<'_> {
    ghost use Rattle.tie_rules.specs.Bodies.{bad_immediate};

    ghost places = { λ s. bad_immediate s.tree.now };

    fn judge(&self, x: &Argument) -> Option<u32> {
        let bad = has(self.tree, Sort::Range, &x.kind) && !goes(Way::In, x.direction);
        when(bad, x.name.place)
    }
}

#[derive(Clone, Copy)]
struct BadQueue<'a> {
    tree: &'a Tree,
}

impl Judge<Link> for BadQueue<'_> {
    ghost use Rattle.tie_rules.specs.Bodies.{bad_queue};

    ghost places = { λ s. bad_queue s.tree.now };

    fn judge(&self, x: &Link) -> Option<u32> {
        let bad_in = has(self.tree, Sort::QueueIn, &x.name) && !goes(Way::In, x.direction);
        let bad_out = has(self.tree, Sort::QueueOut, &x.name) && !goes(Way::Out, x.direction);
        when(bad_in || bad_out, x.name.place)
    }
}

#[derive(Clone, Copy)]
struct BadTarget<'a> {
    decl: &'a Decl,
}

impl Judge<Item> for BadTarget<'_> {
    ghost use Rattle.tie_rules.specs.Bodies.{bad_target};

    ghost places = { λ s. bad_target s.decl.now };

    fn judge(&self, item: &Item) -> Option<u32> {
        match item {
            Item::Assign(n, _) => {
                when(
                    operand_is(Way::In, n, self.decl) || has_parameter(n, self.decl),
                    n.place,
                )
            }
            _ => None,
        }
    }
}

fn bad_read(decl: &Decl, n: &Leaf) -> Option<u32>
    ensures { result ≡ spec.least (rule.bad_read decl.now n.now) }
{
    when(operand_is(Way::Out, n, decl) || is_own(n, decl), n.place)
}

#[derive(Clone, Copy)]
struct BadRead<'a> {
    decl: &'a Decl,
}

impl Judge<Expr> for BadRead<'_> {
    ghost use Rattle.tie_rules.specs.Bodies.{bad_read_here};

    ghost places = { λ s. bad_read_here s.decl.now };

    fn judge(&self, x: &Expr) -> Option<u32> {
        match x {
            Expr::Name(n) => bad_read(self.decl, n),
            Expr::Select(n, _, _) => bad_read(self.decl, n),
            Expr::Index(n, _) => bad_read(self.decl, n),
            _ => None,
        }
    }
}

#[derive(Clone, Copy)]
struct Directions<'a> {
    tree: &'a Tree,
}

#[tactic(auto, using(crate::proofs::Places::places))]
impl Judge<Decl> for Directions<'_> {
    ghost use Rattle.tie_rules.specs.Bodies.{direction_at};

    ghost places = { λ s. direction_at s.tree.now };

    fn judge(&self, decl: &Decl) -> Option<u32> {
        let tree = self.tree;
        let immediates = least_in(&BadImmediate { tree }, arguments(decl));
        let queues = least_in(&BadQueue { tree }, links(decl));
        let targets = least_in(&BadTarget { decl }, body(decl));
        let reads = least_in_body(&BadRead { decl }, decl);
        earlier(earlier(immediates, queues), earlier(targets, reads))
    }
}

pub fn direction(tree: &Tree) -> Option<u32>
    ensures { result ≡ spec.least (rule.direction tree.now) }
{
    least_in(&Directions { tree }, tree.declarations.as_slice())
}

// ---- 18

#[tactic(auto, unfolding(crate::specs::Bodies::not_before))]
fn not_before(tree: &Tree, before: &[Decl], n: &Leaf) -> Option<u32>
    ensures { result ≡ spec.least (rule.not_before tree.now before.now n.now) }
{
    let known = has(tree, Sort::Function, n);
    when(known && !among(before, Sort::Function, n), n.place)
}

#[derive(Clone, Copy)]
struct RecursionHere<'a> {
    tree: &'a Tree,
    before: &'a [Decl],
}

impl Judge<Expr> for RecursionHere<'_> {
    ghost use Rattle.tie_rules.specs.Bodies.{recursion_here};

    ghost places = { λ s. recursion_here s.tree.now s.before.now };

    fn judge(&self, x: &Expr) -> Option<u32> {
        match x {
            Expr::Call(n, _, _) => not_before(self.tree, self.before, n),
            _ => None,
        }
    }
}

#[derive(Clone, Copy)]
struct RecursionAt<'a> {
    tree: &'a Tree,
}

impl JudgeBehind<Decl> for RecursionAt<'_> {
    ghost use Rattle.tie_rules.specs.Bodies.{recursion_at};

    ghost places = { λ s. recursion_at s.tree.now };

    fn judge(&self, before: &[Decl], decl: &Decl) -> Option<u32> {
        match decl {
            Decl::Function(x) => {
                let rule = RecursionHere {
                    tree: self.tree,
                    before,
                };
                least_in(&InItems { rule: &rule }, x.items.as_slice())
            }
            _ => None,
        }
    }
}

pub fn recursion(tree: &Tree) -> Option<u32>
    ensures { result ≡ spec.least (rule.recursion tree.now) }
{
    least_behind(&RecursionAt { tree }, tree.declarations.as_slice())
}

// ---- 19

/// Functions of a name that take another number of arguments.
#[derive(Clone, Copy)]
struct TakesOthers<'a> {
    name: &'a Leaf,
    count: usize,
}

impl Test<Decl> for TakesOthers<'_> {
    ghost use Rattle.tie_rules.specs.Bodies.{takes_others};

    ghost holds = { λ s. takes_others s.name.now.bytes s.count };

    fn holds_of(&self, decl: &Decl) -> bool {
        match decl {
            Decl::Function(x) => is_named(self.name, &x.name) && x.parameters.len() != self.count,
            _ => false,
        }
    }
}

fn takes(function: TieFunction, n: usize) -> bool
    ensures { result ≡ rule.takes function n }
{
    match function {
        TieFunction::Mux => (n == 3 || n == 5) || (n == 9 || n == 17),
        _ => n == 3,
    }
}

/// The number that an expression is, if it is one.
pub fn number_of(x: &Expr) -> Option<&Leaf>
    ensures { option_copied result ≡ rule.number_of x.now }
{
    match x {
        Expr::Literal(Literal::Number(leaf)) => Some(leaf),
        _ => None,
    }
}

fn no_number(x: &Expr) -> bool
    ensures { result ≡ rule.no_number (rule.number_of x.now) }
{
    number_of(x).is_none()
}

#[tactic(auto, unfolding(crate::specs::Bodies::other_count))]
fn other_count(tree: &Tree, n: &Leaf, count: usize) -> Option<u32>
    ensures { result ≡ spec.least (rule.other_count tree.now n.now count) }
{
    let others = TakesOthers { name: n, count };
    when(some(&others, tree.declarations.as_slice()), n.place)
}

#[derive(Clone, Copy)]
struct ArgCountHere<'a> {
    tree: &'a Tree,
}

impl Judge<Expr> for ArgCountHere<'_> {
    ghost use Rattle.tie_rules.specs.Bodies.{arg_count_here};

    ghost places = { λ s. arg_count_here s.tree.now };

    fn judge(&self, x: &Expr) -> Option<u32> {
        match x {
            Expr::Index(n, index) => {
                when(
                    !has(self.tree, Sort::Table, n) && no_number(index.get()),
                    n.place,
                )
            }
            Expr::Call(n, _, arguments) => other_count(self.tree, n, arguments.len()),
            Expr::Tie(word, _, arguments) => {
                when(!takes(word.function, arguments.len()), word.place)
            }
            _ => None,
        }
    }
}

#[derive(Clone, Copy)]
struct ArgCount<'a> {
    tree: &'a Tree,
}

impl Judge<Decl> for ArgCount<'_> {
    ghost use Rattle.tie_rules.specs.Bodies.{arg_count_at};

    ghost places = { λ s. arg_count_at s.tree.now };

    fn judge(&self, decl: &Decl) -> Option<u32> {
        least_in_body(&ArgCountHere { tree: self.tree }, decl)
    }
}

pub fn arg_count(tree: &Tree) -> Option<u32>
    ensures { result ≡ spec.least (rule.arg_count tree.now) }
{
    least_in(&ArgCount { tree }, tree.declarations.as_slice())
}
