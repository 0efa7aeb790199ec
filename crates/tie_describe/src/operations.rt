//! Operations.

ghost use Rattle.std.specs.Prelude.{◌≡◌, IfOk, All, map, drop};
ghost use Rattle.std.specs.List.{flat_map};
ghost use Rattle.tie_tree_law.specs.Shape.{NamesAreWords};
ghost use Rattle.tie_describe.specs.Operations as spec;
ghost use Rattle.tie_describe.specs.Results.{first_results};
ghost use Rattle.tie_describe.specs.Described.{ops};
ghost use Rattle.tie_describe.specs.Scope.{IsScope, HasWords};

use crate::each::{Make, make_all};
use crate::numbers::name_of;
use crate::operands::{Scope, argument_kind, link_kind, operand};
use crate::stages::{schedule_of, uses_late};
use std::alloc::Global;
use std::collections::VecDeque;
use tie_desc::{OpDecl, Operand, Sequence};
use tie_expr::Expr;
use tie_grammar::tree::{Argument, Decl, Link, Operation, ScheduleItem, Tree};
use tie_mean::NoMemory;

/// Where operands stand: what their operation's schedule says, whether it uses anything at M, and what they may speak of.
#[derive(Clone, Copy)]
struct Place<'t> {
    items: &'t [ScheduleItem],
    late: bool,
    scope: Scope<'t>,
}

impl Make<Argument, Operand> for Place<'_> {
    ghost use Rattle.std.specs.Prelude.{IsTrue};
    ghost use Rattle.tie_desc.specs.Names.{is_word};
    ghost use Rattle.tie_describe.specs.Operations.{operand, argument_kind};

    ghost fits = { λ _ x. IsTrue (is_word x.name.bytes) };

    ghost made = { λ s x. operand s.items.now s.late x.name x.direction (argument_kind s.scope.files.now s.scope.ranges.now x.kind) };

    fn make(&self, x: &Argument) -> Result<Operand, NoMemory> {
        let kind = argument_kind(&self.scope, &x.kind);
        Ok(operand(self.items, self.late, &x.name, x.direction, kind))
    }
}

impl Make<Link, Operand> for Place<'_> {
    ghost use Rattle.std.specs.Prelude.{IsTrue};
    ghost use Rattle.tie_desc.specs.Names.{is_word};
    ghost use Rattle.tie_describe.specs.Operations.{operand, link_kind};

    ghost fits = { λ _ x. IsTrue (is_word x.name.bytes) };

    ghost made = { λ s x. operand s.items.now s.late x.name x.direction (link_kind s.scope.states.now s.scope.inputs.now s.scope.outputs.now x.name.bytes) };

    fn make(&self, x: &Link) -> Result<Operand, NoMemory> {
        let kind = link_kind(&self.scope, x.name.bytes.as_slice());
        Ok(operand(self.items, self.late, &x.name, x.direction, kind))
    }
}

/// One operation.
fn operation(
    alloc: Global,
    tree: &Tree,
    scope: &Scope,
    o: &Operation,
    results: Vec<Expr>,
) -> Result<OpDecl, NoMemory>
    requires scope { IsScope tree.now scope.now }
    requires words { HasWords (Decl.Operation o.now) }
    ensures { IfOk result (λ op. op ≡ spec.operation tree.now o.now results.items) }
{
    let items = schedule_of(tree, &o.name);
    let place = Place {
        items,
        late: uses_late(items, o),
        scope: *scope,
    };
    let args = make_all(alloc, &place, o.arguments.as_slice())?;
    let links = make_all(alloc, &place, o.links.as_slice())?;
    Ok(OpDecl {
        name: name_of(&o.name),
        args: Sequence::from_vec(args),
        links: Sequence::from_vec(links),
        results: Sequence::from_vec(results),
    })
}

/// The results of the next operation, none where none are left.
fn next_results(alloc: Global, left: &mut VecDeque<Vec<Expr>>) -> Vec<Expr>
    ensures first { result.items ≡ first_results (map (λ r. r.items) left.old.items) }
    ensures left { map (λ r. r.items) left.new.items ≡ drop 1 (map (λ r. r.items) left.old.items) }
{
    match left.pop_front() {
        Some(results) => results,
        None => Vec::new(alloc),
    }
}

fn operations_among(
    alloc: Global,
    tree: &Tree,
    scope: &Scope,
    decls: &[Decl],
    results: Vec<Vec<Expr>>,
) -> Result<Vec<OpDecl>, NoMemory>
    requires scope { IsScope tree.now scope.now }
    requires words { All HasWords decls.now }
    ensures { IfOk result (λ v. v.items ≡ spec.with_results tree.now (flat_map spec.operation_of decls.now) (map (λ r. r.items) results.items)) }
{
    let mut left = VecDeque::from(results);
    let mut ops = Vec::new(alloc);
    for decl in decls {
        if let Decl::Operation(o) = decl {
            let own = next_results(alloc, &mut left);
            ops.push(operation(alloc, tree, scope, o, own)?)?;
        }
    }
    Ok(ops)
}

/// The operations of a text, each with its results.
pub fn operations(
    alloc: Global,
    tree: &Tree,
    scope: &Scope,
    results: Vec<Vec<Expr>>,
) -> Result<Vec<OpDecl>, NoMemory>
    requires scope { IsScope tree.now scope.now }
    requires words { NamesAreWords tree.now }
    ensures { IfOk result (λ v. v.items ≡ ops tree.now (map (λ r. r.items) results.items)) }
{
    operations_among(alloc, tree, scope, tree.declarations.as_slice(), results)
}
