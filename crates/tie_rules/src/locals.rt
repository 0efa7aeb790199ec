//! Rule 15: the names that a function or an operation declares.

ghost use Rattle.std.specs.Prelude.{◌≡◌, IfOk, option_copied};
ghost use Rattle.tie_rules.specs.Least as spec;
ghost use Rattle.tie_rules.specs.Names.{body};
ghost use Rattle.tie_rules.specs.NameSets as sets;
ghost use Rattle.tie_rules.specs.Bodies as rule;

use crate::again::{JudgeAgain, least_again};
use crate::body_names::wire_name;
use crate::each::{Judge, JudgeBehind, JudgeIn, least_behind, least_in, least_made, some};
use crate::least::{earlier, when};
use crate::names::{
    IsArgument, IsLink, IsParameter, arguments, body, declared_name, has_argument, has_link,
    has_parameter, links, parameters,
};
use std::alloc::Global;
use tie_grammar::symbol::Leaf;
use tie_grammar::tree::{Argument, Decl, Item, Link, Parameter, Tree};
use tie_mean::NoMemory;
use tie_mean::names::is_named;

// ---- 15

fn clash(local: &Leaf, name: Option<&Leaf>) -> Option<u32>
    ensures { result ≡ spec.least (rule.clash local.now (option_copied name.entry)) }
{
    match name {
        Some(leaf) => when(is_named(local, leaf), leaf.place.max(local.place)),
        None => None,
    }
}

#[derive(Clone, Copy)]
struct ClashAt<'a> {
    local: &'a Leaf,
}

impl Judge<Decl> for ClashAt<'_> {
    ghost use Rattle.tie_rules.specs.Bodies.{clash_at};

    ghost places = { λ s. clash_at s.local.now };

    fn judge(&self, decl: &Decl) -> Option<u32> {
        clash(self.local, declared_name(decl))
    }
}

fn declared_clash(tree: &Tree, local: &Leaf) -> Option<u32>
    ensures { result ≡ spec.least (rule.declared_clash tree.now local.now) }
{
    least_in(&ClashAt { local }, tree.declarations.as_slice())
}

#[derive(Clone, Copy)]
struct ParameterDoubled<'a> {
    tree: &'a Tree,
}

#[tactic(auto, using(crate::proofs::Places::places))]
impl JudgeBehind<Parameter> for ParameterDoubled<'_> {
    ghost use Rattle.tie_rules.specs.Bodies.{parameter_doubled};

    ghost places = { λ s. parameter_doubled s.tree.now };

    fn judge(&self, before: &[Parameter], x: &Parameter) -> Option<u32> {
        let again = some(&IsParameter { name: &x.name }, before);
        earlier(
            when(again, x.name.place),
            declared_clash(self.tree, &x.name),
        )
    }
}

#[derive(Clone, Copy)]
struct ArgumentDoubled<'a> {
    tree: &'a Tree,
}

#[tactic(auto, using(crate::proofs::Places::places))]
impl JudgeBehind<Argument> for ArgumentDoubled<'_> {
    ghost use Rattle.tie_rules.specs.Bodies.{argument_doubled};

    ghost places = { λ s. argument_doubled s.tree.now };

    fn judge(&self, before: &[Argument], x: &Argument) -> Option<u32> {
        let again = some(&IsArgument { name: &x.name }, before);
        earlier(
            when(again, x.name.place),
            declared_clash(self.tree, &x.name),
        )
    }
}

#[derive(Clone, Copy)]
struct LinkDoubled<'a> {
    decl: &'a Decl,
}

impl JudgeBehind<Link> for LinkDoubled<'_> {
    ghost use Rattle.tie_rules.specs.Bodies.{link_doubled};

    ghost places = { λ s. link_doubled s.decl.now };

    fn judge(&self, before: &[Link], x: &Link) -> Option<u32> {
        let again = some(&IsLink { name: &x.name }, before);
        when(again || has_argument(&x.name, self.decl), x.name.place)
    }
}

#[tactic(auto, using(crate::proofs::Places::places))]
fn named_doubled(tree: &Tree, decl: &Decl, again: bool, name: Option<&Leaf>) -> Option<u32>
    ensures { result ≡ spec.least (sets.named_doubled_by tree.now decl.now again (option_copied name.entry)) }
{
    match name {
        Some(n) => {
            let operand = has_argument(n, decl) || has_link(n, decl);
            let doubled = again || (has_parameter(n, decl) || operand);
            earlier(when(doubled, n.place), declared_clash(tree, n))
        }
        None => None,
    }
}

#[derive(Clone, Copy)]
struct WireDoubled<'a> {
    tree: &'a Tree,
    decl: &'a Decl,
}

impl JudgeAgain<Item> for WireDoubled<'_> {
    ghost use Rattle.tie_rules.specs.Bodies.{wire_name};
    ghost use Rattle.tie_rules.specs.NameSets.{wire_doubled_here};

    ghost name = { λ _. wire_name };

    ghost places = { λ s. wire_doubled_here s.tree.now s.decl.now };

    fn name_of<'t>(&self, item: &'t Item) -> Option<&'t Leaf> {
        wire_name(item)
    }

    fn judge(&self, again: bool, item: &Item) -> Option<u32> {
        named_doubled(self.tree, self.decl, again, wire_name(item))
    }
}

fn wires_doubled(alloc: Global, tree: &Tree, decl: &Decl) -> Result<Option<u32>, NoMemory>
    ensures { IfOk result (λ place. place ≡ spec.least (spec.behind (rule.wire_doubled tree.now decl.now) (body decl.now))) }
{
    least_again(alloc, &WireDoubled { tree, decl }, body(decl))
}

#[derive(Clone, Copy)]
struct LocalDoubled<'a> {
    tree: &'a Tree,
}

#[tactic(auto, using(crate::proofs::Places::places))]
impl JudgeIn<Decl> for LocalDoubled<'_> {
    ghost use Rattle.tie_rules.specs.Bodies.{local_doubled_at};

    ghost places = { λ s. local_doubled_at s.tree.now };

    fn judge(&self, alloc: Global, decl: &Decl) -> Result<Option<u32>, NoMemory> {
        let tree = self.tree;
        let wires = wires_doubled(alloc, tree, decl)?;
        let parameters = least_behind(&ParameterDoubled { tree }, parameters(decl));
        let arguments = least_behind(&ArgumentDoubled { tree }, arguments(decl));
        let links = least_behind(&LinkDoubled { decl }, links(decl));
        Ok(earlier(earlier(parameters, arguments), earlier(links, wires)))
    }
}

pub fn local_doubled(alloc: Global, tree: &Tree) -> Result<Option<u32>, NoMemory>
    ensures { IfOk result (λ place. place ≡ spec.least (rule.local_doubled tree.now)) }
{
    least_made(alloc, &LocalDoubled { tree }, tree.declarations.as_slice())
}
