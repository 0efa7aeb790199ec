//! The names of one body, in sets.

ghost use Rattle.std.specs.Prelude.{◌≡◌, ℕ, List, IfOk, option_copied};
ghost use Rattle.tie_mean.specs.Kept.{met};
ghost use Rattle.tie_rules.specs.Names as spec;
ghost use Rattle.tie_rules.specs.Bodies as rule;
ghost use Rattle.tie_rules.specs.NameSets as sets;

use crate::again::{Named, names_in};
use crate::names::{body, has_argument, has_link, has_parameter, is_own};
use std::alloc::Global;
use std::collections::BTreeSet;
use tie_grammar::symbol::Leaf;
use tie_grammar::tree::{Decl, Item};
use tie_mean::NoMemory;
use tie_mean::kept::is_met;

/// The wires of a body, and the names that it assigns.
#[derive(Drop)]
pub struct BodyNames<'t> {
    pub decl: &'t Decl,
    wires: BTreeSet<&'t [u8]>,
    assigned: BTreeSet<&'t [u8]>,
    ghost wires_right: { (q : List ℕ) → met wires q ≡ spec.has_wire q decl.now },
    ghost assigned_right: { (q : List ℕ) → met assigned q ≡ spec.is_assigned q decl.now },
}

/// The name of the wire that an item declares.
pub fn wire_name(item: &Item) -> Option<&Leaf>
    ensures { option_copied result ≡ rule.wire_name item.now }
{
    match item {
        Item::Wire(_, n) => Some(n),
        Item::WireSet(_, n, _) => Some(n),
        Item::Assign(_, _) => None,
    }
}

/// The name that an item assigns.
pub fn set_name(item: &Item) -> Option<&Leaf>
    ensures { option_copied result ≡ sets.set_name item.now }
{
    match item {
        Item::Wire(_, _) => None,
        Item::WireSet(_, n, _) => Some(n),
        Item::Assign(n, _) => Some(n),
    }
}

/// Wires.
#[derive(Clone, Copy)]
pub struct WireNames;

impl Named<Item> for WireNames {
    ghost use Rattle.tie_rules.specs.Bodies.{wire_name};

    ghost name = { λ _. wire_name };

    fn name_of<'t>(&self, item: &'t Item) -> Option<&'t Leaf> {
        wire_name(item)
    }
}

/// Names that are assigned.
#[derive(Clone, Copy)]
pub struct SetNames;

impl Named<Item> for SetNames {
    ghost use Rattle.tie_rules.specs.NameSets.{set_name};

    ghost name = { λ _. set_name };

    fn name_of<'t>(&self, item: &'t Item) -> Option<&'t Leaf> {
        set_name(item)
    }
}

/// The wires of a body.
fn wires_in(alloc: Global, decl: &Decl) -> Result<BTreeSet<&[u8]>, NoMemory>
    ensures { IfOk result (λ found. (q : List ℕ) → met found q ≡ spec.has_wire q decl.now) }
{
    names_in(alloc, &WireNames, body(decl))
}

/// The names that a body assigns.
fn assigned_in(alloc: Global, decl: &Decl) -> Result<BTreeSet<&[u8]>, NoMemory>
    ensures { IfOk result (λ found. (q : List ℕ) → met found q ≡ spec.is_assigned q decl.now) }
{
    names_in(alloc, &SetNames, body(decl))
}

/// The names of a body.
pub fn body_names(alloc: Global, decl: &Decl) -> Result<BodyNames<'_>, NoMemory>
    ensures { IfOk result (λ names. names.decl.now ≡ decl.now) }
{
    let wires = wires_in(alloc, decl)?;
    let assigned = assigned_in(alloc, decl)?;
    Ok(BodyNames {
        decl,
        wires,
        assigned,
    })
}

pub fn has_wire(name: &Leaf, names: &BodyNames) -> bool
    ensures { result ≡ spec.has_wire name.now.bytes names.now.decl.now }
{
    is_met(&names.wires, name)
}

pub fn is_assigned(name: &Leaf, names: &BodyNames) -> bool
    ensures { result ≡ spec.is_assigned name.now.bytes names.now.decl.now }
{
    is_met(&names.assigned, name)
}

/// The body sees the name.
pub fn sees(name: &Leaf, names: &BodyNames) -> bool
    ensures { result ≡ spec.sees name.now.bytes names.now.decl.now }
{
    let decl = names.decl;
    let operand = has_argument(name, decl) || has_link(name, decl);
    let local = has_parameter(name, decl) || has_wire(name, names);
    (operand || local) || is_own(name, decl)
}
