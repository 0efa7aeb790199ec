//! Rule 13: slots of formats, and the opcodes that are listed for them.

ghost use Rattle.std.specs.Prelude.{◌≡◌, ℕ, List, IfOk, option_copied};
ghost use Rattle.std.specs.List.{list_any};
ghost use Rattle.tie_mean.specs.Kept.{met};
ghost use Rattle.tie_rules.specs.Least as spec;
ghost use Rattle.tie_rules.specs.Names as names;
ghost use Rattle.tie_rules.specs.Declarations as rule;
ghost use Rattle.tie_rules.specs.NameSets as sets;

use crate::again::{
    JudgeAgain, JudgeLists, Lists, Named, least_again, least_lists, leaves_again, leaves_in,
    names_in,
};
use crate::each::{Judge, least_in};
use crate::least::{earlier, when};
use std::alloc::Global;
use std::collections::BTreeSet;
use tie_grammar::symbol::Leaf;
use tie_grammar::tree::{Decl, Tree};
use tie_mean::NoMemory;
use tie_mean::kept::is_met;

/// The slots of a format.
fn slots_of(decl: &Decl) -> &[Leaf]
    ensures { result.now ≡ sets.slots_of decl.now }
{
    match decl {
        Decl::Format(x) => x.slots.as_slice(),
        _ => &[],
    }
}

/// The slot whose opcodes are listed.
fn given_slot(decl: &Decl) -> Option<&Leaf>
    ensures { option_copied result ≡ sets.given_slot decl.now }
{
    match decl {
        Decl::SlotOpcodes(x) => Some(&x.slot),
        _ => None,
    }
}

// ---- names that stand a second time

#[derive(Clone, Copy)]
struct Slots;

impl Lists<Decl> for Slots {
    ghost use Rattle.tie_rules.specs.NameSets.{slots_of};

    ghost leaves = { λ _. slots_of };

    fn leaves_of<'t>(&self, decl: &'t Decl) -> &'t [Leaf] {
        slots_of(decl)
    }
}

impl JudgeLists<Decl> for Slots {
    ghost use Rattle.tie_rules.specs.NameSets.{slots_again, slots_of};

    ghost leaves = { λ _. slots_of };

    ghost places = { λ _. slots_again };

    fn leaves_of<'t>(&self, decl: &'t Decl) -> &'t [Leaf] {
        slots_of(decl)
    }

    fn judge(
        &self,
        alloc: Global,
        before: &BTreeSet<&[u8]>,
        decl: &Decl,
    ) -> Result<Option<u32>, NoMemory> {
        leaves_again(alloc, before, slots_of(decl))
    }
}

fn again_by(again: bool, name: Option<&Leaf>) -> Option<u32>
    ensures { result ≡ spec.least (sets.set_again_by again (option_copied name.entry)) }
{
    match name {
        Some(leaf) => when(again, leaf.place),
        None => None,
    }
}

#[derive(Clone, Copy)]
struct Given;

impl Named<Decl> for Given {
    ghost use Rattle.tie_rules.specs.NameSets.{given_slot};

    ghost name = { λ _. given_slot };

    fn name_of<'t>(&self, decl: &'t Decl) -> Option<&'t Leaf> {
        given_slot(decl)
    }
}

impl JudgeAgain<Decl> for Given {
    ghost use Rattle.tie_rules.specs.NameSets.{given_again, given_slot};

    ghost name = { λ _. given_slot };

    ghost places = { λ _. given_again };

    fn name_of<'t>(&self, decl: &'t Decl) -> Option<&'t Leaf> {
        given_slot(decl)
    }

    fn judge(&self, again: bool, decl: &Decl) -> Option<u32> {
        again_by(again, given_slot(decl))
    }
}

// ---- names that stand alone

/// The slots of all formats, and those whose opcodes are listed.
#[derive(Drop)]
struct SlotNames<'t> {
    tree: &'t Tree,
    slots: BTreeSet<&'t [u8]>,
    given: BTreeSet<&'t [u8]>,
    ghost slots_right: { (q : List ℕ) → met slots q ≡ names.has (rule.has_slot q) tree.now },
    ghost given_right: { (q : List ℕ) → met given q ≡ names.has (rule.gives_opcodes q) tree.now },
}

fn slots_in(alloc: Global, tree: &Tree) -> Result<BTreeSet<&[u8]>, NoMemory>
    ensures { IfOk result (λ found. (q : List ℕ) → met found q ≡ names.has (rule.has_slot q) tree.now) }
{
    leaves_in(alloc, &Slots, tree.declarations.as_slice())
}

fn given_in(alloc: Global, tree: &Tree) -> Result<BTreeSet<&[u8]>, NoMemory>
    ensures { IfOk result (λ found. (q : List ℕ) → met found q ≡ names.has (rule.gives_opcodes q) tree.now) }
{
    names_in(alloc, &Given, tree.declarations.as_slice())
}

fn slot_names(alloc: Global, tree: &Tree) -> Result<SlotNames<'_>, NoMemory>
    ensures { IfOk result (λ names. names.tree.now ≡ tree.now) }
{
    let slots = slots_in(alloc, tree)?;
    let given = given_in(alloc, tree)?;
    Ok(SlotNames { tree, slots, given })
}

#[derive(Clone, Copy)]
struct LoneSlot<'a, 't> {
    names: &'a SlotNames<'t>,
}

impl Judge<Leaf> for LoneSlot<'_, '_> {
    ghost use Rattle.tie_rules.specs.NameSets.{lone_slot};

    ghost places = { λ s. lone_slot s.names.now.tree.now };

    fn judge(&self, slot: &Leaf) -> Option<u32> {
        when(!is_met(&self.names.given, slot), slot.place)
    }
}

fn lone_given(names: &SlotNames, name: Option<&Leaf>) -> Option<u32>
    ensures { result ≡ spec.least (sets.lone_given names.now.tree.now (option_copied name.entry)) }
{
    match name {
        Some(slot) => when(!is_met(&names.slots, slot), slot.place),
        None => None,
    }
}

#[derive(Clone, Copy)]
struct Lone<'a, 't> {
    names: &'a SlotNames<'t>,
}

#[tactic(auto, using(crate::proofs::Places::places))]
impl Judge<Decl> for Lone<'_, '_> {
    ghost use Rattle.tie_rules.specs.NameSets.{lone_at};

    ghost places = { λ s. lone_at s.names.now.tree.now };

    fn judge(&self, decl: &Decl) -> Option<u32> {
        let slots = least_in(&LoneSlot { names: self.names }, slots_of(decl));
        earlier(slots, lone_given(self.names, given_slot(decl)))
    }
}

// ---- the rule

pub fn slot_list(alloc: Global, tree: &Tree) -> Result<Option<u32>, NoMemory>
    ensures { IfOk result (λ place. place ≡ spec.least (rule.slot_list tree.now)) }
{
    let decls = tree.declarations.as_slice();
    let slots = least_lists(alloc, &Slots, decls)?;
    let given = least_again(alloc, &Given, decls)?;
    let names = slot_names(alloc, tree)?;
    let lone = least_in(&Lone { names: &names }, decls);
    Ok(earlier(slots, earlier(lone, given)))
}
