//! Names that stand in several places, found in sets of those that were met.

ghost use Rattle.std.specs.Prelude.{◌≡◌, ℕ, ◌||◌, List, IfOk, OnOk, Some, option_copied};
ghost use Rattle.std.specs.List.{list_any};
ghost use Rattle.tie_rules.specs.Names.{names, listed};
ghost use Rattle.tie_rules.specs.Least as spec;
ghost use Rattle.tie_mean.specs.Kept.{met};
ghost use Rattle.tie_rules.specs.NameSets.{at_again, at_lists, at_met, has_name, held_name, leaf_again, lists_name};

use crate::least::{earlier, when};
use std::alloc::Global;
use std::collections::BTreeSet;
use tie_grammar::symbol::Leaf;
use tie_mean::NoMemory;
use tie_mean::kept::{is_met, meet};

/// A rule that looks at whether one of the things before has the same name.
pub trait JudgeAgain<T> {
    ghost use Rattle.std.specs.Prelude.{List, ℕ, Bool, Option};
    ghost use Rattle.tie_grammar.specs.declared.symbol.Leaf.{Leaf};

    ghost name: { Self → T → Option Leaf };

    ghost places: { Self → Bool → T → List ℕ };

    fn name_of<'t>(&self, x: &'t T) -> Option<&'t Leaf>
        ensures { option_copied result ≡ name self.now x.now };

    fn judge(&self, again: bool, x: &T) -> Option<u32>
        ensures { result ≡ spec.least (places self.now again x.now) };
}

/// Things that may have a name.
pub trait Named<T> {
    ghost use Rattle.std.specs.Prelude.{Option};
    ghost use Rattle.tie_grammar.specs.declared.symbol.Leaf.{Leaf};

    ghost name: { Self → T → Option Leaf };

    fn name_of<'t>(&self, x: &'t T) -> Option<&'t Leaf>
        ensures { option_copied result ≡ name self.now x.now };
}

/// A rule that looks at which names stand before a thing.
pub trait JudgeMet<T> {
    ghost use Rattle.std.specs.Prelude.{List, ℕ, Bool, Option};
    ghost use Rattle.tie_grammar.specs.declared.symbol.Leaf.{Leaf};

    ghost name: { Self → T → Option Leaf };

    ghost places: { Self → (List ℕ → Bool) → T → List ℕ };

    fn name_of<'t>(&self, x: &'t T) -> Option<&'t Leaf>
        ensures { option_copied result ≡ name self.now x.now };

    fn judge(&self, before: &BTreeSet<&[u8]>, x: &T) -> Option<u32>
        ensures { result ≡ spec.least (places self.now (met before.now) x.now) };
}

/// Whether a name was met before; it is met from now on.
fn meet_any<'t>(before: &mut BTreeSet<&'t [u8]>, name: Option<&'t Leaf>) -> Result<bool, NoMemory>
    ensures again { IfOk result (λ again. again ≡ held_name before.old (option_copied name.entry)) }
    ensures met { OnOk result ((q : List ℕ) → met before.new q ≡ (names q (option_copied name.entry) || met before.old q)) }
{
    match name {
        Some(leaf) => meet(before, leaf),
        None => Ok(false),
    }
}

/// The least place at which some things break a rule that looks at the names before each.
pub fn least_again<T, R: JudgeAgain<T>>(
    alloc: Global,
    rule: &R,
    xs: &[T],
) -> Result<Option<u32>, NoMemory>
    ensures { IfOk result (λ place. place ≡ spec.least (spec.behind (at_again (R.name rule.now) (R.places rule.now)) xs.now)) }
{
    let mut before = BTreeSet::new(alloc);
    let mut found = None;
    for x in xs {
        let again = meet_any(&mut before, rule.name_of(x))?;
        found = earlier(found, rule.judge(again, x));
    }
    Ok(found)
}

/// The least place at which some things break a rule that looks at which names stand before each.
pub fn least_met<T, R: JudgeMet<T>>(
    alloc: Global,
    rule: &R,
    xs: &[T],
) -> Result<Option<u32>, NoMemory>
    ensures { IfOk result (λ place. place ≡ spec.least (spec.behind (at_met (R.name rule.now) (R.places rule.now)) xs.now)) }
{
    let mut before = BTreeSet::new(alloc);
    let mut found = None;
    for x in xs {
        found = earlier(found, rule.judge(&before, x));
        meet_any(&mut before, rule.name_of(x))?;
    }
    Ok(found)
}

/// The names of some things.
pub fn names_in<'t, T, N: Named<T>>(
    alloc: Global,
    named: &N,
    xs: &'t [T],
) -> Result<BTreeSet<&'t [u8]>, NoMemory>
    ensures { IfOk result (λ found. (q : List ℕ) → met found q ≡ list_any (has_name (N.name named.now) q) xs.now) }
{
    let mut found = BTreeSet::new(alloc);
    for x in xs {
        meet_any(&mut found, named.name_of(x))?;
    }
    Ok(found)
}

// ---- things that list names

/// Things that list names.
pub trait Lists<T> {
    ghost use Rattle.std.specs.Prelude.{List};
    ghost use Rattle.tie_grammar.specs.declared.symbol.Leaf.{Leaf};

    ghost leaves: { Self → T → List Leaf };

    fn leaves_of<'t>(&self, x: &'t T) -> &'t [Leaf]
        ensures { result.now ≡ leaves self.now x.now };
}

/// A rule that looks at which names are listed before a thing.
pub trait JudgeLists<T> {
    ghost use Rattle.std.specs.Prelude.{List, ℕ, Bool};
    ghost use Rattle.tie_grammar.specs.declared.symbol.Leaf.{Leaf};

    ghost leaves: { Self → T → List Leaf };

    ghost places: { Self → (List ℕ → Bool) → T → List ℕ };

    fn leaves_of<'t>(&self, x: &'t T) -> &'t [Leaf]
        ensures { result.now ≡ leaves self.now x.now };

    fn judge(&self, alloc: Global, before: &BTreeSet<&[u8]>, x: &T) -> Result<Option<u32>, NoMemory>
        ensures { IfOk result (λ place. place ≡ spec.least (places self.now (met before.now) x.now)) };
}

/// Names that join a set.
fn meet_all<'t>(before: &mut BTreeSet<&'t [u8]>, leaves: &'t [Leaf]) -> Result<(), NoMemory>
    ensures { OnOk result ((q : List ℕ) → met before.new q ≡ (listed q leaves.now || met before.old q)) }
{
    for leaf in leaves {
        meet(before, leaf)?;
    }
    Ok(())
}

/// All names that some things list.
pub fn leaves_in<'t, T, L: Lists<T>>(
    alloc: Global,
    lists: &L,
    xs: &'t [T],
) -> Result<BTreeSet<&'t [u8]>, NoMemory>
    ensures { IfOk result (λ found. (q : List ℕ) → met found q ≡ list_any (lists_name (L.leaves lists.now) q) xs.now) }
{
    let mut found = BTreeSet::new(alloc);
    for x in xs {
        meet_all(&mut found, lists.leaves_of(x))?;
    }
    Ok(found)
}

/// The least place at which some things break a rule that looks at which names are listed before each.
pub fn least_lists<T, R: JudgeLists<T>>(
    alloc: Global,
    rule: &R,
    xs: &[T],
) -> Result<Option<u32>, NoMemory>
    ensures { IfOk result (λ place. place ≡ spec.least (spec.behind (at_lists (R.leaves rule.now) (R.places rule.now)) xs.now)) }
{
    let mut before = BTreeSet::new(alloc);
    let mut found = None;
    for x in xs {
        let place = rule.judge(alloc, &before, x)?;
        found = earlier(found, place);
        meet_all(&mut before, rule.leaves_of(x))?;
    }
    Ok(found)
}

/// Names that stand a second time in a list, or are met already.
#[derive(Clone, Copy)]
struct LeafAgain<'a, 'b> {
    before: &'a BTreeSet<&'b [u8]>,
}

impl JudgeAgain<Leaf> for LeafAgain<'_, '_> {
    ghost use Rattle.std.specs.Prelude.{Some, ◌||◌};
    ghost use Rattle.tie_mean.specs.Kept.{met};
    ghost use Rattle.tie_rules.specs.Least.{when};

    ghost name = { λ _ leaf. Some leaf };

    ghost places = { λ s again leaf. when (again || met s.before.now leaf.bytes) leaf.place };

    fn name_of<'t>(&self, leaf: &'t Leaf) -> Option<&'t Leaf> {
        Some(leaf)
    }

    fn judge(&self, again: bool, leaf: &Leaf) -> Option<u32> {
        when(again || is_met(self.before, leaf), leaf.place)
    }
}

/// The least place of a name that stands a second time in a list, or is met already.
pub fn leaves_again(
    alloc: Global,
    before: &BTreeSet<&[u8]>,
    leaves: &[Leaf],
) -> Result<Option<u32>, NoMemory>
    ensures { IfOk result (λ place. place ≡ spec.least (spec.behind (leaf_again (met before.now)) leaves.now)) }
{
    least_again(alloc, &LeafAgain { before }, leaves)
}
