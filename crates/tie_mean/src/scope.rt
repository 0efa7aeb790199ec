//! What the names of a body count.

ghost use Rattle.std.specs.Prelude.{◌≡◌, ◌+◌, ◌<◌, ◌≤◌, length, drop, map, IfOk, slice_get, unwrap_or};
ghost use Rattle.tie_mean.specs.Names as names;
ghost use Rattle.tie_mean.specs.Counts as spec;
ghost use Rattle.tie_mean.specs.CountScope as scope;

use crate::count::{NameCounts, bounded_count};
use crate::kept::kept;
use crate::names::{has, is_named};
use std::collections::BTreeMap;
use tie_grammar::symbol::Leaf;
use tie_grammar::tree::{Item, Tree};

/// What a call of a function counts besides its arguments, and how often each argument counts.
#[derive(Drop)]
pub struct FunctionCount<'t> {
    pub name: &'t Leaf,
    pub call: u32,
    pub times: Vec<u32>,
}

/// Counts behind the first items of a body.
#[derive(Clone, Copy)]
pub struct CountScope<'a, 't> {
    /// What is counted: all nodes, or the reads of one parameter.
    pub what: Option<&'t Leaf>,
    pub tree: &'t Tree,
    /// So many declarations are seen.
    pub declarations: usize,
    pub functions: &'a [FunctionCount<'t>],
    /// The names of the tables of the text.
    pub tables: &'a [&'t Leaf],
    pub inputs: &'a [&'t Leaf],
    pub items: &'t [Item],
    /// So many items are behind.
    pub behind: usize,
    /// The counts of what names are last set to by those items.
    pub counts: &'a BTreeMap<&'t [u8], u32>,
}

/// What a call of a function counts besides its arguments.
fn call_in(functions: &[FunctionCount], name: &Leaf) -> u32
    ensures { result ≡ scope.call_in functions.now name.now.bytes 1 }
{
    let mut found = 1;
    for function in functions {
        if is_named(name, function.name) {
            found = function.call;
        }
    }
    found
}

/// The number at a place, 1 beyond.
fn times_at(times: &[u32], at: usize) -> u32
    ensures { result ≡ unwrap_or (slice_get times.now at) 1 }
{
    times.get(at).copied().unwrap_or(1)
}

/// How often the argument of a number counts.
fn times_in(functions: &[FunctionCount], name: &Leaf, number: usize) -> u32
    ensures { result ≡ scope.times_in functions.now name.now.bytes number 1 }
{
    let mut found = 1;
    for function in functions {
        if is_named(name, function.name) {
            found = times_at(&function.times, number);
        }
    }
    found
}

/// A name that nothing replaces.
fn lone_name(what: Option<&Leaf>, name: &Leaf) -> u32
    ensures { result ≡ spec.lone_name (scope.counted_of what.entry) name.now.bytes }
{
    match what {
        None => 1,
        Some(parameter) => { if is_named(name, parameter) { 1 } else { 0 } }
    }
}

#[tactic(auto, using(crate::proofs::Tables::tables_stay))]
impl NameCounts for CountScope<'_, '_> {
    ghost use Rattle.tie_mean.specs.CountScope.{counts_in, IsRight};

    ghost counts = { counts_in };

    ghost right = { IsRight };

    fn nodes(&self, count: u32) -> u32 {
        match self.what {
            None => count,
            Some(_) => 0,
        }
    }

    fn name_count(&self, name: &Leaf) -> u32 {
        if has(self.inputs, name) {
            return lone_name(self.what, name);
        }
        match kept(self.counts, name) {
            Some(count) => bounded_count(self.nodes(1).saturating_add(count)),
            None => lone_name(self.what, name),
        }
    }

    fn call_count(&self, name: &Leaf) -> u32 {
        bounded_count(self.nodes(call_in(self.functions, name)))
    }

    fn times(&self, name: &Leaf, number: usize) -> u32 {
        times_in(self.functions, name, number)
    }

    fn is_table(&self, name: &Leaf) -> bool {
        has(self.tables, name)
    }
}
