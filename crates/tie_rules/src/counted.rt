//! Rules 3 and 4: how many declarations of a sort a text may have.

ghost use Rattle.std.specs.Prelude.{◌≡◌, ℕ, ◌+◌, ◌<◌, ◌^◌, ◌==◌, length, List, IfOk, OnOk, unwrap_or, if◌then◌else◌};
ghost use Rattle.std.specs.List.{count_by};
ghost use Rattle.tie_mean.specs.Sizes.{bounded};
ghost use Rattle.tie_rules.specs.Least as spec;
ghost use Rattle.tie_rules.specs.Declarations as rule;
ghost use Rattle.tie_rules.specs.Tallies as tally;

use crate::declarations::{at_name, value};
use crate::least::earlier;
use crate::names::{declared_name, is_operation};
use std::alloc::Global;
use std::collections::BTreeMap;
use tie_grammar::tree::{Decl, Tree};
use tie_mean::NoMemory;

/// A rule that looks at how many declarations of the same key stand before one.
trait JudgeCounted {
    ghost use Rattle.std.specs.Prelude.{List, ℕ, Option};
    ghost use Rattle.tie_grammar.specs.declared.tree.Decl.{Decl};

    ghost key: { Self → Decl → Option ℕ };

    ghost places: { Self → ℕ → Decl → List ℕ };

    fn key_of(&self, decl: &Decl) -> Option<u128>
        ensures { result ≡ key self.now decl.now };

    fn judge(&self, n: usize, decl: &Decl) -> Option<u32>
        ensures { result ≡ spec.least (places self.now n decl.now) };
}

/// How often a key was counted; it is counted once more.
fn count_key(counts: &mut BTreeMap<u128, usize>, key: u128) -> Result<usize, NoMemory>
    requires { tally.count_at counts.old key + 1 < 2 ^ 64 }
    ensures before { IfOk result (λ n. n ≡ tally.count_at counts.old key) }
    ensures after { OnOk result ((q : ℕ) → tally.count_at counts.new q ≡ (if q == key then tally.count_at counts.old q + 1 else tally.count_at counts.old q)) }
{
    let n = counts.get(&key).copied().unwrap_or(0);
    counts.insert(key, n + 1)?;
    Ok(n)
}

fn count_any(counts: &mut BTreeMap<u128, usize>, key: Option<u128>) -> Result<usize, NoMemory>
    requires { (q : ℕ) → tally.count_at counts.old q + 1 < 2 ^ 64 }
    ensures before { IfOk result (λ n. n ≡ tally.count_of (tally.count_at counts.old) key) }
    ensures after { OnOk result ((q : ℕ) → tally.count_at counts.new q ≡ (if tally.has_key q key then tally.count_at counts.old q + 1 else tally.count_at counts.old q)) }
{
    match key {
        Some(key) => count_key(counts, key),
        None => Ok(0),
    }
}

/// The least place at which declarations break a rule that counts those before each.
fn least_counted<R: JudgeCounted>(
    alloc: Global,
    rule: &R,
    decls: &[Decl],
) -> Result<Option<u32>, NoMemory>
    ensures { IfOk result (λ place. place ≡ spec.least (spec.behind (tally.at_count (R.key rule.now) (R.places rule.now)) decls.now)) }
{
    let mut counts = BTreeMap::new(alloc);
    let mut found = None;
    for decl in decls {
        let n = count_any(&mut counts, rule.key_of(decl))?;
        found = earlier(found, rule.judge(n, decl));
    }
    Ok(found)
}

fn is_full(limit: Option<usize>, n: usize) -> bool
    ensures { result ≡ rule.is_full limit n }
{
    match limit {
        Some(limit) => n == limit,
        None => false,
    }
}

// ---- 3

fn limit_of(decl: &Decl) -> Option<usize>
    ensures { result ≡ rule.limit_of decl.now }
{
    match decl {
        Decl::State(_) => Some(32),
        Decl::Regfile(_) => Some(8),
        Decl::QueueIn(_) => Some(8),
        Decl::QueueOut(_) => Some(8),
        Decl::Table(_) => Some(32),
        Decl::ImmediateRange(_) => Some(32),
        Decl::Function(_) => Some(64),
        Decl::Operation(_) => None,
        Decl::Schedule(_) => Some(64),
        Decl::Format(_) => Some(16),
        Decl::SlotOpcodes(_) => None,
    }
}

/// Declarations that are counted by their sort.
#[derive(Clone, Copy)]
struct BySort;

impl JudgeCounted for BySort {
    ghost use Rattle.tie_rules.specs.Tallies.{many_of_sort, sort_number};

    ghost key = { λ _. sort_number };

    ghost places = { λ _. many_of_sort };

    fn key_of(&self, decl: &Decl) -> Option<u128> {
        match decl {
            Decl::State(_) => Some(0),
            Decl::Regfile(_) => Some(1),
            Decl::QueueIn(_) => Some(2),
            Decl::QueueOut(_) => Some(3),
            Decl::Table(_) => Some(4),
            Decl::ImmediateRange(_) => Some(5),
            Decl::Function(_) => Some(6),
            Decl::Schedule(_) => Some(7),
            _ => None,
        }
    }

    fn judge(&self, n: usize, decl: &Decl) -> Option<u32> {
        match decl {
            Decl::Format(_) => None,
            _ => at_name(declared_name(decl), is_full(limit_of(decl), n)),
        }
    }
}

/// Formats, which are counted by their width.
#[derive(Clone, Copy)]
struct ByWidth;

impl JudgeCounted for ByWidth {
    ghost use Rattle.tie_rules.specs.Tallies.{format_width, many_of_width};

    ghost key = { λ _. format_width };

    ghost places = { λ _. many_of_width };

    fn key_of(&self, decl: &Decl) -> Option<u128> {
        match decl {
            Decl::Format(x) => Some(value(&x.width)),
            _ => None,
        }
    }

    fn judge(&self, n: usize, decl: &Decl) -> Option<u32> {
        match decl {
            Decl::Format(_) => at_name(declared_name(decl), n == 16),
            _ => None,
        }
    }
}

pub fn too_many(alloc: Global, tree: &Tree) -> Result<Option<u32>, NoMemory>
    ensures { IfOk result (λ place. place ≡ spec.least (rule.too_many tree.now)) }
{
    let decls = tree.declarations.as_slice();
    let sorts = least_counted(alloc, &BySort, decls)?;
    let formats = least_counted(alloc, &ByWidth, decls)?;
    Ok(earlier(sorts, formats))
}

// ---- 4

#[derive(Clone, Copy)]
struct Operations;

impl JudgeCounted for Operations {
    ghost use Rattle.tie_rules.specs.Tallies.{many_operations, operation_number};

    ghost key = { λ _. operation_number };

    ghost places = { λ _. many_operations };

    fn key_of(&self, decl: &Decl) -> Option<u128> {
        match decl {
            Decl::Operation(_) => Some(0),
            _ => None,
        }
    }

    fn judge(&self, n: usize, decl: &Decl) -> Option<u32> {
        at_name(declared_name(decl), is_operation(decl) && n == 32)
    }
}

pub fn too_many_opcodes(alloc: Global, tree: &Tree) -> Result<Option<u32>, NoMemory>
    ensures { IfOk result (λ place. place ≡ spec.least (rule.too_many_opcodes tree.now)) }
{
    least_counted(alloc, &Operations, tree.declarations.as_slice())
}
