//! Names that are kept in sets, and values that are kept by names.

ghost use Rattle.std.specs.Prelude.{◌≡◌, ℕ, ◌||◌, List, Option, IfOk, OnOk, Some, None, if◌then◌else◌};
ghost use Rattle.std.specs.Str.{bytes_eq};
ghost use Rattle.tie_mean.specs.Kept as spec;

use crate::memory::NoMemory;
use std::collections::{BTreeMap, BTreeSet};
use tie_grammar::symbol::Leaf;

/// Whether a name is in the set.
pub fn is_met(names: &BTreeSet<&[u8]>, name: &Leaf) -> bool
    ensures { result ≡ spec.met names.now name.now.bytes }
{
    names.contains(name.bytes.as_slice())
}

/// Whether a name was in the set; it is from now on.
pub fn meet<'t>(names: &mut BTreeSet<&'t [u8]>, leaf: &'t Leaf) -> Result<bool, NoMemory>
    ensures again { IfOk result (λ again. again ≡ spec.met names.old leaf.now.bytes) }
    ensures met { OnOk result ((q : List ℕ) → spec.met names.new q ≡ (bytes_eq leaf.now.bytes q || spec.met names.old q)) }
{
    let added = names.insert(leaf.bytes.as_slice())?;
    Ok(!added)
}

/// What is kept for a name, where anything is.
pub fn kept<V: Copy>(values: &BTreeMap<&[u8], V>, name: &Leaf) -> Option<V>
    ensures { result ≡ spec.kept values.now name.now.bytes }
{
    values.get(name.bytes.as_slice()).copied()
}

/// Keeps a value for a name, in place of what was kept for it.
pub fn keep<'t, V: Copy>(
    values: &mut BTreeMap<&'t [u8], V>,
    leaf: &'t Leaf,
    value: V,
) -> Result<(), NoMemory>
    ensures { OnOk result ((q : List ℕ) → spec.kept values.new q ≡ (if bytes_eq leaf.now.bytes q then Some value else spec.kept values.old q)) }
{
    values.insert(leaf.bytes.as_slice(), value)?;
    Ok(())
}

/// Keeps a value for a name, unless one is kept for it.
pub fn keep_first<'t, V: Copy>(
    values: &mut BTreeMap<&'t [u8], V>,
    leaf: &'t Leaf,
    value: V,
) -> Result<(), NoMemory>
    ensures { OnOk result ((q : List ℕ) → spec.kept values.new q ≡ spec.first_of_two (spec.kept values.old q) (if bytes_eq leaf.now.bytes q then Some value else None)) }
{
    match kept(values, leaf) {
        Some(_) => Ok(()),
        None => keep(values, leaf, value),
    }
}
