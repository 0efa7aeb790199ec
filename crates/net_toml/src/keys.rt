//! Keys: how they are written, and which ones a table may have.

ghost use Rattle.std.specs.Prelude.{◌≡◌, ◌++◌, codes, List, [], ◌∷◌, IfOk, map, string_bytes};
ghost use Rattle.std.specs.List.{list_any};
ghost use Rattle.std.specs.Str.{bytes_eq};
ghost use Rattle.toml.specs.View.{table_view};
ghost use Rattle.net_toml.specs.Broken.{Gives};
ghost use Rattle.net_toml.specs.Names.{place_of, keys_in, no_other};

use crate::refusal::{NetRefusal, NetRule};
use crate::text::Text;
use std::alloc::{AllocError, Global};
use toml::Table;

/// A key of the table at a place.
pub fn key_at(alloc: Global, place: &str, key: &str) -> Result<Text, AllocError>
    ensures { IfOk result (λ text. text ≡ place.now ++ key.now) }
{
    Ok(Text::new(format!(in alloc; "{place}{key}")?))
}

/// What stands before the keys of a table of an array.
pub fn place_before(alloc: Global, array: &str, index: usize) -> Result<String, AllocError>
    ensures { IfOk result (λ place. string_bytes place ≡ place_of array.now index ++ codes ".") }
{
    format!(in alloc; "{array}[{index}].")
}

fn is_same(a: &str, b: &str) -> bool
    ensures { result ≡ bytes_eq a.now b.now }
{
    a == b
}

fn is_among(names: &[&str], key: &str) -> bool
    ensures { result ≡ list_any (bytes_eq key.now) (map (λ n. n.now) names.now) }
{
    for name in names {
        if is_same(key, name) {
            return true;
        }
    }
    false
}

/// Whether a table at a place has no key but the known ones.
pub fn no_other(alloc: Global, table: &Table, place: &str, known: &[&str]) -> Result<(), NetRefusal>
    ensures { Gives result (no_other (map (λ k. k.now) known.now) place.now (keys_in (table_view table.now))) }
{
    for key in table.keys() {
        if !is_among(known, key.as_str()) {
            return Err(NetRefusal::Fault {
                rule: NetRule::Key,
                key: key_at(alloc, place, key.as_str())?,
            });
        }
    }
    Ok(())
}
