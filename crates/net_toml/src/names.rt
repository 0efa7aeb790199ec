//! Names: each is a word, and no two of a kind are the same.

ghost use Rattle.std.specs.Prelude.{◌≡◌, ◌++◌, ◌∷◌, [], IfOk, not, codes, string_bytes, if◌then◌else◌};
ghost use Rattle.std.specs.List.{list_any};
ghost use Rattle.std.specs.Str.{bytes_eq};
ghost use Rattle.toml.specs.Data.{get_member};
ghost use Rattle.toml.specs.View.{table_view};
ghost use Rattle.net_toml.specs.Broken.{Gives};
ghost use Rattle.net_toml.specs.Names.{name_at};
ghost use Rattle.net_toml.specs.Earlier.{names_in};

use crate::keys::key_at;
use crate::refusal::{NetRefusal, NetRule};
use crate::values::text_at;
use indexmap::IndexSet;
use std::alloc::{AllocFailed, Global};
use tie_desc::Name;
use toml::Table;

/// Adds a name at the end, unless it is there. Says whether it was added.
fn add(names: &mut IndexSet<String>, name: String) -> Result<bool, AllocFailed<String>>
    ensures added { IfOk result (λ added. names_in names.new ≡ (if added then names_in names.old ++ string_bytes name ∷ [] else names_in names.old)) }
    ensures new { IfOk result (λ added. added ≡ not (list_any (bytes_eq (string_bytes name)) (names_in names.old))) }
{
    let (_, added) = names.insert_full(name)?;
    Ok(added)
}

/// The name in a table at a place, which is then among the names.
pub fn name_at(
    alloc: Global,
    names: &mut IndexSet<String>,
    table: &Table,
    place: &str,
) -> Result<Name, NetRefusal>
    ensures value { Gives result (name_at (names_in names.old) (place.now ++ codes "name") (get_member (codes "name") (table_view table.now))) }
    ensures added { IfOk result (λ name. names_in names.new ≡ names_in names.old ++ name ∷ []) }
{
    let word = text_at(alloc, table, place, "name")?;
    let Some(name) = Name::new(word.as_bytes()) else {
        return Err(NetRefusal::Fault {
            rule: NetRule::Name,
            key: key_at(alloc, place, "name")?,
        });
    };
    if !add(names, String::from_str(alloc, word)?)? {
        return Err(NetRefusal::Fault {
            rule: NetRule::Name,
            key: key_at(alloc, place, "name")?,
        });
    }
    Ok(name)
}
