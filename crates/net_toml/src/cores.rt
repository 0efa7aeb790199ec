//! The tables of processors.

ghost use Rattle.std.specs.Prelude.{◌≡◌, ◌++◌, codes, [], ◌∷◌, map, All, IfOk, length};
ghost use Rattle.toml.specs.Data.{get_member};
ghost use Rattle.toml.specs.View.{table_view};
ghost use Rattle.net_toml.specs.Broken.{Gives, GivesAs};
ghost use Rattle.net_toml.specs.Values.{natural_or};
ghost use Rattle.net_toml.specs.Limits.{is_memory, is_budget, IsMemory, Between, IsCorePlan};
ghost use Rattle.net_toml.specs.Earlier.{names_in};
ghost use Rattle.net_toml.specs.Tables.{core_at};
ghost use Rattle.net_toml.specs.Walk.{each, core_of, core_names};

use crate::keys::{key_at, no_other, place_before};
use crate::names::name_at;
use crate::plan::PlanCore;
use crate::refusal::{NetRefusal, NetRule};
use crate::values::{dump_at, integer_or, optional_text_at, owned_text_at};
use indexmap::IndexSet;
use std::alloc::Global;
use toml::Table;

fn memory_at(alloc: Global, table: &Table, place: &str) -> Result<u32, NetRefusal>
    ensures value { Gives result (natural_or 65536 is_memory (place.now ++ codes "memory") (get_member (codes "memory") (table_view table.now))) }
    ensures within { IfOk result IsMemory }
{
    let size = integer_or(alloc, 65_536, table, place, "memory")?;
    match u32::try_from(size) {
        Ok(n) if 64 <= n && n <= 1_048_576 && n % 4 == 0 => Ok(n),
        _ => Err(NetRefusal::Fault {
            rule: NetRule::Range,
            key: key_at(alloc, place, "memory")?,
        }),
    }
}

fn budget_at(alloc: Global, table: &Table, place: &str) -> Result<u32, NetRefusal>
    ensures value { Gives result (natural_or 1000000 is_budget (place.now ++ codes "budget") (get_member (codes "budget") (table_view table.now))) }
    ensures within { IfOk result (Between 1 1073741824) }
{
    let bundles = integer_or(alloc, 1_000_000, table, place, "budget")?;
    match u32::try_from(bundles) {
        Ok(n) if 1 <= n && n <= 1_073_741_824 => Ok(n),
        _ => Err(NetRefusal::Fault {
            rule: NetRule::Range,
            key: key_at(alloc, place, "budget")?,
        }),
    }
}

/// A processor, whose name is then among the names.
#[tactic(auto, unfolding(crate::specs::Tables::core_at))]
fn core_at(
    alloc: Global,
    names: &mut IndexSet<String>,
    index: usize,
    table: &Table,
) -> Result<PlanCore, NetRefusal>
    ensures value { Gives result (core_at (names_in names.old) index (table_view table.now)) }
    ensures added { IfOk result (λ core. names_in names.new ≡ names_in names.old ++ core.name ∷ []) }
    ensures within { IfOk result IsCorePlan }
{
    let place = place_before(alloc, "core", index)?;
    let place = place.as_str();
    let name = name_at(alloc, names, table, place)?;
    let image = owned_text_at(alloc, table, place, "image")?;
    let tie = optional_text_at(alloc, table, place, "tie")?;
    let memory = memory_at(alloc, table, place)?;
    let budget = budget_at(alloc, table, place)?;
    let dump = dump_at(alloc, memory, table, place, "dump")?;
    no_other(
        alloc,
        table,
        place,
        &["name", "image", "tie", "memory", "budget", "dump"],
    )?;
    Ok(PlanCore {
        name,
        image,
        tie,
        memory,
        budget,
        dump,
    })
}

/// The processors, whose names are then the names.
pub fn cores_in(
    alloc: Global,
    names: &mut IndexSet<String>,
    tables: &[&Table],
) -> Result<Vec<PlanCore>, NetRefusal>
    requires { names_in names.old ≡ [] }
    ensures value { GivesAs (λ v. v.items) result (each core_of [] (map (λ t. table_view t.now) tables.now)) }
    ensures named { IfOk result (λ v. names_in names.new ≡ core_names v.items) }
    ensures count { IfOk result (λ v. length v.items ≡ length tables.now) }
    ensures within { IfOk result (λ v. All IsCorePlan v.items) }
{
    let mut cores = Vec::new(alloc);
    for table in tables {
        let core = core_at(alloc, names, cores.len(), table)?;
        cores.push(core)?;
    }
    Ok(cores)
}
