//! The tables of sources and of collectors.

ghost use Rattle.std.specs.Prelude.{◌≡◌, ◌++◌, codes, List, [], ◌∷◌, map, All, IfOk, length};
ghost use Rattle.toml.specs.Data.{get_member};
ghost use Rattle.toml.specs.View.{table_view};
ghost use Rattle.net_toml.specs.Broken.{Gives, GivesAs};
ghost use Rattle.net_toml.specs.Values.{natural_or};
ghost use Rattle.net_toml.specs.Limits.{is_limit, Between};
ghost use Rattle.net_toml.specs.Earlier.{names_in};
ghost use Rattle.net_toml.specs.Tables.{source_at, collector_at};
ghost use Rattle.net_toml.specs.Walk.{each, source_of, collector_of, source_names, collector_names};

use crate::keys::{key_at, no_other, place_before};
use crate::names::name_at;
use crate::plan::PlanSource;
use crate::refusal::{NetRefusal, NetRule};
use crate::values::{integer_or, owned_text_at};
use indexmap::IndexSet;
use net_parts::NetCollector;
use std::alloc::Global;
use toml::Table;

/// A source, whose name is then among the names.
#[tactic(auto, unfolding(crate::specs::Tables::source_at))]
fn source_at(
    alloc: Global,
    names: &mut IndexSet<String>,
    index: usize,
    table: &Table,
) -> Result<PlanSource, NetRefusal>
    ensures value { Gives result (source_at (names_in names.old) index (table_view table.now)) }
    ensures added { IfOk result (λ source. names_in names.new ≡ names_in names.old ++ source.name ∷ []) }
{
    let place = place_before(alloc, "source", index)?;
    let place = place.as_str();
    let name = name_at(alloc, names, table, place)?;
    let items = owned_text_at(alloc, table, place, "items")?;
    no_other(alloc, table, place, &["name", "items"])?;
    Ok(PlanSource { name, items })
}

/// The sources, whose names are then behind those before.
pub fn sources_in(
    alloc: Global,
    names: &mut IndexSet<String>,
    tables: &[&Table],
) -> Result<Vec<PlanSource>, NetRefusal>
    ensures value { GivesAs (λ v. v.items) result (each (source_of (names_in names.old)) [] (map (λ t. table_view t.now) tables.now)) }
    ensures named { IfOk result (λ v. names_in names.new ≡ names_in names.old ++ source_names v.items) }
    ensures count { IfOk result (λ v. length v.items ≡ length tables.now) }
{
    let mut sources = Vec::new(alloc);
    for table in tables {
        let source = source_at(alloc, names, sources.len(), table)?;
        sources.push(source)?;
    }
    Ok(sources)
}

fn limit_at(alloc: Global, table: &Table, place: &str) -> Result<u32, NetRefusal>
    ensures value { Gives result (natural_or 65536 is_limit (place.now ++ codes "limit") (get_member (codes "limit") (table_view table.now))) }
    ensures within { IfOk result (Between 1 262144) }
{
    let items = integer_or(alloc, 65_536, table, place, "limit")?;
    match u32::try_from(items) {
        Ok(n) if 1 <= n && n <= 262_144 => Ok(n),
        _ => Err(NetRefusal::Fault {
            rule: NetRule::Range,
            key: key_at(alloc, place, "limit")?,
        }),
    }
}

/// A collector, whose name is then among the names.
#[tactic(auto, unfolding(crate::specs::Tables::collector_at))]
fn collector_at(
    alloc: Global,
    names: &mut IndexSet<String>,
    index: usize,
    table: &Table,
) -> Result<NetCollector, NetRefusal>
    ensures value { Gives result (collector_at (names_in names.old) index (table_view table.now)) }
    ensures added { IfOk result (λ collector. names_in names.new ≡ names_in names.old ++ collector.name ∷ []) }
    ensures within { IfOk result (λ collector. Between 1 262144 collector.limit) }
{
    let place = place_before(alloc, "collector", index)?;
    let place = place.as_str();
    let name = name_at(alloc, names, table, place)?;
    let limit = limit_at(alloc, table, place)?;
    no_other(alloc, table, place, &["name", "limit"])?;
    Ok(NetCollector { name, limit })
}

/// The collectors.
pub fn collectors_in(
    alloc: Global,
    names: &mut IndexSet<String>,
    tables: &[&Table],
) -> Result<Vec<NetCollector>, NetRefusal>
    ensures value { GivesAs (λ v. v.items) result (each (collector_of (names_in names.old)) [] (map (λ t. table_view t.now) tables.now)) }
    ensures count { IfOk result (λ v. length v.items ≡ length tables.now) }
    ensures within { IfOk result (λ v. All (λ c. Between 1 262144 c.limit) v.items) }
{
    let mut collectors = Vec::new(alloc);
    for table in tables {
        let collector = collector_at(alloc, names, collectors.len(), table)?;
        collectors.push(collector)?;
    }
    Ok(collectors)
}
