//! The walk over a network file.

ghost use Rattle.std.specs.Prelude.{◌≡◌, ◌++◌, ◌-◌, ◌+◌, ◌<◌, ◌≤◌, codes, List, [], ◌∷◌, map, All, IfOk, length};
ghost use Rattle.toml.specs.Data.{get_member};
ghost use Rattle.toml.specs.View.{table_view};
ghost use Rattle.net_toml.specs.Broken.{Gives, GivesAs};
ghost use Rattle.net_toml.specs.Values.{natural_or};
ghost use Rattle.net_toml.specs.Limits.{is_kill, IsKill, Between, IsCorePlan, IsPlan};
ghost use Rattle.net_toml.specs.Earlier.{names_in};
ghost use Rattle.net_toml.specs.Walk.{few_tables, version_of, cores_of, sources_of, collectors_of, queues_of, core_names, source_names, plan_of, plan_in};

use crate::cores::cores_in;
use crate::keys::{key_at, no_other};
use crate::plan::{NetPlan, PlanCore, PlanQueue, PlanSource};
use crate::queues::queues_in;
use crate::refusal::{NetRefusal, NetRule};
use crate::sources::{collectors_in, sources_in};
use crate::values::{integer_at, integer_or, tables_at};
use indexmap::IndexSet;
use net_parts::NetCollector;
use std::alloc::Global;
use tie_desc::Sequence;
use toml::Table;

#[tactic(auto, unfolding(crate::specs::Walk::version_of))]
fn version(alloc: Global, table: &Table) -> Result<u32, NetRefusal>
    ensures { Gives result (version_of (get_member (codes "version") (table_view table.now))) }
{
    let version = integer_at(alloc, table, "", "version")?;
    match u32::try_from(version) {
        Ok(n) if n == 1 => Ok(n),
        _ => Err(NetRefusal::Fault {
            rule: NetRule::Version,
            key: key_at(alloc, "", "version")?,
        }),
    }
}

fn kill_period(alloc: Global, table: &Table) -> Result<u32, NetRefusal>
    ensures value { Gives result (natural_or 0 is_kill (codes "kill") (get_member (codes "kill") (table_view table.now))) }
    ensures within { IfOk result IsKill }
{
    let period = integer_or(alloc, 0, table, "", "kill")?;
    match u32::try_from(period) {
        Ok(n) if n == 0 || (16 <= n && n <= 65_536) => Ok(n),
        _ => Err(NetRefusal::Fault {
            rule: NetRule::Range,
            key: key_at(alloc, "", "kill")?,
        }),
    }
}

/// The tables of the array at a key, of which there are so many at most.
fn few_tables<'a>(
    alloc: Global,
    table: &'a Table,
    key: &str,
    most: usize,
) -> Result<Vec<&'a Table>, NetRefusal>
    ensures value { GivesAs (λ v. map (λ t. table_view t.now) v.items) result (few_tables key.now most (get_member key.now (table_view table.now))) }
    ensures few { IfOk result (λ v. length v.items ≤ most) }
{
    let tables = tables_at(alloc, table, key)?;
    if tables.len() > most {
        return Err(NetRefusal::Fault {
            rule: NetRule::TooMany,
            key: key_at(alloc, "", key)?,
        });
    }
    Ok(tables)
}

#[tactic(auto, unfolding(crate::specs::Walk::cores_of))]
fn cores_of(
    alloc: Global,
    names: &mut IndexSet<String>,
    table: &Table,
) -> Result<Vec<PlanCore>, NetRefusal>
    requires { names_in names.old ≡ [] }
    ensures value { GivesAs (λ v. v.items) result (cores_of (get_member (codes "core") (table_view table.now))) }
    ensures named { IfOk result (λ v. names_in names.new ≡ core_names v.items) }
    ensures some { IfOk result (λ v. 0 < length v.items) }
    ensures few { IfOk result (λ v. length v.items ≤ 16) }
    ensures within { IfOk result (λ v. All IsCorePlan v.items) }
{
    let tables = few_tables(alloc, table, "core", 16)?;
    if tables.is_empty() {
        return Err(NetRefusal::Fault {
            rule: NetRule::Key,
            key: key_at(alloc, "", "core")?,
        });
    }
    cores_in(alloc, names, tables.as_slice())
}

#[tactic(auto, unfolding(crate::specs::Walk::sources_of))]
fn sources_of(
    alloc: Global,
    names: &mut IndexSet<String>,
    cores: &[PlanCore],
    table: &Table,
) -> Result<Vec<PlanSource>, NetRefusal>
    requires named { names_in names.old ≡ core_names cores.now }
    requires few { length cores.now ≤ 16 }
    ensures value { GivesAs (λ v. v.items) result (sources_of cores.now (get_member (codes "source") (table_view table.now))) }
    ensures named { IfOk result (λ v. names_in names.new ≡ core_names cores.now ++ source_names v.items) }
    ensures few { IfOk result (λ v. length cores.now + length v.items ≤ 32) }
{
    let tables = few_tables(alloc, table, "source", 32 - cores.len())?;
    sources_in(alloc, names, tables.as_slice())
}

#[tactic(auto, unfolding(crate::specs::Walk::collectors_of))]
fn collectors_of(
    alloc: Global,
    names: &mut IndexSet<String>,
    cores: &[PlanCore],
    sources: &[PlanSource],
    table: &Table,
) -> Result<Vec<NetCollector>, NetRefusal>
    requires named { names_in names.old ≡ core_names cores.now ++ source_names sources.now }
    requires few { length cores.now + length sources.now ≤ 32 }
    ensures value { GivesAs (λ v. v.items) result (collectors_of cores.now sources.now (get_member (codes "collector") (table_view table.now))) }
    ensures few { IfOk result (λ v. length cores.now + length sources.now + length v.items ≤ 32) }
    ensures within { IfOk result (λ v. All (λ c. Between 1 262144 c.limit) v.items) }
{
    let tables = few_tables(
        alloc,
        table,
        "collector",
        32 - (cores.len() + sources.len()),
    )?;
    collectors_in(alloc, names, tables.as_slice())
}

#[tactic(auto, unfolding(crate::specs::Walk::queues_of))]
fn queues_of(alloc: Global, table: &Table) -> Result<Vec<PlanQueue>, NetRefusal>
    ensures value { GivesAs (λ v. v.items) result (queues_of (get_member (codes "queue") (table_view table.now))) }
    ensures few { IfOk result (λ v. length v.items ≤ 64) }
    ensures within { IfOk result (λ v. All (λ q. Between 1 4096 q.capacity) v.items) }
{
    let tables = few_tables(alloc, table, "queue", 64)?;
    let mut names = IndexSet::new(alloc);
    queues_in(alloc, &mut names, tables.as_slice())
}

#[tactic(auto, unfolding(crate::specs::Walk::plan_of))]
fn plan_of(alloc: Global, table: &Table) -> Result<NetPlan, NetRefusal>
    ensures value { Gives result (plan_of (table_view table.now)) }
    ensures within { IfOk result IsPlan }
{
    version(alloc, table)?;
    let period = kill_period(alloc, table)?;
    let mut names = IndexSet::new(alloc);
    let cores = cores_of(alloc, &mut names, table)?;
    let sources = sources_of(alloc, &mut names, cores.as_slice(), table)?;
    let collectors = collectors_of(
        alloc,
        &mut names,
        cores.as_slice(),
        sources.as_slice(),
        table,
    )?;
    let queues = queues_of(alloc, table)?;
    no_other(
        alloc,
        table,
        "",
        &["version", "kill", "core", "source", "collector", "queue"],
    )?;
    Ok(NetPlan {
        kill: period,
        cores: Sequence::from_vec(cores),
        sources: Sequence::from_vec(sources),
        collectors: Sequence::from_vec(collectors),
        queues: Sequence::from_vec(queues),
    })
}

/// The plan that the bytes of a network file describe, or the first rule that is broken in the walk over its keys, with
/// the key: `Toml` at `text` where the bytes are no text in TOML. Takes time linear in the text and in the names.
pub fn read_net(alloc: Global, bytes: &[u8]) -> Result<NetPlan, NetRefusal>
    ensures value { Gives result (plan_in bytes.now) }
    ensures within { IfOk result IsPlan }
{
    let Ok(text) = str::from_utf8(bytes) else {
        return Err(NetRefusal::Fault {
            rule: NetRule::Toml,
            key: key_at(alloc, "", "text")?,
        });
    };
    match toml::table_from_str(alloc, text) {
        Ok(table) => plan_of(alloc, &table),
        Err(e) if e.is_memory() => Err(NetRefusal::NoMemory),
        Err(_) => Err(NetRefusal::Fault {
            rule: NetRule::Toml,
            key: key_at(alloc, "", "text")?,
        }),
    }
}
