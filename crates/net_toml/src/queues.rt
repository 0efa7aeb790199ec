//! The tables of queues.

ghost use Rattle.std.specs.Prelude.{◌≡◌, ◌++◌, codes, List, [], ◌∷◌, map, All, IfOk, length};
ghost use Rattle.toml.specs.Data.{get_member};
ghost use Rattle.toml.specs.View.{table_view};
ghost use Rattle.net_toml.specs.Broken.{Gives, GivesAs};
ghost use Rattle.net_toml.specs.Values.{natural_at};
ghost use Rattle.net_toml.specs.Limits.{is_capacity, Between};
ghost use Rattle.net_toml.specs.Earlier.{names_in};
ghost use Rattle.net_toml.specs.Tables.{queue_at};
ghost use Rattle.net_toml.specs.Walk.{each, queue_of, queue_names};

use crate::keys::{key_at, no_other, place_before};
use crate::names::name_at;
use crate::plan::PlanQueue;
use crate::refusal::{NetRefusal, NetRule};
use crate::values::{integer_at, owned_text_at};
use indexmap::IndexSet;
use std::alloc::Global;
use toml::Table;

fn capacity_at(alloc: Global, table: &Table, place: &str) -> Result<u32, NetRefusal>
    ensures value { Gives result (natural_at is_capacity (place.now ++ codes "capacity") (get_member (codes "capacity") (table_view table.now))) }
    ensures within { IfOk result (Between 1 4096) }
{
    let items = integer_at(alloc, table, place, "capacity")?;
    match u32::try_from(items) {
        Ok(n) if 1 <= n && n <= 4096 => Ok(n),
        _ => Err(NetRefusal::Fault {
            rule: NetRule::Range,
            key: key_at(alloc, place, "capacity")?,
        }),
    }
}

/// A queue, whose name is then among the names.
#[tactic(auto, unfolding(crate::specs::Tables::queue_at))]
fn queue_at(
    alloc: Global,
    names: &mut IndexSet<String>,
    index: usize,
    table: &Table,
) -> Result<PlanQueue, NetRefusal>
    ensures value { Gives result (queue_at (names_in names.old) index (table_view table.now)) }
    ensures added { IfOk result (λ queue. names_in names.new ≡ names_in names.old ++ queue.name ∷ []) }
    ensures within { IfOk result (λ queue. Between 1 4096 queue.capacity) }
{
    let place = place_before(alloc, "queue", index)?;
    let place = place.as_str();
    let name = name_at(alloc, names, table, place)?;
    let capacity = capacity_at(alloc, table, place)?;
    let from = owned_text_at(alloc, table, place, "from")?;
    let to = owned_text_at(alloc, table, place, "to")?;
    no_other(alloc, table, place, &["name", "capacity", "from", "to"])?;
    Ok(PlanQueue {
        name,
        capacity,
        from,
        to,
    })
}

/// The queues.
pub fn queues_in(
    alloc: Global,
    names: &mut IndexSet<String>,
    tables: &[&Table],
) -> Result<Vec<PlanQueue>, NetRefusal>
    requires { names_in names.old ≡ [] }
    ensures value { GivesAs (λ v. v.items) result (each queue_of [] (map (λ t. table_view t.now) tables.now)) }
    ensures count { IfOk result (λ v. length v.items ≡ length tables.now) }
    ensures within { IfOk result (λ v. All (λ q. Between 1 4096 q.capacity) v.items) }
{
    let mut queues = Vec::new(alloc);
    for table in tables {
        let queue = queue_at(alloc, names, queues.len(), table)?;
        queues.push(queue)?;
    }
    Ok(queues)
}
