//! The queues of a plan in their order.

ghost use Rattle.std.specs.Prelude.{◌≡◌, ◌++◌, ◌≤◌, codes, [], IfOk, length};
ghost use Rattle.net_toml.specs.Broken.{Gives, GivesAs};
ghost use Rattle.net_toml.specs.Names.{place_of};
ghost use Rattle.net_toml.specs.Walk.{each};
ghost use Rattle.net_desc.specs.Wiring.{queue_of};

use crate::ends::{from_end, to_end};
use crate::ports::{is_from_taken, is_to_taken, joins, same_width};
use net_parts::{NetCore, NetQueue};
use net_toml::{NetPlan, NetRefusal, NetRule, PlanQueue, Text, net_parts};
use std::alloc::{AllocError, Global};

/// The key of a queue, and what stands behind it.
fn queue_key(alloc: Global, index: usize, behind: &str) -> Result<Text, AllocError>
    ensures { IfOk result (λ text. text ≡ place_of (codes "queue") index ++ behind.now) }
{
    Ok(Text::new(format!(in alloc; "queue[{index}]{behind}")?))
}

/// A queue behind others.
#[tactic(auto, unfolding(crate::specs::Wiring::queue_of))]
fn queue_of(
    alloc: Global,
    cores: &[NetCore],
    plan: &NetPlan,
    before: &[NetQueue],
    queue: &PlanQueue,
) -> Result<NetQueue, NetRefusal>
    requires cores { length cores.now ≤ 256 }
    requires sources { length plan.now.sources ≤ 256 }
    requires collectors { length plan.now.collectors ≤ 256 }
    ensures { Gives result (queue_of cores.now plan.now before.now queue.now) }
{
    let index = before.len();
    let Some(from) = from_end(cores, plan, queue.from.as_str()) else {
        return Err(NetRefusal::Fault {
            rule: NetRule::End,
            key: queue_key(alloc, index, ".from")?,
        });
    };
    if is_from_taken(before, from) {
        return Err(NetRefusal::Fault {
            rule: NetRule::Twice,
            key: queue_key(alloc, index, ".from")?,
        });
    }
    let Some(to) = to_end(cores, plan, queue.to.as_str()) else {
        return Err(NetRefusal::Fault {
            rule: NetRule::End,
            key: queue_key(alloc, index, ".to")?,
        });
    };
    if !joins(from, to) {
        return Err(NetRefusal::Fault {
            rule: NetRule::End,
            key: queue_key(alloc, index, ".to")?,
        });
    }
    if is_to_taken(before, to) {
        return Err(NetRefusal::Fault {
            rule: NetRule::Twice,
            key: queue_key(alloc, index, ".to")?,
        });
    }
    if !same_width(cores, from, to) {
        return Err(NetRefusal::Fault {
            rule: NetRule::Width,
            key: queue_key(alloc, index, "")?,
        });
    }
    Ok(NetQueue {
        name: queue.name,
        capacity: queue.capacity,
        from,
        to,
    })
}

/// The queues of a plan, or the first rule that one breaks.
pub fn queues_of(
    alloc: Global,
    cores: &[NetCore],
    plan: &NetPlan,
) -> Result<Vec<NetQueue>, NetRefusal>
    requires cores { length cores.now ≤ 256 }
    requires sources { length plan.now.sources ≤ 256 }
    requires collectors { length plan.now.collectors ≤ 256 }
    ensures { GivesAs (λ v. v.items) result (each (queue_of cores.now plan.now) [] plan.now.queues) }
{
    let mut queues = Vec::new(alloc);
    for queue in plan.queues.as_slice() {
        let next = queue_of(alloc, cores, plan, queues.as_slice(), queue)?;
        queues.push(next)?;
    }
    Ok(queues)
}
