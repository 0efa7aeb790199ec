//! A plan with its kits as a network.

ghost use Rattle.std.specs.Prelude.{◌≡◌, ◌≤◌, IfOk, length};
ghost use Rattle.net_toml.specs.net_parts.Network.{IsNet};
ghost use Rattle.net_toml.specs.Broken.{GivesAs};
ghost use Rattle.net_toml.specs.Limits.{IsPlan};
ghost use Rattle.net_desc.specs.Workers.{AreKitsOf, HasWorkers, cores_with};
ghost use Rattle.net_desc.specs.Wiring.{wiring};

use crate::queues::queues_of;
use crate::wired::all_wired;
use crate::workers::{collectors_of, cores_of, sources_of};
use net_parts::{Net, NetCore, NetQueue};
use net_toml::{NetPlan, NetRefusal, net_parts};
use std::alloc::Global;
use tie_desc::Kit;

#[tactic(auto, unfolding(crate::specs::Wiring::wiring))]
fn wired_queues(
    alloc: Global,
    cores: &[NetCore],
    plan: &NetPlan,
) -> Result<Vec<NetQueue>, NetRefusal>
    requires cores { length cores.now ≤ 256 }
    requires sources { length plan.now.sources ≤ 256 }
    requires collectors { length plan.now.collectors ≤ 256 }
    ensures { GivesAs (λ v. v.items) result (wiring cores.now plan.now) }
{
    let queues = queues_of(alloc, cores, plan)?;
    all_wired(alloc, cores, plan, queues.as_slice())?;
    Ok(queues)
}

/// The network of a plan with a kit for each of its processors and the text of the kit's program, or the first rule that
/// the wiring breaks, with its key: `End`, `Twice`, `Width`, then `Unwired`. Its sources have no items yet. On a refusal
/// the kits are dropped.
pub fn wire(alloc: Global, plan: &NetPlan, kits: Vec<(Kit, Vec<u8>)>) -> Result<Net, NetRefusal>
    requires plan { IsPlan plan.now }
    requires kits { AreKitsOf plan.now.cores kits.items }
    ensures queues { GivesAs (λ net. net.queues.items) result (wiring (cores_with plan.now.cores kits.items) plan.now) }
    ensures workers { IfOk result (HasWorkers plan.now kits.items) }
    ensures network { IfOk result IsNet }
{
    let cores = cores_of(alloc, plan.cores.as_slice(), kits)?;
    let sources = sources_of(alloc, plan.sources.as_slice())?;
    let collectors = collectors_of(alloc, plan.collectors.as_slice())?;
    let queues = wired_queues(alloc, cores.as_slice(), plan)?;
    Ok(Net {
        kill: plan.kill,
        cores,
        sources,
        collectors,
        queues,
    })
}
