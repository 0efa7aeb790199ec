//! Whether each end of a worker has a queue.

ghost use Rattle.std.specs.Prelude.{◌≡◌, ◌++◌, codes, IfOk};
ghost use Rattle.net_toml.specs.Broken.{Gives};
ghost use Rattle.net_toml.specs.Names.{place_of};
ghost use Rattle.net_desc.specs.Wiring.{each_number, port_key, input_wired, output_wired, core_wired, source_wired, collector_wired, all_wired};

use crate::ports::{has_collector, has_input, has_output, has_source};
use net_parts::{NetCollector, NetCore, NetQueue};
use net_toml::{NetPlan, NetRefusal, NetRule, PlanSource, Text, net_parts};
use std::alloc::{AllocError, Global};
use tie_desc::QueueDecl;

/// The key of a worker of an array.
fn worker_key(alloc: Global, array: &str, index: usize) -> Result<Text, AllocError>
    ensures { IfOk result (λ text. text ≡ place_of array.now index) }
{
    Ok(Text::new(format!(in alloc; "{array}[{index}]")?))
}

/// The key of a queue of a processor.
fn port_key(alloc: Global, core: usize, queue: &QueueDecl) -> Result<Text, AllocError>
    ensures { IfOk result (λ text. text ≡ port_key core queue.now) }
{
    let name = queue.name.as_str();
    Ok(Text::new(format!(in alloc; "core[{core}].{name}")?))
}

fn inputs_wired(
    alloc: Global,
    queues: &[NetQueue],
    core: usize,
    ports: &[QueueDecl],
) -> Result<(), NetRefusal>
    ensures { Gives result (each_number (input_wired queues.now core) 0 ports.now) }
{
    for (i, port) in ports.iter().enumerate() {
        if !has_input(queues, core, i) {
            return Err(NetRefusal::Fault {
                rule: NetRule::Unwired,
                key: port_key(alloc, core, port)?,
            });
        }
    }
    Ok(())
}

fn outputs_wired(
    alloc: Global,
    queues: &[NetQueue],
    core: usize,
    ports: &[QueueDecl],
) -> Result<(), NetRefusal>
    ensures { Gives result (each_number (output_wired queues.now core) 0 ports.now) }
{
    for (o, port) in ports.iter().enumerate() {
        if !has_output(queues, core, o) {
            return Err(NetRefusal::Fault {
                rule: NetRule::Unwired,
                key: port_key(alloc, core, port)?,
            });
        }
    }
    Ok(())
}

fn core_wired(
    alloc: Global,
    queues: &[NetQueue],
    index: usize,
    core: &NetCore,
) -> Result<(), NetRefusal>
    ensures { Gives result (core_wired queues.now index core.now) }
{
    inputs_wired(alloc, queues, index, core.kit.desc.ins.as_slice())?;
    outputs_wired(alloc, queues, index, core.kit.desc.outs.as_slice())
}

fn cores_wired(alloc: Global, queues: &[NetQueue], cores: &[NetCore]) -> Result<(), NetRefusal>
    ensures { Gives result (each_number (core_wired queues.now) 0 cores.now) }
{
    for (c, core) in cores.iter().enumerate() {
        core_wired(alloc, queues, c, core)?;
    }
    Ok(())
}

fn sources_wired(
    alloc: Global,
    queues: &[NetQueue],
    sources: &[PlanSource],
) -> Result<(), NetRefusal>
    ensures { Gives result (each_number (source_wired queues.now) 0 sources.now) }
{
    for (s, _) in sources.iter().enumerate() {
        if !has_source(queues, s) {
            return Err(NetRefusal::Fault {
                rule: NetRule::Unwired,
                key: worker_key(alloc, "source", s)?,
            });
        }
    }
    Ok(())
}

fn collectors_wired(
    alloc: Global,
    queues: &[NetQueue],
    collectors: &[NetCollector],
) -> Result<(), NetRefusal>
    ensures { Gives result (each_number (collector_wired queues.now) 0 collectors.now) }
{
    for (k, _) in collectors.iter().enumerate() {
        if !has_collector(queues, k) {
            return Err(NetRefusal::Fault {
                rule: NetRule::Unwired,
                key: worker_key(alloc, "collector", k)?,
            });
        }
    }
    Ok(())
}

/// Whether each end of a worker has a queue, or the first that has none.
#[tactic(auto, unfolding(crate::specs::Wiring::all_wired))]
pub fn all_wired(
    alloc: Global,
    cores: &[NetCore],
    plan: &NetPlan,
    queues: &[NetQueue],
) -> Result<(), NetRefusal>
    ensures { Gives result (all_wired cores.now plan.now queues.now) }
{
    cores_wired(alloc, queues, cores)?;
    sources_wired(alloc, queues, plan.sources.as_slice())?;
    collectors_wired(alloc, queues, plan.collectors.as_slice())
}
