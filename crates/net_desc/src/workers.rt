//! The workers of a network with its plan and its kits.

ghost use Rattle.std.specs.Prelude.{◌≡◌, IfOk, length, map};
ghost use Rattle.net_desc.specs.Workers.{cores_with, source_parts, itemless};

use net_parts::{NetCollector, NetCore, NetSource};
use net_toml::{PlanCore, PlanSource, net_parts};
use std::alloc::{AllocError, Global};
use tie_desc::Kit;

fn core_with(core: &PlanCore, kit: Kit, text: Vec<u8>) -> NetCore
    ensures { result ≡ record { name = core.now.name; kit = kit; text = text; memory = core.now.memory; budget = core.now.budget; dump = core.now.dump } }
{
    NetCore {
        name: core.name,
        kit,
        text,
        memory: core.memory,
        budget: core.budget,
        dump: core.dump,
    }
}

/// The processors with their kits.
pub fn cores_of(
    alloc: Global,
    cores: &[PlanCore],
    kits: Vec<(Kit, Vec<u8>)>,
) -> Result<Vec<NetCore>, AllocError>
    requires { length kits.items ≡ length cores.now }
    ensures { IfOk result (λ v. v.items ≡ cores_with cores.now kits.items) }
{
    let mut made = Vec::new(alloc);
    for (kit, text) in kits {
        let core = core_with(&cores[made.len()], kit, text);
        made.push(core)?;
    }
    Ok(made)
}

/// The sources, without items.
pub fn sources_of(alloc: Global, sources: &[PlanSource]) -> Result<Vec<NetSource>, AllocError>
    ensures { IfOk result (λ v. map source_parts v.items ≡ map itemless sources.now) }
{
    let mut made = Vec::new(alloc);
    for source in sources {
        made.push(NetSource {
            name: source.name,
            items: Vec::new(alloc),
        })?;
    }
    Ok(made)
}

/// A copy of the collectors.
pub fn collectors_of(
    alloc: Global,
    collectors: &[NetCollector],
) -> Result<Vec<NetCollector>, AllocError>
    ensures { IfOk result (λ v. v.items ≡ collectors.now) }
{
    let mut made = Vec::new(alloc);
    for collector in collectors {
        made.push(NetCollector {
            name: collector.name,
            limit: collector.limit,
        })?;
    }
    Ok(made)
}
