//! The network of one processor that stands alone.

ghost use Rattle.std.specs.Prelude.{◌≡◌, ◌++◌, ◌≤◌, codes, IfOk, OnOk, length, map};
ghost use Rattle.tie_desc.specs.Fetching.{IsImage};
ghost use Rattle.net_toml.specs.net_parts.Network.{IsNet};
ghost use Rattle.net_desc.specs.Workers.{source_parts};
ghost use Rattle.net_desc.specs.Alone.{alone_core, alone_source, alone_collector, alone_inputs, alone_outputs, IsAlone};

use net_parts::{FromEnd, Net, NetCollector, NetCore, NetQueue, NetSource, ToEnd};
use net_toml::net_parts;
use std::alloc::{AllocError, Global};
use tie_desc::{Kit, Name, QueueDecl};

fn main_name() -> Name
    ensures { result ≡ codes "main" }
{
    match Name::new(b"main") {
        Some(name) => name,
        None => unreachable!(),
    }
}

fn core(kit: Kit, text: Vec<u8>) -> NetCore
    ensures { result ≡ alone_core (kit, text) }
{
    NetCore {
        name: main_name(),
        kit,
        text,
        memory: 65_536,
        budget: 1_000_000,
        dump: None,
    }
}

fn sources(alloc: Global, ports: &[QueueDecl]) -> Result<Vec<NetSource>, AllocError>
    ensures { IfOk result (λ v. map source_parts v.items ≡ map alone_source ports.now) }
{
    let mut made = Vec::new(alloc);
    for port in ports {
        made.push(NetSource {
            name: port.name,
            items: Vec::new(alloc),
        })?;
    }
    Ok(made)
}

fn collectors(alloc: Global, ports: &[QueueDecl]) -> Result<Vec<NetCollector>, AllocError>
    ensures { IfOk result (λ v. v.items ≡ map alone_collector ports.now) }
{
    let mut made = Vec::new(alloc);
    for port in ports {
        made.push(NetCollector {
            name: port.name,
            limit: 262_144,
        })?;
    }
    Ok(made)
}

fn push_inputs(queues: &mut Vec<NetQueue>, ports: &[QueueDecl]) -> Result<(), AllocError>
    requires { length ports.now ≤ 256 }
    ensures { OnOk result (queues.new.items ≡ queues.old.items ++ alone_inputs 0 ports.now) }
{
    for (i, port) in ports.iter().enumerate() {
        queues.push(NetQueue {
            name: port.name,
            capacity: 1,
            from: FromEnd::Source(i as u8),
            to: ToEnd::Core {
                core: 0,
                input: i as u8,
            },
        })?;
    }
    Ok(())
}

fn push_outputs(queues: &mut Vec<NetQueue>, ports: &[QueueDecl]) -> Result<(), AllocError>
    requires { length ports.now ≤ 256 }
    ensures { OnOk result (queues.new.items ≡ queues.old.items ++ alone_outputs 0 ports.now) }
{
    for (o, port) in ports.iter().enumerate() {
        queues.push(NetQueue {
            name: port.name,
            capacity: 1,
            from: FromEnd::Core {
                core: 0,
                out: o as u8,
            },
            to: ToEnd::Collector(o as u8),
        })?;
    }
    Ok(())
}

/// The network of one processor, `main`, that stands alone: 65,536 bytes of memory, 1,000,000 bundles, each of its input
/// queues fed by a source without items, each of its output queues read by a collector. The image is that of the text.
pub fn alone(alloc: Global, kit: Kit, text: Vec<u8>) -> Result<Net, AllocError>
    requires image { IsImage kit.desc text.items kit.image.at }
    requires short { length text.items ≤ 65536 }
    ensures alone { IfOk result (IsAlone (kit, text)) }
    ensures network { IfOk result IsNet }
{
    kit.desc.facts();
    let sources = sources(alloc, kit.desc.ins.as_slice())?;
    let collectors = collectors(alloc, kit.desc.outs.as_slice())?;
    let mut queues = Vec::new(alloc);
    push_inputs(&mut queues, kit.desc.ins.as_slice())?;
    push_outputs(&mut queues, kit.desc.outs.as_slice())?;
    let cores = Vec::from_array(alloc, [core(kit, text)])?;
    Ok(Net {
        kill: 0,
        cores,
        sources,
        collectors,
        queues,
    })
}
