//! Which queues of the network the ports of its workers are.

ghost use Rattle.std.specs.Prelude.{◌≡◌, ℕ, ◌<◌, ◌≤◌, IfOk, Some, length, map, slice_get, vec_len};
ghost use Rattle.std.specs.List.{range_with_len};
ghost use Rattle.net_parts.specs.Ends as ends;
ghost use Rattle.net_ref.specs.Workers.{collector_queue, input_queue, output_queue, source_queue};
ghost use Rattle.net_ref.specs.Ports.{AreCorePorts, ArePorts};

use net_parts::{FromEnd, Net, NetCore, ToEnd};
use std::alloc::Global;
use xt_exec::NoMemory;

/// The queues that a processor's input and output queues are, in declared order.
#[derive(Drop)]
pub struct CorePorts {
    pub ins: Vec<usize>,
    pub outs: Vec<usize>,
}

/// The queues of all processors; those that the sources write and the collectors read.
#[derive(Drop)]
pub struct Ports {
    pub cores: Vec<CorePorts>,
    pub sources: Vec<usize>,
    pub collectors: Vec<usize>,
}

fn is_input(c: usize, i: usize, to: ToEnd) -> bool
    ensures { result ≡ ends.is_input c i to }
{
    match to {
        ToEnd::Core { core, input } => core as usize == c && input as usize == i,
        ToEnd::Collector(_) => false,
    }
}

fn is_output(c: usize, o: usize, from: FromEnd) -> bool
    ensures { result ≡ ends.is_output c o from }
{
    match from {
        FromEnd::Core { core, out } => core as usize == c && out as usize == o,
        FromEnd::Source(_) => false,
    }
}

fn is_source(s: usize, from: FromEnd) -> bool
    ensures { result ≡ ends.is_source s from }
{
    match from {
        FromEnd::Core { .. } => false,
        FromEnd::Source(source) => source as usize == s,
    }
}

fn is_collector(k: usize, to: ToEnd) -> bool
    ensures { result ≡ ends.is_collector k to }
{
    match to {
        ToEnd::Core { .. } => false,
        ToEnd::Collector(collector) => collector as usize == k,
    }
}

/// The number of the queue that is an input queue of a processor; the number of queues where none is.
pub fn input_queue(net: &Net, c: usize, i: usize) -> usize
    ensures { result ≡ input_queue net.now c i }
{
    net.queues
        .as_slice()
        .iter()
        .take_while(|q| !is_input(c, i, q.to))
        .count()
}

/// The number of the queue that is an output queue of a processor; the number of queues where none is.
pub fn output_queue(net: &Net, c: usize, o: usize) -> usize
    ensures { result ≡ output_queue net.now c o }
{
    net.queues
        .as_slice()
        .iter()
        .take_while(|q| !is_output(c, o, q.from))
        .count()
}

/// The queue that a source writes.
fn source_queue(net: &Net, s: usize) -> usize
    ensures { result ≡ source_queue net.now s }
{
    net.queues
        .as_slice()
        .iter()
        .take_while(|q| !is_source(s, q.from))
        .count()
}

/// The number of the queue that a collector reads; the number of queues where none is.
pub fn collector_queue(net: &Net, k: usize) -> usize
    ensures { result ≡ collector_queue net.now k }
{
    net.queues
        .as_slice()
        .iter()
        .take_while(|q| !is_collector(k, q.to))
        .count()
}

fn input_queues(alloc: Global, net: &Net, c: usize, count: usize) -> Result<Vec<usize>, NoMemory>
    ensures { IfOk result (λ v. v.items ≡ map (input_queue net.now c) (range_with_len 0 count)) }
{
    let mut queues = Vec::new(alloc);
    for i in 0..count {
        queues.push(input_queue(net, c, i))?;
    }
    Ok(queues)
}

fn output_queues(alloc: Global, net: &Net, c: usize, count: usize) -> Result<Vec<usize>, NoMemory>
    ensures { IfOk result (λ v. v.items ≡ map (output_queue net.now c) (range_with_len 0 count)) }
{
    let mut queues = Vec::new(alloc);
    for o in 0..count {
        queues.push(output_queue(net, c, o))?;
    }
    Ok(queues)
}

fn source_queues(alloc: Global, net: &Net, count: usize) -> Result<Vec<usize>, NoMemory>
    ensures { IfOk result (λ v. v.items ≡ map (source_queue net.now) (range_with_len 0 count)) }
{
    let mut queues = Vec::new(alloc);
    for s in 0..count {
        queues.push(source_queue(net, s))?;
    }
    Ok(queues)
}

fn collector_queues(alloc: Global, net: &Net, count: usize) -> Result<Vec<usize>, NoMemory>
    ensures { IfOk result (λ v. v.items ≡ map (collector_queue net.now) (range_with_len 0 count)) }
{
    let mut queues = Vec::new(alloc);
    for k in 0..count {
        queues.push(collector_queue(net, k))?;
    }
    Ok(queues)
}

fn core_ports(alloc: Global, net: &Net, c: usize, core: &NetCore) -> Result<CorePorts, NoMemory>
    ensures { IfOk result (AreCorePorts net.now c core.now) }
{
    Ok(CorePorts {
        ins: input_queues(alloc, net, c, core.kit.desc.ins.len())?,
        outs: output_queues(alloc, net, c, core.kit.desc.outs.len())?,
    })
}

fn all_core_ports(alloc: Global, net: &Net) -> Result<Vec<CorePorts>, NoMemory>
    ensures len { IfOk result (λ v. vec_len v ≡ length net.now.cores.items) }
    ensures each { IfOk result (λ v. (c : ℕ) (core : _) (ports : _) → slice_get net.now.cores.items c ≡ Some core
        → slice_get v.items c ≡ Some ports → AreCorePorts net.now c core ports) }
{
    let mut all = Vec::new(alloc);
    for c in 0..net.cores.len() {
        all.push(core_ports(alloc, net, c, &net.cores[c])?)?;
    }
    Ok(all)
}

/// The queues of all ports of a network.
pub fn ports_of(alloc: Global, net: &Net) -> Result<Ports, NoMemory>
    ensures { IfOk result (ArePorts net.now) }
{
    Ok(Ports {
        cores: all_core_ports(alloc, net)?,
        sources: source_queues(alloc, net, net.sources.len())?,
        collectors: collector_queues(alloc, net, net.collectors.len())?,
    })
}
