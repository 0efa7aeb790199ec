//! Rounds.

ghost use Rattle.std.specs.Prelude.{◌≡◌, Bool, ◌+◌, ◌||◌, IfOk, OnOk};
ghost use Rattle.net_parts.specs.Network.{IsNet};
ghost use Rattle.net_ref.specs.Ports.{ArePorts};
ghost use Rattle.net_ref.specs.Shown.{ArePart, IsRun, Shows};
ghost use Rattle.net_ref.specs.Workers.{Nodes, collector_count, core_count, network, source_count};

use crate::ports::Ports;
use crate::running::Run;
use crate::turns::{turn_collector, turn_core, turn_source};
use net_parts::Net;
use xt_exec::NoMemory;

fn either(a: bool, b: bool) -> bool
    ensures { result ≡ (a || b) }
{
    a || b
}

fn turn_cores(net: &Net, ports: &Ports, run: &mut Run, bounded: bool) -> Result<bool, NoMemory>
    requires net { IsNet net.now }
    requires ports { ArePorts net.now ports.now }
    requires whole { IsRun net.now run.old }
    ensures whole { OnOk result (IsRun net.now run.new) }
    ensures part { IfOk result (λ moved. (nodes : Nodes) → Shows net.now nodes run.old
        → ArePart bounded net.now nodes (core_count net.now) moved run.new) }
{
    let mut moved = false;
    for c in 0..net.cores.len() {
        let went = turn_core(net, ports, run, c, bounded)?;
        moved = either(moved, went);
    }
    Ok(moved)
}

fn turn_sources(
    net: &Net,
    ports: &Ports,
    run: &mut Run,
    bounded: bool,
    before: bool,
) -> Result<bool, NoMemory>
    requires net { IsNet net.now }
    requires ports { ArePorts net.now ports.now }
    requires whole { IsRun net.now run.old }
    ensures whole { OnOk result (IsRun net.now run.new) }
    ensures part { IfOk result (λ moved. (nodes : Nodes) → ArePart bounded net.now nodes (core_count net.now) before run.old
        → ArePart bounded net.now nodes (core_count net.now + source_count net.now) moved run.new) }
{
    let mut moved = before;
    for s in 0..net.sources.len() {
        let went = turn_source(net, ports, run, s, bounded)?;
        moved = either(moved, went);
    }
    Ok(moved)
}

fn turn_collectors(net: &Net, ports: &Ports, run: &mut Run, before: bool) -> Result<bool, NoMemory>
    requires net { IsNet net.now }
    requires ports { ArePorts net.now ports.now }
    requires whole { IsRun net.now run.old }
    ensures whole { OnOk result (IsRun net.now run.new) }
    ensures part { IfOk result (λ moved. (bounded : Bool) (nodes : Nodes)
        → ArePart bounded net.now nodes (core_count net.now + source_count net.now) before run.old
        → ArePart bounded net.now nodes (core_count net.now + source_count net.now + collector_count net.now) moved run.new) }
{
    let mut moved = before;
    for k in 0..net.collectors.len() {
        let went = turn_collector(net, ports, run, k)?;
        moved = either(moved, went);
    }
    Ok(moved)
}

/// One round: the turns of all processors, then of all sources, then of all collectors; whether somebody moved.
pub fn round(net: &Net, ports: &Ports, run: &mut Run, bounded: bool) -> Result<bool, NoMemory>
    requires net { IsNet net.now }
    requires ports { ArePorts net.now ports.now }
    requires whole { IsRun net.now run.old }
    ensures whole { OnOk result (IsRun net.now run.new) }
    ensures round { IfOk result (λ moved. (nodes : Nodes) → Shows net.now nodes run.old
        → ArePart bounded net.now nodes (network net.now).workers moved run.new) }
{
    let cores = turn_cores(net, ports, run, bounded)?;
    let sources = turn_sources(net, ports, run, bounded, cores)?;
    turn_collectors(net, ports, run, sources)
}
