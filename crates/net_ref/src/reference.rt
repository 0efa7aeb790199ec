//! The two references.

ghost use Rattle.std.specs.Prelude.{IfOk, OnOk};
ghost use Rattle.net_parts.specs.Network.{IsNet};
ghost use Rattle.net_ref.specs.Ports.{ArePorts};
ghost use Rattle.net_ref.specs.Reference.{IsReference, IsStop, IsStrict, IsWhole, rounds_of};
ghost use Rattle.net_ref.specs.Shown.{IsAtStop, IsRun, Shows};

use crate::ends::run_end;
use crate::ports::{Ports, ports_of};
use crate::rounds::round;
use crate::running::{Run, first_run};
use net_parts::{Net, RunEnd};
use std::alloc::Global;
use xt_exec::NoMemory;

/// Within so many rounds each network of the limits stops: 32 workers move 2^30 times each at most.
const MOST_ROUNDS: u64 = 0x8_0000_0001;

/// Goes on round by round until nobody moves.
fn go_to_stop(net: &Net, ports: &Ports, run: &mut Run, bounded: bool) -> Result<(), NoMemory>
    requires net { IsNet net.now }
    requires ports { ArePorts net.now ports.now }
    requires whole { IsRun net.now run.old }
    requires first { Shows net.now (rounds_of bounded net.now 0) run.old }
    ensures whole { OnOk result (IsRun net.now run.new) }
    ensures stop { OnOk result (IsAtStop bounded net.now run.new) }
{
    for _ in 0..MOST_ROUNDS {
        if !round(net, ports, run, bounded)? {
            return Ok(());
        }
    }
    unreachable!()
}

fn run_to_stop(alloc: Global, net: &Net, bounded: bool) -> Result<RunEnd, NoMemory>
    requires { IsNet net.now }
    ensures stop { IfOk result (IsStop bounded net.now) }
    ensures whole { IfOk result (IsWhole net.now) }
{
    let ports = ports_of(alloc, net)?;
    let mut run = first_run(alloc, net)?;
    go_to_stop(net, &ports, &mut run, bounded)?;
    run_end(alloc, net, run)
}

/// Runs a network in rounds with queues that have no bound, to the round that moves nobody. In a round each processor,
/// then each source, then each collector takes one bundle, push or consumption where it can, and sees what those before
/// it did. Histories and collected values are all that grows.
pub fn ref_run(alloc: Global, net: &Net) -> Result<RunEnd, NoMemory>
    requires { IsNet net.now }
    ensures stop { IfOk result (IsReference net.now) }
    ensures whole { IfOk result (IsWhole net.now) }
{
    run_to_stop(alloc, net, false)
}

/// The same with queues that have capacities: a worker moves only where each queue that it pushes holds fewer items than
/// its capacity.
pub fn strict_run(alloc: Global, net: &Net) -> Result<RunEnd, NoMemory>
    requires { IsNet net.now }
    ensures stop { IfOk result (IsStrict net.now) }
    ensures whole { IfOk result (IsWhole net.now) }
{
    run_to_stop(alloc, net, true)
}
