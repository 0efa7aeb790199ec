//! What is reported at the end of a run.

ghost use Rattle.std.specs.Prelude.{◌≡◌, IfOk, map};
ghost use Rattle.net_ref.specs.Reference.{IsEnd, IsWhole};
ghost use Rattle.net_ref.specs.Shown.{AreMet, IsRun, Shows, end_of};
ghost use Rattle.net_ref.specs.Workers.{Nodes};

use crate::channel::Channel;
use crate::running::Run;
use net_parts::{Net, QueueEnd, RunEnd};
use std::alloc::Global;
use xt_exec::NoMemory;

fn queue_end(channel: &Channel) -> QueueEnd
    ensures { result ≡ end_of channel.now }
{
    QueueEnd {
        pushed: channel.history.len() as u64,
        consumed: channel.consumed as u64,
        held: 0,
    }
}

fn queue_ends(alloc: Global, channels: &[Channel]) -> Result<Vec<QueueEnd>, NoMemory>
    ensures { IfOk result (λ v. v.items ≡ map end_of channels.now) }
{
    Ok(channels.iter().map(queue_end).collect(alloc)?)
}

/// What is reported of a run that has stopped.
pub fn run_end(alloc: Global, net: &Net, run: Run) -> Result<RunEnd, NoMemory>
    requires { IsRun net.now run }
    ensures whole { IfOk result (IsWhole net.now) }
    ensures end { IfOk result (λ end. (nodes : Nodes) → Shows net.now nodes run → AreMet net.now nodes run → IsEnd net.now nodes end) }
{
    let Run {
        cores,
        sources: _,
        collectors,
        channels,
    } = run;
    Ok(RunEnd {
        cores,
        queues: queue_ends(alloc, channels.as_slice())?,
        collected: collectors,
    })
}
