//! The turns of workers.

ghost use Rattle.std.specs.Prelude.{◌≡◌, ℕ, Bool, true, ◌<◌, ◌&&◌, All, IfOk, OnOk, length, nat_lt};
ghost use Rattle.std.specs.List.{list_all};
ghost use Rattle.net_parts.specs.declared.parts.Net.{Net};
ghost use Rattle.xt_core.specs.declared.ending.Ending.TheVariants.{Running};
ghost use Rattle.xt_exec.specs.Queues.{mask};
ghost use Rattle.xt_exec.specs.Step.{needed};
ghost use Rattle.net_parts.specs.Network.{IsNet};
ghost use Rattle.net_ref.specs.Ports.{ArePorts};
ghost use Rattle.net_ref.specs.Reference.{gate_of};
ghost use Rattle.net_ref.specs.Processor as processor;
ghost use Rattle.net_ref.specs.Shown.{IsAtTurn, IsCoreTurn, IsMade, IsRun, IsTable, IsTurn, Shows, or_unbounded, queues_of, room_at};
ghost use Rattle.net_ref.specs.Workers.{Nodes, collector_worker, source_worker};

use crate::channel::Channel;
use crate::moves::{consume, has_room, heads, push_all, room_if};
use crate::ports::{CorePorts, Ports};
use crate::running::Run;
use net_parts::{CoreEnd, Net, NetCore};
use xt_exec::{Ending, Needs, NoMemory, Step, needs, step};

/// Takes the next bundle of a running processor below its budget, which has room for what it pushes; whether it retires.
fn take_bundle(
    core: &NetCore,
    ports: &CorePorts,
    at: &mut CoreEnd,
    channels: &mut [Channel],
    needs: Needs,
) -> Result<bool, NoMemory>
    requires made { IsMade core.now at.old }
    requires running { at.old.arch.ending ≡ Running }
    requires below { at.old.retired < core.now.budget }
    requires needs { needs ≡ needed core.now.kit at.old.arch }
    requires ins { All (λ q. q < length channels.old) ports.now.ins.items }
    requires outs { All (λ q. q < length channels.old) ports.now.outs.items }
    requires few_ins { length ports.now.ins.items < 9 }
    requires few_outs { length ports.now.outs.items < 9 }
    ensures made { OnOk result (IsMade core.now at.new) }
    ensures turn { IfOk result (λ moved. (bounded : Bool) (net : Net) (c : ℕ) (nodes : Nodes)
        → IsAtTurn net c nodes core.now ports.now at.old channels.old → gate_of bounded net nodes c ≡ true
        → IsCoreTurn bounded net nodes c core.now moved at.new channels.new) }
{
    let _budget = core.budget;
    let heads = heads(channels, ports.ins.as_slice(), needs.pops);
    match step(&core.kit, &mut at.arch, &heads) {
        Step::Stepped { pushed } => {
            consume(channels, ports.ins.as_slice(), needs.pops);
            push_all(channels, ports.outs.as_slice(), needs.pushes, &pushed)?;
            at.retired += 1;
            Ok(true)
        }
        Step::Halted => {
            at.retired += 1;
            Ok(true)
        }
        Step::Trapped(_) => Ok(false),
        Step::NeedsItem(_) => Ok(false),
    }
}

fn is_running(ending: Ending) -> bool
    ensures { result ≡ processor.is_running ending }
{
    match ending {
        Ending::Running => true,
        Ending::Halted | Ending::Trapped(_) => false,
    }
}

/// Whether a processor runs, and is below its budget.
fn may_go(core: &NetCore, at: &CoreEnd) -> bool
    ensures { result ≡ (nat_lt at.now.retired core.now.budget && processor.is_running at.now.arch.ending) }
{
    at.retired < u64::from(core.budget) && is_running(at.arch.ending())
}

/// Whether queues have no bound, or each queue that a bundle pushes has room.
fn is_open(net: &Net, ports: &CorePorts, channels: &[Channel], pushes: u8, bounded: bool) -> bool
    requires queues { length channels.now ≡ length net.now.queues.items }
    requires outs { All (λ q. q < length channels.now) ports.now.outs.items }
    requires few { length ports.now.outs.items < 9 }
    ensures { (test : ℕ → Bool) (f : ℕ → ℕ) → pushes ≡ mask test → IsTable f ports.now.outs.items
        → result ≡ or_unbounded bounded (list_all (room_at channels.now net.now.queues.items) (queues_of f test (length ports.now.outs.items))) }
{
    if bounded {
        has_room(
            channels,
            net.queues.as_slice(),
            ports.outs.as_slice(),
            pushes,
        )
    } else {
        true
    }
}

/// The turn of a processor.
fn core_turn(
    net: &Net,
    core: &NetCore,
    ports: &CorePorts,
    at: &mut CoreEnd,
    channels: &mut [Channel],
    bounded: bool,
) -> Result<bool, NoMemory>
    requires made { IsMade core.now at.old }
    requires queues { length channels.old ≡ length net.now.queues.items }
    requires ins { All (λ q. q < length channels.old) ports.now.ins.items }
    requires outs { All (λ q. q < length channels.old) ports.now.outs.items }
    requires few_ins { length ports.now.ins.items < 9 }
    requires few_outs { length ports.now.outs.items < 9 }
    ensures made { OnOk result (IsMade core.now at.new) }
    ensures turn { IfOk result (λ moved. (c : ℕ) (nodes : Nodes)
        → IsAtTurn net.now c nodes core.now ports.now at.old channels.old
        → IsCoreTurn bounded net.now nodes c core.now moved at.new channels.new) }
{
    if !may_go(core, at) {
        return Ok(false);
    }
    let needs = needs(&core.kit, &at.arch);
    if !is_open(net, ports, channels, needs.pushes, bounded) {
        return Ok(false);
    }
    take_bundle(core, ports, at, channels, needs)
}

/// The turn of processor c.
pub fn turn_core(
    net: &Net,
    ports: &Ports,
    run: &mut Run,
    c: usize,
    bounded: bool,
) -> Result<bool, NoMemory>
    requires net { IsNet net.now }
    requires ports { ArePorts net.now ports.now }
    requires whole { IsRun net.now run.old }
    requires worker { c < length net.now.cores.items }
    ensures whole { OnOk result (IsRun net.now run.new) }
    ensures turn { IfOk result (λ moved. (nodes : Nodes) → Shows net.now nodes run.old
        → IsTurn bounded net.now nodes c run.old moved run.new) }
{
    let core = &net.cores[c];
    core.kit.desc.facts();
    core_turn(
        net,
        core,
        &ports.cores[c],
        &mut run.cores[c],
        run.channels.as_mut_slice(),
        bounded,
    )
}

/// The turn of source s.
pub fn turn_source(
    net: &Net,
    ports: &Ports,
    run: &mut Run,
    s: usize,
    bounded: bool,
) -> Result<bool, NoMemory>
    requires net { IsNet net.now }
    requires ports { ArePorts net.now ports.now }
    requires whole { IsRun net.now run.old }
    requires worker { s < length net.now.sources.items }
    ensures whole { OnOk result (IsRun net.now run.new) }
    ensures turn { IfOk result (λ moved. (nodes : Nodes) → Shows net.now nodes run.old
        → IsTurn bounded net.now nodes (source_worker net.now s) run.old moved run.new) }
{
    let q = ports.sources[s];
    let pushed = run.sources[s];
    let Some(item) = net.sources[s].items.get(pushed) else {
        return Ok(false);
    };
    if !room_if(run.channels.as_slice(), net.queues.as_slice(), q, bounded) {
        return Ok(false);
    }
    run.channels[q].push(*item)?;
    run.sources[s] = pushed + 1;
    Ok(true)
}

/// The turn of collector k.
pub fn turn_collector(net: &Net, ports: &Ports, run: &mut Run, k: usize) -> Result<bool, NoMemory>
    requires net { IsNet net.now }
    requires ports { ArePorts net.now ports.now }
    requires whole { IsRun net.now run.old }
    requires worker { k < length net.now.collectors.items }
    ensures whole { OnOk result (IsRun net.now run.new) }
    ensures turn { IfOk result (λ moved. (bounded : Bool) (nodes : Nodes) → Shows net.now nodes run.old
        → IsTurn bounded net.now nodes (collector_worker net.now k) run.old moved run.new) }
{
    let q = ports.collectors[k];
    if run.collectors[k].len() >= net.collectors[k].limit as usize {
        return Ok(false);
    }
    let Some(item) = run.channels[q].head() else {
        return Ok(false);
    };
    run.channels[q].take();
    run.collectors[k].push(item)?;
    Ok(true)
}
