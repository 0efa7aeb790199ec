//! A network during a run.

ghost use Rattle.std.specs.Prelude.{◌≡◌, ℕ, ◌<◌, ◌≤◌, IfOk, All, [], Some, length, replicate, slice_get, vec_len};
ghost use Rattle.net_parts.specs.Network.{IsCore, IsNet};
ghost use Rattle.net_ref.specs.First.{IsFirstChannel, IsFirstCore};
ghost use Rattle.net_ref.specs.Reference.{rounds_of};
ghost use Rattle.net_ref.specs.Shown.{IsRun, Shows};

use crate::channel::Channel;
use arrayvec::ArrayVec;
use net_parts::{CoreEnd, Net, NetCore};
use std::alloc::Global;
use xt_exec::{NoMemory, start};

/// All processors as they would be reported, how many items each source has pushed, what each collector has collected, and all queues, in the
/// order of the network.
#[derive(Drop)]
pub struct Run {
    pub cores: Vec<CoreEnd>,
    pub sources: Vec<usize>,
    pub collectors: Vec<Vec<u128>>,
    pub channels: Vec<Channel>,
}

/// A port of each input queue that holds nothing.
fn nothing_held(core: &NetCore) -> ArrayVec<u8, 8>
    ensures { result.items ≡ replicate (length core.now.kit.desc.ins) 0 }
{
    core.kit.desc.facts();
    let mut held = ArrayVec::new();
    for _ in 0..core.kit.desc.ins.len() {
        held.push(0);
    }
    held
}

fn first_core(alloc: Global, core: &NetCore) -> Result<CoreEnd, NoMemory>
    requires { IsCore core.now }
    ensures { IfOk result (IsFirstCore core.now) }
{
    Ok(CoreEnd {
        retired: 0,
        clock: 0,
        arch: start(alloc, &core.kit.desc, core.memory, core.text.as_slice())?,
        held: nothing_held(core),
    })
}

fn first_cores(alloc: Global, cores: &[NetCore]) -> Result<Vec<CoreEnd>, NoMemory>
    requires { All IsCore cores.now }
    ensures len { IfOk result (λ v. vec_len v ≡ length cores.now) }
    ensures each { IfOk result (λ v. (c : ℕ) (here x : _) → slice_get cores.now c ≡ Some here → slice_get v.items c ≡ Some x
        → IsFirstCore here x) }
{
    let mut all = Vec::new(alloc);
    for core in cores {
        all.push(first_core(alloc, core)?)?;
    }
    Ok(all)
}

fn no_pushes(alloc: Global, count: usize) -> Result<Vec<usize>, NoMemory>
    ensures { IfOk result (λ v. v.items ≡ replicate count 0) }
{
    Ok(vec![in alloc; 0; count]?)
}

fn no_values(alloc: Global, count: usize) -> Result<Vec<Vec<u128>>, NoMemory>
    ensures len { IfOk result (λ v. vec_len v ≡ count) }
    ensures each { IfOk result (λ v. (k : ℕ) (x : _) → slice_get v.items k ≡ Some x → x.items ≡ []) }
{
    let mut all = Vec::new(alloc);
    for _ in 0..count {
        all.push(Vec::new(alloc))?;
    }
    Ok(all)
}

fn no_items(alloc: Global, count: usize) -> Result<Vec<Channel>, NoMemory>
    ensures len { IfOk result (λ v. vec_len v ≡ count) }
    ensures each { IfOk result (λ v. (q : ℕ) (x : _) → slice_get v.items q ≡ Some x → IsFirstChannel x) }
{
    let mut all = Vec::new(alloc);
    for _ in 0..count {
        all.push(Channel::new(alloc))?;
    }
    Ok(all)
}

/// A network before its first round.
pub fn first_run(alloc: Global, net: &Net) -> Result<Run, NoMemory>
    requires { IsNet net.now }
    ensures whole { IfOk result (IsRun net.now) }
    ensures shows { IfOk result (λ run. (bounded : _) → Shows net.now (rounds_of bounded net.now 0) run) }
{
    Ok(Run {
        cores: first_cores(alloc, net.cores.as_slice())?,
        sources: no_pushes(alloc, net.sources.len())?,
        collectors: no_values(alloc, net.collectors.len())?,
        channels: no_items(alloc, net.queues.len())?,
    })
}
