//! Where a processor waits.

ghost use Rattle.std.specs.Prelude.{◌≡◌, ◌≤◌, ℕ, Bool, find, length, map, slice_get, if◌then◌else◌, [], ◌∷◌, ◌<◌};
ghost use Rattle.net_ref.specs.xt_exec.Made.{IsFor};
ghost use Rattle.net_ref.specs.xt_exec.Queues.{mask};
ghost use Rattle.net_ref.specs.Processor.{chosen};
ghost use Rattle.net_ref.specs.Workers.{capacity_of, input_queue, output_queue};
ghost use Rattle.tie_report.specs.Standing.{first_empty, first_full, is_empty, is_full, standing, waiting};

use crate::standing::Standing;
use net_parts::{CoreEnd, Net, NetCore, NetQueue, QueueEnd, RunEnd};
use net_ref::{has_bit, input_queue, net_parts, output_queue, xt_exec};
use tie_desc::Desc;
use xt_core::Ending;
use xt_exec::needs;

/// Whether as many items of a queue were consumed as were pushed.
fn is_empty(ends: &[QueueEnd], q: usize) -> bool
    ensures { result ≡ is_empty (slice_get ends.now q) }
{
    match ends.get(q) {
        Some(e) => e.pushed == e.consumed,
        None => false,
    }
}

fn capacity_of(queues: &[NetQueue], q: usize) -> u32
    ensures { result ≡ capacity_of (slice_get queues.now q) }
{
    match queues.get(q) {
        Some(queue) => queue.capacity,
        None => 0,
    }
}

/// Whether as many more items of a queue were pushed than taken as it has room for.
fn is_full(ends: &[QueueEnd], q: usize, capacity: u32) -> bool
    ensures { result ≡ is_full capacity (slice_get ends.now q) }
{
    match ends.get(q) {
        Some(e) => {
            u128::from(e.pushed)
                == u128::from(e.consumed) + u128::from(e.held) + u128::from(capacity)
        }
        None => false,
    }
}

/// The queue that input queue i is, where the bundle pops it and it's empty.
fn empty_at(net: &Net, end: &RunEnd, c: usize, pops: u8, i: usize) -> Option<usize>
    requires { i < 8 }
    ensures { (test : ℕ → Bool) → pops ≡ mask test
        → result ≡ find (λ q. is_empty (slice_get end.now.queues.items q)) (if test i then input_queue net.now c i ∷ [] else []) }
{
    if !has_bit(pops, i) {
        return None;
    }
    let q = input_queue(net, c, i);
    if is_empty(end.queues.as_slice(), q) {
        Some(q)
    } else {
        None
    }
}

/// The queue that output queue o is, where the bundle pushes it and it's full.
fn full_at(net: &Net, end: &RunEnd, c: usize, pushes: u8, o: usize) -> Option<usize>
    requires { o < 8 }
    ensures { (test : ℕ → Bool) → pushes ≡ mask test
        → result ≡ find (λ q. is_full (capacity_of (slice_get net.now.queues.items q)) (slice_get end.now.queues.items q))
        (if test o then output_queue net.now c o ∷ [] else []) }
{
    if !has_bit(pushes, o) {
        return None;
    }
    let q = output_queue(net, c, o);
    if is_full(
        end.queues.as_slice(),
        q,
        capacity_of(net.queues.as_slice(), q),
    ) {
        Some(q)
    } else {
        None
    }
}

/// The first empty queue of the so many input queues that the bundle pops.
fn first_empty(net: &Net, end: &RunEnd, c: usize, pops: u8, count: usize) -> Option<usize>
    requires { count ≤ 8 }
    ensures { (test : ℕ → Bool) → pops ≡ mask test
        → result ≡ find (λ q. is_empty (slice_get end.now.queues.items q)) (map (input_queue net.now c) (chosen test count)) }
{
    for i in 0..count {
        if let Some(q) = empty_at(net, end, c, pops, i) {
            return Some(q);
        }
    }
    None
}

/// The first full queue of the so many output queues that the bundle pushes.
fn first_full(net: &Net, end: &RunEnd, c: usize, pushes: u8, count: usize) -> Option<usize>
    requires { count ≤ 8 }
    ensures { (test : ℕ → Bool) → pushes ≡ mask test
        → result ≡ find (λ q. is_full (capacity_of (slice_get net.now.queues.items q)) (slice_get end.now.queues.items q))
        (map (output_queue net.now c) (chosen test count)) }
{
    for o in 0..count {
        if let Some(q) = full_at(net, end, c, pushes, o) {
            return Some(q);
        }
    }
    None
}

/// How many input queues a processor declares.
fn in_count(desc: &Desc) -> usize
    ensures value { result ≡ length desc.now.ins }
    ensures few { result ≤ 8 }
{
    desc.facts();
    desc.ins.len()
}

/// How many output queues a processor declares.
fn out_count(desc: &Desc) -> usize
    ensures value { result ≡ length desc.now.outs }
    ensures few { result ≤ 8 }
{
    desc.facts();
    desc.outs.len()
}

/// Where a processor that runs below its budget waits: for an item, else for room.
fn waits(net: &Net, end: &RunEnd, c: usize, here: &NetCore, e: &CoreEnd) -> Standing
    requires { IsFor here.now.kit e.now.arch }
    ensures { result ≡ waiting (first_empty net.now end.now c here.now e.now.arch) (first_full net.now end.now c here.now e.now.arch) }
{
    let needs = needs(&here.kit, &e.arch);
    let empty = first_empty(net, end, c, needs.pops, in_count(&here.kit.desc));
    let full = first_full(net, end, c, needs.pushes, out_count(&here.kit.desc));
    match (empty, full) {
        (Some(q), _) => Standing::Empty(q),
        (None, Some(q)) => Standing::Full(q),
        (None, None) => Standing::Running,
    }
}

/// How processor c stands.
pub fn standing_of(net: &Net, end: &RunEnd, c: usize, here: &NetCore, e: &CoreEnd) -> Standing
    requires { IsFor here.now.kit e.now.arch }
    ensures { result ≡ standing net.now end.now c here.now e.now }
{
    match e.arch.ending() {
        Ending::Halted => Standing::Halted,
        Ending::Trapped(trap) => Standing::Trapped(trap),
        Ending::Running => {
            if e.retired == u64::from(here.budget) {
                return Standing::Spent;
            }
            waits(net, end, c, here, e)
        }
    }
}
