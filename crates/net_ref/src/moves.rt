//! What a bundle does to the queues of a processor.

ghost use Rattle.std.specs.Prelude.{◌≡◌, ℕ, Bool, true, ◌<◌, ◌==◌, ◌&&◌, if◌then◌else◌, [], ◌∷◌, All, None, OnOk, length, slice_index_or};
ghost use Rattle.std.specs.List.{list_all};
ghost use Rattle.std.specs.Option.{option_to_list};
ghost use Rattle.xt_exec.specs.Queues.{mask};
ghost use Rattle.net_ref.specs.Processor.{chosen};
ghost use Rattle.net_ref.specs.Shown.{AreConsumed, AreExtended, IsTable, queues_of, room_at, shown_head, shown_heads};
ghost use Rattle.net_ref.specs.Workers.{values_to};

use crate::channel::Channel;
use net_parts::NetQueue;
use xt_exec::NoMemory;

/// Whether bit i is set.
pub fn has_bit(bits: u8, i: usize) -> bool
    requires { i < 8 }
    ensures { (test : ℕ → Bool) → bits ≡ mask test → result ≡ test i }
{
    match i {
        0 => bits % 2 == 1,
        1 => bits / 2 % 2 == 1,
        2 => bits / 4 % 2 == 1,
        3 => bits / 8 % 2 == 1,
        4 => bits / 16 % 2 == 1,
        5 => bits / 32 % 2 == 1,
        6 => bits / 64 % 2 == 1,
        _ => bits / 128 % 2 == 1,
    }
}

/// The head of input queue i, where the bundle pops it.
fn head_at(channels: &[Channel], ins: &[usize], pops: u8, i: usize) -> Option<u128>
    requires queues { All (λ q. q < length channels.now) ins.now }
    requires number { i < 8 }
    ensures { (test : ℕ → Bool) → pops ≡ mask test → result ≡ shown_head channels.now ins.now test i }
{
    if i < ins.len() && has_bit(pops, i) {
        channels[ins[i]].head()
    } else {
        None
    }
}

/// The heads of the input queues that a bundle pops.
pub fn heads(channels: &[Channel], ins: &[usize], pops: u8) -> [Option<u128>; 8]
    requires { All (λ q. q < length channels.now) ins.now }
    ensures { (test : ℕ → Bool) → pops ≡ mask test → result ≡ shown_heads channels.now ins.now test }
{
    [
        head_at(channels, ins, pops, 0),
        head_at(channels, ins, pops, 1),
        head_at(channels, ins, pops, 2),
        head_at(channels, ins, pops, 3),
        head_at(channels, ins, pops, 4),
        head_at(channels, ins, pops, 5),
        head_at(channels, ins, pops, 6),
        head_at(channels, ins, pops, 7),
    ]
}

/// Whether a queue has room, where that is asked.
pub fn room_if(channels: &[Channel], queues: &[NetQueue], q: usize, asked: bool) -> bool
    requires channel { q < length channels.now }
    requires queue { q < length queues.now }
    ensures { result ≡ (if asked then room_at channels.now queues.now q else true) }
{
    if !asked {
        return true;
    }
    channels[q].has_room(queues[q].capacity)
}

fn both(a: bool, b: bool) -> bool
    ensures { result ≡ (a && b) }
{
    a && b
}

/// Whether each output queue that a bundle pushes has room.
pub fn has_room(channels: &[Channel], queues: &[NetQueue], outs: &[usize], pushes: u8) -> bool
    requires channels { All (λ q. q < length channels.now) outs.now }
    requires queues { length channels.now ≡ length queues.now }
    requires few { length outs.now < 9 }
    ensures { (test : ℕ → Bool) (f : ℕ → ℕ) → pushes ≡ mask test → IsTable f outs.now
        → result ≡ list_all (room_at channels.now queues.now) (queues_of f test (length outs.now)) }
{
    let mut room = true;
    for o in 0..outs.len() {
        let pushed = has_bit(pushes, o);
        let here = room_if(channels, queues, outs[o], pushed);
        room = both(room, here);
    }
    room
}

/// Consumes an item of a queue, where the bundle pops it.
fn take_if(channels: &mut [Channel], q: usize, popped: bool)
    requires { q < length channels.old }
    ensures { AreConsumed (if popped then q ∷ [] else []) channels.old channels.new }
{
    if !popped {
        return;
    }
    channels[q].take();
}

/// Consumes an item of each input queue that a bundle pops.
pub fn consume(channels: &mut [Channel], ins: &[usize], pops: u8)
    requires queues { All (λ q. q < length channels.old) ins.now }
    requires few { length ins.now < 9 }
    ensures { (test : ℕ → Bool) (f : ℕ → ℕ) → pops ≡ mask test → IsTable f ins.now
        → AreConsumed (queues_of f test (length ins.now)) channels.old channels.new }
{
    for i in 0..ins.len() {
        let popped = has_bit(pops, i);
        take_if(channels, ins[i], popped);
    }
}

/// What a bundle writes to output queue o, where it pushes it.
fn value_if(values: &[Option<u128>; 8], o: usize, pushed: bool) -> Option<u128>
    requires { o < 8 }
    ensures { result ≡ (if pushed then slice_index_or values.now o None else None) }
{
    if !pushed {
        return None;
    }
    values[o]
}

/// Pushes a value, if there is one.
fn push_if(channels: &mut [Channel], q: usize, value: Option<u128>) -> Result<(), NoMemory>
    requires { q < length channels.old }
    ensures { OnOk result (AreExtended (λ p. if q == p then option_to_list value else []) channels.old channels.new) }
{
    match value {
        None => Ok(()),
        Some(value) => channels[q].push(value),
    }
}

/// Pushes to each output queue that a bundle pushes what it writes there.
pub fn push_all(
    channels: &mut [Channel],
    outs: &[usize],
    pushes: u8,
    values: &[Option<u128>; 8],
) -> Result<(), NoMemory>
    requires queues { All (λ q. q < length channels.old) outs.now }
    requires few { length outs.now < 9 }
    ensures { OnOk result ((test : ℕ → Bool) (f : ℕ → ℕ) → pushes ≡ mask test → IsTable f outs.now
        → AreExtended (values_to f values.now (chosen test (length outs.now))) channels.old channels.new) }
{
    for o in 0..outs.len() {
        let pushed = has_bit(pushes, o);
        let value = value_if(values, o, pushed);
        push_if(channels, outs[o], value)?;
    }
    Ok(())
}
