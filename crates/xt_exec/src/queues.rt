//! The queues of a bundle.

ghost use Rattle.std.specs.Prelude.{◌≡◌, ℕ, ◌+◌, ◌<◌, ◌≤◌, ◌^◌, ◌%◌, ◌↔◌, IsTrue, IfSome, IfNone, length, slice_get};
ghost use Rattle.std.specs.List.{list_any};
ghost use Rattle.tie_desc.specs.Operands as operands;
ghost use Rattle.tie_desc.specs.Slots.{links_of};
ghost use Rattle.xt_exec.specs.Queues as spec;

use tie_desc::{Bundle, Desc, Kind, Part, links_of};
use tie_expr::Bits;

/// The queues that the next bundle pops and pushes: bit i is the i-th queue of that direction.
#[derive(Clone, Copy, Debug, PartialEq, Eq)]
pub struct Needs {
    pub pops: u8,
    pub pushes: u8,
}

fn is_input(queue: u8, kind: Kind) -> bool
    ensures { result ≡ spec.is_input queue kind }
{
    match kind {
        Kind::InQueue(other) => other == queue,
        _ => false,
    }
}

fn is_output(queue: u8, kind: Kind) -> bool
    ensures { result ≡ spec.is_output queue kind }
{
    match kind {
        Kind::OutQueue(other) => other == queue,
        _ => false,
    }
}

fn part_pops(desc: &Desc, part: &Part, queue: u8) -> bool
    ensures { result ≡ list_any (λ l. spec.is_input queue l.kind) (links_of desc.now part.now.code) }
{
    links_of(desc, part.code)
        .iter()
        .any(|link| is_input(queue, link.kind))
}

fn part_pushes(desc: &Desc, part: &Part, queue: u8) -> bool
    ensures { result ≡ list_any (λ l. spec.is_output queue l.kind) (links_of desc.now part.now.code) }
{
    links_of(desc, part.code)
        .iter()
        .any(|link| is_output(queue, link.kind))
}

// Whether a bundle pops an input queue.
pub fn pops(desc: &Desc, bundle: &Bundle, queue: u8) -> bool
    ensures { result ≡ spec.pops desc.now bundle.now queue }
{
    match bundle {
        Bundle::Core(_) => false,
        Bundle::One(part) => part_pops(desc, part, queue),
        Bundle::Wide { parts, .. } => parts
            .as_slice()
            .iter()
            .any(|part| part_pops(desc, part, queue)),
    }
}

// Whether a bundle pushes an output queue.
pub fn pushes(desc: &Desc, bundle: &Bundle, queue: u8) -> bool
    ensures { result ≡ spec.pushes desc.now bundle.now queue }
{
    match bundle {
        Bundle::Core(_) => false,
        Bundle::One(part) => part_pushes(desc, part, queue),
        Bundle::Wide { parts, .. } => parts
            .as_slice()
            .iter()
            .any(|part| part_pushes(desc, part, queue)),
    }
}

fn bit_if(test: bool, weight: u8) -> u8
    ensures value { result ≡ spec.bit_if test weight }
    ensures most { result ≤ weight }
{
    if test { weight } else { 0 }
}

// The input queues that a bundle pops, as bits.
pub fn pop_mask(desc: &Desc, bundle: &Bundle) -> u8
    ensures { result ≡ spec.mask (spec.pops desc.now bundle.now) }
{
    let low = bit_if(pops(desc, bundle, 0), 1)
        + bit_if(pops(desc, bundle, 1), 2)
        + bit_if(pops(desc, bundle, 2), 4)
        + bit_if(pops(desc, bundle, 3), 8);
    low + bit_if(pops(desc, bundle, 4), 16)
        + bit_if(pops(desc, bundle, 5), 32)
        + bit_if(pops(desc, bundle, 6), 64)
        + bit_if(pops(desc, bundle, 7), 128)
}

// The output queues that a bundle pushes, as bits.
pub fn push_mask(desc: &Desc, bundle: &Bundle) -> u8
    ensures { result ≡ spec.mask (spec.pushes desc.now bundle.now) }
{
    let low = bit_if(pushes(desc, bundle, 0), 1)
        + bit_if(pushes(desc, bundle, 1), 2)
        + bit_if(pushes(desc, bundle, 2), 4)
        + bit_if(pushes(desc, bundle, 3), 8);
    low + bit_if(pushes(desc, bundle, 4), 16)
        + bit_if(pushes(desc, bundle, 5), 32)
        + bit_if(pushes(desc, bundle, 6), 64)
        + bit_if(pushes(desc, bundle, 7), 128)
}

// The count of input queues.
fn input_count(desc: &Desc) -> u8
    ensures value { result ≡ length desc.now.ins }
    ensures few { result ≤ 8 }
{
    desc.facts();
    desc.ins.len() as u8
}

// Whether a bundle lacks the item of an input queue.
fn lacks(desc: &Desc, bundle: &Bundle, heads: &[Option<u128>; 8], queue: u8) -> bool
    requires { queue < length desc.now.ins }
    ensures { IsTrue result ↔ spec.Lacks desc.now bundle.now heads.now queue }
{
    queue < input_count(desc) && pops(desc, bundle, queue) && heads[queue as usize].is_none()
}

// The first input queue that a bundle pops and that has no head.
pub fn first_lacking(desc: &Desc, bundle: &Bundle, heads: &[Option<u128>; 8]) -> Option<u8>
    ensures found { IfSome result (spec.IsFirstLacking desc.now bundle.now heads.now) }
    ensures none { IfNone result (spec.HasItems desc.now bundle.now heads.now) }
{
    let count = input_count(desc);
    for queue in 0..count {
        if lacks(desc, bundle, heads, queue) {
            return Some(queue);
        }
    }
    None
}

// The item that is popped of an input queue.
pub fn item_of(desc: &Desc, heads: &[Option<u128>; 8], queue: u8, width: u8) -> Bits
    requires queue { queue < length desc.now.ins }
    requires width { width ≡ operands.queue_width (slice_get desc.now.ins queue) }
    requires low { 0 < width }
    requires high { width ≤ 128 }
    ensures { result ≡ record { width = width; value = spec.item_of desc.now heads.now queue } }
{
    let _count = input_count(desc);
    Bits::new(width, heads[queue as usize].unwrap_or(0))
}
