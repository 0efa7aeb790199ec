//! How a processor stands, in words.

ghost use Rattle.std.specs.Prelude.{◌≡◌, ◌++◌, ◌+◌, OnOk, IfOk, Some, slice_get, string_bytes};
ghost use Rattle.tie_report.specs.Report.{blocked_words, empty_words, full_words, standing_words, trap_word};

use crate::standing::Standing;
use net_parts::{Net, NetQueue, QueueEnd, RunEnd};
use net_ref::net_parts;
use std::alloc::{AllocError, Global};
use xt_core::Trap;

fn trap_word(trap: Trap) -> &'static str
    ensures { result.now ≡ trap_word trap }
{
    match trap {
        Trap::Illegal => "Illegal",
        Trap::Unaligned => "Unaligned",
        Trap::BadAddress => "BadAddress",
        Trap::StoreText => "StoreText",
    }
}

/// Appends that a processor waits at a queue that is so, with two counts of it.
fn push_named(
    text: &mut String,
    queue: &NetQueue,
    so: &str,
    pushed: u64,
    other: u128,
) -> Result<(), AllocError>
    ensures { OnOk result (string_bytes text.new ≡ string_bytes text.old ++ blocked_words (Some queue.now) so.now pushed other) }
{
    let name = queue.name.as_str();
    write!(text, "blocked {name}{so}{pushed} {other}")
}

/// Appends that a processor waits at queue q, which is so, with two counts of it.
fn push_blocked(
    text: &mut String,
    net: &Net,
    q: usize,
    so: &str,
    pushed: u64,
    other: u128,
) -> Result<(), AllocError>
    ensures { OnOk result (string_bytes text.new ≡ string_bytes text.old
        ++ blocked_words (slice_get net.now.queues.items q) so.now pushed other) }
{
    match net.queues.get(q) {
        Some(queue) => push_named(text, queue, so, pushed, other),
        None => Ok(()),
    }
}

/// Appends that a processor waits for an item of queue q.
fn push_empty(text: &mut String, net: &Net, end: &RunEnd, q: usize) -> Result<(), AllocError>
    ensures { OnOk result (string_bytes text.new ≡ string_bytes text.old
        ++ empty_words (slice_get net.now.queues.items q) (slice_get end.now.queues.items q)) }
{
    match end.queues.get(q) {
        Some(e) => push_blocked(text, net, q, " empty ", e.pushed, u128::from(e.consumed)),
        None => Ok(()),
    }
}

/// How many items were taken from a queue: consumed, or held by its reader.
fn taken(e: &QueueEnd) -> u128
    ensures { result ≡ e.now.consumed + e.now.held }
{
    u128::from(e.consumed) + u128::from(e.held)
}

/// Appends that a processor waits for room in queue q.
fn push_full(text: &mut String, net: &Net, end: &RunEnd, q: usize) -> Result<(), AllocError>
    ensures { OnOk result (string_bytes text.new ≡ string_bytes text.old
        ++ full_words (slice_get net.now.queues.items q) (slice_get end.now.queues.items q)) }
{
    match end.queues.get(q) {
        Some(e) => push_blocked(text, net, q, " full ", e.pushed, taken(e)),
        None => Ok(()),
    }
}

/// Appends how a processor stands.
fn push_words(
    text: &mut String,
    net: &Net,
    end: &RunEnd,
    stepped: bool,
    budget: u32,
    standing: Standing,
) -> Result<(), AllocError>
    ensures { OnOk result (string_bytes text.new ≡ string_bytes text.old ++ standing_words net.now end.now stepped budget standing) }
{
    match standing {
        Standing::Halted => text.push_str("halted"),
        Standing::Trapped(trap) => {
            text.push_str("trapped ")?;
            text.push_str(trap_word(trap))
        }
        Standing::Spent => write!(text, "spent budget {budget}"),
        Standing::Running => text.push_str("running"),
        Standing::Empty(_) | Standing::Full(_) if stepped => text.push_str("running"),
        Standing::Empty(q) => push_empty(text, net, end, q),
        Standing::Full(q) => push_full(text, net, end, q),
    }
}

/// How a processor stands, in words.
pub fn words_of(
    alloc: Global,
    net: &Net,
    end: &RunEnd,
    stepped: bool,
    budget: u32,
    standing: Standing,
) -> Result<String, AllocError>
    ensures { IfOk result (λ text. string_bytes text ≡ standing_words net.now end.now stepped budget standing) }
{
    let mut text = String::new(alloc);
    push_words(&mut text, net, end, stepped, budget, standing)?;
    Ok(text)
}
