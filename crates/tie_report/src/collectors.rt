//! The lines of the collectors.

ghost use Rattle.std.specs.Prelude.{◌≡◌, ◌++◌, ◌≤◌, ℕ, OnOk, Some, codes, drop, length, slice_get, string_bytes};
ghost use Rattle.std.specs.Fmt.{decimal};
ghost use Rattle.core_text.specs.Digits.{digit_count, hex_digits};
ghost use Rattle.net_ref.specs.net_parts.Ends.{output_bits};
ghost use Rattle.net_ref.specs.Workers.{collector_queue};
ghost use Rattle.net_ref.specs.Reference.{IsWhole};
ghost use Rattle.tie_report.specs.Report.{collector_bits, collector_text, collectors_text, from_bits, queue_bits, value_lines};

use core_text::{digit_count, push_hex};
use net_parts::{FromEnd, Net, NetCollector, NetCore, RunEnd};
use net_ref::{collector_queue, net_parts};
use std::alloc::AllocError;

/// How many bits an output queue of a processor has.
fn output_bits(core: &NetCore, out: usize) -> u8
    ensures value { result ≡ output_bits (Some core.now) out }
    ensures most { result ≤ 128 }
{
    core.kit.desc.facts();
    match core.kit.desc.outs.get(out) {
        Some(queue) => queue.width,
        None => 0,
    }
}

/// How many bits an end has at which a queue is written.
fn from_bits(net: &Net, from: FromEnd) -> u8
    ensures value { result ≡ from_bits net.now from }
    ensures most { result ≤ 128 }
{
    match from {
        FromEnd::Core { core, out } => match net.cores.get(core as usize) {
            Some(core) => output_bits(core, out as usize),
            None => 0,
        },
        FromEnd::Source(_) => 0,
    }
}

/// The width of the values that a collector collects.
fn collector_bits(net: &Net, k: usize) -> u8
    ensures value { result ≡ collector_bits net.now k }
    ensures most { result ≤ 128 }
{
    match net.queues.get(collector_queue(net, k)) {
        Some(queue) => from_bits(net, queue.from),
        None => 0,
    }
}

fn push_value(text: &mut String, count: u32, value: u128) -> Result<(), AllocError>
    requires { count ≤ 32 }
    ensures { OnOk result (string_bytes text.new ≡ string_bytes text.old ++ (codes "  " ++ hex_digits count value ++ codes "\n")) }
{
    text.push_str("  ")?;
    push_hex(text, count, value)?;
    text.push_str("\n")
}

/// Appends values of so many digits, a line each.
fn push_values(text: &mut String, count: u32, values: &[u128]) -> Result<(), AllocError>
    requires { count ≤ 32 }
    ensures { OnOk result (string_bytes text.new ≡ string_bytes text.old ++ value_lines count values.now) }
{
    for value in values {
        push_value(text, count, *value)?;
    }
    Ok(())
}

/// Appends the lines of collector k.
fn push_collector(
    text: &mut String,
    net: &Net,
    k: usize,
    collector: &NetCollector,
    values: &[u128],
) -> Result<(), AllocError>
    ensures { OnOk result (string_bytes text.new ≡ string_bytes text.old ++ collector_text net.now k collector.now values.now) }
{
    let name = collector.name.as_str();
    let items = values.len();
    write!(text, "collector {name} items {items}\n")?;
    push_values(text, digit_count(collector_bits(net, k)), values)
}

/// Appends the lines of all collectors.
pub fn push_collectors(text: &mut String, net: &Net, end: &RunEnd) -> Result<(), AllocError>
    requires { IsWhole net.now end.now }
    ensures { OnOk result (string_bytes text.new ≡ string_bytes text.old
        ++ collectors_text net.now 0 net.now.collectors.items end.now.collected.items) }
{
    for k in 0..net.collectors.len() {
        push_collector(
            text,
            net,
            k,
            &net.collectors[k],
            end.collected[k].as_slice(),
        )?;
    }
    Ok(())
}
