//! Tests on ends: whether two are the same, whether they may be those of a queue, which worker's they are.

ghost use Rattle.std.specs.Prelude.{◌≡◌, slice_get};
ghost use Rattle.std.specs.List.{list_any};
ghost use Rattle.net_toml.specs.net_parts.Ends.{is_input, is_output, is_source, is_collector, input_bits, output_bits};
ghost use Rattle.net_desc.specs.Ends.{same_from, same_to, joins, same_width};

use net_parts::{FromEnd, NetCore, NetQueue, ToEnd};
use net_toml::net_parts;

pub fn same_from(a: FromEnd, b: FromEnd) -> bool
    ensures { result ≡ same_from a b }
{
    match (a, b) {
        (FromEnd::Core { core: c, out: o }, FromEnd::Core { core: d, out: p }) => c == d && o == p,
        (FromEnd::Source(s), FromEnd::Source(t)) => s == t,
        _ => false,
    }
}

pub fn same_to(a: ToEnd, b: ToEnd) -> bool
    ensures { result ≡ same_to a b }
{
    match (a, b) {
        (ToEnd::Core { core: c, input: i }, ToEnd::Core { core: d, input: j }) => c == d && i == j,
        (ToEnd::Collector(k), ToEnd::Collector(l)) => k == l,
        _ => false,
    }
}

/// Whether a queue has this end.
pub fn is_from_taken(queues: &[NetQueue], from: FromEnd) -> bool
    ensures { result ≡ list_any (λ b. same_from from b.from) queues.now }
{
    queues.iter().any(|b| same_from(from, b.from))
}

pub fn is_to_taken(queues: &[NetQueue], to: ToEnd) -> bool
    ensures { result ≡ list_any (λ b. same_to to b.to) queues.now }
{
    queues.iter().any(|b| same_to(to, b.to))
}

/// Whether one end is a processor's, and not both are of one.
pub fn joins(from: FromEnd, to: ToEnd) -> bool
    ensures { result ≡ joins from to }
{
    match (from, to) {
        (FromEnd::Core { core: c, out: _ }, ToEnd::Core { core: d, input: _ }) => c != d,
        (FromEnd::Source(_), ToEnd::Collector(_)) => false,
        _ => true,
    }
}

/// The width of an output queue of a processor; 0 where there is none.
fn output_bits(cores: &[NetCore], core: usize, out: usize) -> u8
    ensures { result ≡ output_bits (slice_get cores.now core) out }
{
    match cores.get(core) {
        None => 0,
        Some(core) => match core.kit.desc.outs.get(out) {
            None => 0,
            Some(queue) => queue.width,
        },
    }
}

/// The width of an input queue of a processor; 0 where there is none.
pub fn input_bits(cores: &[NetCore], core: usize, input: usize) -> u8
    ensures { result ≡ input_bits (slice_get cores.now core) input }
{
    match cores.get(core) {
        None => 0,
        Some(core) => match core.kit.desc.ins.get(input) {
            None => 0,
            Some(queue) => queue.width,
        },
    }
}

/// Whether two processors' queues have one width.
pub fn same_width(cores: &[NetCore], from: FromEnd, to: ToEnd) -> bool
    ensures { result ≡ same_width cores.now from to }
{
    match (from, to) {
        (FromEnd::Core { core: c, out }, ToEnd::Core { core: d, input }) => {
            output_bits(cores, c as usize, out as usize)
                == input_bits(cores, d as usize, input as usize)
        }
        _ => true,
    }
}

fn is_output(core: usize, out: usize, end: FromEnd) -> bool
    ensures { result ≡ is_output core out end }
{
    match end {
        FromEnd::Core { core: c, out: o } => c as usize == core && o as usize == out,
        FromEnd::Source(_) => false,
    }
}

pub fn is_source(source: usize, end: FromEnd) -> bool
    ensures { result ≡ is_source source end }
{
    match end {
        FromEnd::Core { core: _, out: _ } => false,
        FromEnd::Source(s) => s as usize == source,
    }
}

fn is_input(core: usize, input: usize, end: ToEnd) -> bool
    ensures { result ≡ is_input core input end }
{
    match end {
        ToEnd::Core { core: c, input: i } => c as usize == core && i as usize == input,
        ToEnd::Collector(_) => false,
    }
}

fn is_collector(collector: usize, end: ToEnd) -> bool
    ensures { result ≡ is_collector collector end }
{
    match end {
        ToEnd::Core { core: _, input: _ } => false,
        ToEnd::Collector(k) => k as usize == collector,
    }
}

/// Whether a queue comes from this output queue of this processor.
pub fn has_output(queues: &[NetQueue], core: usize, out: usize) -> bool
    ensures { result ≡ list_any (λ b. is_output core out b.from) queues.now }
{
    queues.iter().any(|b| is_output(core, out, b.from))
}

/// Whether a queue goes to this input queue of this processor.
pub fn has_input(queues: &[NetQueue], core: usize, input: usize) -> bool
    ensures { result ≡ list_any (λ b. is_input core input b.to) queues.now }
{
    queues.iter().any(|b| is_input(core, input, b.to))
}

/// Whether a queue comes from this source.
pub fn has_source(queues: &[NetQueue], source: usize) -> bool
    ensures { result ≡ list_any (λ b. is_source source b.from) queues.now }
{
    queues.iter().any(|b| is_source(source, b.from))
}

/// Whether a queue goes to this collector.
pub fn has_collector(queues: &[NetQueue], collector: usize) -> bool
    ensures { result ≡ list_any (λ b. is_collector collector b.to) queues.now }
{
    queues.iter().any(|b| is_collector(collector, b.to))
}
