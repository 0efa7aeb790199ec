//! Which end of a queue a text names.

ghost use Rattle.std.specs.Prelude.{◌≡◌, ◌≤◌, length};
ghost use Rattle.std.specs.Option.{option_map};
ghost use Rattle.std.specs.Str.{bytes_eq};
ghost use Rattle.net_desc.specs.Ends.{cut, core_number, source_number, collector_number, core_output, core_input, from_end, to_end};

use net_parts::{FromEnd, NetCollector, NetCore, ToEnd};
use net_toml::{NetPlan, PlanSource, net_parts};
use tie_desc::{input_named, output_named};

/// The two sides of the first dot.
fn cut(text: &str) -> Option<(&str, &str)>
    ensures { option_map (λ p. (p.0.now, p.1.now)) result ≡ cut text.now }
{
    text.split_once('.')
}

fn core_number(cores: &[NetCore], name: &[u8]) -> Option<usize>
    ensures { result ≡ core_number cores.now name.now }
{
    cores.iter().position(|core| core.name.is(name))
}

fn source_number(sources: &[PlanSource], name: &[u8]) -> Option<usize>
    ensures { result ≡ source_number sources.now name.now }
{
    sources.iter().position(|source| source.name.is(name))
}

fn collector_number(collectors: &[NetCollector], name: &[u8]) -> Option<usize>
    ensures { result ≡ collector_number collectors.now name.now }
{
    collectors
        .iter()
        .position(|collector| collector.name.is(name))
}

fn core_output(cores: &[NetCore], name: &[u8], queue: &[u8]) -> Option<FromEnd>
    requires { length cores.now ≤ 256 }
    ensures { result ≡ core_output cores.now name.now queue.now }
{
    let Some(core) = core_number(cores, name) else {
        return None;
    };
    match output_named(&cores[core].kit.desc, queue) {
        Some(out) => Some(FromEnd::Core {
            core: core as u8,
            out,
        }),
        None => None,
    }
}

fn core_input(cores: &[NetCore], name: &[u8], queue: &[u8]) -> Option<ToEnd>
    requires { length cores.now ≤ 256 }
    ensures { result ≡ core_input cores.now name.now queue.now }
{
    let Some(core) = core_number(cores, name) else {
        return None;
    };
    match input_named(&cores[core].kit.desc, queue) {
        Some(input) => Some(ToEnd::Core {
            core: core as u8,
            input,
        }),
        None => None,
    }
}

/// The end of this name from which a queue may come.
pub fn from_end(cores: &[NetCore], plan: &NetPlan, text: &str) -> Option<FromEnd>
    requires cores { length cores.now ≤ 256 }
    requires sources { length plan.now.sources ≤ 256 }
    ensures { result ≡ from_end cores.now plan.now text.now }
{
    match cut(text) {
        Some((name, queue)) => core_output(cores, name.as_bytes(), queue.as_bytes()),
        None => match source_number(plan.sources.as_slice(), text.as_bytes()) {
            Some(source) => Some(FromEnd::Source(source as u8)),
            None => None,
        },
    }
}

/// The end of this name to which a queue may go.
pub fn to_end(cores: &[NetCore], plan: &NetPlan, text: &str) -> Option<ToEnd>
    requires cores { length cores.now ≤ 256 }
    requires collectors { length plan.now.collectors ≤ 256 }
    ensures { result ≡ to_end cores.now plan.now text.now }
{
    match cut(text) {
        Some((name, queue)) => core_input(cores, name.as_bytes(), queue.as_bytes()),
        None => match collector_number(plan.collectors.as_slice(), text.as_bytes()) {
            Some(collector) => Some(ToEnd::Collector(collector as u8)),
            None => None,
        },
    }
}
