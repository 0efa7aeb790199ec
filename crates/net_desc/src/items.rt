//! The items of a source.

ghost use Rattle.std.specs.Prelude.{◌≡◌, ◌++◌, ◌<◌, ◌≤◌, codes, IfOk, OnErr, length};
ghost use Rattle.std.specs.Option.{option_copied};
ghost use Rattle.net_toml.specs.net_parts.Network.{IsNet};
ghost use Rattle.net_toml.specs.Broken.{GivesAs};
ghost use Rattle.net_toml.specs.Names.{place_of};
ghost use Rattle.net_desc.specs.Items.{source_queue, item_bits, to_bits, items_at, source_items, SameBut};

use crate::numbers::items_in;
use crate::ports::{input_bits, is_source};
use net_parts::{Net, NetQueue, NetSource, ToEnd};
use net_toml::{NetRefusal, NetRule, Text, net_parts};
use std::alloc::{AllocError, Global};

fn source_queue(net: &Net, source: usize) -> Option<&NetQueue>
    ensures { option_copied result ≡ source_queue net.now source }
{
    net.queues
        .iter()
        .find(|queue| is_source(source, queue.from))
}

fn to_bits(net: &Net, to: ToEnd) -> u8
    ensures { result ≡ to_bits net.now to }
{
    match to {
        ToEnd::Core { core, input } => input_bits(
            net.cores.as_slice(),
            core as usize,
            input as usize,
        ),
        ToEnd::Collector(_) => 0,
    }
}

/// The width of a source's items.
fn item_bits(net: &Net, source: usize) -> u8
    ensures { result ≡ item_bits net.now source }
{
    match source_queue(net, source) {
        None => 0,
        Some(queue) => to_bits(net, queue.to),
    }
}

fn items_key(alloc: Global, source: usize) -> Result<Text, AllocError>
    ensures { IfOk result (λ text. text ≡ place_of (codes "source") source ++ codes ".items") }
{
    Ok(Text::new(format!(in alloc; "source[{source}].items")?))
}

/// Gives a source the items that bytes stand for, each in as many bytes as its queue's width begins, the highest first;
/// or refuses them by the rule `Item` at `source[i].items`, where they aren't whole items or one doesn't fit, and then all
/// is as before. Takes memory for the items.
pub fn set_items(net: &mut Net, source: usize, bytes: &[u8]) -> Result<(), NetRefusal>
    requires network { IsNet net.old }
    requires source { source < length net.old.sources.items }
    requires bytes { length bytes.now ≤ 1048576 }
    ensures items { GivesAs (λ _. source_items net.new source) result (items_at net.old source bytes.now) }
    ensures same { SameBut source net.old net.new }
    ensures err { OnErr result (net.new ≡ net.old) }
    ensures network { IsNet net.new }
{
    let alloc = *net.sources.allocator();
    let bits = item_bits(net, source);
    match items_in(alloc, bits, bytes)? {
        Some(items) => {
            let name = net.sources[source].name;
            net.sources[source] = NetSource { name, items };
            Ok(())
        }
        None => Err(NetRefusal::Fault {
            rule: NetRule::Item,
            key: items_key(alloc, source)?,
        }),
    }
}
