//! What the texts of the files say that a network file names, and how the network file is refused.

ghost use Rattle.std.specs.Prelude.{◌≡◌, ◌⊎◌, ◌<◌, ◌≤◌, ◌&&◌, ◌++◌, codes, nat_le, IfOk, length};
ghost use Rattle.net_desc.specs.net_parts.Network.{IsNet};
ghost use Rattle.net_desc.specs.net_toml.Broken.{GivesAs};
ghost use Rattle.net_desc.specs.Items.{source_items, SameBut};
ghost use Rattle.tie_files.specs.declared.refusal.Refusal.TheVariants.{NoMemory};
ghost use Rattle.net_load.specs.Pieces.{refusal_of};
ghost use Rattle.net_load.specs.Texts.{hex_in, image_key, image_in, items_key, items_in};

use hex_text::{HexRefusal, read_hex};
use net_desc::{net_parts, net_toml, set_items};
use net_parts::Net;
use net_toml::{NetRefusal, NetRule, PlanCore, Text};
use std::alloc::{AllocError, Global};
use tie_files::Refusal;

// The most bytes that a file of hexadecimal text stands for.
const BYTES_LIMIT: usize = 1_048_576;

// The most bytes of an image.
const IMAGE_LIMIT: usize = 65_536;

/// A refusal of a network, told of the network file of this name.
pub fn refused(alloc: Global, name: &str, refusal: NetRefusal) -> Refusal
    ensures { (result ≡ Refusal.NoMemory) ⊎ (result ≡ refusal_of name.now refusal) }
{
    match refusal {
        NetRefusal::Fault { rule, key } => match Text::copy_of(alloc, name) {
            Ok(name) => Refusal::NetRefused { name, rule, key },
            Err(_) => Refusal::NoMemory,
        },
        NetRefusal::NoMemory => Refusal::NoMemory,
    }
}

fn hex_in(alloc: Global, key: Text, text: &[u8]) -> Result<Vec<u8>, NetRefusal>
    requires { length text.now ≤ 1048576 }
    ensures value { GivesAs (λ v. v.items) result (hex_in key text.now) }
    ensures few { IfOk result (λ v. length v.items ≤ 1048576) }
{
    match read_hex(alloc, text, BYTES_LIMIT) {
        Ok(bytes) => Ok(bytes),
        Err(HexRefusal::Fault { .. }) => Err(NetRefusal::Fault {
            rule: NetRule::Hex,
            key,
        }),
        Err(HexRefusal::NoMemory) => Err(NetRefusal::NoMemory),
    }
}

fn image_key(alloc: Global, index: usize) -> Result<Text, AllocError>
    ensures { IfOk result (λ text. text ≡ image_key index) }
{
    Ok(Text::new(format!(in alloc; "core[{index}].image")?))
}

fn items_key(alloc: Global, index: usize) -> Result<Text, AllocError>
    ensures { IfOk result (λ text. text ≡ items_key index) }
{
    Ok(Text::new(format!(in alloc; "source[{index}].items")?))
}

fn fits(len: usize, memory: u32) -> bool
    ensures { result ≡ (nat_le len memory && nat_le len 65536) }
{
    len <= memory as usize && len <= IMAGE_LIMIT
}

/// The image of a processor in its text.
#[tactic(auto, unfolding(crate::specs::Texts::image_in))]
pub fn image_in(
    alloc: Global,
    index: usize,
    core: &PlanCore,
    text: &[u8],
) -> Result<Vec<u8>, NetRefusal>
    requires { length text.now ≤ 1048576 }
    ensures { GivesAs (λ v. v.items) result (image_in index core.now text.now) }
{
    let image = hex_in(alloc, image_key(alloc, index)?, text)?;
    if !fits(image.len(), core.memory) {
        return Err(NetRefusal::Fault {
            rule: NetRule::Image,
            key: image_key(alloc, index)?,
        });
    }
    Ok(image)
}

/// Gives a source the items in a text.
#[tactic(auto, unfolding(crate::specs::Texts::items_in))]
pub fn give_items(alloc: Global, index: usize, text: &[u8], net: &mut Net) -> Result<(), NetRefusal>
    requires network { IsNet net.old }
    requires source { index < length net.old.sources.items }
    requires text { length text.now ≤ 1048576 }
    ensures items { GivesAs (λ _. source_items net.new index) result (items_in net.old index text.now) }
    ensures same { SameBut index net.old net.new }
    ensures network { IsNet net.new }
{
    let bytes = hex_in(alloc, items_key(alloc, index)?, text)?;
    set_items(net, index, &bytes)
}
