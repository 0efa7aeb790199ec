//! The image of a text.

ghost use Rattle.std.specs.Prelude.{◌≤◌, IfOk, drop, length};
ghost use Rattle.tie_desc.specs.Fetching.{IsImage, Shows};

use crate::decode::decode_bundle;
use crate::memory::NoMemory;
use std::alloc::Global;
use tie_desc::{Desc, Fetched, Image, Sequence};

/// What the text's bytes from a place on begin with.
fn shown_at(desc: &Desc, text: &[u8], place: usize) -> Option<Fetched>
    requires { place ≤ length text.now }
    ensures { Shows desc.now (drop place text.now) result }
{
    decode_bundle(desc, &text[place..])
}

/// At each place of the text the bundle that the bytes from there to the text's end begin with, or None. Takes time
/// linear in the text, and memory for one place a byte.
pub fn image(alloc: Global, desc: &Desc, text: &[u8]) -> Result<Image, NoMemory>
    ensures { IfOk result (λ image. IsImage desc.now text.now image.at) }
{
    let mut at = Sequence::new(alloc);
    for place in 0..text.len() {
        at.push(shown_at(desc, text, place))?;
    }
    Ok(Image { at })
}
