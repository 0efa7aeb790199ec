//! From bytes to their listing.

ghost use Rattle.std.specs.Prelude.{◌≡◌, ◌++◌, ◌≤◌, ◌<◌, length, drop, IfOk, OnOk};
ghost use Rattle.tie_desc.specs.Spelling.{HasSpelling};
ghost use Rattle.tie_desc.specs.Fetching.{Shows};
ghost use Rattle.xt_dis.specs.Listing as listing;

use crate::instructions::push_core;
use crate::operations::{push_part, push_wide};
use crate::text::{push, push_decimal};
use std::alloc::Global;
use tie_desc::{Bundle, Desc, Fetched};
use tie_flix::{NoMemory, decode_bundle};

/// What the bytes from a place on begin with.
fn shown_at(desc: &Desc, bytes: &[u8], place: usize) -> Option<Fetched>
    requires { place ≤ length bytes.now }
    ensures { Shows desc.now (drop place bytes.now) result }
{
    decode_bundle(desc, &bytes[place..])
}

/// A bundle at an address.
fn push_bundle(text: &mut Vec<u8>, desc: &Desc, at: u32, bundle: &Bundle) -> Result<(), NoMemory>
    requires { HasSpelling desc.now bundle.now }
    ensures { OnOk result (text.new.items ≡ text.old.items ++ listing.bundle_text desc.now at bundle.now) }
{
    match bundle {
        Bundle::Core(inst) => push_core(text, at, inst),
        Bundle::One(part) => push_part(text, desc, part),
        Bundle::Wide { format, parts } => push_wide(text, desc, *format, parts.as_slice()),
    }
}

/// The line of a bundle at an address.
#[tactic(auto, using(std::proofs::Common::append_assoc))]
fn push_line(text: &mut Vec<u8>, desc: &Desc, at: u32, bundle: &Bundle) -> Result<(), NoMemory>
    requires { HasSpelling desc.now bundle.now }
    ensures { OnOk result (text.new.items ≡ text.old.items ++ listing.line (listing.bundle_text desc.now at bundle.now)) }
{
    push_bundle(text, desc, at, bundle)?;
    push(text, b"\n")
}

/// The line of a byte that begins no bundle.
#[tactic(auto, using(std::proofs::Common::append_assoc))]
fn push_byte(text: &mut Vec<u8>, byte: u8) -> Result<(), NoMemory>
    ensures { OnOk result (text.new.items ≡ text.old.items ++ listing.line (listing.byte_text byte)) }
{
    push(text, b".byte ")?;
    push_decimal(text, byte)?;
    push(text, b"\n")
}

/// The listing of an image of at most 65,536 bytes from address 0: a line for each bundle, one behind the other, and
/// one for a byte that begins none. Takes time linear in the image.
pub fn disassemble(alloc: Global, desc: &Desc, bytes: &[u8]) -> Result<Vec<u8>, NoMemory>
    requires { length bytes.now ≤ 65536 }
    ensures { IfOk result (λ text. listing.Lists desc.now 0 bytes.now text.items) }
{
    let mut text = Vec::new(alloc);
    let mut at = 0;
    while at < bytes.len() {
        match shown_at(desc, bytes, at) {
            Some(fetched) => {
                push_line(&mut text, desc, at as u32, &fetched.bundle)?;
                at += fetched.length as usize;
            }
            None => {
                push_byte(&mut text, bytes[at])?;
                at += 1;
            }
        }
    }
    Ok(text)
}
