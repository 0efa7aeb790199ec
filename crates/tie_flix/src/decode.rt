//! From bytes to a bundle.

ghost use Rattle.std.specs.Prelude.{◌≡◌, ℕ, List, ◌++◌, Some, IfSome};
ghost use Rattle.tie_desc.specs.Spelling.{spell, HasSpelling};
ghost use Rattle.tie_desc.specs.Fetching.{IsFetched, fetched_of};
ghost use Rattle.tie_desc.specs.declared.bundle.Bundle.{Bundle};
ghost use Rattle.tie_flix.specs.Reading as reading;

use crate::words::{read_three, read_wide};
use tie_desc::{Desc, Fetched};

fn read_long(desc: &Desc, bytes: &[u8]) -> Option<Fetched>
    ensures { result ≡ reading.read_long desc.now bytes.now }
{
    match bytes {
        [a, b, c, e, f, g, h, i, ..] => {
            let word = u64::from_le_bytes([*a, *b, *c, *e, *f, *g, *h, *i]);
            read_wide(desc, 64, 8, word)
        }
        _ => None,
    }
}

fn read_short(desc: &Desc, bytes: &[u8]) -> Option<Fetched>
    ensures { result ≡ reading.read_short desc.now bytes.now }
{
    match bytes {
        [a, b, c, e, ..] => {
            let word = u32::from_le_bytes([*a, *b, *c, *e]);
            read_wide(desc, 32, 4, u64::from(word))
        }
        _ => None,
    }
}

fn read_brief(desc: &Desc, bytes: &[u8]) -> Option<Fetched>
    ensures { result ≡ reading.read_brief desc.now bytes.now }
{
    match bytes {
        [a, b, c, ..] => read_three(desc, *a, *b, *c),
        _ => None,
    }
}

#[tactic(auto, unfolding(crate::specs::Reading::fetch))]
fn fetch(desc: &Desc, bytes: &[u8]) -> Option<Fetched>
    ensures { result ≡ reading.fetch desc.now bytes.now }
{
    let op0 = match bytes {
        [] => 0,
        [first, ..] => *first % 16,
    };
    if op0 == 15 {
        read_long(desc, bytes)
    } else if op0 == 14 {
        read_short(desc, bytes)
    } else {
        read_brief(desc, bytes)
    }
}

/// The bundle that the bytes begin with, and the count of its bytes; None exactly where they begin with no bundle's
/// spelling. Takes no memory.
///
/// Bits that a format doesn't use are 0, each field is in its range, each code is listed, and no register is written
/// twice; other bytes are those of no bundle.
pub fn decode_bundle(desc: &Desc, bytes: &[u8]) -> Option<Fetched>
    // What is found has a spelling, and the bytes begin with it.
    ensures found { IfSome result (IsFetched desc.now bytes.now) }

    // A bundle whose spelling the bytes begin with is the answer: there is one at most, and it is never missed.
    ensures only { (b : Bundle) (rest : List ℕ) → HasSpelling desc.now b → bytes.now ≡ spell desc.now b ++ rest → result ≡ Some (fetched_of desc.now b) }
{
    desc.facts();
    fetch(desc, bytes)
}
