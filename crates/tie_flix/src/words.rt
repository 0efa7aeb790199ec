//! Reading words: three bytes, four, and eight.

ghost use Rattle.std.specs.Prelude.{◌≡◌, ◌≤◌, length};
ghost use Rattle.tie_desc.specs.Slots as slots;
ghost use Rattle.tie_flix.specs.Reading as reading;

use crate::fields::part_fits;
use crate::registers::writes_differ;
use crate::slots::read_slots;
use tie_desc::{Bundle, Code, Desc, Fetched, FormatDecl, Part};
use xt_isa::{Inst, decode_core};

fn read_format(desc: &Desc, place: u8, size: u8, bits: u64, format: &FormatDecl) -> Option<Fetched>
    requires { length format.now.slots ≤ 4 }
    ensures { result ≡ reading.read_format desc.now place size bits format.now }
{
    match read_slots(desc, format.slots.as_slice(), bits) {
        None => None,
        Some(parts) => {
            if parts.len() <= 4 && writes_differ(desc, parts.as_slice()) {
                Some(Fetched {
                    bundle: Bundle::Wide {
                        format: place,
                        parts,
                    },
                    length: size,
                })
            } else {
                None
            }
        }
    }
}

fn is_format(width: u8, number: u8, format: &FormatDecl) -> bool
    ensures { result ≡ slots.is_format width number format.now }
{
    format.width == width && format.number == number
}

fn format_place(desc: &Desc, width: u8, number: u8) -> usize
    ensures { result ≡ slots.format_place width number desc.now.formats }
{
    desc.formats
        .as_slice()
        .iter()
        .take_while(|format| !is_format(width, number, format))
        .count()
}

/// The bundle of a word of a width in bits, which its lowest four bits gave.
#[tactic(auto, unfolding(crate::specs::Reading::read_wide))]
pub fn read_wide(desc: &Desc, width: u8, size: u8, word: u64) -> Option<Fetched>
    ensures { result ≡ reading.read_wide desc.now width size word }
{
    desc.facts();
    let place = format_place(desc, width, (word / 16 % 16) as u8);
    match desc.formats.get(place) {
        None => None,
        Some(format) => read_format(desc, place as u8, size, word / 256, format),
    }
}

fn one_of(desc: &Desc, part: Part) -> Option<Fetched>
    ensures { result ≡ reading.one_of desc.now part }
{
    if part_fits(desc, &part) && writes_differ(desc, &[part]) {
        Some(Fetched {
            bundle: Bundle::One(part),
            length: 3,
        })
    } else {
        None
    }
}

#[tactic(auto, unfolding(crate::specs::Reading::read_op))]
fn read_op(desc: &Desc, a: u8, b: u8, c: u8) -> Option<Fetched>
    ensures { result ≡ reading.read_op desc.now a b c }
{
    if a % 16 == 0
        && 6 <= c % 16
        && c % 16 < 8
        && ((c / 16 + 16 * (c % 16 - 6)) as usize) < desc.ops.len()
    {
        one_of(
            desc,
            Part {
                code: Code::Op(c / 16 + 16 * (c % 16 - 6)),
                fields: [b / 16, b % 16, a / 16],
            },
        )
    } else {
        None
    }
}

fn read_core(a: u8, b: u8, c: u8) -> Option<Inst>
    ensures { result ≡ reading.read_core a b c }
{
    decode_core([a, b, c])
}

/// The bundle of three bytes: a core instruction or an operation.
#[tactic(auto, unfolding(crate::specs::Reading::read_three))]
pub fn read_three(desc: &Desc, a: u8, b: u8, c: u8) -> Option<Fetched>
    ensures { result ≡ reading.read_three desc.now a b c }
{
    match read_core(a, b, c) {
        Some(inst) => Some(Fetched {
            bundle: Bundle::Core(inst),
            length: 3,
        }),
        None => read_op(desc, a, b, c),
    }
}
