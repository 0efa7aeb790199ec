//! From a bundle to bytes.

ghost use Rattle.std.specs.Prelude.{◌≡◌, ◌≤◌, ◌<◌, ◌^◌, ◌-◌, [], ◌∷◌, length, IsTrue, MatchOption};
ghost use Rattle.xt_isa.specs.Table.{Fits};
ghost use Rattle.tie_desc.specs.Invariant.{IsFormat};
ghost use Rattle.tie_desc.specs.Slots.{slots_space};
ghost use Rattle.tie_desc.specs.Spelling as spelling;
ghost use Rattle.tie_desc.specs.declared.bundle.Bundle.TheVariants as bundle;
ghost use Rattle.tie_desc.specs.declared.formats.Code.TheVariants as code;
ghost use Rattle.tie_flix.specs.Faults as faults;

use crate::fault::BundleFault;
use crate::fields::part_fits;
use crate::listed::is_listed;
use crate::registers::writes_differ;
use crate::spell::{pushed, word_bytes};
use arrayvec::ArrayVec;
use tie_desc::{Bundle, Code, Desc, FormatDecl, Part, SlotDecl};
use xt_isa::{Inst, encode_core, fits};

fn first_unlisted(slots: &[SlotDecl], parts: &[Part]) -> Option<usize>
    requires { length parts.now ≡ length slots.now }
    ensures { MatchOption result (faults.AllPass spelling.is_listed slots.now parts.now) (faults.FirstFails spelling.is_listed slots.now parts.now) }
{
    for i in 0..slots.len() {
        if !is_listed(&slots[i], &parts[i]) {
            return Some(i);
        }
    }
    None
}

fn fits_in(desc: &Desc, _slot: &SlotDecl, part: &Part) -> bool
    ensures { result ≡ faults.fits_in desc.now _slot.now part.now }
{
    part_fits(desc, part)
}

fn first_unfit(desc: &Desc, slots: &[SlotDecl], parts: &[Part]) -> Option<usize>
    requires { length parts.now ≡ length slots.now }
    ensures { MatchOption result (faults.AllPass (faults.fits_in desc.now) slots.now parts.now) (faults.FirstFails (faults.fits_in desc.now) slots.now parts.now) }
{
    for i in 0..slots.len() {
        if !fits_in(desc, &slots[i], &parts[i]) {
            return Some(i);
        }
    }
    None
}

fn first_repeat(desc: &Desc, parts: &[Part]) -> Option<usize>
    requires { length parts.now ≤ 4 }
    ensures { MatchOption result (IsTrue (spelling.writes_differ desc.now parts.now)) (faults.FirstRepeats desc.now parts.now) }
{
    for i in 0..parts.len() {
        if !writes_differ(desc, &parts[..i + 1]) {
            return Some(i);
        }
    }
    None
}

fn encode_inst(desc: &Desc, inst: &Inst) -> Result<ArrayVec<u8, 8>, BundleFault>
    ensures { faults.Encodes desc.now (bundle.Core inst.now) (faults.items_of result) }
{
    if fits(inst) {
        Ok(pushed(&encode_core(inst)))
    } else {
        Err(BundleFault::Field { slot: 0 })
    }
}

fn encode_one(desc: &Desc, part: &Part) -> Result<ArrayVec<u8, 8>, BundleFault>
    requires { spelling.IsOp desc.now part.now.code }
    ensures { faults.Encodes desc.now (bundle.One part.now) (faults.items_of result) }
{
    desc.facts();
    if !part_fits(desc, part) {
        return Err(BundleFault::Field { slot: 0 });
    }
    if !writes_differ(desc, &[*part]) {
        return Err(BundleFault::SameDest { slot: 0 });
    }
    match part.code {
        Code::Core(_) => Err(BundleFault::SlotCount),
        Code::Op(op) => Ok(op_bytes(op, part.fields[0], part.fields[1], part.fields[2])),
    }
}

/// The bytes of the operation of a number, its fields in r, s and t.
fn op_bytes(op: u8, r: u8, s: u8, t: u8) -> ArrayVec<u8, 8>
    requires op { op < 32 }
    requires r { r < 16 }
    requires s { s < 16 }
    requires t { t < 16 }
    ensures { result.items ≡ spelling.three_bytes (spelling.op_word (code.Op op) (r ∷ s ∷ t ∷ [])) }
{
    pushed(&[16 * t, s + 16 * r, 6 + op / 16 + 16 * (op % 16)])
}

/// A format with a part for each slot, each one listed and fitting.
fn encode_fitting(
    desc: &Desc,
    format: &FormatDecl,
    parts: &[Part],
) -> Result<ArrayVec<u8, 8>, BundleFault>
    requires format { IsFormat desc.now format.now }
    requires number { format.now.number < 16 }
    requires room { slots_space desc.now format.now.slots ≤ 2 ^ (format.now.width - 8) }
    requires count { length parts.now ≡ length format.now.slots }
    requires listed { faults.AllPass spelling.is_listed format.now.slots parts.now }
    requires fit { faults.AllPass (faults.fits_in desc.now) format.now.slots parts.now }
    ensures { faults.EncodesWide desc.now format.now parts.now (faults.items_of result) }
{
    match first_repeat(desc, parts) {
        Some(i) => Err(BundleFault::SameDest { slot: i as u8 }),
        None => Ok(word_bytes(desc, format, parts)),
    }
}

/// A format with a part for each slot, each one listed.
fn encode_listed(
    desc: &Desc,
    format: &FormatDecl,
    parts: &[Part],
) -> Result<ArrayVec<u8, 8>, BundleFault>
    requires format { IsFormat desc.now format.now }
    requires number { format.now.number < 16 }
    requires room { slots_space desc.now format.now.slots ≤ 2 ^ (format.now.width - 8) }
    requires count { length parts.now ≡ length format.now.slots }
    requires listed { faults.AllPass spelling.is_listed format.now.slots parts.now }
    ensures { faults.EncodesWide desc.now format.now parts.now (faults.items_of result) }
{
    match first_unfit(desc, format.slots.as_slice(), parts) {
        Some(i) => Err(BundleFault::Field { slot: i as u8 }),
        None => encode_fitting(desc, format, parts),
    }
}

fn encode_wide(
    desc: &Desc,
    format: &FormatDecl,
    parts: &[Part],
) -> Result<ArrayVec<u8, 8>, BundleFault>
    requires format { IsFormat desc.now format.now }
    requires number { format.now.number < 16 }
    requires room { slots_space desc.now format.now.slots ≤ 2 ^ (format.now.width - 8) }
    ensures { faults.EncodesWide desc.now format.now parts.now (faults.items_of result) }
{
    if parts.len() != format.slots.len() {
        return Err(BundleFault::SlotCount);
    }
    match first_unlisted(format.slots.as_slice(), parts) {
        Some(i) => Err(BundleFault::NotListed { slot: i as u8 }),
        None => encode_listed(desc, format, parts),
    }
}

/// The bytes of a bundle: three of a core instruction and of an operation alone, four or eight of a format. Takes no
/// memory.
///
/// The bundle's numbers of a format and of an operation that stands alone are the description's.
pub fn encode_bundle(desc: &Desc, bundle: &Bundle) -> Result<ArrayVec<u8, 8>, BundleFault>
    requires { faults.IsKnown desc.now bundle.now }
    // The bytes where the bundle has a spelling, else its first fault.
    ensures { faults.Encodes desc.now bundle.now (faults.items_of result) }
{
    match bundle {
        Bundle::Core(inst) => encode_inst(desc, inst),
        Bundle::One(part) => encode_one(desc, part),
        Bundle::Wide { format, parts } => match desc.formats.get(*format as usize) {
            Some(format) => encode_wide(desc, format, parts.as_slice()),
            None => Err(BundleFault::SlotCount),
        },
    }
}
