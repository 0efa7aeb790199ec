//! A file of a shelf, read and judged.

ghost use Rattle.std.specs.Prelude.{◌≡◌, ◌≤◌, List, ℕ, length, IfOk};
ghost use Rattle.tie_files.specs.Files.{shelved, IsTextOf, IsTie, IsHex, IsSource, RefusesTie, RefusesHex, RefusesSource, IsWrong};
ghost use Rattle.tie_files.specs.Parts.{Judges};

use crate::refusal::Refusal;
use crate::texts::{hex_of, source_of, tie_of};
use net_toml::Text;
use std::alloc::Global;
use tie_desc::Desc;
use tie_io::{ReadFault, Shelf};

// The most bytes of a file.
const FILE_LIMIT: usize = 1_048_576;

/// The bytes of a file.
pub fn read_file<S: Shelf>(alloc: Global, name: &str, shelf: &mut S) -> Result<Vec<u8>, Refusal>
    ensures read { Judges (λ file. IsTextOf (shelved S.holds S.faults shelf.old shelf.new) name.now file.items)
        (IsWrong (shelved S.holds S.faults shelf.old shelf.new) name.now (λ text refusal. ⊥)) result }
    ensures small { IfOk result (λ file. length file.items ≤ 1048576) }
    ensures same { (other : List ℕ) → S.holds shelf.new other ≡ S.holds shelf.old other }
    ensures later { (other : List ℕ) → S.faults shelf.old other ≤ S.faults shelf.new other }
{
    let owned = Text::copy_of(alloc, name)?;
    let mut bytes = Vec::new(alloc);
    match shelf.read(name, FILE_LIMIT, &mut bytes) {
        Ok(()) => Ok(bytes),
        Err(ReadFault::Failed) => Err(Refusal::ReadFault { name: owned }),
        Err(ReadFault::TooLong) => Err(Refusal::TooLong { name: owned }),
        Err(ReadFault::NoMemory) => Err(Refusal::NoMemory),
    }
}

/// The description in a file of TIE text.
pub fn read_tie_file<S: Shelf>(alloc: Global, name: &str, shelf: &mut S) -> Result<Desc, Refusal>
    ensures judged { Judges (IsTie (shelved S.holds S.faults shelf.old shelf.new) name.now)
        (IsWrong (shelved S.holds S.faults shelf.old shelf.new) name.now (RefusesTie name.now)) result }
    ensures same { (other : List ℕ) → S.holds shelf.new other ≡ S.holds shelf.old other }
    ensures later { (other : List ℕ) → S.faults shelf.old other ≤ S.faults shelf.new other }
{
    let text = read_file(alloc, name, shelf)?;
    tie_of(alloc, name, &text)
}

/// The image in a file of hexadecimal text.
pub fn read_hex_file<S: Shelf>(alloc: Global, name: &str, shelf: &mut S) -> Result<Vec<u8>, Refusal>
    ensures judged { Judges (λ image. IsHex (shelved S.holds S.faults shelf.old shelf.new) name.now image.items)
        (IsWrong (shelved S.holds S.faults shelf.old shelf.new) name.now (RefusesHex name.now)) result }
    ensures small { IfOk result (λ image. length image.items ≤ 65536) }
    ensures same { (other : List ℕ) → S.holds shelf.new other ≡ S.holds shelf.old other }
    ensures later { (other : List ℕ) → S.faults shelf.old other ≤ S.faults shelf.new other }
{
    let text = read_file(alloc, name, shelf)?;
    hex_of(alloc, name, &text)
}

/// The image of the source in a file, by a description.
pub fn read_source_file<S: Shelf>(
    alloc: Global,
    name: &str,
    desc: &Desc,
    shelf: &mut S,
) -> Result<Vec<u8>, Refusal>
    ensures judged { Judges (λ image. IsSource (shelved S.holds S.faults shelf.old shelf.new) desc.now name.now image.items)
        (IsWrong (shelved S.holds S.faults shelf.old shelf.new) name.now (RefusesSource desc.now name.now)) result }
    ensures same { (other : List ℕ) → S.holds shelf.new other ≡ S.holds shelf.old other }
    ensures later { (other : List ℕ) → S.faults shelf.old other ≤ S.faults shelf.new other }
{
    let text = read_file(alloc, name, shelf)?;
    source_of(alloc, name, desc, &text)
}
