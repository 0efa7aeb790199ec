//! What the text of a file is: a description, an image, a source, or how it is refused.

ghost use Rattle.std.specs.Prelude.{◌≡◌, ◌≤◌, length, IfOk, Ok};
ghost use Rattle.tie_front.specs.Front.{IsDescriptionOf};
ghost use Rattle.hex_text.specs.Hexadecimal.{hex_bytes};
ghost use Rattle.xt_asm.specs.Assembly.{assembly};
ghost use Rattle.tie_files.specs.Files.{RefusesTie, RefusesHex, RefusesSource};
ghost use Rattle.tie_files.specs.Parts.{Judges};

use crate::refusal::Refusal;
use hex_text::{HexRefusal, read_hex};
use net_toml::Text;
use std::alloc::Global;
use tie_desc::Desc;
use tie_front::{TieRefusal, read_tie};
use xt_asm::{AsmRefusal, assemble};

// The most bytes of an image.
const IMAGE_LIMIT: usize = 65_536;

/// The description of a TIE text, which is that of the file of this name.
pub fn tie_of(alloc: Global, name: &str, text: &[u8]) -> Result<Desc, Refusal>
    requires { length text.now ≤ 1048576 }
    ensures { Judges (IsDescriptionOf text.now) (RefusesTie name.now text.now) result }
{
    match read_tie(alloc, text) {
        Ok(desc) => Ok(desc),
        Err(TieRefusal::Fault { rule, place }) => Err(Refusal::TieRefused {
            name: Text::copy_of(alloc, name)?,
            rule,
            place,
        }),
        Err(TieRefusal::NoMemory) => Err(Refusal::NoMemory),
    }
}

/// The image in a hexadecimal text.
pub fn hex_of(alloc: Global, name: &str, text: &[u8]) -> Result<Vec<u8>, Refusal>
    requires { length text.now ≤ 1048576 }
    ensures bytes { Judges (λ image. hex_bytes 65536 text.now ≡ Ok image.items) (RefusesHex name.now text.now) result }
    ensures small { IfOk result (λ image. length image.items ≤ 65536) }
{
    match read_hex(alloc, text, IMAGE_LIMIT) {
        Ok(image) => Ok(image),
        Err(HexRefusal::Fault { rule, place }) => Err(Refusal::HexRefused {
            name: Text::copy_of(alloc, name)?,
            rule,
            place,
        }),
        Err(HexRefusal::NoMemory) => Err(Refusal::NoMemory),
    }
}

/// The image of a source.
pub fn source_of(alloc: Global, name: &str, desc: &Desc, text: &[u8]) -> Result<Vec<u8>, Refusal>
    requires { length text.now ≤ 1048576 }
    ensures { Judges (λ image. assembly desc.now text.now ≡ Ok image.items) (RefusesSource desc.now name.now text.now) result }
{
    match assemble(alloc, desc, text) {
        Ok(image) => Ok(image),
        Err(AsmRefusal::Fault { rule, line, column }) => Err(Refusal::AsmRefused {
            name: Text::copy_of(alloc, name)?,
            rule,
            line,
            column,
        }),
        Err(AsmRefusal::NoMemory) => Err(Refusal::NoMemory),
    }
}
