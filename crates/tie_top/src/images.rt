//! From a source to its image, and from an image to its listing.

ghost use Rattle.std.specs.Prelude.{◌≡◌, ◌≤◌, ℕ, List, length};
ghost use Rattle.tie_lines.specs.Lines.{image_text};
ghost use Rattle.tie_words.specs.Words as meant;
ghost use Rattle.xt_dis.specs.Listing.{Lists};
ghost use Rattle.load_law.specs.tie_files.Files.{shelved};
ghost use Rattle.tie_top.specs.Meaning.{UnlessMemory, CommandMeans, done};
ghost use Rattle.load_law.specs.tie_files.Parts.{Judges};

use crate::commands::done;
use crate::report::Report;
use load_law::tie_files;
use std::alloc::Global;
use tie_desc::Desc;
use tie_files::{Refusal, read_hex_file, read_source_file, read_tie_file};
use tie_io::Shelf;
use tie_lines::image_text;
use xt_dis::disassemble;

/// Assembles a source for a TIE text.
pub fn asm<S: Shelf>(
    alloc: Global,
    tie: &str,
    source: &str,
    shelf: &mut S,
) -> Result<Report, Refusal>
    ensures { UnlessMemory (CommandMeans (shelved S.holds S.faults shelf.old shelf.new) (meant.Asm tie.now source.now)) result }
{
    let desc = read_tie_file(alloc, tie, shelf)?;
    let image = read_source_file(alloc, source, &desc, shelf)?;
    print(alloc, &image)
}

/// Lists an image by a TIE text.
pub fn dis<S: Shelf>(alloc: Global, tie: &str, hex: &str, shelf: &mut S) -> Result<Report, Refusal>
    ensures { UnlessMemory (CommandMeans (shelved S.holds S.faults shelf.old shelf.new) (meant.Dis tie.now hex.now)) result }
{
    let desc = read_tie_file(alloc, tie, shelf)?;
    let image = read_hex_file(alloc, hex, shelf)?;
    list(alloc, &desc, &image)
}

// The bytes of an image.
fn print(alloc: Global, bytes: &[u8]) -> Result<Report, Refusal>
    ensures { Judges (λ report. report ≡ done (image_text bytes.now)) (λ refusal. ⊥) result }
{
    let text = image_text(alloc, bytes)?;
    Ok(done(text.into_bytes()))
}

// The listing of an image.
fn list(alloc: Global, desc: &Desc, bytes: &[u8]) -> Result<Report, Refusal>
    requires { length bytes.now ≤ 65536 }
    ensures { Judges (λ report. (text : List ℕ) × Lists desc.now 0 bytes.now text × (report ≡ done text)) (λ refusal. ⊥) result }
{
    let Ok(text) = disassemble(alloc, desc, bytes) else {
        return Err(Refusal::NoMemory);
    };
    Ok(done(text))
}
