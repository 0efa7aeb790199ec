//! What `check` does.

ghost use Rattle.std.specs.Prelude.{◌≡◌};
ghost use Rattle.tie_words.specs.Words as meant;
ghost use Rattle.load_law.specs.tie_files.Files.{shelved};
ghost use Rattle.tie_top.specs.Meaning.{UnlessMemory, CommandMeans, done};

use crate::Status;
use crate::report::Report;
use load_law::tie_files;
use std::alloc::Global;
use tie_desc::Sequence;
use tie_files::{Refusal, read_tie_file};
use tie_io::Shelf;
use tie_lines::check_text;

/// Lists what a TIE text declares.
pub fn check<S: Shelf>(alloc: Global, tie: &str, shelf: &mut S) -> Result<Report, Refusal>
    ensures { UnlessMemory (CommandMeans (shelved S.holds S.faults shelf.old shelf.new) (meant.Check tie.now)) result }
{
    let desc = read_tie_file(alloc, tie, shelf)?;
    let text = check_text(alloc, &desc)?;
    Ok(done(text.into_bytes()))
}

/// The report of a command that runs nothing.
pub fn done(text: Vec<u8>) -> Report
    ensures { result ≡ done text.items }
{
    Report {
        status: Status::Done,
        text: Sequence::from_vec(text),
    }
}
