ghost use Rattle.std.specs.Prelude.{map, string_bytes};
ghost use Rattle.load_law.specs.tie_files.Files.{shelved};
ghost use Rattle.tie_top.specs.Meaning.{UnlessMemory, CommandMeans, Means};
ghost use Rattle.tie_words.specs.Reading.{seen};

use crate::commands::check;
use crate::images::{asm, dis};
use crate::networks::{exec, exec_tie, reference, strict};
use crate::report::Report;
use load_law::tie_files;
use std::alloc::Global;
use tie_files::Refusal;
use tie_io::Shelf;
use tie_words::{Command, command_of};

/// Reads and judges the files of the words, one after the other, and makes the report.
pub fn judge<S: Shelf>(alloc: Global, words: &[String], shelf: &mut S) -> Result<Report, Refusal>
    ensures { UnlessMemory (Means (shelved S.holds S.faults shelf.old shelf.new)
        (map string_bytes words.now)) result }
{
    match command_of(words) {
        Ok(command) => obey(alloc, command, shelf),
        Err(word) => Err(Refusal::Usage { word }),
    }
}

fn obey<S: Shelf>(alloc: Global, command: Command<'_>, shelf: &mut S) -> Result<Report, Refusal>
    ensures { UnlessMemory (CommandMeans (shelved S.holds S.faults shelf.old shelf.new)
        (seen command.entry)) result }
{
    match command {
        Command::Check { tie } => check(alloc, tie, shelf),
        Command::Asm { tie, source } => asm(alloc, tie, source, shelf),
        Command::Dis { tie, hex } => dis(alloc, tie, hex, shelf),
        Command::Exec { hex } => exec(alloc, hex, shelf),
        Command::ExecTie { hex, tie } => exec_tie(alloc, hex, tie, shelf),
        Command::Ref { net } => reference(alloc, net, shelf),
        Command::Strict { net } => strict(alloc, net, shelf),
    }
}
