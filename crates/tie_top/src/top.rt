ghost use Rattle.tie_top.specs.Answers.{called, IsRight, IsComplete};
ghost use Rattle.tie_top.specs.Answers.{UsageIsRight, ReadFaultIsRight, TooLongIsRight, TieRefusedIsRight, AsmRefusedIsRight, NetRefusedIsRight, TextRefusedIsRight, DoneIsRight, TrappedIsRight, UnfinishedIsRight, BlockedIsRight, WriteFaultIsRight};

use crate::delivery::deliver;
use crate::judgement::judge;
use crate::{Gate, Status};
use std::alloc::Global;
use std::thread::Threads;
use tie_io::{Shelf, Sink};

/// Does what the words say, which are those behind the program's name, and answers how it ended.
///
/// A report goes to `out`, the line of a refusal to `err`, and nothing is written before all files are read and the
/// run is over. Want of memory may come at any time; it says `no memory` on `err`.
pub fn tie_top<R: Threads, S: Shelf, O: Sink, G: Gate>(
    _rt: &R,
    alloc: Global,
    words: &[String],
    shelf: &mut S,
    out: &mut O,
    err: &mut O,
    _gate: &G,
) -> Status
    // The verdict is what the words mean over the shelf, and what is written is the verdict.
    ensures right { IsRight (called S.holds S.faults O.written O.faults
        words.now shelf.old shelf.new out.old out.new err.old err.new result) }

    // The cause of each status, and where it must come.
    ensures usage { UsageIsRight (called S.holds S.faults O.written O.faults
        words.now shelf.old shelf.new out.old out.new err.old err.new result) }
    ensures read_fault { ReadFaultIsRight (called S.holds S.faults O.written O.faults
        words.now shelf.old shelf.new out.old out.new err.old err.new result) }
    ensures too_long { TooLongIsRight (called S.holds S.faults O.written O.faults
        words.now shelf.old shelf.new out.old out.new err.old err.new result) }
    ensures tie_refused { TieRefusedIsRight (called S.holds S.faults O.written O.faults
        words.now shelf.old shelf.new out.old out.new err.old err.new result) }
    ensures asm_refused { AsmRefusedIsRight (called S.holds S.faults O.written O.faults
        words.now shelf.old shelf.new out.old out.new err.old err.new result) }
    ensures net_refused { NetRefusedIsRight (called S.holds S.faults O.written O.faults
        words.now shelf.old shelf.new out.old out.new err.old err.new result) }
    ensures text_refused { TextRefusedIsRight (called S.holds S.faults O.written O.faults
        words.now shelf.old shelf.new out.old out.new err.old err.new result) }
    ensures done { DoneIsRight (called S.holds S.faults O.written O.faults
        words.now shelf.old shelf.new out.old out.new err.old err.new result) }
    ensures trapped { TrappedIsRight (called S.holds S.faults O.written O.faults
        words.now shelf.old shelf.new out.old out.new err.old err.new result) }
    ensures unfinished { UnfinishedIsRight (called S.holds S.faults O.written O.faults
        words.now shelf.old shelf.new out.old out.new err.old err.new result) }
    ensures blocked { BlockedIsRight (called S.holds S.faults O.written O.faults
        words.now shelf.old shelf.new out.old out.new err.old err.new result) }
    ensures write_fault { WriteFaultIsRight (called S.holds S.faults O.written O.faults
        words.now shelf.old shelf.new out.old out.new err.old err.new result) }

    // A shelf that tells the files, files that are accepted and no fault give the command's report whole, or memory ran out.
    ensures complete { IsComplete (called S.holds S.faults O.written O.faults
        words.now shelf.old shelf.new out.old out.new err.old err.new result) }
{
    let verdict = judge(alloc, words, shelf);
    deliver(alloc, &verdict, out, err)
}
