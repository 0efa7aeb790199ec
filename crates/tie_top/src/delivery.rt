ghost use Rattle.std.specs.Prelude.{◌≡◌, ◌≢◌, ◌≤◌, ◌<◌, length, OnOk, OnErr, IsErrOf};
ghost use Rattle.tie_io.specs.Counts.{Rose};
ghost use Rattle.tie_io.specs.Writing.{Grew, GrewWithin};
ghost use Rattle.tie_top.specs.Printing.{line_of};
ghost use Rattle.tie_top.specs.Delivery.{Delivered, Refused, Reported, sunk};

use crate::Status;
use crate::lines::line_of;
use crate::report::Report;
use crate::status::status_of;
use load_law::tie_files;
use std::alloc::Global;
use tie_files::Refusal;
use tie_io::{PutFault, Sink};

/// Writes the report to `out`, or the line of the refusal to `err`, and answers the status.
pub fn deliver<O: Sink>(
    alloc: Global,
    verdict: &Result<Report, Refusal>,
    out: &mut O,
    err: &mut O,
) -> Status
    ensures { Delivered (sunk O.written O.faults out.old out.new)
        (sunk O.written O.faults err.old err.new) verdict.now result }
{
    match verdict {
        Ok(report) => deliver_report(report, out, err),
        Err(Refusal::NoMemory) => want(err),
        Err(refusal) => deliver_refusal(alloc, refusal, out, err),
    }
}

fn deliver_report<O: Sink>(report: &Report, out: &mut O, err: &mut O) -> Status
    ensures { Reported (sunk O.written O.faults out.old out.new)
        (sunk O.written O.faults err.old err.new) report.now result }
{
    match put_lines(out, report.text.as_slice()) {
        Ok(()) => report.status,
        Err(PutFault::Failed) => Status::WriteFault,
        Err(PutFault::NoMemory) => want(err),
    }
}

fn deliver_refusal<O: Sink>(alloc: Global, refusal: &Refusal, out: &mut O, err: &mut O) -> Status
    requires { refusal.now ≢ Refusal.NoMemory }
    ensures { Refused (sunk O.written O.faults out.old out.new)
        (sunk O.written O.faults err.old err.new) refusal.now result }
{
    let Ok(line) = line_of(alloc, refusal) else {
        return want(err);
    };
    match err.put(line.as_bytes()) {
        Ok(()) => status_of(refusal),
        Err(PutFault::Failed) => Status::WriteFault,
        Err(PutFault::NoMemory) => want(err),
    }
}

// Says that memory ran out. The status stands whether the line is written or not.
fn want<O: Sink>(err: &mut O) -> Status
    ensures status { result ≡ Status.NoMemory }
    ensures within { GrewWithin (O.written err.old) (O.written err.new) (line_of Refusal.NoMemory) }
{
    let _ = put_lines(err, b"no memory\n");
    Status::NoMemory
}

// Writes a text, each line with its LF as one piece.
fn put_lines<O: Sink>(sink: &mut O, text: &[u8]) -> Result<(), PutFault>
    ensures ok { OnOk result (Grew (O.written sink.old) (O.written sink.new) text.now) }
    ensures err { OnErr result (GrewWithin (O.written sink.old) (O.written sink.new) text.now) }
    ensures later { O.faults sink.old ≤ O.faults sink.new }
    ensures failed { IsErrOf result PutFault.Failed → Rose (O.faults sink.old) (O.faults sink.new) }
{
    let mut done = 0;
    while done < text.len() {
        let end = line_end(text, done);
        match sink.put(&text[done..end]) {
            Ok(()) => done = end,
            Err(fault) => return Err(fault),
        }
    }
    Ok(())
}

// The place behind the line that begins here.
fn line_end(text: &[u8], from: usize) -> usize
    requires { from < length text.now }
    ensures after { from < result }
    ensures within { result ≤ length text.now }
{
    let mut end = from;
    while end < text.len() {
        end += 1;
        if text[end - 1] == b'\n' {
            break;
        }
    }
    end
}
