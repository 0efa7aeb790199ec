// The files and the streams of the system. They tell nothing of what they hold, and count the errors of the system.
ghost use Rattle.std.specs.Prelude.{◌≡◌, ◌≤◌, ◌<◌, ◌+◌, ◌^◌, None, List, ℕ, [], length, IsOk, IsErrOf, IfSome, OnOk};
ghost use Rattle.tie_io.specs.Counts.{Rose, faults_after_read, faults_after_put};
ghost use Rattle.tie_io.specs.Reading.{IsRead};
ghost use Rattle.tie_io.specs.Writing.{IsPut};

use crate::{PutFault, ReadFault, Shelf, Sink};
use std::fs;
use std::io::{Print, Read, Stderr, Stdout};
use std::marker::Model;
use std::rt::Files;

const CHUNK: usize = 4096;

/// The files of the system, named by their paths. Contracts see the count of faults.
#[derive(Drop)]
pub struct FileShelf<'a, R: Files> {
    rt: &'a R,
    failed_reads: u64,
}

impl<'a, R: Files> Model for FileShelf<'a, R> {
    ghost use Rattle.std.specs.Prelude.{ℕ};

    ghost Value = { ℕ };

    ghost view = { λ s. s.failed_reads };
}

impl<'a, R: Files> FileShelf<'a, R> {
    pub fn new(rt: &'a R) -> FileShelf<'a, R>
        ensures { result ≡ 0 }
    {
        FileShelf {
            rt,
            failed_reads: 0,
        }
    }
}

// Reads to the end, or until there are more than `limit` bytes.
fn read_up_to<F: Read>(file: &mut F, limit: usize, into: &mut Vec<u8>) -> Result<(), ReadFault>
    requires { limit < 2 ^ 31 }
    ensures whole { OnOk result (length into.new.items ≤ limit) }
    ensures longer { IsErrOf result ReadFault.TooLong → limit < length into.new.items }
{
    let mut chunk = [0u8; CHUNK];
    while into.len() <= limit {
        let Ok(count) = file.read(&mut chunk) else {
            return Err(ReadFault::Failed);
        };
        if count == 0 {
            return Ok(());
        }
        if into.extend_from_slice(&chunk[..count]).is_err() {
            return Err(ReadFault::NoMemory);
        }
    }
    Err(ReadFault::TooLong)
}

impl<R: Files> Shelf for FileShelf<'_, R> {
    ghost holds = { λ s name. None };

    ghost faults = { λ s name. s };

    fn read(&mut self, name: &str, limit: usize, into: &mut Vec<u8>) -> Result<(), ReadFault>
        requires empty { into.old.items ≡ [] }
        requires small { limit < 2 ^ 31 }
        ensures bytes { IsRead None limit into.new.items result }
        ensures later { (other : List ℕ) → self.old ≤ self.new }
        ensures failed { IsErrOf result ReadFault.Failed → Rose self.old self.new }
        ensures counted { self.new ≡ faults_after_read self.old result }
    {
        let answer = match fs::open(self.rt, name) {
            Ok(mut file) => read_up_to(&mut file, limit, into),
            Err(_) => Err(ReadFault::Failed),
        };
        match answer {
            Ok(()) => {}
            Err(ReadFault::TooLong) => into.truncate(limit + 1),
            Err(ReadFault::NoMemory) => into.clear(),
            Err(ReadFault::Failed) => {
                into.clear();
                self.failed_reads = self.failed_reads.saturating_add(1);
            }
        }
        answer
    }
}

#[derive(Drop)]
enum Stream {
    Output(Stdout),
    Errors(Stderr),
}

/// The standard output or the standard error. Contracts see the count of faults.
#[derive(Drop)]
pub struct StdSink {
    stream: Stream,
    failed_writes: u64,
}

impl Model for StdSink {
    ghost use Rattle.std.specs.Prelude.{ℕ};

    ghost Value = { ℕ };

    ghost view = { λ s. s.failed_writes };
}

impl StdSink {
    /// The standard output.
    pub fn output(rt: &HostRuntime) -> StdSink
        ensures { result ≡ 0 }
    {
        StdSink {
            stream: Stream::Output(rt.stdout()),
            failed_writes: 0,
        }
    }

    /// The standard error.
    pub fn errors(rt: &HostRuntime) -> StdSink
        ensures { result ≡ 0 }
    {
        StdSink {
            stream: Stream::Errors(rt.stderr()),
            failed_writes: 0,
        }
    }
}

// How many bytes of the piece one write of the system took.
fn write_some(stream: &Stream, piece: &[u8]) -> Option<usize>
    ensures { IfSome result (λ count. count ≤ length piece.now) }
{
    match stream {
        Stream::Output(stream) => stream.write_some(piece).ok(),
        Stream::Errors(stream) => stream.write_some(piece).ok(),
    }
}

// Writes the whole piece. A write that takes nothing is a fault, as an error is.
fn write_whole(stream: &Stream, piece: &[u8]) -> Result<(), PutFault>
    ensures { IsErrOf result PutFault.NoMemory → ⊥ }
{
    let mut done = 0;
    while done < piece.len() {
        match write_some(stream, &piece[done..]) {
            None | Some(0) => return Err(PutFault::Failed),
            Some(count) => done += count,
        }
    }
    Ok(())
}

impl Sink for StdSink {
    ghost written = { λ s. None };

    ghost faults = { λ s. s };

    fn put(&mut self, piece: &[u8]) -> Result<(), PutFault>
        requires { 0 < length piece.now }
        ensures bytes { IsPut None None piece.now result }
        ensures later { self.old ≤ self.new }
        ensures failed { IsErrOf result PutFault.Failed → Rose self.old self.new }
        ensures counted { self.new ≡ faults_after_put self.old result }
    {
        let answer = write_whole(&self.stream, piece);
        if answer.is_err() {
            self.failed_writes = self.failed_writes.saturating_add(1);
        }
        answer
    }
}
