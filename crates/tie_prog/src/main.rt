//! The program: the top call over the files and the streams of the system.
#![tactic(auto)]

use std::alloc::AllocError;
use std::env::{Env, FillError};
use std::process::ExitCode;
use tie_io::{FileShelf, Sink, StdSink};
use tie_top::{NoGate, Status, tie_top};

// Word `number` of the command line, where there is one. Word 0 is the program's name. A word that isn't UTF-8 is taken
// as the empty one, which no command accepts.
fn word_at(rt: &(impl Env + AllocGlobal), number: usize) -> Result<Option<String>, AllocError> {
    let alloc = rt.alloc();
    let mut capacity = 256usize;
    for _ in 0..usize::BITS {
        let mut bytes = Vec::new(alloc);
        bytes.resize(capacity, 0u8)?;
        match rt.arg(number, &mut bytes) {
            Ok(length) => {
                bytes.truncate(length);
                let word = String::from_utf8(bytes).unwrap_or(String::new(alloc));
                return Ok(Some(word));
            }
            Err(FillError::NotPresent) => return Ok(None),
            Err(FillError::TooLong) => capacity = capacity.saturating_mul(2),
        }
    }
    Err(AllocError)
}

// The words behind the program's name.
fn words_of(rt: &(impl Env + AllocGlobal)) -> Result<Vec<String>, AllocError> {
    let mut words = Vec::new(rt.alloc());
    for number in 1..usize::MAX {
        let Some(word) = word_at(rt, number)? else {
            break;
        };
        words.push(word)?;
    }
    Ok(words)
}

fn main(rt: HostRuntime) -> ExitCode {
    let mut shelf = FileShelf::new(&rt);
    let mut out = StdSink::output(&rt);
    let mut err = StdSink::errors(&rt);
    let Ok(words) = words_of(&rt) else {
        let _ = err.put(b"no memory\n");
        return ExitCode::from(Status::NoMemory.number());
    };
    let status = tie_top(
        &rt,
        rt.alloc(),
        &words,
        &mut shelf,
        &mut out,
        &mut err,
        &NoGate,
    );
    ExitCode::from(status.number())
}
