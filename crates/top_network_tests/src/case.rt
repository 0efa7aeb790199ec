//! One call over files in memory.

use std::alloc::Global;
use std::process::Abort;
use std::test::Fail;
use std::thread::Threads;
use tie_io::{MemShelf, MemSink};
use tie_top::{NoGate, Status, tie_top};

/// A call with these files and words, and what it must answer and write.
pub struct Case {
    pub files: &'static [(&'static str, &'static str)],
    pub words: &'static [&'static str],
    pub status: Status,
    pub out: &'static str,
    pub err: &'static str,
}

/// What a call answers, and what stands on the two sinks then.
pub fn call(
    rt: &(impl Threads + AllocGlobal),
    files: &[(&str, &str)],
    words: &[&str],
) -> Result<(Status, MemSink, MemSink), Fail> {
    let alloc = rt.alloc();
    let mut shelf = shelf(alloc, files)?;
    let mut out = MemSink::new(alloc, Vec::new(alloc));
    let mut err = MemSink::new(alloc, Vec::new(alloc));
    let words = owned(alloc, words)?;
    let status = tie_top(rt, alloc, &words, &mut shelf, &mut out, &mut err, &NoGate);
    Ok((status, out, err))
}

fn shelf(alloc: Global, files: &[(&str, &str)]) -> Result<MemShelf, Fail> {
    let mut shelf = MemShelf::new(alloc, Vec::new(alloc));
    for (name, text) in files {
        shelf.add(name, text.as_bytes()).ok().ok_or("no memory")?;
    }
    Ok(shelf)
}

fn owned(alloc: Global, words: &[&str]) -> Result<Vec<String>, Fail> {
    let mut owned = Vec::new(alloc);
    for word in words {
        owned.push(String::from_str(alloc, word)?)?;
    }
    Ok(owned)
}

/// Makes each call, and compares.
pub fn compare(rt: &(impl Threads + Abort + AllocGlobal), cases: &[Case]) -> Result<(), Fail> {
    for case in cases {
        let (status, out, err) = call(rt, case.files, case.words)?;
        assert_eq!(rt; out.written(), case.out.as_bytes());
        assert_eq!(rt; err.written(), case.err.as_bytes());
        assert_eq!(rt; status, case.status);
    }
    Ok(())
}

/// An input queue, and POP from it.
pub const POPPING: &str = "queue IN 32 in operation POP {out AR d} {in IN} {assign d = IN;}";

/// An output queue, and PUSH to it.
pub const PUSHING: &str = "queue OUT 32 out operation PUSH {in AR s} {out OUT} {assign OUT = s;}";

/// Both queues, and ECHO from the one to the other.
pub const ECHOING: &str =
    "queue IN 32 in queue OUT 32 out operation ECHO {} {in IN, out OUT} {assign OUT = IN;}";

/// Both queues, PUSH, then POP.
pub const BOTH: &str =
    "queue IN 32 in queue OUT 32 out operation PUSH {in AR s} {out OUT} {assign OUT = s;} operation POP {out AR d} {in IN} {assign d = IN;}";

/// A source, and A, which reads it.
pub const READING: &str =
    "version = 1\n[[core]]\nname = 'A'\ntie = 't'\nimage = 'a'\n[[source]]\nname = 'S'\nitems = 's'\n[[queue]]\nname = 'Q'\ncapacity = 1\nfrom = 'S'\nto = 'A.IN'\n";

/// A, which writes to B.
pub const WRITING: &str =
    "version = 1\n[[core]]\nname = 'A'\ntie = 'w'\nimage = 'a'\n[[core]]\nname = 'B'\ntie = 'q'\nimage = 'b'\n[[queue]]\nname = 'Q'\ncapacity = 1\nfrom = 'A.OUT'\nto = 'B.IN'\n";

/// A and B in a ring.
pub const RING: &str =
    "version = 1\nkill = 16\n[[core]]\nname = 'A'\ntie = 't'\nimage = 'a'\n[[core]]\nname = 'B'\ntie = 't'\nimage = 'b'\n[[queue]]\nname = 'QA'\ncapacity = 1\nfrom = 'A.OUT'\nto = 'B.IN'\n[[queue]]\nname = 'QB'\ncapacity = 1\nfrom = 'B.OUT'\nto = 'A.IN'\n";

/// A writes two queues, which B reads.
pub const TWO_QUEUES: &str =
    "version = 1\n[[core]]\nname = 'A'\ntie = 'w'\nimage = 'a'\n[[core]]\nname = 'B'\ntie = 'q'\nimage = 'b'\n[[queue]]\nname = 'QA'\ncapacity = 1\nfrom = 'A.OA'\nto = 'B.IA'\n[[queue]]\nname = 'QB'\ncapacity = 1\nfrom = 'A.OB'\nto = 'B.IB'\n";

pub const PUSHING_TWO: &str =
    "queue OA 32 out queue OB 32 out operation PUSHA {in AR s} {out OA} {assign OA = s;} operation PUSHB {in AR s} {out OB} {assign OB = s;}";

pub const POPPING_TWO: &str =
    "queue IA 32 in queue IB 32 in operation POPA {out AR d} {in IA} {assign d = IA;} operation POPB {out AR d} {in IB} {assign d = IB;}";
