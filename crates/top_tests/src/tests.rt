use std::alloc::Global;
use std::process::Abort;
use std::test::Fail;
use std::thread::Threads;
use tie_io::{MemShelf, MemSink};
use tie_top::{NoGate, Status, tie_top};

// Which calls fail: of the shelf, of the output and of the error output.
struct Faults {
    shelf: &'static [u64],
    out: &'static [u64],
    err: &'static [u64],
}

const NO_FAULTS: Faults = Faults {
    shelf: &[],
    out: &[],
    err: &[],
};

const FIRST_READ: Faults = Faults {
    shelf: &[0],
    out: &[],
    err: &[],
};

const SECOND_READ: Faults = Faults {
    shelf: &[1],
    out: &[],
    err: &[],
};

const SECOND_LINE: Faults = Faults {
    shelf: &[],
    out: &[1],
    err: &[],
};

const FIRST_REFUSAL: Faults = Faults {
    shelf: &[],
    out: &[],
    err: &[0],
};

// A call with the files `p` and `t`, and what it must answer and write.
struct Case {
    text: &'static str,
    tie: &'static str,
    words: &'static [&'static str],
    faults: Faults,
    status: Status,
    out: &'static str,
    err: &'static str,
}

const FIVE: &str = "22 A0 05 00 51 00";

const SUM: &str = "22 A0 05 32 AF FF 30 42 80 00 51 00";

const RUN: &[&str] = &["exec", "p"];

const RUN_WITH: &[&str] = &["exec", "p", "t"];

const CHECK: &[&str] = &["check", "t"];

const ASM: &[&str] = &["asm", "t", "p"];

const DIS: &[&str] = &["dis", "t", "p"];

const REF: &[&str] = &["ref", "p"];

const STRICT: &[&str] = &["strict", "p"];

const ADDING: &str = "22 A0 05 32 AF FF 30 42 06 00 51 00";

const MYADD: &str = "operation MYADD {out AR r, in AR a, in AR b} {} {assign r = a + b;}";

const LATE_USE: &str =
    "operation MYADD {out AR r, in AR a, in AR b} {} {assign r = a + b;}\nschedule s {MYADD} {use a Mstage; def r Estage;}";

const COUNTER: &str =
    "state ACC 128 128'hFFFFFFFFFFFFFFFFFFFFFFFFFFFFFFFF\noperation INC {} {inout ACC} {assign ACC = ACC + 128'd1;}";

// Two moves side by side in one bundle.
const PAIR: &str =
    "operation MOVX {out AR d, in AR s} {} {assign d = s;}\noperation MOVY {out AR d, in AR s} {} {assign d = s;}\nformat F 32 {f0, f1}\nslot_opcodes f0 {MOVX}\nslot_opcodes f1 {MOVY}";

const SWAP: &str = "22 A0 05 32 AF FF 0E 32 23 00 00 51 00";

const SWAP_SOURCE: &str = "MOVI a2, 5\nMOVI a3, -1\nF { MOVX a2, a3 ; MOVY a3, a2 }\nSIMCALL\n";

const QUEUED: &str = "state S 8 queue Q 8 in";

// An operation that pops its queue.
const POP: &str = "queue IN 32 in operation POP {out AR d} {in IN} {assign d = IN;}";

// A network of one processor.
const ALONE: &str = "version = 1\n[[core]]\nname = \"A\"\nimage = \"t\"\nbudget = 10";

const CASES: [Case; 33] = [
    Case {
        text: FIVE,
        tie: "",
        words: RUN,
        faults: NO_FAULTS,
        status: Status::Done,
        out: "core main retired 2 halted pc 00000006\n  sar 0\n  a2 00000005\nend halted\n",
        err: "",
    },
    Case {
        text: "32 AF FF 00 51 00",
        tie: "",
        words: RUN,
        faults: NO_FAULTS,
        status: Status::Done,
        out: "core main retired 2 halted pc 00000006\n  sar 0\n  a3 FFFFFFFF\nend halted\n",
        err: "",
    },
    Case {
        text: SUM,
        tie: "",
        words: RUN,
        faults: NO_FAULTS,
        status: Status::Done,
        out: "core main retired 4 halted pc 0000000C\n  sar 0\n  a2 00000005\n  a3 FFFFFFFF\n  a4 00000004\nend halted\n",
        err: "",
    },
    Case {
        text: "",
        tie: "",
        words: RUN,
        faults: NO_FAULTS,
        status: Status::Trapped,
        out: "core main retired 0 trapped Illegal pc 00000000\n  sar 0\nend trapped\n",
        err: "",
    },
    Case {
        text: FIVE,
        tie: "",
        words: &["exec"],
        faults: NO_FAULTS,
        status: Status::Usage,
        out: "",
        err: "usage: word 1\n",
    },
    Case {
        text: FIVE,
        tie: "",
        words: &[],
        faults: NO_FAULTS,
        status: Status::Usage,
        out: "",
        err: "usage: word 0\n",
    },
    Case {
        text: FIVE,
        tie: "",
        words: &["run", "p"],
        faults: NO_FAULTS,
        status: Status::Usage,
        out: "",
        err: "usage: word 0\n",
    },
    Case {
        text: FIVE,
        tie: "",
        words: &["exec", "p", "t", "q"],
        faults: NO_FAULTS,
        status: Status::Usage,
        out: "",
        err: "usage: word 3\n",
    },
    Case {
        text: "2",
        tie: "",
        words: RUN,
        faults: NO_FAULTS,
        status: Status::TextRefused,
        out: "",
        err: "hex refused: p: OddHex at 1\n",
    },
    Case {
        text: "22 G0 0",
        tie: "",
        words: RUN,
        faults: NO_FAULTS,
        status: Status::TextRefused,
        out: "",
        err: "hex refused: p: BadHex at 3\n",
    },
    Case {
        text: FIVE,
        tie: "",
        words: &["exec", "q"],
        faults: NO_FAULTS,
        status: Status::ReadFault,
        out: "",
        err: "read fault: q\n",
    },
    Case {
        text: FIVE,
        tie: "",
        words: RUN,
        faults: FIRST_READ,
        status: Status::ReadFault,
        out: "",
        err: "read fault: p\n",
    },
    Case {
        text: SUM,
        tie: "",
        words: RUN,
        faults: SECOND_LINE,
        status: Status::WriteFault,
        out: "core main retired 4 halted pc 0000000C\n",
        err: "",
    },
    Case {
        text: FIVE,
        tie: "",
        words: &["exec"],
        faults: FIRST_REFUSAL,
        status: Status::WriteFault,
        out: "",
        err: "",
    },
    Case {
        text: "2",
        tie: "",
        words: RUN,
        faults: FIRST_REFUSAL,
        status: Status::WriteFault,
        out: "",
        err: "",
    },
    Case {
        text: FIVE,
        tie: "",
        words: &["exec", "q"],
        faults: FIRST_REFUSAL,
        status: Status::WriteFault,
        out: "",
        err: "",
    },
    Case {
        text: "",
        tie: "",
        words: CHECK,
        faults: NO_FAULTS,
        status: Status::Done,
        out: "accepted\n",
        err: "",
    },
    Case {
        text: "",
        tie: MYADD,
        words: CHECK,
        faults: NO_FAULTS,
        status: Status::Done,
        out: "accepted\noperation MYADD 060000\n",
        err: "",
    },
    Case {
        text: "",
        tie: LATE_USE,
        words: CHECK,
        faults: NO_FAULTS,
        status: Status::TieRefused,
        out: "",
        err: "tie refused: t: ScheduleOrder at 108\n",
    },
    Case {
        text: ADDING,
        tie: MYADD,
        words: RUN_WITH,
        faults: NO_FAULTS,
        status: Status::Done,
        out: "core main retired 4 halted pc 0000000C\n  sar 0\n  a2 00000005\n  a3 FFFFFFFF\n  a4 00000004\nend halted\n",
        err: "",
    },
    Case {
        text: "00 00 06 00 51 00",
        tie: COUNTER,
        words: RUN_WITH,
        faults: NO_FAULTS,
        status: Status::Done,
        out: "core main retired 2 halted pc 00000006\n  sar 0\n  ACC 00000000000000000000000000000000\nend halted\n",
        err: "",
    },
    Case {
        text: FIVE,
        tie: QUEUED,
        words: RUN_WITH,
        faults: NO_FAULTS,
        status: Status::Done,
        out: "core main retired 2 halted pc 00000006\n  sar 0\n  a2 00000005\n  S 00\nqueue Q consumed 0\nend halted\n",
        err: "",
    },
    Case {
        text: "2",
        tie: "state",
        words: RUN_WITH,
        faults: NO_FAULTS,
        status: Status::TextRefused,
        out: "",
        err: "hex refused: p: OddHex at 1\n",
    },
    Case {
        text: ADDING,
        tie: MYADD,
        words: RUN_WITH,
        faults: SECOND_READ,
        status: Status::ReadFault,
        out: "",
        err: "read fault: t\n",
    },
    Case {
        text: SWAP_SOURCE,
        tie: PAIR,
        words: ASM,
        faults: NO_FAULTS,
        status: Status::Done,
        out: "22 A0 05 32 AF FF 0E 32 23 00 00 51 00\n",
        err: "",
    },
    Case {
        text: SWAP,
        tie: PAIR,
        words: RUN_WITH,
        faults: NO_FAULTS,
        status: Status::Done,
        out: "core main retired 4 halted pc 0000000D\n  sar 0\n  a2 FFFFFFFF\n  a3 00000005\nend halted\n",
        err: "",
    },
    Case {
        text: SWAP,
        tie: PAIR,
        words: DIS,
        faults: NO_FAULTS,
        status: Status::Done,
        out: SWAP_SOURCE,
        err: "",
    },
    Case {
        text: "F { MOVX a2, a3 ; MOVY a2, a3 }",
        tie: PAIR,
        words: ASM,
        faults: NO_FAULTS,
        status: Status::AsmRefused,
        out: "",
        err: "asm refused: p: SameDest at 1:24\n",
    },
    Case {
        text: "ADDI a2, a2, 200",
        tie: "",
        words: ASM,
        faults: NO_FAULTS,
        status: Status::AsmRefused,
        out: "",
        err: "asm refused: p: OperandRange at 1:14\n",
    },
    Case {
        text: "22 A0 05 FF",
        tie: "",
        words: DIS,
        faults: NO_FAULTS,
        status: Status::Done,
        out: "MOVI a2, 5\n.byte 255\n",
        err: "",
    },
    Case {
        text: "ADDI a2, a2, 200",
        tie: LATE_USE,
        words: ASM,
        faults: NO_FAULTS,
        status: Status::TieRefused,
        out: "",
        err: "tie refused: t: ScheduleOrder at 108\n",
    },
    Case {
        text: "",
        tie: QUEUED,
        words: ASM,
        faults: NO_FAULTS,
        status: Status::Done,
        out: "",
        err: "",
    },
    Case {
        text: SWAP_SOURCE,
        tie: PAIR,
        words: ASM,
        faults: SECOND_READ,
        status: Status::ReadFault,
        out: "",
        err: "read fault: p\n",
    },
];

// The same of networks.
const NETWORKS: [Case; 3] = [
    Case {
        text: "00 20 06 00 51 00",
        tie: POP,
        words: RUN_WITH,
        faults: NO_FAULTS,
        status: Status::Blocked,
        out: "core main retired 0 blocked IN empty 0 0 pc 00000000\n  sar 0\nqueue IN consumed 0\nend blocked\n",
        err: "",
    },
    Case {
        text: ALONE,
        tie: "06 FF FF",
        words: STRICT,
        faults: NO_FAULTS,
        status: Status::Unfinished,
        out: "core A retired 10 spent budget 10 pc 00000000\n  sar 0\nend unfinished\n",
        err: "",
    },
    Case {
        text: "version = 3",
        tie: "",
        words: REF,
        faults: NO_FAULTS,
        status: Status::NetRefused,
        out: "",
        err: "net refused: p: Version at version\n",
    },
];

// Calls with the files `p` and `t`, and answers the status and what stands on the two sinks.
fn call(
    rt: &(impl Threads + AllocGlobal),
    file: &[u8],
    tie: &str,
    words: &[&str],
    faults: &Faults,
) -> Result<(Status, MemSink, MemSink), Fail> {
    let alloc = rt.alloc();
    let mut shelf = MemShelf::new(alloc, faults.shelf.to_vec(alloc)?);
    shelf.add("p", file).ok().ok_or("no memory")?;
    shelf.add("t", tie.as_bytes()).ok().ok_or("no memory")?;
    let mut out = MemSink::new(alloc, faults.out.to_vec(alloc)?);
    let mut err = MemSink::new(alloc, faults.err.to_vec(alloc)?);
    let words = owned(alloc, words)?;
    let status = tie_top(rt, alloc, &words, &mut shelf, &mut out, &mut err, &NoGate);
    Ok((status, out, err))
}

fn owned(alloc: Global, words: &[&str]) -> Result<Vec<String>, Fail> {
    let mut owned = Vec::new(alloc);
    for word in words {
        owned.push(String::from_str(alloc, word)?)?;
    }
    Ok(owned)
}

fn compare(rt: &(impl Threads + Abort + AllocGlobal), cases: &[Case]) -> Result<(), Fail> {
    for case in cases {
        let (status, out, err) = call(
            rt,
            case.text.as_bytes(),
            case.tie,
            case.words,
            &case.faults,
        )?;
        assert_eq!(rt; status, case.status);
        assert_eq!(rt; out.written(), case.out.as_bytes());
        assert_eq!(rt; err.written(), case.err.as_bytes());
    }
    Ok(())
}

#[test]
fn cases(rt: HostRuntime) -> Result<(), Fail> {
    compare(&rt, &CASES)
}

#[test]
fn networks(rt: HostRuntime) -> Result<(), Fail> {
    compare(&rt, &NETWORKS)
}

// Images, and the status and the report of their runs, worked by hand.
const STOPS: [(&str, Status, &str); 6] = [
    // S32I a2, a0, 0: a store to the text
    (
        "22 60 00",
        Status::Trapped,
        "core main retired 0 trapped StoreText pc 00000000\n  sar 0\nend trapped\n",
    ),
    // MOVI a1, -1; L32I a2, a1, 0
    (
        "12 AF FF 22 21 00",
        Status::Trapped,
        "core main retired 1 trapped Unaligned pc 00000003\n  sar 0\n  a1 FFFFFFFF\nend trapped\n",
    ),
    // MOVI a1, -4; L32I a2, a1, 0
    (
        "12 AF FC 22 21 00",
        Status::Trapped,
        "core main retired 1 trapped BadAddress pc 00000003\n  sar 0\n  a1 FFFFFFFC\nend trapped\n",
    ),
    // SSAI 5; a jump to itself
    (
        "00 45 40 06 FF FF",
        Status::Unfinished,
        "core main retired 1000000 spent budget 1000000 pc 00000003\n  sar 5\nend unfinished\n",
    ),
    // MOVI a2, 160; SSAI 5; SRL a3, a2; SIMCALL
    (
        "22 A0 A0 00 45 40 20 30 91 00 51 00",
        Status::Done,
        "core main retired 4 halted pc 0000000C\n  sar 5\n  a2 000000A0\n  a3 00000005\nend halted\n",
    ),
    // MOVI a2, 5; MOVI a3, 0; then ADD a3, a3, a2; ADDI a2, a2, -1; BNEZ a2 back to the ADD; SIMCALL
    (
        "22 A0 05 32 A0 00 20 33 80 22 C2 FF 56 62 FF 00 51 00",
        Status::Done,
        "core main retired 18 halted pc 00000012\n  sar 0\n  a3 0000000F\nend halted\n",
    ),
];

#[test]
fn stops(rt: HostRuntime) -> Result<(), Fail> {
    for (text, status, report) in STOPS {
        let (found, out, err) = call(&rt, text.as_bytes(), "", RUN, &NO_FAULTS)?;
        assert_eq!(rt; found, status);
        assert_eq!(rt; out.written(), report.as_bytes());
        assert_eq!(rt; err.written(), b"".as_slice());
    }
    Ok(())
}

// So many times this byte.
fn filled(alloc: Global, byte: u8, count: usize) -> Result<Vec<u8>, Fail> {
    Ok(vec![in alloc; byte; count]?)
}

#[test]
fn long_file(rt: HostRuntime) -> Result<(), Fail> {
    let file = filled(rt.alloc(), b' ', 1_048_577)?;
    let (status, out, err) = call(&rt, &file, "", RUN, &NO_FAULTS)?;
    assert_eq!(rt; status, Status::TooLong);
    assert_eq!(rt; out.written(), b"".as_slice());
    assert_eq!(rt; err.written(), b"too long: p\n".as_slice());
    let (status, out, _) = call(&rt, &file, "", RUN, &FIRST_REFUSAL)?;
    assert_eq!(rt; status, Status::WriteFault);
    assert_eq!(rt; out.written(), b"".as_slice());
    Ok(())
}

#[test]
fn longest_file(rt: HostRuntime) -> Result<(), Fail> {
    let file = filled(rt.alloc(), b' ', 1_048_576)?;
    let (status, _, err) = call(&rt, &file, "", RUN, &NO_FAULTS)?;
    assert_eq!(rt; status, Status::Trapped);
    assert_eq!(rt; err.written(), b"".as_slice());
    Ok(())
}

#[test]
fn long_image(rt: HostRuntime) -> Result<(), Fail> {
    let text = filled(rt.alloc(), b'0', 131_074)?;
    let (status, _, err) = call(&rt, &text, "", RUN, &NO_FAULTS)?;
    assert_eq!(rt; status, Status::TextRefused);
    assert_eq!(rt;
        err.written(),
        b"hex refused: p: LongHex at 131074\n".as_slice()
    );
    Ok(())
}
