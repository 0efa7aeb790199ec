//! Runs that end with each processor halted, trapped or spent.

use crate::case::{
    BOTH, Case, ECHOING, POPPING, POPPING_TWO, PUSHING, PUSHING_TWO, READING, RING, TWO_QUEUES,
    WRITING, compare,
};
use std::test::Fail;
use tie_top::Status;

const SPINNING: &str = "version = 1\n[[core]]\nname = 'A'\nimage = 'a'\nbudget = 10\n";

const SHOWN: &str = "version = 1\n[[core]]\nname = 'A'\nimage = 'a'\nbudget = 2\ndump = [0, 18]\n";

// A source, A, and a collector of one item.
const COLLECTED: &str =
    "version = 1\n[[core]]\nname = 'A'\ntie = 't'\nimage = 'a'\n[[source]]\nname = 'S'\nitems = 's'\n[[collector]]\nname = 'K'\nlimit = 1\n[[queue]]\nname = 'QS'\ncapacity = 1\nfrom = 'S'\nto = 'A.IN'\n[[queue]]\nname = 'QK'\ncapacity = 1\nfrom = 'A.OUT'\nto = 'K'\n";

const CASES: [Case; 10] = [
    // BEQZ a3 over POP a2 to SIMCALL: the item waits at the source
    Case {
        files: &[
            ("n", READING),
            ("t", POPPING),
            ("a", "16 23 00 00 20 06 00 51 00"),
            ("s", "0000002A"),
        ],
        words: &["strict", "n"],
        status: Status::Done,
        out: "core A retired 2 halted pc 00000009\n  sar 0\nqueue Q consumed 0\nend halted\n",
        err: "",
    },
    // PUSH a2 three times, SIMCALL; SIMCALL, POP a2: there is room without a bound
    Case {
        files: &[
            ("n", WRITING),
            ("w", PUSHING),
            ("a", "00 20 06 00 20 06 00 20 06 00 51 00"),
            ("q", POPPING),
            ("b", "00 51 00 00 20 06"),
        ],
        words: &["ref", "n"],
        status: Status::Done,
        out: "core A retired 4 halted pc 0000000C\n  sar 0\ncore B retired 1 halted pc 00000003\n  sar 0\nqueue Q pushed 3 consumed 0\nend halted\n",
        err: "",
    },
    // PUSHA a2, PUSHB a2, PUSHA a2, SIMCALL; POPB a3, SIMCALL, POPA a2
    Case {
        files: &[
            ("n", TWO_QUEUES),
            ("w", PUSHING_TWO),
            ("a", "00 20 06 00 20 16 00 20 06 00 51 00"),
            ("q", POPPING_TWO),
            ("b", "00 30 16 00 51 00 00 20 06"),
        ],
        words: &["ref", "n"],
        status: Status::Done,
        out: "core A retired 4 halted pc 0000000C\n  sar 0\ncore B retired 2 halted pc 00000006\n  sar 0\nqueue QA pushed 2 consumed 0\nqueue QB pushed 1 consumed 1\nend halted\n",
        err: "",
    },
    // MOVI a2, 1000; PUSH a2, POP a3, ADDI a2, a2, -1, BNEZ a2 back; SIMCALL. MOVI a4, 1000; POP a3, PUSH a3, ADDI a4, a4, -1, BNEZ a4 back; SIMCALL
    Case {
        files: &[
            ("n", RING),
            ("t", BOTH),
            ("a", "22 A3 E8 00 20 06 00 30 16 22 C2 FF 56 32 FF 00 51 00"),
            ("b", "42 A3 E8 00 30 16 00 30 06 42 C4 FF 56 34 FF 00 51 00"),
        ],
        words: &["strict", "n"],
        status: Status::Done,
        out: "core A retired 4002 halted pc 00000012\n  sar 0\n  a3 00000001\ncore B retired 4002 halted pc 00000012\n  sar 0\n  a3 00000001\nqueue QA pushed 1000 consumed 1000\nqueue QB pushed 1000 consumed 1000\nend halted\n",
        err: "",
    },
    // J to itself
    Case {
        files: &[("n", SPINNING), ("a", "06 FF FF")],
        words: &["strict", "n"],
        status: Status::Unfinished,
        out: "core A retired 10 spent budget 10 pc 00000000\n  sar 0\nend unfinished\n",
        err: "",
    },
    // J to itself
    Case {
        files: &[("n", SPINNING), ("a", "06 FF FF")],
        words: &["ref", "n"],
        status: Status::Unfinished,
        out: "core A retired 10 spent budget 10 pc 00000000\n  sar 0\nend unfinished\n",
        err: "",
    },
    // MOVI a2, 5; SIMCALL: halted with its budget used up
    Case {
        files: &[("n", SHOWN), ("a", "22 A0 05 00 51 00")],
        words: &["strict", "n"],
        status: Status::Done,
        out: "core A retired 2 halted pc 00000006\n  sar 0\n  a2 00000005\n  mem 00000000 22 A0 05 00 51 00 00 00 00 00 00 00 00 00 00 00\n  mem 00000010 00 00\nend halted\n",
        err: "",
    },
    // ECHO twice, SIMCALL: the collector takes one of two items
    Case {
        files: &[
            ("n", COLLECTED),
            ("t", ECHOING),
            ("a", "00 00 06 00 00 06 00 51 00"),
            ("s", "00000007 00000008"),
        ],
        words: &["strict", "n"],
        status: Status::Done,
        out: "core A retired 3 halted pc 00000009\n  sar 0\nqueue QS consumed 2\nqueue QK pushed 2 consumed 1\ncollector K items 1\n  00000007\nend halted\n",
        err: "",
    },
    // no bundle; POP a2
    Case {
        files: &[
            ("n", WRITING),
            ("w", PUSHING),
            ("a", ""),
            ("q", POPPING),
            ("b", "00 20 06"),
        ],
        words: &["strict", "n"],
        status: Status::Trapped,
        out: "core A retired 0 trapped Illegal pc 00000000\n  sar 0\ncore B retired 0 blocked Q empty 0 0 pc 00000000\n  sar 0\nqueue Q pushed 0 consumed 0\nend trapped\n",
        err: "",
    },
    // MOVI a2, 5; PUSH a2; SIMCALL on a processor that stands alone, with a queue of 8 bits
    Case {
        files: &[
            ("p", "22 A0 05 00 20 06 00 51 00"),
            (
                "t",
                "queue OUT 8 out operation PUSH {in AR s} {out OUT} {assign OUT = s[7:0];}",
            ),
        ],
        words: &["exec", "p", "t"],
        status: Status::Done,
        out: "core main retired 3 halted pc 00000009\n  sar 0\n  a2 00000005\nqueue OUT pushed 1 consumed 1\ncollector OUT items 1\n  05\nend halted\n",
        err: "",
    },
];

#[test]
fn whole(rt: HostRuntime) -> Result<(), Fail> {
    compare(&rt, &CASES)
}
