//! Runs that end with a processor that waits.

use crate::case::{
    Case, ECHOING, POPPING, POPPING_TWO, PUSHING, PUSHING_TWO, RING, TWO_QUEUES, WRITING, compare,
};
use std::test::Fail;
use tie_top::Status;

const CASES: [Case; 4] = [
    // PUSH a2 three times, SIMCALL; SIMCALL, POP a2: the second item finds no room
    Case {
        files: &[
            ("n", WRITING),
            ("w", PUSHING),
            ("a", "00 20 06 00 20 06 00 20 06 00 51 00"),
            ("q", POPPING),
            ("b", "00 51 00 00 20 06"),
        ],
        words: &["strict", "n"],
        status: Status::Blocked,
        out: "core A retired 1 blocked Q full 1 0 pc 00000003\n  sar 0\ncore B retired 1 halted pc 00000003\n  sar 0\nqueue Q pushed 1 consumed 0\nend blocked\n",
        err: "",
    },
    // ECHO, SIMCALL at both: each waits for the other
    Case {
        files: &[
            ("n", RING),
            ("t", ECHOING),
            ("a", "00 00 06 00 51 00"),
            ("b", "00 00 06 00 51 00"),
        ],
        words: &["strict", "n"],
        status: Status::Blocked,
        out: "core A retired 0 blocked QB empty 0 0 pc 00000000\n  sar 0\ncore B retired 0 blocked QA empty 0 0 pc 00000000\n  sar 0\nqueue QA pushed 0 consumed 0\nqueue QB pushed 0 consumed 0\nend blocked\n",
        err: "",
    },
    // PUSHA a2, PUSHB a2, PUSHA a2, SIMCALL; POPB a3, SIMCALL, POPA a2
    Case {
        files: &[
            ("n", TWO_QUEUES),
            ("w", PUSHING_TWO),
            ("a", "00 20 06 00 20 16 00 20 06 00 51 00"),
            ("q", POPPING_TWO),
            ("b", "00 30 16 00 51 00 00 20 06"),
        ],
        words: &["strict", "n"],
        status: Status::Blocked,
        out: "core A retired 2 blocked QA full 1 0 pc 00000006\n  sar 0\ncore B retired 2 halted pc 00000006\n  sar 0\nqueue QA pushed 1 consumed 0\nqueue QB pushed 1 consumed 1\nend blocked\n",
        err: "",
    },
    // POP a2 on a processor that stands alone
    Case {
        files: &[("p", "00 20 06"), ("t", POPPING)],
        words: &["exec", "p", "t"],
        status: Status::Blocked,
        out: "core main retired 0 blocked IN empty 0 0 pc 00000000\n  sar 0\nqueue IN consumed 0\nend blocked\n",
        err: "",
    },
];

#[test]
fn blocked(rt: HostRuntime) -> Result<(), Fail> {
    compare(&rt, &CASES)
}
