//! Networks that are refused.

use crate::case::{Case, POPPING, PUSHING, READING, WRITING, compare};
use std::test::Fail;
use tie_top::Status;

const HALT: &str = "00 51 00";

const SMALL: &str = "version = 1\n[[core]]\nname = 'A'\nimage = 'a'\nmemory = 64\n";

// 65 bytes.
const LONG: &str =
    "0000000000000000000000000000000000000000000000000000000000000000000000000000000000000000000000000000000000000000000000000000000000";

// A source and A, without a queue.
const UNWIRED: &str =
    "version = 1\n[[core]]\nname = 'A'\ntie = 't'\nimage = 'a'\n[[source]]\nname = 'S'\nitems = 's'\n";

const ASTRAY: &str =
    "version = 1\n[[core]]\nname = 'A'\ntie = 't'\nimage = 'a'\n[[queue]]\nname = 'Q'\ncapacity = 1\nfrom = 'X'\nto = 'A.IN'\n";

const TWICE: &str =
    "version = 1\n[[core]]\nname = 'A'\ntie = 't'\nimage = 'a'\n[[source]]\nname = 'S'\nitems = 's'\n[[queue]]\nname = 'Q'\ncapacity = 1\nfrom = 'S'\nto = 'A.IN'\n[[queue]]\nname = 'R'\ncapacity = 1\nfrom = 'S'\nto = 'A.IN'\n";

const CASES: [Case; 19] = [
    Case {
        files: &[("n", "x = ")],
        words: &["strict", "n"],
        status: Status::NetRefused,
        out: "",
        err: "net refused: n: Toml at text\n",
    },
    Case {
        files: &[("n", "version = 3")],
        words: &["strict", "n"],
        status: Status::NetRefused,
        out: "",
        err: "net refused: n: Version at version\n",
    },
    Case {
        files: &[("n", "version = 1")],
        words: &["strict", "n"],
        status: Status::NetRefused,
        out: "",
        err: "net refused: n: Key at core\n",
    },
    Case {
        files: &[
            ("n", READING),
            ("t", POPPING),
            ("a", "0G"),
            ("s", "0000002A"),
        ],
        words: &["strict", "n"],
        status: Status::NetRefused,
        out: "",
        err: "net refused: n: Hex at core[0].image\n",
    },
    Case {
        files: &[("n", SMALL), ("a", LONG)],
        words: &["strict", "n"],
        status: Status::NetRefused,
        out: "",
        err: "net refused: n: Image at core[0].image\n",
    },
    Case {
        files: &[("n", ASTRAY), ("t", POPPING), ("a", HALT)],
        words: &["strict", "n"],
        status: Status::NetRefused,
        out: "",
        err: "net refused: n: End at queue[0].from\n",
    },
    Case {
        files: &[("n", TWICE), ("t", POPPING), ("a", HALT), ("s", "0000002A")],
        words: &["strict", "n"],
        status: Status::NetRefused,
        out: "",
        err: "net refused: n: Twice at queue[1].from\n",
    },
    Case {
        files: &[
            ("n", WRITING),
            ("w", PUSHING),
            ("a", HALT),
            ("q", "queue IN 8 in"),
            ("b", HALT),
        ],
        words: &["strict", "n"],
        status: Status::NetRefused,
        out: "",
        err: "net refused: n: Width at queue[0]\n",
    },
    Case {
        files: &[("n", UNWIRED), ("t", POPPING), ("a", HALT), ("s", "0")],
        words: &["strict", "n"],
        status: Status::NetRefused,
        out: "",
        err: "net refused: n: Unwired at core[0].IN\n",
    },
    Case {
        files: &[("n", READING), ("t", POPPING), ("a", HALT), ("s", "0")],
        words: &["strict", "n"],
        status: Status::NetRefused,
        out: "",
        err: "net refused: n: Hex at source[0].items\n",
    },
    Case {
        files: &[("n", READING), ("t", POPPING), ("a", HALT), ("s", "2A")],
        words: &["strict", "n"],
        status: Status::NetRefused,
        out: "",
        err: "net refused: n: Item at source[0].items\n",
    },
    Case {
        files: &[
            ("n", READING),
            ("t", "queue IN 12 in"),
            ("a", HALT),
            ("s", "0FFF 1000"),
        ],
        words: &["strict", "n"],
        status: Status::NetRefused,
        out: "",
        err: "net refused: n: Item at source[0].items\n",
    },
    Case {
        files: &[
            ("n", READING),
            ("t", "queue IN 0 in"),
            ("a", "0G"),
            ("s", ""),
        ],
        words: &["strict", "n"],
        status: Status::TieRefused,
        out: "",
        err: "tie refused: t: WidthRange at 9\n",
    },
    Case {
        files: &[("m", READING)],
        words: &["strict", "n"],
        status: Status::ReadFault,
        out: "",
        err: "read fault: n\n",
    },
    Case {
        files: &[("n", READING), ("a", "0G"), ("s", "")],
        words: &["strict", "n"],
        status: Status::ReadFault,
        out: "",
        err: "read fault: t\n",
    },
    Case {
        files: &[("n", READING), ("t", POPPING), ("s", "")],
        words: &["strict", "n"],
        status: Status::ReadFault,
        out: "",
        err: "read fault: a\n",
    },
    Case {
        files: &[("n", READING), ("t", POPPING), ("a", HALT)],
        words: &["strict", "n"],
        status: Status::ReadFault,
        out: "",
        err: "read fault: s\n",
    },
    Case {
        files: &[("n", READING)],
        words: &["strict"],
        status: Status::Usage,
        out: "",
        err: "usage: word 1\n",
    },
    Case {
        files: &[("n", READING)],
        words: &["ref", "n", "t"],
        status: Status::Usage,
        out: "",
        err: "usage: word 2\n",
    },
];

#[test]
fn refused(rt: HostRuntime) -> Result<(), Fail> {
    compare(&rt, &CASES)
}
