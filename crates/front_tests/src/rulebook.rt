//! Texts with the rule that each breaks, and the place.

use std::alloc::Global;
use std::test::Fail;
use tie_ast::parse;
use tie_front::tie_rules;
use tie_lexer::lex;
use tie_rules::{RuleRefusal, judge};

/// What is answered for a text: its rule and place, or `None` where no rule is broken.
fn judged(alloc: Global, text: &str) -> Result<Option<(u8, u32)>, Fail> {
    let bytes = text.as_bytes();
    if bytes.len() > 1048576 {
        return Err(Fail::from("too long"));
    }
    let tokens = lex(alloc, bytes).ok().ok_or("tokens")?;
    let tree = parse(alloc, bytes, tokens.as_slice()).ok().ok_or("tree")?;
    match judge(alloc, &tree) {
        Ok(()) => Ok(None),
        Err(RuleRefusal::Rule { rule, place }) => Ok(Some((rule, place))),
        Err(RuleRefusal::NoMemory) => Err(Fail::from("no memory")),
    }
}

/// Each text is in two pieces, and its fault is where the second begins; rule 0 is none.
const TEXTS: [(&str, &str, u8); 47] = [
    ("state A 1\nstate ", "A 1", 1),
    ("state ", "AR 1", 1),
    ("operation ", "Addx2 {} {} {}", 1),
    ("regfile R 32 4 ", "r1", 2),
    ("regfile R 32 4 p regfile S 32 4 ", "p", 2),
    (
        "queue Q0 1 in queue Q1 1 in queue Q2 1 in queue Q3 1 in queue Q4 1 in queue Q5 1 in queue Q6 1 in queue Q7 1 in queue ",
        "Q8 1 in",
        3,
    ),
    (
        "operation O0 {} {} {}\noperation O1 {} {} {}\noperation O2 {} {} {}\noperation O3 {} {} {}\noperation O4 {} {} {}\noperation O5 {} {} {}\noperation O6 {} {} {}\noperation O7 {} {} {}\noperation O8 {} {} {}\noperation O9 {} {} {}\noperation O10 {} {} {}\noperation O11 {} {} {}\noperation O12 {} {} {}\noperation O13 {} {} {}\noperation O14 {} {} {}\noperation O15 {} {} {}\noperation O16 {} {} {}\noperation O17 {} {} {}\noperation O18 {} {} {}\noperation O19 {} {} {}\noperation O20 {} {} {}\noperation O21 {} {} {}\noperation O22 {} {} {}\noperation O23 {} {} {}\noperation O24 {} {} {}\noperation O25 {} {} {}\noperation O26 {} {} {}\noperation O27 {} {} {}\noperation O28 {} {} {}\noperation O29 {} {} {}\noperation O30 {} {} {}\noperation O31 {} {} {}\noperation ",
        "O32 {} {} {}",
        4,
    ),
    (
        "operation ",
        "O {in AR a, in AR b, in AR c, in AR d} {} {}",
        5,
    ),
    ("state A ", "129", 6),
    ("operation O {} {} {wire [", "128:0] x = 1;}", 6),
    ("regfile R 32 ", "17 r", 7),
    ("state A 8 ", "256", 8),
    ("function f() {assign f = ", "4294967296;}", 8),
    ("table ", "T 8 2 {1}", 9),
    ("immediate_range ", "R 0 32 2", 10),
    ("immediate_range ", "R 3 1 1", 10),
    ("format F ", "48 {s} slot_opcodes s {ADD}", 11),
    ("format ", "F 64 {a, b, c, d, e}", 12),
    ("format F 64 {", "a}", 13),
    ("format F 64 {a} slot_opcodes a {ADD, ", "ABS}", 14),
    ("operation O {in AR a, in AR ", "a} {} {}", 15),
    ("operation O {in AR a} {} {} state ", "a 1", 15),
    (
        "operation O {out AR r} {} {assign r = ",
        "x; assign y = 1;}",
        16,
    ),
    (
        "state S 8 operation O {} {inout S} {assign S = 1;} operation P {} {} {} schedule s {O, P} {use ",
        "S Estage;}",
        16,
    ),
    ("operation O {in AR a} {} {assign ", "a = 1;}", 17),
    ("function f() {assign f = ", "f();}", 18),
    (
        "function f() {assign f = 1;} operation O {out AR r} {} {assign r = ",
        "f(1);}",
        19,
    ),
    (
        "operation O {out AR r} {} {wire x; assign r = ",
        "x; assign x = 1;}",
        20,
    ),
    (
        "operation O {out AR r} {} {assign r = 1; assign ",
        "r = 2;}",
        21,
    ),
    ("operation O {out AR ", "r} {} {}", 22),
    (
        "operation O {out AR r, in AR a} {} {assign r = a[",
        "32:0];}",
        23,
    ),
    (
        "operation O {out AR r, in AR a} {} {assign r = ",
        "TIEadd(a, a, a);}",
        24,
    ),
    (
        "operation O {out AR r, in AR a} {} {assign r = ",
        "{5{a}};}",
        25,
    ),
    (
        "operation O {in AR a} {} {} schedule s {O} {use a Estage;} schedule t {",
        "O} {}",
        26,
    ),
    (
        "operation O {in AR a} {} {} schedule s {O} {use a, ",
        "a Estage;}",
        26,
    ),
    (
        "operation O {in AR a, out AR r} {} {assign r = a;} schedule s {O} {use a Estage; def r Mstage; def ",
        "r Estage;}",
        26,
    ),
    (
        "operation O {in AR a} {} {} schedule s {O} {use a Estage; use ",
        "a Mstage;} schedule t {O} {}",
        26,
    ),
    (
        "operation O {inout AR a} {} {assign a = a;} schedule s {O, O} {use a Estage; def a Estage;}",
        "",
        0,
    ),
    (
        "operation MYADD {out AR r, in AR a, in AR b} {} {assign r = a + b;}\nschedule s {MYADD} {use a Mstage; def r ",
        "Estage;}",
        27,
    ),
    (
        "format F ",
        "64 {s0, s1, s2, s3} slot_opcodes s0 {ADD, SUB, AND, OR} slot_opcodes s1 {ADD, SUB, AND, OR} slot_opcodes s2 {ADD, SUB, AND, OR} slot_opcodes s3 {ADD, SUB, AND, OR, XOR}",
        28,
    ),
    (
        "state S 8 operation A {} {out S} {assign S = 1;} operation B {} {out S} {assign S = 2;} format ",
        "F 64 {a, b} slot_opcodes a {A} slot_opcodes b {B}",
        29,
    ),
    (
        "queue Q 8 in operation A {} {in Q} {} operation B {} {in Q} {} format ",
        "F 64 {a, b} slot_opcodes a {A} slot_opcodes b {B}",
        30,
    ),
    (
        "operation ",
        "O {out AR r, in AR a} {} {wire [31:0] b = a + a; wire [31:0] c = b + b; wire [31:0] d = c + c; wire [31:0] e = d + d; wire [31:0] f = e + e; wire [31:0] g = f + f; wire [31:0] h = g + g; wire [31:0] i = h + h; wire [31:0] j = i + i; wire [31:0] k = j + j; assign r = k + k;}",
        31,
    ),
    ("", "", 0),
    (
        "operation MYADD {out AR r, in AR a, in AR b} {} {assign r = a + b;}\n",
        "",
        0,
    ),
    (
        "format F ",
        "64 {s0, s1, s2, s3} slot_opcodes s0 {ADD, SUB, AND, OR} slot_opcodes s1 {ADD, SUB, AND, OR} slot_opcodes s2 {ADD, SUB, AND, OR} slot_opcodes s3 {ADD, SUB, AND, OR}",
        0,
    ),
    ("immediate_range R 0 30 2 immediate_range S -4 -1 1", "", 0),
];

#[test]
fn rules(rt: HostRuntime) -> Result<(), Fail> {
    for (before, after, rule) in TEXTS {
        let text = format!(in rt.alloc(); "{before}{after}")?;
        let place = u32::try_from(before.len()).unwrap_or(u32::MAX);
        let want = if rule == 0 { None } else { Some((rule, place)) };
        assert_eq!(rt; judged(rt.alloc(), text.as_str())?, want, "{text}");
    }
    Ok(())
}
