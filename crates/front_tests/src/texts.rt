//! Texts that have a description, and texts with the name of the rule and the place at which each is refused.

use std::alloc::Global;
use std::test::Fail;
use tie_front::{TieRefusal, read_tie, rule_name};

// A text, and the name of the rule and the place at which it is refused.
struct Row {
    text: &'static str,
    refused: Option<(&'static str, u32)>,
}

const ROWS: [Row; 41] = [
    Row {
        text: "",
        refused: None,
    },
    Row {
        text: "queue Q 8 in",
        refused: None,
    },
    Row {
        text: "state S 40 5 regfile V 64 4 v queue Q 8 in queue P 16 out table T 8 4 {1, 2, 3, 4} \
               immediate_range I 0 15 1 function [7:0] f ([7:0] x, [3:0] y) {wire [7:0] z = x + \
               {4'd0, y}; assign f = z ^ (z >> 1);} operation A {out V r, in AR a, in I i} {inout \
               S, in Q, out P} {wire [7:0] w = f(a[7:0], i[3:0]); assign r = {T[w], {2{w}}, a} * 3 \
               - (a < 5 ? w : ~w); assign S = S + TIEmul(a, a, 1'b1) | TIEadd(w, Q, 1'b0); assign \
               P = TIEmux(a[0], w, Q) & (!a || &w && ^w);} operation B {inout AR b} {} {assign b = \
               b == 3 | b[3] << 2;} schedule s {A} {use a Mstage; def r Mstage;} format F 32 {f0, \
               f1} slot_opcodes f0 {A, ADD} slot_opcodes f1 {NOP}",
        refused: None,
    },
    Row {
        text: "state A 8 $",
        refused: Some(("BadByte", 10)),
    },
    Row {
        text: "state A 8 /* ",
        refused: Some(("OpenComment", 10)),
    },
    Row {
        text: "state A 8'",
        refused: Some(("BadLiteral", 8)),
    },
    Row {
        text: "state A",
        refused: Some(("Parse", 7)),
    },
    Row {
        text: "state A 8 state A 9",
        refused: Some(("Doubled", 16)),
    },
    Row {
        text: "operation add {} {} {}",
        refused: Some(("Doubled", 10)),
    },
    Row {
        text: "regfile V 8 2 v1",
        refused: Some(("ShortName", 14)),
    },
    Row {
        text: "state A 1 state B 1 state C 1 state D 1 state E 1 state F 1 state G 1 state H 1 \
               state I 1 state J 1 state K 1 state L 1 state M 1 state N 1 state O 1 state P 1 \
               state Q 1 state R 1 state S 1 state T 1 state U 1 state V 1 state W 1 state X 1 \
               state Y 1 state Z 1 state a 1 state b 1 state c 1 state d 1 state e 1 state f 1 \
               state g 1",
        refused: Some(("TooMany", 326)),
    },
    Row {
        text: "operation A {} {} {} operation B {} {} {} operation C {} {} {} operation D {} {} {} \
               operation E {} {} {} operation F {} {} {} operation G {} {} {} operation H {} {} {} \
               operation I {} {} {} operation h {} {} {} operation K {} {} {} operation L {} {} {} \
               operation M {} {} {} operation N {} {} {} operation O {} {} {} operation P {} {} {} \
               operation Q {} {} {} operation R {} {} {} operation S {} {} {} operation T {} {} {} \
               operation U {} {} {} operation V {} {} {} operation W {} {} {} operation X {} {} {} \
               operation Y {} {} {} operation Z {} {} {} operation a {} {} {} operation b {} {} {} \
               operation c {} {} {} operation d {} {} {} operation e {} {} {} operation f {} {} {} \
               operation g {} {} {}",
        refused: Some(("TooManyOpcodes", 682)),
    },
    Row {
        text: "operation O {in AR a, in AR b, in AR c, in AR d} {} {}",
        refused: Some(("TooManyArgs", 10)),
    },
    Row {
        text: "state A 129",
        refused: Some(("WidthRange", 8)),
    },
    Row {
        text: "regfile V 8 17 v",
        refused: Some(("DepthRange", 12)),
    },
    Row {
        text: "state A 8 256",
        refused: Some(("LiteralRange", 10)),
    },
    Row {
        text: "table T 8 3 {1, 2}",
        refused: Some(("TableCount", 6)),
    },
    Row {
        text: "immediate_range R 5 4 1",
        refused: Some(("ImmRange", 16)),
    },
    Row {
        text: "format F 48 {f0} slot_opcodes f0 {ADD}",
        refused: Some(("FormatWidth", 9)),
    },
    Row {
        text: "format F 64 {f0, f1, f2, f3, f4}",
        refused: Some(("SlotCount", 7)),
    },
    Row {
        text: "format F 32 {f0}",
        refused: Some(("SlotList", 13)),
    },
    Row {
        text: "format F 32 {f0} slot_opcodes f0 {ADDI}",
        refused: Some(("SlotOpcode", 34)),
    },
    Row {
        text: "operation O {out AR r, in AR r} {} {assign r = 1;}",
        refused: Some(("LocalDoubled", 29)),
    },
    Row {
        text: "operation O {out AR r} {} {assign r = x;}",
        refused: Some(("UnknownName", 38)),
    },
    Row {
        text: "operation O {in AR a} {} {assign a = 1;}",
        refused: Some(("Direction", 33)),
    },
    Row {
        text: "function f (x) {assign f = f(x);}",
        refused: Some(("Recursion", 27)),
    },
    Row {
        text: "operation O {out AR r, in AR a} {} {assign r = a[a];}",
        refused: Some(("ArgCount", 47)),
    },
    Row {
        text: "operation O {out AR r} {} {assign r = w; wire w = 1;}",
        refused: Some(("UsedBefore", 38)),
    },
    Row {
        text: "operation O {out AR r} {} {assign r = 1; assign r = 2;}",
        refused: Some(("AssignedTwice", 48)),
    },
    Row {
        text: "operation O {out AR r} {} {}",
        refused: Some(("NotAssigned", 20)),
    },
    Row {
        text: "operation O {out AR r, in AR a} {} {assign r = a[32:0];}",
        refused: Some(("SelectRange", 49)),
    },
    Row {
        text: "operation O {out AR r, in AR a} {} {assign r = TIEadd(a, a, a);}",
        refused: Some(("ArgSize", 47)),
    },
    Row {
        text: "operation O {out AR r, in AR a} {} {assign r = {5{a}};}",
        refused: Some(("SizeRange", 47)),
    },
    Row {
        text: "operation O {out AR r} {} {assign r = 1;} schedule s {O} {def r Estage; def r Estage;}",
        refused: Some(("ScheduleTwice", 76)),
    },
    Row {
        text: "operation MYADD {out AR r, in AR a, in AR b} {} {assign r = a + b;}\nschedule s \
               {MYADD} {use a Mstage; def r Estage;}",
        refused: Some(("ScheduleOrder", 108)),
    },
    Row {
        text: "format F 64 {f0, f1, f2, f3} slot_opcodes f0 {ADD, SUB, AND, OR} slot_opcodes f1 \
               {ADD, SUB, AND, OR} slot_opcodes f2 {ADD, SUB, AND, OR} slot_opcodes f3 {ADD, SUB, \
               AND, OR, XOR}",
        refused: Some(("FormatTooWide", 9)),
    },
    Row {
        text: "format F 64 {f0, f1, f2, f3} slot_opcodes f0 {ADD, SUB, AND, OR} slot_opcodes f1 \
               {ADD, SUB, AND, OR} slot_opcodes f2 {ADD, SUB, AND, OR} slot_opcodes f3 {ADD, SUB, \
               AND, OR}",
        refused: None,
    },
    Row {
        text: "state S 8 operation A {} {out S} {assign S = 1;} format F 32 {f0, f1} slot_opcodes \
               f0 {A} slot_opcodes f1 {A}",
        refused: Some(("StateTwice", 56)),
    },
    Row {
        text: "queue Q 8 out operation A {} {out Q} {assign Q = 1;} format F 32 {f0, f1} \
               slot_opcodes f0 {A} slot_opcodes f1 {A}",
        refused: Some(("QueueTwice", 60)),
    },
    Row {
        text: "operation O {out AR r, in AR a} {} {wire [31:0] b = a + a; wire [31:0] c = b + b; \
               wire [31:0] d = c + c; wire [31:0] e = d + d; wire [31:0] f = e + e; wire [31:0] g \
               = f + f; wire [31:0] h = g + g; wire [31:0] i = h + h; wire [31:0] j = i + i; wire \
               [31:0] k = j + j; assign r = k + k;}",
        refused: Some(("TooLarge", 10)),
    },
    Row {
        text: "operation O {out AR r} {} {assign r = w; wire w = x;}",
        refused: Some(("UnknownName", 50)),
    },
];

fn holds(alloc: Global, row: &Row) -> bool {
    let text = row.text.as_bytes();
    if text.len() > 1000 {
        return false;
    }
    match read_tie(alloc, text) {
        Ok(_) => row.refused.is_none(),
        Err(TieRefusal::Fault { rule, place }) => match row.refused {
            Some((name, at)) => rule_name(rule) == name && place == at,
            None => false,
        },
        Err(TieRefusal::NoMemory) => false,
    }
}

#[test]
fn rows(rt: HostRuntime) -> Result<(), Fail> {
    for (number, row) in ROWS.iter().enumerate() {
        assert!(rt; holds(rt.alloc(), row), "row {number}");
    }
    Ok(())
}
