//! Operations of TIE texts with operands of every kind, from the text to the state after a step.

ghost use Rattle.xt_exec.specs.Made.{IsFor};

use crate::machine::{Machine, made};
use std::test::Fail;
use tie_desc::Kit;
use xt_exec::{Arch, Ending, Needs, Step, needs, step};

const EMPTY: [Option<u128>; 8] = [None; 8];

// Takes one bundle more, where the processor runs.
fn go_on(kit: &Kit, arch: &mut Arch)
    requires { IsFor kit.now arch.old }
    ensures { IsFor kit.now arch.new }
{
    if let Ending::Running = arch.ending() {
        step(kit, arch, &EMPTY);
    }
}

// Rows: a TIE text, an image of two operations, and a4 after both.
#[test]
fn operands(rt: HostRuntime) -> Result<(), Fail> {
    let rows = [
        (
            "immediate_range I -4 26 2 operation A {out AR r, in I i} {} {assign r = i;}",
            [0x00, 0x43, 0x06, 0x00, 0x41, 0x06],
            0xFFFF_FFFE,
        ), // the numbers 3 and 1 of the range: 2, then -2
        (
            "immediate_range I 0 15 1 table T 8 4 {1, 4, 9, 16} operation A {out AR r, in I i} {} {assign r = T[i];}",
            [0x00, 0x44, 0x06, 0x00, 0x42, 0x06],
            9,
        ), // a look-up beyond the table, then that of 2
        (
            "immediate_range I 200 215 1 function [7:0] twice ([7:0] x) {assign twice = x + x;} operation A {out AR r, in I i} {} {assign r = twice(i);}",
            [0x00, 0x41, 0x06, 0x00, 0x40, 0x06],
            0x90,
        ), // twice 200 in 8 bits is 400 - 256
        (
            "state S 8 7 operation A {out AR r} {inout S} {assign r = S; assign S = S + 255;}",
            [0x00, 0x40, 0x06, 0x00, 0x40, 0x06],
            6,
        ), // 7 is read first, and then 7 + 255 - 256
        (
            "regfile V 64 4 v operation A {out V d} {} {assign d = {32'd1, 32'd5};} operation B {out AR r, in V s} {} {assign r = s[36:4];}",
            [0x00, 0x30, 0x06, 0x00, 0x43, 0x16],
            0x1000_0000,
        ), // v3 of 1 and 5; its bits from 4 on
        (
            "operation A {inout AR a} {} {assign a = a + 3;}",
            [0x00, 0x40, 0x06, 0x00, 0x40, 0x06],
            6,
        ), // 3 more, twice
    ];
    for (tie, text, a4) in rows {
        let Machine { kit, mut arch } = made(rt.alloc(), tie, &text)?;
        go_on(&kit, &mut arch);
        go_on(&kit, &mut arch);
        assert_eq!(rt; (arch.ar(4), arch.pc()), (a4, 6));
    }
    Ok(())
}

const QUEUES: &str =
    "queue Q 8 in queue R 4 in queue P 16 out operation A {out AR r} {in R, in Q, out P} {assign r = Q; assign P = {Q, R};}";

// Rows: the heads of Q and R, the answer of a step, and a4 after it. The first queue without a head is named, in the
// order of their declaration; heads are read modulo 2 to the width.
#[test]
fn queues(rt: HostRuntime) -> Result<(), Fail> {
    let pushed = [Some(0xFFA), None, None, None, None, None, None, None];
    let rows = [
        (None, None, Step::NeedsItem(0), 0),
        (None, Some(1), Step::NeedsItem(0), 0),
        (Some(1), None, Step::NeedsItem(1), 0),
        (Some(0x1FF), Some(0x2A), Step::Stepped { pushed }, 0xFF),
    ];
    for (first, second, answer, a4) in rows {
        let Machine { kit, mut arch } = made(rt.alloc(), QUEUES, &[0x00, 0x40, 0x06])?;
        assert_eq!(rt; needs(&kit, &arch), Needs { pops: 3, pushes: 1 });
        let heads = [first, second, None, None, None, None, None, None];
        let told = match arch.ending() {
            Ending::Running => Some(step(&kit, &mut arch, &heads)),
            _ => None,
        };
        assert_eq!(rt; (told, arch.ar(4)), (Some(answer), a4));
    }
    Ok(())
}
