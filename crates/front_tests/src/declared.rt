//! One text, with its rows worked by hand.

ghost use Rattle.std.specs.Prelude.{◌≤◌, length, IfOk};
ghost use Rattle.tie_front.specs.tie_tree_law.Shape.{IsRead};

use std::alloc::Global;
use std::test::Fail;
use tie_ast::parse;
use tie_desc::{Access, Code, Kind, Operand, SlotCore};
use tie_describe::{Parts, describe};
use tie_front::{tie_describe, tie_tree_law};
use tie_grammar::tree::Tree;
use tie_lexer::lex;
use tie_tree_law::read_trees;

const TEXT: &str = "state ACC 40 40'h5 state CNT 8
regfile VEC 64 4 v regfile WID 16 8 w
immediate_range EVEN -4 2 2
queue OUT 16 out queue IN 32 in
operation MOVX {out AR d, in EVEN s} {inout CNT} {}
operation VADD {out VEC d, in WID s, in VEC e} {in IN, out OUT} {}
schedule S {VADD} {use IN Mstage; use s Estage; def d Mstage;}
format F 32 {f0} format G 64 {g0} format H 32 {h0}
slot_opcodes f0 {VADD, MULL, MOVX, NOP}";

fn read(alloc: Global, text: &[u8]) -> Result<Tree, Fail>
    requires { length text.now ≤ 1048576 }
    ensures { IfOk result (λ tree. IsRead tree) }
{
    let tokens = lex(alloc, text)?;
    Ok(parse(alloc, text, tokens.as_slice())?)
}

fn parts_of(alloc: Global, text: &[u8]) -> Result<Parts, Fail>
    requires { length text.now ≤ 1048576 }
{
    let tree = read(alloc, text)?;
    read_trees();
    Ok(describe(alloc, &tree, Vec::new(alloc))?)
}

fn example(alloc: Global) -> Result<Parts, Fail> {
    let text = TEXT.as_bytes();
    if text.len() > 1048576 {
        return Err("long")?;
    }
    parts_of(alloc, text)
}

#[test]
fn declarations(rt: HostRuntime) -> Result<(), Fail> {
    let parts = example(rt.alloc())?;
    let state = parts.states.get(0).ok_or("state")?;
    assert!(rt; state.name.is(b"ACC"));
    assert_eq!(rt; (state.width, state.reset), (40, 5));
    assert_eq!(rt; parts.states.get(1).ok_or("state")?.reset, 0);
    let file = parts.files.get(1).ok_or("file")?;
    assert!(rt; file.short.is(b"w"));
    assert_eq!(rt; (file.width, file.depth), (16, 8));
    let range = parts.ranges.get(0).ok_or("range")?;
    assert_eq!(rt; (range.low, range.step, range.count), (-4, 2, 4));
    assert!(rt; parts.ins.get(0).ok_or("queue")?.name.is(b"IN"));
    assert_eq!(rt; parts.outs.get(0).ok_or("queue")?.width, 16);
    Ok(())
}

fn access(p: &Operand) -> Access {
    Access {
        kind: p.kind,
        reads: p.reads,
        writes: p.writes,
        use_m: p.use_m,
        def_m: p.def_m,
    }
}

fn access_of(
    kind: Kind,
    (reads, writes): (bool, bool),
    (use_m, def_m): (bool, bool),
) -> Option<Access> {
    Some(Access {
        kind,
        reads,
        writes,
        use_m,
        def_m,
    })
}

fn operand(parts: &Parts, op: usize, at: usize) -> Option<Access> {
    let op = parts.ops.get(op)?;
    let p = match op.args.get(at) {
        Some(p) => p,
        None => op.links.get(at.saturating_sub(op.args.len()))?,
    };
    Some(access(p))
}

#[test]
fn operands(rt: HostRuntime) -> Result<(), Fail> {
    let parts = example(rt.alloc())?;
    let early = (false, false);
    for (op, at, row) in [
        (0, 0, access_of(Kind::Ar, (false, true), early)),
        (0, 1, access_of(Kind::Range(0), (true, false), early)),
        (0, 2, access_of(Kind::State(1), (true, true), early)),
        (1, 0, access_of(Kind::File(0), (false, true), (false, true))),
        (1, 1, access_of(Kind::File(1), (true, false), early)),
        (1, 2, access_of(Kind::File(0), (true, false), early)),
        (
            1,
            3,
            access_of(Kind::InQueue(0), (true, false), (true, false)),
        ),
        (
            1,
            4,
            access_of(Kind::OutQueue(0), (false, true), (false, true)),
        ),
        (1, 5, None),
    ] {
        assert_eq!(rt; operand(&parts, op, at), row);
    }
    Ok(())
}

fn code(parts: &Parts, at: usize) -> Option<Code> {
    let format = parts.formats.get(0)?;
    format.slots.get(0)?.codes.get(at).copied()
}

#[test]
fn formats(rt: HostRuntime) -> Result<(), Fail> {
    let parts = example(rt.alloc())?;
    for (at, width, number) in [(0, 32, 0), (1, 64, 0), (2, 32, 1)] {
        let format = parts.formats.get(at).ok_or("format")?;
        assert_eq!(rt; (format.width, format.number), (width, number));
    }
    for (at, row) in [
        (0, Some(Code::Op(1))),
        (1, Some(Code::Core(SlotCore::Mull))),
        (2, Some(Code::Op(0))),
        (3, Some(Code::Core(SlotCore::Nop))),
        (4, None),
    ] {
        assert_eq!(rt; code(&parts, at), row);
    }
    Ok(())
}
