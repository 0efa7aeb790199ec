//! A filter of two processors over many items.

use crate::case::call;
use std::alloc::{AllocError, Global};
use std::test::Fail;
use tie_top::Status;

// S to F to G to C.
const FILTER: &str =
    "version = 1\n[[core]]\nname = 'F'\ntie = 'ft'\nimage = 'fi'\n[[core]]\nname = 'G'\ntie = 'gt'\nimage = 'gi'\n[[source]]\nname = 'S'\nitems = 's'\n[[collector]]\nname = 'C'\n[[queue]]\nname = 'QS'\ncapacity = 4\nfrom = 'S'\nto = 'F.IN'\n[[queue]]\nname = 'QF'\ncapacity = 4\nfrom = 'F.OUT'\nto = 'G.IN'\n[[queue]]\nname = 'QG'\ncapacity = 4\nfrom = 'G.OUT'\nto = 'C'\n";

// An item plus twice the one before; a counter beside it in one bundle.
const TAP: &str =
    "queue IN 32 in queue OUT 32 out state PREV 32 operation TAP {out AR y} {in IN, inout PREV} { wire [31:0] p = PREV * 32'd2; assign y = IN + p; assign PREV = IN; } operation PUSH {in AR s} {out OUT} {assign OUT = s;} operation DEC {inout AR c} {} {assign c = c - 32'd1;} format F 64 {f0, f1} slot_opcodes f0 {TAP} slot_opcodes f1 {DEC}";

// J over the word 4096 to L32R a2; { TAP a3 ; DEC a2 }, PUSH a3, BNEZ a2 back; SIMCALL
const TAPPING: &str =
    "06 01 00 00 00 10 00 00 21 FF FF 0F 23 00 00 00 00 00 00 00 30 16 56 12 FF 00 51 00";

const SCALE: &str =
    "queue IN 32 in queue OUT 32 out operation SCALE {} {in IN, out OUT} {assign OUT = IN << 2;}";

// J over the word 4096 to L32R a2; SCALE, ADDI a2, a2, -1, BNEZ a2 back; SIMCALL
const SCALING: &str = "06 01 00 00 00 10 00 00 21 FF FF 00 00 06 22 C2 FF 56 62 FF 00 51 00";

const BEFORE: &str =
    "core F retired 12291 halted pc 0000001C\n  sar 0\n  a3 00000003\n  PREV 00000001\ncore G retired 12291 halted pc 00000017\n  sar 0\nqueue QS consumed 4096\nqueue QF pushed 4096 consumed 4096\nqueue QG pushed 4096 consumed 4096\ncollector C items 4096\n  00000004\n";

// A text, so many times.
fn repeated(alloc: Global, text: &str, count: usize) -> Result<String, AllocError> {
    let mut whole = String::new(alloc);
    for _ in 0..count {
        whole.push_str(text)?;
    }
    Ok(whole)
}

#[test]
fn filter(rt: HostRuntime) -> Result<(), Fail> {
    let items = repeated(rt.alloc(), "00000001\n", 4096)?;
    let files = [
        ("n", FILTER),
        ("ft", TAP),
        ("fi", TAPPING),
        ("gt", SCALE),
        ("gi", SCALING),
        ("s", items.as_str()),
    ];
    let (status, out, err) = call(&rt, &files, &["strict", "n"])?;
    let collected = repeated(rt.alloc(), "  0000000C\n", 4095)?;
    let collected = collected.as_str();
    let wanted = format!(in rt.alloc(); "{BEFORE}{collected}end halted\n")?;
    assert_eq!(rt; out.written(), wanted.as_bytes());
    assert_eq!(rt; err.written(), b"".as_slice());
    assert_eq!(rt; status, Status::Done);
    Ok(())
}
