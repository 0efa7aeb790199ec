//! Listings by hand.

use std::alloc::Global;
use std::test::Fail;
use tie_desc::Desc;
use tie_front::read_tie;
use xt_dis::disassemble;

// Whether this is the listing of these bytes.
fn lists(alloc: Global, desc: &Desc, bytes: &[u8], text: &str) -> bool {
    if bytes.len() > 65536 {
        return false;
    }
    match disassemble(alloc, desc, bytes) {
        Ok(listing) => listing.as_slice() == text.as_bytes(),
        Err(_) => false,
    }
}

#[test]
fn core_instructions(rt: HostRuntime) -> Result<(), Fail> {
    let desc = Desc::empty(rt.alloc());
    for (bytes, text) in [
        ([].as_slice(), ""),
        (&[0x22, 0xA0, 0x05, 0xFF], "MOVI a2, 5\n.byte 255\n"),
        (&[0x32, 0xAF, 0xFF], "MOVI a3, -1\n"),
        (&[0x00, 0x51, 0x00], "SIMCALL\n"),
        (&[0x30, 0x12, 0x80], "ADD a1, a2, a3\n"),
        (&[0x10, 0x41, 0x40], "SSAI 17\n"),
        (&[0xF0, 0x23, 0x11], "SLLI a2, a3, 1\n"),
        (&[0x30, 0x24, 0x74], "EXTUI a2, a3, 4, 8\n"),
        (&[0x22, 0x23, 0x02], "L32I a2, a3, 8\n"),
        (&[0x22, 0xD3, 0xFF], "ADDMI a2, a3, -256\n"),
        (&[0x26, 0x03, 0x00], "BEQI a3, -1, 0x00000004\n"),
        (&[0xB6, 0x03, 0x00], "BLTUI a3, 32768, 0x00000004\n"),
        (&[0x17, 0x74, 0xFC], "BBCI a4, 17, 0x00000000\n"),
        (&[0x06, 0xFE, 0xFF], "J 0xfffffffc\n"),
        (&[0xF0, 0x20, 0x00, 0x06, 0x01, 0x00], "NOP\nJ 0x0000000b\n"),
        (
            &[0xF0, 0x20, 0x00, 0x45, 0x00, 0x00],
            "NOP\nCALL0 0x00000008\n",
        ),
        (
            &[0xFF, 0x21, 0xFF, 0xFF],
            ".byte 255\nL32R a2, 0x00000000\n",
        ),
    ] {
        assert!(rt; lists(rt.alloc(), &desc, bytes, text));
    }
    Ok(())
}

// MIX writes a register of a file, and has a register of the core and an even number as operands; F has it beside ADD.
const MIX: &[u8] =
    b"regfile VEC 32 4 v immediate_range EVEN -4 2 2 operation MIX {out VEC d, in AR s, in EVEN i} {} {assign d = s;} format F 32 {f0, f1} slot_opcodes f0 {MIX} slot_opcodes f1 {ADD}";

fn mix(alloc: Global) -> Result<Desc, Fail> {
    if MIX.len() > 1000 {
        return Err(Fail::from("too long"));
    }
    Ok(read_tie(alloc, MIX)?)
}

#[test]
fn operations(rt: HostRuntime) -> Result<(), Fail> {
    let desc = mix(rt.alloc())?;
    for (bytes, text) in [
        ([0x30, 0x37, 0x06].as_slice(), "MIX v3, a7, 2\n"),
        (
            &[0x0E, 0x21, 0x30, 0x54],
            "F { MIX v1, a2, -4 ; ADD a3, a4, a5 }\n",
        ),
        (&[0x30, 0x47, 0x06], ".byte 48\n.byte 71\n.byte 6\n"),
    ] {
        assert!(rt; lists(rt.alloc(), &desc, bytes, text));
    }
    Ok(())
}
