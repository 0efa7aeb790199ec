//! Runs of a processor to their stop.

ghost use Rattle.std.specs.Prelude.{◌≤◌, length};

use crate::machine::{COPIES, Machine, made};
use std::alloc::Global;
use std::test::Fail;
use xt_exec::{Arch, Ending, Trap, run};

// The retirements of a text on a processor of a TIE text without queues, and the state at its stop.
fn stop_of(alloc: Global, tie: &str, text: &[u8]) -> Result<(u64, Arch), Fail>
    requires { length text.now ≤ 64 }
{
    let Machine { kit, mut arch } = made(alloc, tie, text)?;
    if !kit.desc.ins.is_empty() {
        return Err(Fail::from("an input queue"));
    }
    if !kit.desc.outs.is_empty() {
        return Err(Fail::from("an output queue"));
    }
    let retired = run(&kit, &mut arch, 1_000);
    Ok((retired, arch))
}

// Rows: a text, its retirements, the pc, a4, and the ending.
#[test]
fn core_texts(rt: HostRuntime) -> Result<(), Fail> {
    let rows = [
        (
            [
                0x22, 0xA0, 0x05, 0x32, 0xAF, 0xFF, 0x30, 0x42, 0x80, 0x00, 0x51, 0x00,
            ]
            .as_slice(),
            4,
            12,
            4,
            Ending::Halted,
        ), // MOVI a2, 5; MOVI a3, -1; ADD a4, a2, a3; SIMCALL
        (
            [
                0x06, 0x01, 0x00, 0, 0x78, 0x56, 0x34, 0x12, 0x41, 0xFF, 0xFF,
            ]
            .as_slice(),
            2,
            11,
            0x1234_5678,
            Ending::Trapped(Trap::Illegal),
        ), // J over a word; L32R a4 of it
        (
            [0x22, 0x60, 0x00].as_slice(),
            0,
            0,
            0,
            Ending::Trapped(Trap::StoreText),
        ), // S32I a2, a0, 0
        (
            [0x12, 0xAF, 0xFF, 0x22, 0x21, 0x00].as_slice(),
            1,
            3,
            0,
            Ending::Trapped(Trap::Unaligned),
        ), // MOVI a1, -1; L32I a2, a1, 0
        (
            [0x12, 0xAF, 0xFC, 0x22, 0x21, 0x00].as_slice(),
            1,
            3,
            0,
            Ending::Trapped(Trap::BadAddress),
        ), // MOVI a1, -4; L32I a2, a1, 0
        ([0x06, 0xFF, 0xFF].as_slice(), 1_000, 0, 0, Ending::Running), // J to itself
    ];
    for (text, retired, pc, a4, ending) in rows {
        assert!(rt; text.len() <= 64);
        let (count, arch) = stop_of(rt.alloc(), "", text)?;
        assert_eq!(rt; (count, arch.pc(), arch.ar(4)), (retired, pc, a4));
        assert_eq!(rt; arch.ending(), ending);
    }
    Ok(())
}

// Rows: a text in 64 bytes of memory, its retirements, a4, and the ending.
#[test]
fn accesses(rt: HostRuntime) -> Result<(), Fail> {
    let rows = [
        (
            [0x42, 0x02, 0x06, 0x00, 0x51, 0x00, 0x80, 0x91].as_slice(),
            2,
            0x80,
            Ending::Halted,
        ), // L8UI a4, a2, 6
        (
            [0x42, 0x12, 0x03, 0x00, 0x51, 0x00, 0x80, 0x91].as_slice(),
            2,
            0x9180,
            Ending::Halted,
        ), // L16UI a4, a2, 6
        (
            [0x42, 0x92, 0x03, 0x00, 0x51, 0x00, 0x80, 0x91].as_slice(),
            2,
            0xFFFF_9180,
            Ending::Halted,
        ), // L16SI a4, a2, 6
        (
            [
                0x42, 0x22, 0x02, 0x00, 0x51, 0x00, 0, 0, 0x80, 0x91, 0xA2, 0xF3,
            ]
            .as_slice(),
            2,
            0xF3A2_9180,
            Ending::Halted,
        ), // L32I a4, a2, 8
        (
            [
                0x32, 0xAF, 0xFE, 0x32, 0x42, 0x10, 0x42, 0x22, 0x04, 0x00, 0x51, 0x00,
            ]
            .as_slice(),
            4,
            0xFE,
            Ending::Halted,
        ), // MOVI a3, -2; S8I a3, a2, 16; L32I a4, a2, 16
        (
            [
                0x32, 0xAF, 0xFE, 0x32, 0x52, 0x08, 0x42, 0x22, 0x04, 0x00, 0x51, 0x00,
            ]
            .as_slice(),
            4,
            0xFFFE,
            Ending::Halted,
        ), // S16I in its place
        (
            [
                0x32, 0xAF, 0xFE, 0x32, 0x62, 0x04, 0x42, 0x22, 0x04, 0x00, 0x51, 0x00,
            ]
            .as_slice(),
            4,
            0xFFFF_FFFE,
            Ending::Halted,
        ), // S32I in its place
        (
            [0x42, 0x02, 0x3F, 0x00, 0x51, 0x00].as_slice(),
            2,
            0,
            Ending::Halted,
        ), // L8UI of the last byte
        (
            [0x42, 0x02, 0x40].as_slice(),
            0,
            0,
            Ending::Trapped(Trap::BadAddress),
        ), // L8UI of the byte after it
        (
            [0x22, 0xA0, 0x05, 0x42, 0x12, 0x00].as_slice(),
            1,
            0,
            Ending::Trapped(Trap::Unaligned),
        ), // MOVI a2, 5; L16UI a4, a2, 0
        (
            [0x22, 0xA0, 0x41, 0x42, 0x92, 0x00].as_slice(),
            1,
            0,
            Ending::Trapped(Trap::Unaligned),
        ), // MOVI a2, 65; L16SI a4, a2, 0
        (
            [0x22, 0xA0, 0x02, 0x32, 0x62, 0x00].as_slice(),
            1,
            0,
            Ending::Trapped(Trap::Unaligned),
        ), // MOVI a2, 2; S32I a3, a2, 0
        (
            [0x32, 0x52, 0x01].as_slice(),
            0,
            0,
            Ending::Trapped(Trap::StoreText),
        ), // S16I a3, a2, 2
        (
            [0x22, 0xAF, 0xFF, 0x32, 0x42, 0x00].as_slice(),
            1,
            0,
            Ending::Trapped(Trap::BadAddress),
        ), // MOVI a2, -1; S8I a3, a2, 0
    ];
    for (text, retired, a4, ending) in rows {
        assert!(rt; text.len() <= 64);
        let (count, arch) = stop_of(rt.alloc(), "", text)?;
        assert_eq!(rt; (count, arch.ar(4), arch.ending()), (retired, a4, ending));
    }
    Ok(())
}

// MOVI a2, 5; MOVI a3, -1; F { MOVX a2, a3 ; MOVY a3, a2 }; SIMCALL. Both parts read the old registers.
#[test]
fn a_wide_bundle(rt: HostRuntime) -> Result<(), Fail> {
    let text = [
        0x22, 0xA0, 0x05, 0x32, 0xAF, 0xFF, 0x0E, 0x32, 0x23, 0x00, 0x00, 0x51, 0x00,
    ];
    let (retired, arch) = stop_of(rt.alloc(), COPIES, &text)?;
    assert_eq!(rt; (retired, arch.pc()), (4, 13));
    assert_eq!(rt; (arch.ar(2), arch.ar(3)), (0xFFFF_FFFF, 5));
    Ok(())
}
