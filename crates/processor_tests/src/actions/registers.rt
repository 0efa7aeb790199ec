use super::{done, written};
use std::test::Fail;

// Rows: an instruction with r 4, s 2, t 3, the values of a2 and a3 before it, and that of a4 after it.

#[test]
fn logic_and_sums(rt: HostRuntime) -> Result<(), Fail> {
    let rows = [
        ([0x30, 0x42, 0x10], 0x0FF0_1234, 0x00FF_F0F0, 0x00F0_1030), // AND
        ([0x30, 0x42, 0x20], 0x0FF0_1234, 0x00FF_F0F0, 0x0FFF_F2F4), // OR
        ([0x30, 0x42, 0x30], 0x0FF0_1234, 0x00FF_F0F0, 0x0F0F_E2C4), // XOR
        ([0x30, 0x42, 0x80], 0xFFFF_FFFF, 5, 4), // ADD
        ([0x30, 0x42, 0x90], 0x8000_0001, 3, 5), // ADDX2
        ([0x30, 0x42, 0xA0], 5, 0xFFFF_FFFF, 19), // ADDX4
        ([0x30, 0x42, 0xB0], 0x2000_0001, 7, 15), // ADDX8
        ([0x30, 0x42, 0xC0], 3, 5, 0xFFFF_FFFE), // SUB
        ([0x30, 0x42, 0xD0], 3, 7, 0xFFFF_FFFF), // SUBX2
        ([0x30, 0x42, 0xE0], 0x4000_0000, 1, 0xFFFF_FFFF), // SUBX4
        ([0x30, 0x42, 0xF0], 2, 6, 10), // SUBX8
        ([0x30, 0x40, 0x60], 9, 1, 0xFFFF_FFFF), // NEG
        ([0x30, 0x40, 0x60], 9, 0x8000_0000, 0x8000_0000),
        ([0x30, 0x41, 0x60], 9, 0xFFFF_FFFB, 5), // ABS
        ([0x30, 0x41, 0x60], 9, 7, 7),
        ([0x30, 0x41, 0x60], 9, 0x8000_0000, 0x8000_0000),
    ];
    for (bytes, a2, a3, a4) in rows {
        assert_eq!(rt; written(done(bytes, 0, a2, a3, 0)), Some((4, a4)));
    }
    Ok(())
}

#[test]
fn products_and_extremes(rt: HostRuntime) -> Result<(), Fail> {
    let rows = [
        ([0x30, 0x42, 0xC1], 0xABCD_FFFF, 0x0001_FFFF, 0xFFFE_0001), // MUL16U
        ([0x30, 0x42, 0xD1], 0xABCD_FFFF, 0x5555_0002, 0xFFFF_FFFE), // MUL16S
        ([0x30, 0x42, 0xD1], 0x8000, 0x8000, 0x4000_0000),
        ([0x30, 0x42, 0x82], 0x0001_0001, 0x0001_0001, 0x0002_0001), // MULL
        ([0x80, 0x42, 0x23], 0x1234_8001, 0, 0xFFFF_8001), // SEXT at 15
        ([0x80, 0x42, 0x23], 0x1234_7FFF, 0, 0x7FFF),
        ([0x30, 0x42, 0x43], 0xFFFF_FFFF, 1, 0xFFFF_FFFF), // MIN
        ([0x30, 0x42, 0x53], 0xFFFF_FFFF, 1, 1), // MAX
        ([0x30, 0x42, 0x63], 0xFFFF_FFFF, 1, 1), // MINU
        ([0x30, 0x42, 0x73], 0xFFFF_FFFF, 1, 0xFFFF_FFFF), // MAXU
    ];
    for (bytes, a2, a3, a4) in rows {
        assert_eq!(rt; written(done(bytes, 0, a2, a3, 0)), Some((4, a4)));
    }
    Ok(())
}

// Rows: a move of a2 to a4 where a3 is so, a3, and whether it moves.
#[test]
fn conditional_moves(rt: HostRuntime) -> Result<(), Fail> {
    let rows = [
        ([0x30, 0x42, 0x83], 0, true), // MOVEQZ
        ([0x30, 0x42, 0x83], 1, false),
        ([0x30, 0x42, 0x93], 1, true), // MOVNEZ
        ([0x30, 0x42, 0x93], 0, false),
        ([0x30, 0x42, 0xA3], 0x8000_0000, true), // MOVLTZ
        ([0x30, 0x42, 0xA3], 0, false),
        ([0x30, 0x42, 0xB3], 0, true), // MOVGEZ
        ([0x30, 0x42, 0xB3], 0x8000_0000, false),
    ];
    for (bytes, a3, moves) in rows {
        let action = done(bytes, 0, 9, a3, 0);
        assert_eq!(rt;
            (action.is_some(), written(action)),
            (true, moves.then_some((4, 9)))
        );
    }
    Ok(())
}

#[test]
fn immediates(rt: HostRuntime) -> Result<(), Fail> {
    let rows = [
        ([0xB0, 0x42, 0x11], 0x8400_0001, 0, 0x8000_0020), // SLLI by 5
        ([0xC0, 0x42, 0x01], 0x1003, 0, 0x0030_0000), // SLLI by 20
        ([0x30, 0x45, 0x31], 9, 0x8000_0000, 0xFFFF_FC00), // SRAI by 21
        ([0x30, 0x45, 0x31], 9, 0x7FE0_0000, 0x3FF),
        ([0x30, 0x49, 0x41], 9, 0x8000_0200, 0x0040_0001), // SRLI by 9
        ([0x30, 0x44, 0x55], 9, 0xABCD_EF01, 0x3C), // EXTUI 6 bits from 20 on
        ([0x30, 0x4F, 0xF5], 9, 0x8000_0000, 1), // EXTUI 16 bits from 31 on
        ([0x42, 0xAF, 0xFF], 9, 9, 0xFFFF_FFFF), // MOVI -1
        ([0x42, 0xA7, 0xFF], 9, 9, 0x7FF), // MOVI 2047
        ([0x42, 0xC2, 0x80], 5, 9, 0xFFFF_FF85), // ADDI -128
        ([0x42, 0xD2, 0xFF], 0x100, 9, 0), // ADDMI -256
        ([0x42, 0xD2, 0x7F], 1, 9, 0x7F01), // ADDMI 32512
    ];
    for (bytes, a2, a3, a4) in rows {
        assert_eq!(rt; written(done(bytes, 0, a2, a3, 0)), Some((4, a4)));
    }
    Ok(())
}

// Rows: an instruction, SAR before it, and a4 after it, where a2 is 12345678 and a3 is 9ABCDEF0.
#[test]
fn shifts_by_sar(rt: HostRuntime) -> Result<(), Fail> {
    let rows = [
        ([0x30, 0x42, 0x81], 0, 0x9ABC_DEF0), // SRC
        ([0x30, 0x42, 0x81], 8, 0x789A_BCDE),
        ([0x30, 0x42, 0x81], 32, 0x1234_5678),
        ([0x30, 0x40, 0x91], 31, 1), // SRL
        ([0x30, 0x40, 0x91], 32, 0),
        ([0x00, 0x42, 0xA1], 28, 0x2345_6780), // SLL
        ([0x00, 0x42, 0xA1], 32, 0x1234_5678),
        ([0x30, 0x40, 0xB1], 4, 0xF9AB_CDEF), // SRA
        ([0x30, 0x40, 0xB1], 32, 0xFFFF_FFFF),
    ];
    for (bytes, sar, a4) in rows {
        assert_eq!(rt;
            written(done(bytes, 0, 0x1234_5678, 0x9ABC_DEF0, sar)),
            Some((4, a4))
        );
    }
    Ok(())
}

// Rows: an instruction, a2 before it, and SAR after it.
#[test]
fn sets_sar(rt: HostRuntime) -> Result<(), Fail> {
    let rows = [
        ([0x00, 0x02, 0x40], 0x25, 5), // SSR
        ([0x00, 0x12, 0x40], 0x25, 27), // SSL
        ([0x00, 0x12, 0x40], 0x20, 32),
        ([0x10, 0x43, 0x40], 7, 19), // SSAI 19
    ];
    for (bytes, a2, sar) in rows {
        let set = match done(bytes, 0, a2, 0, 1) {
            Some(action) => action.sar,
            None => None,
        };
        assert_eq!(rt; set, Some(sar));
    }
    Ok(())
}
