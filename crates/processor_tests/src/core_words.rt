//! Core instructions and their bytes.

use std::test::Fail;
use xt_isa::{Inst, decode_core, encode_core, fits};

// Whether the instruction fits, is encoded as these bytes, and is what they decode to. Two instructions are compared by
// their bytes.
fn is_spelled(inst: Inst, bytes: [u8; 3]) -> bool {
    let Some(found) = decode_core(bytes) else {
        return false;
    };
    fits(&inst) && encode_core(&inst) == bytes && encode_core(&found) == bytes
}

// Words worked by hand from the manual's formats: for three registers r 4, s 2, t 3.
#[test]
fn sums_and_jumps_through_registers(rt: HostRuntime) -> Result<(), Fail> {
    let rows = [
        (Inst::And(4, 2, 3), [0x30, 0x42, 0x10]),
        (Inst::Or(4, 2, 3), [0x30, 0x42, 0x20]),
        (Inst::Xor(4, 2, 3), [0x30, 0x42, 0x30]),
        (Inst::Add(4, 2, 3), [0x30, 0x42, 0x80]),
        (Inst::Addx2(4, 2, 3), [0x30, 0x42, 0x90]),
        (Inst::Addx4(4, 2, 3), [0x30, 0x42, 0xA0]),
        (Inst::Addx8(4, 2, 3), [0x30, 0x42, 0xB0]),
        (Inst::Sub(4, 2, 3), [0x30, 0x42, 0xC0]),
        (Inst::Subx2(4, 2, 3), [0x30, 0x42, 0xD0]),
        (Inst::Subx4(4, 2, 3), [0x30, 0x42, 0xE0]),
        (Inst::Subx8(4, 2, 3), [0x30, 0x42, 0xF0]),
        (Inst::Neg(4, 3), [0x30, 0x40, 0x60]),
        (Inst::Abs(4, 3), [0x30, 0x41, 0x60]),
        (Inst::Ssr(2), [0x00, 0x02, 0x40]),
        (Inst::Ssl(2), [0x00, 0x12, 0x40]),
        (Inst::Ssai(19), [0x10, 0x43, 0x40]),
        (Inst::Ret, [0x80, 0x00, 0x00]),
        (Inst::Jx(2), [0xA0, 0x02, 0x00]),
        (Inst::Callx0(2), [0xC0, 0x02, 0x00]),
        (Inst::Nop, [0xF0, 0x20, 0x00]),
        (Inst::Simcall, [0x00, 0x51, 0x00]),
    ];
    for (inst, bytes) in rows {
        assert!(rt; is_spelled(inst, bytes));
    }
    Ok(())
}

#[test]
fn shifts_products_and_choices(rt: HostRuntime) -> Result<(), Fail> {
    let rows = [
        (Inst::Slli(4, 2, 5), [0xB0, 0x42, 0x11]),
        (Inst::Slli(4, 2, 20), [0xC0, 0x42, 0x01]),
        (Inst::Srai(4, 3, 21), [0x30, 0x45, 0x31]),
        (Inst::Srli(4, 3, 9), [0x30, 0x49, 0x41]),
        (Inst::Src(4, 2, 3), [0x30, 0x42, 0x81]),
        (Inst::Srl(4, 3), [0x30, 0x40, 0x91]),
        (Inst::Sll(4, 2), [0x00, 0x42, 0xA1]),
        (Inst::Sra(4, 3), [0x30, 0x40, 0xB1]),
        (Inst::Mul16u(4, 2, 3), [0x30, 0x42, 0xC1]),
        (Inst::Mul16s(4, 2, 3), [0x30, 0x42, 0xD1]),
        (Inst::Mull(4, 2, 3), [0x30, 0x42, 0x82]),
        (Inst::Sext(4, 2, 15), [0x80, 0x42, 0x23]),
        (Inst::Min(4, 2, 3), [0x30, 0x42, 0x43]),
        (Inst::Max(4, 2, 3), [0x30, 0x42, 0x53]),
        (Inst::Minu(4, 2, 3), [0x30, 0x42, 0x63]),
        (Inst::Maxu(4, 2, 3), [0x30, 0x42, 0x73]),
        (Inst::Moveqz(4, 2, 3), [0x30, 0x42, 0x83]),
        (Inst::Movnez(4, 2, 3), [0x30, 0x42, 0x93]),
        (Inst::Movltz(4, 2, 3), [0x30, 0x42, 0xA3]),
        (Inst::Movgez(4, 2, 3), [0x30, 0x42, 0xB3]),
        (Inst::Extui(4, 3, 20, 6), [0x30, 0x44, 0x55]),
    ];
    for (inst, bytes) in rows {
        assert!(rt; is_spelled(inst, bytes));
    }
    Ok(())
}

#[test]
fn memory_and_immediates(rt: HostRuntime) -> Result<(), Fail> {
    let rows = [
        (Inst::L32r(3, -8), [0x31, 0xFE, 0xFF]),
        (Inst::L8ui(3, 2, 200), [0x32, 0x02, 0xC8]),
        (Inst::L16ui(3, 2, 200), [0x32, 0x12, 0x64]),
        (Inst::L32i(3, 2, 200), [0x32, 0x22, 0x32]),
        (Inst::L16si(3, 2, 200), [0x32, 0x92, 0x64]),
        (Inst::S8i(3, 2, 200), [0x32, 0x42, 0xC8]),
        (Inst::S16i(3, 2, 200), [0x32, 0x52, 0x64]),
        (Inst::S32i(3, 2, 200), [0x32, 0x62, 0x32]),
        (Inst::Movi(3, -1000), [0x32, 0xAC, 0x18]),
        (Inst::Addi(3, 2, -100), [0x32, 0xC2, 0x9C]),
        (Inst::Addmi(3, 2, -512), [0x32, 0xD2, 0xFE]),
        (Inst::Call0(-8), [0x85, 0xFF, 0xFF]),
        (Inst::Call0(400), [0x05, 0x19, 0x00]),
        (Inst::J(-4), [0x06, 0xFF, 0xFF]),
    ];
    for (inst, bytes) in rows {
        assert!(rt; is_spelled(inst, bytes));
    }
    Ok(())
}

#[test]
fn branches(rt: HostRuntime) -> Result<(), Fail> {
    let rows = [
        (Inst::Beqz(2, -10), [0x16, 0x62, 0xFF]),
        (Inst::Bnez(2, -10), [0x56, 0x62, 0xFF]),
        (Inst::Bltz(2, -10), [0x96, 0x62, 0xFF]),
        (Inst::Bgez(2, -10), [0xD6, 0x62, 0xFF]),
        (Inst::Beqi(2, 10, 7), [0x26, 0x92, 0x07]),
        (Inst::Bnei(2, -1, 7), [0x66, 0x02, 0x07]),
        (Inst::Blti(2, 256, 7), [0xA6, 0xF2, 0x07]),
        (Inst::Bgei(2, 12, 7), [0xE6, 0xA2, 0x07]),
        (Inst::Bltui(2, 32768, 7), [0xB6, 0x02, 0x07]),
        (Inst::Bgeui(2, 65536, 7), [0xF6, 0x12, 0x07]),
        (Inst::Bnone(2, 3, -100), [0x37, 0x02, 0x9C]),
        (Inst::Beq(2, 3, -100), [0x37, 0x12, 0x9C]),
        (Inst::Blt(2, 3, -100), [0x37, 0x22, 0x9C]),
        (Inst::Bltu(2, 3, -100), [0x37, 0x32, 0x9C]),
        (Inst::Ball(2, 3, -100), [0x37, 0x42, 0x9C]),
        (Inst::Bbc(2, 3, -100), [0x37, 0x52, 0x9C]),
        (Inst::Bany(2, 3, -100), [0x37, 0x82, 0x9C]),
        (Inst::Bne(2, 3, -100), [0x37, 0x92, 0x9C]),
        (Inst::Bge(2, 3, -100), [0x37, 0xA2, 0x9C]),
        (Inst::Bgeu(2, 3, -100), [0x37, 0xB2, 0x9C]),
        (Inst::Bnall(2, 3, -100), [0x37, 0xC2, 0x9C]),
        (Inst::Bbs(2, 3, -100), [0x37, 0xD2, 0x9C]),
        (Inst::Bbci(2, 21, -100), [0x57, 0x72, 0x9C]),
        (Inst::Bbsi(2, 21, -100), [0x57, 0xF2, 0x9C]),
    ];
    for (inst, bytes) in rows {
        assert!(rt; is_spelled(inst, bytes));
    }
    Ok(())
}

// Patterns one bit beside an instruction: RET with s 1, SLLI by 32, SSR with t 1, NEG with s 2, SRL with s 1, CALL4,
// NOP with t 14, BLTUI with m 0, MUL16U with op2 14.
#[test]
fn no_instruction(rt: HostRuntime) -> Result<(), Fail> {
    let patterns = [
        [0x80, 0x01, 0x00],
        [0x00, 0x42, 0x01],
        [0x10, 0x02, 0x40],
        [0x30, 0x42, 0x60],
        [0x30, 0x41, 0x91],
        [0x15, 0x19, 0x00],
        [0xE0, 0x20, 0x00],
        [0x36, 0x02, 0x07],
        [0x30, 0x42, 0xE1],
        [0x00, 0x00, 0x00],
    ];
    for bytes in patterns {
        assert!(rt; decode_core(bytes).is_none());
    }
    Ok(())
}

// Operands one step outside their range.
#[test]
fn no_operand(rt: HostRuntime) -> Result<(), Fail> {
    let rows = [
        Inst::Add(16, 2, 3),
        Inst::Ssai(32),
        Inst::Slli(4, 2, 0),
        Inst::Slli(4, 2, 32),
        Inst::Srli(4, 3, 16),
        Inst::Sext(4, 2, 23),
        Inst::Extui(4, 3, 20, 17),
        Inst::L32r(3, 0),
        Inst::L32r(3, -6),
        Inst::L16si(3, 2, 201),
        Inst::L32i(3, 2, 1024),
        Inst::Addmi(3, 2, 255),
        Inst::Call0(2),
        Inst::Beqi(2, 9, 7),
        Inst::Bltui(2, 1, 7),
        Inst::Beq(2, 3, 128),
    ];
    for inst in rows {
        assert!(rt; !fits(&inst));
    }
    Ok(())
}
