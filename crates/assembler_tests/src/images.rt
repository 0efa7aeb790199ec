//! Sources whose images and faults were found by hand.

use crate::refusals::fault;
use std::alloc::{AllocError, Global};
use std::test::Fail;
use tie_desc::Desc;
use tie_front::read_tie;
use xt_asm::{AsmRefusal, AsmRule, assemble};

// MOVX and MOVY copy a register; F has MOVX in its first slot and MOVY in its second, G has MOVY in its only one.
const COPIES: &[u8] =
    b"operation MOVX {out AR d, in AR s} {} {assign d = s;} operation MOVY {out AR d, in AR s} {} {assign d = s;} format F 32 {f0, f1} slot_opcodes f0 {MOVX} slot_opcodes f1 {MOVY} format G 64 {g0} slot_opcodes g0 {MOVY}";

fn copies(alloc: Global) -> Result<Desc, Fail> {
    if COPIES.len() > 1000 {
        return Err(Fail::from("too long"));
    }
    Ok(read_tie(alloc, COPIES)?)
}

// The image of a source; none of a source of more than a million bytes.
fn assembled(alloc: Global, desc: &Desc, text: &[u8]) -> Result<Option<Vec<u8>>, AsmRefusal> {
    if text.len() > 1000000 {
        return Ok(None);
    }
    Ok(Some(assemble(alloc, desc, text)?))
}

// Whether a source has this image.
fn is_image(alloc: Global, desc: &Desc, text: &[u8], image: &[u8]) -> bool {
    match assembled(alloc, desc, text) {
        Ok(Some(bytes)) => bytes.as_slice() == image,
        _ => false,
    }
}

// Rows: a source, and its image.
#[test]
fn images(rt: HostRuntime) -> Result<(), Fail> {
    let d = copies(rt.alloc())?;
    let rows = [
        (
            "MOVI a2, 5\nMOVI a3, -1\nF { MOVX a2, a3 ; MOVY a3, a2 }\nSIMCALL",
            [
                0x22, 0xA0, 5, 0x32, 0xAF, 0xFF, 0x0E, 0x32, 0x23, 0, 0, 0x51, 0,
            ]
            .as_slice(),
        ),
        ("# nothing\r\n\t\n", &[]),
        ("l32i a2, a3, 8 # a comment\n", &[0x22, 0x23, 2]),
        (
            ".byte 1\nx: .align 4\n.word -2, 0x80000001",
            &[1, 0, 0, 0, 0xFE, 0xFF, 0xFF, 0xFF, 1, 0, 0, 0x80],
        ),
        (
            "J x\n.byte 7\nx: J x\nMOVY a4, a5",
            &[6, 0, 0, 7, 6, 0xFF, 0xFF, 0x00, 0x45, 0x16],
        ),
    ];
    for (text, image) in rows {
        assert!(rt; is_image(rt.alloc(), &d, text.as_bytes(), image));
    }
    Ok(())
}

// Rows: a source, and the rule, the line and the column at which it is refused.
#[test]
fn faults(rt: HostRuntime) -> Result<(), Fail> {
    let d = copies(rt.alloc())?;
    let rows = [
        ("NOP\nJ 0x", AsmRule::BadToken, 2, 3),
        ("ADD a2,", AsmRule::Syntax, 1, 8),
        ("MOV a2, a3", AsmRule::UnknownMnemonic, 1, 1),
        ("ADDI a2, a2", AsmRule::OperandCount, 1, 1),
        ("x: NOP\nx: NOP", AsmRule::DoubledLabel, 2, 1),
        ("ADD a2, a02, a3", AsmRule::OperandKind, 1, 9),
        ("ADDI a2, a2, 200", AsmRule::OperandRange, 1, 14),
        ("J x", AsmRule::UnknownLabel, 1, 3),
        ("F { MOVX a2, a3 }", AsmRule::SlotCount, 1, 1),
        ("F { MOVY a2, a3 ; MOVX a3, a2 }", AsmRule::SlotOpcode, 1, 5),
        ("F { MOVX a2, a3 ; MOVY a2, a3 }", AsmRule::SameDest, 1, 24),
        (
            ".align 4\n.word 0\nx: BEQZ a2, 0x900",
            AsmRule::Reach,
            3,
            13,
        ),
    ];
    for (text, rule, line, column) in rows {
        let refusal = assembled(rt.alloc(), &d, text.as_bytes()).err();
        assert_eq!(rt; fault(refusal), Some((rule, line, column)), "{text}");
    }
    Ok(())
}

// `.byte` with one value and so many more.
fn zeros(alloc: Global, more: u32) -> Result<Vec<u8>, AllocError> {
    let mut text = Vec::new(alloc);
    for byte in b".byte 0" {
        text.push(*byte)?;
    }
    for value in 0..more {
        text.push(b',')?;
        text.push(b'0')?;
    }
    Ok(text)
}

// How many bytes the image of a source has.
fn image_len(alloc: Global, desc: &Desc, text: &[u8]) -> Option<usize> {
    match assembled(alloc, desc, text) {
        Ok(Some(bytes)) => Some(bytes.len()),
        _ => None,
    }
}

#[test]
fn most_bytes(rt: HostRuntime) -> Result<(), Fail> {
    let d = Desc::empty(rt.alloc());
    let most = zeros(rt.alloc(), 65535)?;
    assert_eq!(rt; image_len(rt.alloc(), &d, most.as_slice()), Some(65536));
    let more = zeros(rt.alloc(), 65536)?;
    let refusal = assembled(rt.alloc(), &d, more.as_slice()).err();
    assert_eq!(rt; fault(refusal), Some((AsmRule::TooLong, 1, 1)));
    Ok(())
}
