//! The rules of sources of core instructions.

use crate::refusals::fault;
use asm_lines::{AsmRefusal, AsmRule, lines, tokens};
use asm_rules::{check_lines, check_reach, labels_of, lay_out};
use std::alloc::Global;
use std::test::Fail;
use tie_desc::Desc;
use xt_asm::asm_rules;

// What a source of core instructions breaks first.
fn judged(alloc: Global, text: &[u8]) -> Result<(), AsmRefusal> {
    if text.len() > 1000 {
        return Ok(());
    }
    let desc = Desc::empty(alloc);
    let found = tokens(alloc, text)?;
    let read = lines(alloc, &desc, found.as_slice())?;
    let labels = labels_of(alloc, read.as_slice())?;
    check_lines(alloc, &desc, &labels, read.as_slice())?;
    let addresses = lay_out(alloc, &desc, read.as_slice())?;
    check_reach(&desc, &labels, addresses.as_slice(), read.as_slice())
}

// Rows: a source, and the rule, the line and the column at which it is refused.
#[test]
fn faults_of_lines(rt: HostRuntime) -> Result<(), Fail> {
    let rows = [
        ("NOP\nMOV a2, a3", AsmRule::UnknownMnemonic, 2, 1),
        ("ADDI a2, a2", AsmRule::OperandCount, 1, 1),
        ("x: NOP\nx: NOP", AsmRule::DoubledLabel, 2, 1),
        ("ADD a2, a02, a3", AsmRule::OperandKind, 1, 9),
        ("ADDI a2, a2, 200", AsmRule::OperandRange, 1, 14),
    ];
    for (text, rule, line, column) in rows {
        let refusal = judged(rt.alloc(), text.as_bytes()).err();
        assert_eq!(rt; fault(refusal), Some((rule, line, column)), "{text}");
    }
    Ok(())
}

#[test]
fn faults_of_numbers_and_labels(rt: HostRuntime) -> Result<(), Fail> {
    let rows = [
        ("L32I a2, a3, 6", AsmRule::OperandRange, 1, 14),
        (".align 3", AsmRule::OperandRange, 1, 8),
        ("J x", AsmRule::UnknownLabel, 1, 3),
        ("x: BEQZ a2, 0x900", AsmRule::Reach, 1, 13),
    ];
    for (text, rule, line, column) in rows {
        let refusal = judged(rt.alloc(), text.as_bytes()).err();
        assert_eq!(rt; fault(refusal), Some((rule, line, column)), "{text}");
    }
    let text = b"J x\n.byte 255, 0\n.align 8\nx: BEQZ a2, x";
    assert!(rt; judged(rt.alloc(), text).is_ok());
    Ok(())
}
