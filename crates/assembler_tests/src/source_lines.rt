//! Tokens and lines of sources.

use crate::refusals::fault;
use asm_lines::{AsmRefusal, AsmRule, lines, tokens, value};
use std::alloc::Global;
use std::test::Fail;
use tie_desc::Desc;

// How many lines a source has without extension.
fn count(alloc: Global, text: &[u8]) -> Result<usize, AsmRefusal> {
    if text.len() > 1000 {
        return Ok(0);
    }
    let desc = Desc::empty(alloc);
    let found = tokens(alloc, text)?;
    let read = lines(alloc, &desc, found.as_slice())?;
    Ok(read.len())
}

// Rows: a source, and the rule, the line and the column at which it is refused.
#[test]
fn bad_tokens(rt: HostRuntime) -> Result<(), Fail> {
    let rows = [
        ("NOP # -\n- 5", AsmRule::BadToken, 2, 1),
        ("a\rb", AsmRule::BadToken, 1, 2),
        ("\t.bytes 1", AsmRule::BadToken, 1, 2),
        ("J 0x", AsmRule::BadToken, 1, 3),
    ];
    for (text, rule, line, column) in rows {
        let refusal = count(rt.alloc(), text.as_bytes()).err();
        assert_eq!(rt; fault(refusal), Some((rule, line, column)), "{text}");
    }
    assert_eq!(rt; value(10, b"99999999999999999999"), 1099511627776);
    Ok(())
}

#[test]
fn bad_lines(rt: HostRuntime) -> Result<(), Fail> {
    let rows = [
        ("ADD a2,  # a3\r\n", AsmRule::Syntax, 1, 8),
        ("a: b: NOP", AsmRule::Syntax, 1, 5),
        (".align 4, 8", AsmRule::Syntax, 1, 9),
        ("F { }", AsmRule::Syntax, 1, 5),
        (".byte", AsmRule::Syntax, 1, 6),
    ];
    for (text, rule, line, column) in rows {
        let refusal = count(rt.alloc(), text.as_bytes()).err();
        assert_eq!(rt; fault(refusal), Some((rule, line, column)), "{text}");
    }
    Ok(())
}

#[test]
fn lines_as_data(rt: HostRuntime) -> Result<(), Fail> {
    let text = b"x:\n\ny: ADD a2, a3, a4\n.align 4\nF { A ; B 1 }";
    assert!(rt; matches!(count(rt.alloc(), text), Ok(4)));
    Ok(())
}
