use hex_text::{HexRefusal, HexRule, read_hex};
use std::alloc::Global;
use std::test::Fail;

// A text, and the bytes that it stands for, or the rule that it breaks and the place.
struct Row {
    text: &'static str,
    bytes: &'static [u8],
    fault: Option<(HexRule, u32)>,
}

const ROWS: [Row; 6] = [
    Row {
        text: "22 A0 05 00 51 00",
        bytes: &[0x22, 0xA0, 5, 0, 0x51, 0],
        fault: None,
    },
    Row {
        text: "2 2a0\t05\r\n",
        bytes: &[0x22, 0xA0, 5],
        fault: None,
    },
    Row {
        text: "",
        bytes: &[],
        fault: None,
    },
    Row {
        text: "2",
        bytes: &[],
        fault: Some((HexRule::OddHex, 1)),
    },
    Row {
        text: "22 G0 0",
        bytes: &[],
        fault: Some((HexRule::BadHex, 3)),
    },
    Row {
        text: "00 00 00 00 00 00 00",
        bytes: &[],
        fault: Some((HexRule::LongHex, 20)),
    },
];

fn holds(alloc: Global, row: &Row) -> bool {
    let text = row.text.as_bytes();
    if text.len() > 1000 {
        return false;
    }
    match read_hex(alloc, text, 6) {
        Ok(bytes) => row.fault.is_none() && bytes.as_slice() == row.bytes,
        Err(HexRefusal::Fault { rule, place }) => row.fault == Some((rule, place)),
        Err(HexRefusal::NoMemory) => false,
    }
}

#[test]
fn rows(rt: HostRuntime) -> Result<(), Fail> {
    for (number, row) in ROWS.iter().enumerate() {
        assert!(rt; holds(rt.alloc(), row), "row {number}");
    }
    Ok(())
}
