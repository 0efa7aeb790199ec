//! Bytes listed and assembled again.

use std::alloc::Global;
use std::test::Fail;
use tie_desc::Desc;
use xt_asm::assemble;
use xt_dis::disassemble;

// Whether the listing of these bytes assembles to them.
fn comes_back(alloc: Global, desc: &Desc, bytes: &[u8]) -> bool {
    if bytes.len() > 65536 {
        return false;
    }
    let Ok(text) = disassemble(alloc, desc, bytes) else {
        return false;
    };
    if text.len() > 0x8000_0000 {
        return false;
    }
    match assemble(alloc, desc, text.as_slice()) {
        Ok(image) => image.as_slice() == bytes,
        Err(_) => false,
    }
}

#[test]
fn core_instructions(rt: HostRuntime) -> Result<(), Fail> {
    let desc = Desc::empty(rt.alloc());
    for bytes in [
        [].as_slice(),
        &[0x22, 0xA0, 0x05, 0xFF],
        &[0x30, 0x24, 0x74, 0x26, 0x03, 0x00],
        &[0xB6, 0x03, 0x00, 0x17, 0x74, 0xFC],
        &[0x06, 0xFE, 0xFF, 0xF0, 0x20, 0x00, 0x45, 0x00, 0x00],
        &[0xFF, 0x21, 0xFF, 0xFF, 0x00, 0x51, 0x00],
    ] {
        assert!(rt; comes_back(rt.alloc(), &desc, bytes));
    }
    Ok(())
}
