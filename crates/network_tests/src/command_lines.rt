use std::test::Fail;
use tie_desc::Desc;
use tie_lines::{check_text, image_text};

#[test]
fn nothing_declared(rt: HostRuntime) -> Result<(), Fail> {
    let alloc = rt.alloc();
    let text = check_text(alloc, &Desc::empty(alloc))?;
    assert!(rt; text.as_str() == "accepted\n");
    Ok(())
}

#[test]
fn images(rt: HostRuntime) -> Result<(), Fail> {
    let alloc = rt.alloc();
    let text = image_text(
        alloc,
        &[
            0x22, 0xA0, 5, 0, 0x51, 0, 7, 8, 9, 10, 11, 12, 13, 14, 15, 255, 1,
        ],
    )?;
    assert!(rt; text.as_str() == "22 A0 05 00 51 00 07 08 09 0A 0B 0C 0D 0E 0F FF\n01\n");
    let empty = image_text(alloc, &[])?;
    assert!(rt; empty.as_str() == "");
    Ok(())
}
