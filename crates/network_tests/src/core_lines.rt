use core_text::{push_core, push_memory};
use std::test::Fail;
use tie_desc::Desc;
use tie_lines::core_text;
use xt_state::Arch;

#[test]
fn first_state(rt: HostRuntime) -> Result<(), Fail> {
    let alloc = rt.alloc();
    let desc = Desc::empty(alloc);
    let mut arch = Arch::new(alloc, &[], &[], 64, &[])?;
    arch.set_ar(3, 0xABC);
    let mut text = String::new(alloc);
    push_core(&mut text, "main", &desc, "spent budget 20", 20, &arch)?;
    let wanted = "core main retired 20 spent budget 20 pc 00000000\n  sar 0\n  a3 00000ABC\n";
    assert!(rt; text.as_str() == wanted);
    Ok(())
}

#[test]
fn two_lines(rt: HostRuntime) -> Result<(), Fail> {
    let mut text = String::new(rt.alloc());
    push_memory(&mut text, 254, &[1; 17])?;
    let wanted =
        "  mem 000000FE 01 01 01 01 01 01 01 01 01 01 01 01 01 01 01 01\n  mem 0000010E 01\n";
    assert!(rt; text.as_str() == wanted);
    Ok(())
}
