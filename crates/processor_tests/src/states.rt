//! The state of a processor.

use std::test::Fail;
use tie_expr::Bits;
use xt_state::{Arch, Ending};

// A state of 8 bits, a file of two registers of 4 bits, a memory of 8 bytes with a text of two.
#[test]
fn a_state(rt: HostRuntime) -> Result<(), Fail> {
    let states = [Bits::new(8, 0xA5)];
    let mut arch = Arch::new(rt.alloc(), &states, &[(4, 2)], 8, &[7, 9])?;
    assert_eq!(rt; (arch.pc(), arch.sar(), arch.text_end()), (0, 0, 2));
    assert_eq!(rt; (arch.memory_len(), arch.ending()), (8, Ending::Running));
    arch.set_pc(4);
    arch.set_ar(15, 0xFFFF_FFFF);
    arch.set_sar(32);
    arch.set_ending(Ending::Halted);
    assert_eq!(rt; (arch.pc(), arch.ar(15), arch.ar(14)), (4, 0xFFFF_FFFF, 0));
    assert_eq!(rt; (arch.sar(), arch.ending()), (32, Ending::Halted));
    Ok(())
}
