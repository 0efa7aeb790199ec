//! What one part of a bundle writes.

use std::test::Fail;
use tie_desc::{Bundle, Desc, Spot};
use xt_exec::xt_operate;
use xt_isa::Inst;
use xt_operate::{Reads, Values, operate};

// ADD a4, a2, a3 where a2 is 5 and a3 is FFFFFFFF.
#[test]
fn a_core_instruction(rt: HostRuntime) -> Result<(), Fail> {
    let desc = Desc::empty(rt.alloc());
    let mut at = Values::new();
    at.push(Spot::Ar(2), 5);
    at.push(Spot::Ar(3), 0xFFFF_FFFF);
    let writes = operate(
        &desc,
        &Bundle::Core(Inst::Add(4, 2, 3)),
        0,
        9,
        &Reads { at },
    );
    assert_eq!(rt; writes.at.value(Spot::Ar(4)), 4);
    assert_eq!(rt; (writes.at.as_slice().len(), writes.target), (1, None));
    Ok(())
}
