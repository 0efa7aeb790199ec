//! Networks of one processor without queues.

ghost use Rattle.std.specs.Prelude.{◌≡◌, ◌^◌, ◌≤◌, [], ◌∷◌, IfOk, length};
ghost use Rattle.tie_report.specs.net_parts.Network.{IsCore, IsNet};

use net_parts::{Net, NetCore, RunEnd};
use net_ref::{ref_run, strict_run};
use std::alloc::Global;
use std::test::Fail;
use tie_desc::{Desc, Kit, Name};
use tie_flix::image;
use tie_report::{net_parts, net_ref, xt_exec};
use xt_exec::{Ending, Trap};

// A processor of 64 bytes of memory, with no declarations.
fn core(alloc: Global, text: &[u8], budget: u32) -> Result<NetCore, Fail>
    requires text { length text.now ≤ 64 }
    requires some { 1 ≤ budget }
    requires most { budget ≤ 2 ^ 30 }
    ensures core { IfOk result IsCore }
    ensures ins { IfOk result (λ c. c.kit.desc.ins ≡ []) }
    ensures outs { IfOk result (λ c. c.kit.desc.outs ≡ []) }
{
    let Some(name) = Name::new(b"A") else {
        return Err(Fail::from("a name"));
    };
    let desc = Desc::empty(alloc);
    let image = image(alloc, &desc, text)?;
    Ok(NetCore {
        name,
        kit: Kit { desc, image },
        text: text.to_vec(alloc)?,
        memory: 64,
        budget,
        dump: None,
    })
}

// The network of that processor alone.
fn alone(alloc: Global, text: &[u8], budget: u32) -> Result<Net, Fail>
    requires text { length text.now ≤ 64 }
    requires some { 1 ≤ budget }
    requires most { budget ≤ 2 ^ 30 }
    ensures { IfOk result IsNet }
{
    let core = core(alloc, text, budget)?;
    Ok(Net {
        kill: 0,
        cores: Vec::from_array(alloc, [core])?,
        sources: Vec::new(alloc),
        collectors: Vec::new(alloc),
        queues: Vec::new(alloc),
    })
}

// What is reported of the processor: its retirements, pc and ending.
fn reported(end: &RunEnd) -> Option<(u64, u32, Ending)> {
    let core = end.cores.first()?;
    Some((core.retired, core.arch.pc(), core.arch.ending()))
}

// Rows: a text, a budget, the retirements, the pc, and the ending.
#[test]
fn one_processor(rt: HostRuntime) -> Result<(), Fail> {
    let halts = [0x22, 0xA0, 0x05, 0x00, 0x51, 0x00]; // MOVI a2, 5; SIMCALL
    let turns = [0x06, 0xFF, 0xFF]; // J to itself
    let meets = [0x22, 0xA0, 0x05, 0x22, 0x60, 0x00]; // MOVI a2, 5; S32I a2, a0, 0
    let trapped = Ending::Trapped(Trap::StoreText);
    let rows = [
        (halts.as_slice(), 1_000, 2, 6, Ending::Halted),
        (halts.as_slice(), 1, 1, 3, Ending::Running),
        (turns.as_slice(), 7, 7, 0, Ending::Running),
        (meets.as_slice(), 1_000, 1, 3, trapped),
        (meets.as_slice(), 2, 1, 3, trapped),
        (meets.as_slice(), 1, 1, 3, Ending::Running),
    ];
    for (text, budget, retired, pc, ending) in rows {
        assert!(rt; text.len() <= 64 && budget >= 1 && budget <= 1_000);
        let net = alone(rt.alloc(), text, budget)?;
        let wanted = Some((retired, pc, ending));
        assert!(rt; reported(&ref_run(rt.alloc(), &net)?) == wanted);
        assert!(rt; reported(&strict_run(rt.alloc(), &net)?) == wanted);
    }
    Ok(())
}
