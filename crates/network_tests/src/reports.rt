ghost use Rattle.std.specs.Prelude.{◌≤◌, IfOk, length};
ghost use Rattle.tie_report.specs.xt_exec.Made.{IsFor};
ghost use Rattle.tie_report.specs.net_ref.Reference.{IsWhole};

use arrayvec::ArrayVec;
use net_parts::{CoreEnd, FromEnd, Net, NetCollector, NetCore, NetQueue, QueueEnd, RunEnd, ToEnd};
use std::alloc::Global;
use std::test::Fail;
use tie_desc::{Desc, Kit, Name};
use tie_flix::image;
use tie_report::{net_parts, report, xt_exec};
use xt_exec::{Arch, run, start};

// MOVI a2, 5; SIMCALL
const TEXT: [u8; 6] = [0x22, 0xA0, 0x05, 0x00, 0x51, 0x00];

fn name(text: &[u8]) -> Result<Name, Fail> {
    match Name::new(text) {
        Some(name) => Ok(name),
        None => Err(Fail::new("no name")),
    }
}

// A processor that has run to its stop.
#[derive(Drop)]
struct Machine {
    kit: Kit,
    arch: Arch,
    retired: u64,
}

fn ran(alloc: Global, text: &[u8]) -> Result<Machine, Fail>
    requires { length text.now ≤ 64 }
    ensures { IfOk result (λ m. IsFor m.kit m.arch) }
{
    let desc = Desc::empty(alloc);
    let mut arch = start(alloc, &desc, 64, text)?;
    let image = image(alloc, &desc, text)?;
    let kit = Kit { desc, image };
    let retired = run(&kit, &mut arch, 1_000);
    Ok(Machine { kit, arch, retired })
}

// A network of one processor, a source and a collector, and the end of a run.
#[derive(Drop)]
struct Case {
    net: Net,
    end: RunEnd,
}

fn beside_queue(alloc: Global, core: NetCore, end: CoreEnd) -> Result<Case, Fail>
    requires { IsFor core.kit end.arch }
    ensures { IfOk result (λ x. IsWhole x.net x.end) }
{
    let queue = NetQueue {
        name: name(b"S")?,
        capacity: 4,
        from: FromEnd::Source(0),
        to: ToEnd::Core { core: 0, input: 0 },
    };
    let collector = NetCollector {
        name: name(b"OUT")?,
        limit: 8,
    };
    let counts = QueueEnd {
        pushed: 7,
        consumed: 3,
        held: 1,
    };
    Ok(Case {
        net: Net {
            kill: 0,
            cores: vec![in alloc; core]?,
            sources: Vec::new(alloc),
            collectors: vec![in alloc; collector]?,
            queues: vec![in alloc; queue]?,
        },
        end: RunEnd {
            cores: vec![in alloc; end]?,
            queues: vec![in alloc; counts]?,
            collected: vec![in alloc; Vec::new(alloc)]?,
        },
    })
}

const ENDED: &str =
    "core main retired 2 halted pc 00000006\n  sar 0\n  a2 00000005\n  mem 00000000 22 A0 05 00 51 00\nqueue S consumed 3\ncollector OUT items 0\nend halted\n";

const STEPPED: &str =
    "core main retired 2 halted pc 00000006\n  sar 0\n  a2 00000005\n  mem 00000000 22 A0 05 00 51 00\nqueue S pushed 7 consumed 3 held 1\ncollector OUT items 0\nend stepped\n";

#[test]
fn one_processor(rt: HostRuntime) -> Result<(), Fail> {
    let alloc = rt.alloc();
    let Machine { kit, arch, retired } = ran(alloc, &TEXT)?;
    let core = NetCore {
        name: name(b"main")?,
        kit,
        text: Vec::from_slice(alloc, &TEXT)?,
        memory: 64,
        budget: 1_000,
        dump: Some((0, 6)),
    };
    let end = CoreEnd {
        retired,
        clock: 0,
        arch,
        held: ArrayVec::new(),
    };
    let Case { net, end } = beside_queue(alloc, core, end)?;
    let text = report(alloc, &net, &end, false)?;
    assert!(rt; text.as_slice() == ENDED.as_bytes());
    let text = report(alloc, &net, &end, true)?;
    assert!(rt; text.as_slice() == STEPPED.as_bytes());
    Ok(())
}
