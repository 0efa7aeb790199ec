//! Networks of processors with an input queue of 12 bits, IN, and an output queue of 16, OUT.

ghost use Rattle.std.specs.Prelude.{◌≡◌, ◌≤◌, [], All, IfOk, length};
ghost use Rattle.tie_report.specs.net_parts.Network.{IsNet};

use net_desc::{alone, set_items, wire};
use net_load::{net_desc, net_toml, tie_front};
use net_parts::{FromEnd, Net, ToEnd};
use net_toml::{NetRefusal, read_net};
use std::alloc::{AllocError, Global};
use std::test::Fail;
use tie_desc::{Desc, Image, Kit, Sequence};
use tie_front::read_tie;
use tie_report::net_parts;

const PORTS: &str = "queue IN 12 in queue OUT 16 out";

// The description of the text, which is accepted: what is lacking where there is none is memory.
fn desc(alloc: Global) -> Result<Desc, AllocError> {
    let text = PORTS.as_bytes();
    if text.len() > 1_000 {
        return Err(AllocError);
    }
    read_tie(alloc, text).map_err(|_| AllocError)
}

// A kit without a program, and its empty text.
fn kit(alloc: Global) -> Result<(Kit, Vec<u8>), AllocError>
    ensures text { IfOk result (λ k. k.1.items ≡ []) }
    ensures image { IfOk result (λ k. k.0.image.at ≡ []) }
{
    let desc = desc(alloc)?;
    let image = Image {
        at: Sequence::new(alloc),
    };
    Ok((Kit { desc, image }, Vec::new(alloc)))
}

fn kits(alloc: Global, count: usize) -> Result<Vec<(Kit, Vec<u8>)>, AllocError>
    ensures count { IfOk result (λ v. length v.items ≡ count) }
    ensures empty { IfOk result (λ v. All (λ k. (k.1.items ≡ []) × (k.0.image.at ≡ [])) v.items) }
{
    let mut made = Vec::new(alloc);
    for _ in 0..count {
        made.push(kit(alloc)?)?;
    }
    Ok(made)
}

fn network(alloc: Global, text: &str) -> Result<Net, NetRefusal>
    ensures { IfOk result IsNet }
{
    let plan = read_net(alloc, text.as_bytes())?;
    let kits = kits(alloc, plan.cores.len())?;
    wire(alloc, &plan, kits)
}

fn said(rt: &HostRuntime, text: &str) -> Result<String, Fail> {
    match network(rt.alloc(), text) {
        Err(NetRefusal::Fault { rule, key }) => {
            let key = key.as_str();
            Ok(format!(in rt.alloc(); "{rule:?} at {key}")?)
        }
        Err(NetRefusal::NoMemory) => Ok(format!(in rt.alloc(); "no memory")?),
        Ok(_) => Ok(format!(in rt.alloc(); "fine")?),
    }
}

// The tables of a network's workers, the ends of its queues, and what is said of it.
struct Row {
    workers: &'static [&'static str],
    queues: &'static [(&'static str, &'static str)],
    wanted: &'static str,
}

const A: &str = "[[core]]\nname = \"A\"\nimage = \"a\"\n";

const B: &str = "[[core]]\nname = \"B\"\nimage = \"b\"\n";

const S: &str = "[[source]]\nname = \"S\"\nitems = \"s\"\n";

const T: &str = "[[source]]\nname = \"T\"\nitems = \"t\"\n";

const K: &str = "[[collector]]\nname = \"K\"\n";

const L: &str = "[[collector]]\nname = \"L\"\n";

const ROWS: [Row; 13] = [
    Row {
        workers: &[A, S, K],
        queues: &[("S", "A.IN"), ("A.OUT", "K")],
        wanted: "fine",
    },
    Row {
        workers: &[A, S, K],
        queues: &[("X", "A.IN")],
        wanted: "End at queue[0].from",
    },
    Row {
        workers: &[A, S, K],
        queues: &[("A.IN", "K")],
        wanted: "End at queue[0].from",
    },
    Row {
        workers: &[A, S, K],
        queues: &[("S", "A.OUT")],
        wanted: "End at queue[0].to",
    },
    Row {
        workers: &[A, S, K],
        queues: &[("S", "K")],
        wanted: "End at queue[0].to",
    },
    Row {
        workers: &[A, S, K],
        queues: &[("A.OUT", "A.IN")],
        wanted: "End at queue[0].to",
    },
    Row {
        workers: &[A, S, K],
        queues: &[("S", "A.IN"), ("S", "X")],
        wanted: "Twice at queue[1].from",
    },
    Row {
        workers: &[A, S, T, K],
        queues: &[("S", "A.IN"), ("T", "A.IN")],
        wanted: "Twice at queue[1].to",
    },
    Row {
        workers: &[A, B],
        queues: &[("A.OUT", "B.IN")],
        wanted: "Width at queue[0]",
    },
    Row {
        workers: &[A, S, K],
        queues: &[],
        wanted: "Unwired at core[0].IN",
    },
    Row {
        workers: &[A, S, K],
        queues: &[("S", "A.IN")],
        wanted: "Unwired at core[0].OUT",
    },
    Row {
        workers: &[A, S, T, K, L],
        queues: &[("S", "A.IN"), ("A.OUT", "K")],
        wanted: "Unwired at source[1]",
    },
    Row {
        workers: &[A, S, K, L],
        queues: &[("S", "A.IN"), ("A.OUT", "K")],
        wanted: "Unwired at collector[1]",
    },
];

fn text(alloc: Global, workers: &[&str], queues: &[(&str, &str)]) -> Result<String, AllocError> {
    let mut text = format!(in alloc; "version = 1\n")?;
    for worker in workers {
        text.push_str(worker)?;
    }
    for (i, (from, to)) in queues.iter().enumerate() {
        text.push_str(format!(in alloc;
            "[[queue]]\nname = \"Q{i}\"\ncapacity = 1\nfrom = \"{from}\"\nto = \"{to}\"\n"
        )?.as_str())?;
    }
    Ok(text)
}

#[test]
fn wirings(rt: HostRuntime) -> Result<(), Fail> {
    for row in ROWS.iter() {
        let text = text(rt.alloc(), row.workers, row.queues)?;
        assert_eq!(rt; said(&rt, text.as_str())?.as_str(), row.wanted);
    }
    Ok(())
}

#[test]
fn items(rt: HostRuntime) -> Result<(), Fail> {
    let text = text(rt.alloc(), &[A, S, K], &[("S", "A.IN"), ("A.OUT", "K")])?;
    let Ok(mut net) = network(rt.alloc(), text.as_str()) else {
        return Err(Fail::from("a network"));
    };
    assert!(rt; net.sources.len() == 1);
    assert!(rt; set_items(&mut net, 0, &[0x0F, 0xFF, 0, 1]).is_ok());
    assert!(rt; net.sources.len() == 1);
    assert!(rt; set_items(&mut net, 0, &[0x10, 0]).is_err());
    assert!(rt; net.sources.len() == 1);
    assert!(rt; net.sources[0].items.as_slice() == [0xFFF, 1].as_slice());
    Ok(())
}

#[test]
fn one_processor(rt: HostRuntime) -> Result<(), Fail> {
    let (kit, text) = kit(rt.alloc())?;
    let net = alone(rt.alloc(), kit, text)?;
    assert!(rt; net.cores.len() == 1 && net.sources.len() == 1 && net.collectors.len() == 1);
    assert!(rt; net.queues.len() == 2);
    assert_eq!(rt; net.queues[0].from, FromEnd::Source(0));
    assert_eq!(rt; net.queues[1].to, ToEnd::Collector(0));
    assert_eq!(rt; net.queues[1].name.as_bytes(), b"OUT".as_slice());
    Ok(())
}
