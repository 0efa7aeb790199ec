use net_toml::{NetPlan, NetRefusal, NetRule, PlanCore, PlanQueue, read_net};
use std::process::Abort;
use std::test::Fail;

// A network file and what is said of it.
struct Row {
    text: &'static str,
    fault: &'static str,
}

const ROWS: [Row; 48] = [
    Row {
        text: "x = ",
        fault: "Toml at text",
    },
    Row {
        text: "zz = 1",
        fault: "Key at version",
    },
    Row {
        text: "version = true",
        fault: "Key at version",
    },
    Row {
        text: "version = 3",
        fault: "Version at version",
    },
    Row {
        text: "version = -1",
        fault: "Version at version",
    },
    Row {
        text: "version = 1\nkill = 15",
        fault: "Range at kill",
    },
    Row {
        text: "version = 1\nkill = 65537",
        fault: "Range at kill",
    },
    Row {
        text: "version = 1\nkill = 16",
        fault: "Key at core",
    },
    Row {
        text: "version = 1\ncore = []",
        fault: "Key at core",
    },
    Row {
        text: "version = 1\ncore = [1]",
        fault: "Key at core",
    },
    Row {
        text: "version = 1\ncore = [{}]",
        fault: "Key at core[0].name",
    },
    Row {
        text: "version = 1\ncore = [{name = \"_A\"}]",
        fault: "Name at core[0].name",
    },
    Row {
        text: "version = 1\ncore = [{name = \"A23456789012345678901234567890123\"}]",
        fault: "Name at core[0].name",
    },
    Row {
        text: "version = 1\ncore = [{name = \"A\"}]",
        fault: "Key at core[0].image",
    },
    Row {
        text: "version = 1\ncore = [{name = \"A\", image = \"a\", tie = 1}]",
        fault: "Key at core[0].tie",
    },
    Row {
        text: "version = 1\ncore = [{name = \"A\", image = \"a\", memory = 66}]",
        fault: "Range at core[0].memory",
    },
    Row {
        text: "version = 1\ncore = [{name = \"A\", image = \"a\", memory = 60}]",
        fault: "Range at core[0].memory",
    },
    Row {
        text: "version = 1\ncore = [{name = \"A\", image = \"a\", budget = 0}]",
        fault: "Range at core[0].budget",
    },
    Row {
        text: "version = 1\ncore = [{name = \"A\", image = \"a\", dump = [1]}]",
        fault: "Key at core[0].dump",
    },
    Row {
        text: "version = 1\ncore = [{name = \"A\", image = \"a\", memory = 64, dump = [60, 5]}]",
        fault: "Range at core[0].dump",
    },
    Row {
        text: "version = 1\ncore = [{name = \"A\", image = \"a\", dump = [-1, 5]}]",
        fault: "Range at core[0].dump",
    },
    Row {
        text: "version = 1\ncore = [{name = \"A\", image = \"a\", zb = 1, za = 1}]",
        fault: "Key at core[0].za",
    },
    Row {
        text: "version = 1\ncore = [{name = \"A\", image = \"a\"}, {name = \"A\"}]",
        fault: "Name at core[1].name",
    },
    Row {
        text: "version = 1\nb = 1\na = 1\ncore = [{name = \"A\", image = \"a\"}]",
        fault: "Key at a",
    },
    Row {
        text: "version = 1\ncore = [{name = \"A\", image = \"a\"}]\nsource = [{name = \"S\"}]",
        fault: "Key at source[0].items",
    },
    Row {
        text: "version = 1\ncore = [{name = \"A\", image = \"a\"}]\nsource = [{name = \"A\", items = \"i\"}]",
        fault: "Name at source[0].name",
    },
    Row {
        text: "version = 1\ncore = [{name = \"A\", image = \"a\"}]\ncollector = [{name = \"C\", limit = 262145}]",
        fault: "Range at collector[0].limit",
    },
    Row {
        text: "version = 1\ncore = [{name = \"A\", image = \"a\"}]\ncollector = [{name = \"C\"}, {name = \"A\"}]",
        fault: "Name at collector[1].name",
    },
    Row {
        text: "version = 1\ncore = [{name = \"A\", image = \"a\"}]\nqueue = [{name = \"A\"}]",
        fault: "Key at queue[0].capacity",
    },
    Row {
        text: "version = 1\ncore = [{name = \"A\", image = \"a\"}]\nqueue = [{name = \"Q\", capacity = 4097}]",
        fault: "Range at queue[0].capacity",
    },
    Row {
        text: "version = 1\ncore = [{name = \"A\", image = \"a\"}]\nqueue = [{name = \"Q\", capacity = 1, from = \"A.O\"}]",
        fault: "Key at queue[0].to",
    },
    Row {
        text: "version = 1\ncore = [{name = \"A\", image = \"a\"}]\nqueue = [{name = \"Q\", capacity = 1, from = \"A.O\", to = \"B.I\"}, {name = \"Q\"}]",
        fault: "Name at queue[1].name",
    },
    Row {
        text: "version = 1\nkill = \"16\"",
        fault: "Key at kill",
    },
    Row {
        text: "version = 1\ncore = 1",
        fault: "Key at core",
    },
    Row {
        text: "version = 1\ncore = [{}, {}, {}, {}, {}, {}, {}, {}, {}, {}, {}, {}, {}, {}, {}, {}, {}]",
        fault: "TooMany at core",
    },
    Row {
        text: "version = 1\ncore = [{}, {}, {}, {}, {}, {}, {}, {}, {}, {}, {}, {}, {}, {}, {}, {}]",
        fault: "Key at core[0].name",
    },
    Row {
        text: "version = 1\ncore = [{name = \"A\", image = \"a\"}]\nsource = [{}, {}, {}, {}, {}, {}, {}, {}, {}, {}, {}, {}, {}, {}, {}, {}, {}, {}, {}, {}, {}, {}, {}, {}, {}, {}, {}, {}, {}, {}, {}, {}]",
        fault: "TooMany at source",
    },
    Row {
        text: "version = 1\ncore = [{name = \"A\", image = \"a\"}]\nsource = [{}, {}, {}, {}, {}, {}, {}, {}, {}, {}, {}, {}, {}, {}, {}, {}, {}, {}, {}, {}, {}, {}, {}, {}, {}, {}, {}, {}, {}, {}, {}]",
        fault: "Key at source[0].name",
    },
    Row {
        text: "version = 1\ncore = [{name = \"A\", image = \"a\"}]\nsource = [{name = \"S\", items = \"i\"}]\ncollector = [{}, {}, {}, {}, {}, {}, {}, {}, {}, {}, {}, {}, {}, {}, {}, {}, {}, {}, {}, {}, {}, {}, {}, {}, {}, {}, {}, {}, {}, {}, {}]",
        fault: "TooMany at collector",
    },
    Row {
        text: "version = 1\ncore = [{name = \"A\", image = \"a\"}]\nqueue = [{}, {}, {}, {}, {}, {}, {}, {}, {}, {}, {}, {}, {}, {}, {}, {}, {}, {}, {}, {}, {}, {}, {}, {}, {}, {}, {}, {}, {}, {}, {}, {}, {}, {}, {}, {}, {}, {}, {}, {}, {}, {}, {}, {}, {}, {}, {}, {}, {}, {}, {}, {}, {}, {}, {}, {}, {}, {}, {}, {}, {}, {}, {}, {}, {}]",
        fault: "TooMany at queue",
    },
    Row {
        text: "version = 1\ncore = [{name = \"A\", image = \"a\"}]\nqueue = [{}, {}, {}, {}, {}, {}, {}, {}, {}, {}, {}, {}, {}, {}, {}, {}, {}, {}, {}, {}, {}, {}, {}, {}, {}, {}, {}, {}, {}, {}, {}, {}, {}, {}, {}, {}, {}, {}, {}, {}, {}, {}, {}, {}, {}, {}, {}, {}, {}, {}, {}, {}, {}, {}, {}, {}, {}, {}, {}, {}, {}, {}, {}, {}]",
        fault: "Key at queue[0].name",
    },
    Row {
        text: "version = 1\ncore = [{name = \"A\", image = \"a\", dump = [0, 4097]}]",
        fault: "Range at core[0].dump",
    },
    Row {
        text: "version = 1\ncore = [{name = \"A\", image = \"a\", budget = 1073741825}]",
        fault: "Range at core[0].budget",
    },
    Row {
        text: "version = 1\ncore = [{name = \"A\", image = \"a\", memory = -64}]",
        fault: "Range at core[0].memory",
    },
    Row {
        text: "version = 1\ncore = [{name = \"A\", image = \"a\"}]\nsource = [{name = \"S\", items = \"i\", limit = 1}]",
        fault: "Key at source[0].limit",
    },
    Row {
        text: "version = 1\ncore = [{name = \"A\", image = \"a\"}]\nqueue = [{name = \"Q\", capacity = 0}]",
        fault: "Range at queue[0].capacity",
    },
    Row {
        text: "version = 1\ncore = [{name = \"A\", image = \"a\"}]\nqueue = [{name = \"Q\", capacity = 1, from = \"S\", to = 1}]",
        fault: "Key at queue[0].to",
    },
    Row {
        text: "version = 1\nkill = 0\ncore = [{name = \"A\", image = \"a\", dump = [0, 64]}]",
        fault: "fine",
    },
];

fn said(rt: &HostRuntime, text: &str) -> Result<String, Fail> {
    match read_net(rt.alloc(), text.as_bytes()) {
        Err(NetRefusal::Fault { rule, key }) => {
            let key = key.as_str();
            Ok(format!(in rt.alloc(); "{rule:?} at {key}")?)
        }
        Err(NetRefusal::NoMemory) => Ok(format!(in rt.alloc(); "no memory")?),
        Ok(_) => Ok(format!(in rt.alloc(); "fine")?),
    }
}

#[test]
fn no_utf8(rt: HostRuntime) {
    assert!(rt;
        matches!(
            read_net(rt.alloc(), &[0xff]),
            Err(NetRefusal::Fault {
                rule: NetRule::Toml,
                ..
            })
        )
    );
}

#[test]
fn rows(rt: HostRuntime) -> Result<(), Fail> {
    for row in ROWS.iter() {
        assert_eq!(rt; said(&rt, row.text)?.as_str(), row.fault);
    }
    Ok(())
}

const PLAN: &str = "version = 1\nkill = 16
core = [
  {name = \"A\", image = \"a.hex\", tie = \"a.tie\", memory = 64, budget = 7, dump = [60, 4]},
  {name = \"B\", image = \"b.hex\"},
]
source = [{name = \"S\", items = \"s.hex\"}]
collector = [{name = \"C\"}, {name = \"D\", limit = 262144}]
queue = [{name = \"Q\", capacity = 4096, from = \"S\", to = \"A.IN\"}]";

fn first_core(rt: &impl Abort, core: &PlanCore) {
    assert!(rt; core.name.is(b"A"));
    assert!(rt; core.image.as_str() == "a.hex");
    assert!(rt; matches!(&core.tie, Some(tie) if tie.as_str() == "a.tie"));
    assert!(rt; core.memory == 64 && core.budget == 7);
    assert!(rt; matches!(core.dump, Some((60, 4))));
}

fn second_core(rt: &impl Abort, core: &PlanCore) {
    assert!(rt; core.name.is(b"B"));
    assert!(rt; core.tie.is_none() && core.dump.is_none());
    assert!(rt; core.memory == 65_536 && core.budget == 1_000_000);
}

fn queue(rt: &impl Abort, queue: &PlanQueue) {
    assert!(rt; queue.capacity == 4096);
    assert!(rt; queue.from.as_str() == "S");
    assert!(rt; queue.to.as_str() == "A.IN");
}

fn parts(rt: &impl Abort, plan: &NetPlan) {
    assert!(rt; plan.kill == 16);
    match (plan.cores.as_slice(), plan.queues.as_slice()) {
        ([a, b], [q]) => {
            first_core(rt, a);
            second_core(rt, b);
            queue(rt, q);
        }
        _ => assert!(rt; false, "two processors and a queue"),
    }
    match (plan.sources.as_slice(), plan.collectors.as_slice()) {
        ([s], [c, d]) => {
            assert!(rt; s.items.as_str() == "s.hex");
            assert!(rt; c.limit == 65_536 && d.limit == 262_144);
        }
        _ => assert!(rt; false, "a source and two collectors"),
    }
}

#[test]
fn plan(rt: HostRuntime) -> Result<(), Fail> {
    let plan = read_net(rt.alloc(), PLAN.as_bytes()).ok().ok_or("a plan")?;
    parts(&rt, &plan);
    Ok(())
}
