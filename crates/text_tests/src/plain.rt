//! A dozen networks by hand: what each machine has done, its sum and its clock after some rounds.

use kahn_law::plain::{Machine, Machines, Place, Queue, Step, run_ref, run_strict};
use std::alloc::{AllocError, Global};
use std::process::Abort;
use std::test::Fail;

// What a step does.
#[derive(Clone, Copy)]
enum Does {
    // Pops a queue.
    Pop(usize),
    // Adds to the sum and pushes it.
    Push(u32, usize),
    // Pops a queue, adds, and pushes to another.
    Pass(usize, u32, usize),
    // Adds to the sum.
    Add(u32),
    // Pops a queue and adds.
    Take(usize, u32),
    // Traps before it adds and pushes.
    Trap(u32, usize),
}

fn step_of(does: Does) -> Step {
    let (from, add, to, traps) = match does {
        Does::Pop(queue) => (Some(queue), 0, None, false),
        Does::Push(add, queue) => (None, add, Some(queue), false),
        Does::Pass(from, add, to) => (Some(from), add, Some(to), false),
        Does::Add(add) => (None, add, None, false),
        Does::Take(queue, add) => (Some(queue), add, None, false),
        Does::Trap(add, queue) => (None, add, Some(queue), true),
    };
    Step {
        from,
        add,
        to,
        traps,
    }
}

// The steps of a machine, whether it begins them again, and its budget.
type Line = (&'static [Does], bool, u64);

// The writer and the reader of a queue, its room, and its starting items.
type Link = (usize, usize, usize, &'static [u32]);

// Which reference, after how many rounds, and the moves, the sum and the clock of each machine there.
type End = (Reference, u64, &'static [(u64, u32, u64)]);

#[derive(Clone, Copy)]
enum Reference {
    Unbounded,
    Strict,
}

use Reference::{Strict, Unbounded};

fn steps_of(alloc: Global, steps: &[Does]) -> Result<Vec<Step>, AllocError> {
    let mut made = Vec::new(alloc);
    for does in steps {
        made.push(step_of(*does))?;
    }
    Ok(made)
}

// A network of these machines and queues.
fn network(alloc: Global, machines: &[Line], queues: &[Link]) -> Result<Machines, AllocError> {
    let mut net = Machines {
        machines: Vec::new(alloc),
        queues: Vec::new(alloc),
    };
    for (steps, repeats, budget) in machines {
        net.machines.push(Machine {
            steps: steps_of(alloc, steps)?,
            repeats: *repeats,
            budget: *budget,
        })?;
    }
    for (writer, reader, capacity, starting) in queues {
        net.queues.push(Queue {
            writer: *writer,
            reader: *reader,
            capacity: *capacity,
            starting: starting.to_vec(alloc)?,
        })?;
    }
    Ok(net)
}

struct Row {
    name: &'static str,
    machines: &'static [Line],
    queues: &'static [Link],
    ends: &'static [End],
}

const ROWS: [Row; 13] = [
    Row {
        name: "chain",
        machines: &[
            (&[Does::Push(5, 0)], false, 9),
            (&[Does::Pass(0, 1, 1)], false, 9),
            (&[Does::Pop(1)], false, 9),
        ],
        queues: &[(0, 1, 1, &[]), (1, 2, 1, &[])],
        ends: &[
            (Unbounded, 0, &[(0, 0, 0), (0, 0, 0), (0, 0, 0)]),
            (Unbounded, 1, &[(1, 5, 1), (1, 6, 2), (1, 6, 3)]),
            (Strict, 2, &[(1, 5, 1), (1, 6, 2), (1, 6, 3)]),
        ],
    },
    Row {
        name: "chain against the order",
        machines: &[
            (&[Does::Pop(1)], false, 9),
            (&[Does::Pass(0, 1, 1)], false, 9),
            (&[Does::Push(5, 0)], false, 9),
        ],
        queues: &[(2, 1, 1, &[]), (1, 0, 1, &[])],
        ends: &[
            (Unbounded, 1, &[(0, 0, 0), (0, 0, 0), (1, 5, 1)]),
            (Unbounded, 2, &[(0, 0, 0), (1, 6, 2), (1, 5, 1)]),
            (Strict, 3, &[(1, 6, 3), (1, 6, 2), (1, 5, 1)]),
        ],
    },
    Row {
        name: "ring that deadlocks",
        machines: &[
            (&[Does::Pass(1, 0, 0)], true, 4),
            (&[Does::Pass(0, 0, 1)], true, 4),
        ],
        queues: &[(0, 1, 2, &[]), (1, 0, 2, &[])],
        ends: &[
            (Unbounded, 4, &[(0, 0, 0), (0, 0, 0)]),
            (Strict, 4, &[(0, 0, 0), (0, 0, 0)]),
        ],
    },
    Row {
        name: "ring with a starting item",
        machines: RING,
        queues: RING_QUEUES,
        ends: &[
            (Unbounded, 1, &[(1, 8, 1), (1, 9, 2)]),
            (Unbounded, 9, &[(2, 10, 3), (2, 11, 4)]),
            (Strict, 9, &[(2, 10, 3), (2, 11, 4)]),
        ],
    },
    Row {
        name: "full queue",
        machines: &[(&[Does::Push(1, 0)], true, 5), (&[Does::Pop(0)], false, 9)],
        queues: &[(0, 1, 2, &[])],
        ends: &[
            (Strict, 2, &[(2, 2, 2), (1, 1, 2)]),
            (Strict, 6, &[(3, 3, 3), (1, 1, 2)]),
            (Unbounded, 6, &[(5, 5, 5), (1, 1, 2)]),
        ],
    },
    Row {
        name: "two queues in crossed order",
        machines: &[
            (
                &[Does::Push(1, 0), Does::Push(1, 0), Does::Push(1, 1)],
                false,
                9,
            ),
            (&[Does::Pop(1), Does::Pop(0), Does::Pop(0)], false, 9),
        ],
        queues: &[(0, 1, 1, &[]), (0, 1, 1, &[])],
        ends: &[
            (Strict, 9, &[(1, 1, 1), (0, 0, 0)]),
            (Unbounded, 3, &[(3, 3, 3), (1, 3, 4)]),
            (Unbounded, 9, &[(3, 3, 3), (3, 2, 6)]),
        ],
    },
    Row {
        name: "source that runs dry",
        machines: &[(&[Does::Push(4, 0)], false, 9), (&[Does::Pop(0)], true, 9)],
        queues: &[(0, 1, 3, &[])],
        ends: &[
            (Unbounded, 3, &[(1, 4, 1), (1, 4, 2)]),
            (Strict, 3, &[(1, 4, 1), (1, 4, 2)]),
        ],
    },
    Row {
        name: "collector at its limit",
        machines: &[(&[Does::Push(1, 0)], true, 5), (&[Does::Pop(0)], true, 2)],
        queues: &[(0, 1, 1, &[])],
        ends: &[
            (Unbounded, 6, &[(5, 5, 5), (2, 2, 3)]),
            (Strict, 6, &[(3, 3, 3), (2, 2, 3)]),
        ],
    },
    Row {
        name: "budget spent",
        machines: &[(&[Does::Add(3)], true, 4)],
        queues: &[],
        ends: &[(Unbounded, 2, &[(2, 6, 2)]), (Unbounded, 9, &[(4, 12, 4)])],
    },
    Row {
        name: "trap without a move",
        machines: &[
            (
                &[Does::Add(1), Does::Trap(8, 0), Does::Push(1, 0)],
                false,
                9,
            ),
            (&[Does::Pop(0)], false, 9),
        ],
        queues: &[(0, 1, 3, &[])],
        ends: &[
            (Unbounded, 5, &[(1, 1, 1), (0, 0, 0)]),
            (Strict, 5, &[(1, 1, 1), (0, 0, 0)]),
        ],
    },
    Row {
        name: "machine that feeds itself",
        machines: &[(&[Does::Pass(0, 1, 0)], true, 3)],
        queues: &[(0, 0, 1, &[10])],
        ends: &[(Unbounded, 5, &[(3, 13, 3)]), (Strict, 5, &[(0, 0, 0)])],
    },
    Row {
        name: "join of two sources",
        machines: &[
            (&[Does::Push(1, 0)], false, 9),
            (&[Does::Add(2), Does::Push(2, 1)], false, 9),
            (&[Does::Pop(1), Does::Pop(0)], false, 9),
        ],
        queues: &[(0, 2, 1, &[]), (1, 2, 1, &[])],
        ends: &[
            (Unbounded, 2, &[(1, 1, 1), (2, 4, 2), (1, 4, 3)]),
            (Strict, 3, &[(1, 1, 1), (2, 4, 2), (2, 1, 4)]),
        ],
    },
    Row {
        name: "sum of 32 bits and no such queue",
        machines: &[(&[Does::Take(0, 2), Does::Pop(9)], false, 9)],
        queues: &[(0, 0, 1, &[0xffff_ffff])],
        ends: &[(Unbounded, 4, &[(1, 1, 1)]), (Strict, 4, &[(1, 1, 1)])],
    },
];

const RING: &[Line] = &[
    (&[Does::Pass(1, 1, 0)], true, 2),
    (&[Does::Pass(0, 1, 1)], true, 2),
];

const RING_QUEUES: &[Link] = &[(0, 1, 1, &[]), (1, 0, 1, &[7])];

// The machines after so many rounds.
fn run(rt: &HostRuntime, net: &Machines, end: &End) -> Result<Vec<Place>, Fail> {
    if !net.has_small_budgets() {
        return Err(Fail::from("large budgets"));
    }
    Ok(match end.0 {
        Unbounded => run_ref(rt.alloc(), net, end.1)?,
        Strict => run_strict(rt.alloc(), net, end.1)?,
    })
}

fn compare(rt: &impl Abort, name: &str, places: &[Place], want: &[(u64, u32, u64)]) {
    assert_eq!(rt; places.len(), want.len(), "{name}");
    for (place, want) in places.iter().zip(want) {
        assert_eq!(rt; (place.count, place.sum, place.clock), *want, "{name}");
    }
}

#[test]
fn rows(rt: HostRuntime) -> Result<(), Fail> {
    for row in ROWS.iter() {
        let net = network(rt.alloc(), row.machines, row.queues)?;
        for end in row.ends {
            let places = run(&rt, &net, end)?;
            compare(&rt, row.name, places.as_slice(), end.2);
        }
    }
    Ok(())
}

// What the first machine of the ring with a starting item has pushed and consumed at the end.
#[test]
fn items_of_the_ring(rt: HostRuntime) -> Result<(), Fail> {
    let net = network(rt.alloc(), RING, RING_QUEUES)?;
    let places = run(&rt, &net, &(Strict, 9, &[]))?;
    let first = places.first().ok_or("no machine")?;
    let items = [(8, 1), (10, 3)];
    assert_eq!(rt; first.pushed(0), items.len());
    assert_eq!(rt; first.consumed(1), 2);
    assert_eq!(rt; first.consumed(0), 0);
    for (index, want) in items.iter().enumerate() {
        let item = first.item(0, index).ok_or("no item")?;
        assert_eq!(rt; (item.value, item.stamp), *want);
    }
    assert!(rt; first.item(0, 2).is_none());
    Ok(())
}

// The budgets of machines without steps, and whether they are small.
const BUDGETS: [(&[Line], bool); 3] = [
    (&[(&[], false, 0x7fff_ffff_ffff_ffff)], true),
    (
        &[(&[], false, 0x7fff_ffff_ffff_ffff), (&[], false, 1)],
        false,
    ),
    (&[(&[], false, 1), (&[], false, u64::MAX)], false),
];

#[test]
fn budgets(rt: HostRuntime) -> Result<(), Fail> {
    for (machines, small) in BUDGETS.iter() {
        let net = network(rt.alloc(), machines, &[])?;
        assert_eq!(rt; net.has_small_budgets(), *small);
    }
    Ok(())
}
