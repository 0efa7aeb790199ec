//! The parts of a network.

use tie_desc::{Kit, Name};

/// Where a queue is written: at the output queue of a processor, or by a source; each by number from 0.
#[derive(Clone, Copy, Debug, PartialEq, Eq)]
pub enum FromEnd {
    Core { core: u8, out: u8 },
    Source(u8),
}

/// Where a queue is read: at the input queue of a processor, or by a collector; each by number from 0.
#[derive(Clone, Copy, Debug, PartialEq, Eq)]
pub enum ToEnd {
    Core { core: u8, input: u8 },
    Collector(u8),
}

/// A processor: its extension and program, the bytes of the program, the bytes of its memory, the most bundles that it
/// retires, and the part of its memory that is reported, if any: the first address and the number of bytes.
#[derive(Drop)]
pub struct NetCore {
    pub name: Name,
    pub kit: Kit,
    pub text: Vec<u8>,
    pub memory: u32,
    pub budget: u32,
    pub dump: Option<(u32, u32)>,
}

/// A source, which pushes its items in order.
#[derive(Drop)]
pub struct NetSource {
    pub name: Name,
    pub items: Vec<u128>,
}

/// A collector, which consumes items until it has as many as its limit.
#[derive(Drop)]
pub struct NetCollector {
    pub name: Name,
    pub limit: u32,
}

/// A queue, with the number of items that it has room for.
#[derive(Drop)]
pub struct NetQueue {
    pub name: Name,
    pub capacity: u32,
    pub from: FromEnd,
    pub to: ToEnd,
}

/// A network. Its workers are its processors, then its sources, then its collectors, numbered from 0. `kill` is the
/// number of cycles between two kills of a pipeline, 0 for none.
#[derive(Drop)]
pub struct Net {
    pub kill: u32,
    pub cores: Vec<NetCore>,
    pub sources: Vec<NetSource>,
    pub collectors: Vec<NetCollector>,
    pub queues: Vec<NetQueue>,
}
