//! What is reported of a run.

use arrayvec::ArrayVec;
use xt_state::Arch;

/// A processor at the end: how many bundles it retired, its clock, its state, and how many items each of its input
/// ports holds that it hasn't consumed.
#[derive(Drop)]
pub struct CoreEnd {
    pub retired: u64,
    pub clock: u64,
    pub arch: Arch,
    pub held: ArrayVec<u8, 8>,
}

/// A queue at the end: how many items were pushed to it and consumed of it, and how many its reader holds.
#[derive(Clone, Copy, Debug, PartialEq, Eq)]
pub struct QueueEnd {
    pub pushed: u64,
    pub consumed: u64,
    pub held: u64,
}

/// The end of a run: of each processor, of each queue, and of each collector the values that it collected, all in the
/// order of the network.
#[derive(Drop)]
pub struct RunEnd {
    pub cores: Vec<CoreEnd>,
    pub queues: Vec<QueueEnd>,
    pub collected: Vec<Vec<u128>>,
}
