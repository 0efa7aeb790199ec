//! Answers of a step.

use xt_core::Trap;

/// What a processor did with the bundle at its pc.
#[derive(Clone, Copy, Debug, PartialEq, Eq)]
pub enum Step {
    /// It retired the bundle and goes on, with a value for each output queue that was pushed.
    Stepped { pushed: [Option<u128>; 8] },
    /// It retired a SIMCALL.
    Halted,
    /// It trapped, which is no retirement.
    Trapped(Trap),
    /// It waits for an item of this input queue, the first one without a head.
    NeedsItem(u8),
}
