use xt_core::Trap;

/// How a processor stands at the end of a run. A queue is given by its number in the network.
#[derive(Clone, Copy)]
pub enum Standing {
    Halted,
    Trapped(Trap),
    /// It has used up its budget.
    Spent,
    /// It waits for an item of this queue.
    Empty(usize),
    /// It waits for room in this queue.
    Full(usize),
    Running,
}
