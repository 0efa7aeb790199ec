/// How a run of a network ended.
#[derive(Clone, Copy, Debug, PartialEq, Eq)]
pub enum Outcome {
    /// Each processor has halted.
    Halted,
    /// A processor has trapped.
    Trapped,
    /// No processor has trapped, and one has used up its budget.
    Unfinished,
    /// No processor has trapped or used up its budget, and one waits at a queue.
    Blocked,
}
