/// What a worker of a threaded run calls at the start of each of its rounds. Threads share it.
pub trait Gate: Sync {
    fn enter(&self, round: u64, worker: u32);
}

/// A gate that does nothing.
#[derive(Clone, Copy, Debug)]
pub struct NoGate;

impl Gate for NoGate {
    fn enter(&self, _round: u64, _worker: u32) {}
}
