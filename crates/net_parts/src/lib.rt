//! A network as data: its processors, sources, collectors and queues, and what is reported of a run.
//!
//! What every network keeps stands in `specs/Network.antt`.
#![tactic(auto)]

mod ends;
mod outcome;
mod parts;

pub use ends::{CoreEnd, QueueEnd, RunEnd};
pub use outcome::Outcome;
pub use parts::{FromEnd, Net, NetCollector, NetCore, NetQueue, NetSource, ToEnd};
