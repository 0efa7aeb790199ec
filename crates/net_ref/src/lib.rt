//! The two references of a network, on one thread: in rounds, with queues that have no bound, and with queues that have
//! capacities.
//!
//! `specs/Workers.antt` makes a network an instance of the law of networks; where the references stop, and what is
//! reported of them, stands in `specs/Reference.antt`.
#![tactic(auto)]

mod channel;
mod ends;
mod laws;
mod moves;
mod ports;
mod reference;
mod rounds;
mod running;
mod turns;

pub use laws::network_is_wired;
pub use moves::has_bit;
pub use net_parts;
pub use net_parts::{CoreEnd, Net, QueueEnd, RunEnd};
pub use ports::{collector_queue, input_queue, output_queue};
pub use reference::{ref_run, strict_run};
pub use xt_exec;
pub use xt_exec::NoMemory;
