//! What a program reads from and writes to: a shelf of named files, and a sink for text.
//!
//! Both are traits, so that everything above is proved over any shelf and any sink, and runs over memory in tests
//! and over the system in the program.
#![tactic(auto)]

mod memory;
mod real;
mod shelf;
mod sink;

pub use memory::{MemShelf, MemSink, NoMemory};
pub use real::{FileShelf, StdSink};
pub use shelf::{ReadFault, Shelf};
pub use sink::{PutFault, Sink};
