//! Networks from the files of a shelf.
//!
//! `docs/NETWORKS.md` describes network files for a user; `specs/Loaded.antt` says which network the files describe,
//! `specs/Steps.antt` in which order they are judged.
#![tactic(auto)]

mod cores;
mod load;
mod plans;
mod sources;
mod texts;

pub use load::load_net;
pub use net_desc;
pub use net_desc::net_toml;
pub use tie_files;
pub use tie_files::tie_front;
