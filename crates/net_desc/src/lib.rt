//! Networks: from a plan to a wired network, and the items of its sources.
//!
//! `docs/NETWORKS.md` describes network files for a user; `specs/Wiring.antt` states the wiring.
#![tactic(auto)]

mod ends;
mod items;
mod network;
mod numbers;
mod ports;
mod queues;
mod single;
mod wired;
mod workers;

pub use hex_text::{HexRefusal, HexRule, read_hex};
pub use items::set_items;
pub use net_toml;
pub use net_toml::net_parts::{
    CoreEnd, FromEnd, Net, NetCollector, NetCore, NetQueue, NetSource, Outcome, QueueEnd, RunEnd,
    ToEnd,
};
pub use net_toml::{
    NetPlan, NetRefusal, NetRule, PlanCore, PlanQueue, PlanSource, Text, net_parts, read_net,
};
pub use network::wire;
pub use single::alone;
