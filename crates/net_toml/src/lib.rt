//! Network files: what a text in TOML says of a network.
//!
//! `docs/NETWORKS.md` describes the files for a user, `specs/Walk.antt` states the walk over one.
#![tactic(auto)]

mod cores;
mod keys;
mod names;
mod plan;
mod queues;
mod refusal;
mod sources;
mod text;
mod values;
mod walk;

pub use net_parts;
pub use plan::{NetPlan, PlanCore, PlanQueue, PlanSource};
pub use refusal::{NetRefusal, NetRule};
pub use text::Text;
pub use walk::read_net;
