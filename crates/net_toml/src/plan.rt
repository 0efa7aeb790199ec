//! Plans: networks as their files describe them, with files and ends by name.

use crate::text::Text;
use net_parts::NetCollector;
use tie_desc::{Name, Sequence};

/// A processor. Sizes are in bytes.
#[derive(Drop)]
pub struct PlanCore {
    pub name: Name,
    /// The file of the image.
    pub image: Text,
    /// The file of the extension; None for an empty one.
    pub tie: Option<Text>,
    pub memory: u32,
    /// In bundles.
    pub budget: u32,
    /// The part of memory that a report shows: start and length.
    pub dump: Option<(u32, u32)>,
}

/// A source.
#[derive(Drop)]
pub struct PlanSource {
    pub name: Name,
    /// The file of its items.
    pub items: Text,
}

/// A queue, with its ends as the file writes them.
#[derive(Drop)]
pub struct PlanQueue {
    pub name: Name,
    /// In items.
    pub capacity: u32,
    pub from: Text,
    pub to: Text,
}

/// A network, each kind in the order of the file.
#[derive(Drop)]
pub struct NetPlan {
    /// Each so many cycles a processor is killed; 0 for never.
    pub kill: u32,
    pub cores: Sequence<PlanCore>,
    pub sources: Sequence<PlanSource>,
    pub collectors: Sequence<NetCollector>,
    pub queues: Sequence<PlanQueue>,
}
