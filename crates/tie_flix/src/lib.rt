//! Bundles as bytes: decoding, the image of a text, encoding.
//!
//! The spelling of a bundle stands in `tie_desc`'s `specs/Spelling.antt`, what bytes begin with in its `specs/Fetching.antt`.
#![tactic(auto)]

mod decode;
mod encode;
mod fault;
mod fields;
mod images;
mod laws;
mod listed;
mod memory;
mod registers;
mod slots;
mod spell;
mod words;

pub use decode::decode_bundle;
pub use encode::encode_bundle;
pub use fault::BundleFault;
pub use images::image;
pub use laws::one_bundle;
pub use memory::NoMemory;
