//! The law that assembling a listing gives the bytes that were listed.
#![tactic(auto)]

mod laws;

pub use laws::{assembled_listing, assembled_listing_of, has_words};
