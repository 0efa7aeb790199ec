use crate::Status;
use tie_desc::Sequence;

/// What a command writes, and its status where all of it is written.
#[derive(Drop)]
pub struct Report {
    pub status: Status,
    pub text: Sequence<u8>,
}
