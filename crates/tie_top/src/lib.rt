//! The top call: words and files in, a report or a refusal and a status out.
//!
//! `docs/STATUSES.md` describes it for a user. `specs/Files.antt` has the files of each command, `specs/Meaning.antt` what each
//! command means, `specs/Answers.antt` the cause of each status.
#![tactic(auto)]

mod commands;
mod delivery;
mod gate;
mod images;
mod judgement;
mod lines;
mod networks;
mod report;
mod status;
mod top;

pub use gate::{Gate, NoGate};
pub use load_law::net_load::load_net;
pub use load_law::tie_files::Refusal;
pub use status::Status;
pub use top::tie_top;
