//! The lines of an assembly source: its tokens, or the first byte at which none begins; its lines as data, or the first
//! token after which no line goes on.
//!
//! `docs/ASSEMBLER.md` describes the language for a user. `specs/Tokens.antt` says what the tokens of a source are,
//! `specs/Lines.antt` is the grammar of lines.
#![tactic(auto)]

mod classes;
mod digits;
mod line;
mod naming;
mod parse;
mod piece;
mod read;
mod refusal;
mod scan;
mod token;
mod word;

pub use digits::value;
pub use line::{Label, Line, Operand, Operation, Operator, Statement};
pub use parse::lines;
pub use refusal::{AsmRefusal, AsmRule};
pub use scan::tokens;
pub use token::{Mark, Token, TokenKind};
pub use word::Word;
