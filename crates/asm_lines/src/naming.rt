//! What words name.

ghost use Rattle.std.specs.Prelude.{◌≡◌};
ghost use Rattle.asm_lines.specs.Naming as naming;

use crate::line::Operator;
use crate::word::Word;
use tie_desc::{Desc, format_named, op_named};
use xt_mnemonics::mnemonic_named;

/// The core mnemonic that a word is in any case, or the operation of that name.
#[tactic(auto, unfolding(crate::specs::Naming::named))]
pub fn named(desc: &Desc, word: &Word) -> Option<Operator>
    ensures { result ≡ naming.named desc.now word.now }
{
    match mnemonic_named(word.as_bytes()) {
        Some(mnemonic) => Some(Operator::Core(mnemonic)),
        None => match op_named(desc, word.as_bytes()) {
            Some(op) => Some(Operator::Op(op)),
            None => None,
        },
    }
}

/// The format of a name.
pub fn format_of(desc: &Desc, word: &Word) -> Option<u8>
    ensures { result ≡ naming.format_named desc.now word.now }
{
    format_named(desc, word.as_bytes())
}
