//! The mnemonics of the core, and those that a slot may list.

ghost use Rattle.std.specs.Prelude.{◌≡◌, map, ◌<◌, length};
ghost use Rattle.std.specs.List.{list_any};
ghost use Rattle.std.specs.Char.{to_ascii_uppercase};
ghost use Rattle.std.specs.Str.{bytes_eq};
ghost use Rattle.tie_desc.specs.Mnemonics as core;
ghost use Rattle.tie_rules.specs.Declarations as rule;

use crate::each::{Test, some};

/// In upper case.
static CORE: [&[u8]; 78] = [
    b"AND", b"OR", b"XOR", b"ADD", b"SUB", b"ADDX2", b"ADDX4", b"ADDX8", b"SUBX2", b"SUBX4",
    b"SUBX8", b"NEG", b"ABS", b"SSR", b"SSL", b"SSAI", b"RET", b"JX", b"CALLX0", b"NOP",
    b"SIMCALL", b"SLLI", b"SRAI", b"SRLI", b"SRC", b"SRL", b"SLL", b"SRA", b"MUL16U", b"MUL16S",
    b"MULL", b"SEXT", b"MIN", b"MAX", b"MINU", b"MAXU", b"MOVEQZ", b"MOVNEZ", b"MOVLTZ", b"MOVGEZ",
    b"EXTUI", b"L32R", b"L8UI", b"L16UI", b"L16SI", b"L32I", b"S8I", b"S16I", b"S32I", b"MOVI",
    b"ADDI", b"ADDMI", b"CALL0", b"J", b"BEQZ", b"BNEZ", b"BLTZ", b"BGEZ", b"BEQI", b"BNEI",
    b"BLTI", b"BGEI", b"BLTUI", b"BGEUI", b"BNONE", b"BEQ", b"BLT", b"BLTU", b"BALL", b"BBC",
    b"BANY", b"BNE", b"BGE", b"BGEU", b"BNALL", b"BBS", b"BBCI", b"BBSI",
];

static SLOT: [&[u8]; 17] = [
    b"ADD", b"ADDX2", b"ADDX4", b"ADDX8", b"SUB", b"SUBX2", b"SUBX4", b"SUBX8", b"AND", b"OR",
    b"XOR", b"MIN", b"MAX", b"MINU", b"MAXU", b"MULL", b"NOP",
];

/// A word in upper case is a name in any case.
#[tactic(auto, using(crate::proofs::Upper::lengths_differ, crate::proofs::Upper::upper_next))]
fn same_upper(name: &[u8], word: &[u8]) -> bool
    ensures { result ≡ bytes_eq (map to_ascii_uppercase name.now) word.now }
{
    if name.len() != word.len() {
        return false;
    }
    for i in 0..name.len() {
        if name[i].to_ascii_uppercase() != word[i] {
            return false;
        }
    }
    true
}

#[derive(Clone, Copy)]
struct SameUpper<'a> {
    name: &'a [u8],
}

impl Test<&'static [u8]> for SameUpper<'_> {
    ghost use Rattle.std.specs.Prelude.{map};
    ghost use Rattle.std.specs.Char.{to_ascii_uppercase};
    ghost use Rattle.std.specs.Str.{bytes_eq};

    ghost holds = { λ s word. bytes_eq (map to_ascii_uppercase s.name.now) word.now };

    fn holds_of(&self, word: &&'static [u8]) -> bool {
        same_upper(self.name, *word)
    }
}

/// A core mnemonic in any case.
pub fn is_core_mnemonic(name: &[u8]) -> bool
    ensures { result ≡ core.is_core_mnemonic name.now }
{
    some(&SameUpper { name }, &CORE)
}

#[derive(Clone, Copy)]
struct SameWord<'a> {
    name: &'a [u8],
}

impl Test<&'static [u8]> for SameWord<'_> {
    ghost use Rattle.std.specs.Str.{bytes_eq};

    ghost holds = { λ s word. bytes_eq s.name.now word.now };

    fn holds_of(&self, word: &&'static [u8]) -> bool {
        self.name == *word
    }
}

/// A core name that a slot may list.
pub fn is_slot_core(name: &[u8]) -> bool
    ensures { result ≡ rule.is_slot_core name.now }
{
    some(&SameWord { name }, &SLOT)
}
