//! The words of the mnemonics.

ghost use Rattle.std.specs.Prelude.{◌≡◌, map, length};
ghost use Rattle.std.specs.Char.{to_ascii_uppercase};
ghost use Rattle.std.specs.Str.{bytes_eq};
ghost use Rattle.xt_mnemonics.specs.Names as names;

use crate::mnemonic::Mnemonic;

/// The word of a mnemonic, in upper case.
pub fn name_of(mnemonic: Mnemonic) -> &'static [u8]
    ensures { result.now ≡ names.name_of mnemonic }
{
    match mnemonic {
        Mnemonic::And => b"AND",
        Mnemonic::Or => b"OR",
        Mnemonic::Xor => b"XOR",
        Mnemonic::Add => b"ADD",
        Mnemonic::Addx2 => b"ADDX2",
        Mnemonic::Addx4 => b"ADDX4",
        Mnemonic::Addx8 => b"ADDX8",
        Mnemonic::Sub => b"SUB",
        Mnemonic::Subx2 => b"SUBX2",
        Mnemonic::Subx4 => b"SUBX4",
        Mnemonic::Subx8 => b"SUBX8",
        Mnemonic::Neg => b"NEG",
        Mnemonic::Abs => b"ABS",
        Mnemonic::Ssr => b"SSR",
        Mnemonic::Ssl => b"SSL",
        Mnemonic::Ssai => b"SSAI",
        Mnemonic::Ret => b"RET",
        Mnemonic::Jx => b"JX",
        Mnemonic::Callx0 => b"CALLX0",
        Mnemonic::Nop => b"NOP",
        Mnemonic::Simcall => b"SIMCALL",
        Mnemonic::Slli => b"SLLI",
        Mnemonic::Srai => b"SRAI",
        Mnemonic::Srli => b"SRLI",
        Mnemonic::Src => b"SRC",
        Mnemonic::Srl => b"SRL",
        Mnemonic::Sll => b"SLL",
        Mnemonic::Sra => b"SRA",
        Mnemonic::Mul16u => b"MUL16U",
        Mnemonic::Mul16s => b"MUL16S",
        Mnemonic::Mull => b"MULL",
        Mnemonic::Sext => b"SEXT",
        Mnemonic::Min => b"MIN",
        Mnemonic::Max => b"MAX",
        Mnemonic::Minu => b"MINU",
        Mnemonic::Maxu => b"MAXU",
        Mnemonic::Moveqz => b"MOVEQZ",
        Mnemonic::Movnez => b"MOVNEZ",
        Mnemonic::Movltz => b"MOVLTZ",
        Mnemonic::Movgez => b"MOVGEZ",
        Mnemonic::Extui => b"EXTUI",
        Mnemonic::L32r => b"L32R",
        Mnemonic::L8ui => b"L8UI",
        Mnemonic::L16ui => b"L16UI",
        Mnemonic::L32i => b"L32I",
        Mnemonic::L16si => b"L16SI",
        Mnemonic::S8i => b"S8I",
        Mnemonic::S16i => b"S16I",
        Mnemonic::S32i => b"S32I",
        Mnemonic::Movi => b"MOVI",
        Mnemonic::Addi => b"ADDI",
        Mnemonic::Addmi => b"ADDMI",
        Mnemonic::Call0 => b"CALL0",
        Mnemonic::J => b"J",
        Mnemonic::Beqz => b"BEQZ",
        Mnemonic::Bnez => b"BNEZ",
        Mnemonic::Bltz => b"BLTZ",
        Mnemonic::Bgez => b"BGEZ",
        Mnemonic::Beqi => b"BEQI",
        Mnemonic::Bnei => b"BNEI",
        Mnemonic::Blti => b"BLTI",
        Mnemonic::Bgei => b"BGEI",
        Mnemonic::Bltui => b"BLTUI",
        Mnemonic::Bgeui => b"BGEUI",
        Mnemonic::Bnone => b"BNONE",
        Mnemonic::Beq => b"BEQ",
        Mnemonic::Blt => b"BLT",
        Mnemonic::Bltu => b"BLTU",
        Mnemonic::Ball => b"BALL",
        Mnemonic::Bbc => b"BBC",
        Mnemonic::Bany => b"BANY",
        Mnemonic::Bne => b"BNE",
        Mnemonic::Bge => b"BGE",
        Mnemonic::Bgeu => b"BGEU",
        Mnemonic::Bnall => b"BNALL",
        Mnemonic::Bbs => b"BBS",
        Mnemonic::Bbci => b"BBCI",
        Mnemonic::Bbsi => b"BBSI",
    }
}

/// Every mnemonic.
static ALL: [Mnemonic; 78] = [
    Mnemonic::And,
    Mnemonic::Or,
    Mnemonic::Xor,
    Mnemonic::Add,
    Mnemonic::Addx2,
    Mnemonic::Addx4,
    Mnemonic::Addx8,
    Mnemonic::Sub,
    Mnemonic::Subx2,
    Mnemonic::Subx4,
    Mnemonic::Subx8,
    Mnemonic::Neg,
    Mnemonic::Abs,
    Mnemonic::Ssr,
    Mnemonic::Ssl,
    Mnemonic::Ssai,
    Mnemonic::Ret,
    Mnemonic::Jx,
    Mnemonic::Callx0,
    Mnemonic::Nop,
    Mnemonic::Simcall,
    Mnemonic::Slli,
    Mnemonic::Srai,
    Mnemonic::Srli,
    Mnemonic::Src,
    Mnemonic::Srl,
    Mnemonic::Sll,
    Mnemonic::Sra,
    Mnemonic::Mul16u,
    Mnemonic::Mul16s,
    Mnemonic::Mull,
    Mnemonic::Sext,
    Mnemonic::Min,
    Mnemonic::Max,
    Mnemonic::Minu,
    Mnemonic::Maxu,
    Mnemonic::Moveqz,
    Mnemonic::Movnez,
    Mnemonic::Movltz,
    Mnemonic::Movgez,
    Mnemonic::Extui,
    Mnemonic::L32r,
    Mnemonic::L8ui,
    Mnemonic::L16ui,
    Mnemonic::L32i,
    Mnemonic::L16si,
    Mnemonic::S8i,
    Mnemonic::S16i,
    Mnemonic::S32i,
    Mnemonic::Movi,
    Mnemonic::Addi,
    Mnemonic::Addmi,
    Mnemonic::Call0,
    Mnemonic::J,
    Mnemonic::Beqz,
    Mnemonic::Bnez,
    Mnemonic::Bltz,
    Mnemonic::Bgez,
    Mnemonic::Beqi,
    Mnemonic::Bnei,
    Mnemonic::Blti,
    Mnemonic::Bgei,
    Mnemonic::Bltui,
    Mnemonic::Bgeui,
    Mnemonic::Bnone,
    Mnemonic::Beq,
    Mnemonic::Blt,
    Mnemonic::Bltu,
    Mnemonic::Ball,
    Mnemonic::Bbc,
    Mnemonic::Bany,
    Mnemonic::Bne,
    Mnemonic::Bge,
    Mnemonic::Bgeu,
    Mnemonic::Bnall,
    Mnemonic::Bbs,
    Mnemonic::Bbci,
    Mnemonic::Bbsi,
];

/// Whether a word in upper case is a name.
#[tactic(auto, using(crate::proofs::Upper::lengths_differ, crate::proofs::Upper::upper_next))]
fn same_upper(word: &[u8], name: &[u8]) -> bool
    ensures { result ≡ bytes_eq (map to_ascii_uppercase word.now) name.now }
{
    if word.len() != name.len() {
        return false;
    }
    for i in 0..word.len() {
        if word[i].to_ascii_uppercase() != name[i] {
            return false;
        }
    }
    true
}

fn named_in(word: &[u8], mnemonics: &[Mnemonic]) -> Option<Mnemonic>
    ensures { result ≡ names.named_in word.now mnemonics.now }
{
    for mnemonic in mnemonics {
        if same_upper(word, name_of(*mnemonic)) {
            return Some(*mnemonic);
        }
    }
    None
}

/// The mnemonic that a word is, in any case.
#[tactic(auto, unfolding(crate::specs::Names::mnemonic_named))]
pub fn mnemonic_named(word: &[u8]) -> Option<Mnemonic>
    ensures { result ≡ names.mnemonic_named word.now }
{
    named_in(word, &ALL)
}
