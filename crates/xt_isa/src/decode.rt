ghost use Rattle.std.specs.Prelude.{◌≡◌, ◌<◌, IfSome, Some};
ghost use Rattle.xt_isa.specs.Reading.{read_fields};
ghost use Rattle.xt_isa.specs.Table.{Fits, Spells};

use crate::Inst;
use crate::families::branches::read_b;
use crate::families::choices::read_qrst;
use crate::families::jumps::{read_calls, read_si};
use crate::families::memory::{read_l32r, read_lsai};

// The six fields of a word, four bits each.
#[derive(Clone, Copy)]
struct Fields {
    op0: u8,
    t: u8,
    s: u8,
    r: u8,
    op1: u8,
    op2: u8,
    ghost op0_small: { op0 < 16 },
    ghost t_small: { t < 16 },
    ghost s_small: { s < 16 },
    ghost r_small: { r < 16 },
    ghost op1_small: { op1 < 16 },
    ghost op2_small: { op2 < 16 },
}

// The instruction of a word's fields: op0 chooses the family.
fn read_fields(fields: &Fields) -> Option<Inst>
    ensures { result ≡ read_fields fields.now.op0 fields.now.t fields.now.s fields.now.r fields.now.op1 fields.now.op2 }
{
    let Fields {
        op0,
        t,
        s,
        r,
        op1,
        op2,
    } = *fields;
    let imm8 = op1 + 16 * op2;
    let imm12 = u32::from(r) + 16 * u32::from(op1) + 256 * u32::from(op2);
    let imm16 = u32::from(s) + 16 * u32::from(r) + 256 * u32::from(op1) + 4096 * u32::from(op2);
    let offset = u32::from(t / 4)
        + 4 * u32::from(s)
        + 64 * u32::from(r)
        + 1024 * u32::from(op1)
        + 16384 * u32::from(op2);
    match op0 {
        0 => read_qrst(op1, op2, r, s, t),
        1 => read_l32r(t, imm16),
        2 => read_lsai(r, s, t, imm8),
        5 => read_calls(t, offset),
        6 => read_si(t, r, s, imm8, imm12, offset),
        7 => read_b(r, s, t, imm8),
        _ => None,
    }
}

/// The instruction with these bytes, the lowest first; None exactly where no fitting instruction has them.
pub fn decode_core(bytes: [u8; 3]) -> Option<Inst>
    // What is found fits, and its bytes are these.
    ensures found { IfSome result (λ inst. Fits inst × Spells inst bytes) }

    // Each fitting instruction with these bytes is the answer: there is one at most, and it is never missed.
    ensures only { (inst : _) → Fits inst → Spells inst bytes → result ≡ Some inst }
{
    read_fields(&Fields {
        op0: bytes[0] % 16,
        t: bytes[0] / 16,
        s: bytes[1] % 16,
        r: bytes[1] / 16,
        op1: bytes[2] % 16,
        op2: bytes[2] / 16,
    })
}
