//! What stands in the operands' places.

ghost use Rattle.std.specs.Prelude.{◌≡◌, ◌<◌};
ghost use Rattle.xt_mnemonics.specs.Shapes as shapes;

use crate::mnemonic::Mnemonic;

/// What a number is a multiple of.
#[derive(Clone, Copy, Debug, PartialEq, Eq)]
pub enum Scale {
    One,
    Two,
    Four,
    /// 256.
    Page,
}

/// How the address of a target becomes the number that the instruction holds: its distance from a place near the pc.
#[derive(Clone, Copy, Debug, PartialEq, Eq)]
pub enum Way {
    /// From pc + 4, -128 to 127.
    Near,
    /// From pc + 4, -2048 to 2047.
    Far,
    /// From pc + 4, -131072 to 131071.
    Jump,
    /// From pc with its low two bits cleared, plus 4: a multiple of 4 from -524288 to 524284.
    Call,
    /// From pc + 3 with its low two bits cleared: a multiple of 4 from -262144 to -4.
    Load,
}

/// What stands in an operand's place.
#[derive(Clone, Copy, Debug, PartialEq, Eq)]
pub enum Shape {
    /// A register of the core.
    Register,
    /// A number from low to high, a multiple of the scale.
    Between { low: u32, high: u32, scale: Scale },
    /// A number from -half to half - 1, a multiple of the scale.
    Signed { half: u32, scale: Scale },
    /// A constant of the branches that compare with one.
    Constant,
    /// A constant of the branches that compare with one without sign.
    UnsignedConstant,
    /// The address of an instruction or a word.
    Target(Way),
}

static ONE: [Shape; 1] = [Shape::Register];

static TWO: [Shape; 2] = [Shape::Register, Shape::Register];

static THREE: [Shape; 3] = [Shape::Register, Shape::Register, Shape::Register];

static AMOUNT: [Shape; 1] = [Shape::Between {
    low: 0,
    high: 31,
    scale: Scale::One,
}];

static LEFT_SHIFT: [Shape; 3] = [
    Shape::Register,
    Shape::Register,
    Shape::Between {
        low: 1,
        high: 31,
        scale: Scale::One,
    },
];

static RIGHT_SHIFT: [Shape; 3] = [
    Shape::Register,
    Shape::Register,
    Shape::Between {
        low: 0,
        high: 31,
        scale: Scale::One,
    },
];

static SHORT_SHIFT: [Shape; 3] = [
    Shape::Register,
    Shape::Register,
    Shape::Between {
        low: 0,
        high: 15,
        scale: Scale::One,
    },
];

static EXTENSION: [Shape; 3] = [
    Shape::Register,
    Shape::Register,
    Shape::Between {
        low: 7,
        high: 22,
        scale: Scale::One,
    },
];

static EXTRACT: [Shape; 4] = [
    Shape::Register,
    Shape::Register,
    Shape::Between {
        low: 0,
        high: 31,
        scale: Scale::One,
    },
    Shape::Between {
        low: 1,
        high: 16,
        scale: Scale::One,
    },
];

static LOAD_BACK: [Shape; 2] = [Shape::Register, Shape::Target(Way::Load)];

static BYTE_OFFSET: [Shape; 3] = [
    Shape::Register,
    Shape::Register,
    Shape::Between {
        low: 0,
        high: 255,
        scale: Scale::One,
    },
];

static HALF_OFFSET: [Shape; 3] = [
    Shape::Register,
    Shape::Register,
    Shape::Between {
        low: 0,
        high: 510,
        scale: Scale::Two,
    },
];

static WORD_OFFSET: [Shape; 3] = [
    Shape::Register,
    Shape::Register,
    Shape::Between {
        low: 0,
        high: 1020,
        scale: Scale::Four,
    },
];

static MOVE_VALUE: [Shape; 2] = [
    Shape::Register,
    Shape::Signed {
        half: 2048,
        scale: Scale::One,
    },
];

static ADD_VALUE: [Shape; 3] = [
    Shape::Register,
    Shape::Register,
    Shape::Signed {
        half: 128,
        scale: Scale::One,
    },
];

static ADD_PAGES: [Shape; 3] = [
    Shape::Register,
    Shape::Register,
    Shape::Signed {
        half: 32768,
        scale: Scale::Page,
    },
];

static CALL: [Shape; 1] = [Shape::Target(Way::Call)];

static JUMP: [Shape; 1] = [Shape::Target(Way::Jump)];

static FAR_BRANCH: [Shape; 2] = [Shape::Register, Shape::Target(Way::Far)];

static CONSTANT_BRANCH: [Shape; 3] = [Shape::Register, Shape::Constant, Shape::Target(Way::Near)];

static UNSIGNED_BRANCH: [Shape; 3] = [
    Shape::Register,
    Shape::UnsignedConstant,
    Shape::Target(Way::Near),
];

static NEAR_BRANCH: [Shape; 3] = [Shape::Register, Shape::Register, Shape::Target(Way::Near)];

static BIT_BRANCH: [Shape; 3] = [
    Shape::Register,
    Shape::Between {
        low: 0,
        high: 31,
        scale: Scale::One,
    },
    Shape::Target(Way::Near),
];

/// The shapes of the operands, in the order in which they are written.
pub fn shapes(mnemonic: Mnemonic) -> &'static [Shape]
    ensures { result.now ≡ shapes.shapes mnemonic }
{
    match mnemonic {
        Mnemonic::Ret | Mnemonic::Nop | Mnemonic::Simcall => &[],
        Mnemonic::Ssr | Mnemonic::Ssl | Mnemonic::Jx | Mnemonic::Callx0 => &ONE,
        Mnemonic::Neg | Mnemonic::Abs | Mnemonic::Srl | Mnemonic::Sll | Mnemonic::Sra => &TWO,
        Mnemonic::And
        | Mnemonic::Or
        | Mnemonic::Xor
        | Mnemonic::Add
        | Mnemonic::Addx2
        | Mnemonic::Addx4
        | Mnemonic::Addx8
        | Mnemonic::Sub
        | Mnemonic::Subx2
        | Mnemonic::Subx4
        | Mnemonic::Subx8
        | Mnemonic::Src
        | Mnemonic::Mul16u
        | Mnemonic::Mul16s
        | Mnemonic::Mull
        | Mnemonic::Min
        | Mnemonic::Max
        | Mnemonic::Minu
        | Mnemonic::Maxu
        | Mnemonic::Moveqz
        | Mnemonic::Movnez
        | Mnemonic::Movltz
        | Mnemonic::Movgez => &THREE,
        Mnemonic::Ssai => &AMOUNT,
        Mnemonic::Slli => &LEFT_SHIFT,
        Mnemonic::Srai => &RIGHT_SHIFT,
        Mnemonic::Srli => &SHORT_SHIFT,
        Mnemonic::Sext => &EXTENSION,
        Mnemonic::Extui => &EXTRACT,
        Mnemonic::L32r => &LOAD_BACK,
        Mnemonic::L8ui | Mnemonic::S8i => &BYTE_OFFSET,
        Mnemonic::L16ui | Mnemonic::L16si | Mnemonic::S16i => &HALF_OFFSET,
        Mnemonic::L32i | Mnemonic::S32i => &WORD_OFFSET,
        Mnemonic::Movi => &MOVE_VALUE,
        Mnemonic::Addi => &ADD_VALUE,
        Mnemonic::Addmi => &ADD_PAGES,
        Mnemonic::Call0 => &CALL,
        Mnemonic::J => &JUMP,
        Mnemonic::Beqz | Mnemonic::Bnez | Mnemonic::Bltz | Mnemonic::Bgez => &FAR_BRANCH,
        Mnemonic::Beqi | Mnemonic::Bnei | Mnemonic::Blti | Mnemonic::Bgei => &CONSTANT_BRANCH,
        Mnemonic::Bltui | Mnemonic::Bgeui => &UNSIGNED_BRANCH,
        Mnemonic::Bnone
        | Mnemonic::Beq
        | Mnemonic::Blt
        | Mnemonic::Bltu
        | Mnemonic::Ball
        | Mnemonic::Bbc
        | Mnemonic::Bany
        | Mnemonic::Bne
        | Mnemonic::Bge
        | Mnemonic::Bgeu
        | Mnemonic::Bnall
        | Mnemonic::Bbs => &NEAR_BRANCH,
        Mnemonic::Bbci | Mnemonic::Bbsi => &BIT_BRANCH,
    }
}

/// The number that a scale stands for.
pub fn step(scale: Scale) -> u32
    ensures value { result ≡ shapes.step scale }
    ensures some { 0 < result }
{
    match scale {
        Scale::One => 1,
        Scale::Two => 2,
        Scale::Four => 4,
        Scale::Page => 256,
    }
}
