ghost use Rattle.std.specs.Prelude.{◌≡◌, ◌<◌};
ghost use Rattle.xt_isa.specs.Formats.{bri12, bri8, call_format, number, ri16, rri8, rrr};

// The bytes of format RRR.
pub fn rrr(op0: u8, t: u8, s: u8, r: u8, op1: u8, op2: u8) -> [u8; 3]
    requires op0 { op0 < 16 }
    requires t { t < 16 }
    requires s { s < 16 }
    requires r { r < 16 }
    requires op1 { op1 < 16 }
    requires op2 { op2 < 16 }
    ensures { number result ≡ rrr op0 t s r op1 op2 }
{
    [op0 + 16 * t, s + 16 * r, op1 + 16 * op2]
}

// The bytes of format RRI8.
pub fn rri8(op0: u8, t: u8, s: u8, r: u8, imm8: u8) -> [u8; 3]
    requires op0 { op0 < 16 }
    requires t { t < 16 }
    requires s { s < 16 }
    requires r { r < 16 }
    ensures { number result ≡ rri8 op0 t s r imm8 }
{
    [op0 + 16 * t, s + 16 * r, imm8]
}

// The bytes of format RI16.
pub fn ri16(op0: u8, t: u8, imm16: u16) -> [u8; 3]
    requires op0 { op0 < 16 }
    requires t { t < 16 }
    ensures { number result ≡ ri16 op0 t imm16 }
{
    [op0 + 16 * t, (imm16 % 256) as u8, (imm16 / 256) as u8]
}

// The bytes of format CALL.
pub fn call_format(op0: u8, n: u8, offset: u32) -> [u8; 3]
    requires op0 { op0 < 16 }
    requires n { n < 4 }
    requires offset { offset < 262144 }
    ensures { number result ≡ call_format op0 n offset }
{
    [
        op0 + 16 * n + 64 * (offset % 4) as u8,
        (offset / 4 % 256) as u8,
        (offset / 1024) as u8,
    ]
}

// The bytes of format BRI8.
pub fn bri8(op0: u8, n: u8, m: u8, s: u8, r: u8, imm8: u8) -> [u8; 3]
    requires op0 { op0 < 16 }
    requires n { n < 4 }
    requires m { m < 4 }
    requires s { s < 16 }
    requires r { r < 16 }
    ensures { number result ≡ bri8 op0 n m s r imm8 }
{
    [op0 + 16 * n + 64 * m, s + 16 * r, imm8]
}

// The bytes of format BRI12.
pub fn bri12(op0: u8, n: u8, m: u8, s: u8, imm12: u16) -> [u8; 3]
    requires op0 { op0 < 16 }
    requires n { n < 4 }
    requires m { m < 4 }
    requires s { s < 16 }
    requires imm12 { imm12 < 4096 }
    ensures { number result ≡ bri12 op0 n m s imm12 }
{
    [
        op0 + 16 * n + 64 * m,
        s + 16 * (imm12 % 16) as u8,
        (imm12 / 16) as u8,
    ]
}
