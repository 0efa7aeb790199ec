ghost use Rattle.std.specs.Prelude.{◌≡◌, ◌<◌, ◌≤◌, ◌*◌, ◌*ℤ◌, ◌/◌, ◌%◌, ◌^◌, unsigned_abs};
ghost use Rattle.xt_core.specs.Words.{aligned, bit_of, difference32, funnel, is_negative, low_half, moved, sign_copies, sign_extended, signed32, signed_half, signed_less, sum32, word32};

// The low 32 bits of a number.
pub fn low_word(x: u64) -> u32
    ensures { result ≡ x % 2 ^ 32 }
{
    (x % 0x1_0000_0000) as u32
}

// An integer as a register holds it.
pub fn word32(value: i32) -> u32
    ensures { result ≡ word32 value }
{
    value.cast_unsigned()
}

// The integer that a register's value stands for.
pub fn signed32(x: u32) -> i32
    ensures { result ≡ signed32 x }
{
    x.cast_signed()
}

pub fn is_negative(x: u32) -> bool
    ensures { result ≡ is_negative x }
{
    x >= 0x8000_0000
}

pub fn signed_less(x: u32, y: u32) -> bool
    ensures { result ≡ signed_less x y }
{
    signed32(x) < signed32(y)
}

// A sum modulo 2^32; the first summand may be a register's value times 2, 4 or 8.
pub fn sum32(x: u64, y: u32) -> u32
    requires { x < 2 ^ 36 }
    ensures { result ≡ sum32 x y }
{
    low_word(x + u64::from(y))
}

// A difference modulo 2^32.
pub fn difference32(x: u64, y: u32) -> u32
    requires { x < 2 ^ 36 }
    ensures { result ≡ difference32 x y }
{
    low_word(x + 0x1_0000_0000 - u64::from(y))
}

// A number moved by a signed distance.
pub fn moved(x: u32, distance: i32) -> u32
    ensures { result ≡ moved x distance }
{
    sum32(u64::from(x), word32(distance))
}

// 32 copies of a number's sign bit.
pub fn sign_copies(x: u32) -> u32
    ensures { result ≡ sign_copies x }
{
    if is_negative(x) { u32::MAX } else { 0 }
}

// The low 32 bits of 64 bits shifted right.
pub fn funnel(high: u32, low: u32, amount: u32) -> u32
    requires { amount ≤ 32 }
    ensures { result ≡ funnel high low amount }
{
    low_word((u64::from(high) * 0x1_0000_0000 + u64::from(low)) >> amount)
}

// A number shifted left, what leaves 32 bits cut off.
pub fn shifted_left(x: u32, amount: u32) -> u32
    requires { amount < 32 }
    ensures { result ≡ x * 2 ^ amount % 2 ^ 32 }
{
    x << amount
}

pub fn low_half(x: u32) -> u32
    ensures value { result ≡ low_half x }
    ensures small { result < 2 ^ 16 }
{
    x % 0x1_0000
}

pub fn signed_half(x: u32) -> i32
    ensures value { result ≡ signed_half x }
    ensures small { unsigned_abs result ≤ 2 ^ 15 }
{
    let half = low_half(x) as i32;
    if half < 0x8000 { half } else { half - 0x1_0000 }
}

// The product of two halves with sign, as a register holds it.
pub fn signed_product(x: i32, y: i32) -> u32
    requires x { unsigned_abs x ≤ 2 ^ 15 }
    requires y { unsigned_abs y ≤ 2 ^ 15 }
    ensures { result ≡ word32 (x *ℤ y) }
{
    word32(x * y)
}

// Two to a power.
fn power(n: u32) -> u32
    requires { n < 31 }
    ensures value { result ≡ 2 ^ n }
    ensures small { result < 2 ^ 31 }
{
    1u32 << n
}

// The bit at a place fills all bits above it.
pub fn sign_extended(x: u32, place: u32) -> u32
    requires { place < 31 }
    ensures { result ≡ sign_extended x place }
{
    let half = power(place);
    let low = x % (2 * half);
    if low < half {
        low
    } else {
        u32::MAX - (2 * half - 1 - low)
    }
}

// The bit of a number.
pub fn bit_of(x: u32, n: u32) -> u32
    requires { n < 32 }
    ensures { result ≡ bit_of x n }
{
    (x >> n) % 2
}

// The low bits of a number, as many as the width, behind those of the shift.
pub fn field_of(x: u32, shift: u32, width: u32) -> u32
    requires shift { shift < 32 }
    requires width { width < 32 }
    ensures { result ≡ x / 2 ^ shift % 2 ^ width }
{
    (x >> shift) % (1u32 << width)
}

// A number with its low two bits cleared.
pub fn aligned(x: u32) -> u32
    ensures { result ≡ aligned x }
{
    x / 4 * 4
}

// The value of a number of an instruction that has no sign.
pub fn natural(value: i32) -> u32
    ensures { result ≡ unsigned_abs value }
{
    value.unsigned_abs()
}
