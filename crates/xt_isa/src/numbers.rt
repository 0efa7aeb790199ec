ghost use Rattle.std.specs.Prelude.{◌≡◌, ◌<◌, ◌≤◌, ◌*◌, ◌^◌, ◌↔◌, IsTrue, unsigned_abs};
ghost use Rattle.xt_isa.specs.Numbers.{IsBackward, IsBetween, IsMultiple, IsSigned, signed_value, twos_complement};

// Whether a value is from low to high, both of them taken.
pub fn is_between(low: u32, high: u32, value: i32) -> bool
    ensures { IsTrue result ↔ IsBetween low high value }
{
    value >= 0 && low <= value as u32 && value as u32 <= high
}

// Whether a value is from -half to half - 1.
pub fn is_signed(half: u32, value: i32) -> bool
    requires { half ≤ 2 ^ 20 }
    ensures { IsTrue result ↔ IsSigned half value }
{
    -(half as i32) <= value && value < half as i32
}

// Whether a value is from -distance to -1.
pub fn is_backward(distance: u32, value: i32) -> bool
    requires { distance ≤ 2 ^ 20 }
    ensures { IsTrue result ↔ IsBackward distance value }
{
    -(distance as i32) <= value && value < 0
}

// Whether a value is a multiple of a step.
pub fn is_multiple(step: u32, value: i32) -> bool
    requires { 0 < step }
    ensures { IsTrue result ↔ IsMultiple step value }
{
    value.unsigned_abs() % step == 0
}

// The code of a value in two's complement with `2 * half` codes.
pub fn twos_complement(half: u32, value: i32) -> u32
    requires small { half ≤ 2 ^ 20 }
    requires signed { IsSigned half value }
    ensures { result ≡ twos_complement half value }
{
    if value < 0 {
        (value + 2 * half as i32) as u32
    } else {
        value as u32
    }
}

// The value that a code of two's complement stands for.
pub fn signed_value(half: u32, code: u32) -> i32
    requires small { half ≤ 2 ^ 20 }
    requires code { code < 2 * half }
    ensures { result ≡ signed_value half code }
{
    if code < half {
        code as i32
    } else {
        code as i32 - 2 * half as i32
    }
}

// A number that a byte holds.
pub fn byte_of(value: i32) -> u8
    requires { IsBetween 0 255 value }
    ensures { result ≡ unsigned_abs value }
{
    value as u8
}

// The code of a number of eight bits with sign.
pub fn near(value: i32) -> u8
    requires { IsSigned 128 value }
    ensures { result ≡ twos_complement 128 value }
{
    twos_complement(128, value) as u8
}
