//! Which numbers fit a shape, and distances.

ghost use Rattle.std.specs.Prelude.{◌≡◌, ◌+◌, ◌-◌, ◌%◌, ◌^◌, ◌<◌, ◌≤◌, nat_lt, unsigned_abs};
ghost use Rattle.std.specs.List.{list_any};
ghost use Rattle.std.specs.Ordering.{int_eq};
ghost use Rattle.xt_isa.specs.Numbers.{signed_value};
ghost use Rattle.xt_mnemonics.specs.Shapes as shapes;

use crate::shape::{Scale, Shape, Way, step};

/// Of BEQI, BNEI, BLTI and BGEI.
static CONSTANTS: [i32; 16] = [-1, 1, 2, 3, 4, 5, 6, 7, 8, 10, 12, 16, 32, 64, 128, 256];

/// Of BLTUI and BGEUI.
static UNSIGNED_CONSTANTS: [i32; 16] = [
    32768, 65536, 2, 3, 4, 5, 6, 7, 8, 10, 12, 16, 32, 64, 128, 256,
];

fn is_between(low: u32, high: u32, value: i64) -> bool
    ensures { result ≡ shapes.is_between low high value }
{
    value >= 0 && u64::from(low) <= value as u64 && value as u64 <= u64::from(high)
}

fn is_signed(half: u32, value: i64) -> bool
    ensures { result ≡ shapes.is_signed half value }
{
    -i64::from(half) <= value && value < i64::from(half)
}

fn is_backward(distance: u32, value: i64) -> bool
    ensures { result ≡ shapes.is_backward distance value }
{
    -i64::from(distance) <= value && value < 0
}

fn is_multiple(scale: Scale, value: i64) -> bool
    ensures { result ≡ shapes.is_multiple (shapes.step scale) value }
{
    value.unsigned_abs() % u64::from(step(scale)) == 0
}

fn is_listed(value: i64, list: &[i32]) -> bool
    ensures { result ≡ list_any (λ c. int_eq c value) list.now }
{
    list.iter().any(|c| i64::from(*c) == value)
}

#[tactic(auto, unfolding(crate::specs::Shapes::is_constant))]
fn is_constant(value: i64) -> bool
    ensures { result ≡ shapes.is_constant value }
{
    is_listed(value, &CONSTANTS)
}

#[tactic(auto, unfolding(crate::specs::Shapes::is_unsigned_constant))]
fn is_unsigned_constant(value: i64) -> bool
    ensures { result ≡ shapes.is_unsigned_constant value }
{
    is_listed(value, &UNSIGNED_CONSTANTS)
}

/// Whether an instruction can hold a distance.
fn in_reach(way: Way, value: i64) -> bool
    ensures { result ≡ shapes.in_reach way value }
{
    match way {
        Way::Near => is_signed(128, value),
        Way::Far => is_signed(2048, value),
        Way::Jump => is_signed(131072, value),
        Way::Call => is_signed(524288, value) && is_multiple(Scale::Four, value),
        Way::Load => is_backward(262144, value) && is_multiple(Scale::Four, value),
    }
}

/// Whether a number fits a shape: of a register its number, of a target its distance.
pub fn fits_shape(shape: Shape, value: i64) -> bool
    ensures { result ≡ shapes.fits_shape shape value }
{
    match shape {
        Shape::Register => is_between(0, 15, value),
        Shape::Between { low, high, scale } => {
            is_between(low, high, value) && is_multiple(scale, value)
        }
        Shape::Signed { half, scale } => is_signed(half, value) && is_multiple(scale, value),
        Shape::Constant => is_constant(value),
        Shape::UnsignedConstant => is_unsigned_constant(value),
        Shape::Target(way) => in_reach(way, value),
    }
}

/// The place that the distance of a target is counted from.
fn base(way: Way, at: u32) -> u64
    ensures value { result ≡ shapes.base way at }
    ensures small { result ≤ 2 ^ 32 + 4 }
{
    let at = u64::from(at);
    match way {
        Way::Call => at / 4 * 4 + 4,
        Way::Load => (at + 3) / 4 * 4,
        _ => at + 4,
    }
}

fn signed(code: u64) -> i32
    requires { code < 2 ^ 32 }
    ensures { result ≡ signed_value (2 ^ 31) code }
{
    if code < 2147483648 {
        code as i32
    } else {
        (code as i64 - 4294967296) as i32
    }
}

/// The distance of a target, for an instruction at an address, modulo 2^32 as a signed number.
pub fn distance(way: Way, at: u32, target: u32) -> i32
    ensures { result ≡ shapes.distance way at target }
{
    let base = base(way, at) % 4294967296;
    signed((u64::from(target) + (4294967296 - base)) % 4294967296)
}
