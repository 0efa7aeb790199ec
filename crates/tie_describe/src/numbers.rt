//! Numbers of a text, and names.

ghost use Rattle.std.specs.Prelude.{◌≡◌, ◌-◌, ◌+◌, ◌/◌, min, IsTrue, ◌-ℤ◌, pos, ◌<◌};
ghost use Rattle.tie_mean.specs.Sizes.{bounded};
ghost use Rattle.tie_desc.specs.Names.{is_word};
ghost use Rattle.tie_describe.specs.Declarations as spec;

use tie_desc::Name;
use tie_grammar::symbol::Leaf;
use tie_grammar::tree::{Int, Literal};
use tie_mean::literal::{literal_value, number};

/// The name that a leaf spells.
pub fn name_of(leaf: &Leaf) -> Name
    requires { IsTrue (is_word leaf.now.bytes) }
    ensures { result ≡ leaf.now.bytes }
{
    match Name::new(leaf.bytes.as_slice()) {
        Some(name) => name,
        None => unreachable!(),
    }
}

/// A place in a list.
pub fn byte(place: usize) -> u8
    ensures { result ≡ spec.byte place }
{
    place.min(255) as u8
}

fn value_of(leaf: &Leaf) -> u128
    ensures { result ≡ bounded leaf.now }
{
    number(leaf.bytes.as_slice())
}

/// A number of the text.
pub fn byte_of(leaf: &Leaf) -> u8
    ensures { result ≡ spec.byte_of leaf.now }
{
    value_of(leaf).min(255) as u8
}

/// The value that a state has at the start.
pub fn reset_of(reset: &Option<Literal>) -> u128
    ensures { result ≡ spec.reset_of reset.now }
{
    match reset {
        None => 0,
        Some(x) => literal_value(x).unwrap_or(u128::MAX),
    }
}

/// How far an integer stands above -2^31.
pub fn height(x: &Int) -> u32
    ensures { result ≡ spec.height x.now }
{
    let n = value_of(&x.number);
    match x.minus {
        None => 2147483648 + n.min(2147483647) as u32,
        Some(_) => 2147483648 - n.min(2147483648) as u32,
    }
}

/// The integer that stands so far above -2^31.
pub fn lowered(height: u32) -> i32
    ensures { result ≡ pos height -ℤ pos 2147483648 }
{
    (i64::from(height) - 2147483648) as i32
}

pub fn step_of(leaf: &Leaf) -> u32
    ensures { result ≡ min (bounded leaf.now) 4294967295 }
{
    value_of(leaf).min(4294967295) as u32
}

/// How many values stand between two heights.
pub fn count(low: u32, high: u32, step: u32) -> u8
    ensures { result ≡ spec.byte ((high - low) / step + 1) }
{
    if step == 0 {
        return 1;
    }
    let more = high.saturating_sub(low) / step;
    (u64::from(more) + 1).min(255) as u8
}
