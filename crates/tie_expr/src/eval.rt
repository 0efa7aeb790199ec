//! What an expression gives.

ghost use Rattle.std.specs.Prelude.{◌≡◌, ◌+◌, ◌-◌, ◌*◌, ◌/◌, ◌%◌, ◌^◌, ◌<◌, ◌≤◌, length, map, IsTrue, slice_get, All};
ghost use Rattle.tie_expr.specs.Operators as spec;
ghost use Rattle.tie_expr.specs.Meaning.{input_meaning, select_meaning, arm, number_in};
ghost use Rattle.tie_expr.specs.Tree as tree;

use crate::bits::Bits;
use crate::node::Node;
use crate::operate::{choose, join_two, one, part, product, repeat_bits, resize, two};
use sqlite_items::{Items, at};

#[cycle(eval)]
pub fn eval(x: &Node, env: &[Bits]) -> Bits
    requires { IsTrue (tree.typed x.now) }
    ensures { result ≡ record { width = (tree.meaning x.now).width; value = (tree.meaning x.now).at env.now } }
{
    match x {
        Node::Constant(bits) => *bits,
        Node::Input { index, width } => input(env, *index, *width),
        Node::One { op, operand } => one(*op, eval(operand.get(), env)),
        Node::Two { op, left, right } => two(*op, eval(left.get(), env), eval(right.get(), env)),
        Node::Choose {
            condition,
            then,
            otherwise,
        } => choose(
            eval(condition.get(), env),
            eval(then.get(), env),
            eval(otherwise.get(), env),
        ),
        Node::Join { high, low } => join_two(eval(high.get(), env), eval(low.get(), env)),
        Node::Part { of, high, low } => part(eval(of.get(), env), *high, *low),
        Node::Resize { of, width } => resize(eval(of.get(), env), *width),
        Node::Lookup {
            index,
            entries,
            width,
        } => entry(entries, *width, eval(index.get(), env)),
        Node::Repeat { of, count } => repeat_bits(eval(of.get(), env), *count),
        Node::Select { number, arms } => select(
            arms.as_slice(),
            eval(number.get(), env).value(),
            env,
        ),
        Node::Mul {
            left,
            right,
            signed,
        } => product(
            eval(left.get(), env),
            eval(right.get(), env),
            eval(signed.get(), env),
        ),
    }
}

/// The arm of a number.
#[cycle(eval)]
fn select(arms: &[Node], number: u128, env: &[Bits]) -> Bits
    requires within { number < length arms.now }
    requires typed { IsTrue (tree.arms_typed (arm (map tree.meaning arms.now) 0).width (map tree.summary arms.now)) }
    ensures { result ≡ record { width = (arm (map tree.meaning arms.now) 0).width; value = (arm (map tree.meaning arms.now) number).at env.now } }
{
    eval(&arms[number as usize], env)
}

/// The value at a place of the environment.
fn input(env: &[Bits], index: u32, width: u8) -> Bits
    requires low { 0 < width }
    requires high { width ≤ 128 }
    ensures { result ≡ record { width = width; value = number_in (slice_get env.now index) % 2 ^ width } }
{
    match at(env, index as usize) {
        Some(bits) => Bits::new(width, bits.value()),
        None => Bits::new(width, 0),
    }
}

/// The entry whose number is `index`, 0 beyond them.
fn entry(entries: &Items<u128>, width: u8, index: Bits) -> Bits
    requires low { 0 < width }
    requires high { width ≤ 128 }
    requires few { length entries.now ≤ 256 }
    requires fit { All (λ x. x < 2 ^ width) entries.now }
    ensures { result ≡ record { width = width; value = spec.lookup_value entries.now index.value } }
{
    let entries = entries.as_slice();
    if index.value < entries.len() as u128 {
        Bits {
            width,
            value: entries[index.value as usize],
        }
    } else {
        Bits { width, value: 0 }
    }
}
