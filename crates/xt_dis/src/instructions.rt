//! Core instructions.

ghost use Rattle.std.specs.Prelude.{◌≡◌, ◌++◌, ◌+◌, ◌*◌, ◌^◌, ◌≤◌, ◌<◌, codes, OnOk};
ghost use Rattle.xt_isa.specs.Numbers.{twos_complement};
ghost use Rattle.xt_isa.specs.Table.{Fits};
ghost use Rattle.xt_mnemonics.specs.Shapes.{base};
ghost use Rattle.xt_dis.specs.Words.{joined};
ghost use Rattle.xt_dis.specs.Operands as operands;
ghost use Rattle.xt_dis.specs.Listing as listing;

use crate::text::{push, push_address, push_number};
use tie_flix::NoMemory;
use xt_isa::Inst;
use xt_mnemonics::{Shape, Way, mnemonic_of, name_of, shapes, values_of};

/// The place that a distance is counted from.
fn base(way: Way, at: u32) -> u64
    ensures value { result ≡ base way at }
    ensures small { result ≤ 2 ^ 32 + 4 }
{
    let at = u64::from(at);
    match way {
        Way::Call => at / 4 * 4 + 4,
        Way::Load => (at + 3) / 4 * 4,
        _ => at + 4,
    }
}

/// A distance modulo 2^32.
fn modulo(distance: i32) -> u64
    ensures value { result ≡ twos_complement (2 ^ 31) distance }
    ensures small { result < 2 ^ 32 }
{
    if distance >= 0 {
        distance as u64
    } else {
        (4294967296 + i64::from(distance)) as u64
    }
}

/// The address at a distance from an instruction.
fn target(way: Way, at: u32, distance: i32) -> u32
    ensures { result ≡ operands.target way at distance }
{
    ((base(way, at) + modulo(distance)) % 4294967296) as u32
}

#[tactic(auto, using(std::proofs::Common::append_assoc))]
fn push_operand(text: &mut Vec<u8>, at: u32, shape: Shape, value: i32) -> Result<(), NoMemory>
    ensures { OnOk result (text.new.items ≡ text.old.items ++ operands.operand at shape value) }
{
    match shape {
        Shape::Register => {
            push(text, b"a")?;
            push_number(text, value)
        }
        Shape::Target(way) => push_address(text, target(way, at, value)),
        _ => push_number(text, value),
    }
}

/// Operands, with a text before the first one and commas between them.
#[tactic(auto, using(std::proofs::Common::append_assoc))]
fn push_operands(
    text: &mut Vec<u8>,
    before: &[u8],
    at: u32,
    shapes: &[Shape],
    values: &[i32],
) -> Result<(), NoMemory>
    ensures { OnOk result (text.new.items ≡ text.old.items ++ joined before.now (codes ", ") (operands.core_operands at shapes.now values.now)) }
{
    match shapes {
        [] => Ok(()),
        [shape, other_shapes @ ..] => match values {
            [] => Ok(()),
            [value, other_values @ ..] => {
                push(text, before)?;
                push_operand(text, at, *shape, *value)?;
                push_operands(text, b", ", at, other_shapes, other_values)
            }
        },
    }
}

/// A core instruction at an address.
#[tactic(auto, using(std::proofs::Common::append_assoc))]
pub fn push_core(text: &mut Vec<u8>, at: u32, inst: &Inst) -> Result<(), NoMemory>
    ensures { OnOk result (text.new.items ≡ text.old.items ++ listing.core_text at inst.now) }
{
    let mnemonic = mnemonic_of(inst);
    push(text, name_of(mnemonic))?;
    push_operands(text, b" ", at, shapes(mnemonic), &values_of(inst))
}
