//! The words of operands, and what an operation gives on them.

ghost use Rattle.std.specs.Prelude.{◌≡◌, ◌+◌, ◌<◌, ◌≤◌, ◌^◌, [], ◌∷◌, ◌++◌, All, length, map, slice_get, true};
ghost use Rattle.std.specs.List.{zip};
ghost use Rattle.tie_expr.specs.Tree.{meaning};
ghost use Rattle.xt_core.specs.Words.{word32};
ghost use Rattle.tie_desc.specs.Operands as operands;
ghost use Rattle.tie_desc.specs.Spots.{spot_of};
ghost use Rattle.xt_operate.specs.Bounds.{HasNumber, IsBound, written_bounds, written_places};
ghost use Rattle.xt_operate.specs.Values.{IsHeld};

use crate::bounds::Bound;
use crate::values::Values;
use std::marker::Model;
use tie_desc::{Desc, Kind, Spot, range_value};
use tie_expr::{Bits, Expr};

/// At most twelve words, which contracts see as a list.
#[derive(Drop)]
pub struct Words {
    found: [Bits; 12],
    count: usize,
}

impl Model for Words {
    ghost use Rattle.std.specs.Prelude.{List, take, ◌≤◌};
    ghost use Rattle.tie_expr.specs.Word.{Word};

    ghost Value = { List Word };

    ghost view = { λ w. take w.count w.found };

    ghost invariant = { λ w. w.count ≤ 12 };
}

impl Words {
    /// No words.
    pub fn new() -> Words
        ensures { result ≡ [] }
    {
        Words {
            found: [Bits::new(1, 0); 12],
            count: 0,
        }
    }

    /// Adds a word at the end.
    pub fn push(&mut self, word: Bits)
        requires { length self.old < 12 }
        ensures { self.new ≡ self.old ++ word ∷ [] }
    {
        self.found[self.count] = word;
        self.count += 1;
    }

    /// All of them, in the order in which they were added.
    pub fn as_slice(&self) -> &[Bits]
        ensures { result.now ≡ self.now }
    {
        &self.found[..self.count]
    }
}

/// The word of an immediate: the value of its range that has this number.
pub fn immediate(desc: &Desc, range: u8, number: u8) -> Bits
    requires { HasNumber desc.now (Kind.Range range) number }
    ensures { result ≡ record { width = 32; value = word32 (operands.range_value (slice_get desc.now.ranges range) number) } }
{
    let value = range_value(desc, range, number).cast_unsigned();
    Bits::new(32, u128::from(value))
}

// The place that a written operand stands for.
fn place_of(desc: &Desc, bound: &Bound) -> Spot
    requires bound { IsBound desc.now bound.now }
    requires written { bound.now.access.writes ≡ true }
    ensures { spot_of bound.now.access.kind bound.now.number ≡ result ∷ [] }
{
    let number = bound.number;
    match bound.access.kind {
        Kind::Ar => Spot::Ar(number),
        Kind::File(file) => Spot::File(file, number),
        Kind::Range(_) => unreachable!(),
        Kind::State(state) => Spot::State(state),
        Kind::InQueue(queue) => Spot::In(queue),
        Kind::OutQueue(queue) => Spot::Out(queue),
    }
}

// A written operand gets its result.
fn push_result(desc: &Desc, bound: &Bound, expr: &Expr, words: &[Bits], out: &mut Values)
    requires room { length out.old < 12 }
    requires bound { IsBound desc.now bound.now }
    requires written { bound.now.access.writes ≡ true }
    requires width { (meaning expr.now).width ≡ operands.kind_width desc.now bound.now.access.kind }
    requires fit { All (IsHeld desc.now) out.old }
    ensures value { out.new ≡ out.old ++ zip (spot_of bound.now.access.kind bound.now.number) ((meaning expr.now).at words.now ∷ []) }
    ensures fit { All (IsHeld desc.now) out.new }
    ensures one { length out.new ≡ length out.old + 1 }
{
    let place = place_of(desc, bound);
    let value = expr.eval(words).value();
    out.push(place, value);
}

// The written ones among these operands get their results, in this order.
fn push_results(desc: &Desc, bounds: &[Bound], results: &[Expr], words: &[Bits], out: &mut Values)
    requires room { length out.old + length bounds.now ≤ 12 }
    requires bounds { All (IsBound desc.now) bounds.now }
    requires widths { map (λ e. (meaning e).width) results.now ≡ map (λ b. operands.kind_width desc.now b.access.kind) (written_bounds bounds.now) }
    requires fit { All (IsHeld desc.now) out.old }
    ensures value { out.new ≡ out.old ++ zip (written_places bounds.now) (map (λ e. (meaning e).at words.now) results.now) }
    ensures fit { All (IsHeld desc.now) out.new }
{
    match (bounds, results) {
        ([bound, rest @ ..], [expr, others @ ..]) => {
            if bound.access.writes {
                push_result(desc, bound, expr, words, out);
                push_results(desc, rest, others, words, out);
            } else {
                push_results(desc, rest, results, words, out);
            }
        }
        ([], _) => {}
        ([_bound, _rest @ ..], []) => {}
    }
}

/// What an operation with these operands writes, each written one its result, which its expression gives on the words
/// of the read ones.
pub fn op_values(desc: &Desc, bounds: &[Bound], results: &[Expr], words: &[Bits]) -> Values
    requires room { length bounds.now ≤ 11 }
    requires bounds { All (IsBound desc.now) bounds.now }
    requires widths { map (λ e. (meaning e).width) results.now ≡ map (λ b. operands.kind_width desc.now b.access.kind) (written_bounds bounds.now) }
    ensures value { result ≡ zip (written_places bounds.now) (map (λ e. (meaning e).at words.now) results.now) }
    ensures fit { All (IsHeld desc.now) result }
{
    let mut out = Values::new();
    push_results(desc, bounds, results, words, &mut out);
    out
}
