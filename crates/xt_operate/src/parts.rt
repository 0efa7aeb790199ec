//! What one part of a bundle does.

ghost use Rattle.std.specs.Prelude.{◌≡◌, ℕ, ◌<◌, ◌≤◌, All, IsTrue, length, map, slice_get, slice_index};
ghost use Rattle.std.specs.List.{zip};
ghost use Rattle.tie_expr.specs.Tree.{meaning};
ghost use Rattle.xt_isa.specs.Table.{Fits};
ghost use Rattle.xt_core.specs.Action.{action};
ghost use Rattle.xt_core.specs.Range.{IsAccess};
ghost use Rattle.xt_core.specs.View.{view_of};
ghost use Rattle.tie_desc.specs.Operands as operands;
ghost use Rattle.tie_desc.specs.Spelling.{HasSpelling, part_fits};
ghost use Rattle.xt_operate.specs.Bounds.{IsBound, bounds, read_words, word_of, written_places};
ghost use Rattle.xt_operate.specs.Operate.{core_writes, op_results, op_values, operate_of, part_count, part_writes, slot_instruction, some_writes, view};
ghost use Rattle.xt_operate.specs.Values.{IsHeld, value_in};

use crate::bounds::{Bound, bounds_of};
use crate::instructions::{action_values, instruction_of};
use crate::values::Values;
use crate::words::{Words, immediate, op_values};
use tie_desc::{Bundle, Code, Desc, Kind, Part, SlotCore, Spot, kind_width};
use tie_expr::{Bits, Expr};
use xt_core::{Access, Registers, action_of};
use xt_isa::Inst;

/// The values of the places that a part reads; a popped item is one of them.
#[derive(Drop)]
pub struct Reads {
    pub at: Values,
}

/// What a part does.
#[derive(Drop)]
pub struct Writes {
    /// The places that it writes, with their new values. What a load writes isn't among them.
    pub at: Values,
    pub access: Access,
    /// The pc of a jump, or of a branch that is taken.
    pub target: Option<u32>,
}

/// How many bits an operand has, 1 to 128.
pub fn width_of(desc: &Desc, bound: &Bound) -> u8
    requires { IsBound desc.now bound.now }
    ensures value { result ≡ operands.kind_width desc.now bound.now.access.kind }
    ensures low { 0 < result }
    ensures high { result ≤ 128 }
{
    desc.facts();
    kind_width(desc, bound.access.kind)
}

// The word of an operand.
fn word_of(desc: &Desc, bound: &Bound, reads: &Reads) -> Bits
    requires bound { IsBound desc.now bound.now }
    requires fit { All (IsHeld desc.now) reads.now.at }
    ensures { result ≡ word_of desc.now (value_in reads.now.at) bound.now }
{
    let number = bound.number;
    let width = width_of(desc, bound);
    match bound.access.kind {
        Kind::Range(range) => immediate(desc, range, number),
        Kind::Ar => Bits::new(width, reads.at.value(Spot::Ar(number))),
        Kind::File(file) => Bits::new(width, reads.at.value(Spot::File(file, number))),
        Kind::State(state) => Bits::new(width, reads.at.value(Spot::State(state))),
        Kind::InQueue(queue) => Bits::new(width, reads.at.value(Spot::In(queue))),
        Kind::OutQueue(queue) => Bits::new(width, reads.at.value(Spot::Out(queue))),
    }
}

// The words of the operands that are read.
fn words_of(desc: &Desc, bounds: &[Bound], reads: &Reads) -> Words
    requires few { length bounds.now ≤ 11 }
    requires bounds { All (IsBound desc.now) bounds.now }
    requires fit { All (IsHeld desc.now) reads.now.at }
    ensures { result ≡ read_words desc.now (value_in reads.now.at) bounds.now }
{
    let mut words = Words::new();
    for bound in bounds {
        if bound.access.reads {
            words.push(word_of(desc, bound, reads));
        }
    }
    words
}

// The value of a register.
fn register_of(desc: &Desc, reads: &Reads, i: u8) -> u32
    requires fit { All (IsHeld desc.now) reads.now.at }
    ensures { result ≡ value_in reads.now.at (Spot.Ar i) }
{
    reads.at.value(Spot::Ar(i)) as u32
}

// The value of the shift amount register.
fn sar_of(desc: &Desc, reads: &Reads) -> u8
    requires fit { All (IsHeld desc.now) reads.now.at }
    ensures value { result ≡ value_in reads.now.at Spot.Sar }
    ensures range { result ≤ 32 }
{
    reads.at.value(Spot::Sar) as u8
}

// The values of a0 to a15.
fn ars_of(desc: &Desc, reads: &Reads) -> [u32; 16]
    requires fit { All (IsHeld desc.now) reads.now.at }
    ensures values { (n : ℕ) → n < 16 → slice_index result n ≡ value_in reads.now.at (Spot.Ar n) }
    ensures count { length result ≡ 16 }
{
    let mut ar = [0; 16];
    for i in 0..16u8 {
        ar[i as usize] = register_of(desc, reads, i);
    }
    ar
}

// What a core instruction reads.
fn registers_of(desc: &Desc, reads: &Reads, pc: u32) -> Registers
    requires fit { All (IsHeld desc.now) reads.now.at }
    ensures view { view_of result ≡ view pc (value_in reads.now.at) }
    ensures sar { result.sar ≤ 32 }
{
    let ar = ars_of(desc, reads);
    let sar = sar_of(desc, reads);
    Registers { pc, ar, sar }
}

// What a core instruction does.
fn core_writes(desc: &Desc, inst: Inst, pc: u32, reads: &Reads) -> Writes
    requires fits { Fits inst }
    requires fit { All (IsHeld desc.now) reads.now.at }
    ensures value { result ≡ core_writes (action inst (view pc (value_in reads.now.at))) }
    ensures fit { All (IsHeld desc.now) result.at }
    ensures access { IsAccess result.access }
{
    let registers = registers_of(desc, reads, pc);
    let action = action_of(inst, &registers);
    Writes {
        at: action_values(desc, &action),
        access: action.access,
        target: action.target,
    }
}

/// The instruction of a part with a core operation.
pub fn slot_instruction(desc: &Desc, part: &Part, core: SlotCore) -> Inst
    requires code { part.now.code ≡ Code.Core core }
    requires fits { IsTrue (part_fits desc.now part.now) }
    ensures value { result ≡ slot_instruction core part.now.fields }
    ensures fits { Fits result }
{
    instruction_of(core, part.fields)
}

// The expressions of an operation.
fn results_of(desc: &Desc, op: u8) -> &[Expr]
    ensures { result.now ≡ op_results (slice_get desc.now.ops op) }
{
    match desc.ops.get(op as usize) {
        None => &[],
        Some(found) => found.results.as_slice(),
    }
}

/// What an operation writes: each written operand its result, which its expression gives on the words of the read ones.
pub fn operation_values(desc: &Desc, op: u8, part: &Part, given: &[Bound], words: &[Bits]) -> Values
    requires code { part.now.code ≡ Code.Op op }
    requires fits { IsTrue (part_fits desc.now part.now) }
    requires given { given.now ≡ bounds desc.now part.now }
    requires few { length given.now ≤ 11 }
    ensures value { result ≡ zip (written_places (bounds desc.now part.now)) (map (λ e. (meaning e).at words.now) (op_results (slice_get desc.now.ops op))) }
    ensures fit { All (IsHeld desc.now) result }
{
    desc.facts();
    op_values(desc, given, results_of(desc, op), words)
}

// What an operation of a description writes.
fn op_writes(desc: &Desc, op: u8, part: &Part, reads: &Reads) -> Values
    requires code { part.now.code ≡ Code.Op op }
    requires fits { IsTrue (part_fits desc.now part.now) }
    requires fit { All (IsHeld desc.now) reads.now.at }
    ensures value { result ≡ op_values desc.now (slice_get desc.now.ops op) part.now (value_in reads.now.at) }
    ensures fit { All (IsHeld desc.now) result }
{
    let bounds = bounds_of(desc, part);
    let words = words_of(desc, bounds.as_slice(), reads);
    operation_values(desc, op, part, bounds.as_slice(), words.as_slice())
}

// What a part does.
fn part_writes(desc: &Desc, part: &Part, pc: u32, reads: &Reads) -> Writes
    requires fits { IsTrue (part_fits desc.now part.now) }
    requires fit { All (IsHeld desc.now) reads.now.at }
    ensures value { result ≡ part_writes desc.now part.now pc (value_in reads.now.at) }
    ensures fit { All (IsHeld desc.now) result.at }
    ensures access { IsAccess result.access }
{
    match part.code {
        Code::Core(core) => core_writes(desc, slot_instruction(desc, part, core), pc, reads),
        Code::Op(op) => Writes {
            at: op_writes(desc, op, part, reads),
            access: Access::Nothing,
            target: None,
        },
    }
}

// What the part of a slot does.
fn slot_writes(desc: &Desc, parts: &[Part], at: u8, pc: u32, reads: &Reads) -> Writes
    requires fits { All (λ p. IsTrue (part_fits desc.now p)) parts.now }
    requires there { at < length parts.now }
    requires fit { All (IsHeld desc.now) reads.now.at }
    ensures value { result ≡ some_writes desc.now (slice_get parts.now at) pc (value_in reads.now.at) }
    ensures fit { All (IsHeld desc.now) result.at }
    ensures access { IsAccess result.access }
{
    part_writes(desc, &parts[at as usize], pc, reads)
}

/// What the part of a number of a bundle does, at this pc, where the places that it reads have these values. A core
/// instruction and an operation alone are part 0, a format has one part per slot. A place that `reads` lacks counts
/// as 0. Takes no memory.
pub fn operate(desc: &Desc, bundle: &Bundle, part: u8, pc: u32, reads: &Reads) -> Writes
    requires spelled { HasSpelling desc.now bundle.now }
    requires part { part < part_count bundle.now }
    requires fit { All (IsHeld desc.now) reads.now.at }
    ensures value { result ≡ operate_of desc.now bundle.now part pc (value_in reads.now.at) }
    ensures fit { All (IsHeld desc.now) result.at }
    ensures access { IsAccess result.access }
{
    match bundle {
        Bundle::Core(inst) => core_writes(desc, *inst, pc, reads),
        Bundle::One(only) => part_writes(desc, only, pc, reads),
        Bundle::Wide { parts, .. } => { slot_writes(desc, parts.as_slice(), part, pc, reads) }
    }
}
