//! What places hold, what operations write, and the writes.

ghost use Rattle.std.specs.Prelude.{◌≡◌, ◌+◌, ◌*◌, ◌<◌, ◌≤◌, ◌^◌, All, IsTrue, length, slice_index};
ghost use Rattle.xt_isa.specs.Table as table;
ghost use Rattle.xt_core.specs.Action.{action};
ghost use Rattle.xt_core.specs.Range.{IsWritable};
ghost use Rattle.tie_desc.specs.Spelling.{part_fits};
ghost use Rattle.xt_operate.specs.Bounds.{Fits, IsBound, read_words, word_of};
ghost use Rattle.xt_operate.specs.Operate.{part_writes};
ghost use Rattle.xt_operate.specs.Values.{IsHeld};
ghost use Rattle.xt_state.specs.State.{file_at, state_at};
ghost use Rattle.xt_exec.specs.Effect.{parts_values};
ghost use Rattle.xt_exec.specs.Made.{HasShape};
ghost use Rattle.xt_exec.specs.Places.{core_view, get, put, put_all};
ghost use Rattle.xt_exec.specs.Queues as queues;

use crate::gathered::Gathered;
use crate::queues::item_of;
use tie_desc::{Code, Desc, Kind, Part, Spot, same_spot};
use tie_expr::Bits;
use xt_core::{Action, action_of};
use xt_isa::Inst;
use xt_operate::{
    Bound, Values, Words, action_values, bounds_of, immediate, operation_values, slot_instruction,
    width_of,
};
use xt_state::Arch;

// A state that the description declares.
fn state_of(desc: &Desc, arch: &Arch, i: u8) -> Bits
    requires shape { HasShape desc.now arch.now }
    requires place { i < length desc.now.states }
    ensures { result ≡ state_at arch.now i }
{
    arch.state(i)
}

// A register of a file that the description declares.
fn register_of(desc: &Desc, arch: &Arch, f: u8, n: u8) -> Bits
    requires shape { HasShape desc.now arch.now }
    requires place { Fits desc.now (Spot.File f n) 0 }
    ensures { result ≡ record { width = (file_at arch.now f).width; value = slice_index (file_at arch.now f).values n } }
{
    arch.file(f, n)
}

// The word of an operand.
fn word_at(desc: &Desc, arch: &Arch, heads: &[Option<u128>; 8], bound: &Bound) -> Bits
    requires bound { IsBound desc.now bound.now }
    requires shape { HasShape desc.now arch.now }
    ensures { result ≡ word_of desc.now (get arch.now (queues.item_of desc.now heads.now)) bound.now }
{
    let number = bound.number;
    let width = width_of(desc, bound);
    match bound.access.kind {
        Kind::Range(range) => immediate(desc, range, number),
        Kind::Ar => Bits::new(width, u128::from(arch.ar(number))),
        Kind::File(file) => register_of(desc, arch, file, number),
        Kind::State(state) => state_of(desc, arch, state),
        Kind::InQueue(queue) => item_of(desc, heads, queue, width),
        Kind::OutQueue(_) => Bits::new(width, 0),
    }
}

// The words of the operands that are read.
fn words_at(desc: &Desc, arch: &Arch, heads: &[Option<u128>; 8], bounds: &[Bound]) -> Words
    requires few { length bounds.now ≤ 11 }
    requires bounds { All (IsBound desc.now) bounds.now }
    requires shape { HasShape desc.now arch.now }
    ensures { result ≡ read_words desc.now (get arch.now (queues.item_of desc.now heads.now)) bounds.now }
{
    let mut words = Words::new();
    for bound in bounds {
        if bound.access.reads {
            words.push(word_at(desc, arch, heads, bound));
        }
    }
    words
}

// What a core instruction does.
pub fn action_at(arch: &Arch, inst: Inst) -> Action
    requires { table.Fits inst }
    ensures value { result ≡ action inst (core_view arch.now) }
    ensures writable { IsWritable result }
{
    action_of(inst, arch.core())
}

// What an operation writes.
fn part_values(desc: &Desc, arch: &Arch, heads: &[Option<u128>; 8], part: &Part) -> Values
    requires fits { IsTrue (part_fits desc.now part.now) }
    requires shape { HasShape desc.now arch.now }
    ensures value { result ≡ (part_writes desc.now part.now arch.now.pc (get arch.now (queues.item_of desc.now heads.now))).at }
    ensures fit { All (IsHeld desc.now) result }
{
    match part.code {
        Code::Core(core) => {
            let inst = slot_instruction(desc, part, core);
            action_values(desc, &action_at(arch, inst))
        }
        Code::Op(op) => {
            let bounds = bounds_of(desc, part);
            let words = words_at(desc, arch, heads, bounds.as_slice());
            operation_values(desc, op, part, bounds.as_slice(), words.as_slice())
        }
    }
}

// What operations write together, all of them reading the same.
pub fn parts_values(desc: &Desc, arch: &Arch, heads: &[Option<u128>; 8], parts: &[Part]) -> Gathered
    requires few { length parts.now ≤ 4 }
    requires fits { All (λ p. IsTrue (part_fits desc.now p)) parts.now }
    requires shape { HasShape desc.now arch.now }
    ensures value { result ≡ parts_values desc.now parts.now arch.now.pc (get arch.now (queues.item_of desc.now heads.now)) }
    ensures fit { All (IsHeld desc.now) result }
{
    let mut out = Gathered::new();
    for part in parts {
        let values = part_values(desc, arch, heads, part);
        out.extend(values.as_slice());
    }
    out
}

// Writes a state that the description declares.
fn put_state(desc: &Desc, arch: &mut Arch, i: u8, value: u128)
    requires fits { Fits desc.now (Spot.State i) value }
    requires shape { HasShape desc.now arch.old }
    ensures { arch.new ≡ put arch.old (Spot.State i) value }
{
    let width = state_of(desc, arch, i).width();
    arch.set_state(i, Bits::new(width, value));
}

// Writes a register of a file that the description declares.
fn put_register(desc: &Desc, arch: &mut Arch, f: u8, n: u8, value: u128)
    requires fits { Fits desc.now (Spot.File f n) value }
    requires shape { HasShape desc.now arch.old }
    ensures { arch.new ≡ put arch.old (Spot.File f n) value }
{
    let width = register_of(desc, arch, f, n).width();
    arch.set_file(f, n, Bits::new(width, value));
}

// Writes a place.
fn put(desc: &Desc, arch: &mut Arch, place: Spot, value: u128)
    requires fits { Fits desc.now place value }
    requires shape { HasShape desc.now arch.old }
    ensures value { arch.new ≡ put arch.old place value }
    ensures shape { HasShape desc.now arch.new }
{
    match place {
        Spot::Ar(n) => arch.set_ar(n, value as u32),
        Spot::Sar => arch.set_sar(value as u8),
        Spot::State(i) => put_state(desc, arch, i, value),
        Spot::File(f, n) => put_register(desc, arch, f, n, value),
        Spot::In(_) | Spot::Out(_) => {}
    }
}

// Writes places one after the other.
pub fn put_all(desc: &Desc, arch: &mut Arch, values: &[(Spot, u128)])
    requires fit { All (IsHeld desc.now) values.now }
    requires shape { HasShape desc.now arch.old }
    ensures { arch.new ≡ put_all arch.old values.now }
{
    match values {
        [] => {}
        [(place, value), rest @ ..] => {
            put(desc, arch, *place, *value);
            put_all(desc, arch, rest);
        }
    }
}

// The value that is written to an output queue.
fn sent(values: &[(Spot, u128)], queue: u8) -> Option<u128>
    ensures { result ≡ queues.sent values.now queue }
{
    match values {
        [] => None,
        [(place, value), rest @ ..] => {
            if same_spot(*place, Spot::Out(queue)) {
                Some(*value)
            } else {
                sent(rest, queue)
            }
        }
    }
}

// The values that are written to the output queues.
pub fn all_sent(values: &[(Spot, u128)]) -> [Option<u128>; 8]
    ensures { result ≡ queues.all_sent values.now }
{
    [
        sent(values, 0),
        sent(values, 1),
        sent(values, 2),
        sent(values, 3),
        sent(values, 4),
        sent(values, 5),
        sent(values, 6),
        sent(values, 7),
    ]
}
