//! What operands stand for, and what codes have.

ghost use Rattle.std.specs.Prelude.{◌≡◌, ◌<◌, ◌≤◌, ◌*◌, ◌+ℤ◌, pos, length, map, slice_get, not, true, false};
ghost use Rattle.tie_desc.specs.Operands as operands;
ghost use Rattle.tie_desc.specs.Slots as slots;
ghost use Rattle.tie_desc.specs.Invariant.{IsRange};
ghost use Rattle.tie_desc.specs.Spots as spots;

use crate::bundle::Spot;
use crate::declarations::{Access, Kind, Operand, RangeDecl};
use crate::desc::Desc;
use crate::formats::{Code, SlotCore};
use arrayvec::ArrayVec;

/// The count of bits of an operand of this kind, 0 where the description hasn't the declaration.
pub fn kind_width(desc: &Desc, kind: Kind) -> u8
    ensures { result ≡ operands.kind_width desc.now kind }
{
    match kind {
        Kind::Ar | Kind::Range(_) => 32,
        Kind::File(file) => match desc.files.get(file as usize) {
            Some(file) => file.width,
            None => 0,
        },
        Kind::State(state) => match desc.states.get(state as usize) {
            Some(state) => state.width,
            None => 0,
        },
        Kind::InQueue(queue) => match desc.ins.get(queue as usize) {
            Some(queue) => queue.width,
            None => 0,
        },
        Kind::OutQueue(queue) => match desc.outs.get(queue as usize) {
            Some(queue) => queue.width,
            None => 0,
        },
    }
}

/// How many numbers the field of an argument of this kind may have.
pub fn limit(desc: &Desc, kind: Kind) -> u8
    ensures value { result ≡ operands.limit desc.now kind }
    ensures most { result ≤ 16 }
{
    match kind {
        Kind::Ar => 16,
        Kind::File(file) => match desc.files.get(file as usize) {
            Some(file) => file.depth,
            None => 0,
        },
        Kind::Range(range) => match desc.ranges.get(range as usize) {
            Some(range) => range.count,
            None => 0,
        },
        Kind::State(_) | Kind::InQueue(_) | Kind::OutQueue(_) => 0,
    }
}

/// The value of a range whose number is `number`.
pub fn range_value(desc: &Desc, range: u8, number: u8) -> i32
    requires { number < operands.limit desc.now (Kind.Range range) }
    ensures { result ≡ operands.range_value (slice_get desc.now.ranges range) number }
{
    match desc.ranges.get(range as usize) {
        Some(range) => value_of(range, number),
        None => 0,
    }
}

fn value_of(range: &RangeDecl, number: u8) -> i32
    requires range { IsRange range.now }
    requires number { number < range.now.count }
    ensures { result ≡ range.now.low +ℤ pos (range.now.step * number) }
{
    let above = u64::from(range.step) * u64::from(number);
    (i64::from(range.low) + above as i64) as i32
}

fn core_access(writes: bool, late: bool) -> Access
    ensures { result ≡ record { kind = Kind.Ar; reads = not writes; writes = writes; use_m = false; def_m = late } }
{
    Access {
        kind: Kind::Ar,
        reads: !writes,
        writes,
        use_m: false,
        def_m: late,
    }
}

/// The arguments of a code, in the order of its fields.
pub fn args_of(desc: &Desc, code: Code) -> ArrayVec<Access, 3>
    ensures { result.items ≡ slots.args_of desc.now code }
{
    match code {
        Code::Core(core) => core_args(core),
        Code::Op(op) => match desc.ops.get(op as usize) {
            None => ArrayVec::new(),
            Some(op) => accesses(op.args.as_slice()),
        },
    }
}

fn core_args(core: SlotCore) -> ArrayVec<Access, 3>
    ensures { result.items ≡ slots.core_args core }
{
    let mut args = ArrayVec::new();
    match core {
        SlotCore::Nop => {}
        _ => {
            args.push(core_access(true, matches!(core, SlotCore::Mull)));
            args.push(core_access(false, false));
            args.push(core_access(false, false));
        }
    }
    args
}

fn access(operand: &Operand) -> Access
    ensures { result ≡ slots.access operand.now }
{
    Access {
        kind: operand.kind,
        reads: operand.reads,
        writes: operand.writes,
        use_m: operand.use_m,
        def_m: operand.def_m,
    }
}

fn accesses(operands: &[Operand]) -> ArrayVec<Access, 3>
    requires { length operands.now ≤ 3 }
    ensures { result.items ≡ map slots.access operands.now }
{
    let mut args = ArrayVec::new();
    for operand in operands {
        args.push(access(operand));
    }
    args
}

/// The states and queues that a code always uses.
pub fn links_of(desc: &Desc, code: Code) -> &[Operand]
    ensures { result.now ≡ slots.links_of desc.now code }
{
    match code {
        Code::Core(_) => &[],
        Code::Op(op) => match desc.ops.get(op as usize) {
            None => &[],
            Some(op) => op.links.as_slice(),
        },
    }
}

/// Whether two places are one.
pub fn same_spot(a: Spot, b: Spot) -> bool
    ensures { result ≡ spots.same_spot a b }
{
    match (a, b) {
        (Spot::Ar(a), Spot::Ar(b)) => a == b,
        (Spot::Sar, Spot::Sar) => true,
        (Spot::State(a), Spot::State(b)) => a == b,
        (Spot::File(f, a), Spot::File(g, b)) => f == g && a == b,
        (Spot::In(a), Spot::In(b)) => a == b,
        (Spot::Out(a), Spot::Out(b)) => a == b,
        _ => false,
    }
}
