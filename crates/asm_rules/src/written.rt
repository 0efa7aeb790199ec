//! The registers that operations write.

ghost use Rattle.std.specs.Prelude.{◌≡◌, ◌++◌, [], OnOk, IfOk};
ghost use Rattle.std.specs.List.{list_any, flat_map};
ghost use Rattle.std.specs.Option.{option_to_list};
ghost use Rattle.tie_desc.specs.Spots.{same_spot, spot_of};
ghost use Rattle.asm_rules.specs.Slots as spec;

use crate::expected::of_kind;
use crate::meaning::column_of;
use crate::parts::{code_in, field_of};
use asm_lines::{Operand, Operation};
use std::alloc::{AllocError, Global};
use tie_desc::{Access, Desc, Kind, Spot, args_of, same_spot};

/// A register that is written, and the column of the operand that names it.
#[derive(Clone, Copy, Debug, PartialEq, Eq)]
pub struct Written {
    pub spot: Spot,
    pub column: u32,
}

/// What an argument with a number in its field stands for; an immediate is no place.
fn spot_of(kind: Kind, number: u8) -> Option<Spot>
    ensures { option_to_list result ≡ spot_of kind number }
{
    match kind {
        Kind::Ar => Some(Spot::Ar(number)),
        Kind::File(file) => Some(Spot::File(file, number)),
        Kind::Range(_) => None,
        Kind::State(state) => Some(Spot::State(state)),
        Kind::InQueue(queue) => Some(Spot::In(queue)),
        Kind::OutQueue(queue) => Some(Spot::Out(queue)),
    }
}

fn push_written(
    desc: &Desc,
    arg: &Access,
    operand: &Operand,
    out: &mut Vec<Written>,
) -> Result<(), AllocError>
    ensures { OnOk result (out.new.items ≡ out.old.items ++ spec.written_by desc.now arg.now operand.now) }
{
    if arg.writes {
        if let Some(spot) = spot_of(arg.kind, field_of(desc, of_kind(arg.kind), operand)) {
            out.push(Written {
                spot,
                column: column_of(operand),
            })?;
        }
    }
    Ok(())
}

#[tactic(auto, using(crate::proofs::Steps::written_done))]
fn push_args(
    desc: &Desc,
    args: &[Access],
    operands: &[Operand],
    out: &mut Vec<Written>,
) -> Result<(), AllocError>
    ensures { OnOk result (out.new.items ≡ out.old.items ++ spec.written_in desc.now args.now operands.now) }
{
    for (i, operand) in operands.iter().enumerate() {
        match args.get(i) {
            None => return Ok(()),
            Some(arg) => push_written(desc, arg, operand, out)?,
        }
    }
    Ok(())
}

fn push_operation(
    desc: &Desc,
    operation: &Operation,
    out: &mut Vec<Written>,
) -> Result<(), AllocError>
    ensures { OnOk result (out.new.items ≡ out.old.items ++ spec.written desc.now operation.now) }
{
    match code_in(operation) {
        None => Ok(()),
        Some(code) => push_args(
            desc,
            args_of(desc, code).as_slice(),
            operation.operands.as_slice(),
            out,
        ),
    }
}

/// The registers that operations write, in their order.
fn written_all(
    alloc: Global,
    desc: &Desc,
    operations: &[Operation],
) -> Result<Vec<Written>, AllocError>
    ensures { IfOk result (λ found. found.items ≡ flat_map (spec.written desc.now) operations.now) }
{
    let mut out = Vec::new(alloc);
    for operation in operations {
        push_operation(desc, operation, &mut out)?;
    }
    Ok(out)
}

fn has_spot(earlier: &[Written], spot: Spot) -> bool
    ensures { result ≡ list_any (λ e. same_spot e.spot spot) earlier.now }
{
    earlier.iter().any(|w| same_spot(w.spot, spot))
}

fn repeated(written: &[Written]) -> Option<u32>
    ensures { result ≡ spec.repeated [] written.now }
{
    for i in 0..written.len() {
        let next = written[i];
        if has_spot(&written[..i], next.spot) {
            return Some(next.column);
        }
    }
    None
}

/// The column of the first register that operations write again.
pub fn rewritten(
    alloc: Global,
    desc: &Desc,
    operations: &[Operation],
) -> Result<Option<u32>, AllocError>
    ensures { IfOk result (λ found. found ≡ spec.repeated [] (flat_map (spec.written desc.now) operations.now)) }
{
    let written = written_all(alloc, desc, operations)?;
    Ok(repeated(written.as_slice()))
}

/// The same of one operation.
pub fn rewritten_alone(
    alloc: Global,
    desc: &Desc,
    operation: &Operation,
) -> Result<Option<u32>, AllocError>
    ensures { IfOk result (λ found. found ≡ spec.repeated [] (spec.written desc.now operation.now)) }
{
    let mut out = Vec::new(alloc);
    push_operation(desc, operation, &mut out)?;
    Ok(repeated(out.as_slice()))
}
