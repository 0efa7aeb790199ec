//! The bytes of bundles.

ghost use Rattle.std.specs.Prelude.{◌≡◌, ◌≤◌, ◌++◌, map, OnOk, length, Some};
ghost use Rattle.tie_desc.specs.Spelling.{HasSpelling, spell};
ghost use Rattle.xt_asm.specs.Bytes as spec;

use arrayvec::ArrayVec;
use asm_lines::Operation;
use asm_rules::{code_in, fields};
use std::alloc::AllocError;
use tie_desc::{Bundle, Code, Desc, Part, SlotCore};
use tie_flix::encode_bundle;

/// An operation with its fields.
pub fn part_of(desc: &Desc, operation: &Operation) -> Part
    ensures { result ≡ spec.part_of desc.now operation.now }
{
    let code = match code_in(operation) {
        None => Code::Core(SlotCore::Nop),
        Some(code) => code,
    };
    Part {
        code,
        fields: fields(desc, code, operation.operands.as_slice()),
    }
}

/// The operations of a format with their fields.
pub fn parts_of(desc: &Desc, operations: &[Operation]) -> ArrayVec<Part, 4>
    requires { length operations.now ≤ 4 }
    ensures { result.items ≡ map (spec.part_of desc.now) operations.now }
{
    let mut parts = ArrayVec::new();
    for operation in operations {
        parts.push(part_of(desc, operation));
    }
    parts
}

pub fn push_all(bytes: &[u8], out: &mut Vec<u8>) -> Result<(), AllocError>
    ensures { OnOk result (out.new.items ≡ out.old.items ++ bytes.now) }
{
    for byte in bytes {
        out.push(*byte)?;
    }
    Ok(())
}

/// Adds the bytes of a bundle that has a spelling.
pub fn push_bundle(desc: &Desc, bundle: &Bundle, out: &mut Vec<u8>) -> Result<(), AllocError>
    requires { HasSpelling desc.now bundle.now }
    ensures { OnOk result (out.new.items ≡ out.old.items ++ spell desc.now bundle.now) }
{
    match encode_bundle(desc, bundle) {
        Ok(bytes) => push_all(bytes.as_slice(), out),
        Err(_) => unreachable!(),
    }
}
