//! The bytes of statements.

ghost use Rattle.std.specs.Prelude.{◌≡◌, ◌++◌, OnOk, replicate, map, Some};
ghost use Rattle.std.specs.List.{flat_map};
ghost use Rattle.std.specs.HashMap.{get_by_text};
ghost use Rattle.asm_rules.specs.Labels as layout;
ghost use Rattle.tie_desc.specs.Spelling.{wide_bytes};
ghost use Rattle.xt_asm.specs.Bytes as spec;
ghost use Rattle.xt_asm.specs.Spelled as spelled;

use crate::bundles::{part_of, parts_of, push_all, push_bundle};
use crate::values::{number_or_zero, values, word_code};
use asm_lines::{Operand, Operation, Operator, Statement};
use asm_rules::{Labels, alignment, filling};
use std::alloc::AllocError;
use tie_desc::{Bundle, Desc};
use xt_mnemonics::{Mnemonic, build, words_fit};

fn push_zeros(count: u32, out: &mut Vec<u8>) -> Result<(), AllocError>
    ensures { OnOk result (out.new.items ≡ out.old.items ++ replicate count 0) }
{
    for zero in 0..count {
        out.push(0)?;
    }
    Ok(())
}

fn push_value(desc: &Desc, size: u8, operand: &Operand, out: &mut Vec<u8>) -> Result<(), AllocError>
    requires { spelled.AcceptsValue desc.now size operand.now }
    ensures { OnOk result (out.new.items ≡ out.old.items ++ spec.value_bytes size operand.now) }
{
    let number = number_or_zero(operand);
    if size == 1 {
        push_all(&[number as u8], out)
    } else {
        push_all(&word_code(number).to_le_bytes(), out)
    }
}

fn push_values(
    desc: &Desc,
    size: u8,
    values: &[Operand],
    out: &mut Vec<u8>,
) -> Result<(), AllocError>
    requires { spelled.AreValues desc.now size values.now }
    ensures { OnOk result (out.new.items ≡ out.old.items ++ flat_map (spec.value_bytes size) values.now) }
{
    for operand in values {
        push_value(desc, size, operand, out)?;
    }
    Ok(())
}

fn push_core(
    desc: &Desc,
    labels: &Labels,
    addresses: &[u32],
    at: u32,
    mnemonic: Mnemonic,
    operation: &Operation,
    out: &mut Vec<u8>,
) -> Result<(), AllocError>
    requires { spelled.HasAlone desc.now (layout.find_in addresses.now (λ q. get_by_text labels.now q)) at (Some (Operator.Core mnemonic)) operation.now }
    ensures { OnOk result (out.new.items ≡ out.old.items ++ spec.alone_bytes desc.now (layout.find_in addresses.now (λ q. get_by_text labels.now q)) at (Some (Operator.Core mnemonic)) operation.now) }
{
    let operator = Operator::Core(mnemonic);
    let operands = operation.operands.as_slice();
    let inst = build(
        mnemonic,
        values(desc, labels, addresses, at, operator, operands),
    );
    words_fit();
    push_bundle(desc, &Bundle::Core(inst), out)
}

fn push_alone(
    desc: &Desc,
    labels: &Labels,
    addresses: &[u32],
    at: u32,
    operation: &Operation,
    out: &mut Vec<u8>,
) -> Result<(), AllocError>
    requires { spelled.HasAlone desc.now (layout.find_in addresses.now (λ q. get_by_text labels.now q)) at operation.now.operator operation.now }
    ensures { OnOk result (out.new.items ≡ out.old.items ++ spec.alone_bytes desc.now (layout.find_in addresses.now (λ q. get_by_text labels.now q)) at operation.now.operator operation.now) }
{
    match operation.operator {
        None => Ok(()),
        Some(Operator::Core(mnemonic)) => {
            push_core(desc, labels, addresses, at, mnemonic, operation, out)
        }
        Some(Operator::Op(_)) => push_bundle(desc, &Bundle::One(part_of(desc, operation)), out),
    }
}

fn push_wide(
    desc: &Desc,
    format: Option<u8>,
    operations: &[Operation],
    out: &mut Vec<u8>,
) -> Result<(), AllocError>
    requires { spelled.HasFormat desc.now format operations.now }
    ensures { OnOk result (out.new.items ≡ out.old.items ++ wide_bytes desc.now (layout.format_at desc.now format) (map (spec.part_of desc.now) operations.now)) }
{
    match format {
        None => Ok(()),
        Some(format) => {
            desc.facts();
            let parts = parts_of(desc, operations);
            push_bundle(desc, &Bundle::Wide { format, parts }, out)
        }
    }
}

/// Adds the bytes of a statement that has some.
pub fn push_statement(
    desc: &Desc,
    labels: &Labels,
    addresses: &[u32],
    at: u32,
    statement: &Statement,
    out: &mut Vec<u8>,
) -> Result<(), AllocError>
    requires { spelled.HasBytes desc.now (layout.find_in addresses.now (λ q. get_by_text labels.now q)) at statement.now }
    ensures { OnOk result (out.new.items ≡ out.old.items ++ spec.bytes desc.now (layout.find_in addresses.now (λ q. get_by_text labels.now q)) at statement.now) }
{
    match statement {
        Statement::Nothing => Ok(()),
        Statement::Alone(operation) => push_alone(desc, labels, addresses, at, operation, out),
        Statement::Wide {
            format,
            operations,
            ..
        } => push_wide(desc, *format, operations.as_slice(), out),
        Statement::Values { size, values, .. } => {
            push_values(desc, *size, values.as_slice(), out)
        }
        Statement::Align { number, .. } => push_zeros(filling(alignment(*number), at), out),
    }
}
