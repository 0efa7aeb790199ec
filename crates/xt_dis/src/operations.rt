//! Operations, alone and in formats.

ghost use Rattle.std.specs.Prelude.{◌≡◌, ◌++◌, ◌<◌, ◌≤◌, map, codes, length, slice_get, OnOk, IsTrue};
ghost use Rattle.std.specs.List.{list_all};
ghost use Rattle.tie_desc.specs.Operands.{limit};
ghost use Rattle.tie_desc.specs.Spelling.{part_fits, fields_fit, HasWide};
ghost use Rattle.xt_dis.specs.Words.{joined};
ghost use Rattle.xt_dis.specs.Operands as operands;
ghost use Rattle.xt_dis.specs.Listing as listing;

use crate::text::{push, push_number, push_register};
use tie_desc::{Access, Code, Desc, Kind, Part, SlotCore, args_of, range_value};
use tie_flix::NoMemory;
use xt_mnemonics::{Mnemonic, name_of};

fn slot_mnemonic(core: SlotCore) -> Mnemonic
    ensures { result ≡ listing.slot_mnemonic core }
{
    match core {
        SlotCore::Add => Mnemonic::Add,
        SlotCore::Addx2 => Mnemonic::Addx2,
        SlotCore::Addx4 => Mnemonic::Addx4,
        SlotCore::Addx8 => Mnemonic::Addx8,
        SlotCore::Sub => Mnemonic::Sub,
        SlotCore::Subx2 => Mnemonic::Subx2,
        SlotCore::Subx4 => Mnemonic::Subx4,
        SlotCore::Subx8 => Mnemonic::Subx8,
        SlotCore::And => Mnemonic::And,
        SlotCore::Or => Mnemonic::Or,
        SlotCore::Xor => Mnemonic::Xor,
        SlotCore::Min => Mnemonic::Min,
        SlotCore::Max => Mnemonic::Max,
        SlotCore::Minu => Mnemonic::Minu,
        SlotCore::Maxu => Mnemonic::Maxu,
        SlotCore::Mull => Mnemonic::Mull,
        SlotCore::Nop => Mnemonic::Nop,
    }
}

fn code_name(desc: &Desc, code: Code) -> &[u8]
    ensures { result.now ≡ listing.code_name desc.now code }
{
    match code {
        Code::Core(core) => name_of(slot_mnemonic(core)),
        Code::Op(op) => match desc.ops.get(op as usize) {
            Some(op) => op.name.as_bytes(),
            None => &[],
        },
    }
}

/// What assembly writes before the number of a register of a file.
fn short_of(desc: &Desc, file: u8) -> &[u8]
    ensures { result.now ≡ operands.short_of (slice_get desc.now.files file) }
{
    match desc.files.get(file as usize) {
        Some(file) => file.short.as_bytes(),
        None => &[],
    }
}

fn push_argument(text: &mut Vec<u8>, desc: &Desc, kind: Kind, number: u8) -> Result<(), NoMemory>
    requires { number < limit desc.now kind }
    ensures { OnOk result (text.new.items ≡ text.old.items ++ operands.argument desc.now kind number) }
{
    match kind {
        Kind::Ar => push_register(text, b"a", number),
        Kind::File(file) => push_register(text, short_of(desc, file), number),
        Kind::Range(range) => push_number(text, range_value(desc, range, number)),
        _ => Ok(()),
    }
}

/// Arguments, with a text before the first one and commas between them.
#[tactic(auto, using(std::proofs::Common::append_assoc))]
fn push_arguments(
    text: &mut Vec<u8>,
    before: &[u8],
    desc: &Desc,
    args: &[Access],
    fields: &[u8],
) -> Result<(), NoMemory>
    requires { IsTrue (fields_fit desc.now args.now fields.now) }
    ensures { OnOk result (text.new.items ≡ text.old.items ++ joined before.now (codes ", ") (operands.arguments desc.now args.now fields.now)) }
{
    match args {
        [] => Ok(()),
        [arg, other_args @ ..] => match fields {
            [] => Ok(()),
            [field, other_fields @ ..] => {
                push(text, before)?;
                push_argument(text, desc, arg.kind, *field)?;
                push_arguments(text, b", ", desc, other_args, other_fields)
            }
        },
    }
}

/// An operation and its arguments.
#[tactic(auto, using(std::proofs::Common::append_assoc))]
pub fn push_part(text: &mut Vec<u8>, desc: &Desc, part: &Part) -> Result<(), NoMemory>
    requires { IsTrue (part_fits desc.now part.now) }
    ensures { OnOk result (text.new.items ≡ text.old.items ++ listing.part_text desc.now part.now) }
{
    push(text, code_name(desc, part.code))?;
    let args = args_of(desc, part.code);
    push_arguments(text, b" ", desc, args.as_slice(), &part.fields)
}

/// Parts, with a text before the first one and semicolons between them.
#[tactic(auto, using(std::proofs::Common::append_assoc))]
fn push_parts(
    text: &mut Vec<u8>,
    before: &[u8],
    desc: &Desc,
    parts: &[Part],
) -> Result<(), NoMemory>
    requires { IsTrue (list_all (part_fits desc.now) parts.now) }
    ensures { OnOk result (text.new.items ≡ text.old.items ++ joined before.now (codes " ; ") (map (listing.part_text desc.now) parts.now)) }
{
    match parts {
        [] => Ok(()),
        [part, others @ ..] => {
            push(text, before)?;
            push_part(text, desc, part)?;
            push_parts(text, b" ; ", desc, others)
        }
    }
}

fn format_name(desc: &Desc, format: u8) -> &[u8]
    ensures { result.now ≡ listing.format_name (slice_get desc.now.formats format) }
{
    match desc.formats.get(format as usize) {
        Some(format) => format.name.as_bytes(),
        None => &[],
    }
}

/// The format of a number, with its parts in braces.
#[tactic(auto, using(std::proofs::Common::append_assoc))]
pub fn push_wide(
    text: &mut Vec<u8>,
    desc: &Desc,
    format: u8,
    parts: &[Part],
) -> Result<(), NoMemory>
    requires { HasWide desc.now (slice_get desc.now.formats format) parts.now }
    ensures { OnOk result (text.new.items ≡ text.old.items ++ listing.wide_text desc.now (slice_get desc.now.formats format) parts.now) }
{
    push(text, format_name(desc, format))?;
    push_parts(text, b" { ", desc, parts)?;
    push(text, b" }")
}
