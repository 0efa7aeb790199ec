//! Formats and their slots.

ghost use Rattle.std.specs.Prelude.{◌≡◌, IfOk, All, Some, position, []};
ghost use Rattle.std.specs.List.{find, flat_map};
ghost use Rattle.std.specs.Str.{bytes_eq};
ghost use Rattle.tie_desc.specs.Invariant.{formats_of_width};
ghost use Rattle.tie_tree_law.specs.Shape.{NamesAreWords};
ghost use Rattle.tie_rules.specs.Declarations as rule;
ghost use Rattle.tie_rules.specs.Schedules.{opcodes, opcodes_of};
ghost use Rattle.tie_describe.specs.Formats as spec;
ghost use Rattle.tie_describe.specs.Scope.{HasWords};

use crate::each::{Make, make_all};
use crate::numbers::{byte, byte_of, name_of};
use std::alloc::Global;
use tie_desc::{Code, FormatDecl, OpDecl, Sequence, SlotCore, SlotDecl};
use tie_grammar::symbol::Leaf;
use tie_grammar::tree::{Decl, Format, Tree};
use tie_mean::NoMemory;

fn is(name: &[u8], word: &[u8]) -> bool
    ensures { result ≡ bytes_eq name.now word.now }
{
    name == word
}

#[tactic(auto, unfolding(crate::specs::Formats::core_named))]
/// The sum or difference of a name, or another core operation.
fn core_named(name: &[u8]) -> SlotCore
    ensures { result ≡ spec.core_named name.now }
{
    if is(name, b"ADD") {
        SlotCore::Add
    } else if is(name, b"ADDX2") {
        SlotCore::Addx2
    } else if is(name, b"ADDX4") {
        SlotCore::Addx4
    } else if is(name, b"ADDX8") {
        SlotCore::Addx8
    } else if is(name, b"SUB") {
        SlotCore::Sub
    } else if is(name, b"SUBX2") {
        SlotCore::Subx2
    } else if is(name, b"SUBX4") {
        SlotCore::Subx4
    } else if is(name, b"SUBX8") {
        SlotCore::Subx8
    } else {
        other_core(name)
    }
}

#[tactic(auto, unfolding(crate::specs::Formats::other_core))]
/// A core operation beside sums and differences.
fn other_core(name: &[u8]) -> SlotCore
    ensures { result ≡ spec.other_core name.now }
{
    if is(name, b"AND") {
        SlotCore::And
    } else if is(name, b"OR") {
        SlotCore::Or
    } else if is(name, b"XOR") {
        SlotCore::Xor
    } else if is(name, b"MIN") {
        SlotCore::Min
    } else if is(name, b"MAX") {
        SlotCore::Max
    } else if is(name, b"MINU") {
        SlotCore::Minu
    } else if is(name, b"MAXU") {
        SlotCore::Maxu
    } else if is(name, b"MULL") {
        SlotCore::Mull
    } else {
        SlotCore::Nop
    }
}

fn op_place(ops: &[OpDecl], name: &[u8]) -> Option<usize>
    ensures { result ≡ position (λ op. bytes_eq op.name name.now) ops.now }
{
    ops.iter().position(|op| op.name.is(name))
}

/// The operation of a name, else the core operation.
fn code_of(ops: &[OpDecl], leaf: &Leaf) -> Code
    ensures { result ≡ spec.code_of ops.now leaf.now }
{
    let name = leaf.bytes.as_slice();
    match op_place(ops, name) {
        Some(op) => Code::Op(byte(op)),
        None => Code::Core(core_named(name)),
    }
}

#[derive(Clone, Copy)]
struct Codes<'t> {
    ops: &'t [OpDecl],
}

impl Make<Leaf, Code> for Codes<'_> {
    ghost use Rattle.tie_describe.specs.Formats.{code_of};

    ghost fits = { λ _ leaf. Unit {0} };

    ghost made = { λ s leaf. code_of s.ops.now leaf };

    fn make(&self, leaf: &Leaf) -> Result<Code, NoMemory> {
        Ok(code_of(self.ops, leaf))
    }
}

/// They are the opcodes of a slot.
fn gives_opcodes(decl: &Decl, slot: &Leaf) -> bool
    ensures { result ≡ rule.gives_opcodes slot.now.bytes decl.now }
{
    match decl {
        Decl::SlotOpcodes(x) => is(x.slot.bytes.as_slice(), slot.bytes.as_slice()),
        _ => false,
    }
}

fn opcodes_of(decl: &Decl) -> &[Leaf]
    ensures { result.now ≡ opcodes_of (Some decl.now) }
{
    match decl {
        Decl::SlotOpcodes(x) => x.opcodes.as_slice(),
        _ => &[],
    }
}

/// The names that a slot lists.
fn opcodes_among<'t>(decls: &'t [Decl], slot: &Leaf) -> &'t [Leaf]
    ensures { result.now ≡ opcodes_of (find (rule.gives_opcodes slot.now.bytes) decls.now) }
{
    for decl in decls {
        if gives_opcodes(decl, slot) {
            return opcodes_of(decl);
        }
    }
    &[]
}

#[derive(Clone, Copy)]
struct Slots<'t> {
    alloc: Global,
    tree: &'t Tree,
    ops: &'t [OpDecl],
}

impl Make<Leaf, SlotDecl> for Slots<'_> {
    ghost use Rattle.std.specs.Prelude.{IsTrue};
    ghost use Rattle.tie_desc.specs.Names.{is_word};
    ghost use Rattle.tie_describe.specs.Formats.{slot};

    ghost fits = { λ _ leaf. IsTrue (is_word leaf.bytes) };

    ghost made = { λ s leaf. slot s.tree.now s.ops.now leaf };

    fn make(&self, leaf: &Leaf) -> Result<SlotDecl, NoMemory> {
        let listed = opcodes_among(self.tree.declarations.as_slice(), leaf);
        let codes = make_all(self.alloc, &Codes { ops: self.ops }, listed)?;
        Ok(SlotDecl {
            name: name_of(leaf),
            codes: Sequence::from_vec(codes),
        })
    }
}

/// How many formats have a width.
fn count_of_width(width: u8, formats: &[FormatDecl]) -> usize
    ensures { result ≡ formats_of_width width formats.now }
{
    let mut n = 0;
    for format in formats {
        if format.width == width {
            n += 1;
        }
    }
    n
}

/// One format, behind others.
fn format(
    alloc: Global,
    tree: &Tree,
    ops: &[OpDecl],
    before: &[FormatDecl],
    x: &Format,
) -> Result<FormatDecl, NoMemory>
    requires { HasWords (Decl.Format x.now) }
    ensures { IfOk result (λ f. f ≡ spec.format tree.now ops.now before.now x.now) }
{
    let width = byte_of(&x.width);
    let slots = make_all(alloc, &Slots { alloc, tree, ops }, x.slots.as_slice())?;
    Ok(FormatDecl {
        name: name_of(&x.name),
        width,
        number: byte(count_of_width(width, before)),
        slots: Sequence::from_vec(slots),
    })
}

fn formats_among(
    alloc: Global,
    tree: &Tree,
    ops: &[OpDecl],
    decls: &[Decl],
) -> Result<Vec<FormatDecl>, NoMemory>
    requires { All HasWords decls.now }
    ensures { IfOk result (λ v. v.items ≡ spec.formats_behind tree.now ops.now [] (flat_map spec.format_of decls.now)) }
{
    let mut formats = Vec::new(alloc);
    for decl in decls {
        if let Decl::Format(x) = decl {
            let format = format(alloc, tree, ops, formats.as_slice(), x)?;
            formats.push(format)?;
        }
    }
    Ok(formats)
}

/// The formats of a text.
pub fn formats(alloc: Global, tree: &Tree, ops: &[OpDecl]) -> Result<Vec<FormatDecl>, NoMemory>
    requires { NamesAreWords tree.now }
    ensures { IfOk result (λ v. v.items ≡ spec.formats tree.now ops.now) }
{
    formats_among(alloc, tree, ops, tree.declarations.as_slice())
}
