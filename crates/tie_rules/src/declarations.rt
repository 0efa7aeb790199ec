//! Rules 1, 2, 5 to 12 and 14: declarations.

ghost use Rattle.std.specs.Prelude.{◌≡◌, ◌==◌, ◌≤◌, ◌<◌, nat_lt, nat_le, not, IfOk, option_copied, length, List};
ghost use Rattle.std.specs.List.{list_any, list_all};
ghost use Rattle.tie_mean.specs.Sizes.{bounded};
ghost use Rattle.tie_mean.specs.Literals.{is_width};
ghost use Rattle.tie_rules.specs.Least as spec;
ghost use Rattle.tie_rules.specs.Declarations as rule;
ghost use Rattle.tie_rules.specs.NameSets as met;

use crate::again::{JudgeAgain, least_again};
use crate::each::{Judge, JudgeBehind, Test, least_behind, least_in, some};
use crate::least::{earlier, when};
use crate::mnemonics::{is_core_mnemonic, is_slot_core};
use crate::names::{Sort, body, declared_name, has, is_operation, is_text, listed, short_of};
use crate::parts::least_over;
use std::alloc::Global;
use tie_grammar::symbol::Leaf;
use tie_grammar::tree::{Decl, Expr, Int, Item, Literal, Parameter, Range, Tree};
use tie_mean::NoMemory;
use tie_mean::literal::{literal_fits, literal_sound, number};

/// A number of the text, 2^128 - 1 where it is greater.
pub fn value(leaf: &Leaf) -> u128
    ensures { result ≡ bounded leaf.now }
{
    number(leaf.bytes.as_slice())
}

pub fn at_name(name: Option<&Leaf>, broken: bool) -> Option<u32>
    ensures { result ≡ spec.least (rule.at_name (option_copied name.entry) broken) }
{
    match name {
        Some(leaf) => when(broken, leaf.place),
        None => None,
    }
}

// ---- 1

fn is_reserved(decl: &Decl, leaf: &Leaf) -> bool
    ensures { result ≡ rule.is_reserved decl.now leaf.now }
{
    is_text(leaf, b"AR") || (is_operation(decl) && is_core_mnemonic(leaf.bytes.as_slice()))
}

fn doubled_by(again: bool, decl: &Decl, name: Option<&Leaf>) -> Option<u32>
    ensures { result ≡ spec.least (met.doubled_by again decl.now (option_copied name.entry)) }
{
    match name {
        Some(leaf) => when(again || is_reserved(decl, leaf), leaf.place),
        None => None,
    }
}

#[derive(Clone, Copy)]
struct DoubledAt;

impl JudgeAgain<Decl> for DoubledAt {
    ghost use Rattle.tie_rules.specs.Names.{declared_name};
    ghost use Rattle.tie_rules.specs.NameSets.{doubled_here};

    ghost name = { λ _. declared_name };

    ghost places = { λ _. doubled_here };

    fn name_of<'t>(&self, decl: &'t Decl) -> Option<&'t Leaf> {
        declared_name(decl)
    }

    fn judge(&self, again: bool, decl: &Decl) -> Option<u32> {
        doubled_by(again, decl, declared_name(decl))
    }
}

pub fn doubled(alloc: Global, tree: &Tree) -> Result<Option<u32>, NoMemory>
    ensures { IfOk result (λ place. place ≡ spec.least (rule.doubled tree.now)) }
{
    least_again(alloc, &DoubledAt, tree.declarations.as_slice())
}

// ---- 2

/// A byte that is a letter.
#[derive(Clone, Copy)]
struct OtherByte;

impl Test<u8> for OtherByte {
    ghost use Rattle.tie_rules.specs.Declarations.{is_other_byte};

    ghost holds = { λ _. is_other_byte };

    fn holds_of(&self, byte: &u8) -> bool {
        !byte.is_ascii_alphabetic()
    }
}

fn short_by(again: bool, name: Option<&Leaf>) -> Option<u32>
    ensures { result ≡ spec.least (met.short_by again (option_copied name.entry)) }
{
    match name {
        Some(short) => {
            let other = some(&OtherByte, short.bytes.as_slice()) || is_text(short, b"a");
            when(other || again, short.place)
        }
        None => None,
    }
}

#[derive(Clone, Copy)]
struct ShortName;

impl JudgeAgain<Decl> for ShortName {
    ghost use Rattle.tie_rules.specs.Declarations.{short_of};
    ghost use Rattle.tie_rules.specs.NameSets.{short_here};

    ghost name = { λ _. short_of };

    ghost places = { λ _. short_here };

    fn name_of<'t>(&self, decl: &'t Decl) -> Option<&'t Leaf> {
        short_of(decl)
    }

    fn judge(&self, again: bool, decl: &Decl) -> Option<u32> {
        short_by(again, short_of(decl))
    }
}

pub fn short_name(alloc: Global, tree: &Tree) -> Result<Option<u32>, NoMemory>
    ensures { IfOk result (λ place. place ≡ spec.least (rule.short_name tree.now)) }
{
    least_again(alloc, &ShortName, tree.declarations.as_slice())
}

// ---- 5

#[derive(Clone, Copy)]
struct TooManyArgs;

impl Judge<Decl> for TooManyArgs {
    ghost use Rattle.tie_rules.specs.Declarations.{too_many_args_at};

    ghost places = { λ _. too_many_args_at };

    fn judge(&self, decl: &Decl) -> Option<u32> {
        match decl {
            Decl::Function(x) => when(x.parameters.len() > 8, x.name.place),
            Decl::Operation(x) => { when(x.arguments.len() > 3 || x.links.len() > 8, x.name.place) }
            _ => None,
        }
    }
}

pub fn too_many_args(tree: &Tree) -> Option<u32>
    ensures { result ≡ spec.least (rule.too_many_args tree.now) }
{
    least_in(&TooManyArgs, tree.declarations.as_slice())
}

// ---- 6

fn is_sound_width(width: u128) -> bool
    ensures { result ≡ is_width width }
{
    0 < width && width <= 128
}

fn bad_width(leaf: &Leaf) -> Option<u32>
    ensures { result ≡ spec.least (rule.bad_width leaf.now) }
{
    when(!is_sound_width(value(leaf)), leaf.place)
}

fn bad_range(range: &Option<Range>) -> Option<u32>
    ensures { result ≡ spec.least (rule.bad_range range.now) }
{
    match range {
        Some(range) => when(value(&range.high) >= 128, range.high.place),
        None => None,
    }
}

#[derive(Clone, Copy)]
struct ParameterWidth;

impl Judge<Parameter> for ParameterWidth {
    ghost use Rattle.tie_rules.specs.Declarations.{parameter_width};

    ghost places = { λ _. parameter_width };

    fn judge(&self, x: &Parameter) -> Option<u32> {
        bad_range(&x.range)
    }
}

#[derive(Clone, Copy)]
struct WireWidth;

impl Judge<Item> for WireWidth {
    ghost use Rattle.tie_rules.specs.Declarations.{wire_width};

    ghost places = { λ _. wire_width };

    fn judge(&self, item: &Item) -> Option<u32> {
        match item {
            Item::Wire(range, _) => bad_range(range),
            Item::WireSet(range, _, _) => bad_range(range),
            Item::Assign(_, _) => None,
        }
    }
}

#[derive(Clone, Copy)]
struct WidthRange;

#[tactic(auto, using(crate::proofs::Places::places))]
impl Judge<Decl> for WidthRange {
    ghost use Rattle.tie_rules.specs.Declarations.{width_range_at};

    ghost places = { λ _. width_range_at };

    fn judge(&self, decl: &Decl) -> Option<u32> {
        match decl {
            Decl::State(x) => bad_width(&x.width),
            Decl::Regfile(x) => bad_width(&x.width),
            Decl::QueueIn(x) => bad_width(&x.width),
            Decl::QueueOut(x) => bad_width(&x.width),
            Decl::Table(x) => bad_width(&x.width),
            Decl::Function(x) => {
                let parameters = least_in(&ParameterWidth, x.parameters.as_slice());
                let wires = least_in(&WireWidth, x.items.as_slice());
                earlier(bad_range(&x.range), earlier(parameters, wires))
            }
            Decl::Operation(x) => least_in(&WireWidth, x.items.as_slice()),
            _ => None,
        }
    }
}

pub fn width_range(tree: &Tree) -> Option<u32>
    ensures { result ≡ spec.least (rule.width_range tree.now) }
{
    least_in(&WidthRange, tree.declarations.as_slice())
}

// ---- 7

fn bad_depth(limit: u128, leaf: &Leaf) -> Option<u32>
    ensures { result ≡ spec.least (rule.bad_depth limit leaf.now) }
{
    let depth = value(leaf);
    when(!(0 < depth && depth <= limit), leaf.place)
}

#[derive(Clone, Copy)]
struct DepthRange;

impl Judge<Decl> for DepthRange {
    ghost use Rattle.tie_rules.specs.Declarations.{depth_range_at};

    ghost places = { λ _. depth_range_at };

    fn judge(&self, decl: &Decl) -> Option<u32> {
        match decl {
            Decl::Regfile(x) => bad_depth(16, &x.depth),
            Decl::Table(x) => bad_depth(256, &x.depth),
            _ => None,
        }
    }
}

pub fn depth_range(tree: &Tree) -> Option<u32>
    ensures { result ≡ spec.least (rule.depth_range tree.now) }
{
    least_in(&DepthRange, tree.declarations.as_slice())
}

// ---- 8

fn literal_place(x: &Literal) -> u32
    ensures { result ≡ rule.literal_place x.now }
{
    match x {
        Literal::Number(leaf) => leaf.place,
        Literal::Sized(leaf) => leaf.place,
    }
}

fn fits_itself(x: &Literal) -> bool
    ensures { result ≡ rule.fits_itself x.now }
{
    match x {
        Literal::Number(_) => true,
        Literal::Sized(_) => literal_sound(x),
    }
}

fn bad_value(width: u128, x: &Literal) -> Option<u32>
    ensures { result ≡ spec.least (rule.bad_value width x.now) }
{
    if is_sound_width(width) {
        when(
            !(fits_itself(x) && literal_fits(x, width as u8)),
            literal_place(x),
        )
    } else {
        None
    }
}

fn bad_reset(width: u128, reset: &Option<Literal>) -> Option<u32>
    ensures { result ≡ spec.least (rule.bad_reset width reset.now) }
{
    match reset {
        Some(x) => bad_value(width, x),
        None => None,
    }
}

fn large_number(leaf: &Leaf) -> Option<u32>
    ensures { result ≡ spec.least (rule.large_number leaf.now) }
{
    when(value(leaf) >= 4294967296, leaf.place)
}

#[derive(Clone, Copy)]
struct LiteralHere;

#[tactic(auto, using(crate::proofs::Places::places))]
impl Judge<Expr> for LiteralHere {
    ghost use Rattle.tie_rules.specs.Declarations.{literal_here};

    ghost places = { λ _. literal_here };

    fn judge(&self, x: &Expr) -> Option<u32> {
        match x {
            Expr::Literal(literal) => when(!literal_sound(literal), literal_place(literal)),
            Expr::Select(_, high, low) => earlier(large_number(high), large_number(low)),
            Expr::Repeat(_, count, _, _) => large_number(count),
            _ => None,
        }
    }
}

/// A rule at the parts of what items assign.
#[derive(Clone, Copy)]
pub struct InItems<'a, R> {
    pub rule: &'a R,
}

impl<R: Judge<Expr>> Judge<Item> for InItems<'_, R> {
    ghost use Rattle.tie_rules.specs.Declarations.{in_item};

    ghost places = { λ s. in_item (R.places s.rule.now) };

    fn judge(&self, item: &Item) -> Option<u32> {
        match item {
            Item::Wire(_, _) => None,
            Item::WireSet(_, _, x) => least_over(self.rule, x),
            Item::Assign(_, x) => least_over(self.rule, x),
        }
    }
}

/// The least place at which a part of what a body assigns breaks a rule.
pub fn least_in_body<R: Judge<Expr>>(test: &R, decl: &Decl) -> Option<u32>
    ensures { result ≡ spec.least (rule.in_body (R.places test.now) decl.now) }
{
    least_in(&InItems { rule: test }, body(decl))
}

#[derive(Clone, Copy)]
struct BadValue {
    width: u128,
}

impl Judge<Literal> for BadValue {
    ghost use Rattle.tie_rules.specs.Declarations.{bad_value};

    ghost places = { λ s. bad_value s.width };

    fn judge(&self, x: &Literal) -> Option<u32> {
        bad_value(self.width, x)
    }
}

fn bad_values(decl: &Decl) -> Option<u32>
    ensures { result ≡ spec.least (rule.bad_values_at decl.now) }
{
    match decl {
        Decl::State(x) => bad_reset(value(&x.width), &x.reset),
        Decl::Table(x) => {
            let width = value(&x.width);
            least_in(&BadValue { width }, x.entries.as_slice())
        }
        _ => None,
    }
}

#[derive(Clone, Copy)]
struct LiteralRange;

#[tactic(auto, using(crate::proofs::Places::places))]
impl Judge<Decl> for LiteralRange {
    ghost use Rattle.tie_rules.specs.Declarations.{literal_range_at};

    ghost places = { λ _. literal_range_at };

    fn judge(&self, decl: &Decl) -> Option<u32> {
        earlier(bad_values(decl), least_in_body(&LiteralHere, decl))
    }
}

pub fn literal_range(tree: &Tree) -> Option<u32>
    ensures { result ≡ spec.least (rule.literal_range tree.now) }
{
    least_in(&LiteralRange, tree.declarations.as_slice())
}

// ---- 9

#[derive(Clone, Copy)]
struct TableCount;

impl Judge<Decl> for TableCount {
    ghost use Rattle.tie_rules.specs.Declarations.{table_count_at};

    ghost places = { λ _. table_count_at };

    fn judge(&self, decl: &Decl) -> Option<u32> {
        match decl {
            Decl::Table(x) => when(x.entries.len() as u128 != value(&x.depth), x.name.place),
            _ => None,
        }
    }
}

pub fn table_count(tree: &Tree) -> Option<u32>
    ensures { result ≡ spec.least (rule.table_count tree.now) }
{
    least_in(&TableCount, tree.declarations.as_slice())
}

// ---- 10

fn above(minus: Option<u32>, n: u128) -> Option<u128>
    ensures { result ≡ rule.above minus n }
{
    match minus {
        None => {
            if n < 2147483648 {
                Some(2147483648 + n)
            } else {
                None
            }
        }
        Some(_) => {
            if n <= 2147483648 {
                Some(2147483648 - n)
            } else {
                None
            }
        }
    }
}

fn above_lowest(x: &Int) -> Option<u128>
    ensures { result ≡ rule.above_lowest x.now }
{
    above(x.minus, value(&x.number))
}

fn good_steps(low: u128, high: u128, step: u128) -> bool
    ensures { result ≡ rule.good_steps low high step }
{
    if low <= high && 0 < step {
        (step < 4294967296 && (high - low) % step == 0) && (high - low) / step < 16
    } else {
        false
    }
}

fn good_range(low: Option<u128>, high: Option<u128>, step: u128) -> bool
    ensures { result ≡ rule.good_range low high step }
{
    match (low, high) {
        (Some(low), Some(high)) => good_steps(low, high, step),
        _ => false,
    }
}

#[derive(Clone, Copy)]
struct ImmRange;

impl Judge<Decl> for ImmRange {
    ghost use Rattle.tie_rules.specs.Declarations.{imm_range_at};

    ghost places = { λ _. imm_range_at };

    fn judge(&self, decl: &Decl) -> Option<u32> {
        match decl {
            Decl::ImmediateRange(x) => {
                let good = good_range(above_lowest(&x.low), above_lowest(&x.high), value(&x.step));
                when(!good, x.name.place)
            }
            _ => None,
        }
    }
}

pub fn imm_range(tree: &Tree) -> Option<u32>
    ensures { result ≡ spec.least (rule.imm_range tree.now) }
{
    least_in(&ImmRange, tree.declarations.as_slice())
}

// ---- 11

#[derive(Clone, Copy)]
struct FormatWidth;

impl Judge<Decl> for FormatWidth {
    ghost use Rattle.tie_rules.specs.Declarations.{format_width_at};

    ghost places = { λ _. format_width_at };

    fn judge(&self, decl: &Decl) -> Option<u32> {
        match decl {
            Decl::Format(x) => {
                let width = value(&x.width);
                when(!(width == 32 || width == 64), x.width.place)
            }
            _ => None,
        }
    }
}

pub fn format_width(tree: &Tree) -> Option<u32>
    ensures { result ≡ spec.least (rule.format_width tree.now) }
{
    least_in(&FormatWidth, tree.declarations.as_slice())
}

// ---- 12

#[derive(Clone, Copy)]
struct SlotCount;

impl Judge<Decl> for SlotCount {
    ghost use Rattle.tie_rules.specs.Declarations.{slot_count_at};

    ghost places = { λ _. slot_count_at };

    fn judge(&self, decl: &Decl) -> Option<u32> {
        match decl {
            Decl::Format(x) => when(x.slots.len() > 4, x.name.place),
            _ => None,
        }
    }
}

pub fn slot_count(tree: &Tree) -> Option<u32>
    ensures { result ≡ spec.least (rule.slot_count tree.now) }
{
    least_in(&SlotCount, tree.declarations.as_slice())
}

// ---- 14

fn is_code(tree: &Tree, leaf: &Leaf) -> bool
    ensures { result ≡ rule.is_code tree.now leaf.now }
{
    has(tree, Sort::Operation, leaf) || is_slot_core(leaf.bytes.as_slice())
}

#[derive(Clone, Copy)]
struct OpcodeOf<'a> {
    tree: &'a Tree,
}

impl JudgeBehind<Leaf> for OpcodeOf<'_> {
    ghost use Rattle.tie_rules.specs.Declarations.{opcode_at};

    ghost places = { λ s. opcode_at s.tree.now };

    fn judge(&self, before: &[Leaf], leaf: &Leaf) -> Option<u32> {
        let n = before.len();
        let bad = n <= 16 && ((!is_code(self.tree, leaf) || listed(leaf, before)) || n == 16);
        when(bad, leaf.place)
    }
}

#[derive(Clone, Copy)]
struct SlotOpcode<'a> {
    tree: &'a Tree,
}

impl Judge<Decl> for SlotOpcode<'_> {
    ghost use Rattle.tie_rules.specs.Declarations.{slot_opcode_at};

    ghost places = { λ s. slot_opcode_at s.tree.now };

    fn judge(&self, decl: &Decl) -> Option<u32> {
        match decl {
            Decl::SlotOpcodes(x) => least_behind(
                &OpcodeOf { tree: self.tree },
                x.opcodes.as_slice(),
            ),
            _ => None,
        }
    }
}

pub fn slot_opcode(tree: &Tree) -> Option<u32>
    ensures { result ≡ spec.least (rule.slot_opcode tree.now) }
{
    least_in(&SlotOpcode { tree }, tree.declarations.as_slice())
}
