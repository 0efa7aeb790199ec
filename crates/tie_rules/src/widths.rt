//! The widths of the names that a body sees.

ghost use Rattle.std.specs.Prelude.{◌≡◌, ℕ, ◌+◌, ◌<◌, drop, length, List, map, codes, unwrap_or, IfOk, OnOk};
ghost use Rattle.std.specs.List.{flat_map};
ghost use Rattle.tie_mean.specs.Sizes.{limited, bounded};
ghost use Rattle.tie_mean.specs.Names as names;
ghost use Rattle.tie_mean.specs.Kept.{kept};
ghost use Rattle.tie_rules.specs.Widths as spec;
ghost use Rattle.tie_rules.specs.Names as seen;

use crate::declarations::value;
use crate::names::is_text;
use std::alloc::Global;
use std::collections::BTreeMap;
use tie_grammar::symbol::Leaf;
use tie_grammar::tree::{Argument, Decl, Function, Item, Link, Operation, Parameter, Range, Tree};
use tie_mean::NoMemory;
use tie_mean::kept::{keep_first, kept};
use tie_mean::names::is_named;
use tie_mean::size::Scope;

/// Names that a thing declares, with their widths.
trait Declares<T> {
    ghost use Rattle.std.specs.Prelude.{List};
    ghost use Rattle.tie_mean.specs.Names.{Declared};

    ghost declared: { Self → T → List Declared };

    fn width_of(&self, x: &T, name: &Leaf) -> Option<u64>
        ensures { result ≡ spec.found (declared self.now x.now) name.now.bytes };
}

/// The width of the first of a name.
#[tactic(auto, using(crate::proofs::Found::found_lemmas))]
fn width_among<T, D: Declares<T>>(declares: &D, xs: &[T], name: &Leaf) -> Option<u64>
    ensures { result ≡ spec.found (flat_map (D.declared declares.now) xs.now) name.now.bytes }
{
    for x in xs {
        if let Some(width) = declares.width_of(x, name) {
            return Some(width);
        }
    }
    None
}

/// Things that each declare a name with its width, or none.
trait Keeps<T> {
    ghost use Rattle.std.specs.Prelude.{List};
    ghost use Rattle.tie_mean.specs.Names.{Declared};

    ghost declared: { Self → T → List Declared };

    /// Keeps the width, unless one is kept for the name.
    fn keep<'t>(&self, widths: &mut BTreeMap<&'t [u8], u64>, x: &'t T) -> Result<(), NoMemory>
        ensures { OnOk result ((q : List ℕ) → kept widths.new q ≡ spec.either (kept widths.old q) (spec.found (declared self.now x.now) q)) };
}

/// Keeps the widths of names that some things declare, the first of each name.
fn keep_all<'t, T, D: Keeps<T>>(
    widths: &mut BTreeMap<&'t [u8], u64>,
    keeps: &D,
    xs: &'t [T],
) -> Result<(), NoMemory>
    ensures { OnOk result ((q : List ℕ) → kept widths.new q ≡ spec.either (kept widths.old q) (spec.found (flat_map (D.declared keeps.now) xs.now) q)) }
{
    for x in xs {
        keeps.keep(widths, x)?;
    }
    Ok(())
}

fn limited_of(n: u128) -> u64
    ensures { result ≡ limited n }
{
    if n < 4294967296 { n as u64 } else { 4294967296 }
}

/// One name.
fn named(leaf: &Leaf, width: u64, name: &Leaf) -> Option<u64>
    ensures { (n : ℕ) → width ≡ limited n → result ≡ spec.one (record { name = leaf.now; width = n }) name.now.bytes }
{
    if is_named(name, leaf) {
        Some(width)
    } else {
        None
    }
}

/// One name of 32 bits.
fn named_word(leaf: &Leaf, name: &Leaf) -> Option<u64>
    ensures { result ≡ spec.one (record { name = leaf.now; width = 32 }) name.now.bytes }
{
    named(leaf, 32, name)
}

fn leaf_width(leaf: &Leaf) -> u64
    ensures { result ≡ limited (bounded leaf.now) }
{
    limited_of(value(leaf))
}

fn range_width(range: &Option<Range>) -> u64
    ensures { result ≡ limited (names.range_width range.now) }
{
    match range {
        Some(range) => limited_of(value(&range.high).saturating_add(1)),
        None => 1,
    }
}

#[derive(Clone, Copy)]
struct OfParameter;

impl Keeps<Parameter> for OfParameter {
    ghost use Rattle.tie_rules.specs.Widths.{of_parameter};

    ghost declared = { λ _. of_parameter };

    fn keep<'t>(
        &self,
        widths: &mut BTreeMap<&'t [u8], u64>,
        x: &'t Parameter,
    ) -> Result<(), NoMemory> {
        keep_first(widths, &x.name, range_width(&x.range))
    }
}

#[derive(Clone, Copy)]
struct OfWire;

impl Keeps<Item> for OfWire {
    ghost use Rattle.tie_mean.specs.Names.{wire_declared};

    ghost declared = { λ _. wire_declared };

    fn keep<'t>(&self, widths: &mut BTreeMap<&'t [u8], u64>, x: &'t Item) -> Result<(), NoMemory> {
        match x {
            Item::Wire(range, n) => keep_first(widths, n, range_width(range)),
            Item::WireSet(range, n, _) => keep_first(widths, n, range_width(range)),
            Item::Assign(_, _) => Ok(()),
        }
    }
}

#[derive(Clone, Copy)]
struct OfKind;

impl Declares<Decl> for OfKind {
    ghost use Rattle.tie_mean.specs.Names.{kind_declared};

    ghost declared = { λ _. kind_declared };

    fn width_of(&self, x: &Decl, name: &Leaf) -> Option<u64> {
        match x {
            Decl::Regfile(x) => named(&x.name, leaf_width(&x.width), name),
            Decl::ImmediateRange(x) => named_word(&x.name, name),
            _ => None,
        }
    }
}

#[derive(Clone, Copy)]
struct OfLinked;

impl Declares<Decl> for OfLinked {
    ghost use Rattle.tie_mean.specs.Names.{link_declared};

    ghost declared = { λ _. link_declared };

    fn width_of(&self, x: &Decl, name: &Leaf) -> Option<u64> {
        match x {
            Decl::State(x) => named(&x.name, leaf_width(&x.width), name),
            Decl::QueueIn(x) => named(&x.name, leaf_width(&x.width), name),
            Decl::QueueOut(x) => named(&x.name, leaf_width(&x.width), name),
            _ => None,
        }
    }
}

#[derive(Clone, Copy)]
struct OfTable;

impl Declares<Decl> for OfTable {
    ghost use Rattle.tie_rules.specs.Widths.{of_table};

    ghost declared = { λ _. of_table };

    fn width_of(&self, x: &Decl, name: &Leaf) -> Option<u64> {
        match x {
            Decl::Table(x) => named(&x.name, leaf_width(&x.width), name),
            _ => None,
        }
    }
}

#[derive(Clone, Copy)]
struct OfFunction;

impl Declares<Decl> for OfFunction {
    ghost use Rattle.tie_rules.specs.Widths.{of_function};

    ghost declared = { λ _. of_function };

    fn width_of(&self, x: &Decl, name: &Leaf) -> Option<u64> {
        match x {
            Decl::Function(x) => named(&x.name, range_width(&x.range), name),
            _ => None,
        }
    }
}

/// The width of operands of a kind.
#[tactic(auto, using(crate::proofs::Found::found_lemmas))]
fn kind_width(tree: &Tree, kind: &Leaf) -> u64
    ensures { result ≡ limited (names.kind_width tree.now kind.now) }
{
    if is_text(kind, b"AR") {
        32
    } else {
        width_among(&OfKind, tree.declarations.as_slice(), kind).unwrap_or(0)
    }
}

#[derive(Clone, Copy)]
struct OfArgument<'a> {
    tree: &'a Tree,
}

impl Keeps<Argument> for OfArgument<'_> {
    ghost use Rattle.tie_rules.specs.Widths.{of_argument};

    ghost declared = { λ s. of_argument s.tree.now };

    fn keep<'t>(
        &self,
        widths: &mut BTreeMap<&'t [u8], u64>,
        x: &'t Argument,
    ) -> Result<(), NoMemory> {
        keep_first(widths, &x.name, kind_width(self.tree, &x.kind))
    }
}

#[tactic(auto, using(crate::proofs::Found::found_lemmas))]
fn linked_width(tree: &Tree, name: &Leaf) -> u64
    ensures { result ≡ limited (names.width_in (flat_map names.link_declared tree.now.declarations) name.now.bytes) }
{
    width_among(&OfLinked, tree.declarations.as_slice(), name).unwrap_or(0)
}

#[derive(Clone, Copy)]
struct OfLink<'a> {
    tree: &'a Tree,
}

impl Keeps<Link> for OfLink<'_> {
    ghost use Rattle.tie_rules.specs.Widths.{of_link};

    ghost declared = { λ s. of_link s.tree.now };

    fn keep<'t>(&self, widths: &mut BTreeMap<&'t [u8], u64>, x: &'t Link) -> Result<(), NoMemory> {
        keep_first(widths, &x.name, linked_width(self.tree, &x.name))
    }
}

/// The widths of the names that a function's body sees.
#[tactic(auto, using(crate::proofs::Found::found_lemmas))]
fn function_widths(alloc: Global, function: &Function) -> Result<BTreeMap<&[u8], u64>, NoMemory>
    ensures { IfOk result (λ widths. (q : List ℕ) → kept widths q ≡ spec.found (names.function_names function.now) q) }
{
    let mut widths = BTreeMap::new(alloc);
    keep_all(&mut widths, &OfParameter, function.parameters.as_slice())?;
    keep_all(&mut widths, &OfWire, function.items.as_slice())?;
    keep_first(&mut widths, &function.name, range_width(&function.range))?;
    Ok(widths)
}

/// The widths of the names that an operation's body sees.
#[tactic(auto, using(crate::proofs::Found::found_lemmas))]
fn operation_widths<'t>(
    alloc: Global,
    tree: &Tree,
    operation: &'t Operation,
) -> Result<BTreeMap<&'t [u8], u64>, NoMemory>
    ensures { IfOk result (λ widths. (q : List ℕ) → kept widths q ≡ spec.found (names.operation_names tree.now operation.now) q) }
{
    let mut widths = BTreeMap::new(alloc);
    keep_all(
        &mut widths,
        &OfArgument { tree },
        operation.arguments.as_slice(),
    )?;
    keep_all(&mut widths, &OfLink { tree }, operation.links.as_slice())?;
    keep_all(&mut widths, &OfWire, operation.items.as_slice())?;
    Ok(widths)
}

/// The widths of the names that a body sees.
fn widths_in<'t>(
    alloc: Global,
    tree: &Tree,
    decl: &'t Decl,
) -> Result<BTreeMap<&'t [u8], u64>, NoMemory>
    ensures { IfOk result (λ widths. (q : List ℕ) → kept widths q ≡ spec.found (seen.names_seen tree.now decl.now) q) }
{
    match decl {
        Decl::Function(x) => function_widths(alloc, x),
        Decl::Operation(x) => operation_widths(alloc, tree, x),
        _ => Ok(BTreeMap::new(alloc)),
    }
}

/// The name is that of a table.
fn is_table(declarations: &[Decl], name: &Leaf) -> bool
    ensures { result ≡ names.is_among (map names.table_declared (flat_map names.table_of declarations.now)) name.now.bytes }
{
    for declaration in declarations {
        if let Decl::Table(table) = declaration {
            if is_named(name, &table.name) {
                return true;
            }
        }
    }
    false
}

/// The names that a body sees, with their widths.
#[derive(Drop)]
pub struct Body<'a, 't> {
    pub tree: &'a Tree,
    pub decl: &'t Decl,
    widths: BTreeMap<&'t [u8], u64>,
    ghost right: { (q : List ℕ) → unwrap_or (kept widths q) 0 ≡ limited (names.width_in (seen.names_seen tree.now decl.now) q) },
}

/// What a body sees.
pub fn body_of<'a, 't>(
    alloc: Global,
    tree: &'a Tree,
    decl: &'t Decl,
) -> Result<Body<'a, 't>, NoMemory>
    ensures { IfOk result (λ body. (body.tree.now ≡ tree.now) × (body.decl.now ≡ decl.now)) }
{
    let widths = widths_in(alloc, tree, decl)?;
    Ok(Body { tree, decl, widths })
}

#[tactic(auto, using(crate::proofs::Found::found_lemmas))]
impl Scope for Body<'_, '_> {
    ghost use Rattle.tie_rules.specs.Names.{seen_widths};

    ghost widths = { λ s. seen_widths s.tree.now s.decl.now };

    fn name_width(&self, name: &Leaf) -> u64 {
        kept(&self.widths, name).unwrap_or(0)
    }

    fn function_width(&self, name: &Leaf) -> u64 {
        width_among(&OfFunction, self.tree.declarations.as_slice(), name).unwrap_or(0)
    }

    fn table_width(&self, name: &Leaf) -> u64 {
        width_among(&OfTable, self.tree.declarations.as_slice(), name).unwrap_or(0)
    }

    fn is_table(&self, name: &Leaf) -> bool {
        is_table(self.tree.declarations.as_slice(), name)
    }
}
