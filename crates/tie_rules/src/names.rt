//! Names: what declares them, and what a body sees.

ghost use Rattle.std.specs.Prelude.{◌≡◌, option_copied, List};
ghost use Rattle.std.specs.List.{list_any};
ghost use Rattle.std.specs.Str.{bytes_eq};
ghost use Rattle.tie_rules.specs.Names as spec;
ghost use Rattle.tie_rules.specs.Declarations as rule;
ghost use Rattle.tie_rules.specs.Sorts as sorts;

use crate::each::{Test, some};
use tie_grammar::symbol::{Direction, Leaf};
use tie_grammar::tree::{Argument, Decl, Item, Link, Parameter, Tree};
use tie_mean::names::is_named;

/// What a name may be declared as.
#[derive(Clone, Copy, Debug, PartialEq, Eq)]
pub enum Sort {
    Operation,
    Function,
    Table,
    Range,
    State,
    QueueIn,
    QueueOut,
    Queue,
    Link,
    Kind,
    /// The slot that a list of opcodes is for.
    SlotOpcodes,
}

/// Directions of operands.
#[derive(Clone, Copy, Debug, PartialEq, Eq)]
pub enum Way {
    In,
    Out,
    Read,
    Written,
}

pub fn goes(way: Way, direction: Direction) -> bool
    ensures { result ≡ sorts.goes way direction }
{
    match (way, direction) {
        (Way::In, Direction::In) => true,
        (Way::Out, Direction::Out) => true,
        (Way::Read, Direction::In) => true,
        (Way::Read, Direction::Inout) => true,
        (Way::Written, Direction::Out) => true,
        (Way::Written, Direction::Inout) => true,
        _ => false,
    }
}

/// The name that a declaration declares.
pub fn declared_name(decl: &Decl) -> Option<&Leaf>
    ensures { option_copied result ≡ spec.declared_name decl.now }
{
    match decl {
        Decl::State(x) => Some(&x.name),
        Decl::Regfile(x) => Some(&x.name),
        Decl::QueueIn(x) => Some(&x.name),
        Decl::QueueOut(x) => Some(&x.name),
        Decl::Table(x) => Some(&x.name),
        Decl::ImmediateRange(x) => Some(&x.name),
        Decl::Function(x) => Some(&x.name),
        Decl::Operation(x) => Some(&x.name),
        Decl::Schedule(x) => Some(&x.name),
        Decl::Format(x) => Some(&x.name),
        Decl::SlotOpcodes(_) => None,
    }
}

pub fn is_operation(decl: &Decl) -> bool
    ensures { result ≡ spec.is_operation decl.now }
{
    match decl {
        Decl::Operation(_) => true,
        _ => false,
    }
}

/// The bytes of a leaf.
pub fn is_text(leaf: &Leaf, text: &[u8]) -> bool
    ensures { result ≡ bytes_eq leaf.now.bytes text.now }
{
    leaf.bytes.as_slice() == text
}

/// A name is spelled there.
fn spells(name: &Leaf, leaf: Option<&Leaf>) -> bool
    ensures { result ≡ spec.names name.now.bytes (option_copied leaf.entry) }
{
    match leaf {
        Some(leaf) => is_named(name, leaf),
        None => false,
    }
}

/// A name among these.
#[derive(Clone, Copy)]
pub struct IsLeaf<'a> {
    pub name: &'a Leaf,
}

impl Test<Leaf> for IsLeaf<'_> {
    ghost use Rattle.tie_mean.specs.Names.{is_named};

    ghost holds = { λ s. is_named s.name.now.bytes };

    fn holds_of(&self, leaf: &Leaf) -> bool {
        is_named(self.name, leaf)
    }
}

/// A name is among these.
pub fn listed(name: &Leaf, leaves: &[Leaf]) -> bool
    ensures { result ≡ spec.listed name.now.bytes leaves.now }
{
    some(&IsLeaf { name }, leaves)
}

fn declares_operation(name: &Leaf, decl: &Decl) -> bool
    ensures { result ≡ spec.declares_operation name.now.bytes decl.now }
{
    match decl {
        Decl::Operation(x) => is_named(name, &x.name),
        _ => false,
    }
}

fn declares_function(name: &Leaf, decl: &Decl) -> bool
    ensures { result ≡ spec.declares_function name.now.bytes decl.now }
{
    match decl {
        Decl::Function(x) => is_named(name, &x.name),
        _ => false,
    }
}

fn declares_table(name: &Leaf, decl: &Decl) -> bool
    ensures { result ≡ spec.declares_table name.now.bytes decl.now }
{
    match decl {
        Decl::Table(x) => is_named(name, &x.name),
        _ => false,
    }
}

fn declares_range(name: &Leaf, decl: &Decl) -> bool
    ensures { result ≡ spec.declares_range name.now.bytes decl.now }
{
    match decl {
        Decl::ImmediateRange(x) => is_named(name, &x.name),
        _ => false,
    }
}

fn declares_state(name: &Leaf, decl: &Decl) -> bool
    ensures { result ≡ spec.declares_state name.now.bytes decl.now }
{
    match decl {
        Decl::State(x) => is_named(name, &x.name),
        _ => false,
    }
}

fn declares_queue_in(name: &Leaf, decl: &Decl) -> bool
    ensures { result ≡ spec.declares_queue_in name.now.bytes decl.now }
{
    match decl {
        Decl::QueueIn(x) => is_named(name, &x.name),
        _ => false,
    }
}

fn declares_queue_out(name: &Leaf, decl: &Decl) -> bool
    ensures { result ≡ spec.declares_queue_out name.now.bytes decl.now }
{
    match decl {
        Decl::QueueOut(x) => is_named(name, &x.name),
        _ => false,
    }
}

fn declares_queue(name: &Leaf, decl: &Decl) -> bool
    ensures { result ≡ spec.declares_queue name.now.bytes decl.now }
{
    match decl {
        Decl::QueueIn(x) => is_named(name, &x.name),
        Decl::QueueOut(x) => is_named(name, &x.name),
        _ => false,
    }
}

fn declares_link(name: &Leaf, decl: &Decl) -> bool
    ensures { result ≡ spec.declares_link name.now.bytes decl.now }
{
    match decl {
        Decl::State(x) => is_named(name, &x.name),
        Decl::QueueIn(x) => is_named(name, &x.name),
        Decl::QueueOut(x) => is_named(name, &x.name),
        _ => false,
    }
}

fn declares_kind(name: &Leaf, decl: &Decl) -> bool
    ensures { result ≡ spec.declares_kind name.now.bytes decl.now }
{
    match decl {
        Decl::Regfile(x) => is_named(name, &x.name),
        Decl::ImmediateRange(x) => is_named(name, &x.name),
        _ => false,
    }
}

/// The short name of a register file.
pub fn short_of(decl: &Decl) -> Option<&Leaf>
    ensures { option_copied result ≡ rule.short_of decl.now }
{
    match decl {
        Decl::Regfile(x) => Some(&x.short),
        _ => None,
    }
}

fn gives_opcodes(name: &Leaf, decl: &Decl) -> bool
    ensures { result ≡ rule.gives_opcodes name.now.bytes decl.now }
{
    match decl {
        Decl::SlotOpcodes(x) => is_named(name, &x.slot),
        _ => false,
    }
}

/// A declaration of a sort that has a name.
#[derive(Clone, Copy)]
pub struct Declares<'a> {
    pub sort: Sort,
    pub name: &'a Leaf,
}

impl Test<Decl> for Declares<'_> {
    ghost use Rattle.tie_rules.specs.Sorts.{declares_as};

    ghost holds = { λ s. declares_as s.sort s.name.now.bytes };

    fn holds_of(&self, decl: &Decl) -> bool {
        match self.sort {
            Sort::Operation => declares_operation(self.name, decl),
            Sort::Function => declares_function(self.name, decl),
            Sort::Table => declares_table(self.name, decl),
            Sort::Range => declares_range(self.name, decl),
            Sort::State => declares_state(self.name, decl),
            Sort::QueueIn => declares_queue_in(self.name, decl),
            Sort::QueueOut => declares_queue_out(self.name, decl),
            Sort::Queue => declares_queue(self.name, decl),
            Sort::Link => declares_link(self.name, decl),
            Sort::Kind => declares_kind(self.name, decl),
            Sort::SlotOpcodes => gives_opcodes(self.name, decl),
        }
    }
}

/// One of these declarations has this name in this sort.
///
/// A look-up in time linear in the declarations; a map may take its place under the same contract.
pub fn among(decls: &[Decl], sort: Sort, name: &Leaf) -> bool
    ensures { result ≡ list_any (sorts.declares_as sort name.now.bytes) decls.now }
{
    some(&Declares { sort, name }, decls)
}

/// A declaration of the text has this name in this sort.
pub fn has(tree: &Tree, sort: Sort, name: &Leaf) -> bool
    ensures { result ≡ spec.has (sorts.declares_as sort name.now.bytes) tree.now }
{
    among(tree.declarations.as_slice(), sort, name)
}

// ---- bodies

pub fn body(decl: &Decl) -> &[Item]
    ensures { result.now ≡ spec.body decl.now }
{
    match decl {
        Decl::Function(x) => x.items.as_slice(),
        Decl::Operation(x) => x.items.as_slice(),
        _ => &[],
    }
}

pub fn parameters(decl: &Decl) -> &[Parameter]
    ensures { result.now ≡ spec.parameters decl.now }
{
    match decl {
        Decl::Function(x) => x.parameters.as_slice(),
        _ => &[],
    }
}

pub fn arguments(decl: &Decl) -> &[Argument]
    ensures { result.now ≡ spec.arguments decl.now }
{
    match decl {
        Decl::Operation(x) => x.arguments.as_slice(),
        _ => &[],
    }
}

pub fn links(decl: &Decl) -> &[Link]
    ensures { result.now ≡ spec.links decl.now }
{
    match decl {
        Decl::Operation(x) => x.links.as_slice(),
        _ => &[],
    }
}

pub fn own_name(decl: &Decl) -> Option<&Leaf>
    ensures { option_copied result ≡ spec.own_name decl.now }
{
    match decl {
        Decl::Function(x) => Some(&x.name),
        _ => None,
    }
}

/// It is the name of the function whose body this is.
pub fn is_own(name: &Leaf, decl: &Decl) -> bool
    ensures { result ≡ spec.names name.now.bytes (spec.own_name decl.now) }
{
    spells(name, own_name(decl))
}

/// A parameter of a name.
#[derive(Clone, Copy)]
pub struct IsParameter<'a> {
    pub name: &'a Leaf,
}

impl Test<Parameter> for IsParameter<'_> {
    ghost use Rattle.tie_rules.specs.Names.{is_parameter};

    ghost holds = { λ s. is_parameter s.name.now.bytes };

    fn holds_of(&self, x: &Parameter) -> bool {
        is_named(self.name, &x.name)
    }
}

/// An argument of a name.
#[derive(Clone, Copy)]
pub struct IsArgument<'a> {
    pub name: &'a Leaf,
}

impl Test<Argument> for IsArgument<'_> {
    ghost use Rattle.tie_rules.specs.Names.{is_argument};

    ghost holds = { λ s. is_argument s.name.now.bytes };

    fn holds_of(&self, x: &Argument) -> bool {
        is_named(self.name, &x.name)
    }
}

/// An interface name.
#[derive(Clone, Copy)]
pub struct IsLink<'a> {
    pub name: &'a Leaf,
}

impl Test<Link> for IsLink<'_> {
    ghost use Rattle.tie_rules.specs.Names.{is_link};

    ghost holds = { λ s. is_link s.name.now.bytes };

    fn holds_of(&self, x: &Link) -> bool {
        is_named(self.name, &x.name)
    }
}

pub fn has_parameter(name: &Leaf, decl: &Decl) -> bool
    ensures { result ≡ spec.has_parameter name.now.bytes decl.now }
{
    some(&IsParameter { name }, parameters(decl))
}

pub fn has_argument(name: &Leaf, decl: &Decl) -> bool
    ensures { result ≡ spec.has_argument name.now.bytes decl.now }
{
    some(&IsArgument { name }, arguments(decl))
}

pub fn has_link(name: &Leaf, decl: &Decl) -> bool
    ensures { result ≡ spec.has_link name.now.bytes decl.now }
{
    some(&IsLink { name }, links(decl))
}

// ---- operands

/// An argument of a name and a direction.
#[derive(Clone, Copy)]
pub struct ArgumentIs<'a> {
    pub way: Way,
    pub name: &'a Leaf,
}

impl Test<Argument> for ArgumentIs<'_> {
    ghost use Rattle.tie_rules.specs.Names.{argument_is};
    ghost use Rattle.tie_rules.specs.Sorts.{goes};

    ghost holds = { λ s. argument_is (goes s.way) s.name.now.bytes };

    fn holds_of(&self, x: &Argument) -> bool {
        is_named(self.name, &x.name) && goes(self.way, x.direction)
    }
}

/// An interface name with a direction.
#[derive(Clone, Copy)]
pub struct LinkIs<'a> {
    pub way: Way,
    pub name: &'a Leaf,
}

impl Test<Link> for LinkIs<'_> {
    ghost use Rattle.tie_rules.specs.Names.{link_is};
    ghost use Rattle.tie_rules.specs.Sorts.{goes};

    ghost holds = { λ s. link_is (goes s.way) s.name.now.bytes };

    fn holds_of(&self, x: &Link) -> bool {
        is_named(self.name, &x.name) && goes(self.way, x.direction)
    }
}

/// An operand of this name has such a direction.
pub fn operand_is(way: Way, name: &Leaf, decl: &Decl) -> bool
    ensures { result ≡ spec.operand_is (sorts.goes way) name.now.bytes decl.now }
{
    some(&ArgumentIs { way, name }, arguments(decl)) || some(&LinkIs { way, name }, links(decl))
}
