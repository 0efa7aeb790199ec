//! What schedules say of operands.

ghost use Rattle.std.specs.Prelude.{◌≡◌, Some};
ghost use Rattle.std.specs.List.{find, list_any};
ghost use Rattle.tie_mean.specs.Names as way;
ghost use Rattle.tie_rules.specs.Names.{listed};
ghost use Rattle.tie_rules.specs.Schedules as rule;
ghost use Rattle.tie_describe.specs.Operations as spec;

use tie_grammar::symbol::{Direction, Leaf, Stage};
use tie_grammar::tree::{Argument, Decl, Link, Operation, ScheduleItem, Tree};

/// A name is among these.
pub fn is_listed(leaves: &[Leaf], name: &Leaf) -> bool
    ensures { result ≡ listed name.now.bytes leaves.now }
{
    for leaf in leaves {
        if leaf.bytes.as_slice() == name.bytes.as_slice() {
            return true;
        }
    }
    false
}

fn names_operation(decl: &Decl, name: &Leaf) -> bool
    ensures { result ≡ rule.schedules name.now.bytes decl.now }
{
    match decl {
        Decl::Schedule(x) => is_listed(x.operations.as_slice(), name),
        _ => false,
    }
}

fn items_of(decl: &Decl) -> &[ScheduleItem]
    ensures { result.now ≡ spec.items_of (Some decl.now) }
{
    match decl {
        Decl::Schedule(x) => x.items.as_slice(),
        _ => &[],
    }
}

/// What the first schedule says that names an operation, nothing where none does.
fn schedule_among<'t>(decls: &'t [Decl], name: &Leaf) -> &'t [ScheduleItem]
    ensures { result.now ≡ spec.items_of (find (rule.schedules name.now.bytes) decls.now) }
{
    for decl in decls {
        if names_operation(decl, name) {
            return items_of(decl);
        }
    }
    &[]
}

/// What the schedule says that names an operation, nothing where none does.
pub fn schedule_of<'t>(tree: &'t Tree, name: &Leaf) -> &'t [ScheduleItem]
    ensures { result.now ≡ spec.schedule_of tree.now name.now }
{
    schedule_among(tree.declarations.as_slice(), name)
}

fn is_late(stage: Stage) -> bool
    ensures { result ≡ rule.is_late stage }
{
    match stage {
        Stage::Estage => false,
        Stage::Mstage => true,
    }
}

/// A `use .. Mstage` that names an operand.
fn is_late_use(item: &ScheduleItem, name: &Leaf) -> bool
    ensures { result ≡ spec.is_late_use name.now.bytes item.now }
{
    match item {
        ScheduleItem::Use(leaves, word) => {
            is_listed(leaves.as_slice(), name) && is_late(word.stage)
        }
        ScheduleItem::Def(_, _) => false,
    }
}

/// A `def` that names an operand.
fn defines_operand(item: &ScheduleItem, name: &Leaf) -> bool
    ensures { result ≡ rule.defines_operand name.now.bytes item.now }
{
    match item {
        ScheduleItem::Use(_, _) => false,
        ScheduleItem::Def(leaves, _) => is_listed(leaves.as_slice(), name),
    }
}

fn is_late_item(item: &ScheduleItem) -> bool
    ensures { result ≡ spec.is_late_item item.now }
{
    match item {
        ScheduleItem::Use(_, word) => is_late(word.stage),
        ScheduleItem::Def(_, word) => is_late(word.stage),
    }
}

/// An operand is used at M.
pub fn is_used_late(items: &[ScheduleItem], name: &Leaf) -> bool
    ensures { result ≡ spec.is_used_late items.now name.now.bytes }
{
    for item in items {
        if is_late_use(item, name) {
            return true;
        }
    }
    false
}

/// A `def` names an operand.
fn is_defined(items: &[ScheduleItem], name: &Leaf) -> bool
    ensures { result ≡ spec.is_defined items.now name.now.bytes }
{
    for item in items {
        if defines_operand(item, name) {
            return true;
        }
    }
    false
}

/// A `def .. Mstage` names an operand.
fn is_defined_late(items: &[ScheduleItem], name: &Leaf) -> bool
    ensures { result ≡ spec.is_defined_late items.now name.now.bytes }
{
    for item in items {
        if defines_operand(item, name) && is_late_item(item) {
            return true;
        }
    }
    false
}

/// Whether an operand is defined at M, where `late` says whether the operation uses anything at M.
pub fn definition_late(items: &[ScheduleItem], late: bool, name: &Leaf) -> bool
    ensures { result ≡ spec.definition_late items.now late name.now.bytes }
{
    if is_defined(items, name) {
        is_defined_late(items, name)
    } else {
        late
    }
}

pub fn is_read(direction: Direction) -> bool
    ensures { result ≡ way.is_read direction }
{
    !matches!(direction, Direction::Out)
}

pub fn is_written(direction: Direction) -> bool
    ensures { result ≡ way.is_written direction }
{
    !matches!(direction, Direction::In)
}

/// An argument that is read is used at M.
fn argument_used_late(items: &[ScheduleItem], arguments: &[Argument]) -> bool
    ensures { result ≡ list_any (spec.argument_used_late items.now) arguments.now }
{
    for x in arguments {
        if is_read(x.direction) && is_used_late(items, &x.name) {
            return true;
        }
    }
    false
}

/// A state or queue that is read is used at M.
fn link_used_late(items: &[ScheduleItem], links: &[Link]) -> bool
    ensures { result ≡ list_any (spec.link_used_late items.now) links.now }
{
    for x in links {
        if is_read(x.direction) && is_used_late(items, &x.name) {
            return true;
        }
    }
    false
}

/// The operation uses anything at M.
pub fn uses_late(items: &[ScheduleItem], operation: &Operation) -> bool
    ensures { result ≡ spec.uses_late items.now operation.now }
{
    argument_used_late(items, operation.arguments.as_slice())
        || link_used_late(items, operation.links.as_slice())
}
