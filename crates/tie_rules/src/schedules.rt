//! Rules 27 to 30: schedules, and what the slots of a format hold.

ghost use Rattle.std.specs.Prelude.{◌≡◌, ◌==◌, ◌≤◌, ◌<◌, ◌+◌, min, map, not, option_copied, length, List};
ghost use Rattle.std.specs.List.{list_any, find};
ghost use Rattle.tie_rules.specs.Least as spec;
ghost use Rattle.tie_rules.specs.Schedules as rule;

use crate::declarations::value;
use crate::each::{
    Judge, JudgeBehind, Measure, Test, first, greatest, least_behind, least_in, some, total,
};
use crate::least::{earlier, when};
use crate::names::{Declares, Sort, Way, arguments, goes, has, is_text, links};
use tie_grammar::symbol::{Leaf, Stage};
use tie_grammar::tree::{Decl, Link, ScheduleItem, Tree};
use tie_mean::names::is_named;

// ---- 27

fn is_late(stage: Stage) -> bool
    ensures { result ≡ rule.is_late stage }
{
    match stage {
        Stage::Estage => false,
        Stage::Mstage => true,
    }
}

#[derive(Clone, Copy)]
struct LateUse;

impl Test<ScheduleItem> for LateUse {
    ghost use Rattle.tie_rules.specs.Schedules.{late_use};

    ghost holds = { λ _. late_use };

    fn holds_of(&self, item: &ScheduleItem) -> bool {
        match item {
            ScheduleItem::Use(_, word) => is_late(word.stage),
            ScheduleItem::Def(_, _) => false,
        }
    }
}

#[derive(Clone, Copy)]
struct EarlyDef<'a> {
    items: &'a [ScheduleItem],
}

impl Judge<ScheduleItem> for EarlyDef<'_> {
    ghost use Rattle.tie_rules.specs.Schedules.{early_def};

    ghost places = { λ s. early_def s.items.now };

    fn judge(&self, item: &ScheduleItem) -> Option<u32> {
        match item {
            ScheduleItem::Use(_, _) => None,
            ScheduleItem::Def(_, word) => {
                when(
                    !is_late(word.stage) && some(&LateUse, self.items),
                    word.place,
                )
            }
        }
    }
}

#[derive(Clone, Copy)]
struct ScheduleOrder;

impl Judge<Decl> for ScheduleOrder {
    ghost use Rattle.tie_rules.specs.Schedules.{schedule_order_at};

    ghost places = { λ _. schedule_order_at };

    fn judge(&self, decl: &Decl) -> Option<u32> {
        match decl {
            Decl::Schedule(x) => {
                let items = x.items.as_slice();
                least_in(&EarlyDef { items }, items)
            }
            _ => None,
        }
    }
}

pub fn schedule_order(tree: &Tree) -> Option<u32>
    ensures { result ≡ spec.least (rule.schedule_order tree.now) }
{
    least_in(&ScheduleOrder, tree.declarations.as_slice())
}

// ---- what a slot lists

fn opcodes_of(decl: Option<&Decl>) -> &[Leaf]
    ensures { result.now ≡ rule.opcodes_of (option_copied decl.entry) }
{
    match decl {
        Some(Decl::SlotOpcodes(x)) => x.opcodes.as_slice(),
        _ => &[],
    }
}

fn opcodes<'t>(tree: &'t Tree, slot: &Leaf) -> &'t [Leaf]
    ensures { result.now ≡ rule.opcodes tree.now slot.now }
{
    opcodes_of(first(
        &Declares {
            sort: Sort::SlotOpcodes,
            name: slot,
        },
        tree.declarations.as_slice(),
    ))
}

fn links_of(decl: Option<&Decl>) -> &[Link]
    ensures { result.now ≡ rule.links_of (option_copied decl.entry) }
{
    match decl {
        Some(decl) => links(decl),
        None => &[],
    }
}

fn opcode_links<'t>(tree: &'t Tree, opcode: &Leaf) -> &'t [Link]
    ensures { result.now ≡ rule.opcode_links tree.now opcode.now }
{
    links_of(first(
        &Declares {
            sort: Sort::Operation,
            name: opcode,
        },
        tree.declarations.as_slice(),
    ))
}

// ---- 28

fn code_bits(n: usize) -> u64
    ensures { result ≡ rule.code_bits n }
{
    if n <= 1 {
        0
    } else if n <= 2 {
        1
    } else if n <= 4 {
        2
    } else if n <= 8 {
        3
    } else {
        4
    }
}

fn code_arguments(leaf: &Leaf, decl: Option<&Decl>) -> u64
    ensures { result ≡ rule.few (rule.code_arguments leaf.now (option_copied decl.entry)) }
{
    match decl {
        Some(decl) => (arguments(decl).len() as u64).min(1000),
        None => { if is_text(leaf, b"NOP") { 0 } else { 3 } }
    }
}

#[derive(Clone, Copy)]
struct OpcodeArguments<'a> {
    tree: &'a Tree,
}

impl Measure<Leaf> for OpcodeArguments<'_> {
    ghost use Rattle.tie_rules.specs.Schedules.{opcode_arguments};

    ghost amount = { λ s. opcode_arguments s.tree.now };

    fn measure(&self, leaf: &Leaf) -> u64 {
        let operation = Declares {
            sort: Sort::Operation,
            name: leaf,
        };
        code_arguments(leaf, first(&operation, self.tree.declarations.as_slice()))
    }
}

#[derive(Clone, Copy)]
struct SlotBits<'a> {
    tree: &'a Tree,
}

impl Measure<Leaf> for SlotBits<'_> {
    ghost use Rattle.tie_rules.specs.Schedules.{slot_bits};

    ghost amount = { λ s. slot_bits s.tree.now };

    fn measure(&self, slot: &Leaf) -> u64 {
        let opcodes = opcodes(self.tree, slot);
        let fields = greatest(&OpcodeArguments { tree: self.tree }, opcodes);
        (code_bits(opcodes.len()) + 4 * fields).min(1000)
    }
}

#[derive(Clone, Copy)]
struct FormatTooWide<'a> {
    tree: &'a Tree,
}

impl Judge<Decl> for FormatTooWide<'_> {
    ghost use Rattle.tie_rules.specs.Schedules.{format_too_wide_at};

    ghost places = { λ s. format_too_wide_at s.tree.now };

    fn judge(&self, decl: &Decl) -> Option<u32> {
        match decl {
            Decl::Format(x) => {
                let bits = total(&SlotBits { tree: self.tree }, x.slots.as_slice());
                let width = value(&x.width);
                when(width <= 64 && width < u128::from(bits) + 8, x.width.place)
            }
            _ => None,
        }
    }
}

pub fn format_too_wide(tree: &Tree) -> Option<u32>
    ensures { result ≡ spec.least (rule.format_too_wide tree.now) }
{
    least_in(&FormatTooWide { tree }, tree.declarations.as_slice())
}

// ---- 29 and 30

fn counted(states: bool, tree: &Tree, x: &Link) -> bool
    ensures { result ≡ rule.counted states tree.now x.now }
{
    if states {
        goes(Way::Written, x.direction) && has(tree, Sort::State, &x.name)
    } else {
        has(tree, Sort::Queue, &x.name)
    }
}

#[derive(Clone, Copy)]
struct IsCounted<'a> {
    states: bool,
    tree: &'a Tree,
    name: &'a Leaf,
}

impl Test<Link> for IsCounted<'_> {
    ghost use Rattle.tie_rules.specs.Schedules.{is_counted};

    ghost holds = { λ s. is_counted s.states s.tree.now s.name.now.bytes };

    fn holds_of(&self, x: &Link) -> bool {
        is_named(self.name, &x.name) && counted(self.states, self.tree, x)
    }
}

#[derive(Clone, Copy)]
struct OpcodeCounts<'a> {
    states: bool,
    tree: &'a Tree,
    name: &'a Leaf,
}

impl Test<Leaf> for OpcodeCounts<'_> {
    ghost use Rattle.tie_rules.specs.Schedules.{opcode_counts};

    ghost holds = { λ s. opcode_counts s.states s.tree.now s.name.now.bytes };

    fn holds_of(&self, opcode: &Leaf) -> bool {
        let test = IsCounted {
            states: self.states,
            tree: self.tree,
            name: self.name,
        };
        some(&test, opcode_links(self.tree, opcode))
    }
}

#[derive(Clone, Copy)]
struct SlotCounts<'a> {
    states: bool,
    tree: &'a Tree,
    name: &'a Leaf,
}

impl Test<Leaf> for SlotCounts<'_> {
    ghost use Rattle.tie_rules.specs.Schedules.{slot_counts};

    ghost holds = { λ s. slot_counts s.states s.tree.now s.name.now.bytes };

    fn holds_of(&self, slot: &Leaf) -> bool {
        let test = OpcodeCounts {
            states: self.states,
            tree: self.tree,
            name: self.name,
        };
        some(&test, opcodes(self.tree, slot))
    }
}

#[derive(Clone, Copy)]
struct LinkShared<'a> {
    states: bool,
    tree: &'a Tree,
    before: &'a [Leaf],
}

impl Test<Link> for LinkShared<'_> {
    ghost use Rattle.tie_rules.specs.Schedules.{link_shared};

    ghost holds = { λ s. link_shared s.states s.tree.now s.before.now };

    fn holds_of(&self, x: &Link) -> bool {
        let test = SlotCounts {
            states: self.states,
            tree: self.tree,
            name: &x.name,
        };
        counted(self.states, self.tree, x) && some(&test, self.before)
    }
}

#[derive(Clone, Copy)]
struct OpcodeShared<'a> {
    states: bool,
    tree: &'a Tree,
    before: &'a [Leaf],
}

impl Test<Leaf> for OpcodeShared<'_> {
    ghost use Rattle.tie_rules.specs.Schedules.{opcode_shared};

    ghost holds = { λ s. opcode_shared s.states s.tree.now s.before.now };

    fn holds_of(&self, opcode: &Leaf) -> bool {
        let test = LinkShared {
            states: self.states,
            tree: self.tree,
            before: self.before,
        };
        some(&test, opcode_links(self.tree, opcode))
    }
}

#[derive(Clone, Copy)]
struct SlotShared<'a> {
    states: bool,
    tree: &'a Tree,
    format: &'a Leaf,
}

impl JudgeBehind<Leaf> for SlotShared<'_> {
    ghost use Rattle.tie_rules.specs.Schedules.{slot_shared};

    ghost places = { λ s. slot_shared s.states s.tree.now s.format.now };

    fn judge(&self, before: &[Leaf], slot: &Leaf) -> Option<u32> {
        let test = OpcodeShared {
            states: self.states,
            tree: self.tree,
            before,
        };
        when(some(&test, opcodes(self.tree, slot)), self.format.place)
    }
}

#[derive(Clone, Copy)]
struct Shared<'a> {
    states: bool,
    tree: &'a Tree,
}

impl Judge<Decl> for Shared<'_> {
    ghost use Rattle.tie_rules.specs.Schedules.{shared_at};

    ghost places = { λ s. shared_at s.states s.tree.now };

    fn judge(&self, decl: &Decl) -> Option<u32> {
        match decl {
            Decl::Format(x) => {
                let rule = SlotShared {
                    states: self.states,
                    tree: self.tree,
                    format: &x.name,
                };
                least_behind(&rule, x.slots.as_slice())
            }
            _ => None,
        }
    }
}

pub fn state_twice(tree: &Tree) -> Option<u32>
    ensures { result ≡ spec.least (rule.state_twice tree.now) }
{
    least_in(&Shared { states: true, tree }, tree.declarations.as_slice())
}

pub fn queue_twice(tree: &Tree) -> Option<u32>
    ensures { result ≡ spec.least (rule.queue_twice tree.now) }
{
    least_in(
        &Shared {
            states: false,
            tree,
        },
        tree.declarations.as_slice(),
    )
}
