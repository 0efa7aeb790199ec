//! Where a body stands: what it sees, and what its names stand for behind some of its items.

ghost use Rattle.std.specs.Prelude.{◌≡◌, ℕ, List, ◌^◌, ◌*◌, ◌+◌, ◌<◌, ◌≤◌, drop, take, map, length, All, IfOk, IsTrue, Some, None, false, is_none, option_copied, slice_index};
ghost use Rattle.tie_expr.specs.Tree as typed;
ghost use Rattle.tie_expr.specs.Word.{Word};
ghost use Rattle.tie_expr.specs.Substitute.{IsOver};
ghost use Rattle.tie_expr.specs.Size.{table_weight, size_limit};
ghost use Rattle.tie_mean.specs.Literals.{is_width};
ghost use Rattle.tie_mean.specs.Names.{has};
ghost use Rattle.tie_mean.specs.Setters.{leaf_names, setter};
ghost use Rattle.tie_translate.specs.Translation.{name_typed, call_typed, lookup_typed};
ghost use Rattle.tie_translate.specs.Translation as translation;
ghost use Rattle.tie_translate.specs.Bounds as bound;
ghost use Rattle.tie_results.specs.Bodies as spec;
ghost use Rattle.tie_results.specs.Callees as kept_spec;

use crate::text;
use crate::text::Text;
use std::alloc::Global;
use std::collections::BTreeMap;
use tie_expr::{Bits, Expr, NoMemory};
use tie_grammar::symbol::Leaf;
use tie_grammar::tree;
use tie_grammar::tree::{Item, Tree};
use tie_mean::kept::kept;
use tie_mean::names::is_named;
use tie_mean::size::{Scope, size};
use tie_translate::Bindings;

/// What a function translates to: an expression over its parameters, where its nodes aren't too many.
#[derive(Drop)]
pub struct Callee<'t> {
    pub name: &'t Leaf,
    pub body: Option<Expr>,
}

/// What a body sees.
#[derive(Clone, Copy)]
pub struct Frame<'a, 't> {
    pub tree: &'t Tree,
    /// So many declarations are seen.
    pub declarations: usize,
    pub text: &'a Text<'t>,
    /// What the functions among them translate to.
    pub callees: &'a [Callee<'t>],
    /// The widths of the body's names.
    pub widths: &'a BTreeMap<&'t [u8], usize>,
    pub inputs: &'a [&'t Leaf],
    pub items: &'t [Item],
}

/// A body behind its first items.
#[derive(Clone, Copy)]
pub struct Place<'a, 't> {
    pub frame: &'a Frame<'a, 't>,
    /// The items that names were last set by.
    pub setters: &'a BTreeMap<&'t [u8], usize>,
    /// What was made of the items.
    pub made: &'a [Option<Expr>],
}

/// The width of a name.
pub fn name_width(frame: &Frame, name: &Leaf) -> usize
    ensures { result ≡ (kept_spec.body_of frame.now).name name.now.bytes }
{
    kept(frame.widths, name).unwrap_or(0)
}

impl Scope for Frame<'_, '_> {
    ghost use Rattle.tie_results.specs.Callees.{body_of};
    ghost use Rattle.tie_results.specs.Bodies.{widths_of};

    ghost widths = { λ f. widths_of (body_of f) };

    fn name_width(&self, name: &Leaf) -> u64 {
        name_width(self, name).min(4294967296) as u64
    }

    fn function_width(&self, name: &Leaf) -> u64 {
        text::function_width(&self.text.functions, name) as u64
    }

    fn table_width(&self, name: &Leaf) -> u64 {
        text::table_width(&self.text.tables, name) as u64
    }

    fn is_table(&self, name: &Leaf) -> bool {
        text::is_table(&self.text.tables, name)
    }
}

/// The number of the first input of a name.
fn input_number(inputs: &[&Leaf], name: &Leaf) -> Option<usize>
    ensures { result ≡ spec.input_number (leaf_names inputs.now) name.now.bytes }
{
    for i in 0..inputs.len() {
        if is_named(name, inputs[i]) {
            return Some(i);
        }
    }
    None
}

/// An input.
fn input(alloc: Global, place: &Place, name: &Leaf, number: usize) -> Result<Expr, NoMemory>
    requires right { kept_spec.IsRight place.now }
    requires number { spec.input_number (kept_spec.body_of place.now.frame.now).inputs name.now.bytes ≡ Some number }
    requires known { IsTrue (is_width ((kept_spec.body_of place.now.frame.now).name name.now.bytes)) }
    ensures means { IfOk result (λ e. typed.meaning e ≡ name_typed (spec.widths_of (kept_spec.body_of place.now.frame.now)) (spec.env_behind (kept_spec.body_of place.now.frame.now) (length place.now.made.now)) name.now.bytes) }
    ensures bounded { IfOk result (bound.IsNameBounded (spec.bounds_of (kept_spec.body_of place.now.frame.now) place.now.made.now (length place.now.made.now)) bound.name_room name.now.bytes) }
{
    let width = name_width(place.frame, name);
    Expr::input(alloc, number as u32, width as u8)
}

/// A name that was set.
fn set_name(alloc: Global, place: &Place, name: &Leaf, at: usize) -> Result<Expr, NoMemory>
    requires right { kept_spec.IsRight place.now }
    requires free { has (kept_spec.body_of place.now.frame.now).inputs name.now.bytes ≡ false }
    requires at { setter place.now.frame.now.items.now (length place.now.made.now) name.now.bytes ≡ Some at }
    requires few { spec.known_counts (kept_spec.body_of place.now.frame.now) place.now.made.now (length place.now.made.now) name.now.bytes ≤ bound.node_limit }
    ensures means { IfOk result (λ e. typed.meaning e ≡ name_typed (spec.widths_of (kept_spec.body_of place.now.frame.now)) (spec.env_behind (kept_spec.body_of place.now.frame.now) (length place.now.made.now)) name.now.bytes) }
    ensures bounded { IfOk result (bound.IsNameBounded (spec.bounds_of (kept_spec.body_of place.now.frame.now) place.now.made.now (length place.now.made.now)) bound.name_room name.now.bytes) }
{
    match made_at(place.made, at) {
        Some(e) => e.copy(alloc),
        None => unreachable!(),
    }
}

/// What was made of the item of a number.
pub fn made_at(made: &[Option<Expr>], at: usize) -> Option<&Expr>
    ensures { option_copied result ≡ spec.made_at made.now at }
{
    match made.get(at) {
        Some(Some(e)) => Some(e),
        Some(None) => None,
        None => None,
    }
}

/// A name that was never set: it is 0.
fn unset_name(alloc: Global, place: &Place, name: &Leaf) -> Result<Expr, NoMemory>
    requires right { kept_spec.IsRight place.now }
    requires free { has (kept_spec.body_of place.now.frame.now).inputs name.now.bytes ≡ false }
    requires at { setter place.now.frame.now.items.now (length place.now.made.now) name.now.bytes ≡ None }
    requires known { IsTrue (is_width ((kept_spec.body_of place.now.frame.now).name name.now.bytes)) }
    ensures means { IfOk result (λ e. typed.meaning e ≡ name_typed (spec.widths_of (kept_spec.body_of place.now.frame.now)) (spec.env_behind (kept_spec.body_of place.now.frame.now) (length place.now.made.now)) name.now.bytes) }
    ensures bounded { IfOk result (bound.IsNameBounded (spec.bounds_of (kept_spec.body_of place.now.frame.now) place.now.made.now (length place.now.made.now)) bound.name_room name.now.bytes) }
{
    let width = name_width(place.frame, name);
    Expr::constant(alloc, Bits::new(width as u8, 0))
}

/// The last function of a name.
fn find_callee<'a, 't>(callees: &'a [Callee<'t>], name: &Leaf) -> Option<&'a Callee<'t>>
    ensures { option_copied result ≡ kept_spec.callee_in callees.now name.now.bytes None }
{
    let mut found = None;
    for callee in callees {
        if is_named(name, callee.name) {
            found = Some(callee);
        }
    }
    found
}

/// Looks at the widths of expressions, since only a value in hand is known to be below a power of its width.
fn see_widths(arguments: &[Expr])
    ensures { All (λ a. (env : List Word) → (typed.meaning a).at env < 2 ^ (typed.meaning a).width) arguments.now }
{
    for argument in arguments {
        let _width = argument.width();
    }
}

/// A call of a function that is kept.
fn call_kept(
    alloc: Global,
    place: &Place,
    name: &Leaf,
    body: &Expr,
    arguments: &[Expr],
) -> Result<Expr, NoMemory>
    requires callee { spec.IsCallee (kept_spec.body_of place.now.frame.now).calls name.now.bytes body.now }
    requires widths { translation.widths_of (map typed.meaning arguments.now) ≡ (kept_spec.body_of place.now.frame.now).calls.parameters name.now.bytes }
    requires over { All (λ a. IsOver (spec.input_widths (kept_spec.body_of place.now.frame.now)) (typed.inputs a)) arguments.now }
    requires few { bound.call_size (spec.bounds_of (kept_spec.body_of place.now.frame.now) place.now.made.now (length place.now.made.now)) name.now.bytes arguments.now ≤ bound.expression_limit }
    ensures means { IfOk result (λ e. typed.meaning e ≡ call_typed (spec.widths_of (kept_spec.body_of place.now.frame.now)) (spec.env_behind (kept_spec.body_of place.now.frame.now) (length place.now.made.now)) name.now.bytes (map typed.meaning arguments.now)) }
    ensures bounded { IfOk result (bound.IsCallBounded (spec.bounds_of (kept_spec.body_of place.now.frame.now) place.now.made.now (length place.now.made.now)) bound.name_room name.now.bytes arguments.now) }
{
    see_widths(arguments);
    body.substitute(alloc, arguments)
}

/// A call of a function that isn't seen: it gives 0.
fn call_unknown(
    alloc: Global,
    place: &Place,
    name: &Leaf,
    arguments: &[Expr],
) -> Result<Expr, NoMemory>
    requires unknown { spec.IsUnknown (kept_spec.body_of place.now.frame.now).calls name.now.bytes }
    requires known { IsTrue (is_width ((kept_spec.body_of place.now.frame.now).calls.width name.now.bytes)) }
    ensures means { IfOk result (λ e. typed.meaning e ≡ call_typed (spec.widths_of (kept_spec.body_of place.now.frame.now)) (spec.env_behind (kept_spec.body_of place.now.frame.now) (length place.now.made.now)) name.now.bytes (map typed.meaning arguments.now)) }
    ensures bounded { IfOk result (bound.IsCallBounded (spec.bounds_of (kept_spec.body_of place.now.frame.now) place.now.made.now (length place.now.made.now)) bound.name_room name.now.bytes arguments.now) }
{
    let _ = arguments;
    let width = text::function_width(&place.frame.text.functions, name);
    Expr::constant(alloc, Bits::new(width as u8, 0))
}

/// A look-up in a table.
fn look_up(alloc: Global, place: &Place, name: &Leaf, index: Expr) -> Result<Expr, NoMemory>
    requires right { kept_spec.IsRight place.now }
    requires known { IsTrue (is_width ((spec.widths_of (kept_spec.body_of place.now.frame.now)).table name.now.bytes)) }
    requires limit { table_weight + typed.size index ≤ size_limit }
    ensures means { IfOk result (λ e. typed.meaning e ≡ lookup_typed (spec.widths_of (kept_spec.body_of place.now.frame.now)) (spec.env_behind (kept_spec.body_of place.now.frame.now) (length place.now.made.now)) name.now.bytes (typed.meaning index)) }
    ensures inputs { IfOk result (λ e. typed.inputs e ≡ typed.inputs index) }
    ensures size { IfOk result (λ e. typed.size e ≡ table_weight + typed.size index) }
{
    match text::find_table(&place.frame.text.tables, name) {
        Some(table) => {
            let width = text::leaf_width(&table.width) as u8;
            let entries = text::entries(alloc, width, table.entries.as_slice())?;
            Expr::lookup(alloc, index, entries, width)
        }
        None => unreachable!(),
    }
}

impl Bindings for Place<'_, '_> {
    ghost use Rattle.std.specs.Prelude.{length};
    ghost use Rattle.tie_results.specs.Callees.{body_of, IsRight};
    ghost use Rattle.tie_results.specs.Bodies.{widths_of, env_behind, bounds_of};

    ghost widths = { λ p. widths_of (body_of p.frame.now) };

    ghost env = { λ p. env_behind (body_of p.frame.now) (length p.made.now) };

    ghost bounds = { λ p. bounds_of (body_of p.frame.now) p.made.now (length p.made.now) };

    ghost right = { IsRight };

    fn size(&self, x: &tree::Expr) -> u64 {
        size(self.frame, x)
    }

    fn is_table(&self, name: &Leaf) -> bool {
        text::is_table(&self.frame.text.tables, name)
    }

    fn name(&self, alloc: Global, name: &Leaf) -> Result<Expr, NoMemory> {
        match input_number(self.frame.inputs, name) {
            Some(number) => input(alloc, self, name, number),
            None => match kept(self.setters, name) {
                Some(at) => set_name(alloc, self, name, at),
                None => unset_name(alloc, self, name),
            },
        }
    }

    fn look_up(&self, alloc: Global, name: &Leaf, index: Expr) -> Result<Expr, NoMemory> {
        look_up(alloc, self, name, index)
    }

    fn parameter(&self, name: &Leaf, number: usize) -> u8 {
        text::parameter_width(&self.frame.text.functions, name, number)
    }

    fn call(&self, alloc: Global, name: &Leaf, arguments: Vec<Expr>) -> Result<Expr, NoMemory> {
        match find_callee(self.frame.callees, name) {
            Some(callee) => match &callee.body {
                Some(body) => call_kept(alloc, self, name, body, &arguments),
                None => unreachable!(),
            },
            None => call_unknown(alloc, self, name, &arguments),
        }
    }
}
