//! The items of a body as typed expressions, and its results.

ghost use Rattle.std.specs.Prelude.{◌≡◌, ◌≤◌, ℕ, List, None, nat_le, map, length, IfOk, IsTrue, is_some};
ghost use Rattle.std.specs.List.{list_all};
ghost use Rattle.tie_mean.specs.Kept as by_name;
ghost use Rattle.tie_mean.specs.Literals.{is_width};
ghost use Rattle.tie_mean.specs.Names as names;
ghost use Rattle.tie_mean.specs.Setters.{leaf_names, setter};
ghost use Rattle.tie_mean.specs.Values.{meaning};
ghost use Rattle.tie_translate.specs.Bounds.{node_limit, nodes_of};
ghost use Rattle.tie_results.specs.Sound.{is_sound_item, is_sound_table};
ghost use Rattle.tie_results.specs.Reads as reads;
ghost use Rattle.tie_results.specs.Bodies as spec;
ghost use Rattle.tie_results.specs.Callees as frames;
ghost use Rattle.tie_results.specs.Plans as plan;
ghost use Rattle.tie_results.specs.Texts.{functions_in, tables_in};

use crate::frame::{Callee, Frame, Place, made_at, name_width};
use crate::memory::NoMemory;
use crate::needed::needed;
use crate::text::Text;
use crate::uses::{Uses, body_uses, keep_setter};
use std::alloc::Global;
use std::collections::BTreeMap;
use tie_expr::Expr;
use tie_grammar::symbol::Leaf;
use tie_grammar::tree;
use tie_grammar::tree::{Item, Tree};
use tie_mean::kept::kept;
use tie_translate::translate::assign;

/// The expression of a value that is set to a name.
fn make_value(
    alloc: Global,
    place: &Place,
    name: &Leaf,
    value: &tree::Expr,
) -> Result<Expr, NoMemory>
    requires right { frames.IsRight place.now }
    requires width { IsTrue (is_width ((frames.body_of place.now.frame.now).name name.now.bytes)) }
    requires sized { IsTrue (meaning (spec.widths_of (frames.body_of place.now.frame.now)) value.now).sized }
    requires few { nodes_of (spec.bounds_of (frames.body_of place.now.frame.now) place.now.made.now (length place.now.made.now)) value.now ≤ node_limit }
    ensures { IfOk result (plan.IsOne (frames.body_of place.now.frame.now) (length place.now.made.now) (spec.bounds_of (frames.body_of place.now.frame.now) place.now.made.now (length place.now.made.now)) (record { name = name.now; value = value.now })) }
{
    let width = name_width(place.frame, name) as u8;
    Ok(assign(alloc, place, value, width)?)
}

/// The expression of what an item sets.
fn make(alloc: Global, place: &Place, item: &Item) -> Result<Option<Expr>, NoMemory>
    requires right { frames.IsRight place.now }
    requires sound { IsTrue (is_sound_item (spec.widths_of (frames.body_of place.now.frame.now)) item.now) }
    requires few { plan.IsFew (spec.bounds_of (frames.body_of place.now.frame.now) place.now.made.now (length place.now.made.now)) (names.setting item.now) }
    ensures { IfOk result (plan.IsOneOf (frames.body_of place.now.frame.now) (length place.now.made.now) (spec.bounds_of (frames.body_of place.now.frame.now) place.now.made.now (length place.now.made.now)) (names.setting item.now)) }
{
    match item {
        Item::Wire(_, _) => Ok(None),
        Item::WireSet(_, name, value) => Ok(Some(make_value(alloc, place, name, value)?)),
        Item::Assign(name, value) => Ok(Some(make_value(alloc, place, name, value)?)),
    }
}

/// The expressions of the items that are needed.
fn make_needed(alloc: Global, frame: &Frame, marks: &[bool]) -> Result<Vec<Option<Expr>>, NoMemory>
    requires ready { frames.IsReady frame.now }
    requires plan { plan.IsPlan (frames.body_of frame.now) marks.now }
    ensures made { IfOk result (λ made. spec.AreMade (frames.body_of frame.now) made.items) }
    ensures present { IfOk result (λ made. plan.ArePresent (frames.body_of frame.now) marks.now made.items) }
    ensures many { IfOk result (λ made. length made.items ≡ length frame.now.items.now) }
{
    let mut setters = BTreeMap::new(alloc);
    let mut made = Vec::new(alloc);
    for k in 0..frame.items.len() {
        let item = &frame.items[k];
        let place = Place {
            frame: &*frame,
            setters: &setters,
            made: &made,
        };
        let one = if marks[k] {
            make(alloc, &place, item)?
        } else {
            None
        };
        made.push(one)?;
        keep_setter(&mut setters, item, k)?;
    }
    Ok(made)
}

/// The items that set some names last.
fn last_setters(
    alloc: Global,
    setters: &BTreeMap<&[u8], usize>,
    outputs: &[&Leaf],
) -> Result<Vec<usize>, NoMemory>
    requires { IsTrue (list_all (λ name. is_some (by_name.kept setters.now name)) (leaf_names outputs.now)) }
    ensures { IfOk result (λ numbers. map Some numbers.items ≡ map (by_name.kept setters.now) (leaf_names outputs.now)) }
{
    let mut numbers = Vec::new(alloc);
    for output in outputs {
        match kept(setters, output) {
            Some(number) => numbers.push(number)?,
            None => unreachable!(),
        }
    }
    Ok(numbers)
}

/// The expression of a name's last item.
fn result_of(
    alloc: Global,
    frame: &Frame,
    setters: &BTreeMap<&[u8], usize>,
    made: &[Option<Expr>],
    output: &Leaf,
) -> Result<Expr, NoMemory>
    requires setters { by_name.kept setters.now output.now.bytes ≡ setter frame.now.items.now (length frame.now.items.now) output.now.bytes }
    requires made { spec.AreMade (frames.body_of frame.now) made.now }
    requires there { IsTrue (plan.is_there made.now (by_name.kept setters.now output.now.bytes)) }
    ensures { IfOk result (spec.IsResult (frames.body_of frame.now) output.now.bytes) }
{
    match kept(setters, output) {
        Some(at) => match made_at(made, at) {
            Some(e) => Ok(e.copy(alloc)?),
            None => unreachable!(),
        },
        None => unreachable!(),
    }
}

/// The results of a body whose items are made.
fn gather(
    alloc: Global,
    frame: &Frame,
    setters: &BTreeMap<&[u8], usize>,
    made: &[Option<Expr>],
    outputs: &[&Leaf],
) -> Result<Vec<Expr>, NoMemory>
    requires setters { (q : List ℕ) → by_name.kept setters.now q ≡ setter frame.now.items.now (length frame.now.items.now) q }
    requires made { spec.AreMade (frames.body_of frame.now) made.now }
    requires there { IsTrue (list_all (λ name. plan.is_there made.now (by_name.kept setters.now name)) (leaf_names outputs.now)) }
    ensures { IfOk result (λ es. spec.AreResultsOf (frames.body_of frame.now) (leaf_names outputs.now) es.items) }
{
    let mut results = Vec::new(alloc);
    for output in outputs {
        results.push(result_of(alloc, frame, setters, made, output)?)?;
    }
    Ok(results)
}

/// Marks of the items that some results need.
fn marks_of(
    alloc: Global,
    frame: &Frame,
    uses: &Uses,
    outputs: &[&Leaf],
) -> Result<Vec<bool>, NoMemory>
    requires uses { plan.AreUses (names.is_among (map names.table_declared (tables_in frame.now.text.now))) (leaf_names frame.now.inputs.now) frame.now.items.now uses.now }
    requires set { IsTrue (list_all (λ name. is_some (setter frame.now.items.now (length frame.now.items.now) name)) (leaf_names outputs.now)) }
    requires small { IsTrue (list_all (λ name. nat_le (spec.last_count (frames.body_of frame.now) name None) node_limit) (leaf_names outputs.now)) }
    ensures plan { IfOk result (λ marks. plan.IsPlan (frames.body_of frame.now) marks.items) }
    ensures marked { IfOk result (λ marks. IsTrue (list_all (λ name. plan.is_ready marks.items (setter frame.now.items.now (length frame.now.items.now) name)) (leaf_names outputs.now))) }
{
    let last = last_setters(alloc, &uses.setters, outputs)?;
    needed(alloc, &uses.items, &last)
}

/// The expressions that a body sets some names to.
fn results_of(alloc: Global, frame: &Frame, outputs: &[&Leaf]) -> Result<Vec<Expr>, NoMemory>
    requires ready { frames.IsReady frame.now }
    requires set { IsTrue (list_all (λ name. is_some (setter frame.now.items.now (length frame.now.items.now) name)) (leaf_names outputs.now)) }
    requires small { IsTrue (list_all (λ name. nat_le (spec.last_count (frames.body_of frame.now) name None) node_limit) (leaf_names outputs.now)) }
    ensures { IfOk result (λ es. spec.AreResultsOf (frames.body_of frame.now) (leaf_names outputs.now) es.items) }
{
    let uses = body_uses(alloc, frame)?;
    let marks = marks_of(alloc, frame, &uses, outputs)?;
    let made = make_needed(alloc, frame, &marks)?;
    gather(alloc, frame, &uses.setters, &made, outputs)
}

/// The expressions that the items of a body set some names to, where the body sees these widths and inputs.
pub fn results_at<'t>(
    alloc: Global,
    tree: &'t Tree,
    declarations: usize,
    text: &Text<'t>,
    callees: &[Callee<'t>],
    widths: &BTreeMap<&'t [u8], usize>,
    inputs: &[&'t Leaf],
    items: &'t [Item],
    outputs: &[&'t Leaf],
) -> Result<Vec<Expr>, NoMemory>
    requires few { length inputs.now ≤ 11 }
    requires tables { IsTrue (list_all is_sound_table (tables_in text.now)) }
    requires callees { frames.AreCallees (spec.calls_of tree.now (functions_in text.now) (tables_in text.now) declarations) callees.now }
    requires sets { IsTrue (list_all (is_sound_item (spec.widths_of (frames.body_at tree.now declarations text.now widths.now inputs.now items.now))) items.now) }
    requires set { IsTrue (list_all (λ name. is_some (setter items.now (length items.now) name)) (leaf_names outputs.now)) }
    requires small { IsTrue (list_all (λ name. nat_le (spec.last_count (frames.body_at tree.now declarations text.now widths.now inputs.now items.now) name None) node_limit) (leaf_names outputs.now)) }
    ensures { IfOk result (λ es. spec.AreResultsOf (frames.body_at tree.now declarations text.now widths.now inputs.now items.now) (leaf_names outputs.now) es.items) }
{
    let frame = Frame {
        tree,
        declarations,
        text,
        callees,
        widths,
        inputs,
        items,
    };
    results_of(alloc, &frame, outputs)
}
