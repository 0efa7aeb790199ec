//! The sources of a plan: the file of the items of each.

ghost use Rattle.std.specs.Prelude.{◌≡◌, ◌<◌, ◌≤◌, List, Ok, ℕ, length};
ghost use Rattle.net_desc.specs.net_parts.Network.{IsNet};
ghost use Rattle.net_desc.specs.Items.{source_items, SameBut};
ghost use Rattle.tie_files.specs.Files.{shelved};
ghost use Rattle.tie_files.specs.Parts.{Judges};
ghost use Rattle.net_load.specs.Texts.{items_in, Breaks};
ghost use Rattle.net_load.specs.Loaded.{IsWiredOf, AreSourcesOf};
ghost use Rattle.net_load.specs.Steps.{sources_steps, FirstStuck};
ghost use Rattle.net_load.specs.Pieces.{AreItemsOf, AreItemsWrong, SameAround};

use crate::texts::{give_items, refused};
use net_desc::{net_parts, net_toml};
use net_parts::Net;
use net_toml::{NetPlan, PlanSource};
use std::alloc::Global;
use tie_files::{Refusal, read_file};
use tie_io::Shelf;

fn give(alloc: Global, name: &str, index: usize, text: &[u8], net: &mut Net) -> Result<(), Refusal>
    requires network { IsNet net.old }
    requires source { index < length net.old.sources.items }
    requires text { length text.now ≤ 1048576 }
    ensures items { Judges (λ _. items_in net.old index text.now ≡ Ok (source_items net.new index)) (Breaks name.now (items_in net.old index text.now)) result }
    ensures same { SameBut index net.old net.new }
    ensures network { IsNet net.new }
{
    match give_items(alloc, index, text, net) {
        Ok(()) => Ok(()),
        Err(refusal) => Err(refused(alloc, name, refusal)),
    }
}

/// Gives a source the items in its file.
fn read_items<S: Shelf>(
    alloc: Global,
    name: &str,
    index: usize,
    source: &PlanSource,
    net: &mut Net,
    shelf: &mut S,
) -> Result<(), Refusal>
    requires network { IsNet net.old }
    requires source { index < length net.old.sources.items }
    ensures judged { Judges (λ _. AreItemsOf (shelved S.holds S.faults shelf.old shelf.new) net.old index source.now (source_items net.new index))
        (AreItemsWrong (shelved S.holds S.faults shelf.old shelf.new) name.now net.old index source.now) result }
    ensures only { SameBut index net.old net.new }
    ensures network { IsNet net.new }
    ensures same { (other : List ℕ) → S.holds shelf.new other ≡ S.holds shelf.old other }
    ensures later { (other : List ℕ) → S.faults shelf.old other ≤ S.faults shelf.new other }
{
    let text = read_file(alloc, source.items.as_str(), shelf)?;
    give(alloc, name, index, &text, net)
}

/// Gives each source of a wired network the items in its file.
pub fn load_items<S: Shelf>(
    alloc: Global,
    name: &str,
    plan: &NetPlan,
    net: &mut Net,
    shelf: &mut S,
) -> Result<(), Refusal>
    requires network { IsNet net.old }
    requires wired { IsWiredOf (shelved S.holds S.faults shelf.old shelf.old) plan.now net.old }
    ensures judged { Judges (λ _. AreSourcesOf (shelved S.holds S.faults shelf.old shelf.new) net.new 0 plan.now.sources net.new.sources.items)
        (FirstStuck (shelved S.holds S.faults shelf.old shelf.new) name.now plan.now (sources_steps 0 plan.now.sources)) result }
    ensures around { SameAround net.old net.new }
    ensures network { IsNet net.new }
    ensures same { (other : List ℕ) → S.holds shelf.new other ≡ S.holds shelf.old other }
    ensures later { (other : List ℕ) → S.faults shelf.old other ≤ S.faults shelf.new other }
{
    let sources = plan.sources.as_slice();
    for (i, source) in sources.iter().enumerate() {
        read_items(alloc, name, i, source, net, shelf)?;
    }
    Ok(())
}
