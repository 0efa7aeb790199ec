//! The network of a file.

ghost use Rattle.std.specs.Prelude.{◌≡◌, ◌≤◌, IfOk, List, ℕ};
ghost use Rattle.net_desc.specs.net_parts.Network.{IsNet};
ghost use Rattle.tie_files.specs.Files.{shelved};
ghost use Rattle.tie_files.specs.Parts.{Judges};
ghost use Rattle.net_load.specs.Loaded.{IsNetOf};
ghost use Rattle.net_load.specs.Steps.{IsRefusedNet};

use crate::cores::load_kits;
use crate::plans::{read_plan, wire_net};
use crate::sources::load_items;
use net_desc::net_parts;
use net_parts::Net;
use std::alloc::Global;
use tie_files::Refusal;
use tie_io::Shelf;

/// Reads and judges the network file of this name with the files that it names: for each processor its TIE file, then its
/// image, then the wiring, then for each source its items. Takes memory for the network.
pub fn load_net<S: Shelf>(alloc: Global, name: &str, shelf: &mut S) -> Result<Net, Refusal>
    ensures judged { Judges (IsNetOf (shelved S.holds S.faults shelf.old shelf.new) name.now)
        (IsRefusedNet (shelved S.holds S.faults shelf.old shelf.new) name.now) result }
    ensures network { IfOk result IsNet }
    ensures same { (other : List ℕ) → S.holds shelf.new other ≡ S.holds shelf.old other }
    ensures later { (other : List ℕ) → S.faults shelf.old other ≤ S.faults shelf.new other }
{
    let plan = read_plan(alloc, name, shelf)?;
    let kits = load_kits(alloc, name, &plan, shelf)?;
    let mut net = wire_net(alloc, name, &plan, kits)?;
    load_items(alloc, name, &plan, &mut net, shelf)?;
    Ok(net)
}
