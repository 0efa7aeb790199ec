//! The plan in a network file, and the network that it wires.

ghost use Rattle.std.specs.Prelude.{◌≡◌, ◌≤◌, IfOk, List, Ok, ℕ, length};
ghost use Rattle.net_desc.specs.net_parts.Network.{IsNet};
ghost use Rattle.net_desc.specs.net_toml.Limits.{IsPlan};
ghost use Rattle.net_desc.specs.net_toml.Walk.{plan_in};
ghost use Rattle.net_desc.specs.Workers.{AreKitsOf, HasWorkers, cores_with};
ghost use Rattle.net_desc.specs.Wiring.{wiring};
ghost use Rattle.tie_files.specs.Files.{shelved, IsWrong};
ghost use Rattle.tie_files.specs.Parts.{Judges};
ghost use Rattle.net_load.specs.Texts.{Breaks};
ghost use Rattle.net_load.specs.Loaded.{IsPlanOf};

use crate::texts::refused;
use net_desc::{net_parts, net_toml, wire};
use net_parts::Net;
use net_toml::{NetPlan, read_net};
use std::alloc::Global;
use tie_desc::Kit;
use tie_files::{Refusal, read_file};
use tie_io::Shelf;

fn plan_of(alloc: Global, name: &str, text: &[u8]) -> Result<NetPlan, Refusal>
    ensures judged { Judges (λ plan. plan_in text.now ≡ Ok plan) (Breaks name.now (plan_in text.now)) result }
    ensures plan { IfOk result IsPlan }
{
    match read_net(alloc, text) {
        Ok(plan) => Ok(plan),
        Err(refusal) => Err(refused(alloc, name, refusal)),
    }
}

/// The plan in a network file.
pub fn read_plan<S: Shelf>(alloc: Global, name: &str, shelf: &mut S) -> Result<NetPlan, Refusal>
    ensures judged { Judges (IsPlanOf (shelved S.holds S.faults shelf.old shelf.new) name.now)
        (IsWrong (shelved S.holds S.faults shelf.old shelf.new) name.now (λ text. Breaks name.now (plan_in text))) result }
    ensures plan { IfOk result IsPlan }
    ensures same { (other : List ℕ) → S.holds shelf.new other ≡ S.holds shelf.old other }
    ensures later { (other : List ℕ) → S.faults shelf.old other ≤ S.faults shelf.new other }
{
    let text = read_file(alloc, name, shelf)?;
    plan_of(alloc, name, &text)
}

/// The network of a plan with its kits, whose sources have no items yet.
pub fn wire_net(
    alloc: Global,
    name: &str,
    plan: &NetPlan,
    kits: Vec<(Kit, Vec<u8>)>,
) -> Result<Net, Refusal>
    requires plan { IsPlan plan.now }
    requires kits { AreKitsOf plan.now.cores kits.items }
    ensures judged { Judges (λ net. wiring (cores_with plan.now.cores kits.items) plan.now ≡ Ok net.queues.items)
        (Breaks name.now (wiring (cores_with plan.now.cores kits.items) plan.now)) result }
    ensures workers { IfOk result (HasWorkers plan.now kits.items) }
    ensures network { IfOk result IsNet }
{
    match wire(alloc, plan, kits) {
        Ok(net) => Ok(net),
        Err(refusal) => Err(refused(alloc, name, refusal)),
    }
}
