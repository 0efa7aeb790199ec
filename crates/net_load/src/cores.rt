//! The processors of a plan: the TIE file and the image file of each.

ghost use Rattle.std.specs.Prelude.{◌≡◌, ◌≤◌, IfOk, List, Ok, ℕ, length};
ghost use Rattle.tie_desc.specs.Fetching.{IsImage};
ghost use Rattle.tie_files.specs.Files.{shelved};
ghost use Rattle.tie_files.specs.Parts.{Judges};
ghost use Rattle.net_load.specs.Texts.{image_in, Breaks};
ghost use Rattle.net_load.specs.Loaded.{IsDescOf, IsCoreOf, AreCoresOf};
ghost use Rattle.net_load.specs.Steps.{cores_steps, FirstStuck};
ghost use Rattle.net_load.specs.Pieces.{IsDescWrong, IsImageOf, IsImageWrong, IsCoreWrong};

use crate::texts::{image_in, refused};
use net_desc::net_toml;
use net_toml::{NetPlan, PlanCore, Text};
use std::alloc::Global;
use tie_desc::{Desc, Kit};
use tie_files::{Refusal, read_file, read_tie_file};
use tie_flix::image;
use tie_io::Shelf;

/// The description of a TIE file, or where there is none the empty one.
fn read_desc<S: Shelf>(alloc: Global, tie: &Option<Text>, shelf: &mut S) -> Result<Desc, Refusal>
    ensures judged { Judges (IsDescOf (shelved S.holds S.faults shelf.old shelf.new) tie.now)
        (IsDescWrong (shelved S.holds S.faults shelf.old shelf.new) tie.now) result }
    ensures same { (other : List ℕ) → S.holds shelf.new other ≡ S.holds shelf.old other }
    ensures later { (other : List ℕ) → S.faults shelf.old other ≤ S.faults shelf.new other }
{
    match tie {
        Some(tie) => read_tie_file(alloc, tie.as_str(), shelf),
        None => Ok(Desc::empty(alloc)),
    }
}

fn image_of(
    alloc: Global,
    name: &str,
    index: usize,
    core: &PlanCore,
    text: &[u8],
) -> Result<Vec<u8>, Refusal>
    requires { length text.now ≤ 1048576 }
    ensures { Judges (λ image. image_in index core.now text.now ≡ Ok image.items) (Breaks name.now (image_in index core.now text.now)) result }
{
    match image_in(alloc, index, core, text) {
        Ok(image) => Ok(image),
        Err(refusal) => Err(refused(alloc, name, refusal)),
    }
}

/// The image in the image file of a processor.
fn read_image<S: Shelf>(
    alloc: Global,
    name: &str,
    index: usize,
    core: &PlanCore,
    shelf: &mut S,
) -> Result<Vec<u8>, Refusal>
    ensures judged { Judges (λ image. IsImageOf (shelved S.holds S.faults shelf.old shelf.new) index core.now image.items)
        (IsImageWrong (shelved S.holds S.faults shelf.old shelf.new) name.now index core.now) result }
    ensures same { (other : List ℕ) → S.holds shelf.new other ≡ S.holds shelf.old other }
    ensures later { (other : List ℕ) → S.faults shelf.old other ≤ S.faults shelf.new other }
{
    let text = read_file(alloc, core.image.as_str(), shelf)?;
    image_of(alloc, name, index, core, &text)
}

/// A description with the image of a text.
fn kit_of(alloc: Global, desc: Desc, text: &[u8]) -> Result<Kit, Refusal>
    ensures { Judges (λ kit. (kit.desc ≡ desc) × IsImage desc text.now kit.image.at) (λ refusal. ⊥) result }
{
    let Ok(image) = image(alloc, &desc, text) else {
        return Err(Refusal::NoMemory);
    };
    Ok(Kit { desc, image })
}

/// The kit of a processor with the text of its program.
fn load_core<S: Shelf>(
    alloc: Global,
    name: &str,
    index: usize,
    core: &PlanCore,
    shelf: &mut S,
) -> Result<(Kit, Vec<u8>), Refusal>
    ensures judged { Judges (IsCoreOf (shelved S.holds S.faults shelf.old shelf.new) index core.now)
        (IsCoreWrong (shelved S.holds S.faults shelf.old shelf.new) name.now index core.now) result }
    ensures same { (other : List ℕ) → S.holds shelf.new other ≡ S.holds shelf.old other }
    ensures later { (other : List ℕ) → S.faults shelf.old other ≤ S.faults shelf.new other }
{
    let desc = read_desc(alloc, &core.tie, shelf)?;
    let text = read_image(alloc, name, index, core, shelf)?;
    let kit = kit_of(alloc, desc, &text)?;
    Ok((kit, text))
}

/// The kits of a plan's processors, each with the text of its program.
pub fn load_kits<S: Shelf>(
    alloc: Global,
    name: &str,
    plan: &NetPlan,
    shelf: &mut S,
) -> Result<Vec<(Kit, Vec<u8>)>, Refusal>
    ensures judged { Judges (λ kits. AreCoresOf (shelved S.holds S.faults shelf.old shelf.new) 0 plan.now.cores kits.items)
        (FirstStuck (shelved S.holds S.faults shelf.old shelf.new) name.now plan.now (cores_steps 0 plan.now.cores)) result }
    ensures same { (other : List ℕ) → S.holds shelf.new other ≡ S.holds shelf.old other }
    ensures later { (other : List ℕ) → S.faults shelf.old other ≤ S.faults shelf.new other }
{
    let mut kits = Vec::new(alloc);
    let cores = plan.cores.as_slice();
    for (i, core) in cores.iter().enumerate() {
        let loaded = load_core(alloc, name, i, core, shelf)?;
        kits.push(loaded)?;
    }
    Ok(kits)
}
