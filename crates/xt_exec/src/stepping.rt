//! One step of a processor.

ghost use Rattle.std.specs.Prelude.{◌≡◌, ◌+◌, ◌<◌, ◌≤◌, ◌^◌, All, IfSome, IsTrue, length, is_none, if◌then◌else◌};
ghost use Rattle.std.specs.Option.{option_copied};
ghost use Rattle.xt_core.specs.declared.ending.Ending.TheVariants.{Running};
ghost use Rattle.xt_isa.specs.Table as table;
ghost use Rattle.tie_desc.specs.Spelling.{HasSpelling, part_fits};
ghost use Rattle.xt_exec.specs.Effect.{effect, op_effect, parts_values};
ghost use Rattle.xt_exec.specs.Made.{HasShape, IsFor};
ghost use Rattle.xt_exec.specs.Queues as queues;
ghost use Rattle.xt_exec.specs.Step.{Acts, BundleStep, bundle_at, bundle_trap, needed, trapped};
ghost use Rattle.xt_exec.specs.declared.answer.Step.TheVariants as steps;

use crate::answer::Step;
use crate::effects::{carry_out, write_out};
use crate::places::{action_at, all_sent, parts_values};
use crate::queues::{Needs, first_lacking, pop_mask, push_mask};
use crate::reach::access_trap;
use tie_desc::{Bundle, Desc, Fetched, Kit, Part};
use xt_core::Trap;
use xt_isa::Inst;
use xt_state::{Arch, Ending};

// The bundle at the pc.
fn fetched<'a>(kit: &'a Kit, arch: &Arch) -> Option<&'a Fetched>
    requires { IsFor kit.now arch.now }
    ensures value { option_copied result ≡ bundle_at kit.now arch.now }
    ensures spelled { IfSome result (λ f. HasSpelling kit.now.desc f.now.bundle) }
    ensures below { IfSome result (λ _. arch.now.pc < 2 ^ 31) }
{
    let _size = arch.memory_len();
    match kit.image.at.get(arch.pc() as usize) {
        Some(Some(found)) => Some(found),
        _ => None,
    }
}

// At a trap nothing but the ending changes.
fn trap(arch: &mut Arch, cause: Trap) -> Step
    ensures answer { result ≡ steps.Trapped cause }
    ensures state { arch.new ≡ trapped arch.old cause }
{
    arch.set_ending(Ending::Trapped(cause));
    Step::Trapped(cause)
}

// The step of a core instruction, which uses no queue.
fn act_core(desc: &Desc, arch: &mut Arch, heads: &[Option<u128>; 8], inst: Inst, size: u8) -> Step
    requires fits { table.Fits inst }
    requires below { arch.old.pc < 2 ^ 31 }
    ensures { Acts desc.now arch.old heads.now (Bundle.Core inst) size result arch.new }
{
    let action = action_at(arch, inst);
    match access_trap(arch, action.access) {
        Some(cause) => trap(arch, cause),
        None => {
            let behind = arch.pc() + u32::from(size);
            carry_out(arch, action, behind);
            if action.halts {
                Step::Halted
            } else {
                Step::Stepped { pushed: [None; 8] }
            }
        }
    }
}

// The step of a bundle of operations, which have no trap.
fn act_parts(
    desc: &Desc,
    arch: &mut Arch,
    heads: &[Option<u128>; 8],
    bundle: &Bundle,
    parts: &[Part],
    size: u8,
) -> Step
    requires few { length parts.now ≤ 4 }
    requires fits { All (λ p. IsTrue (part_fits desc.now p)) parts.now }
    requires trapless { bundle_trap arch.old bundle.now ≡ None }
    requires parts { (pc : _) (reads : _) → effect desc.now bundle.now pc reads ≡ op_effect (parts_values desc.now parts.now pc reads) }
    requires shape { HasShape desc.now arch.old }
    requires below { arch.old.pc < 2 ^ 31 }
    ensures { Acts desc.now arch.old heads.now bundle.now size result arch.new }
{
    if let Some(queue) = first_lacking(desc, bundle, heads) {
        return Step::NeedsItem(queue);
    }
    let values = parts_values(desc, arch, heads, parts);
    let behind = arch.pc() + u32::from(size);
    write_out(desc, arch, values.as_slice(), behind);
    Step::Stepped {
        pushed: all_sent(values.as_slice()),
    }
}

// The step of a bundle.
fn act(desc: &Desc, arch: &mut Arch, heads: &[Option<u128>; 8], bundle: &Bundle, size: u8) -> Step
    requires spelled { HasSpelling desc.now bundle.now }
    requires shape { HasShape desc.now arch.old }
    requires below { arch.old.pc < 2 ^ 31 }
    ensures { Acts desc.now arch.old heads.now bundle.now size result arch.new }
{
    match bundle {
        Bundle::Core(inst) => act_core(desc, arch, heads, *inst, size),
        Bundle::One(part) => act_parts(desc, arch, heads, bundle, &[*part], size),
        Bundle::Wide { parts, .. } => {
            act_parts(desc, arch, heads, bundle, parts.as_slice(), size)
        }
    }
}

/// The queues that the bundle at the pc pops and pushes; nothing where there is none, or where it traps. Takes no
/// memory.
pub fn needs(kit: &Kit, arch: &Arch) -> Needs
    requires { IsFor kit.now arch.now }
    ensures { result ≡ needed kit.now arch.now }
{
    match fetched(kit, arch) {
        Some(found) => Needs {
            pops: pop_mask(&kit.desc, &found.bundle),
            pushes: push_mask(&kit.desc, &found.bundle),
        },
        None => Needs { pops: 0, pushes: 0 },
    }
}

/// Takes the bundle at the pc of a running processor, where the input queues have these heads. A head is read modulo 2
/// to the width of its queue. Takes constant time and no memory.
pub fn step(kit: &Kit, arch: &mut Arch, heads: &[Option<u128>; 8]) -> Step
    requires made { IsFor kit.now arch.old }
    requires running { arch.old.ending ≡ Running }
    ensures step { BundleStep kit.now arch.old heads.now result arch.new }
    ensures made { IsFor kit.now arch.new }
{
    let _text_end = arch.text_end();
    match fetched(kit, arch) {
        Some(found) => act(&kit.desc, arch, heads, &found.bundle, found.length),
        None => trap(arch, Trap::Illegal),
    }
}
