//! The run of a processor alone.

ghost use Rattle.std.specs.Prelude.{◌≡◌};
ghost use Rattle.xt_core.specs.declared.ending.Ending.TheVariants.{Running};
ghost use Rattle.xt_exec.specs.Made.{IsFor};
ghost use Rattle.xt_exec.specs.Run.{HasNoQueues, Stopped};

use crate::answer::Step;
use crate::stepping::step;
use tie_desc::Kit;
use xt_state::Arch;

/// Runs a processor without queues until it halts, traps, or has as many retirements as the budget, and answers its
/// retirements. A step takes constant time.
pub fn run(kit: &Kit, arch: &mut Arch, budget: u64) -> u64
    requires made { IsFor kit.now arch.old }
    requires running { arch.old.ending ≡ Running }
    requires alone { HasNoQueues kit.now.desc }
    ensures stop { Stopped kit.now budget arch.old result arch.new }
    ensures made { IsFor kit.now arch.new }
{
    for retired in 0..budget {
        match step(kit, arch, &[None; 8]) {
            Step::Stepped { .. } => {}
            Step::Halted => return retired + 1,
            Step::Trapped(_) => return retired,
            Step::NeedsItem(_) => unreachable!(),
        }
    }
    budget
}
