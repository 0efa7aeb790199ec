//! The state behind an effect.

ghost use Rattle.std.specs.Prelude.{◌≡◌, ◌<◌, ◌≤◌, All, None};
ghost use Rattle.xt_core.specs.Range.{IsWritable};
ghost use Rattle.xt_operate.specs.Values.{IsHeld};
ghost use Rattle.xt_exec.specs.Effect.{after, core_effect, op_effect};
ghost use Rattle.xt_exec.specs.Made.{HasShape};
ghost use Rattle.xt_exec.specs.Memory.{access_trap};

use crate::places::put_all;
use crate::reach::reach;
use tie_desc::{Desc, Spot};
use xt_core::{Action, Ending};
use xt_state::Arch;

// Carries out an action that doesn't trap: all has been read, now it is written.
pub fn carry_out(arch: &mut Arch, action: Action, behind: u32)
    requires writable { IsWritable action }
    requires fine { access_trap arch.old action.access ≡ None }
    ensures { arch.new ≡ after (core_effect action) behind arch.old }
{
    arch.set_pc(action.target.unwrap_or(behind));
    if let Some((register, value)) = action.write {
        arch.set_ar(register, value);
    }
    if let Some(amount) = action.sar {
        arch.set_sar(amount);
    }
    reach(arch, action.access);
    if action.halts {
        arch.set_ending(Ending::Halted);
    }
}

// Writes what operations give.
pub fn write_out(desc: &Desc, arch: &mut Arch, values: &[(Spot, u128)], behind: u32)
    requires fit { All (IsHeld desc.now) values.now }
    requires shape { HasShape desc.now arch.old }
    ensures { arch.new ≡ after (op_effect values.now) behind arch.old }
{
    arch.set_pc(behind);
    put_all(desc, arch, values);
}
