// What instructions do, a file for each family of the table.
ghost use Rattle.std.specs.Prelude.{◌≡◌, ◌<◌, ◌≤◌};
ghost use Rattle.xt_isa.specs.Table.{Fits};
ghost use Rattle.xt_core.specs.Action.{action, ahead, branches};
ghost use Rattle.xt_core.specs.Range.{IsWritable};
ghost use Rattle.xt_core.specs.View.{view_of};

mod arithmetic;
mod branches;
mod choices;
mod jumps;
mod memory;
mod shifts;
mod special;

use crate::Registers;
use crate::action::{Action, goes, only_if};
use crate::numbers::{moved, sum32};
use xt_isa::{Family, Inst, family_of};

// The address so many bytes ahead of the pc.
fn ahead(registers: &Registers, bytes: u32) -> u32
    ensures { result ≡ ahead (view_of registers.now) bytes }
{
    sum32(u64::from(registers.pc), bytes)
}

// A branch that is taken goes to pc + 4 and the signed offset.
fn branch(registers: &Registers, target: i32, taken: bool) -> Action
    ensures value { result ≡ branches (view_of registers.now) target taken }
    ensures writable { IsWritable result }
{
    only_if(taken, goes(moved(ahead(registers, 4), target)))
}

/// What an instruction does.
pub fn action_of(inst: Inst, registers: &Registers) -> Action
    requires fits { Fits inst }
    requires sar { registers.now.sar ≤ 32 }
    ensures value { result ≡ action inst (view_of registers.now) }
    ensures writable { IsWritable result }
{
    match family_of(&inst) {
        Family::Arithmetic => arithmetic::action_of(inst, registers),
        Family::Special => special::action_of(inst, registers),
        Family::Shifts => shifts::action_of(inst, registers),
        Family::Choices => choices::action_of(inst, registers),
        Family::Memory => memory::action_of(inst, registers),
        Family::Jumps => jumps::action_of(inst, registers),
        Family::Branches => branches::action_of(inst, registers),
    }
}
