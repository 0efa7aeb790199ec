//! What core instructions do with what they read.

ghost use Rattle.std.specs.Prelude.{◌≤◌};

use xt_core::{Action, Registers, action_of};
use xt_isa::decode_core;

mod accesses;
mod branches;
mod registers;

// What the instruction of three bytes does at a pc with a0 6, with a2, a3 and SAR as given, and 0 in all other registers.
fn done(bytes: [u8; 3], pc: u32, a2: u32, a3: u32, sar: u8) -> Option<Action>
    requires { sar ≤ 32 }
{
    let mut ar = [0; 16];
    ar[0] = 6;
    ar[2] = a2;
    ar[3] = a3;
    let inst = decode_core(bytes)?;
    Some(action_of(inst, &Registers { pc, ar, sar }))
}

// The register that is written, with its value.
fn written(action: Option<Action>) -> Option<(u8, u32)> {
    action?.write
}

// The pc after an instruction at pc 0.
fn pc_after(action: Option<Action>) -> Option<u32> {
    Some(action?.target.unwrap_or(3))
}
