//! A processor of a TIE text.

ghost use Rattle.std.specs.Prelude.{◌≡◌, ◌≤◌, IfOk, length};
ghost use Rattle.xt_core.specs.declared.ending.Ending.TheVariants.{Running};
ghost use Rattle.xt_exec.specs.Made.{IsFor};

use std::alloc::Global;
use std::test::Fail;
use tie_desc::{Desc, Kit};
use tie_flix::image;
use tie_front::read_tie;
use xt_exec::{Arch, start};

/// MOVX and MOVY copy a register; F has MOVX in its first slot and MOVY in its second, G has MOVY in its only one.
pub const COPIES: &str =
    "operation MOVX {out AR d, in AR s} {} {assign d = s;} operation MOVY {out AR d, in AR s} {} {assign d = s;} format F 32 {f0, f1} slot_opcodes f0 {MOVX} slot_opcodes f1 {MOVY} format G 64 {g0} slot_opcodes g0 {MOVY}";

/// A processor with its kit.
#[derive(Drop)]
pub struct Machine {
    pub kit: Kit,
    pub arch: Arch,
}

/// The description of a TIE text.
pub fn described(alloc: Global, tie: &str) -> Result<Desc, Fail> {
    let tie = tie.as_bytes();
    if tie.len() > 1_000 {
        return Err(Fail::from("too long"));
    }
    Ok(read_tie(alloc, tie)?)
}

/// A processor of a TIE text with an image, in 64 bytes of memory.
pub fn made(alloc: Global, tie: &str, text: &[u8]) -> Result<Machine, Fail>
    requires { length text.now ≤ 64 }
    ensures made { IfOk result (λ m. IsFor m.kit m.arch) }
    ensures running { IfOk result (λ m. m.arch.ending ≡ Running) }
{
    let desc = described(alloc, tie)?;
    let arch = start(alloc, &desc, 64, text)?;
    let image = image(alloc, &desc, text)?;
    Ok(Machine {
        kit: Kit { desc, image },
        arch,
    })
}
