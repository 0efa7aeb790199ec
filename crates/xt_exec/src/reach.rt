//! Accesses to memory.

ghost use Rattle.std.specs.Prelude.{◌≡◌, ◌<◌, ◌≤◌, ◌^◌, None};
ghost use Rattle.xt_core.specs.Range.{IsAccess, IsSize};
ghost use Rattle.xt_exec.specs.Memory.{access_trap, place_trap, with_access};

use crate::bytes::{load, store};
use xt_core::{Access, Trap};
use xt_state::Arch;

// The first trap of an access to so many bytes from an address on.
fn place_trap(arch: &Arch, address: u32, bytes: u8, writes: bool) -> Option<Trap>
    requires { IsSize bytes }
    ensures { result ≡ place_trap arch.now address bytes writes }
{
    if address % u32::from(bytes) != 0 {
        Some(Trap::Unaligned)
    } else if u64::from(arch.memory_len()) < u64::from(address) + u64::from(bytes) {
        Some(Trap::BadAddress)
    } else if writes && address < arch.text_end() {
        Some(Trap::StoreText)
    } else {
        None
    }
}

// The trap of an access.
pub fn access_trap(arch: &Arch, access: Access) -> Option<Trap>
    requires { IsAccess access }
    ensures { result ≡ access_trap arch.now access }
{
    match access {
        Access::Nothing => None,
        Access::Load { address, bytes, .. } => place_trap(arch, address, bytes, false),
        Access::Store { address, bytes, .. } => place_trap(arch, address, bytes, true),
    }
}

// Carries out an access that doesn't trap.
pub fn reach(arch: &mut Arch, access: Access)
    requires size { IsAccess access }
    requires fine { access_trap arch.old access ≡ None }
    ensures { arch.new ≡ with_access arch.old access arch.old }
{
    let _size = arch.memory_len();
    match access {
        Access::Nothing => {}
        Access::Load {
            address,
            bytes,
            signed,
            to,
        } => arch.set_ar(to, load(arch, address, bytes, signed)),
        Access::Store {
            address,
            bytes,
            value,
        } => store(arch, address, bytes, value),
    }
}
