//! Bytes of memory as numbers.

ghost use Rattle.std.specs.Prelude.{◌≡◌, ◌+◌, ◌<◌, ◌≤◌, ◌*◌, ◌^◌, drop, length, take};
ghost use Rattle.xt_core.specs.Range.{IsSize};
ghost use Rattle.xt_exec.specs.Memory.{filled, little_endian, loaded_value, low_bytes, overwritten};

use xt_state::Arch;

// A number of so many bytes, filled with its sign or with zeros.
fn filled(bytes: u8, signed: bool, value: u32) -> u32
    requires size { IsSize bytes }
    requires small { value < 2 ^ (8 * bytes) }
    ensures { result ≡ filled bytes signed value }
{
    match bytes {
        1 if signed && value >= 0x80 => value + 0xFFFF_FF00,
        2 if signed && value >= 0x8000 => value + 0xFFFF_0000,
        _ => value,
    }
}

// Two bytes of a memory as a number, the lowest first.
fn half_at(memory: &[u8], a: usize) -> u32
    requires { a + 2 ≤ length memory.now }
    ensures value { result ≡ little_endian (take 2 (drop a memory.now)) }
    ensures small { result < 2 ^ 16 }
{
    u32::from(memory[a]) + 256 * u32::from(memory[a + 1])
}

// Four bytes of a memory as a number, the lowest first.
#[tactic(auto, using(crate::proofs::Memory::little_endian_four_at))]
fn word_at(memory: &[u8], a: usize) -> u32
    requires { a + 4 ≤ length memory.now }
    ensures { result ≡ little_endian (take 4 (drop a memory.now)) }
{
    half_at(memory, a) + 0x1_0000 * half_at(memory, a + 2)
}

// So many bytes from an address on as a number, the lowest first, filled with its sign or with zeros.
pub fn load(arch: &Arch, address: u32, bytes: u8, signed: bool) -> u32
    requires size { IsSize bytes }
    requires within { address + bytes ≤ length arch.now.memory }
    ensures { result ≡ loaded_value arch.now address bytes signed }
{
    let memory = arch.memory();
    let a = address as usize;
    match bytes {
        1 => filled(1, signed, u32::from(memory[a])),
        2 => filled(2, signed, half_at(memory, a)),
        _ => filled(4, signed, word_at(memory, a)),
    }
}

// The low two bytes of a number go into memory, the lowest first.
#[tactic(auto, using(crate::proofs::Memory::overwritten_two), unfolding(crate::specs::Memory::low_bytes))]
fn put_half(arch: &mut Arch, a: u32, value: u32)
    requires small { a + 2 ≤ 2 ^ 31 }
    requires within { a + 2 ≤ length arch.old.memory }
    ensures { arch.new ≡ record arch.old { memory = overwritten arch.old.memory a (low_bytes 2 value) } }
{
    arch.set_byte(a, (value % 256) as u8);
    arch.set_byte(a + 1, (value / 256 % 256) as u8);
}

// The low four bytes of a number go into memory, the lowest first.
#[tactic(auto, using(crate::proofs::Memory::overwritten_four))]
fn put_word(arch: &mut Arch, a: u32, value: u32)
    requires small { a + 4 ≤ 2 ^ 31 }
    requires within { a + 4 ≤ length arch.old.memory }
    ensures { arch.new ≡ record arch.old { memory = overwritten arch.old.memory a (low_bytes 4 value) } }
{
    put_half(arch, a, value % 0x1_0000);
    put_half(arch, a + 2, value / 0x1_0000);
}

// The low bytes of a value go into memory from an address on, the lowest first.
#[tactic(auto, using(crate::proofs::Memory::overwritten_one), unfolding(crate::specs::Memory::low_bytes))]
pub fn store(arch: &mut Arch, address: u32, bytes: u8, value: u32)
    requires size { IsSize bytes }
    requires small { address + bytes ≤ 2 ^ 31 }
    requires within { address + bytes ≤ length arch.old.memory }
    ensures { arch.new ≡ record arch.old { memory = overwritten arch.old.memory address (low_bytes bytes value) } }
{
    match bytes {
        1 => arch.set_byte(address, (value % 256) as u8),
        2 => put_half(arch, address, value),
        _ => put_word(arch, address, value),
    }
}
