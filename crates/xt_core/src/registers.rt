//! What a core instruction reads.

ghost use Rattle.std.specs.Prelude.{◌≡◌, ◌<◌, ◌≤◌, slice_index};

/// The pc, a0 to a15, and the shift amount register.
#[derive(Clone, Copy, Debug, PartialEq, Eq)]
pub struct Registers {
    pub pc: u32,
    pub ar: [u32; 16],
    /// 0 to 32.
    pub sar: u8,
}

impl Registers {
    /// Register `ai`.
    pub fn at(&self, i: u8) -> u32
        requires { i < 16 }
        ensures { result ≡ slice_index self.now.ar i }
    {
        self.ar[i as usize]
    }
}
