//! The state of a processor.

ghost use Rattle.std.specs.Prelude.{◌≡◌, ◌<◌, ◌≤◌, ◌^◌, All, IfOk, length, slice_index, slice_set};
ghost use Rattle.xt_state.specs.State.{file_at, initial, state_at};

use crate::bank::{Bank, banks_of};
use crate::memory::{NoMemory, memory_of};
use std::alloc::Global;
use std::marker::Model;
use tie_expr::Bits;
use xt_core::{Ending, Registers};

/// The state of a processor, which contracts see as one plain record. Every reader and writer takes constant time.
#[derive(Drop)]
pub struct Arch {
    core: Registers,
    states: Vec<Bits>,
    files: Vec<Bank>,
    memory: Vec<u8>,
    text_end: u32,
    ending: Ending,
}

impl Model for Arch {
    ghost use Rattle.std.specs.Prelude.{◌<◌, ◌≤◌, ◌^◌, length};
    ghost use Rattle.xt_state.specs.State.{State};

    ghost Value = { State };

    ghost view = { λ arch. record {
      pc = arch.core.pc;
      registers = arch.core.ar;
      sar = arch.core.sar;
      states = arch.states.items;
      files = arch.files.items;
      memory = arch.memory.items;
      text_end = arch.text_end;
      ending = arch.ending;
    } };

    ghost invariant = { λ arch. (arch.core.sar ≤ 32) × (arch.text_end ≤ length arch.memory.items) × (length arch.memory.items < 2 ^ 31) };
}

impl Arch {
    /// The first state: these states, files of these widths (1 to 128 bits) and depths, a memory of so many bytes with
    /// the text from address 0 on; all else is 0. Takes time linear in all of them.
    pub fn new(
        alloc: Global,
        states: &[Bits],
        files: &[(u8, u8)],
        memory: u32,
        text: &[u8],
    ) -> Result<Arch, NoMemory>
        requires widths { All (λ x. (0 < x.0) × (x.0 ≤ 128)) files.now }
        requires fits { length text.now ≤ memory }
        requires small { memory < 2 ^ 31 }
        ensures { IfOk result (λ arch. arch ≡ initial states.now files.now memory text.now) }
    {
        let states = Vec::from_slice(alloc, states)?;
        let files = banks_of(alloc, files)?;
        let bytes = memory_of(alloc, memory as usize, text)?;
        Ok(Arch {
            core: Registers {
                pc: 0,
                ar: [0; 16],
                sar: 0,
            },
            states,
            files,
            memory: bytes,
            text_end: text.len() as u32,
            ending: Ending::Running,
        })
    }

    /// The address of the next bundle.
    pub fn pc(&self) -> u32
        ensures { result ≡ self.now.pc }
    {
        self.core.pc
    }

    /// Register `ai`.
    pub fn ar(&self, i: u8) -> u32
        requires { i < 16 }
        ensures { result ≡ slice_index self.now.registers i }
    {
        self.core.ar[i as usize]
    }

    /// The registers a0 to a15.
    pub fn registers(&self) -> &[u32]
        ensures values { result.now ≡ self.now.registers }
        ensures count { length result.now ≡ 16 }
    {
        &self.core.ar
    }

    /// The shift amount register.
    pub fn sar(&self) -> u8
        ensures value { result ≡ self.now.sar }
        ensures range { result ≤ 32 }
    {
        self.core.sar
    }

    /// What core instructions read.
    pub fn core(&self) -> &Registers
        ensures value { result.now ≡ record { pc = self.now.pc; ar = self.now.registers; sar = self.now.sar } }
        ensures range { self.now.sar ≤ 32 }
    {
        &self.core
    }

    /// How many states there are.
    pub fn state_count(&self) -> usize
        ensures { result ≡ length self.now.states }
    {
        self.states.len()
    }

    /// The state of a number.
    pub fn state(&self, i: u8) -> Bits
        requires { i < length self.now.states }
        ensures { result ≡ state_at self.now i }
    {
        self.states[i as usize]
    }

    /// How many register files there are.
    pub fn file_count(&self) -> usize
        ensures { result ≡ length self.now.files }
    {
        self.files.len()
    }

    /// How many registers a file has.
    pub fn file_depth(&self, f: u8) -> usize
        requires { f < length self.now.files }
        ensures { result ≡ length (file_at self.now f).values }
    {
        self.files[f as usize].depth()
    }

    /// A register of a file.
    pub fn file(&self, f: u8, i: u8) -> Bits
        requires file { f < length self.now.files }
        requires place { i < length (file_at self.now f).values }
        ensures { result ≡ record { width = (file_at self.now f).width; value = slice_index (file_at self.now f).values i } }
    {
        self.files[f as usize].get(i)
    }

    /// The byte at an address.
    pub fn byte(&self, a: u32) -> u8
        requires { a < length self.now.memory }
        ensures { result ≡ slice_index self.now.memory a }
    {
        self.memory[a as usize]
    }

    /// The bytes of memory.
    pub fn memory(&self) -> &[u8]
        ensures { result.now ≡ self.now.memory }
    {
        self.memory.as_slice()
    }

    /// How many bytes the memory has.
    pub fn memory_len(&self) -> u32
        ensures value { result ≡ length self.now.memory }
        ensures small { result < 2 ^ 31 }
    {
        self.memory.len() as u32
    }

    /// The address behind the text.
    pub fn text_end(&self) -> u32
        ensures value { result ≡ self.now.text_end }
        ensures within { result ≤ length self.now.memory }
    {
        self.text_end
    }

    /// Whether it goes on, has halted or has trapped.
    pub fn ending(&self) -> Ending
        ensures { result ≡ self.now.ending }
    {
        self.ending
    }

    /// Moves the pc.
    pub fn set_pc(&mut self, value: u32)
        ensures { self.new ≡ record self.old { pc = value } }
    {
        self.core.pc = value;
    }

    /// Writes register `ai`.
    pub fn set_ar(&mut self, i: u8, value: u32)
        requires { i < 16 }
        ensures { self.new ≡ record self.old { registers = slice_set self.old.registers i value } }
    {
        self.core.ar[i as usize] = value;
    }

    /// Writes the shift amount register.
    pub fn set_sar(&mut self, value: u8)
        requires { value ≤ 32 }
        ensures { self.new ≡ record self.old { sar = value } }
    {
        self.core.sar = value;
    }

    /// Writes the state of a number.
    pub fn set_state(&mut self, i: u8, value: Bits)
        requires place { i < length self.old.states }
        requires width { value.width ≡ (state_at self.old i).width }
        ensures { self.new ≡ record self.old { states = slice_set self.old.states i value } }
    {
        self.states[i as usize] = value;
    }

    /// Writes a register of a file.
    pub fn set_file(&mut self, f: u8, i: u8, value: Bits)
        requires file { f < length self.old.files }
        requires place { i < length (file_at self.old f).values }
        requires width { value.width ≡ (file_at self.old f).width }
        ensures { self.new ≡ record self.old {
          files = slice_set self.old.files f
              (record { width = (file_at self.old f).width; values = slice_set (file_at self.old f).values i value.value });
        } }
    {
        self.files[f as usize].set(i, value);
    }

    /// Writes the byte at an address.
    pub fn set_byte(&mut self, a: u32, value: u8)
        requires { a < length self.old.memory }
        ensures { self.new ≡ record self.old { memory = slice_set self.old.memory a value } }
    {
        self.memory[a as usize] = value;
    }

    /// Lets the processor go on, halt or trap.
    pub fn set_ending(&mut self, ending: Ending)
        ensures { self.new ≡ record self.old { ending = ending } }
    {
        self.ending = ending;
    }
}
