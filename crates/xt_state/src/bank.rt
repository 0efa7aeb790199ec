//! Register files.

ghost use Rattle.std.specs.Prelude.{◌≡◌, ◌<◌, ◌≤◌, ◌^◌, IfOk, All, length, map, slice_index, slice_set};
ghost use Rattle.xt_state.specs.State.{zero_file};

use crate::memory::NoMemory;
use std::alloc::Global;
use std::marker::Model;
use tie_expr::Bits;

/// The registers of a file, all of one width.
#[derive(Drop)]
pub struct Bank {
    width: u8,
    values: Vec<u128>,
}

impl Model for Bank {
    ghost use Rattle.std.specs.Prelude.{◌<◌, ◌≤◌, ◌^◌, All};
    ghost use Rattle.xt_state.specs.State.{File};

    ghost Value = { File };

    ghost view = { λ b. record { width = b.width; values = b.values.items } };

    ghost invariant = { λ b. (0 < b.width) × (b.width ≤ 128) × All (λ v. v < 2 ^ b.width) b.values.items };
}

impl Bank {
    /// So many registers of a width, all 0.
    fn zeros(alloc: Global, width: u8, depth: u8) -> Result<Bank, NoMemory>
        requires low { 0 < width }
        requires high { width ≤ 128 }
        ensures { IfOk result (λ b. b ≡ zero_file (width, depth)) }
    {
        let values = vec![in alloc; 0u128; depth as usize]?;
        Ok(Bank { width, values })
    }

    /// How many registers it has.
    pub fn depth(&self) -> usize
        ensures { result ≡ length self.now.values }
    {
        self.values.len()
    }

    /// The register of a number.
    pub fn get(&self, i: u8) -> Bits
        requires { i < length self.now.values }
        ensures { result ≡ record { width = self.now.width; value = slice_index self.now.values i } }
    {
        Bits::new(self.width, self.values[i as usize])
    }

    /// Writes the register of a number.
    pub fn set(&mut self, i: u8, value: Bits)
        requires place { i < length self.old.values }
        requires width { value.width ≡ self.old.width }
        ensures { self.new ≡ record { width = self.old.width; values = slice_set self.old.values i value.value } }
    {
        self.values[i as usize] = value.value();
    }
}

/// Files of these widths and depths, all of whose registers are 0.
pub fn banks_of(alloc: Global, files: &[(u8, u8)]) -> Result<Vec<Bank>, NoMemory>
    requires { All (λ x. (0 < x.0) × (x.0 ≤ 128)) files.now }
    ensures { IfOk result (λ banks. banks.items ≡ map zero_file files.now) }
{
    let mut banks = Vec::new(alloc);
    for (width, depth) in files {
        banks.push(Bank::zeros(alloc, *width, *depth)?)?;
    }
    Ok(banks)
}
