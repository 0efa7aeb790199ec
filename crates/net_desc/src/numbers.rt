//! Numbers in bytes, the highest byte first.

ghost use Rattle.std.specs.Prelude.{◌≡◌, ◌==◌, ◌<◌, ◌≤◌, ◌%◌, true, IfOk, IfSome, length};
ghost use Rattle.std.specs.Option.{option_map};
ghost use Rattle.std.specs.List.{list_all};
ghost use Rattle.net_desc.specs.Items.{bytes_of_width, number_in, numbers_in, fits_bits, is_width, items_in};

use std::alloc::{AllocError, Global};

fn number_in(bytes: &[u8]) -> u128
    requires { length bytes.now ≤ 16 }
    ensures { result ≡ number_in bytes.now }
{
    let mut n = 0;
    for b in bytes {
        n = 256 * n + *b as u128;
    }
    n
}

/// The numbers that bytes stand for, each of so many bytes.
fn numbers_in(alloc: Global, size: usize, bytes: &[u8]) -> Result<Vec<u128>, AllocError>
    requires some { 0 < size }
    requires few { size ≤ 16 }
    ensures value { IfOk result (λ v. v.items ≡ numbers_in size bytes.now) }
    ensures count { IfOk result (λ v. length v.items ≤ length bytes.now) }
{
    let mut numbers = Vec::new(alloc);
    let mut rest = bytes;
    let mut left = bytes.len() / size;
    while left > 0 {
        let (piece, behind) = rest.split_at(size);
        numbers.push(number_in(piece))?;
        rest = behind;
        left -= 1;
    }
    Ok(numbers)
}

fn fits_bits(bits: u8, n: u128) -> bool
    requires { is_width bits ≡ true }
    ensures { result ≡ fits_bits bits n }
{
    bits == 128 || n < 1 << bits
}

fn all_fit(bits: u8, numbers: &[u128]) -> bool
    requires { is_width bits ≡ true }
    ensures { result ≡ list_all (fits_bits bits) numbers.now }
{
    numbers.iter().all(|n| fits_bits(bits, *n))
}

fn is_width(bits: u8) -> bool
    ensures { result ≡ is_width bits }
{
    0 < bits && bits <= 128
}

/// How many bytes a width begins.
fn bytes_of_width(bits: u8) -> usize
    requires { is_width bits ≡ true }
    ensures value { result ≡ bytes_of_width bits }
    ensures some { 0 < result }
    ensures few { result ≤ 16 }
{
    (bits as usize + 7) / 8
}

fn is_whole(size: usize, bytes: &[u8]) -> bool
    requires { 0 < size }
    ensures { result ≡ (length bytes.now % size == 0) }
{
    bytes.len() % size == 0
}

/// The items of a width that bytes stand for: whole ones, which fit.
pub fn items_in(alloc: Global, bits: u8, bytes: &[u8]) -> Result<Option<Vec<u128>>, AllocError>
    ensures value { IfOk result (λ o. option_map (λ v. v.items) o ≡ items_in bits bytes.now) }
    ensures count { IfOk result (λ o. IfSome o (λ v. length v.items ≤ length bytes.now)) }
{
    if !is_width(bits) {
        return Ok(None);
    }
    let size = bytes_of_width(bits);
    if !is_whole(size, bytes) {
        return Ok(None);
    }
    let numbers = numbers_in(alloc, size, bytes)?;
    if !all_fit(bits, numbers.as_slice()) {
        return Ok(None);
    }
    Ok(Some(numbers))
}
