//! What operands stand for.

ghost use Rattle.std.specs.Prelude.{◌≡◌, ◌-ℤ◌, ◌%◌, ◌==◌, unsigned_abs, drop, slice_get, slice_index};
ghost use Rattle.std.specs.List.{list_all};
ghost use Rattle.std.specs.Char.{is_ascii_digit};
ghost use Rattle.std.specs.Option.{option_copied};
ghost use Rattle.std.specs.HashMap.{get_by_text};
ghost use Rattle.tie_desc.specs.Invariant.{IsRange};
ghost use Rattle.asm_rules.specs.Operands as spec;
ghost use Rattle.asm_rules.specs.Labels.{find_in};
ghost use Rattle.xt_mnemonics.specs.Shapes.{is_between};

use crate::expected::Expected;
use crate::labels::{Labels, line_of};
use asm_lines::{Operand, Word, value};
use tie_desc::{Desc, FileDecl, RangeDecl};
use xt_mnemonics::{Shape, fits_shape};

/// The bytes from a place on; none behind the end.
fn behind(bytes: &[u8], at: usize) -> &[u8]
    ensures { result.now ≡ drop at bytes.now }
{
    if at < bytes.len() {
        &bytes[at..]
    } else {
        &bytes[..0]
    }
}

fn all_digits(bytes: &[u8]) -> bool
    ensures { result ≡ list_all is_ascii_digit bytes.now }
{
    bytes.iter().all(|b| b.is_ascii_digit())
}

fn first(bytes: &[u8]) -> u8
    ensures { result ≡ slice_index bytes.now 0 }
{
    if bytes.is_empty() { 0 } else { bytes[0] }
}

/// Whether these are a decimal number without leading zeros.
fn is_plain(digits: &[u8]) -> bool
    ensures { result ≡ spec.is_plain digits.now }
{
    !digits.is_empty() && all_digits(digits) && (first(digits) != b'0' || digits.len() == 1)
}

/// The number of a register that a word names: what stands behind the letters of its file.
fn register(short: &[u8], word: &[u8]) -> Option<i64>
    ensures { result ≡ spec.register short.now word.now }
{
    if !word.starts_with(short) {
        return None;
    }
    let digits = behind(word, short.len());
    if is_plain(digits) {
        Some(value(10, digits))
    } else {
        None
    }
}

fn file_register(file: Option<&FileDecl>, word: &Word) -> Option<i64>
    ensures { result ≡ spec.file_register (option_copied file.entry) word.now }
{
    match file {
        None => None,
        Some(file) => register(file.short.as_bytes(), word.as_bytes()),
    }
}

/// The number of a register, or a number; None where the operand has another form than its place wants, or is a target.
#[tactic(auto, unfolding(crate::specs::Operands::meant))]
pub fn meant(desc: &Desc, expected: Expected, operand: &Operand) -> Option<i64>
    ensures { result ≡ spec.meant desc.now expected operand.now }
{
    match operand {
        Operand::Word(_, word) => match expected {
            Expected::Core(Shape::Register) => register(b"a", word.as_bytes()),
            Expected::File(file) => file_register(desc.files.get(file as usize), word),
            _ => None,
        },
        Operand::Number(_, number) => match expected {
            Expected::Core(Shape::Register) => None,
            Expected::Core(Shape::Target(_)) => None,
            Expected::File(_) => None,
            _ => Some(*number),
        },
    }
}

/// The number of a value in its range.
pub fn place_in(range: &RangeDecl, number: i64) -> u128
    requires { IsRange range.now }
    ensures { result ≡ spec.place_in range.now number }
{
    let above = i128::from(number) - i128::from(range.low);
    above.unsigned_abs() / u128::from(range.step)
}

/// Whether a number stands whole steps above or below the range's first value.
fn is_stepped(range: &RangeDecl, number: i64) -> bool
    requires { IsRange range.now }
    ensures { result ≡ (unsigned_abs (number -ℤ range.now.low) % range.now.step == 0) }
{
    let above = i128::from(number) - i128::from(range.low);
    above.unsigned_abs() % u128::from(range.step) == 0
}

fn in_range_values(range: &RangeDecl, number: i64) -> bool
    requires { IsRange range.now }
    ensures { result ≡ spec.in_values (Some range.now) number }
{
    i64::from(range.low) <= number
        && is_stepped(range, number)
        && place_in(range, number) < u128::from(range.count)
}

fn in_values(desc: &Desc, range: u8, number: i64) -> bool
    ensures { result ≡ spec.in_values (slice_get desc.now.ranges range) number }
{
    desc.facts();
    match desc.ranges.get(range as usize) {
        None => false,
        Some(range) => in_range_values(range, number),
    }
}

fn in_file(desc: &Desc, file: u8, number: i64) -> bool
    ensures { result ≡ spec.in_file (slice_get desc.now.files file) number }
{
    match desc.files.get(file as usize) {
        None => false,
        Some(file) => number >= 0 && number < i64::from(file.depth),
    }
}

fn is_alignment(number: i64) -> bool
    ensures { result ≡ spec.is_alignment number }
{
    matches!(number, 1 | 2 | 4 | 8)
}

fn is_word_value(number: i64) -> bool
    ensures { result ≡ spec.is_word_value number }
{
    -2147483648 <= number && number < 4294967296
}

fn is_byte_value(number: i64) -> bool
    ensures { result ≡ is_between 0 255 number }
{
    0 <= number && number <= 255
}

/// Whether a place accepts a number.
pub fn accepts(desc: &Desc, expected: Expected, number: i64) -> bool
    ensures { result ≡ spec.accepts desc.now expected number }
{
    match expected {
        Expected::Core(shape) => fits_shape(shape, number),
        Expected::File(file) => in_file(desc, file, number),
        Expected::Immediate(range) => in_values(desc, range, number),
        Expected::Byte => is_byte_value(number),
        Expected::Word => is_word_value(number),
        Expected::Alignment => is_alignment(number),
    }
}

fn address(number: i64) -> Option<u32>
    ensures { result ≡ spec.address number }
{
    if 0 <= number && number < 4294967296 {
        Some(number as u32)
    } else {
        None
    }
}

/// The address of a label, where `addresses` has those of the lines.
fn label_address(labels: &Labels, addresses: &[u32], word: &Word) -> Option<u32>
    ensures { result ≡ find_in addresses.now (λ q. get_by_text labels.now q) word.now }
{
    match line_of(labels, word) {
        None => None,
        Some(line) => addresses.get(line).copied(),
    }
}

/// The address that a target stands for, None of an unknown label or of a number that is none.
pub fn target(labels: &Labels, addresses: &[u32], operand: &Operand) -> Option<u32>
    ensures { result ≡ spec.target (find_in addresses.now (λ q. get_by_text labels.now q)) operand.now }
{
    match operand {
        Operand::Word(_, word) => label_address(labels, addresses, word),
        Operand::Number(_, number) => address(*number),
    }
}

pub fn column_of(operand: &Operand) -> u32
    ensures { result ≡ spec.column_of operand.now }
{
    match operand {
        Operand::Word(column, _) | Operand::Number(column, _) => *column,
    }
}
