//! Lengths of statements.

ghost use Rattle.std.specs.Prelude.{◌≡◌, ◌<◌, ◌≤◌, ◌^◌};
ghost use Rattle.asm_rules.specs.Labels as spec;

use asm_lines::Statement;
use tie_desc::Desc;

/// What `.align` aligns to; 1 where its number is none that it may have.
pub fn alignment(number: Option<i64>) -> u32
    ensures value { result ≡ spec.alignment number }
    ensures some { 0 < result }
    ensures most { result ≤ 8 }
{
    match number {
        Some(2) => 2,
        Some(4) => 4,
        Some(8) => 8,
        _ => 1,
    }
}

/// How many bytes stand from an address up to a multiple of `n`.
pub fn filling(n: u32, at: u32) -> u32
    requires { 0 < n }
    ensures value { result ≡ spec.filling n at }
    ensures small { result < n }
{
    (n - at % n) % n
}

fn format_size(desc: &Desc, format: Option<u8>) -> u32
    ensures value { result ≡ spec.format_size (spec.format_at desc.now format) }
    ensures small { result ≤ 32 }
{
    match format {
        None => 0,
        Some(format) => match desc.formats.get(format as usize) {
            None => 0,
            Some(format) => u32::from(format.width / 8),
        },
    }
}

/// How many bytes a statement at an address has.
pub fn size(desc: &Desc, at: u32, statement: &Statement) -> u128
    ensures value { result ≡ spec.size desc.now at statement.now }
    ensures small { result < 2 ^ 72 }
{
    match statement {
        Statement::Nothing => 0,
        Statement::Alone(_) => 3,
        Statement::Wide { format, .. } => u128::from(format_size(desc, *format)),
        Statement::Values { size, values, .. } => u128::from(*size) * values.len() as u128,
        Statement::Align { number, .. } => u128::from(filling(alignment(*number), at)),
    }
}
