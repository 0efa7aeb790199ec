ghost use Rattle.std.specs.Prelude.{◌≡◌, ◌++◌, ◌<◌, ◌≤◌, OnOk, codes, length, string_bytes};
ghost use Rattle.std.specs.Fmt.{decimal};
ghost use Rattle.core_text.specs.Digits.{hex_digits, digit_count};
ghost use Rattle.core_text.specs.Core.{core_lines, register_line, register_lines, state_lines, file_lines};
ghost use Rattle.core_text.specs.Shape.{HasShape};
ghost use Rattle.xt_state.specs.State.{file_at};

use crate::digits::{digit_count, push_hex};
use std::alloc::AllocError;
use tie_desc::{Desc, FileDecl};
use xt_state::Arch;

/// Appends the lines of a processor of this name, with words that say how it stands, which retired so many bundles.
pub fn push_core(
    text: &mut String,
    name: &str,
    desc: &Desc,
    words: &str,
    retired: u64,
    arch: &Arch,
) -> Result<(), AllocError>
    requires { HasShape desc.now arch.now }
    ensures { OnOk result (string_bytes text.new ≡ string_bytes text.old ++ core_lines name.now desc.now words.now retired arch.now) }
{
    push_head(text, name, words, retired, arch)?;
    push_registers(text, "a", arch.registers())?;
    push_states(text, desc, arch)?;
    push_files(text, desc, arch)
}

// The line of the processor and that of its shift amount.
fn push_head(
    text: &mut String,
    name: &str,
    words: &str,
    retired: u64,
    arch: &Arch,
) -> Result<(), AllocError>
    ensures { OnOk result (string_bytes text.new ≡ string_bytes text.old
        ++ (codes "core " ++ name.now ++ codes " retired " ++ decimal retired ++ codes " " ++ words.now
        ++ codes " pc " ++ hex_digits 8 arch.now.pc ++ codes "\n  sar " ++ decimal arch.now.sar ++ codes "\n")) }
{
    write!(text, "core {name} retired {retired} ")?;
    text.push_str(words)?;
    text.push_str(" pc ")?;
    push_hex(text, 8, u128::from(arch.pc()))?;
    push_sar(text, arch.sar())
}

fn push_sar(text: &mut String, sar: u8) -> Result<(), AllocError>
    ensures { OnOk result (string_bytes text.new ≡ string_bytes text.old
        ++ (codes "\n  sar " ++ decimal sar ++ codes "\n")) }
{
    write!(text, "\n  sar {sar}\n")
}

fn push_registers(text: &mut String, short: &str, registers: &[u32]) -> Result<(), AllocError>
    ensures { OnOk result (string_bytes text.new ≡ string_bytes text.old ++ register_lines short.now 8 0 registers.now) }
{
    for (number, value) in registers.iter().enumerate() {
        if *value != 0 {
            push_register(text, short, 8, number, u128::from(*value))?;
        }
    }
    Ok(())
}

fn push_register(
    text: &mut String,
    short: &str,
    count: u32,
    number: usize,
    value: u128,
) -> Result<(), AllocError>
    requires { count ≤ 32 }
    ensures { OnOk result (string_bytes text.new ≡ string_bytes text.old ++ register_line short.now count number value) }
{
    write!(text, "  {short}{number} ")?;
    push_hex(text, count, value)?;
    text.push_str("\n")
}

fn push_states(text: &mut String, desc: &Desc, arch: &Arch) -> Result<(), AllocError>
    requires { HasShape desc.now arch.now }
    ensures { OnOk result (string_bytes text.new ≡ string_bytes text.old ++ state_lines desc.now.states arch.now.states) }
{
    desc.facts();
    for (number, state) in desc.states.as_slice().iter().enumerate() {
        let value = arch.state(number as u8).value();
        push_state(text, state.name.as_str(), state.width, value)?;
    }
    Ok(())
}

fn push_state(text: &mut String, name: &str, width: u8, value: u128) -> Result<(), AllocError>
    requires { width ≤ 128 }
    ensures { OnOk result (string_bytes text.new ≡ string_bytes text.old
        ++ (codes "  " ++ name.now ++ codes " " ++ hex_digits (digit_count width) value ++ codes "\n")) }
{
    write!(text, "  {name} ")?;
    push_hex(text, digit_count(width), value)?;
    text.push_str("\n")
}

fn push_files(text: &mut String, desc: &Desc, arch: &Arch) -> Result<(), AllocError>
    requires { HasShape desc.now arch.now }
    ensures { OnOk result (string_bytes text.new ≡ string_bytes text.old ++ file_lines desc.now.files arch.now.files) }
{
    desc.facts();
    for (number, file) in desc.files.as_slice().iter().enumerate() {
        push_file(text, file, number as u8, arch)?;
    }
    Ok(())
}

fn push_file(text: &mut String, file: &FileDecl, number: u8, arch: &Arch) -> Result<(), AllocError>
    requires place { number < length arch.now.files }
    requires depth { file.now.depth ≡ length (file_at arch.now number).values }
    requires width { file.now.width ≤ 128 }
    ensures { OnOk result (string_bytes text.new ≡ string_bytes text.old
        ++ register_lines file.now.short (digit_count file.now.width) 0 (file_at arch.now number).values) }
{
    let short = file.short;
    let count = digit_count(file.width);
    for register in 0..file.depth {
        let value = arch.file(number, register).value();
        if value != 0 {
            push_register(text, short.as_str(), count, register as usize, value)?;
        }
    }
    Ok(())
}
