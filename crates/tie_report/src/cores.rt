//! The lines of the processors.

ghost use Rattle.std.specs.Prelude.{◌≡◌, ◌++◌, ◌^◌, ◌<◌, OnOk, drop, length, string_bytes, take};
ghost use Rattle.net_ref.specs.xt_exec.Made.{IsFor};
ghost use Rattle.net_ref.specs.Reference.{IsWhole};
ghost use Rattle.tie_report.specs.Report.{core_text, cores_text, dump_lines};

use crate::waiting::standing_of;
use crate::words::words_of;
use core_text::{push_core, push_memory};
use net_parts::{CoreEnd, Net, NetCore, RunEnd};
use net_ref::net_parts;
use std::alloc::{AllocError, Global};

/// At most so many bytes from a place on.
fn part(bytes: &[u8], from: usize, count: usize) -> &[u8]
    ensures { result.now ≡ take count (drop from bytes.now) }
{
    let rest = &bytes[from.min(bytes.len())..];
    &rest[..count.min(rest.len())]
}

/// Appends the part of a memory that is shown.
fn push_dump(text: &mut String, dump: Option<(u32, u32)>, memory: &[u8]) -> Result<(), AllocError>
    requires { length memory.now < 2 ^ 31 }
    ensures { OnOk result (string_bytes text.new ≡ string_bytes text.old ++ dump_lines dump memory.now) }
{
    match dump {
        Some((address, count)) => {
            let bytes = part(memory, address as usize, count as usize);
            push_memory(text, address, bytes)
        }
        None => Ok(()),
    }
}

/// Appends the lines of processor c.
fn push_one(
    alloc: Global,
    text: &mut String,
    net: &Net,
    end: &RunEnd,
    stepped: bool,
    c: usize,
    here: &NetCore,
    e: &CoreEnd,
) -> Result<(), AllocError>
    requires { IsFor here.now.kit e.now.arch }
    ensures { OnOk result (string_bytes text.new ≡ string_bytes text.old ++ core_text net.now end.now stepped c here.now e.now) }
{
    let standing = standing_of(net, end, c, here, e);
    let words = words_of(alloc, net, end, stepped, here.budget, standing)?;
    let name = here.name.as_str();
    push_core(
        text,
        name,
        &here.kit.desc,
        words.as_str(),
        e.retired,
        &e.arch,
    )?;
    let _small = e.arch.memory_len();
    push_dump(text, here.dump, e.arch.memory())
}

/// Appends the lines of all processors.
pub fn push_cores(
    alloc: Global,
    text: &mut String,
    net: &Net,
    end: &RunEnd,
    stepped: bool,
) -> Result<(), AllocError>
    requires { IsWhole net.now end.now }
    ensures { OnOk result (string_bytes text.new ≡ string_bytes text.old
        ++ cores_text net.now end.now stepped 0 net.now.cores.items end.now.cores.items) }
{
    for c in 0..net.cores.len() {
        push_one(
            alloc,
            text,
            net,
            end,
            stepped,
            c,
            &net.cores[c],
            &end.cores[c],
        )?;
    }
    Ok(())
}
