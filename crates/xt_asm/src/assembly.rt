//! From a source to its image.

ghost use Rattle.std.specs.Prelude.{◌≡◌, ◌≤◌, ◌^◌, ◌++◌, List, ℕ, length, IfOk, IfErr};
ghost use Rattle.std.specs.HashMap.{get_by_text};
ghost use Rattle.asm_lines.specs.Answers.{Gives, Fails};
ghost use Rattle.asm_rules.specs.Labels.{find_in};
ghost use Rattle.asm_rules.specs.Rules.{fault_in};
ghost use Rattle.xt_asm.specs.Bytes.{image_in};
ghost use Rattle.xt_asm.specs.Known.{AreKnown};
ghost use Rattle.xt_asm.specs.Spelled.{HaveBytes};
ghost use Rattle.xt_asm.specs.Assembly as spec;

use crate::statements::push_statement;
use asm_lines::{AsmRefusal, Line, lines, tokens};
use asm_rules::{Labels, check_lines, check_reach, labels_of, lay_out};
use std::alloc::{AllocError, Global};
use tie_desc::Desc;

fn image(
    alloc: Global,
    desc: &Desc,
    labels: &Labels,
    addresses: &[u32],
    lines: &[Line],
) -> Result<Vec<u8>, AllocError>
    requires { HaveBytes desc.now (find_in addresses.now (λ q. get_by_text labels.now q)) addresses.now lines.now }
    ensures { IfOk result (λ out. out.items ≡ image_in desc.now (find_in addresses.now (λ q. get_by_text labels.now q)) addresses.now lines.now) }
{
    let mut out = Vec::new(alloc);
    for (i, line) in lines.iter().enumerate() {
        if i >= addresses.len() {
            return Ok(out);
        }
        push_statement(
            desc,
            labels,
            addresses,
            addresses[i],
            &line.statement,
            &mut out,
        )?;
    }
    Ok(out)
}

fn assemble_lines(alloc: Global, desc: &Desc, lines: &[Line]) -> Result<Vec<u8>, AsmRefusal>
    requires { AreKnown desc.now lines.now }
    ensures { Gives (λ v. v.items) result (spec.assembled desc.now lines.now (fault_in desc.now lines.now)) }
{
    desc.facts();
    let labels = labels_of(alloc, lines)?;
    check_lines(alloc, desc, &labels, lines)?;
    let addresses = lay_out(alloc, desc, lines)?;
    let at = addresses.as_slice();
    check_reach(desc, &labels, at, lines)?;
    Ok(image(alloc, desc, &labels, at, lines)?)
}

/// The image of a source of at most 2^31 bytes. A `Fault` names the least rule that the source breaks, at its least line
/// and column. Takes time linear in the source, but for looking up labels and the names of the description.
#[tactic(auto, unfolding(crate::specs::Assembly::assembly), using(crate::proofs::Judged::answered))]
pub fn assemble(alloc: Global, desc: &Desc, text: &[u8]) -> Result<Vec<u8>, AsmRefusal>
    requires { length text.now ≤ 2 ^ 31 }
    ensures image { IfOk result (λ bytes. spec.assembly desc.now text.now ≡ Ok bytes.items) }
    // Want of memory says nothing of the source.
    ensures fault { IfErr result (λ refusal. Fails refusal (spec.assembly desc.now text.now)) }
{
    let found = tokens(alloc, text)?;
    let read = lines(alloc, desc, found.as_slice())?;
    assemble_lines(alloc, desc, read.as_slice())
}
