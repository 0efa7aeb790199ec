//! The first state of a description.

ghost use Rattle.std.specs.Prelude.{◌≡◌, ◌<◌, ◌≤◌, ◌^◌, All, IfOk, length, map};
ghost use Rattle.tie_desc.specs.Fetching.{IsImage};
ghost use Rattle.tie_desc.specs.Invariant.{IsFile, IsState};
ghost use Rattle.xt_exec.specs.First.{file_shape, first_state, reset_word};
ghost use Rattle.xt_exec.specs.Made.{IsFor};

use std::alloc::Global;
use tie_desc::{Desc, FileDecl, StateDecl};
use tie_expr::Bits;
use xt_state::{Arch, NoMemory};

fn reset_word(state: &StateDecl) -> Bits
    requires { IsState state.now }
    ensures { result ≡ reset_word state.now }
{
    Bits::new(state.width, state.reset)
}

fn reset_words(alloc: Global, states: &[StateDecl]) -> Result<Vec<Bits>, NoMemory>
    requires { All IsState states.now }
    ensures { IfOk result (λ v. v.items ≡ map reset_word states.now) }
{
    let mut words = Vec::new(alloc);
    for state in states {
        words.push(reset_word(state))?;
    }
    Ok(words)
}

fn file_shapes(alloc: Global, files: &[FileDecl]) -> Result<Vec<(u8, u8)>, NoMemory>
    requires { All IsFile files.now }
    ensures shapes { IfOk result (λ v. v.items ≡ map file_shape files.now) }
    ensures widths { IfOk result (λ v. All (λ x. (0 < x.0) × (x.0 ≤ 128)) v.items) }
{
    let mut shapes = Vec::new(alloc);
    for file in files {
        shapes.push((file.width, file.depth))?;
    }
    Ok(shapes)
}

/// The first state of a description: its states at their reset values, its files zeros, a memory of so many bytes with
/// the text from address 0 on. It is made for each kit of the description with the image of the text.
pub fn start(alloc: Global, desc: &Desc, memory: u32, text: &[u8]) -> Result<Arch, NoMemory>
    requires fits { length text.now ≤ memory }
    requires small { memory < 2 ^ 31 }
    ensures state { IfOk result (λ arch. arch ≡ first_state desc.now memory text.now) }
    ensures made { IfOk result (λ arch. (kit : _) → kit.desc ≡ desc.now → IsImage desc.now text.now kit.image.at → IsFor kit arch) }
{
    desc.facts();
    let words = reset_words(alloc, desc.states.as_slice())?;
    let shapes = file_shapes(alloc, desc.files.as_slice())?;
    Arch::new(alloc, words.as_slice(), shapes.as_slice(), memory, text)
}
