//! States, register files, ranges and queues.

ghost use Rattle.std.specs.Prelude.{◌≡◌, All, IfOk};
ghost use Rattle.tie_tree_law.specs.Shape.{NamesAreWords};
ghost use Rattle.tie_describe.specs.Operations as spec;

use crate::each::{Pick, pick_all};
use crate::numbers::{byte_of, count, height, lowered, name_of, reset_of, step_of};
use std::alloc::Global;
use tie_desc::{FileDecl, QueueDecl, RangeDecl, StateDecl};
use tie_grammar::tree::{Decl, Tree};
use tie_mean::NoMemory;

struct PickState;

impl Pick<Decl, StateDecl> for PickState {
    ghost use Rattle.tie_describe.specs.Scope.{HasWords};
    ghost use Rattle.tie_describe.specs.Declarations.{state_of};

    ghost fits = { λ _ decl. HasWords decl };

    ghost picked = { λ _ decl. state_of decl };

    fn pick(&self, decl: &Decl) -> Option<StateDecl> {
        match decl {
            Decl::State(x) => Some(StateDecl {
                name: name_of(&x.name),
                width: byte_of(&x.width),
                reset: reset_of(&x.reset),
            }),
            _ => None,
        }
    }
}

struct PickFile;

impl Pick<Decl, FileDecl> for PickFile {
    ghost use Rattle.tie_describe.specs.Scope.{HasWords};
    ghost use Rattle.tie_describe.specs.Declarations.{file_of};

    ghost fits = { λ _ decl. HasWords decl };

    ghost picked = { λ _ decl. file_of decl };

    fn pick(&self, decl: &Decl) -> Option<FileDecl> {
        match decl {
            Decl::Regfile(x) => Some(FileDecl {
                name: name_of(&x.name),
                short: name_of(&x.short),
                width: byte_of(&x.width),
                depth: byte_of(&x.depth),
            }),
            _ => None,
        }
    }
}

struct PickRange;

impl Pick<Decl, RangeDecl> for PickRange {
    ghost use Rattle.tie_describe.specs.Scope.{HasWords};
    ghost use Rattle.tie_describe.specs.Declarations.{range_of};

    ghost fits = { λ _ decl. HasWords decl };

    ghost picked = { λ _ decl. range_of decl };

    fn pick(&self, decl: &Decl) -> Option<RangeDecl> {
        match decl {
            Decl::ImmediateRange(x) => {
                let low = height(&x.low);
                let step = step_of(&x.step);
                Some(RangeDecl {
                    name: name_of(&x.name),
                    low: lowered(low),
                    step,
                    count: count(low, height(&x.high), step),
                })
            }
            _ => None,
        }
    }
}

struct PickInput;

impl Pick<Decl, QueueDecl> for PickInput {
    ghost use Rattle.tie_describe.specs.Scope.{HasWords};
    ghost use Rattle.tie_describe.specs.Declarations.{input_of};

    ghost fits = { λ _ decl. HasWords decl };

    ghost picked = { λ _ decl. input_of decl };

    fn pick(&self, decl: &Decl) -> Option<QueueDecl> {
        match decl {
            Decl::QueueIn(x) => Some(QueueDecl {
                name: name_of(&x.name),
                width: byte_of(&x.width),
            }),
            _ => None,
        }
    }
}

struct PickOutput;

impl Pick<Decl, QueueDecl> for PickOutput {
    ghost use Rattle.tie_describe.specs.Scope.{HasWords};
    ghost use Rattle.tie_describe.specs.Declarations.{output_of};

    ghost fits = { λ _ decl. HasWords decl };

    ghost picked = { λ _ decl. output_of decl };

    fn pick(&self, decl: &Decl) -> Option<QueueDecl> {
        match decl {
            Decl::QueueOut(x) => Some(QueueDecl {
                name: name_of(&x.name),
                width: byte_of(&x.width),
            }),
            _ => None,
        }
    }
}

pub fn states(alloc: Global, tree: &Tree) -> Result<Vec<StateDecl>, NoMemory>
    requires { NamesAreWords tree.now }
    ensures { IfOk result (λ v. v.items ≡ spec.states tree.now) }
{
    pick_all(alloc, &PickState, tree.declarations.as_slice())
}

pub fn files(alloc: Global, tree: &Tree) -> Result<Vec<FileDecl>, NoMemory>
    requires { NamesAreWords tree.now }
    ensures { IfOk result (λ v. v.items ≡ spec.files tree.now) }
{
    pick_all(alloc, &PickFile, tree.declarations.as_slice())
}

pub fn ranges(alloc: Global, tree: &Tree) -> Result<Vec<RangeDecl>, NoMemory>
    requires { NamesAreWords tree.now }
    ensures { IfOk result (λ v. v.items ≡ spec.ranges tree.now) }
{
    pick_all(alloc, &PickRange, tree.declarations.as_slice())
}

pub fn inputs(alloc: Global, tree: &Tree) -> Result<Vec<QueueDecl>, NoMemory>
    requires { NamesAreWords tree.now }
    ensures { IfOk result (λ v. v.items ≡ spec.inputs tree.now) }
{
    pick_all(alloc, &PickInput, tree.declarations.as_slice())
}

pub fn outputs(alloc: Global, tree: &Tree) -> Result<Vec<QueueDecl>, NoMemory>
    requires { NamesAreWords tree.now }
    ensures { IfOk result (λ v. v.items ≡ spec.outputs tree.now) }
{
    pick_all(alloc, &PickOutput, tree.declarations.as_slice())
}
