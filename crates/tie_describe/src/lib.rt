//! The description that a TIE text declares.
//!
//! `specs/Described.antt` says what it is: `specs/Declarations.antt` of states, register files, ranges and queues,
//! `specs/Operations.antt` of operations with their stages, `specs/Formats.antt` of formats and their slots.
#![tactic(auto)]

ghost use Rattle.std.specs.Prelude.{◌≡◌, map, IfOk};
ghost use Rattle.tie_tree_law.specs.Shape.{NamesAreWords};
ghost use Rattle.tie_describe.specs.Described.{described};
ghost use Rattle.tie_describe.specs.Answers.{description_of};

mod declarations;
mod each;
mod formats;
mod numbers;
mod operands;
mod operations;
mod stages;

use declarations::{files, inputs, outputs, ranges, states};
use formats::formats;
use operands::Scope;
use operations::operations;
use std::alloc::Global;
use tie_desc::{FileDecl, FormatDecl, OpDecl, QueueDecl, RangeDecl, StateDecl};
use tie_expr::Expr;
use tie_grammar::tree::Tree;
use tie_mean::NoMemory;
pub use tie_tree_law;

/// The seven lists of a description.
#[derive(Drop)]
pub struct Parts {
    pub states: Vec<StateDecl>,
    pub files: Vec<FileDecl>,
    pub ranges: Vec<RangeDecl>,
    pub ops: Vec<OpDecl>,
    pub formats: Vec<FormatDecl>,
    /// The input queues.
    pub ins: Vec<QueueDecl>,
    /// The output queues.
    pub outs: Vec<QueueDecl>,
}

/// The description of a text. The i-th of `results` are those of the i-th operation.
pub fn describe(alloc: Global, tree: &Tree, results: Vec<Vec<Expr>>) -> Result<Parts, NoMemory>
    requires { NamesAreWords tree.now }
    ensures { IfOk result (λ parts. description_of parts ≡ described tree.now (map (λ r. r.items) results.items)) }
{
    let states = states(alloc, tree)?;
    let files = files(alloc, tree)?;
    let ranges = ranges(alloc, tree)?;
    let ins = inputs(alloc, tree)?;
    let outs = outputs(alloc, tree)?;
    let scope = Scope {
        states: states.as_slice(),
        files: files.as_slice(),
        ranges: ranges.as_slice(),
        inputs: ins.as_slice(),
        outputs: outs.as_slice(),
    };
    let ops = operations(alloc, tree, &scope, results)?;
    let formats = formats(alloc, tree, ops.as_slice())?;
    Ok(Parts {
        states,
        files,
        ranges,
        ops,
        formats,
        ins,
        outs,
    })
}
