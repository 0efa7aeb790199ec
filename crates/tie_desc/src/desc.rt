//! Descriptions.

ghost use Rattle.std.specs.Prelude.{◌≡◌, []};
ghost use Rattle.tie_desc.specs.Invariant.{IsDescription};

use crate::declarations::{FileDecl, OpDecl, QueueDecl, RangeDecl, StateDecl};
use crate::formats::FormatDecl;
use crate::sequence::Sequence;
use std::alloc::Global;
use std::marker::Model;

/// All that an extension declares, each kind in the order of its declarations.
#[derive(Drop)]
pub struct Desc {
    pub states: Sequence<StateDecl>,
    pub files: Sequence<FileDecl>,
    pub ranges: Sequence<RangeDecl>,
    pub ops: Sequence<OpDecl>,
    pub formats: Sequence<FormatDecl>,
    /// The input queues.
    pub ins: Sequence<QueueDecl>,
    /// The output queues.
    pub outs: Sequence<QueueDecl>,
}

impl Model for Desc {
    ghost use Rattle.tie_desc.specs.Description.{Description};

    ghost Value = { Description };

    ghost use Rattle.tie_expr.specs.contracts.expr.Expr as expr;
    ghost use Rattle.std.specs.Coded.{codes};

    ghost coded = { Prim.hlevel (codes, expr.the_row.coded) };

    ghost use Rattle.tie_desc.specs.Invariant.{IsDescription};

    ghost view = { λ d. record { states = d.states; files = d.files; ranges = d.ranges; ops = d.ops; formats = d.formats; ins = d.ins; outs = d.outs } };

    ghost invariant = { λ d. IsDescription (record { states = d.states; files = d.files; ranges = d.ranges; ops = d.ops; formats = d.formats; ins = d.ins; outs = d.outs }) };
}

impl Desc {
    /// The description of no declarations. Takes no memory.
    pub fn empty(alloc: Global) -> Desc
        ensures { result ≡ record { states = []; files = []; ranges = []; ops = []; formats = []; ins = []; outs = [] } }
    {
        Desc {
            states: Sequence::new(alloc),
            files: Sequence::new(alloc),
            ranges: Sequence::new(alloc),
            ops: Sequence::new(alloc),
            formats: Sequence::new(alloc),
            ins: Sequence::new(alloc),
            outs: Sequence::new(alloc),
        }
    }

    /// The description of these declarations. Takes no memory.
    pub fn new(
        states: Vec<StateDecl>,
        files: Vec<FileDecl>,
        ranges: Vec<RangeDecl>,
        ops: Vec<OpDecl>,
        formats: Vec<FormatDecl>,
        ins: Vec<QueueDecl>,
        outs: Vec<QueueDecl>,
    ) -> Desc
        requires { IsDescription (record { states = states.items; files = files.items; ranges = ranges.items; ops = ops.items; formats = formats.items; ins = ins.items; outs = outs.items }) }
        ensures { result ≡ record { states = states.items; files = files.items; ranges = ranges.items; ops = ops.items; formats = formats.items; ins = ins.items; outs = outs.items } }
    {
        Desc {
            states: Sequence::from_vec(states),
            files: Sequence::from_vec(files),
            ranges: Sequence::from_vec(ranges),
            ops: Sequence::from_vec(ops),
            formats: Sequence::from_vec(formats),
            ins: Sequence::from_vec(ins),
            outs: Sequence::from_vec(outs),
        }
    }

    /// What every description keeps.
    pub fn facts(&self)
        ensures { IsDescription self.now }
    {
        let _ = &self.states;
    }
}
