//! What operands speak of.

ghost use Rattle.std.specs.Prelude.{◌≡◌, position, IsTrue};
ghost use Rattle.std.specs.Str.{bytes_eq};
ghost use Rattle.tie_describe.specs.Operations as spec;
ghost use Rattle.tie_desc.specs.Names.{is_word};

use crate::numbers::{byte, name_of};
use crate::stages::{definition_late, is_read, is_used_late, is_written};
use tie_desc::{FileDecl, Kind, Operand, QueueDecl, RangeDecl, StateDecl};
use tie_grammar::symbol::{Direction, Leaf};
use tie_grammar::tree::ScheduleItem;

/// The declarations that operands may speak of.
#[derive(Clone, Copy)]
pub struct Scope<'t> {
    pub states: &'t [StateDecl],
    pub files: &'t [FileDecl],
    pub ranges: &'t [RangeDecl],
    pub inputs: &'t [QueueDecl],
    pub outputs: &'t [QueueDecl],
}

fn state_place(states: &[StateDecl], name: &[u8]) -> Option<usize>
    ensures { result ≡ position (λ x. bytes_eq x.name name.now) states.now }
{
    states.iter().position(|x| x.name.is(name))
}

fn file_place(files: &[FileDecl], name: &[u8]) -> Option<usize>
    ensures { result ≡ position (λ x. bytes_eq x.name name.now) files.now }
{
    files.iter().position(|x| x.name.is(name))
}

fn range_place(ranges: &[RangeDecl], name: &[u8]) -> Option<usize>
    ensures { result ≡ position (λ x. bytes_eq x.name name.now) ranges.now }
{
    ranges.iter().position(|x| x.name.is(name))
}

fn queue_place(queues: &[QueueDecl], name: &[u8]) -> Option<usize>
    ensures { result ≡ position (λ x. bytes_eq x.name name.now) queues.now }
{
    queues.iter().position(|x| x.name.is(name))
}

fn file_or_range(file: Option<usize>, range: Option<usize>) -> Kind
    ensures { result ≡ spec.file_or_range file range }
{
    match (file, range) {
        (Some(file), _) => Kind::File(byte(file)),
        (None, Some(range)) => Kind::Range(byte(range)),
        (None, None) => Kind::Ar,
    }
}

fn state_or_queue(state: Option<usize>, input: Option<usize>, output: Option<usize>) -> Kind
    ensures { result ≡ spec.state_or_queue state input output }
{
    if let Some(state) = state {
        return Kind::State(byte(state));
    }
    match (input, output) {
        (Some(input), _) => Kind::InQueue(byte(input)),
        (None, Some(output)) => Kind::OutQueue(byte(output)),
        (None, None) => Kind::Ar,
    }
}

/// `AR`, or the file or range of a name.
pub fn argument_kind(scope: &Scope, leaf: &Leaf) -> Kind
    ensures { result ≡ spec.argument_kind scope.now.files.now scope.now.ranges.now leaf.now }
{
    let name = leaf.bytes.as_slice();
    if name == b"AR".as_slice() {
        return Kind::Ar;
    }
    file_or_range(
        file_place(scope.files, name),
        range_place(scope.ranges, name),
    )
}

/// The state or queue of a name.
pub fn link_kind(scope: &Scope, name: &[u8]) -> Kind
    ensures { result ≡ spec.link_kind scope.now.states.now scope.now.inputs.now scope.now.outputs.now name.now }
{
    state_or_queue(
        state_place(scope.states, name),
        queue_place(scope.inputs, name),
        queue_place(scope.outputs, name),
    )
}

/// An operand, where `late` says whether its operation uses anything at M.
pub fn operand(
    items: &[ScheduleItem],
    late: bool,
    name: &Leaf,
    direction: Direction,
    kind: Kind,
) -> Operand
    requires { IsTrue (is_word name.now.bytes) }
    ensures { result ≡ spec.operand items.now late name.now direction kind }
{
    Operand {
        name: name_of(name),
        kind,
        reads: is_read(direction),
        writes: is_written(direction),
        use_m: is_read(direction) && is_used_late(items, name),
        def_m: is_written(direction) && definition_late(items, late, name),
    }
}
