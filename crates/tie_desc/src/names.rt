//! What a name stands for. No two declarations have one name, so there is at most one.

ghost use Rattle.std.specs.Prelude.{◌≡◌, ◌<◌, ◌≤◌, length, position, IfSome};
ghost use Rattle.std.specs.Str.{bytes_eq};

use crate::declarations::{OpDecl, QueueDecl};
use crate::desc::Desc;
use crate::formats::FormatDecl;

fn op_place(ops: &[OpDecl], name: &[u8]) -> Option<usize>
    ensures { result ≡ position (λ op. bytes_eq op.name name.now) ops.now }
{
    ops.iter().position(|op| op.name.is(name))
}

fn format_place(formats: &[FormatDecl], name: &[u8]) -> Option<usize>
    ensures { result ≡ position (λ format. bytes_eq format.name name.now) formats.now }
{
    formats.iter().position(|format| format.name.is(name))
}

fn queue_place(queues: &[QueueDecl], name: &[u8]) -> Option<usize>
    ensures { result ≡ position (λ queue. bytes_eq queue.name name.now) queues.now }
{
    queues.iter().position(|queue| queue.name.is(name))
}

/// A place as a number.
fn number(place: Option<usize>) -> Option<u8>
    requires { IfSome place (λ at. at < 256) }
    ensures { result ≡ place }
{
    match place {
        Some(at) => Some(at as u8),
        None => None,
    }
}

/// The number of the operation of a name.
pub fn op_named(desc: &Desc, name: &[u8]) -> Option<u8>
    ensures { result ≡ position (λ op. bytes_eq op.name name.now) desc.now.ops }
{
    number(op_place(desc.ops.as_slice(), name))
}

/// The number of the format of a name.
pub fn format_named(desc: &Desc, name: &[u8]) -> Option<u8>
    ensures { result ≡ position (λ format. bytes_eq format.name name.now) desc.now.formats }
{
    number(format_place(desc.formats.as_slice(), name))
}

/// The number of the input queue of a name.
pub fn input_named(desc: &Desc, name: &[u8]) -> Option<u8>
    ensures { result ≡ position (λ queue. bytes_eq queue.name name.now) desc.now.ins }
{
    number(queue_place(desc.ins.as_slice(), name))
}

/// The number of the output queue of a name.
pub fn output_named(desc: &Desc, name: &[u8]) -> Option<u8>
    ensures { result ≡ position (λ queue. bytes_eq queue.name name.now) desc.now.outs }
{
    number(queue_place(desc.outs.as_slice(), name))
}
