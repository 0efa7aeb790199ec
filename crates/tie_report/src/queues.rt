//! The lines of the queues.

ghost use Rattle.std.specs.Prelude.{◌≡◌, ◌++◌, OnOk, codes, drop, if◌then◌else◌, length, string_bytes};
ghost use Rattle.tie_report.specs.Report.{counts_words, queue_line, queue_lines, stepped_words};

use net_parts::{FromEnd, NetQueue, QueueEnd};
use net_ref::net_parts;
use std::alloc::AllocError;

/// Appends the counts of a queue at the end of a run: of one that a source writes the items consumed alone.
fn push_counts(text: &mut String, from: FromEnd, e: QueueEnd) -> Result<(), AllocError>
    ensures { OnOk result (string_bytes text.new ≡ string_bytes text.old ++ counts_words from e) }
{
    let QueueEnd {
        pushed,
        consumed,
        ..
    } = e;
    match from {
        FromEnd::Core { .. } => write!(text, " pushed {pushed} consumed {consumed}"),
        FromEnd::Source(_) => write!(text, " consumed {consumed}"),
    }
}

/// Appends all counts of a queue.
fn push_stepped(text: &mut String, e: QueueEnd) -> Result<(), AllocError>
    ensures { OnOk result (string_bytes text.new ≡ string_bytes text.old ++ stepped_words e) }
{
    let QueueEnd {
        pushed,
        consumed,
        held,
    } = e;
    write!(text, " pushed {pushed} consumed {consumed} held {held}")
}

fn push_all_counts(
    text: &mut String,
    stepped: bool,
    from: FromEnd,
    e: QueueEnd,
) -> Result<(), AllocError>
    ensures { OnOk result (string_bytes text.new ≡ string_bytes text.old ++ (if stepped then stepped_words e else counts_words from e)) }
{
    if stepped {
        push_stepped(text, e)
    } else {
        push_counts(text, from, e)
    }
}

fn push_queue(
    text: &mut String,
    stepped: bool,
    queue: &NetQueue,
    e: QueueEnd,
) -> Result<(), AllocError>
    ensures { OnOk result (string_bytes text.new ≡ string_bytes text.old ++ queue_line stepped queue.now e) }
{
    text.push_str("queue ")?;
    text.push_str(queue.name.as_str())?;
    push_all_counts(text, stepped, queue.from, e)?;
    text.push_str("\n")
}

/// Appends the lines of all queues.
pub fn push_queues(
    text: &mut String,
    stepped: bool,
    queues: &[NetQueue],
    ends: &[QueueEnd],
) -> Result<(), AllocError>
    requires { length queues.now ≡ length ends.now }
    ensures { OnOk result (string_bytes text.new ≡ string_bytes text.old ++ queue_lines stepped queues.now ends.now) }
{
    for q in 0..queues.len() {
        push_queue(text, stepped, &queues[q], ends[q])?;
    }
    Ok(())
}
