//! The whole report.

ghost use Rattle.std.specs.Prelude.{◌≡◌, ◌++◌, IfOk, OnOk, codes, if◌then◌else◌, string_bytes};
ghost use Rattle.net_ref.specs.Reference.{IsWhole};
ghost use Rattle.tie_report.specs.Report.{end_line, outcome_word, report_text};

use crate::collectors::push_collectors;
use crate::cores::push_cores;
use crate::outcome::word;
use crate::queues::push_queues;
use net_parts::{Net, Outcome, RunEnd};
use net_ref::{NoMemory, net_parts};
use std::alloc::{AllocError, Global};

fn outcome_word(outcome: Outcome) -> &'static str
    ensures { result.now ≡ outcome_word outcome }
{
    match outcome {
        Outcome::Halted => "halted",
        Outcome::Trapped => "trapped",
        Outcome::Unfinished => "unfinished",
        Outcome::Blocked => "blocked",
    }
}

fn end_word(stepped: bool, outcome: Outcome) -> &'static str
    ensures { result.now ≡ (if stepped then codes "stepped" else outcome_word outcome) }
{
    if stepped {
        "stepped"
    } else {
        outcome_word(outcome)
    }
}

fn push_end(text: &mut String, stepped: bool, outcome: Outcome) -> Result<(), AllocError>
    ensures { OnOk result (string_bytes text.new ≡ string_bytes text.old ++ end_line stepped outcome) }
{
    let word = end_word(stepped, outcome);
    write!(text, "end {word}\n")
}

/// The report of a network at the end of a run, each line with its LF. `stepped` says that the run was stopped by a
/// schedule. Takes memory for the text.
pub fn report(alloc: Global, net: &Net, end: &RunEnd, stepped: bool) -> Result<Vec<u8>, NoMemory>
    requires { IsWhole net.now end.now }
    ensures { IfOk result (λ text. text.items ≡ report_text net.now end.now stepped) }
{
    let mut text = String::new(alloc);
    push_cores(alloc, &mut text, net, end, stepped)?;
    push_queues(
        &mut text,
        stepped,
        net.queues.as_slice(),
        end.queues.as_slice(),
    )?;
    push_collectors(&mut text, net, end)?;
    push_end(&mut text, stepped, word(net, end))?;
    Ok(text.into_bytes())
}
