//! Networks, run on one thread to their report.

ghost use Rattle.std.specs.Prelude.{◌≡◌, ◌≤◌, length};
ghost use Rattle.tie_report.specs.net_parts.Network.{IsNet};
ghost use Rattle.tie_report.specs.net_ref.Reference.{IsReference, IsStrict, IsWhole};
ghost use Rattle.tie_words.specs.Words as meant;
ghost use Rattle.load_law.specs.tie_files.Files.{shelved};
ghost use Rattle.load_law.specs.tie_files.Parts.{Judges};
ghost use Rattle.tie_top.specs.Meaning.{UnlessMemory, CommandMeans, Reports, ReportsAt, reported};
ghost use Rattle.tie_top.specs.Printing.{outcome_status};

use crate::Status;
use crate::report::Report;
use load_law::{net_desc, net_load, tie_files};
use net_desc::alone;
use net_load::load_net;
use net_parts::{Net, Outcome, RunEnd};
use net_ref::{ref_run, strict_run};
use std::alloc::Global;
use tie_desc::{Desc, Kit, Sequence};
use tie_files::{Refusal, read_hex_file, read_tie_file};
use tie_flix::image;
use tie_io::Shelf;
use tie_report::{net_parts, net_ref, report, word};

/// Runs an image on a processor that stands alone.
pub fn exec<S: Shelf>(alloc: Global, hex: &str, shelf: &mut S) -> Result<Report, Refusal>
    ensures { UnlessMemory (CommandMeans (shelved S.holds S.faults shelf.old shelf.new) (meant.Exec hex.now)) result }
{
    let bytes = read_hex_file(alloc, hex, shelf)?;
    run_image(alloc, Desc::empty(alloc), bytes)
}

/// Runs an image on a processor with the extension of a TIE text.
pub fn exec_tie<S: Shelf>(
    alloc: Global,
    hex: &str,
    tie: &str,
    shelf: &mut S,
) -> Result<Report, Refusal>
    ensures { UnlessMemory (CommandMeans (shelved S.holds S.faults shelf.old shelf.new) (meant.ExecTie hex.now tie.now)) result }
{
    let bytes = read_hex_file(alloc, hex, shelf)?;
    let desc = read_tie_file(alloc, tie, shelf)?;
    run_image(alloc, desc, bytes)
}

/// Runs a network whose queues have no bound.
pub fn reference<S: Shelf>(alloc: Global, net: &str, shelf: &mut S) -> Result<Report, Refusal>
    ensures { UnlessMemory (CommandMeans (shelved S.holds S.faults shelf.old shelf.new) (meant.Ref net.now)) result }
{
    let net = load_net(alloc, net, shelf)?;
    run_unbounded(alloc, &net)
}

/// Runs a network whose queues have their capacities.
pub fn strict<S: Shelf>(alloc: Global, net: &str, shelf: &mut S) -> Result<Report, Refusal>
    ensures { UnlessMemory (CommandMeans (shelved S.holds S.faults shelf.old shelf.new) (meant.Strict net.now)) result }
{
    let net = load_net(alloc, net, shelf)?;
    run_bounded(alloc, &net)
}

// The report of an image on a processor that stands alone, with this description.
fn run_image(alloc: Global, desc: Desc, bytes: Vec<u8>) -> Result<Report, Refusal>
    requires { length bytes.items ≤ 65536 }
    ensures { Judges (Reports desc bytes.items) (λ refusal. ⊥) result }
{
    let Ok(image) = image(alloc, &desc, &bytes) else {
        return Err(Refusal::NoMemory);
    };
    let net = alone(alloc, Kit { desc, image }, bytes)?;
    run_unbounded(alloc, &net)
}

fn run_unbounded(alloc: Global, net: &Net) -> Result<Report, Refusal>
    requires { IsNet net.now }
    ensures { Judges (ReportsAt IsReference net.now) (λ refusal. ⊥) result }
{
    let Ok(end) = ref_run(alloc, net) else {
        return Err(Refusal::NoMemory);
    };
    report_of(alloc, net, &end)
}

fn run_bounded(alloc: Global, net: &Net) -> Result<Report, Refusal>
    requires { IsNet net.now }
    ensures { Judges (ReportsAt IsStrict net.now) (λ refusal. ⊥) result }
{
    let Ok(end) = strict_run(alloc, net) else {
        return Err(Refusal::NoMemory);
    };
    report_of(alloc, net, &end)
}

fn report_of(alloc: Global, net: &Net, end: &RunEnd) -> Result<Report, Refusal>
    requires { IsWhole net.now end.now }
    ensures { Judges (λ report. report ≡ reported net.now end.now) (λ refusal. ⊥) result }
{
    let Ok(text) = report(alloc, net, end, false) else {
        return Err(Refusal::NoMemory);
    };
    Ok(Report {
        status: outcome_status(word(net, end)),
        text: Sequence::from_vec(text),
    })
}

fn outcome_status(outcome: Outcome) -> Status
    ensures { result ≡ outcome_status outcome }
{
    match outcome {
        Outcome::Halted => Status::Done,
        Outcome::Trapped => Status::Trapped,
        Outcome::Unfinished => Status::Unfinished,
        Outcome::Blocked => Status::Blocked,
    }
}
