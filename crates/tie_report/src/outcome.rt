//! How a run ended.

ghost use Rattle.std.specs.Prelude.{◌≡◌};
ghost use Rattle.std.specs.List.{list_all, list_any, zip};
ghost use Rattle.net_ref.specs.net_parts.declared.ends.CoreEnd.{CoreEnd};
ghost use Rattle.net_ref.specs.net_parts.declared.parts.NetCore.{NetCore};
ghost use Rattle.net_ref.specs.Reference.{IsWhole};
ghost use Rattle.tie_report.specs.Standing.{is_halted, is_spent, is_trapped, word};

use net_parts::{CoreEnd, Net, NetCore, Outcome, RunEnd};
use net_ref::net_parts;
use xt_core::Ending;

fn is_halted(ending: Ending) -> bool
    ensures { result ≡ is_halted ending }
{
    match ending {
        Ending::Running => false,
        Ending::Halted => true,
        Ending::Trapped(_) => false,
    }
}

fn is_trapped(ending: Ending) -> bool
    ensures { result ≡ is_trapped ending }
{
    match ending {
        Ending::Running => false,
        Ending::Halted => false,
        Ending::Trapped(_) => true,
    }
}

/// Whether a processor still runs and has used up its budget.
fn is_spent(here: &NetCore, end: &CoreEnd) -> bool
    ensures { result ≡ is_spent here.now end.now }
{
    match end.arch.ending() {
        Ending::Running => end.retired == u64::from(here.budget),
        Ending::Halted => false,
        Ending::Trapped(_) => false,
    }
}

fn any_trapped(ends: &[CoreEnd]) -> bool
    ensures { result ≡ list_any (λ (e : CoreEnd). is_trapped e.arch.ending) ends.now }
{
    ends.iter().any(|e| is_trapped(e.arch.ending()))
}

fn any_spent(cores: &[NetCore], ends: &[CoreEnd]) -> bool
    ensures { result ≡ list_any (λ (x : NetCore × CoreEnd). is_spent x.0 x.1) (zip cores.now ends.now) }
{
    cores.iter().zip(ends).any(|(here, e)| is_spent(here, e))
}

fn all_halted(ends: &[CoreEnd]) -> bool
    ensures { result ≡ list_all (λ (e : CoreEnd). is_halted e.arch.ending) ends.now }
{
    ends.iter().all(|e| is_halted(e.arch.ending()))
}

/// How the run ended: a processor has trapped; else one has used up its budget; else all have halted; else one waits.
pub fn word(net: &Net, end: &RunEnd) -> Outcome
    requires { IsWhole net.now end.now }
    ensures { result ≡ word net.now end.now }
{
    if any_trapped(end.cores.as_slice()) {
        return Outcome::Trapped;
    }
    if any_spent(net.cores.as_slice(), end.cores.as_slice()) {
        return Outcome::Unfinished;
    }
    if all_halted(end.cores.as_slice()) {
        return Outcome::Halted;
    }
    Outcome::Blocked
}
