//! No processor of a network waits without cause: where a reference stops, each worker has ended, is spent, or is held up by a
//! queue that is empty or full.
//!
//! The function of this file has no code: it is a law, and its clause states it for all networks.
#![tactic(auto)]

ghost use Rattle.std.specs.Prelude.{Bool};
ghost use Rattle.tie_report.specs.net_parts.Network.{IsNet};
ghost use Rattle.tie_report.specs.net_parts.declared.ends.RunEnd.{RunEnd};
ghost use Rattle.tie_report.specs.net_parts.declared.parts.Net.{Net};
ghost use Rattle.tie_report.specs.net_ref.Reference.{IsStop};
ghost use Rattle.stop_law.specs.Finished.{IsFinished};

/// Both references, with queues that have no bound and with queues that have capacities, stop nowhere short.
pub fn stops_are_finished()
    ensures { (bounded : Bool) (net : Net) (end : RunEnd) → IsNet net → IsStop bounded net end → IsFinished bounded net end }
{}
