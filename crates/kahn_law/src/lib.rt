//! The law of networks of deterministic workers with blocking reads.
//!
//! A network has workers, and queues with one writer and one reader each (Kahn 1974). What a worker does next is a
//! function of its state, and of the items that it pops; it waits where one is lacking. Stamps on the items put a
//! push before each use of its item (Lamport 1978). `docs/NETWORK-LAW.md` tells in words what is stated here.
//!
//! The functions of this file have no code: each is a law, and its clause states it for all networks over any type of
//! states and any type of values. The module `plain` is a program whose contracts cite the same definitions.
#![tactic(auto)]

ghost use Rattle.std.specs.Prelude.{ℕ, List};
ghost use Rattle.kahn_law.specs.Worker.{Rule, IsRegular};
ghost use Rattle.kahn_law.specs.Network.{Net, Gate, IsWired};
ghost use Rattle.kahn_law.specs.Causal.{Item, Kept, IsLocalRun, IsCausal, PrefixFacts};
ghost use Rattle.kahn_law.specs.Finish.{IsFinished, EndsAsStrict};
ghost use Rattle.kahn_law.specs.Clock.{next_clock, IsClockedRun, HasNotMoved, IsNextMove, IsClockedSet};
ghost use Rattle.kahn_law.specs.Laws.{LocalRuns, RunsAgree, RoundsGrow, HasOneStop, ReachesCausalSet, StrictKeepsRoom, ClockFacts};

pub mod plain;

/// Memory was lacking.
#[derive(Clone, Copy, Debug)]
pub struct NoMemory;

/// A local run is determined by its inputs, and longer inputs change nothing. A worker that has ended, by a halt or
/// before a move that traps, makes no move.
pub fn local_runs<A, V>()
    ensures { (r : Rule A V) (first : A) → LocalRuns r first }
{}

/// A reference, with bounded queues or without, only grows from round to round, and each of its workers is a local
/// run on the histories of its queues.
pub fn rounds_grow<A, V>()
    ensures { (net : Net A V) (gate : Gate A V) → RoundsGrow net gate }
{}

/// Every causal set of local runs has the prefix facts: all of it is fixed by the reference, whatever the order.
pub fn confluence<A, V>()
    ensures { (net : Net A V) (kept : ℕ → Kept A V) → IsWired net → IsCausal net kept
        → PrefixFacts net kept }
{}

/// Two runs of one network agree, in whatever orders they went: their histories where both reach, and all of a worker
/// that made as many moves in both.
pub fn runs_agree<A, V>()
    ensures { (net : Net A V) (one other : ℕ → Kept A V) → IsWired net
        → IsCausal net one → IsCausal net other → RunsAgree net one other }
{}

/// What a reference reaches is a causal set of local runs, and so has the prefix facts. What the strict reference
/// reaches keeps the capacities, and has finished where it stops.
pub fn references_are_causal<A, V>()
    ensures reached { (net : Net A V) (gate : Gate A V) (n : ℕ) → IsWired net → ReachesCausalSet net gate n }
    ensures strict { (net : Net A V) (n : ℕ) → IsWired net → StrictKeepsRoom net n }
{}

/// A causal set that has finished stops nowhere short of the strict reference: each worker that has ended there, or
/// is spent there, has made the same moves.
pub fn no_false_block<A, V>()
    ensures { (net : Net A V) (kept : ℕ → Kept A V) → IsWired net → IsCausal net kept
        → IsFinished net kept → EndsAsStrict net kept }
{}

/// A run that keeps a clock and stamps what it pushes with it begins with nothing and goes on by one move; it is a
/// local run with rising stamps. In a set of such
/// runs no clock passes the number of all moves, and the clocks are fixed by the network alone.
pub fn clocks_stamp<A, V>()
    ensures begins { (r : Rule A V) (first : A) (kept : Kept A V)
        → HasNotMoved first kept → IsClockedRun r first kept 0 }
    ensures goes_on { (r : Rule A V) (first : A) (before after : Kept A V) (clock : ℕ) (xs : List (Item V))
        → IsClockedRun r first before clock → IsNextMove r before after clock xs
        → IsClockedRun r first after (next_clock clock xs) }
    ensures rising { (r : Rule A V) (first : A) (kept : Kept A V) (clock : ℕ)
        → IsRegular r → IsClockedRun r first kept clock → IsLocalRun r first kept }
    ensures bounded { (net : Net A V) (kept : ℕ → Kept A V) (clock : ℕ → ℕ)
        → IsWired net → IsClockedSet net kept clock → ClockFacts net kept clock }
{}

/// A reference has one stop, and a worker that has ended, by a halt or by the mark of a trap, stays where it is.
pub fn one_stop<A, V>()
    ensures { (net : Net A V) (gate : Gate A V) → HasOneStop net gate }
{}
