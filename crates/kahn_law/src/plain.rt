//! Networks of tiny machines, and the two references as loops over rounds.
//!
//! A machine is a list of steps over one sum. Each step is one move: it pops an item or doesn't, adds a number, and
//! pushes the sum or doesn't. The contracts say that each machine is then where the definitions of the law put it.

ghost use Rattle.std.specs.Prelude.{◌≡◌, ◌==◌, if◌then◌else◌, ℕ, ◌+◌, ◌*◌, ◌^◌, ◌<◌, ◌≤◌, length, count_by, slice_get, vec_len, MatchOption, IfOk, OnOk, IsTrue, ◌↔◌};
ghost use Rattle.std.specs.Option.{option_map, option_to_list};
ghost use Rattle.kahn_law.specs.Worker.{times};
ghost use Rattle.kahn_law.specs.Network.{has_room, history, open_gate, room_gate, ref, strict};
ghost use Rattle.kahn_law.specs.Clock.{clocked_net, clocked_rounds};
ghost use Rattle.kahn_law.specs.Machines.{net_of, item_of, sent_to, node_of, nodes_of, plain_nodes_of, writer_of, reader_of, capacity_of, starting_of, step_after, move_of, node_after, IsMade, turn_of, turns_of, rounds_of, all_budgets, HasSmallStamps};

use crate::NoMemory;
use std::alloc::Global;

/// One step of a machine.
#[derive(Clone, Copy)]
pub struct Step {
    /// The queue that the step pops.
    pub from: Option<usize>,
    /// What it adds to the popped value, or to the sum where it pops none, in 32 bits.
    pub add: u32,
    /// The queue that it pushes the new sum to.
    pub to: Option<usize>,
    /// Whether it traps; then it does nothing else.
    pub traps: bool,
}

/// A list of steps, with the most moves that the machine makes. It halts behind its last step, or begins again.
#[derive(Drop)]
pub struct Machine {
    pub steps: Vec<Step>,
    pub repeats: bool,
    pub budget: u64,
}

/// A queue with the numbers of the machines at its ends, its room in items, and the items that it begins with.
#[derive(Drop)]
pub struct Queue {
    pub writer: usize,
    pub reader: usize,
    pub capacity: usize,
    pub starting: Vec<u32>,
}

/// A network of machines.
#[derive(Drop)]
pub struct Machines {
    pub machines: Vec<Machine>,
    pub queues: Vec<Queue>,
}

/// A value with its stamp.
#[derive(Clone, Copy)]
pub struct Stamped {
    pub value: u32,
    pub stamp: u64,
}

/// An item, and the queue that it was pushed to.
#[derive(Clone, Copy)]
pub struct Sent {
    pub queue: usize,
    pub item: Stamped,
}

/// A machine's part of a run: its moves, the number of its next step, its sum and its clock, the queues that it
/// popped, and the items that it pushed, each in order.
#[derive(Drop)]
pub struct Place {
    pub count: u64,
    pub at: usize,
    pub sum: u32,
    pub clock: u64,
    pub popped: Vec<usize>,
    pub sent: Vec<Sent>,
}

/// What a move makes of a place.
#[derive(Clone, Copy)]
struct Move {
    count: u64,
    at: usize,
    sum: u32,
    clock: u64,
    popped: Option<usize>,
    sent: Option<Sent>,
}

impl Machine {
    /// The number of the step behind this one.
    fn step_after(&self, at: usize) -> usize
        requires { at < length self.now.steps.items }
        ensures { result ≡ step_after self.now.steps.items self.now.repeats at }
    {
        if self.repeats && at + 1 == self.steps.len() {
            0
        } else {
            at + 1
        }
    }

    /// The move of this step, from a value and a clock.
    fn move_of(&self, place: &Place, step: Step, value: u32, clock: u64) -> Move
        requires at { place.now.at < length self.now.steps.items }
        requires count { place.now.count < self.now.budget }
        requires clock { clock < 2 ^ 63 }
        ensures { result ≡ move_of self.now place.now step value clock }
    {
        let sum = value.wrapping_add(step.add);
        let clock = clock + 1;
        Move {
            count: place.count + 1,
            at: self.step_after(place.at),
            sum,
            clock,
            popped: step.from,
            sent: step.to.map(|queue| Sent {
                queue,
                item: Stamped {
                    value: sum,
                    stamp: clock,
                },
            }),
        }
    }
}

impl Place {
    /// How many items of this queue the machine consumed.
    #[tactic(auto, using(crate::proofs::MachineLemmas::times_count))]
    pub fn consumed(&self, queue: usize) -> usize
        ensures { result ≡ times queue self.now.popped.items }
    {
        self.popped.iter().filter(|q| **q == queue).count()
    }

    /// How many items the machine pushed to this queue.
    #[tactic(auto, using(crate::proofs::MachineLemmas::sent_count))]
    pub fn pushed(&self, queue: usize) -> usize
        ensures { result ≡ length (sent_to queue self.now.sent.items) }
    {
        self.sent.iter().filter(|s| s.queue == queue).count()
    }

    /// The item with this number among those that the machine pushed to this queue.
    pub fn item(&self, queue: usize, index: usize) -> Option<Stamped>
        ensures { option_map item_of result ≡ slice_get (sent_to queue self.now.sent.items) index }
    {
        let mut left = index;
        for s in &self.sent {
            if s.queue == queue {
                if left == 0 {
                    return Some(s.item);
                }
                left -= 1;
            }
        }
        None
    }
}

impl Machines {
    /// The machine that writes a queue.
    fn writer(&self, queue: usize) -> usize
        ensures { result ≡ writer_of (slice_get self.now.queues.items queue) }
    {
        match self.queues.get(queue) {
            Some(q) => q.writer,
            None => 0,
        }
    }

    /// The number of items that a queue begins with.
    fn starting(&self, queue: usize) -> usize
        ensures { result ≡ length (starting_of (slice_get self.now.queues.items queue)) }
    {
        match self.queues.get(queue) {
            Some(q) => q.starting.len(),
            None => 0,
        }
    }

    /// The item with this number in a queue's history.
    fn item(&self, places: &[Place], queue: usize, index: usize) -> Option<Stamped>
        ensures { let writer = writer_of (slice_get self.now.queues.items queue) in
            option_map item_of result
            ≡ slice_get (history (clocked_net (net_of self.now)) (nodes_of places.now) writer queue) index }
    {
        if let Some(q) = self.queues.get(queue) {
            if index < q.starting.len() {
                return Some(Stamped {
                    value: q.starting[index],
                    stamp: 0,
                });
            }
        }
        let place = places.get(self.writer(queue))?;
        place.item(queue, index - self.starting(queue))
    }

    /// The machine that reads a queue.
    fn reader(&self, queue: usize) -> usize
        ensures { result ≡ reader_of (slice_get self.now.queues.items queue) }
    {
        match self.queues.get(queue) {
            Some(q) => q.reader,
            None => 0,
        }
    }

    /// The number of items that a queue has room for.
    fn capacity(&self, queue: usize) -> usize
        ensures { result ≡ capacity_of (slice_get self.now.queues.items queue) }
    {
        match self.queues.get(queue) {
            Some(q) => q.capacity,
            None => 0,
        }
    }

    /// Whether the queue that a step pushes to, if any, has room.
    fn has_room(&self, places: &[Place], place: &Place, to: Option<usize>) -> bool
        ensures { (w : ℕ) → slice_get places.now w ≡ Some place.now
            → result ≡ has_room (net_of self.now) (plain_nodes_of places.now) w (option_to_list to) }
    {
        let Some(queue) = to else {
            return true;
        };
        let starting = self.starting(queue) as u128;
        let pushed = place.pushed(queue) as u128;
        let consumed = consumed_by(places, self.reader(queue), queue) as u128;
        let capacity = self.capacity(queue) as u128;
        starting + pushed < consumed + capacity
    }
}

impl Place {
    /// Takes a move into account.
    fn make(&mut self, m: Move) -> Result<(), NoMemory>
        ensures { OnOk result (IsMade self.old m self.new) }
    {
        if let Some(queue) = m.popped {
            self.popped.push(queue).map_err(|_| NoMemory)?;
        }
        if let Some(sent) = m.sent {
            self.sent.push(sent).map_err(|_| NoMemory)?;
        }
        self.count = m.count;
        self.at = m.at;
        self.sum = m.sum;
        self.clock = m.clock;
        Ok(())
    }
}

impl Machines {
    /// The move that a machine at this place makes in its turn, if it makes one.
    fn move_at(
        &self,
        places: &[Place],
        machine: &Machine,
        place: &Place,
        bounded: bool,
    ) -> Option<Move>
        requires clock { place.now.clock < 2 ^ 63 }
        requires small { (v : ℕ) → HasSmallStamps (nodes_of places.now v) }
        ensures { (w : ℕ) → slice_get self.now.machines.items w ≡ Some machine.now
            → slice_get places.now w ≡ Some place.now
            → MatchOption result
            (turn_of self.now bounded (nodes_of places.now) w ≡ nodes_of places.now w)
            (λ m. turn_of self.now bounded (nodes_of places.now) w ≡ node_after m (nodes_of places.now w)) }
    {
        if place.count >= machine.budget {
            return None;
        }
        let step = *machine.steps.get(place.at)?;
        if step.traps || (bounded && !self.has_room(places, place, step.to)) {
            return None;
        }
        let Some(queue) = step.from else {
            return Some(machine.move_of(place, step, place.sum, place.clock));
        };
        let item = self.item(places, queue, place.consumed(queue))?;
        Some(machine.move_of(place, step, item.value, place.clock.max(item.stamp)))
    }
}

impl Machines {
    /// The move that a machine makes in its turn, if it makes one.
    fn next_move(&self, places: &[Place], w: usize, bounded: bool) -> Option<Move>
        requires machine { w < length self.now.machines.items }
        requires place { w < length places.now }
        requires small { (v : ℕ) → HasSmallStamps (nodes_of places.now v) }
        ensures { MatchOption result
            (turn_of self.now bounded (nodes_of places.now) w ≡ nodes_of places.now w)
            (λ m. turn_of self.now bounded (nodes_of places.now) w ≡ node_after m (nodes_of places.now w)) }
    {
        self.move_at(places, &self.machines[w], &places[w], bounded)
    }
}

/// How many items of a queue a machine consumed.
fn consumed_by(places: &[Place], machine: usize, queue: usize) -> usize
    ensures { result ≡ (nodes_of places.now machine).now.consumed queue }
{
    match places.get(machine) {
        Some(place) => place.consumed(queue),
        None => 0,
    }
}

/// The turn of one machine, in place.
fn take_turn(net: &Machines, places: &mut [Place], w: usize, bounded: bool) -> Result<(), NoMemory>
    requires machine { w < length net.now.machines.items }
    requires place { w < length places.old }
    requires small { (v : ℕ) → HasSmallStamps (nodes_of places.old v) }
    ensures { OnOk result ((v : ℕ) → nodes_of places.new v
        ≡ (if v == w then turn_of net.now bounded (nodes_of places.old) w else nodes_of places.old v)) }
{
    if let Some(m) = net.next_move(places, w, bounded) {
        places[w].make(m)?;
    }
    Ok(())
}

/// One round: the turns of all machines in order.
fn run_round(net: &Machines, places: &mut [Place], bounded: bool) -> Result<(), NoMemory>
    requires places { length places.old ≡ length net.now.machines.items }
    requires small { (m v : ℕ) → m ≤ length net.now.machines.items
        → HasSmallStamps (turns_of net.now bounded (nodes_of places.old) m v) }
    ensures { OnOk result ((v : ℕ) → nodes_of places.new v
        ≡ turns_of net.now bounded (nodes_of places.old) (length net.now.machines.items) v) }
{
    for w in 0..net.machines.len() {
        take_turn(net, places, w, bounded)?;
    }
    Ok(())
}

/// The places of machines that haven't moved.
fn first_places(alloc: Global, net: &Machines) -> Result<Vec<Place>, NoMemory>
    ensures len { IfOk result (λ places. vec_len places ≡ length net.now.machines.items) }
    ensures first { IfOk result (λ places. (v : ℕ) → nodes_of places.items v ≡ node_of None) }
{
    let mut places = Vec::new(alloc);
    for _ in 0..net.machines.len() {
        let place = Place {
            count: 0,
            at: 0,
            sum: 0,
            clock: 0,
            popped: Vec::new(alloc),
            sent: Vec::new(alloc),
        };
        places.push(place).map_err(|_| NoMemory)?;
    }
    Ok(places)
}

/// The machines after so many rounds.
fn run(alloc: Global, net: &Machines, rounds: u64, bounded: bool) -> Result<Vec<Place>, NoMemory>
    requires { all_budgets net.now < 2 ^ 63 }
    ensures { IfOk result (λ places. (w : ℕ) → nodes_of places.items w ≡ rounds_of net.now bounded rounds w) }
{
    let mut places = first_places(alloc, net)?;
    for _ in 0..rounds {
        run_round(net, places.as_mut_slice(), bounded)?;
    }
    Ok(places)
}

impl Machines {
    /// Whether all budgets together are below half of what a machine word holds; then no clock overflows.
    pub fn has_small_budgets(&self) -> bool
        ensures { IsTrue result ↔ (all_budgets self.now < 2 ^ 63) }
    {
        let mut total: u64 = 0;
        for machine in &self.machines {
            match total.checked_add(machine.budget) {
                Some(sum) => total = sum,
                None => return false,
            }
        }
        total < 0x8000_0000_0000_0000
    }
}

/// The machines after so many rounds of the reference, whose queues have no bound.
pub fn run_ref(alloc: Global, net: &Machines, rounds: u64) -> Result<Vec<Place>, NoMemory>
    requires { all_budgets net.now < 2 ^ 63 }
    ensures clocked { IfOk result (λ places. (w : ℕ) → nodes_of places.items w
        ≡ clocked_rounds (net_of net.now) open_gate rounds w) }
    ensures reference { IfOk result (λ places. (w : ℕ) → plain_nodes_of places.items w ≡ ref (net_of net.now) rounds w) }
{
    run(alloc, net, rounds, false)
}

/// The machines after so many rounds of the strict reference, whose queues have capacities.
pub fn run_strict(alloc: Global, net: &Machines, rounds: u64) -> Result<Vec<Place>, NoMemory>
    requires { all_budgets net.now < 2 ^ 63 }
    ensures clocked { IfOk result (λ places. (w : ℕ) → nodes_of places.items w
        ≡ clocked_rounds (net_of net.now) (room_gate (net_of net.now)) rounds w) }
    ensures reference { IfOk result (λ places. (w : ℕ) → plain_nodes_of places.items w ≡ strict (net_of net.now) rounds w) }
{
    run(alloc, net, rounds, true)
}
