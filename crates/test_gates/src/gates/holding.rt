//! Gates that keep one worker waiting, or all workers but one, until the others have entered events.
ghost use Rattle.std.specs.Prelude.{true, false};

use super::{EntryCounts, MOST_TURNS};
use exchange_core::Desk;
use match_pool::{Gate, Go};
use std::sync::atomic::{AtomicBool, AtomicU64, Ordering};
use std::thread;

/// The notes of a gate that keeps one call of `pass` waiting until other workers have entered two
/// events.
#[derive(Drop)]
pub struct Held {
    held_call_number: u64,
    pass_call_count: AtomicU64,
    was_held: AtomicBool,
    entry_counts: EntryCounts,
}

impl Held {
    /// A new record, before the run. The call with the number `held_call_number`, counted from 0, is to be kept waiting.
    pub fn new(held_call_number: u64) -> Held {
        Held {
            held_call_number,
            pass_call_count: AtomicU64::new(0),
            was_held: AtomicBool::new(false),
            entry_counts: EntryCounts::none(),
        }
    }

    /// Whether the call was kept waiting, and other workers entered events meanwhile.
    pub fn has_held(&self) -> bool {
        self.was_held.load(Ordering::SeqCst)
    }

    /// How many events this worker has entered.
    pub fn count(&self, worker: usize) -> u64 {
        self.entry_counts.of(worker)
    }

    /// How many events the workers have entered together.
    pub fn count_all(&self) -> u64 {
        self.entry_counts.of_all()
    }

    // How many events the other workers have entered.
    fn count_others(&self, worker: usize) -> u64 {
        self.entry_counts
            .of_all()
            .saturating_sub(self.entry_counts.of(worker))
    }

    // Keeps the chosen call of `pass` waiting. Returns whether the wait ended without the events of other workers.
    fn gives_up(&self, worker: usize) -> bool {
        if self.pass_call_count.fetch_add(1, Ordering::SeqCst) != self.held_call_number {
            return false;
        }
        let others_at_start = self.count_others(worker);
        for _ in 0..MOST_TURNS {
            if self.count_others(worker).saturating_sub(others_at_start) >= 2 {
                self.was_held.store(true, Ordering::SeqCst);
                return false;
            }
            thread::yield_now();
        }
        true
    }
}

/// A gate that keeps one call of `pass` waiting, and never stops the run.
#[derive(Drop)]
pub struct Firm(pub Held);

impl Gate for Firm {
    ghost MAY_STOP = { false };

    const MAY_STOP: bool = false;

    fn pass(&self, worker: usize, _desk: Desk) -> Go {
        self.0.gives_up(worker);
        Go::On
    }

    fn entered(&self, worker: usize) {
        self.0.entry_counts.add(worker);
    }
}

/// A gate that keeps one call of `pass` waiting, and stops the run if no other workers enter events
/// meanwhile.
#[derive(Drop)]
pub struct Loose(pub Held);

impl Gate for Loose {
    ghost MAY_STOP = { true };

    const MAY_STOP: bool = true;

    fn pass(&self, worker: usize, _desk: Desk) -> Go {
        if self.0.gives_up(worker) {
            Go::Stop
        } else {
            Go::On
        }
    }

    fn entered(&self, worker: usize) {
        self.0.entry_counts.add(worker);
    }
}

/// The order in which a gate releases the workers that it keeps waiting.
#[derive(Clone, Copy, Debug, PartialEq, Eq)]
pub enum Order {
    /// The worker that came first is released first.
    FirstFirst,
    /// The worker that came last is released first.
    LastFirst,
    /// Every second worker is released first, and then the rest.
    EveryOther,
}

/// A gate for a market of pairs: each pair is a programme with one place and a resident, who rank only each other.
///
/// The gate keeps all workers but the last one waiting, each in a call of `pass`. It releases the first of them when
/// all events that need no waiting worker are entered. It releases each further worker when all events that need none
/// of the workers still waiting are entered.
#[derive(Drop)]
pub struct AllButOne {
    pairs: u64,
    held_workers: u64,
    order: Order,
    came_workers: AtomicU64,
    waiting_workers: AtomicU64,
    blocked_events: AtomicU64,
    released_workers: AtomicU64,
    has_given_up: AtomicBool,
    entry_counts: EntryCounts,
}

impl AllButOne {
    /// A gate before a run with this number of pairs, which keeps `held_workers` workers waiting.
    pub fn new(pairs: u64, held_workers: u64, order: Order) -> AllButOne {
        AllButOne {
            pairs,
            held_workers,
            order,
            came_workers: AtomicU64::new(0),
            waiting_workers: AtomicU64::new(0),
            blocked_events: AtomicU64::new(0),
            released_workers: AtomicU64::new(0),
            has_given_up: AtomicBool::new(false),
            entry_counts: EntryCounts::none(),
        }
    }

    /// Whether the gate kept `held_workers` workers waiting and released each of them, without giving up on any.
    pub fn has_held_all(&self) -> bool {
        self.released_workers.load(Ordering::SeqCst) == self.held_workers
            && !self.has_given_up.load(Ordering::SeqCst)
    }

    // The place in the order of release of the worker that came in this place.
    fn release_place_of(&self, arrival: u64) -> u64 {
        match self.order {
            Order::FirstFirst => arrival,
            Order::LastFirst => self.held_workers.saturating_sub(arrival.saturating_add(1)),
            Order::EveryOther if arrival % 2 == 0 => arrival / 2,
            Order::EveryOther => self.held_workers.div_ceil(2).saturating_add(arrival / 2),
        }
    }

    // Whether the worker in this place is released now: all workers that the gate keeps waiting have come,
    // those before it were released, and all events possible without it are entered.
    fn is_turn_of(&self, release_place: u64) -> bool {
        let entered_events = self.entry_counts.of_all();
        let blocked_events = self.blocked_events.load(Ordering::SeqCst);
        self.waiting_workers.load(Ordering::SeqCst) == self.held_workers
            && self.released_workers.load(Ordering::SeqCst) == release_place
            && entered_events.saturating_add(blocked_events) >= self.pairs.saturating_mul(4)
    }

    // Keeps a worker waiting. `event_count` is the number of events that can be entered only once it goes on.
    fn hold(&self, arrival: u64, event_count: u64) {
        self.blocked_events.fetch_add(event_count, Ordering::SeqCst);
        self.waiting_workers.fetch_add(1, Ordering::SeqCst);
        let release_place = self.release_place_of(arrival);
        for _ in 0..MOST_TURNS {
            if self.is_turn_of(release_place) {
                self.blocked_events.fetch_sub(event_count, Ordering::SeqCst);
                self.released_workers.fetch_add(1, Ordering::SeqCst);
                return;
            }
            thread::yield_now();
        }
        self.has_given_up.store(true, Ordering::SeqCst);
    }
}

impl Gate for AllButOne {
    ghost MAY_STOP = { false };

    const MAY_STOP: bool = false;

    fn pass(&self, _worker: usize, desk: Desk) -> Go {
        let arrival = self.came_workers.fetch_add(1, Ordering::SeqCst);
        if arrival < self.held_workers {
            // the offer of a pair is entered before its take, and the answer of a pair is entered before its hear
            let event_count = match desk {
                Desk::Resident(_) => 3,
                Desk::Programme(_) => 1,
            };
            self.hold(arrival, event_count);
        }
        Go::On
    }

    fn entered(&self, worker: usize) {
        self.entry_counts.add(worker);
    }
}
