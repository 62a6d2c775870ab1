//! Gates that keep a worker waiting until the others are at rest, or until another worker has entered an event.
ghost use Rattle.std.specs.Prelude.{true, false};

use super::{EntryCounts, LINGER_TURNS, MOST_TURNS};
use exchange_core::Desk;
use match_model::{ProgrammeNo, ResidentNo};
use match_pool::{Gate, Go};
use std::sync::Wait;
use std::sync::atomic::{AtomicBool, AtomicU32, AtomicU64, Ordering};
use std::thread;
use std::time::Duration;

/// Which worker was kept waiting in a call of `pass`, and how many events were entered when the wait began and when
/// it ended.
#[derive(Clone, Copy, Debug, PartialEq, Eq)]
pub struct Hold {
    /// The worker that was kept waiting.
    pub worker: usize,
    /// The desk of the receipt for which the worker called `pass`.
    pub desk: Desk,
    /// How many events this worker itself had entered.
    pub own_entries: u64,
    /// How many events all workers had entered when the wait began.
    pub entries_before: u64,
    /// How many events all workers had entered when the wait ended.
    pub entries_after: u64,
}

/// How many pauses of a millisecond without an event show that the other workers are at rest.
const PAUSES: u32 = 30;

/// How many such pauses a gate makes at most.
const MOST_PAUSES: u32 = 10_000;

/// A gate that keeps one call of `pass` waiting until no worker has entered an event for a long time, and notes this
/// wait.
#[derive(Drop)]
pub struct Stalls<R: Wait + Copy> {
    rt: R,
    clock: AtomicU64,
    held_call_number: u64,
    pass_call_count: AtomicU64,
    worker: AtomicU64,
    is_resident_desk: AtomicBool,
    desk_number: AtomicU32,
    held_worker_entries: AtomicU64,
    entries_before: AtomicU64,
    entries_after: AtomicU64,
    was_held: AtomicBool,
    entry_counts: EntryCounts,
}

impl<R: Wait + Copy> Stalls<R> {
    /// A gate before the run. It keeps the call with the number `held_call_number` waiting, counted from 0.
    pub fn new(rt: R, held_call_number: u64) -> Stalls<R> {
        Stalls {
            rt,
            clock: AtomicU64::new(0),
            held_call_number,
            pass_call_count: AtomicU64::new(0),
            worker: AtomicU64::new(0),
            is_resident_desk: AtomicBool::new(false),
            desk_number: AtomicU32::new(0),
            held_worker_entries: AtomicU64::new(0),
            entries_before: AtomicU64::new(0),
            entries_after: AtomicU64::new(0),
            was_held: AtomicBool::new(false),
            entry_counts: EntryCounts::none(),
        }
    }

    /// How many events this worker has entered.
    pub fn count(&self, worker: usize) -> u64 {
        self.entry_counts.of(worker)
    }

    /// What the gate noted, or none if the run made too few calls of `pass`.
    pub fn hold(&self) -> Option<Hold> {
        if !self.was_held.load(Ordering::SeqCst) {
            return None;
        }
        let desk_number = self.desk_number.load(Ordering::SeqCst);
        let desk = if self.is_resident_desk.load(Ordering::SeqCst) {
            Desk::Resident(ResidentNo(desk_number))
        } else {
            Desk::Programme(ProgrammeNo(desk_number))
        };
        Some(Hold {
            worker: self.worker.load(Ordering::SeqCst) as usize,
            desk,
            own_entries: self.held_worker_entries.load(Ordering::SeqCst),
            entries_before: self.entries_before.load(Ordering::SeqCst),
            entries_after: self.entries_after.load(Ordering::SeqCst),
        })
    }

    // Waits until no worker has entered an event for a long time. Returns how many events were entered by then.
    fn wait_for_rest(&self) -> u64 {
        let mut entry_sum = self.entry_counts.of_all();
        let mut quiet_pause_count = 0_u32;
        for _ in 0..MOST_PAUSES {
            if quiet_pause_count >= PAUSES {
                break;
            }
            self.clock
                .park_timeout(&self.rt, 0, Duration::from_millis(1));
            let entry_sum_now = self.entry_counts.of_all();
            quiet_pause_count = if entry_sum_now == entry_sum {
                quiet_pause_count.saturating_add(1)
            } else {
                0
            };
            entry_sum = entry_sum_now;
        }
        entry_sum
    }

    // Notes the worker and the desk of the call that is kept waiting.
    fn note(&self, worker: usize, desk: Desk) {
        self.worker.store(worker as u64, Ordering::SeqCst);
        self.held_worker_entries
            .store(self.entry_counts.of(worker), Ordering::SeqCst);
        self.entries_before
            .store(self.entry_counts.of_all(), Ordering::SeqCst);
        match desk {
            Desk::Resident(resident) => {
                self.is_resident_desk.store(true, Ordering::SeqCst);
                self.desk_number.store(resident.0, Ordering::SeqCst);
            }
            Desk::Programme(programme) => self.desk_number.store(programme.0, Ordering::SeqCst),
        }
    }
}

impl<R: Wait + Copy + Sync> Gate for Stalls<R> {
    ghost MAY_STOP = { false };

    const MAY_STOP: bool = false;

    fn pass(&self, worker: usize, desk: Desk) -> Go {
        if self.pass_call_count.fetch_add(1, Ordering::SeqCst) != self.held_call_number {
            return Go::On;
        }
        self.note(worker, desk);
        self.entries_after
            .store(self.wait_for_rest(), Ordering::SeqCst);
        self.was_held.store(true, Ordering::SeqCst);
        Go::On
    }

    fn entered(&self, worker: usize) {
        self.entry_counts.add(worker);
    }
}

/// A gate that keeps one worker waiting: the one that entered the event with this number, counted from 1. The wait
/// ends when another worker has entered an event.
#[derive(Drop)]
pub struct HoldsEntered {
    event_number: u64,
    entered_events: AtomicU64,
    was_held: AtomicBool,
    entry_counts: EntryCounts,
}

impl HoldsEntered {
    /// A gate that has counted no entry yet.
    pub fn new(event_number: u64) -> HoldsEntered {
        HoldsEntered {
            event_number,
            entered_events: AtomicU64::new(0),
            was_held: AtomicBool::new(false),
            entry_counts: EntryCounts::none(),
        }
    }

    /// How many events this worker has entered.
    pub fn count(&self, worker: usize) -> u64 {
        self.entry_counts.of(worker)
    }

    /// Whether a worker was kept waiting, and another worker entered an event meanwhile.
    pub fn has_held(&self) -> bool {
        self.was_held.load(Ordering::SeqCst)
    }
}

impl Gate for HoldsEntered {
    ghost MAY_STOP = { false };

    const MAY_STOP: bool = false;

    fn pass(&self, _worker: usize, _desk: Desk) -> Go {
        Go::On
    }

    fn entered(&self, worker: usize) {
        self.entry_counts.add(worker);
        let own_number = self
            .entered_events
            .fetch_add(1, Ordering::SeqCst)
            .saturating_add(1);
        if own_number != self.event_number {
            return;
        }
        for _ in 0..MOST_TURNS {
            if self.entered_events.load(Ordering::SeqCst) > own_number {
                self.was_held.store(true, Ordering::SeqCst);
                return;
            }
            thread::yield_now();
        }
    }
}

/// A gate that keeps the worker that entered the first event waiting twice. The first wait ends a while after other
/// workers have entered two events, or after they have entered none for a long time. At this worker's next event the
/// second wait begins, and ends when another worker has entered one more event.
#[derive(Drop)]
pub struct HoldsVisit {
    has_visit_begun: AtomicBool,
    first_worker: AtomicU64,
    was_held: AtomicBool,
    entry_counts: EntryCounts,
}

impl HoldsVisit {
    /// A gate that has counted no entry yet.
    pub fn new() -> HoldsVisit {
        HoldsVisit {
            has_visit_begun: AtomicBool::new(false),
            first_worker: AtomicU64::new(0),
            was_held: AtomicBool::new(false),
            entry_counts: EntryCounts::none(),
        }
    }

    /// Whether the worker was kept waiting at its second event, and another worker entered an event meanwhile.
    pub fn has_held(&self) -> bool {
        self.was_held.load(Ordering::SeqCst)
    }

    // Waits until other workers have entered this number of events. Returns whether they have.
    fn wait_for_others(&self, worker: usize, event_count: u64) -> bool {
        for _ in 0..MOST_TURNS {
            if self
                .entry_counts
                .of_all()
                .saturating_sub(self.entry_counts.of(worker))
                >= event_count
            {
                return true;
            }
            thread::yield_now();
        }
        false
    }
}

impl Gate for HoldsVisit {
    ghost MAY_STOP = { false };

    const MAY_STOP: bool = false;

    fn pass(&self, _worker: usize, _desk: Desk) -> Go {
        Go::On
    }

    fn entered(&self, worker: usize) {
        self.entry_counts.add(worker);
        if !self.has_visit_begun.swap(true, Ordering::SeqCst) {
            self.first_worker.store(worker as u64, Ordering::SeqCst);
            self.wait_for_others(worker, 2);
            for _ in 0..LINGER_TURNS {
                thread::yield_now();
            }
        } else if self.first_worker.load(Ordering::SeqCst) == worker as u64
            && self.entry_counts.of(worker) == 2
            && self.wait_for_others(worker, 3)
        {
            self.was_held.store(true, Ordering::SeqCst);
        }
    }
}

/// For how long, in microseconds, a gate waits for the other workers to come to rest. Meanwhile each worker that
/// found nothing to do has looked again.
const REST_MICROS: u64 = 20_000;

/// How often a gate tests, with a pause between two tests, whether another worker has entered an event.
const MOST_LOOKS: u32 = 150;

/// A gate that keeps each receipt of one desk waiting for a while. At the next entry of that receipt's worker it
/// keeps the worker waiting until another worker has entered an event. After that it keeps no worker waiting.
#[derive(Drop)]
pub struct Rested<R: Wait + Copy> {
    rt: R,
    clock: AtomicU64,
    desk: Desk,
    receipt_worker: AtomicU64,
    next_own_entry: AtomicU64,
    other_entries: AtomicU64,
    was_held: AtomicBool,
    entry_counts: EntryCounts,
}

impl<R: Wait + Copy> Rested<R> {
    /// A gate before a run, which looks at the receipts of this desk.
    pub fn new(rt: R, desk: Desk) -> Rested<R> {
        Rested {
            rt,
            clock: AtomicU64::new(0),
            desk,
            receipt_worker: AtomicU64::new(0),
            next_own_entry: AtomicU64::new(0),
            other_entries: AtomicU64::new(0),
            was_held: AtomicBool::new(false),
            entry_counts: EntryCounts::none(),
        }
    }

    /// Whether a worker was kept waiting at an entry, and another worker entered an event meanwhile.
    pub fn has_held(&self) -> bool {
        self.was_held.load(Ordering::SeqCst)
    }

    fn sleep(&self) {
        self.clock
            .park_timeout(&self.rt, 0, Duration::from_micros(REST_MICROS));
    }

    // How many events the other workers have entered.
    fn entered_by_others(&self, worker: usize) -> u64 {
        self.entry_counts
            .of_all()
            .saturating_sub(self.entry_counts.of(worker))
    }

    // Waits until another worker has entered an event.
    fn hold(&self, worker: usize) {
        for _ in 0..MOST_LOOKS {
            if self.entered_by_others(worker) > self.other_entries.load(Ordering::SeqCst) {
                self.was_held.store(true, Ordering::SeqCst);
                return;
            }
            self.sleep();
        }
    }
}

impl<R: Wait + Copy + Sync> Gate for Rested<R> {
    ghost MAY_STOP = { false };

    const MAY_STOP: bool = false;

    fn pass(&self, worker: usize, desk: Desk) -> Go {
        if self.has_held() {
            return Go::On;
        }
        if desk == self.desk {
            let next_entry = self.entry_counts.of(worker).saturating_add(2);
            self.receipt_worker.store(worker as u64, Ordering::SeqCst);
            self.next_own_entry.store(next_entry, Ordering::SeqCst);
            self.sleep();
            self.other_entries
                .store(self.entered_by_others(worker), Ordering::SeqCst);
        } else if self.receipt_worker.load(Ordering::SeqCst) == worker as u64 {
            self.next_own_entry.store(0, Ordering::SeqCst);
        }
        Go::On
    }

    fn entered(&self, worker: usize) {
        self.entry_counts.add(worker);
        let is_next = self.entry_counts.of(worker) == self.next_own_entry.load(Ordering::SeqCst);
        if is_next && self.receipt_worker.load(Ordering::SeqCst) == worker as u64 {
            self.hold(worker);
        }
    }
}

/// A gate for the receipts of this desk. The first call of `pass` for another desk waits until a call for this desk
/// was made, and for a long time after that. The call for this desk waits until such a call for another desk waits.
#[derive(Drop)]
pub struct AfterAnother {
    desk: Desk,
    another_waits: AtomicBool,
    has_passed: AtomicBool,
    was_held: AtomicBool,
}

impl AfterAnother {
    /// A gate before a run, which looks at the receipts of this desk.
    pub fn new(desk: Desk) -> AfterAnother {
        AfterAnother {
            desk,
            another_waits: AtomicBool::new(false),
            has_passed: AtomicBool::new(false),
            was_held: AtomicBool::new(false),
        }
    }

    /// Whether a call of `pass` was kept waiting, and a call for this desk was made meanwhile.
    pub fn has_held(&self) -> bool {
        self.was_held.load(Ordering::SeqCst)
    }
}

// Waits until the flag is set, or until a long time has passed.
fn wait_for(flag: &AtomicBool) -> bool {
    for _ in 0..MOST_TURNS {
        if flag.load(Ordering::SeqCst) {
            return true;
        }
        thread::yield_now();
    }
    false
}

// Lets the other workers go on for a while.
fn linger() {
    for _ in 0..20 * LINGER_TURNS {
        thread::yield_now();
    }
}

impl Gate for AfterAnother {
    ghost MAY_STOP = { false };

    const MAY_STOP: bool = false;

    fn pass(&self, _worker: usize, desk: Desk) -> Go {
        if desk == self.desk {
            wait_for(&self.another_waits);
            self.has_passed.store(true, Ordering::SeqCst);
        } else if !self.another_waits.swap(true, Ordering::SeqCst) && wait_for(&self.has_passed) {
            linger();
            self.was_held.store(true, Ordering::SeqCst);
        }
        Go::On
    }

    fn entered(&self, _worker: usize) {}
}
