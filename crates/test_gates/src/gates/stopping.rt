//! Gates that stop a run.
ghost use Rattle.std.specs.Prelude.{true, false};

use super::{EntryCounts, LINGER_TURNS};
use exchange_core::Desk;
use match_pool::{Gate, Go};
use std::sync::Wait;
use std::sync::atomic::{AtomicBool, AtomicU64, Ordering};
use std::thread;
use std::time::Duration;

/// A gate that stops the run at the first call of `pass`.
#[derive(Drop)]
pub struct StopsAtOnce;

impl Gate for StopsAtOnce {
    ghost MAY_STOP = { true };

    const MAY_STOP: bool = true;

    fn pass(&self, _worker: usize, _desk: Desk) -> Go {
        Go::Stop
    }

    fn entered(&self, _worker: usize) {}
}

/// A gate that stops the run at the call of `pass` with this number, counted from 1, and at each later call. The
/// first worker that then enters the event that it had begun is kept waiting until another worker has entered two
/// events, or until no worker has entered an event for a long time.
#[derive(Drop)]
pub struct StopsFrom {
    first_stopped_call: u64,
    pass_call_count: AtomicU64,
    stopped_workers: [AtomicBool; 8],
    has_stop_begun: AtomicBool,
    entry_counts: EntryCounts,
    entries_after_stop: EntryCounts,
}

impl StopsFrom {
    /// A gate that has counted no call yet.
    pub fn new(first_stopped_call: u64) -> StopsFrom {
        StopsFrom {
            first_stopped_call,
            pass_call_count: AtomicU64::new(0),
            stopped_workers: [
                AtomicBool::new(false),
                AtomicBool::new(false),
                AtomicBool::new(false),
                AtomicBool::new(false),
                AtomicBool::new(false),
                AtomicBool::new(false),
                AtomicBool::new(false),
                AtomicBool::new(false),
            ],
            has_stop_begun: AtomicBool::new(false),
            entry_counts: EntryCounts::none(),
            entries_after_stop: EntryCounts::none(),
        }
    }

    /// How many events this worker has entered.
    pub fn count(&self, worker: usize) -> u64 {
        self.entry_counts.of(worker)
    }

    /// Whether each worker entered at most one event after a stopped worker had entered its event.
    pub fn all_ended(&self) -> bool {
        for worker in 0..8 {
            if self.entries_after_stop.of(worker) > 1 {
                return false;
            }
        }
        true
    }

    fn is_stopped(&self, worker: usize) -> bool {
        match self.stopped_workers.get(worker) {
            Some(has_stopped) => has_stopped.load(Ordering::SeqCst),
            None => false,
        }
    }
}

impl Gate for StopsFrom {
    ghost MAY_STOP = { true };

    const MAY_STOP: bool = true;

    fn pass(&self, worker: usize, _desk: Desk) -> Go {
        if self
            .pass_call_count
            .fetch_add(1, Ordering::SeqCst)
            .saturating_add(1)
            < self.first_stopped_call
        {
            return Go::On;
        }
        if let Some(has_stopped) = self.stopped_workers.get(worker) {
            has_stopped.store(true, Ordering::SeqCst);
        }
        Go::Stop
    }

    fn entered(&self, worker: usize) {
        self.entry_counts.add(worker);
        if self.has_stop_begun.load(Ordering::SeqCst) {
            self.entries_after_stop.add(worker);
            return;
        }
        if self.is_stopped(worker) && !self.has_stop_begun.swap(true, Ordering::SeqCst) {
            for _ in 0..LINGER_TURNS {
                if !self.all_ended() {
                    return;
                }
                thread::yield_now();
            }
        }
    }
}

/// For how long, in microseconds, a gate waits for the other workers to come to rest before it stops the run.
const REST_MICROS: u64 = 200_000;

/// How often a gate tests whether the run is stopped, with a pause of a millisecond between two tests.
const MOST_LOOKS: u32 = 10_000;

/// A gate that stops the run in the first call of `pass` by one worker, after a wait in which each worker without a
/// desk comes to rest. Calls by other workers are kept waiting until the run is stopped.
#[derive(Drop)]
pub struct StopsBy<R: Wait + Copy> {
    rt: R,
    clock: AtomicU64,
    stopping_worker: Option<usize>,
    is_stopped: AtomicBool,
}

impl<R: Wait + Copy> StopsBy<R> {
    /// A gate before a run. This worker stops the run, or any worker if none is given.
    pub fn new(rt: R, stopping_worker: Option<usize>) -> StopsBy<R> {
        StopsBy {
            rt,
            clock: AtomicU64::new(0),
            stopping_worker,
            is_stopped: AtomicBool::new(false),
        }
    }

    fn sleep(&self, micros: u64) {
        self.clock
            .park_timeout(&self.rt, 0, Duration::from_micros(micros));
    }
}

impl<R: Wait + Copy + Sync> Gate for StopsBy<R> {
    ghost MAY_STOP = { true };

    const MAY_STOP: bool = true;

    fn pass(&self, worker: usize, _desk: Desk) -> Go {
        if self.stopping_worker.unwrap_or(worker) == worker {
            self.sleep(REST_MICROS);
            self.is_stopped.store(true, Ordering::SeqCst);
            return Go::Stop;
        }
        for _ in 0..MOST_LOOKS {
            if self.is_stopped.load(Ordering::SeqCst) {
                break;
            }
            self.sleep(1_000);
        }
        Go::On
    }

    fn entered(&self, _worker: usize) {}
}
