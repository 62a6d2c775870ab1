//! Gates that keep workers of a run waiting, or stop the run.
mod counter;
mod holding;
mod resting;
mod stopping;

pub use counter::Counting;
pub use holding::{AllButOne, Firm, Held, Loose, Order};
pub use resting::{AfterAnother, Hold, HoldsEntered, HoldsVisit, Rested, Stalls};
use std::sync::atomic::{AtomicU64, Ordering};
pub use stopping::{StopsAtOnce, StopsBy, StopsFrom};

/// How often a gate tests whether another worker has entered an event.
const MOST_TURNS: u32 = 10_000_000;

/// How many turns a gate gives the other workers to finish what they have begun.
const LINGER_TURNS: u32 = 100;

/// For each of at most eight workers, how many events the worker has entered, as the gate counts them.
#[derive(Drop)]
struct EntryCounts([AtomicU64; 8]);

impl EntryCounts {
    fn none() -> EntryCounts {
        EntryCounts([
            AtomicU64::new(0),
            AtomicU64::new(0),
            AtomicU64::new(0),
            AtomicU64::new(0),
            AtomicU64::new(0),
            AtomicU64::new(0),
            AtomicU64::new(0),
            AtomicU64::new(0),
        ])
    }

    fn add(&self, worker: usize) {
        if let Some(worker_count) = self.0.get(worker) {
            worker_count.fetch_add(1, Ordering::SeqCst);
        }
    }

    fn of(&self, worker: usize) -> u64 {
        match self.0.get(worker) {
            Some(worker_count) => worker_count.load(Ordering::SeqCst),
            None => 0,
        }
    }

    fn of_all(&self) -> u64 {
        let mut entry_sum = 0_u64;
        for worker_count in &self.0 {
            entry_sum = entry_sum.saturating_add(worker_count.load(Ordering::SeqCst));
        }
        entry_sum
    }
}
