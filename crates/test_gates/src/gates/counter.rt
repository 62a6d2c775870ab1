//! A gate that counts the entries of workers.
ghost use Rattle.std.specs.Prelude.{true, false};

use super::EntryCounts;
use exchange_core::Desk;
use match_pool::{Gate, Go};

/// A gate that counts the calls of `entered` by each worker. It never stops the run.
#[derive(Drop)]
pub struct Counting {
    entry_counts: EntryCounts,
}

impl Counting {
    /// A gate that has counted no entry yet.
    pub fn new() -> Counting {
        Counting {
            entry_counts: EntryCounts::none(),
        }
    }

    /// How many events this worker has entered.
    pub fn count(&self, worker: usize) -> u64 {
        self.entry_counts.of(worker)
    }

    /// How many events the workers have entered together.
    pub fn count_all(&self) -> u64 {
        self.entry_counts.of_all()
    }
}

impl Gate for Counting {
    ghost MAY_STOP = { false };

    const MAY_STOP: bool = false;

    fn pass(&self, _worker: usize, _desk: Desk) -> Go {
        Go::On
    }

    fn entered(&self, worker: usize) {
        self.entry_counts.add(worker);
    }
}
