//! How a worker naps: a worker pauses for a while and then looks for work again.
use std::sync::Wait;
use std::sync::atomic::{AtomicU64, Ordering};
use std::time::Duration;

/// Where the workers of a run nap. All workers wake when the run ends.
#[derive(Debug, Drop)]
pub(crate) struct NapRoom {
    run_ended: AtomicU64,
}

impl NapRoom {
    /// A room in which nobody naps, while the run goes on.
    pub(crate) fn new() -> NapRoom {
        NapRoom {
            run_ended: AtomicU64::new(0),
        }
    }

    /// Whether the run ends.
    pub(crate) fn is_over(&self) -> bool {
        self.run_ended.load(Ordering::SeqCst) != 0
    }

    /// Notes that the run ends.
    pub(crate) fn end(&self) {
        self.run_ended.store(1, Ordering::SeqCst);
        self.run_ended.wake_all();
    }

    /// Wakes all workers that nap.
    pub(crate) fn rouse(&self) {
        self.run_ended.wake_all();
    }
}

/// The lengths of a worker's naps, in microseconds. Each nap is twice as long as the one before, up to a longest nap.
/// So workers that find nothing to do take little time from those that work.
#[derive(Clone, Copy, Debug)]
pub(crate) struct Naps {
    next_micros: u64,
    longest_micros: u64,
}

impl Naps {
    /// The naps of a worker that found a lock taken, from the first nap on. These naps are long because each time a
    /// lock changes hands, the data under it moves from one processor to another.
    pub(crate) const FOR_LOCK: Naps = Naps {
        next_micros: 25_000,
        longest_micros: 100_000,
    };

    /// The naps of a worker that found no desk with work, from the first nap on.
    pub(crate) const FOR_WORK: Naps = Naps {
        next_micros: 200,
        longest_micros: 3_200,
    };

    /// Takes one nap in this room.
    pub(crate) fn nap<R: Wait>(&mut self, rt: &R, nap_room: &NapRoom) {
        nap_room
            .run_ended
            .park_timeout(rt, 0, Duration::from_micros(self.next_micros));
        self.next_micros = self.next_micros.saturating_mul(2).min(self.longest_micros);
    }
}
