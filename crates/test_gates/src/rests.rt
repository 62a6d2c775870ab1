//! A gate that keeps workers waiting until the other workers have done all that they can without
//! the waiting workers' desks.
ghost use Rattle.std.specs.Prelude.{true, false};

use exchange_core::Desk;
use match_pool::{Gate, Go};
use std::sync::Wait;
use std::sync::atomic::{AtomicBool, AtomicU64, Ordering};
use std::time::Duration;

/// How often a gate looks whether the other workers have done what they can; it looks once in a millisecond.
const MOST_LOOKS: u32 = 10_000;

/// How often a gate naps to let the other workers fall asleep. A worker that finds nothing to do naps eight times
/// before it sleeps, and none of these naps is longer than the gate's.
const NAPS_UNTIL_ASLEEP: u32 = 50;

/// The length of a gate's nap, in microseconds.
const NAP_MICROS: u64 = 4_000;

/// What a call of `pass` waits for.
#[derive(Clone, Copy, Debug)]
pub enum Until {
    /// Until this many events are entered.
    Entered(u64),
    /// Until this many calls for residents' desks are made, including the waiting call.
    Takes(u64),
}

/// Which calls of `pass` a gate keeps waiting, and for what. The numbers follow from the market: they say how much
/// can be done without the desks of the waiting calls.
#[derive(Clone, Copy, Debug)]
pub struct Holds {
    /// After the first event, its worker waits until this many events are entered.
    pub events_to_begin: u64,
    /// Every call for a resident's desk waits until this many events are entered.
    pub events_to_take: u64,
    /// The first call for this desk waits until this many events are entered, and then until the other workers sleep.
    pub first_desk_call: (Desk, u64),
    /// The first call for another desk waits until this many events are entered.
    pub other_desk_call: Option<(Desk, u64)>,
    /// How many calls for residents' desks wait, after the call for the first desk went on, and for what.
    pub next_takes: (u64, Until),
}

/// A gate that keeps calls of `pass` waiting until the other workers have done what they can. If they don't do it in
/// a long time, the gate gives up and keeps no call waiting any more.
#[derive(Drop)]
pub struct UntilDone<R: Wait + Copy> {
    rt: R,
    clock: AtomicU64,
    holds: Holds,
    entered_events: AtomicU64,
    take_calls: AtomicU64,
    has_first_come: AtomicBool,
    has_other_come: AtomicBool,
    others_sleep: AtomicBool,
    next_calls: AtomicU64,
    ended_holds: AtomicU64,
    has_given_up: AtomicBool,
}

impl<R: Wait + Copy> UntilDone<R> {
    /// A gate before a run.
    pub fn new(rt: R, holds: Holds) -> UntilDone<R> {
        UntilDone {
            rt,
            clock: AtomicU64::new(0),
            holds,
            entered_events: AtomicU64::new(0),
            take_calls: AtomicU64::new(0),
            has_first_come: AtomicBool::new(false),
            has_other_come: AtomicBool::new(false),
            others_sleep: AtomicBool::new(false),
            next_calls: AtomicU64::new(0),
            ended_holds: AtomicU64::new(0),
            has_given_up: AtomicBool::new(false),
        }
    }

    /// Whether each call that had to wait has waited, and the other workers did what they could meanwhile.
    pub fn has_held_all(&self) -> bool {
        let other_calls = self.holds.other_desk_call.is_some() as u64;
        self.others_sleep.load(Ordering::SeqCst)
            && self.ended_holds.load(Ordering::SeqCst)
                == self.holds.next_takes.0.saturating_add(other_calls)
            && !self.has_given_up.load(Ordering::SeqCst)
    }

    fn nap(&self, micros: u64) {
        self.clock
            .park_timeout(&self.rt, 0, Duration::from_micros(micros));
    }

    fn is_done(&self, until: Until) -> bool {
        match until {
            Until::Entered(event_count) => self.entered_events.load(Ordering::SeqCst)
                >= event_count,
            Until::Takes(call_count) => self.take_calls.load(Ordering::SeqCst) >= call_count,
        }
    }

    // Waits until this many events are entered, or calls for takes made. Returns false if it gave up waiting.
    fn wait(&self, until: Until) -> bool {
        for _ in 0..MOST_LOOKS {
            if self.is_done(until) {
                return true;
            }
            if self.has_given_up.load(Ordering::SeqCst) {
                return false;
            }
            self.nap(1_000);
        }
        self.has_given_up.store(true, Ordering::SeqCst);
        false
    }

    // Keeps the first call for the first desk waiting: until this many events are entered, and then until the others
    // sleep.
    fn settle(&self, event_count: u64) {
        if self.wait(Until::Entered(event_count)) {
            for _ in 0..NAPS_UNTIL_ASLEEP {
                self.nap(NAP_MICROS);
            }
            self.others_sleep.store(true, Ordering::SeqCst);
        }
    }

    // Keeps another call waiting.
    fn hold(&self, until: Until) {
        if self.wait(until) {
            self.ended_holds.fetch_add(1, Ordering::SeqCst);
        }
    }

    // If this is the first call for the other desk, the number of events until which it waits; else none.
    fn as_other(&self, desk: Desk) -> Option<u64> {
        let (other_desk, event_count) = self.holds.other_desk_call?;
        let is_first = desk == other_desk && !self.has_other_come.swap(true, Ordering::SeqCst);
        is_first.then_some(event_count)
    }

    // Whether this call for a resident's desk is one of those that wait after the first desk's call went on.
    fn is_next(&self) -> bool {
        self.others_sleep.load(Ordering::SeqCst)
            && self.next_calls.fetch_add(1, Ordering::SeqCst) < self.holds.next_takes.0
    }
}

impl<R: Wait + Copy + Sync> Gate for UntilDone<R> {
    ghost MAY_STOP = { false };

    const MAY_STOP: bool = false;

    const ENTERED_MAY_HOLD: bool = false;

    fn pass(&self, _worker: usize, desk: Desk) -> Go {
        let is_take = matches!(&desk, Desk::Resident(_));
        if is_take {
            self.take_calls.fetch_add(1, Ordering::SeqCst);
            self.wait(Until::Entered(self.holds.events_to_take));
        }
        let (first_desk, event_count) = self.holds.first_desk_call;
        if desk == first_desk && !self.has_first_come.swap(true, Ordering::SeqCst) {
            self.settle(event_count);
        } else if let Some(event_count) = self.as_other(desk) {
            self.hold(Until::Entered(event_count));
        } else if is_take && self.is_next() {
            self.hold(self.holds.next_takes.1);
        }
        Go::On
    }

    fn entered(&self, _worker: usize) {
        if self.entered_events.fetch_add(1, Ordering::SeqCst) == 0 {
            self.wait(Until::Entered(self.holds.events_to_begin));
        }
    }
}
