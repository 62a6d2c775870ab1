//! Misses and faults in runs over mailboxes that give wrong answers: which desk is visited again, which misses are
//! forgotten, and which fault is reported. One test looks at what a search finds when no desk is listed.
ghost use Rattle.std.specs.Prelude.{true, false};

use crate::alone::is_by_one_worker;
use crate::runs::run_of;
use crate::slips::{PutSlip, Slip, Slipping, TakeSlip};
use exchange_core::{Capacity, Desk, Event, OfferNote};
use match_model::ProgrammeNo;
use match_pool::{Ending, Gate, Go, OpenGate, RunFault, run_over};
use std::alloc::Global;
use std::sync::Wait;
use std::sync::atomic::{AtomicBool, AtomicU64, Ordering};
use std::test::Fail;
use std::thread::Threads;
use std::time::Duration;
use test_support::events::{A, B, X, Y};
use test_support::instances::{Members, TWO_PLACES, instance_of};

// The journal of a run by one worker in which one mailbox gives an answer that a good mailbox never gives.
fn journal_over<R: Threads + Wait + Sync + Send + Copy>(
    rt: R,
    alloc: Global,
    members: Members,
    slip: Slip,
) -> Result<Vec<Event>, RunFault> {
    let Ok(inst) = instance_of(alloc, members) else {
        return Err(RunFault::Memory);
    };
    let mailboxes = Slipping {
        rt,
        slips: [slip, slip],
    };
    let finished_run = run_over(rt, alloc, &mailboxes, &inst, Capacity::Full, 1, &OpenGate)?;
    Ok(Vec::from_slice(alloc, finished_run.journal.as_slice())?)
}

// Slips at a resident's desk, after which this desk is visited again before any other desk.
const PASSING_SLIPS: [Slip; 4] = [
    Slip::Answer(A, 0, PutSlip::Full),
    Slip::Answer(A, 1, PutSlip::Full),
    Slip::Take(X, 0, TakeSlip::Nothing),
    Slip::Take(Y, 0, TakeSlip::Nothing),
];

#[test]
fn a_desk_that_missed_is_come_back_to_at_once(rt: HostRuntime) -> Result<(), Fail> {
    for slip in PASSING_SLIPS {
        let journal = journal_over(rt, rt.alloc(), TWO_PLACES, slip)?;
        assert!(rt; is_by_one_worker(journal.as_slice()), "{slip:?}");
    }
    Ok(())
}

// A programme with ten residents, all of whom answer.
const TEN_ANSWERS: Members = (
    &[(10, &[0, 1, 2, 3, 4, 5, 6, 7, 8, 9])],
    &[&[0], &[0], &[0], &[0], &[0], &[0], &[0], &[0], &[0], &[0]],
);

// The run has seventy misses, but at most seven between two entries. Only misses in a row count against a
// worker's patience.
#[test]
fn misses_before_an_entry_are_forgotten(rt: HostRuntime) {
    let often_full = Slip::Answer(A, 0, PutSlip::OftenFull);
    let journal = journal_over(rt, rt.alloc(), TEN_ANSWERS, often_full);
    assert!(rt; journal.is_ok_and(|journal| journal.len() == 41));
}

// Keeps the call of `pass` for one desk waiting for a long time, and keeps the calls for another desk waiting until
// this wait has begun.
#[derive(Drop)]
struct LateDesk<R: Wait + Copy> {
    rt: R,
    clock: AtomicU64,
    late_desk: Desk,
    next_desk: Desk,
    has_wait_begun: AtomicBool,
}

impl<R: Wait + Copy> LateDesk<R> {
    fn sleep(&self, microseconds: u64) {
        self.clock
            .park_timeout(&self.rt, 0, Duration::from_micros(microseconds));
    }
}

impl<R: Wait + Copy + Sync> Gate for LateDesk<R> {
    ghost MAY_STOP = { false };

    const MAY_STOP: bool = false;

    fn pass(&self, _worker: usize, desk: Desk) -> Go {
        if desk == self.late_desk {
            self.has_wait_begun.store(true, Ordering::SeqCst);
            self.sleep(400_000);
        } else if desk == self.next_desk {
            for _ in 0..5_000 {
                if self.has_wait_begun.load(Ordering::SeqCst) {
                    break;
                }
                self.sleep(1_000);
            }
        }
        Go::On
    }

    fn entered(&self, _worker: usize) {}
}

// The fault of a run in which a mailbox first loses an end, and then another worker has a receipt that may not
// follow.
fn first_fault<R: Threads + Wait + Sync + Send + Copy>(rt: R, alloc: Global) -> Option<RunFault> {
    let Ok(inst) = instance_of(alloc, TWO_PLACES) else {
        return None;
    };
    let strange_offer = TakeSlip::Gives(OfferNote {
        programme: ProgrammeNo(7),
    });
    let mailboxes = Slipping {
        rt,
        slips: [
            Slip::Take(X, 1, TakeSlip::Gone),
            Slip::Take(Y, 0, strange_offer),
        ],
    };
    let gate = LateDesk {
        rt,
        clock: AtomicU64::new(0),
        late_desk: Desk::Resident(Y),
        next_desk: Desk::Resident(X),
        has_wait_begun: AtomicBool::new(false),
    };
    run_over(rt, alloc, &mailboxes, &inst, Capacity::Full, 2, &gate).err()
}

#[test]
fn the_first_trouble_is_told(rt: HostRuntime) {
    let fault = first_fault(rt, rt.alloc());
    assert!(rt; fault.is_some_and(|fault| fault == RunFault::MailGone(Desk::Resident(X))));
}

// A gate that is slow after the first entry, though it says that it never keeps a worker waiting. So the desk that
// the entry woke is not listed meanwhile. The gate goes on after three calls of `pass` by others, or after two
// seconds.
#[derive(Drop)]
struct SlowEntry<R: Wait + Copy> {
    rt: R,
    clock: AtomicU64,
    has_first_entered: AtomicBool,
    pass_call_count: AtomicU64,
    has_seen_calls: AtomicBool,
}

impl<R: Wait + Copy + Sync> Gate for SlowEntry<R> {
    ghost MAY_STOP = { false };

    const MAY_STOP: bool = false;

    const ENTERED_MAY_HOLD: bool = false;

    fn pass(&self, _worker: usize, _desk: Desk) -> Go {
        self.pass_call_count.fetch_add(1, Ordering::SeqCst);
        Go::On
    }

    fn entered(&self, _worker: usize) {
        if self.has_first_entered.swap(true, Ordering::SeqCst) {
            return;
        }
        for _ in 0..2_000 {
            if self.pass_call_count.load(Ordering::SeqCst) >= 3 {
                self.has_seen_calls.store(true, Ordering::SeqCst);
                return;
            }
            self.clock
                .park_timeout(&self.rt, 0, Duration::from_micros(1_000));
        }
    }
}

// Two pairs. Each pair is a programme with one place and a resident.
const TWO_PAIRS: Members = (&[(1, &[0]), (1, &[1])], &[&[0], &[1]]);

#[test]
fn a_search_finds_what_no_list_has(rt: HostRuntime) {
    let gate = SlowEntry {
        rt,
        clock: AtomicU64::new(0),
        has_first_entered: AtomicBool::new(false),
        pass_call_count: AtomicU64::new(0),
        has_seen_calls: AtomicBool::new(false),
    };
    let outcome = run_of(rt, rt.alloc(), TWO_PAIRS, Capacity::Full, 2, &gate);
    let is_closed = outcome.is_ok_and(|outcome| outcome.ending == Ending::Closed);
    assert!(rt; is_closed && gate.has_seen_calls.load(Ordering::SeqCst));
}
