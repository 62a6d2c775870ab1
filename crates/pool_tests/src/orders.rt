//! In which order workers obey a stop, note a fault, list the desks that they woke, and end the run after the close.
//! The tests use gates, and mailboxes that keep a worker waiting while it has the ledger's lock.
ghost use Rattle.std.specs.Prelude.{true, false};

use crate::latched::{Latch, Latched};
use crate::runs::run_of;
use exchange_core::{Capacity, Desk};
use match_model::{Instance, InstanceBuilder, ModelFault, ProgrammeNo, ResidentNo};
use match_pool::{Ending, Gate, Go, RunFault, run_over};
use std::alloc::Global;
use std::sync::Wait;
use std::sync::atomic::{AtomicBool, AtomicU64, Ordering};
use std::test::Fail;
use std::thread::Threads;
use std::time::Duration;
use test_support::events::{X, Y};
use test_support::instances::{Members, TWO_BY_TWO, instance_of};

// At which receipt a gate stops a run: at the first one of one desk, of all residents or of all programmes.
#[derive(Clone, Copy, Debug, PartialEq, Eq)]
enum StopPoint {
    Desk(Desk),
    Take,
    Hear,
}

impl StopPoint {
    fn has_desk(&self, desk: Desk) -> bool {
        match self {
            StopPoint::Desk(stop_desk) => *stop_desk == desk,
            StopPoint::Take => matches!(&desk, Desk::Resident(_)),
            StopPoint::Hear => matches!(&desk, Desk::Programme(_)),
        }
    }
}

// A gate that stops a run at one receipt, once another worker's put or take is kept waiting. It counts the events
// that are entered after that, and lets a waiting take go on once an event was entered.
#[derive(Drop)]
struct StopsBeside<R: Wait + Copy> {
    latch: Latch<R>,
    stop_point: StopPoint,
    has_stopped: AtomicBool,
    entered_after_stop: AtomicU64,
}

impl<R: Wait + Copy> StopsBeside<R> {
    fn new(latch: Latch<R>, stop_point: StopPoint) -> StopsBeside<R> {
        StopsBeside {
            latch,
            stop_point,
            has_stopped: AtomicBool::new(false),
            entered_after_stop: AtomicU64::new(0),
        }
    }
}

impl<R: Wait + Copy + Sync> Gate for StopsBeside<R> {
    ghost MAY_STOP = { true };

    const MAY_STOP: bool = true;

    fn pass(&self, _worker: usize, desk: Desk) -> Go {
        if !self.stop_point.has_desk(desk) || !self.latch.arms() {
            return Go::On;
        }
        self.latch.wait_until_begun();
        self.has_stopped.store(true, Ordering::SeqCst);
        Go::Stop
    }

    fn entered(&self, _worker: usize) {
        if self.has_stopped.load(Ordering::SeqCst) {
            self.entered_after_stop.fetch_add(1, Ordering::SeqCst);
            self.latch.opens();
        }
    }
}

// How a run by two workers ends, over mailboxes under a latch. The latch's lifetime has a name here because the
// borrow checker asks for one at this call.
fn run_ending<'a, R: Threads + Wait + Sync + Send + Copy>(
    rt: R,
    alloc: Global,
    mailboxes: &Latched<'a, R>,
    inst: &Instance,
    gate: &StopsBeside<R>,
) -> Result<Ending, RunFault> {
    let finished_run = run_over(rt, alloc, mailboxes, inst, Capacity::Full, 2, gate)?;
    Ok(finished_run.ending)
}

// The fault of a run that was stopped at one resident's receipt, after another resident's mailbox lost an end.
fn fault_after_a_stop<R: Threads + Wait + Sync + Send + Copy>(
    rt: R,
    alloc: Global,
) -> Option<RunFault> {
    let Ok(inst) = instance_of(alloc, TWO_BY_TWO) else {
        return None;
    };
    let gate = StopsBeside::new(Latch::new(rt, false), StopPoint::Desk(Desk::Resident(Y)));
    let mailboxes = Latched {
        rt,
        latch: &gate.latch,
        lost_end_of: Some(X),
    };
    run_ending(rt, alloc, &mailboxes, &inst, &gate).err()
}

#[test]
fn a_trouble_after_a_stop_is_told(rt: HostRuntime) {
    for _ in 0..3 {
        let fault = fault_after_a_stop(rt, rt.alloc());
        assert!(rt; fault.is_some_and(|fault| fault == RunFault::MailGone(Desk::Resident(X))));
    }
}

// Ten times two programmes and two residents. Both programmes offer to the first resident, who declines the second
// one. This programme then offers to the second resident.
fn made_rivals(alloc: Global) -> Result<Instance, ModelFault> {
    let mut builder = InstanceBuilder::new(alloc);
    for _ in 0..20 {
        builder.add_programme(1)?;
        builder.add_resident()?;
    }
    for pair in 0..10 {
        let (first_number, second_number) = (2 * pair, 2 * pair + 1);
        let both_residents = [ResidentNo(first_number), ResidentNo(second_number)];
        builder.programme_list(ProgrammeNo(first_number), &both_residents[..1])?;
        builder.programme_list(ProgrammeNo(second_number), &both_residents)?;
        builder.resident_list(
            ResidentNo(first_number),
            &[ProgrammeNo(first_number), ProgrammeNo(second_number)],
        )?;
        builder.resident_list(ResidentNo(second_number), &[ProgrammeNo(second_number)])?;
    }
    builder.finish().map_err(|refused| refused.fault)
}

// Whether no worker began an event after a stop that the gate gave while another worker had the ledger's lock.
// Entered after it are only the event that the other worker had begun, and the receipt at which the gate stopped.
fn is_heeded_at_once<R: Threads + Wait + Sync + Send + Copy>(
    rt: R,
    alloc: Global,
    inst: &Instance,
    stop_point: StopPoint,
) -> bool {
    let gate = StopsBeside::new(Latch::new(rt, true), stop_point);
    let mailboxes = Latched {
        rt,
        latch: &gate.latch,
        lost_end_of: None,
    };
    let ending = run_ending(rt, alloc, &mailboxes, inst, &gate);
    ending == Ok(Ending::Stopped)
        && gate.latch.has_wait_begun()
        && gate.entered_after_stop.load(Ordering::SeqCst) == 2
}

// Other work of the machine may delay the worker that should obey the stop, but not in two of three runs.
#[test]
fn a_stop_is_heeded_before_its_receipt_is_entered(rt: HostRuntime) -> Result<(), Fail> {
    let inst = made_rivals(rt.alloc())?;
    for stop_point in [StopPoint::Take, StopPoint::Hear] {
        let mut heeded_runs = 0_u32;
        for _ in 0..3 {
            let is_heeded = is_heeded_at_once(rt, rt.alloc(), &inst, stop_point);
            heeded_runs = heeded_runs.saturating_add(is_heeded as u32);
        }
        assert!(rt; heeded_runs >= 2, "{stop_point:?}: {heeded_runs} of 3");
    }
    Ok(())
}

// Waits until the counter is at least `least_count`, or until this many milliseconds have passed. Returns whether the
// counter is large enough.
fn wait_for<R: Wait + Copy>(
    rt: R,
    clock: &AtomicU64,
    counter: &AtomicU64,
    least_count: u64,
    milliseconds: u64,
) -> bool {
    for _ in 0..milliseconds {
        if counter.load(Ordering::SeqCst) >= least_count {
            return true;
        }
        clock.park_timeout(&rt, 0, Duration::from_millis(1));
    }
    counter.load(Ordering::SeqCst) >= least_count
}

// How long a gate waits for an event that must come, in milliseconds.
const LONG_WAIT: u64 = 15_000;

// A gate for two pairs and two workers, each of which has one of the last two hears. The worker that enters its hear
// first goes on once the other one has entered its hear, and closes the exchange. The other worker goes on once the
// close is entered, but before the end of the run is made known.
#[derive(Drop)]
struct ClosesBeside<R: Wait + Copy> {
    rt: R,
    clock: AtomicU64,
    hear_count: AtomicU64,
    entered_count: AtomicU64,
}

impl<R: Wait + Copy + Sync> Gate for ClosesBeside<R> {
    ghost MAY_STOP = { false };

    const MAY_STOP: bool = false;

    fn pass(&self, _worker: usize, desk: Desk) -> Go {
        if StopPoint::Hear.has_desk(desk) {
            self.hear_count.fetch_add(1, Ordering::SeqCst);
            wait_for(self.rt, &self.clock, &self.hear_count, 2, LONG_WAIT);
        }
        Go::On
    }

    fn entered(&self, _worker: usize) {
        let entered_count = self
            .entered_count
            .fetch_add(1, Ordering::SeqCst)
            .saturating_add(1);
        // two hears come, then the close, and no event after that
        match entered_count {
            7 | 8 => {
                wait_for(
                    self.rt,
                    &self.clock,
                    &self.entered_count,
                    entered_count.saturating_add(1),
                    LONG_WAIT,
                );
            }
            9 => {
                wait_for(self.rt, &self.clock, &self.entered_count, 10, 700);
            }
            _ => {}
        }
    }
}

// Two pairs. Each pair is a programme with one place and a resident.
const TWO_PAIRS: Members = (&[(1, &[0]), (1, &[1])], &[&[0], &[1]]);

#[test]
fn a_close_is_told_once(rt: HostRuntime) -> Result<(), Fail> {
    let gate = ClosesBeside {
        rt,
        clock: AtomicU64::new(0),
        hear_count: AtomicU64::new(0),
        entered_count: AtomicU64::new(0),
    };
    let outcome = run_of(rt, rt.alloc(), TWO_PAIRS, Capacity::Full, 2, &gate)?;
    assert!(rt; outcome.ending == Ending::Closed && outcome.journal.len() == 9);
    assert!(rt; gate.entered_count.load(Ordering::SeqCst) == 9);
    Ok(())
}

// A gate for two workers and two programmes, of which the first has ten residents and the second has one. The gate
// keeps workers waiting at entries, though it says that it doesn't. Each worker waits after its first offer for the
// other's first offer, so that each has a programme and neither rests. The worker of the second programme then serves
// this programme's resident, and goes on once the other worker has made three offers. The other worker waits until
// one of the three is answered. Then it makes one more offer, and has a hear. The gate's call for this hear lasts
// until all four offers are answered.
#[derive(Drop)]
struct HoldsHear<R: Wait + Copy> {
    rt: R,
    clock: AtomicU64,
    entered_by_worker: (AtomicU64, AtomicU64),
    second_worker: AtomicU64,
    has_held: AtomicBool,
    has_seen_answers: AtomicBool,
}

impl<R: Wait + Copy> HoldsHear<R> {
    // How many events this worker entered, and how many the other one entered.
    fn entries(&self, worker: usize) -> (&AtomicU64, &AtomicU64) {
        let (first_entries, second_entries) = &self.entered_by_worker;
        if worker == 0 {
            (first_entries, second_entries)
        } else {
            (second_entries, first_entries)
        }
    }

    fn waits_for(&self, entries: &AtomicU64, least_count: u64) -> bool {
        wait_for(self.rt, &self.clock, entries, least_count, LONG_WAIT)
    }
}

impl<R: Wait + Copy + Sync> Gate for HoldsHear<R> {
    ghost MAY_STOP = { false };

    const MAY_STOP: bool = false;

    const ENTERED_MAY_HOLD: bool = false;

    fn pass(&self, worker: usize, desk: Desk) -> Go {
        let (_, other_entries) = self.entries(worker);
        match desk {
            Desk::Resident(ResidentNo(10)) => {
                self.second_worker
                    .store((worker as u64).saturating_add(1), Ordering::SeqCst);
                self.waits_for(other_entries, 3);
            }
            Desk::Programme(ProgrammeNo(0)) if !self.has_held.swap(true, Ordering::SeqCst) => {
                // four events of the second programme, and two for each of the four offers
                let are_answered = self.waits_for(other_entries, 12);
                self.has_seen_answers.store(are_answered, Ordering::SeqCst);
            }
            _ => {}
        }
        Go::On
    }

    fn entered(&self, worker: usize) {
        let (own_entries, other_entries) = self.entries(worker);
        let serves_second = self.second_worker.load(Ordering::SeqCst)
            == (worker as u64).saturating_add(1);
        match own_entries.fetch_add(1, Ordering::SeqCst).saturating_add(1) {
            1 => {
                self.waits_for(other_entries, 1);
            }
            3 if !serves_second => {
                // four events of the second programme, a take and an answer
                self.waits_for(other_entries, 6);
            }
            _ => {}
        }
    }
}

// A programme that has a place for each of its ten residents, and a programme with one resident.
const TEN_AND_ONE: Members = (
    &[(10, &[0, 1, 2, 3, 4, 5, 6, 7, 8, 9]), (1, &[10])],
    &[
        &[0],
        &[0],
        &[0],
        &[0],
        &[0],
        &[0],
        &[0],
        &[0],
        &[0],
        &[0],
        &[1],
    ],
);

#[test]
fn what_a_visit_woke_is_listed_before_a_hear_passes(rt: HostRuntime) -> Result<(), Fail> {
    let gate = HoldsHear {
        rt,
        clock: AtomicU64::new(0),
        entered_by_worker: (AtomicU64::new(0), AtomicU64::new(0)),
        second_worker: AtomicU64::new(0),
        has_held: AtomicBool::new(false),
        has_seen_answers: AtomicBool::new(false),
    };
    let outcome = run_of(rt, rt.alloc(), TEN_AND_ONE, Capacity::Full, 2, &gate)?;
    assert!(rt; outcome.ending == Ending::Closed);
    assert!(rt; gate.has_seen_answers.load(Ordering::SeqCst));
    Ok(())
}
