//! Runs in which some workers are kept waiting until the others have done all that can be done without the waiting
//! workers' desks. How much this is follows from the market.
ghost use Rattle.std.specs.Prelude.{true, false};

use crate::runs::{run_of, run_on};
use exchange_core::{Capacity, Desk};
use match_model::{Instance, InstanceBuilder, ModelFault, ProgrammeNo, ResidentNo};
use match_pool::{Ending, Gate, Go};
use std::alloc::Global;
use std::sync::Wait;
use std::sync::atomic::{AtomicBool, AtomicU32, AtomicU64, Ordering};
use std::test::Fail;
use std::thread::Threads;
use std::time::Duration;
use test_gates::rests::{Holds, Until, UntilDone};
use test_support::events::{A, X, Y};
use test_support::instances::Members;
use test_support::markets::made_pairs;

const NO_LATER_WAITS: (u64, Until) = (0, Until::Entered(0));

const FIRST_RESIDENT: Desk = Desk::Resident(X);

// Four programmes that all rank the same resident.
const ALL_FOR_ONE: Members = (
    &[(1, &[0]), (1, &[0]), (1, &[0]), (1, &[0])],
    &[&[0, 1, 2, 3]],
);

// The worker at the resident's desk waits at its first take until all four offers are entered and the other workers
// sleep. It then answers this offer, and waits at its second take until the answer is heard.
const AT_THE_SECOND_TAKE: Holds = Holds {
    events_to_begin: 0,
    events_to_take: 0,
    first_desk_call: (FIRST_RESIDENT, 4),
    other_desk_call: None,
    next_takes: (1, Until::Entered(7)),
};

// A pair, and four programmes that all rank a second resident.
const PROGRAMMES_WAIT: Members = (
    &[(1, &[0]), (1, &[1]), (1, &[1]), (1, &[1]), (1, &[1])],
    &[&[0], &[1, 2, 3, 4]],
);

// The first take of the second resident waits until the three other programmes wait for room in its mailbox. The take
// of the first resident waits until its pair's offer and all events of the others are entered, at least sixteen.
const BESIDE_PROGRAMMES: Holds = Holds {
    events_to_begin: 0,
    events_to_take: 0,
    first_desk_call: (Desk::Resident(Y), 2),
    other_desk_call: Some((FIRST_RESIDENT, 17)),
    next_takes: NO_LATER_WAITS,
};

// A pair, and a programme with a place for each of its four residents.
const RESIDENTS_WAIT: Members = (
    &[(1, &[0]), (4, &[1, 2, 3, 4])],
    &[&[0], &[1], &[1], &[1], &[1]],
);

// The take of the first resident waits until its pair's offer and all sixteen events of the others are entered. Three
// of the other residents wait for room in their programme's mailbox.
const BESIDE_RESIDENTS: Holds = Holds {
    events_to_begin: 0,
    events_to_take: 5,
    first_desk_call: (FIRST_RESIDENT, 17),
    other_desk_call: None,
    next_takes: NO_LATER_WAITS,
};

const AT_TAKES: [(Members, Capacity, Holds, &[usize]); 3] = [
    (ALL_FOR_ONE, Capacity::Full, AT_THE_SECOND_TAKE, &[2, 3]),
    (PROGRAMMES_WAIT, Capacity::Each(1), BESIDE_PROGRAMMES, &[3]),
    (RESIDENTS_WAIT, Capacity::Each(1), BESIDE_RESIDENTS, &[2, 3]),
];

// Whether a run closed, and all events that needed no waiting worker's desk were entered during the waits.
fn leaves_no_work<R: Threads + Wait + Sync + Send + Copy>(
    rt: R,
    alloc: Global,
    run_setup: (Members, Capacity, usize),
    holds: Holds,
) -> bool {
    let (members, cap, workers) = run_setup;
    let gate = UntilDone::new(rt, holds);
    let outcome = run_of(rt, alloc, members, cap, workers, &gate);
    gate.has_held_all() && outcome.is_ok_and(|outcome| outcome.ending == Ending::Closed)
}

#[test]
fn no_work_is_left_while_workers_are_held_in_passes(rt: HostRuntime) {
    for (members, cap, holds, worker_counts) in AT_TAKES {
        for workers in worker_counts {
            assert!(rt;
                leaves_no_work(rt, rt.alloc(), (members, cap, *workers), holds),
                "{holds:?}, {workers} workers"
            );
        }
    }
}

// What a worker enters next in a market of pairs, through mailboxes that never fill.
const PUT_ENTRY: u32 = 0;

const TAKE_ENTRY: u32 = 1;

const HEAR_ENTRY: u32 = 2;

const ANSWER_ENTRY: u32 = 3;

// How many pairs there are. Each pair has four events.
const PAIRS: u32 = 4;

// How often a gate looks whether an expected event is entered. The gate looks once in a millisecond.
const LOOKS: u32 = 10_000;

// A gate for pairs of a programme with one place and a resident. After the event with this number, counted from 1, it
// keeps the worker waiting until every event is entered that doesn't need this worker's desk.
#[derive(Drop)]
struct HoldsAfterEntry<R: Wait + Copy> {
    rt: R,
    clock: AtomicU64,
    held_event: u32,
    entered_count: AtomicU32,
    next_events: [AtomicU32; 3],
    all_else_entered: AtomicBool,
}

impl<R: Wait + Copy> HoldsAfterEntry<R> {
    fn new(rt: R, held_event: u32) -> HoldsAfterEntry<R> {
        HoldsAfterEntry {
            rt,
            clock: AtomicU64::new(0),
            held_event,
            entered_count: AtomicU32::new(0),
            next_events: [
                AtomicU32::new(PUT_ENTRY),
                AtomicU32::new(PUT_ENTRY),
                AtomicU32::new(PUT_ENTRY),
            ],
            all_else_entered: AtomicBool::new(false),
        }
    }

    // After the worker's last entry, how many events of this pair still need the worker.
    fn events_needing(&self, worker: usize) -> u32 {
        let Some(next_event) = self.next_events.get(worker) else {
            return 0;
        };
        let entered_event = next_event.load(Ordering::SeqCst);
        next_event.store(
            if entered_event == TAKE_ENTRY {
                ANSWER_ENTRY
            } else {
                PUT_ENTRY
            },
            Ordering::SeqCst,
        );
        match entered_event {
            TAKE_ENTRY => 2,
            HEAR_ENTRY | ANSWER_ENTRY => 0,
            // an offer, whose answer only this desk hears
            _ => 1,
        }
    }
}

impl<R: Wait + Copy + Sync> Gate for HoldsAfterEntry<R> {
    ghost MAY_STOP = { false };

    const MAY_STOP: bool = false;

    fn pass(&self, worker: usize, desk: Desk) -> Go {
        if let Some(next_event) = self.next_events.get(worker) {
            let receipt = match desk {
                Desk::Resident(_) => TAKE_ENTRY,
                Desk::Programme(_) => HEAR_ENTRY,
            };
            next_event.store(receipt, Ordering::SeqCst);
        }
        Go::On
    }

    fn entered(&self, worker: usize) {
        let needed_events = self.events_needing(worker);
        if self
            .entered_count
            .fetch_add(1, Ordering::SeqCst)
            .saturating_add(1)
            != self.held_event
        {
            return;
        }
        for _ in 0..LOOKS {
            if self
                .entered_count
                .load(Ordering::SeqCst)
                .saturating_add(needed_events)
                >= 4 * PAIRS
            {
                self.all_else_entered.store(true, Ordering::SeqCst);
                return;
            }
            self.clock
                .park_timeout(&self.rt, 0, Duration::from_millis(1));
        }
    }
}

#[test]
fn no_work_is_left_while_a_worker_is_told_of_an_entry(rt: HostRuntime) -> Result<(), Fail> {
    let inst = made_pairs(rt.alloc(), PAIRS)?;
    for workers in [2, 3] {
        for held_event in 1..=4 * PAIRS {
            let gate = HoldsAfterEntry::new(rt, held_event);
            let outcome = run_on(rt, rt.alloc(), &inst, Capacity::Full, workers, &gate)?;
            assert!(rt;
                outcome.ending == Ending::Closed && gate.all_else_entered.load(Ordering::SeqCst),
                "event {held_event}, {workers} workers"
            );
        }
    }
    Ok(())
}

// A programme with three places that loses its first three residents to a second programme. If it hears of all three
// in one visit, it then makes three offers in a row.
const THREE_LOST: Members = (
    &[(3, &[0, 1, 2, 3, 4, 5]), (3, &[0, 1, 2])],
    &[&[1, 0], &[1, 0], &[1, 0], &[0], &[0], &[0]],
);

// How often a test is repeated, since other work of the machine may keep a worker awake too long.
const TRIES: u32 = 4;

// Each programme's worker makes three offers before any take passes. The first programme's first hear waits until six
// takes, at least six answers and the other programme's three hears are entered, and the other workers sleep. Then
// the first programme makes three more offers, and all workers but one wait at takes until the third take has begun.
#[test]
fn each_that_sleeps_is_woken_for_what_one_visit_gave(rt: HostRuntime) {
    for (workers, waiting_workers) in [(2, 1), (3, 2)] {
        for _ in 0..TRIES {
            let holds = Holds {
                events_to_begin: 2,
                events_to_take: 6,
                first_desk_call: (Desk::Programme(A), 21),
                other_desk_call: None,
                next_takes: (waiting_workers, Until::Takes(9)),
            };
            let run_setup = (THREE_LOST, Capacity::Full, workers);
            assert!(rt;
                leaves_no_work(rt, rt.alloc(), run_setup, holds),
                "{workers} workers"
            );
        }
    }
}

// One programme that ranks seventy residents and has a place for each of them. The programme ranks the resident with the
// highest number first. Every resident ranks only this programme.
fn made_crowd(alloc: Global) -> Result<Instance, ModelFault> {
    let mut builder = InstanceBuilder::new(alloc);
    let programme = builder.add_programme(70)?;
    let mut ranking = Vec::new(alloc);
    for number in 0..70 {
        let resident = builder.add_resident()?;
        builder.resident_list(resident, &[programme])?;
        let Ok(()) = ranking.push(ResidentNo(69 - number)) else {
            return Err(ModelFault::Memory);
        };
    }
    builder.programme_list(programme, ranking.as_slice())?;
    builder.finish().map_err(|refused| refused.fault)
}

// No take passes before all seventy offers are made, so one visit wakes seventy desks. The take of the first resident
// then waits until all events of the other residents are entered.
#[test]
fn a_visit_that_wakes_many_lists_them_all(rt: HostRuntime) -> Result<(), Fail> {
    let inst = made_crowd(rt.alloc())?;
    let holds = Holds {
        events_to_begin: 0,
        events_to_take: 70,
        first_desk_call: (FIRST_RESIDENT, 277),
        other_desk_call: None,
        next_takes: NO_LATER_WAITS,
    };
    let gate = UntilDone::new(rt, holds);
    let outcome = run_on(rt, rt.alloc(), &inst, Capacity::Full, 2, &gate)?;
    assert!(rt; outcome.ending == Ending::Closed && gate.has_held_all());
    Ok(())
}
