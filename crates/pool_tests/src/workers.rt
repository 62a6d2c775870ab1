//! Runs of the pool by one to eight workers.
use crate::runs::{Outcome, run_of};
use exchange_core::{Capacity, Desk};
use match_pool::{Ending, OpenGate};
use std::alloc::Global;
use std::sync::Wait;
use std::thread::Threads;
use test_gates::gates::{AllButOne, Order};
use test_gates::rests::{Holds, Until, UntilDone};
use test_support::events::A;
use test_support::instances::{Members, TWO_PLACES, has_places};

// Whether each event of a run has a worker, and each worker has as many events as the run reports.
fn is_counted(outcome: &Outcome, workers: usize) -> bool {
    for (worker, entry_count) in outcome.entry_counts.iter().enumerate() {
        let mut worker_events = 0_u64;
        for by_worker in &outcome.event_workers {
            if usize::from(*by_worker) == worker {
                worker_events = worker_events.saturating_add(1);
            }
        }
        if worker_events != *entry_count {
            return false;
        }
    }
    outcome.entry_counts.len() == workers && outcome.event_workers.len() == outcome.journal.len()
}

#[test]
fn one_worker_and_eight(rt: HostRuntime) {
    for workers in [1, 8] {
        let outcome = run_of(
            rt,
            rt.alloc(),
            TWO_PLACES,
            Capacity::Full,
            workers,
            &OpenGate,
        );
        assert!(rt;
            outcome.is_ok_and(|outcome| outcome.ending == Ending::Closed
                && has_places(&outcome.assignment, &[Some(1), Some(0), Some(0)])
                && is_counted(&outcome, workers)),
            "{workers} workers"
        );
    }
}

// One programme with one place, and one resident.
const ONE_PAIR: Members = (&[(1, &[0])], &[&[0]]);

// Pairs of a programme with one place and a resident, who rank only each other.
const PAIRS: Members = (
    &[
        (1, &[0]),
        (1, &[1]),
        (1, &[2]),
        (1, &[3]),
        (1, &[4]),
        (1, &[5]),
        (1, &[6]),
        (1, &[7]),
        (1, &[8]),
        (1, &[9]),
        (1, &[10]),
        (1, &[11]),
        (1, &[12]),
        (1, &[13]),
        (1, &[14]),
        (1, &[15]),
    ],
    &[
        &[0],
        &[1],
        &[2],
        &[3],
        &[4],
        &[5],
        &[6],
        &[7],
        &[8],
        &[9],
        &[10],
        &[11],
        &[12],
        &[13],
        &[14],
        &[15],
    ],
);

// Whether all workers but one were kept waiting and went on in this order, and the run closed after four events for
// each pair.
fn goes_on<R: Threads + Wait + Sync + Send + Copy>(
    rt: R,
    alloc: Global,
    workers: usize,
    order: Order,
) -> bool {
    let gate = AllButOne::new(16, workers.saturating_sub(1) as u64, order);
    let Ok(outcome) = run_of(rt, alloc, PAIRS, Capacity::Full, workers, &gate) else {
        return false;
    };
    gate.has_held_all()
        && outcome.ending == Ending::Closed
        && outcome.journal.len() == 65
        && is_counted(&outcome, workers)
}

#[test]
fn one_goes_on_while_all_others_are_held(rt: HostRuntime) {
    for workers in 2..=8 {
        for order in [Order::FirstFirst, Order::LastFirst, Order::EveryOther] {
            assert!(rt;
                goes_on(rt, rt.alloc(), workers, order),
                "{workers} workers, {order:?}"
            );
        }
    }
}

// The run's last receipt is kept waiting until the other three events are entered and the other worker sleeps. So
// only the end of the run wakes that worker.
#[test]
fn a_worker_that_sleeps_ends_with_the_run(rt: HostRuntime) {
    let holds = Holds {
        events_to_begin: 0,
        events_to_take: 0,
        first_desk_call: (Desk::Programme(A), 3),
        other_desk_call: None,
        next_takes: (0, Until::Entered(0)),
    };
    let gate = UntilDone::new(rt, holds);
    let outcome = run_of(rt, rt.alloc(), ONE_PAIR, Capacity::Full, 2, &gate);
    assert!(rt;
        gate.has_held_all()
            && outcome.is_ok_and(|outcome| outcome.ending == Ending::Closed
                && is_counted(&outcome, 2))
    );
}
