//! Runs of the pool over worked markets.
use exchange_core::{Capacity, Desk, Event};
use match_model::{Assignment, Instance, ProgrammeNo, ResidentNo};
use match_pool::{Ending, Gate, OpenGate, RunFault, run};
use std::alloc::{AllocError, Global};
use std::sync::Wait;
use std::test::Fail;
use std::thread::Threads;
use test_gates::gates::{Firm, Held, Loose, StopsAtOnce};
use test_support::events::{A, B, X};
use test_support::instances::{Members, TWO_BY_TWO, TWO_PLACES, has_places, instance_of};
use test_support::markets::made_in_one_order;

// The result of a run without the ends and the agents.
#[derive(Drop)]
pub(crate) struct Outcome {
    pub(crate) ending: Ending,
    pub(crate) journal: Vec<Event>,
    pub(crate) event_workers: Vec<u8>,
    pub(crate) assignment: Assignment,
    pub(crate) entry_counts: Vec<u64>,
}

// Runs the exchange of an instance, and returns the result without the ends and the agents.
pub(crate) fn run_on<G: Gate + Sync, R: Threads + Wait + Sync + Send + Copy>(
    rt: R,
    alloc: Global,
    inst: &Instance,
    cap: Capacity,
    workers: usize,
    gate: &G,
) -> Result<Outcome, RunFault> {
    match run(rt, alloc, inst, cap, workers, gate) {
        Ok(finished_run) => Ok(Outcome {
            ending: finished_run.ending,
            journal: finished_run.journal,
            event_workers: finished_run.who,
            assignment: finished_run.assignment,
            entry_counts: finished_run.entered,
        }),
        Err(fault) => Err(fault),
    }
}

// Runs the exchange of these members, as `run_on` does.
pub(crate) fn run_of<G: Gate + Sync, R: Threads + Wait + Sync + Send + Copy>(
    rt: R,
    alloc: Global,
    members: Members,
    cap: Capacity,
    workers: usize,
    gate: &G,
) -> Result<Outcome, RunFault> {
    match instance_of(alloc, members) {
        Ok(inst) => run_on(rt, alloc, &inst, cap, workers, gate),
        Err(_) => Err(RunFault::Memory),
    }
}

// Whether a run closed with each resident at the programme with this number, or at none.
fn ends_with<R: Threads + Wait + Sync + Send + Copy>(
    rt: R,
    alloc: Global,
    members: Members,
    cap: Capacity,
    workers: usize,
    programmes: &[Option<u32>],
) -> bool {
    match run_of(rt, alloc, members, cap, workers, &OpenGate) {
        Ok(outcome) => outcome.ending == Ending::Closed
            && has_places(&outcome.assignment, programmes),
        Err(_) => false,
    }
}

// Markets, each with the programme of each resident after the close. One market has no place, one has a member whom
// nobody ranks, and one leaves a place and a resident over. In three others everybody ranks everybody, and their
// placements are from an implementation of plain deferred acceptance.
const MARKETS: [(Members, &[Option<u32>]); 8] = [
    (TWO_BY_TWO, &[Some(0), Some(1)]),
    (TWO_PLACES, &[Some(1), Some(0), Some(0)]),
    ((&[(0, &[0]), (1, &[0])], &[&[0, 1]]), &[Some(1)]),
    ((&[(1, &[0])], &[&[]]), &[None]),
    (
        (&[(2, &[0]), (1, &[0, 1])], &[&[1, 0], &[1]]),
        &[Some(1), None],
    ),
    (
        (
            &[
                (1, &[3, 1, 2, 0, 4]),
                (2, &[0, 1, 2, 4, 3]),
                (1, &[0, 4, 3, 2, 1]),
            ],
            &[&[2, 1, 0], &[2, 0, 1], &[0, 1, 2], &[0, 2, 1], &[1, 2, 0]],
        ),
        &[Some(2), Some(1), Some(1), Some(0), None],
    ),
    (
        (
            &[
                (1, &[0, 1, 2, 5, 6, 4, 3]),
                (1, &[0, 6, 4, 3, 2, 5, 1]),
                (2, &[6, 3, 2, 1, 5, 0, 4]),
                (1, &[0, 2, 5, 4, 1, 3, 6]),
            ],
            &[
                &[2, 0, 3, 1],
                &[1, 2, 3, 0],
                &[1, 0, 2, 3],
                &[0, 2, 1, 3],
                &[2, 3, 0, 1],
                &[3, 0, 1, 2],
                &[3, 0, 2, 1],
            ],
        ),
        &[Some(0), None, Some(3), Some(2), Some(1), None, Some(2)],
    ),
    (
        (
            &[
                (1, &[1, 5, 3, 0, 4, 2]),
                (1, &[2, 4, 3, 5, 0, 1]),
                (1, &[3, 1, 5, 0, 4, 2]),
                (1, &[3, 2, 1, 0, 4, 5]),
                (2, &[4, 2, 3, 0, 5, 1]),
            ],
            &[
                &[0, 4, 2, 3, 1],
                &[2, 1, 4, 3, 0],
                &[1, 4, 2, 3, 0],
                &[3, 2, 0, 1, 4],
                &[4, 2, 3, 0, 1],
                &[3, 1, 0, 2, 4],
            ],
        ),
        &[Some(4), Some(2), Some(1), Some(3), Some(4), Some(0)],
    ),
];

#[test]
fn closes(rt: HostRuntime) {
    for (members, programmes) in MARKETS {
        for cap in [Capacity::Full, Capacity::Each(1), Capacity::Each(1024)] {
            for workers in 1..=8 {
                assert!(rt;
                    ends_with(rt, rt.alloc(), members, cap, workers, programmes),
                    "{cap:?}, {workers} workers"
                );
            }
        }
    }
}

// Whether a run with two residents is refused with this fault.
fn is_refused<R: Threads + Wait + Sync + Send + Copy>(
    rt: R,
    alloc: Global,
    cap: Capacity,
    workers: usize,
    expected_fault: &RunFault,
) -> bool {
    match run_of(rt, alloc, TWO_BY_TWO, cap, workers, &OpenGate) {
        Ok(_) => false,
        Err(fault) => fault == *expected_fault,
    }
}

#[test]
fn refuses_a_bad_number_of_workers_or_capacity(rt: HostRuntime) {
    let cases = [
        (Capacity::Full, 0, RunFault::BadWorkers),
        (Capacity::Full, 9, RunFault::BadWorkers),
        (Capacity::Each(0), 9, RunFault::BadWorkers),
        (Capacity::Each(0), 2, RunFault::BadCapacity),
        (Capacity::Each(1025), 2, RunFault::BadCapacity),
    ];
    for (cap, workers, expected_fault) in &cases {
        assert!(rt;
            is_refused(rt, rt.alloc(), *cap, *workers, expected_fault),
            "{cap:?}, {workers} workers"
        );
    }
}

// Whether a gate kept a worker waiting, the run closed, each worker entered as many events as the gate counted, and
// at least two workers entered some.
fn agrees_with_gate(outcome: &Outcome, held: &Held) -> bool {
    let mut busy_workers = 0_usize;
    for (worker, entry_count) in outcome.entry_counts.iter().enumerate() {
        if *entry_count != held.count(worker) {
            return false;
        }
        if *entry_count > 0 {
            busy_workers = busy_workers.saturating_add(1);
        }
    }
    held.has_held()
        && outcome.ending == Ending::Closed
        && busy_workers >= 2
        && outcome.journal.len() as u64 == held.count_all()
        && outcome.event_workers.len() == outcome.journal.len()
}

// How many events a run has; none unless its gate kept a worker waiting and the result is right.
fn counted_events<G: Gate + Sync, R: Threads + Wait + Sync + Send + Copy>(
    rt: R,
    alloc: Global,
    members: Members,
    workers: usize,
    gate: &G,
    held: &Held,
) -> Option<usize> {
    let Ok(outcome) = run_of(rt, alloc, members, Capacity::Full, workers, gate) else {
        return None;
    };
    if agrees_with_gate(&outcome, held) {
        Some(outcome.journal.len())
    } else {
        None
    }
}

#[test]
fn two_at_once(rt: HostRuntime) {
    let alloc = rt.alloc();
    for workers in 2..=8 {
        for (members, event_counts) in [(TWO_BY_TWO, [9, 9]), (TWO_PLACES, [17, 19])] {
            let firm_gate = Firm(Held::new(0));
            let event_count = counted_events(rt, alloc, members, workers, &firm_gate, &firm_gate.0);
            assert!(rt;
                event_count.is_some_and(|count| event_counts.contains(&count)),
                "{event_counts:?}, {workers}"
            );
            let loose_gate = Loose(Held::new(0));
            let event_count = counted_events(
                rt,
                alloc,
                members,
                workers,
                &loose_gate,
                &loose_gate.0,
            );
            assert!(rt;
                event_count.is_some_and(|count| event_counts.contains(&count)),
                "{event_counts:?}, {workers}"
            );
        }
    }
}

// Whether the first 2,000 residents are at the first programme, the next 2,000 at the second, and so on.
fn is_in_one_order(sheet: &Assignment) -> bool {
    for resident in 0..sheet.len() {
        if sheet.get(ResidentNo(resident)) != Some(ProgrammeNo(resident / 2_000)) {
            return false;
        }
    }
    sheet.len() == 20_000
}

#[test]
fn two_at_once_on_their_way(rt: HostRuntime) -> Result<(), Fail> {
    let inst = made_in_one_order(rt.alloc())?;
    let firm_gate = Firm(Held::new(9_999));
    let outcome = run_on(rt, rt.alloc(), &inst, Capacity::Full, 2, &firm_gate);
    assert!(rt;
        outcome.is_ok_and(|outcome| agrees_with_gate(&outcome, &firm_gate.0)
            && is_in_one_order(&outcome.assignment))
    );
    Ok(())
}

// Whether a run was stopped after one take, and its workers entered exactly the events of its journal.
fn is_stopped(outcome: &Outcome) -> bool {
    let mut take_count = 0_usize;
    for event in &outcome.journal {
        match event {
            Event::Close => return false,
            Event::Take { .. } => take_count = take_count.saturating_add(1),
            _ => {}
        }
    }
    let mut entered_sum = 0_u64;
    for worker_entries in &outcome.entry_counts {
        entered_sum = entered_sum.saturating_add(*worker_entries);
    }
    outcome.ending == Ending::Stopped
        && take_count > 0
        && outcome.journal.len() as u64 == entered_sum
}

#[test]
fn heeds_a_stop(rt: HostRuntime) {
    let outcome = run_of(rt, rt.alloc(), TWO_BY_TWO, Capacity::Full, 2, &StopsAtOnce);
    assert!(rt; outcome.is_ok_and(|outcome| is_stopped(&outcome)));
}

const TORN_TEXT: &str = "a desk's log differs from the journal";

// Whether a fault prints as this text.
fn prints_as(alloc: Global, fault: RunFault, fault_text: &str) -> Result<bool, AllocError> {
    Ok(fault.to_string(alloc)?.as_str() == fault_text)
}

// Whether the faults that name an event or a desk print the expected texts.
fn desk_faults_print(alloc: Global) -> Result<bool, AllocError> {
    let receipt_fault = RunFault::OutOfStep {
        journal: Vec::new(alloc),
        event: Event::Close,
    };
    Ok(
        prints_as(alloc, receipt_fault, "a receipt was out of step")?
            && prints_as(alloc, RunFault::Torn(Desk::Resident(X)), TORN_TEXT)?
            && prints_as(
                alloc,
                RunFault::MailGone(Desk::Programme(B)),
                "a mailbox is gone",
            )?,
    )
}

#[test]
fn prints_its_faults(rt: HostRuntime) -> Result<(), Fail> {
    let alloc = rt.alloc();
    assert!(rt; prints_as(alloc, RunFault::BadWorkers, "bad number of workers")?);
    assert!(rt; prints_as(alloc, RunFault::BadCapacity, "bad capacity")?);
    assert!(rt; prints_as(alloc, RunFault::Memory, "out of memory")?);
    assert!(rt; prints_as(alloc, RunFault::Thread, "a worker could not be started")?);
    assert!(rt; desk_faults_print(alloc)?);
    Ok(())
}
