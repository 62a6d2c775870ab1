//! What a gate promises, tested in runs: when `pass` is called for a receipt, when `entered` is called, and how a run
//! stops.
use crate::runs::{Outcome, run_of, run_on};
use exchange_core::{Capacity, Desk, Event};
use match_model::{Instance, ModelFault, ProgrammeNo};
use match_pool::Ending;
use std::alloc::Global;
use std::sync::Wait;
use std::test::Fail;
use std::thread::Threads;
use test_gates::gates::{Hold, HoldsEntered, HoldsVisit, Rested, Stalls, StopsBy, StopsFrom};
use test_support::events::desk_of;
use test_support::instances::{Members, TWO_BY_TWO, TWO_PLACES, instance_of};
use test_support::markets::{made_chain, made_pairs};

const CAPACITIES: [Capacity; 3] = [Capacity::Full, Capacity::Each(1), Capacity::Each(2)];

// How often a test is repeated, since one try may miss what the test looks for.
const TRIES: u32 = 10;

// Four instances: two small ones, a hundred pairs, and a chain of forty links.
fn made_instances(alloc: Global) -> Result<[Instance; 4], ModelFault> {
    Ok([
        instance_of(alloc, TWO_BY_TWO)?,
        instance_of(alloc, TWO_PLACES)?,
        made_pairs(alloc, 100)?,
        made_chain(alloc, 40)?,
    ])
}

// How many takes and hears a run has.
fn receipts_of(journal: &[Event]) -> u64 {
    let mut receipt_count = 0_u64;
    for event in journal {
        if let Event::Take { .. } | Event::Hear { .. } = event {
            receipt_count = receipt_count.saturating_add(1);
        }
    }
    receipt_count
}

// Whether each worker entered as many events as the gate counted, and the journal has all of them and no others.
fn agrees_with_counts(outcome: &Outcome, gate_counts: &[u64]) -> bool {
    let mut entered_sum = 0_u64;
    for (entry_count, gate_count) in outcome.entry_counts.iter().zip(gate_counts) {
        if entry_count != gate_count {
            return false;
        }
        entered_sum = entered_sum.saturating_add(*gate_count);
    }
    outcome.journal.len() as u64 == entered_sum
        && outcome.event_workers.len() == outcome.journal.len()
}

// Whether a run ended as it should whose gate stops it from the call of `pass` with this number on.
fn is_stopped_from(outcome: &Outcome, gate: &StopsFrom, first_pass: u64, workers: usize) -> bool {
    let gate_counts = [0, 1, 2, 3, 4, 5, 6, 7].map(|worker| gate.count(worker));
    let receipts = receipts_of(&outcome.journal);
    let is_closed = outcome.journal.last() == Some(&Event::Close);
    let ends_well = match outcome.ending {
        Ending::Closed => is_closed,
        Ending::Stopped => !is_closed && receipts >= first_pass,
    };
    // several workers can close a run while one worker is stopped at the run's last receipt
    ends_well
        && (workers > 1
            || is_closed && receipts < first_pass
            || !is_closed && receipts == first_pass)
        && gate.all_ended()
        && agrees_with_counts(outcome, &gate_counts)
}

// How a run ended whose gate stops it from the call of `pass` with this number on; none if it did not end as it
// should.
fn stopped_from<R: Threads + Wait + Sync + Send + Copy>(
    rt: R,
    alloc: Global,
    inst: &Instance,
    run_setup: (Capacity, usize),
    first_pass: u64,
) -> Option<Ending> {
    let (cap, workers) = run_setup;
    let gate = StopsFrom::new(first_pass);
    let Ok(outcome) = run_on(rt, alloc, inst, cap, workers, &gate) else {
        return None;
    };
    if is_stopped_from(&outcome, &gate, first_pass, workers) {
        Some(outcome.ending)
    } else {
        None
    }
}

// Whether runs ended as they should whose gate stops them at one of these calls of `pass` and at
// each later call.
fn stop_well<R: Threads + Wait + Sync + Send + Copy>(
    rt: R,
    alloc: Global,
    workers: usize,
) -> Result<bool, ModelFault> {
    let inst = instance_of(alloc, TWO_PLACES)?;
    for first_pass in 1..=10 {
        for cap in CAPACITIES {
            let ends_well = match stopped_from(rt, alloc, &inst, (cap, workers), first_pass) {
                Some(Ending::Closed) => first_pass > 1,
                Some(Ending::Stopped) => first_pass < 10,
                None => false,
            };
            if !ends_well {
                return Ok(false);
            }
        }
    }
    Ok(true)
}

#[test]
fn one_worker_stops_from_each_pass_on(rt: HostRuntime) -> Result<(), Fail> {
    assert!(rt; stop_well(rt, rt.alloc(), 1)?);
    Ok(())
}

#[test]
fn stops_from_each_pass_on(rt: HostRuntime) -> Result<(), Fail> {
    for workers in [2, 8] {
        assert!(rt; stop_well(rt, rt.alloc(), workers)?, "{workers} workers");
    }
    Ok(())
}

#[test]
fn every_worker_heeds_a_stop(rt: HostRuntime) -> Result<(), Fail> {
    let [_, _, pairs, chain] = made_instances(rt.alloc())?;
    for inst in [&pairs, &chain] {
        for first_pass in [1, 30] {
            for cap in CAPACITIES {
                for workers in [2, 4, 8] {
                    let ending = stopped_from(rt, rt.alloc(), inst, (cap, workers), first_pass);
                    assert!(rt;
                        ending == Some(Ending::Stopped),
                        "from {first_pass} on, {cap:?}, {workers} workers"
                    );
                }
            }
        }
    }
    Ok(())
}

// Whether a run over pairs ends because this worker stopped it; any worker, if none is given.
fn is_stopped_by<R: Threads + Wait + Sync + Send + Copy>(
    rt: R,
    alloc: Global,
    inst: &Instance,
    workers: usize,
    worker: Option<usize>,
) -> bool {
    let gate = StopsBy::new(rt, worker);
    let outcome = run_on(rt, alloc, inst, Capacity::Full, workers, &gate);
    outcome.is_ok_and(|outcome| outcome.ending == Ending::Stopped)
}

#[test]
fn the_stop_of_each_worker_is_heeded(rt: HostRuntime) -> Result<(), Fail> {
    // all other workers are kept waiting, each at a desk of its own, so the worker finds a pair
    let inst = made_pairs(rt.alloc(), 16)?;
    for worker in 0..8 {
        assert!(rt;
            is_stopped_by(rt, rt.alloc(), &inst, 8, Some(worker)),
            "worker {worker}"
        );
    }
    Ok(())
}

#[test]
fn a_stop_wakes_who_rests(rt: HostRuntime) -> Result<(), Fail> {
    // one worker has the only desk with work, and all others rest
    let inst = made_pairs(rt.alloc(), 1)?;
    for workers in [2, 8] {
        assert!(rt;
            is_stopped_by(rt, rt.alloc(), &inst, workers, None),
            "{workers} workers"
        );
    }
    Ok(())
}

// The index in the journal of the event that a worker entered after it had entered `earlier_entries` events.
fn journal_index(outcome: &Outcome, worker: usize, earlier_entries: u64) -> Option<usize> {
    let mut entered_count = 0_u64;
    for (index, by_worker) in outcome.event_workers.iter().enumerate() {
        if usize::from(*by_worker) == worker {
            if entered_count == earlier_entries {
                return Some(index);
            }
            entered_count = entered_count.saturating_add(1);
        }
    }
    None
}

// Whether a receipt that was kept waiting was entered after all events that were entered meanwhile, none of which
// belongs to its desk.
fn is_entered_after(outcome: &Outcome, hold: &Hold, workers: usize) -> bool {
    let Some(held_index) = journal_index(outcome, hold.worker, hold.own_entries) else {
        return false;
    };
    for (index, event) in outcome.journal.iter().enumerate() {
        let is_meanwhile = index >= (hold.entries_before as usize).saturating_add(workers)
            && index < held_index;
        if is_meanwhile && (desk_of(event) == Some(hold.desk) || *event == Event::Close) {
            return false;
        }
    }
    held_index as u64 >= hold.entries_after
        && outcome.journal.get(held_index).is_some_and(|event| {
            desk_of(event) == Some(hold.desk) && receipts_of(&[*event]) == 1
        })
}

// Whether a call of `pass` was kept waiting, and its receipt was entered only after the wait.
fn is_late_enough<R: Wait + Copy>(outcome: &Outcome, gate: &Stalls<R>, workers: usize) -> bool {
    match gate.hold() {
        Some(hold) => is_entered_after(outcome, &hold, workers),
        None => false,
    }
}

// Whether a run ends as it should in which the call of `pass` with this number is kept waiting, and whether there was
// such a call.
fn is_held<R: Threads + Wait + Sync + Send + Copy>(
    rt: R,
    alloc: Global,
    inst: &Instance,
    run_setup: (Capacity, usize),
    held_call: u64,
) -> bool {
    let (cap, workers) = run_setup;
    let gate = Stalls::new(rt, held_call);
    let Ok(outcome) = run_on(rt, alloc, inst, cap, workers, &gate) else {
        return false;
    };
    let gate_counts = [0, 1, 2, 3, 4, 5, 6, 7].map(|worker| gate.count(worker));
    outcome.ending == Ending::Closed
        && agrees_with_counts(&outcome, &gate_counts)
        && is_late_enough(&outcome, &gate, workers)
}

#[test]
fn a_receipt_passes_before_it_is_entered(rt: HostRuntime) -> Result<(), Fail> {
    let instances = made_instances(rt.alloc())?;
    // the last of these numbers is the call for the run's last receipt
    let calls_of_instances: [[u64; 2]; 4] = [[0, 3], [2, 7], [50, 199], [1, 60]];
    for (inst, held_calls) in instances.iter().zip(calls_of_instances) {
        for cap in [Capacity::Full, Capacity::Each(1)] {
            for workers in [1, 2, 4] {
                for held_call in held_calls {
                    assert!(rt;
                        is_held(rt, rt.alloc(), inst, (cap, workers), held_call),
                        "at {held_call}, {cap:?}, {workers} workers"
                    );
                }
            }
        }
    }
    Ok(())
}

// Whether other workers entered events while the worker that entered the event with this number was kept waiting.
fn goes_on<R: Threads + Wait + Sync + Send + Copy>(
    rt: R,
    alloc: Global,
    inst: &Instance,
    run_setup: (Capacity, usize),
    event_number: u64,
) -> bool {
    let (cap, workers) = run_setup;
    let gate = HoldsEntered::new(event_number);
    let Ok(outcome) = run_on(rt, alloc, inst, cap, workers, &gate) else {
        return false;
    };
    let gate_counts = [0, 1, 2, 3, 4, 5, 6, 7].map(|worker| gate.count(worker));
    gate.has_held()
        && outcome.ending == Ending::Closed
        && agrees_with_counts(&outcome, &gate_counts)
}

#[test]
fn an_entry_is_told_with_the_ledger_free(rt: HostRuntime) -> Result<(), Fail> {
    let instances = made_instances(rt.alloc())?;
    for inst in &instances {
        for cap in CAPACITIES {
            for workers in [2, 4, 8] {
                assert!(rt;
                    goes_on(rt, rt.alloc(), inst, (cap, workers), 1),
                    "{cap:?}, {workers} workers"
                );
            }
        }
    }
    Ok(())
}

// A programme that offers to ten residents in one visit.
const ONE_FOR_TEN: Members = (
    &[(10, &[0, 1, 2, 3, 4, 5, 6, 7, 8, 9])],
    &[&[0], &[0], &[0], &[0], &[0], &[0], &[0], &[0], &[0], &[0]],
);

// Whether another worker did the work that an offer gave, while the worker that had entered the offer was kept
// waiting.
fn goes_on_beside<R: Threads + Wait + Sync + Send + Copy>(
    rt: R,
    alloc: Global,
    cap: Capacity,
) -> bool {
    let gate = HoldsVisit::new();
    let outcome = run_of(rt, alloc, ONE_FOR_TEN, cap, 2, &gate);
    gate.has_held() && outcome.is_ok_and(|outcome| outcome.ending == Ending::Closed)
}

#[test]
fn what_an_entry_woke_is_listed_before_its_worker_is_held(rt: HostRuntime) {
    for _ in 0..TRIES {
        for cap in CAPACITIES {
            assert!(rt; goes_on_beside(rt, rt.alloc(), cap), "{cap:?}");
        }
    }
}

// Two programmes that offer to the same resident, who prefers the first programme. The second programme is rejected,
// and offers to a second resident.
const RIVALS: Members = (&[(1, &[0]), (1, &[0, 1])], &[&[0, 1], &[1]]);

// Whether a worker that found nothing to do was woken for a listed desk, while another worker stayed at its own desk.
// The listed desk is that of the rejected programme, which hears of the rejection and offers again.
fn is_woken<R: Threads + Wait + Sync + Send + Copy>(rt: R, alloc: Global, cap: Capacity) -> bool {
    let gate = Rested::new(rt, Desk::Programme(ProgrammeNo(1)));
    let outcome = run_of(rt, alloc, RIVALS, cap, 2, &gate);
    gate.has_held() && outcome.is_ok_and(|outcome| outcome.ending == Ending::Closed)
}

#[test]
fn no_worker_waits_for_the_desk_of_another(rt: HostRuntime) {
    for _ in 0..TRIES {
        for cap in CAPACITIES {
            assert!(rt; is_woken(rt, rt.alloc(), cap), "{cap:?}");
        }
    }
}
