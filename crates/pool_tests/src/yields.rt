//! Runs over random small markets, with a gate that sometimes lets other workers go first or parks a worker. Each run
//! has to give the sheet that its journal leads to.
ghost use Rattle.std.specs.Prelude.{true, false};

use crate::runs::run_on;
use exchange_core::{Capacity, Desk};
use match_audit::check;
use match_model::{Instance, InstanceBuilder, ModelFault, ProgrammeNo, ResidentNo};
use match_pool::{Ending, Gate, Go};
use std::alloc::Global;
use std::sync::Wait;
use std::sync::atomic::{AtomicU64, Ordering};
use std::test::Fail;
use std::thread;
use std::thread::Threads;
use std::time::Duration;

// The next number of a random sequence.
fn next_random(number: u64) -> u64 {
    let mut mixed = number.wrapping_add(0x9E37_79B9_7F4A_7C15);
    mixed = (mixed ^ (mixed >> 30)).wrapping_mul(0xBF58_476D_1CE4_E5B9);
    mixed = (mixed ^ (mixed >> 27)).wrapping_mul(0x94D0_49BB_1331_11EB);
    mixed ^ (mixed >> 31)
}

// Draws a number from 0 to 6 by chance.
fn drawn_number(random_state: &mut u64) -> u32 {
    *random_state = next_random(*random_state);
    ((*random_state >> 8) % 7) as u32
}

// A gate that on average parks its worker for a while at one of seven calls, and at most other calls lets other
// workers go first.
#[derive(Drop)]
struct Yields<R: Wait + Copy> {
    rt: R,
    clock: AtomicU64,
    earlier_calls: AtomicU64,
}

impl<R: Wait + Copy> Yields<R> {
    // The number of earlier calls decides, as a seed, what the worker does at this call.
    fn yield_or_park(&self) {
        let mut random_state = self.earlier_calls.fetch_add(1, Ordering::SeqCst);
        match drawn_number(&mut random_state) {
            0 => {
                self.clock
                    .park_timeout(&self.rt, 0, Duration::from_micros(300));
            }
            1..=4 => thread::yield_now(),
            _ => {}
        }
    }
}

impl<R: Wait + Copy + Sync> Gate for Yields<R> {
    ghost MAY_STOP = { false };

    const MAY_STOP: bool = false;

    fn pass(&self, _worker: usize, _desk: Desk) -> Go {
        self.yield_or_park();
        Go::On
    }

    fn entered(&self, _worker: usize) {
        self.yield_or_park();
    }
}

// Gives a programme or a resident a list with most of the seven members of the other side, in a random order.
fn give_lists(
    builder: &mut InstanceBuilder,
    alloc: Global,
    owner_number: u32,
    random_state: &mut u64,
) -> Result<(), ModelFault> {
    let (first_number, step) = (
        drawn_number(random_state),
        drawn_number(random_state).max(1),
    );
    let (mut residents, mut programmes) = (Vec::new(alloc), Vec::new(alloc));
    for factor in 0..7_u32 {
        let other_number = first_number.wrapping_add(factor.wrapping_mul(step)) % 7;
        if drawn_number(random_state) < 5 {
            residents.push(ResidentNo(other_number))?;
        }
        if drawn_number(random_state) < 5 {
            programmes.push(ProgrammeNo(other_number))?;
        }
    }
    builder.programme_list(ProgrammeNo(owner_number), residents.as_slice())?;
    builder.resident_list(ResidentNo(owner_number), programmes.as_slice())
}

// A random instance: seven programmes with at most two places each, and seven residents.
fn made_by_chance(alloc: Global, random_state: &mut u64) -> Result<Instance, ModelFault> {
    let mut builder = InstanceBuilder::new(alloc);
    for _ in 0..7 {
        builder.add_programme(drawn_number(random_state) % 3)?;
        builder.add_resident()?;
    }
    for owner_number in 0..7 {
        give_lists(&mut builder, alloc, owner_number, random_state)?;
    }
    builder.finish().map_err(|refused| refused.fault)
}

// How many workers entered events in a run; none unless the run closed and gave the sheet that its journal leads
// to.
fn busy_workers_in<R: Threads + Wait + Sync + Send + Copy>(
    rt: R,
    alloc: Global,
    inst: &Instance,
    run_setup: (Capacity, usize),
    random_state: u64,
) -> Option<usize> {
    let (cap, workers) = run_setup;
    let gate = Yields {
        rt,
        clock: AtomicU64::new(0),
        earlier_calls: AtomicU64::new(random_state),
    };
    let Ok(outcome) = run_on(rt, alloc, inst, cap, workers, &gate) else {
        return None;
    };
    let check_result = check(alloc, inst, cap, &outcome.journal, &outcome.assignment);
    if outcome.ending != Ending::Closed || check_result.is_err() {
        return None;
    }
    let mut busy_workers = 0_usize;
    for entry_count in &outcome.entry_counts {
        busy_workers = busy_workers.saturating_add((*entry_count > 0) as usize);
    }
    Some(busy_workers)
}

#[test]
fn each_journal_of_workers_that_yield_gives_its_sheet(rt: HostRuntime) -> Result<(), Fail> {
    let (mut random_state, mut shared_runs) = (56, 0_u32);
    for round in 0..60_usize {
        let inst = made_by_chance(rt.alloc(), &mut random_state)?;
        for cap in [Capacity::Full, Capacity::Each(1), Capacity::Each(2)] {
            let workers = 2 + round % 7;
            let busy_workers = busy_workers_in(rt, rt.alloc(), &inst, (cap, workers), random_state);
            assert!(rt;
                busy_workers.is_some(),
                "market {round}, {cap:?}, {workers} workers"
            );
            shared_runs = shared_runs.saturating_add(
                busy_workers.is_some_and(|busy_workers| busy_workers > 1) as u32,
            );
        }
    }
    // at least 60 of the 180 runs
    assert!(rt; shared_runs >= 60, "{shared_runs}");
    Ok(())
}
