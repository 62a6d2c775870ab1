//! Which worker made each event, as a journal by worker says.
ghost use Rattle.std.specs.Prelude.{true, false};

use crate::markets::{four_hundred_pairs, push_all_numbered, push_numbered};
use crate::texts::{QUOTAS_DOCKET, SMALL_DOCKET};
use docket::{Docket, Journal, read_docket};
use exchange_core::{Capacity, Desk, Event};
use match_pool::{Gate, Go};
use residency::{JournalForm, MatchOptions, Status, serve_match, serve_replay};
use std::alloc::{AllocError, Global};
use std::random::RandomSource;
use std::sync::atomic::{AtomicU64, Ordering};
use std::sync::{Mutex, Wait};
use std::test::Fail;
use std::thread;
use std::thread::Threads;
use test_gates::gates::{Firm, Held};
use test_support::events::desk_of;
use test_support::randomness::OneByte;

// How many rows of a text begin with `row_start` and end with `row_end`.
fn rows_between(text: &[u8], row_start: &str, row_end: &str) -> u64 {
    let mut row_count = 0_u64;
    if let Ok(text) = str::from_utf8(text) {
        for line in text.lines() {
            if line.starts_with(row_start) && line.ends_with(row_end) {
                row_count = row_count.saturating_add(1);
            }
        }
    }
    row_count
}

// Adds the row that a replay writes for each worker. Returns whether the journal names each worker as often as the
// gate counted the worker's entries.
fn names_workers_as_counted(
    alloc: Global,
    journal: &[u8],
    gate: &Firm,
    workers: usize,
    replay_rows: &mut String,
) -> Result<bool, AllocError> {
    let mut counts_agree = true;
    for worker in 0..workers {
        let entered_count = gate.0.count(worker);
        let named_count = rows_between(journal, "E,", format!(in alloc; ",{worker}")?.as_str());
        counts_agree = counts_agree && named_count == entered_count;
        replay_rows.push_str(format!(in alloc; "K,{worker},{entered_count}\n")?.as_str())?;
    }
    Ok(counts_agree)
}

// Whether a match names the worker of each event. Its first receipt waits until another worker has entered two
// events.
fn names_its_workers<H: Threads + Wait + RandomSource + Sync + Send + Copy>(
    rt: H,
    alloc: Global,
    docket: &str,
    workers: usize,
) -> Result<bool, AllocError> {
    let gate = Firm(Held::new(0));
    let options = MatchOptions {
        workers,
        capacity: Capacity::Full,
        journal: JournalForm::ByWorker,
    };
    let mut new_rows = Vec::new(alloc);
    let status = serve_match(rt, alloc, docket.as_bytes(), &mut new_rows, &options, &gate);
    let mut replay_rows = format!(in alloc; "G,{}\n", gate.0.count_all())?;
    let counts_agree = names_workers_as_counted(
        alloc,
        new_rows.as_slice(),
        &gate,
        workers,
        &mut replay_rows,
    )?;
    let mut whole_docket = docket.as_bytes().to_vec(alloc)?;
    whole_docket.extend_from_slice(new_rows.as_slice())?;
    let mut replay_output = Vec::new(alloc);
    let replay_status = serve_replay(&rt, alloc, whole_docket.as_slice(), &mut replay_output);
    Ok(
        status == Ok(Status::Closed)
            && gate.0.has_held()
            && counts_agree
            && replay_status == Ok(Status::ReplayGood)
            && replay_output.as_slice() == replay_rows.as_bytes(),
    )
}

#[test]
fn a_journal_names_the_worker_of_each_event(rt: HostRuntime) -> Result<(), Fail> {
    let market = four_hundred_pairs(rt.alloc())?;
    for docket in [SMALL_DOCKET, QUOTAS_DOCKET, market.as_str()] {
        for workers in 2..9_usize {
            assert!(rt;
                names_its_workers(rt, rt.alloc(), docket, workers)?,
                "{workers}"
            );
        }
    }
    Ok(())
}

// A receipt for which a gate's `pass` was called: its desk, its worker, and whether it was found in the journal.
#[derive(Clone, Copy, Debug)]
struct Receipt {
    desk: Desk,
    worker: usize,
    is_found: bool,
}

// How often the gate lets other workers go first, so that another worker makes a call of `pass`, too.
const TURNS: u32 = 1_000_000;

// A gate that notes each receipt. It keeps the first receipt waiting until another worker makes a call of `pass`.
#[derive(Drop)]
struct Noting<R: Wait + Copy> {
    rt: R,
    workers: usize,
    pass_count: AtomicU64,
    receipts: Mutex<Vec<Receipt>>,
}

impl<R: Wait + Copy + Sync> Gate for Noting<R> {
    ghost MAY_STOP = { false };

    const MAY_STOP: bool = false;

    fn pass(&self, worker: usize, desk: Desk) -> Go {
        let receipt = Receipt {
            desk,
            worker,
            is_found: false,
        };
        // If there is no memory for the note of a receipt, the receipt is found missing when the journal names it.
        let _is_noted = self.receipts.lock(&self.rt).push(receipt).is_ok();
        if self.pass_count.fetch_add(1, Ordering::SeqCst) == 0 && self.workers > 1 {
            for _ in 0..TURNS {
                if self.pass_count.load(Ordering::SeqCst) > 1 {
                    break;
                }
                thread::yield_now();
            }
        }
        Go::On
    }

    fn entered(&self, _worker: usize) {}
}

// The worker of this desk's first receipt that was not found in the journal yet. The receipt then counts
// as found.
fn next_receipt_worker(receipts: &mut [Receipt], desk: Option<Desk>) -> Option<usize> {
    for receipt in receipts {
        if Some(receipt.desk) == desk && !receipt.is_found {
            receipt.is_found = true;
            return Some(receipt.worker);
        }
    }
    None
}

// Of the receipts of a desk that were found, the worker of the last one.
fn last_receipt_worker(receipts: &[Receipt], desk: Option<Desk>) -> Option<usize> {
    let mut last_worker = None;
    for receipt in receipts {
        if Some(receipt.desk) == desk && receipt.is_found {
            last_worker = Some(receipt.worker);
        }
    }
    last_worker
}

// Whether the journal names, for each receipt, the worker that called `pass` for it. The worker that takes an offer
// also gives the answers due, before it takes the next offer.
fn names_receipt_workers(journal: &Journal, receipts: &mut [Receipt]) -> bool {
    let Some(journal_workers) = &journal.by else {
        return false;
    };
    for (event, worker) in journal.events.iter().zip(journal_workers.who.as_slice()) {
        let desk = desk_of(event);
        let receipt_worker = match event {
            Event::Take { .. } | Event::Hear { .. } => next_receipt_worker(receipts, desk),
            Event::Answer { .. } => last_receipt_worker(receipts, desk),
            Event::Offer { .. } | Event::Close => continue,
        };
        if receipt_worker != Some(usize::from(*worker)) {
            return false;
        }
    }
    receipts.iter().all(|receipt| receipt.is_found)
}

// The docket of these bytes, or none if the bytes are no docket.
fn docket_of(alloc: Global, docket_text: &[u8]) -> Option<Docket> {
    read_docket(&OneByte(7), alloc, docket_text).ok()
}

// Whether a match with this number of workers names the right worker of each receipt and of each answer.
fn tells_its_workers<H: Threads + Wait + RandomSource + Sync + Send + Copy>(
    rt: H,
    alloc: Global,
    docket: &str,
    workers: usize,
) -> Result<bool, AllocError> {
    let gate = Noting {
        rt,
        workers,
        pass_count: AtomicU64::new(0),
        receipts: Mutex::new(Vec::new(alloc)),
    };
    let options = MatchOptions {
        workers,
        capacity: Capacity::Full,
        journal: JournalForm::ByWorker,
    };
    let mut docket_text = docket.as_bytes().to_vec(alloc)?;
    let status = serve_match(
        rt,
        alloc,
        docket.as_bytes(),
        &mut docket_text,
        &options,
        &gate,
    );
    let mut receipts = gate.receipts.into_inner();
    let Some(written_docket) = docket_of(alloc, docket_text.as_slice()) else {
        return Ok(false);
    };
    let Some(journal) = written_docket.journal() else {
        return Ok(false);
    };
    Ok(status == Ok(Status::Closed) && names_receipt_workers(journal, receipts.as_mut_slice()))
}

// A docket of one programme that ranks thirty residents and has a place for each.
fn docket_of_thirty(alloc: Global) -> Result<String, AllocError> {
    let mut docket_text = String::new(alloc);
    docket_text.push_str("Q,a,30\nP,a")?;
    push_all_numbered(&mut docket_text, alloc, ",r", 30, "")?;
    docket_text.push_str("\n")?;
    for resident in 0..30 {
        push_numbered(&mut docket_text, alloc, "R,r", resident, ",a\n")?;
    }
    Ok(docket_text)
}

#[test]
fn a_journal_tells_who_made_each_receipt_and_each_answer(rt: HostRuntime) -> Result<(), Fail> {
    let (large_programme, market) = (
        docket_of_thirty(rt.alloc())?,
        four_hundred_pairs(rt.alloc())?,
    );
    for docket in [large_programme.as_str(), QUOTAS_DOCKET, market.as_str()] {
        for workers in 1..=8 {
            assert!(rt;
                tells_its_workers(rt, rt.alloc(), docket, workers)?,
                "{workers} workers"
            );
        }
    }
    Ok(())
}
