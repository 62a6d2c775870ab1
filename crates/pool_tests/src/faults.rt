//! Faults of a run with a real cause: mailboxes that slip, which means that they give answers that a good mailbox
//! never gives.
use crate::slips::{PutSlip, Slip, Slipping, TakeSlip};
use exchange_core::{AnswerKind, AnswerNote, Capacity, Desk, Event, OfferNote};
use match_model::{ProgrammeNo, ResidentNo};
use match_pool::{Ending, Gate, OpenGate, RunFault, run_over};
use std::alloc::Global;
use std::sync::Wait;
use std::thread::Threads;
use test_gates::gates::{AfterAnother, Counting};
use test_support::events::{A, B, DECLINE, HOLD, RELEASE, X, Y, Z, hear, take};
use test_support::instances::{Members, TWO_BY_TWO, TWO_PLACES, has_places, instance_of};

// The outcome of a run with this number of workers in which one mailbox gives a wrong answer: the run's fault, or
// whether the run closed with each resident at the expected programme.
fn slipping_outcome<G: Gate + Sync, R: Threads + Wait + Sync + Send + Copy>(
    rt: R,
    alloc: Global,
    members_and_programmes: (Members, &[Option<u32>]),
    run_setup: (Capacity, usize),
    gate: &G,
    slip: Slip,
) -> Result<bool, RunFault> {
    let (members, programmes) = members_and_programmes;
    let (cap, workers) = run_setup;
    let Ok(inst) = instance_of(alloc, members) else {
        return Err(RunFault::Memory);
    };
    let mailboxes = Slipping {
        rt,
        slips: [slip, slip],
    };
    let finished_run = run_over(rt, alloc, &mailboxes, &inst, cap, workers, gate)?;
    Ok(finished_run.ending == Ending::Closed && has_places(&finished_run.assignment, programmes))
}

const CAPACITIES: [Capacity; 3] = [Capacity::Full, Capacity::Each(1), Capacity::Each(2)];

const SMALL_MARKET: (Members, &[Option<u32>]) = (TWO_BY_TWO, &[Some(0), Some(1)]);

const LARGER_MARKET: (Members, &[Option<u32>]) = (TWO_PLACES, &[Some(1), Some(0), Some(0)]);

// A number that no programme has.
const STRANGE_PROGRAMME: ProgrammeNo = ProgrammeNo(7);

// Slips after which a run goes on. A message that was refused as if the mailbox were full is put again, and a message
// that was missing is looked for again.
const PASSING_SLIPS: [Slip; 8] = [
    Slip::Offer(X, 0, PutSlip::Full),
    Slip::Offer(X, 1, PutSlip::Full),
    Slip::Answer(A, 0, PutSlip::Full),
    Slip::Answer(A, 2, PutSlip::Full),
    Slip::Take(X, 0, TakeSlip::Nothing),
    Slip::Take(X, 1, TakeSlip::Nothing),
    Slip::Hear(A, 0, TakeSlip::Nothing),
    Slip::Hear(A, 3, TakeSlip::Nothing),
];

#[test]
fn goes_on_after_full_and_nothing(rt: HostRuntime) {
    for slip in PASSING_SLIPS {
        for cap in CAPACITIES {
            for workers in 1..=4 {
                assert!(rt;
                    slipping_outcome(
                        rt,
                        rt.alloc(),
                        LARGER_MARKET,
                        (cap, workers),
                        &OpenGate,
                        slip
                    ) == Ok(true),
                    "{slip:?}, {cap:?}, {workers} workers"
                );
            }
        }
    }
}

// Slips in which a mailbox loses its other end, each with the desk of this mailbox.
fn losing_slips() -> [(Slip, Desk); 8] {
    [
        (Slip::Offer(X, 0, PutSlip::Gone), Desk::Resident(X)),
        (Slip::Offer(Z, 0, PutSlip::Gone), Desk::Resident(Z)),
        (Slip::Answer(A, 0, PutSlip::Gone), Desk::Programme(A)),
        (Slip::Answer(B, 0, PutSlip::Gone), Desk::Programme(B)),
        (Slip::Take(X, 1, TakeSlip::Gone), Desk::Resident(X)),
        (Slip::Take(Y, 0, TakeSlip::Gone), Desk::Resident(Y)),
        (Slip::Hear(A, 1, TakeSlip::Gone), Desk::Programme(A)),
        (Slip::Hear(B, 0, TakeSlip::Gone), Desk::Programme(B)),
    ]
}

// Whether a run has the fault that the other end of this desk's mailbox is gone.
fn is_mail_gone(outcome: &Result<bool, RunFault>, desk: &Desk) -> bool {
    match outcome {
        Err(RunFault::MailGone(gone_desk)) => gone_desk == desk,
        _ => false,
    }
}

#[test]
fn tells_whose_mailbox_is_gone(rt: HostRuntime) {
    for (slip, desk) in losing_slips() {
        for cap in CAPACITIES {
            for workers in 1..=4 {
                let gate = Counting::new();
                let outcome = slipping_outcome(
                    rt,
                    rt.alloc(),
                    LARGER_MARKET,
                    (cap, workers),
                    &gate,
                    slip,
                );
                assert!(rt;
                    is_mail_gone(&outcome, &desk),
                    "{slip:?}, {cap:?}, {workers} workers"
                );
            }
        }
    }
}

// Slips that last until the end of the run, each with the desk that stays pending. In some, an offer or an answer
// finds no room. In others, a desk finds no message in its mailbox, though a message waits.
fn lasting_slips() -> [(Slip, Desk); 8] {
    [
        (Slip::Offer(Y, 0, PutSlip::AlwaysFull), Desk::Programme(A)),
        (Slip::Offer(Z, 0, PutSlip::AlwaysFull), Desk::Programme(A)),
        (Slip::Answer(B, 0, PutSlip::AlwaysFull), Desk::Resident(X)),
        (Slip::Take(X, 0, TakeSlip::AlwaysNothing), Desk::Resident(X)),
        (Slip::Take(X, 1, TakeSlip::AlwaysNothing), Desk::Resident(X)),
        (Slip::Take(Y, 0, TakeSlip::AlwaysNothing), Desk::Resident(Y)),
        (
            Slip::Hear(A, 0, TakeSlip::AlwaysNothing),
            Desk::Programme(A),
        ),
        (
            Slip::Hear(B, 0, TakeSlip::AlwaysNothing),
            Desk::Programme(B),
        ),
    ]
}

// Whether a run has the fault that this desk is torn.
fn is_torn(outcome: &Result<bool, RunFault>, desk: &Desk) -> bool {
    match outcome {
        Err(RunFault::Torn(torn_desk)) => torn_desk == desk,
        _ => false,
    }
}

#[test]
fn tells_the_desk_that_is_left_pending(rt: HostRuntime) {
    for (slip, desk) in lasting_slips() {
        for cap in CAPACITIES {
            for workers in 1..=4 {
                let gate = Counting::new();
                let outcome = slipping_outcome(
                    rt,
                    rt.alloc(),
                    LARGER_MARKET,
                    (cap, workers),
                    &gate,
                    slip,
                );
                assert!(rt;
                    is_torn(&outcome, &desk),
                    "{slip:?}, {cap:?}, {workers} workers"
                );
            }
        }
    }
}

// A slip in which the resident's first take gives an offer of this programme, and the take that the worker then
// tries to enter.
fn offer_slip(resident: ResidentNo, programme: ProgrammeNo) -> (Slip, Event) {
    let take_slip = TakeSlip::Gives(OfferNote { programme });
    (
        Slip::Take(resident, 0, take_slip),
        take(resident, programme),
    )
}

// A slip in which the programme's look with this number gives this answer, and the hear that the worker then tries
// to enter.
fn answer_slip(
    programme: ProgrammeNo,
    call: u32,
    resident: ResidentNo,
    kind: AnswerKind,
) -> (Slip, Event) {
    let take_slip = TakeSlip::Gives(AnswerNote { resident, kind });
    (
        Slip::Hear(programme, call, take_slip),
        hear(programme, resident, kind),
    )
}

// Slips that give a message that was never put, or a message before an older one, each with the receipt that is then
// out of step.
fn out_of_step_slips() -> [(Slip, Event); 8] {
    [
        offer_slip(X, STRANGE_PROGRAMME),
        offer_slip(Z, B),
        offer_slip(Y, B),
        answer_slip(A, 0, Y, DECLINE),
        answer_slip(A, 1, Z, DECLINE),
        answer_slip(A, 2, X, DECLINE),
        answer_slip(B, 0, X, RELEASE),
        answer_slip(B, 0, Y, HOLD),
    ]
}

// Whether a run is out of step at this receipt, with a journal of exactly the events that the gate counted, without
// a close.
fn is_out_of_step(outcome: &Result<bool, RunFault>, gate: &Counting, receipt: &Event) -> bool {
    match outcome {
        Err(RunFault::OutOfStep { journal, event }) => {
            event == receipt
                && journal.len() as u64 == gate.count_all()
                && !journal.contains(&Event::Close)
        }
        _ => false,
    }
}

#[test]
fn tells_the_receipt_that_is_out_of_step(rt: HostRuntime) {
    for (slip, receipt) in out_of_step_slips() {
        for cap in CAPACITIES {
            for workers in 1..=4 {
                let gate = Counting::new();
                let outcome = slipping_outcome(
                    rt,
                    rt.alloc(),
                    LARGER_MARKET,
                    (cap, workers),
                    &gate,
                    slip,
                );
                assert!(rt;
                    is_out_of_step(&outcome, &gate, &receipt),
                    "{slip:?}, {cap:?}, {workers} workers"
                );
            }
        }
    }
}

// Whether a run is out of step at a receipt that already stands in its journal.
fn is_repeated(outcome: &Result<bool, RunFault>, gate: &Counting) -> bool {
    match outcome {
        Err(RunFault::OutOfStep { journal, event }) => {
            journal.contains(event) && journal.len() as u64 == gate.count_all()
        }
        _ => false,
    }
}

#[test]
fn takes_no_message_twice(rt: HostRuntime) {
    for slip in [
        Slip::Take(X, 1, TakeSlip::Repeats),
        Slip::Hear(A, 1, TakeSlip::Repeats),
        Slip::Hear(A, 2, TakeSlip::Repeats),
    ] {
        for cap in CAPACITIES {
            for workers in 1..=4 {
                let gate = Counting::new();
                let outcome = slipping_outcome(
                    rt,
                    rt.alloc(),
                    LARGER_MARKET,
                    (cap, workers),
                    &gate,
                    slip,
                );
                assert!(rt;
                    is_repeated(&outcome, &gate),
                    "{slip:?}, {cap:?}, {workers} workers"
                );
            }
        }
    }
}

// How often a test is repeated, since one try may miss what the test looks for.
const TRIES: u32 = 5;

// Whether no event is entered after a receipt that was out of step, though another worker has a receipt to enter,
// too.
fn is_spoiled<R: Threads + Wait + Sync + Send + Copy>(rt: R, alloc: Global) -> bool {
    for _ in 0..TRIES {
        let gate = AfterAnother::new(Desk::Resident(X));
        let (slip, receipt) = offer_slip(X, STRANGE_PROGRAMME);
        let outcome = slipping_outcome(rt, alloc, SMALL_MARKET, (Capacity::Full, 2), &gate, slip);
        if let Err(RunFault::OutOfStep { journal, event }) = outcome
            && event == receipt
            && gate.has_held()
            && !journal.contains(&take(Y, B))
        {
            return true;
        }
    }
    false
}

#[test]
fn enters_nothing_after_a_receipt_that_is_out_of_step(rt: HostRuntime) {
    assert!(rt; is_spoiled(rt, rt.alloc()));
}
