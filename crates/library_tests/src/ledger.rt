//! Two exchanges entered into a ledger, over lists in memory and over mailboxes.
ghost use Rattle.std.specs.Prelude.{◌≡◌, ℕ, [], Some, slice_get, IfOk};
ghost use Rattle.mailbox_rule.specs.Lists.{PutList};
ghost use Rattle.mailbox_rule.specs.Mail.{PutSide};

use exchange_core::{AnswerNote, Capacity, Event, OfferNote, Pending, Refused};
use mailbox_rule::{ListPut, MailFault, PutEnd, RuledPut, RuledTake, mailbox};
use match_model::Instance;
use offer_ledger::{
    EntryRefused, ExchangeIdentity, Ledger, LedgerFault, LedgerRefused, PARTS, PutRefusal, Tally,
};
use std::alloc::Global;
use std::marker::Brand;
use std::sync::Wait;
use std::sync::ledger::Blank;
use std::test::Fail;
use test_support::events::{A, X, nine_events, nineteen_events};
use test_support::instances::{TWO_BY_TWO, TWO_PLACES, instance_of};

// Ends in memory, each with room for `room` notes.
#[tactic(auto, using(match_model::proofs::Prefixes::slice_get_push_parts))]
fn memory_ends<M: Drop>(
    alloc: Global,
    end_count: u32,
    room: u32,
) -> Result<Vec<ListPut<M>>, MailFault>
    ensures { IfOk result (λ ends. (i : ℕ) (end : PutList M)
        → slice_get ends.items i ≡ Some end → end.puts ≡ []) }
{
    let mut ends = Vec::new(alloc);
    for _ in 0..end_count {
        let Ok(()) = ends.push(ListPut::with_room(alloc, room)?) else {
            return Err(MailFault::Memory);
        };
    }
    Ok(ends)
}

// Mailboxes, each with room for `room` notes.
#[tactic(auto, using(match_model::proofs::Prefixes::slice_get_push_parts))]
fn mailboxes<M: Copy + Eq + Drop, R: Wait + Copy + Drop>(
    alloc: Global,
    rt: R,
    mailbox_count: u32,
    room: u32,
) -> Result<(Vec<RuledPut<M, R>>, Vec<RuledTake<M, R>>), MailFault>
    ensures { IfOk result (λ ends. (i : ℕ) (end : PutSide M)
        → slice_get ends.0.items i ≡ Some end → end.puts ≡ []) }
{
    let mut puts = Vec::new(alloc);
    let mut takes = Vec::new(alloc);
    for _ in 0..mailbox_count {
        let (put, take) = mailbox(alloc, rt, room)?;
        let (Ok(()), Ok(())) = (puts.push(put), takes.push(take)) else {
            return Err(MailFault::Memory);
        };
    }
    Ok((puts, takes))
}

// Enters an event with the ledger's call for events of its kind.
fn enter<J: ExchangeIdentity, P: PutEnd<OfferNote>, Q: PutEnd<AnswerNote>>(
    ledger: &mut Ledger<J, P, Q>,
    inst: &Instance,
    tally: &mut Tally<J>,
    event: Event,
) -> Result<(), EntryRefused>
    requires { inst.now ≡ J.inst }
{
    match event {
        Event::Offer {
            programme,
            resident,
        } => ledger.enter_offer(inst, tally, programme, resident),
        Event::Take {
            resident,
            programme,
        } => ledger.enter_take(inst, tally, resident, programme),
        Event::Answer {
            resident,
            programme,
            kind,
        } => ledger.enter_answer(inst, tally, resident, programme, kind),
        Event::Hear {
            programme,
            resident,
            kind,
        } => ledger.enter_hear(inst, tally, programme, resident, kind),
        Event::Close => ledger.close(inst, tally),
    }
}

// Whether the ledger gives this answer to each of these events.
fn answers_each<J: ExchangeIdentity, P: PutEnd<OfferNote>, Q: PutEnd<AnswerNote>>(
    ledger: &mut Ledger<J, P, Q>,
    inst: &Instance,
    tally: &mut Tally<J>,
    events: &[Event],
    ledger_answer: Result<(), EntryRefused>,
) -> bool
    requires { inst.now ≡ J.inst }
{
    let mut answers_are_right = true;
    for event in events {
        answers_are_right = enter(ledger, inst, tally, *event) == ledger_answer
            && answers_are_right;
    }
    answers_are_right
}

// Whether the journal has exactly these events, and the tally counts all of them. The tally has all parts of
// the count.
fn shows<J: ExchangeIdentity, P: PutEnd<OfferNote>, Q: PutEnd<AnswerNote>>(
    ledger: &mut Ledger<J, P, Q>,
    tally: &mut Tally<J>,
    events: &[Event],
) -> bool {
    ledger.journal() == events
        && ledger.entered(tally) == events.len() as u64
        && tally.entered() == events.len() as u64
}

// Whether the ledger enters all these events, refuses a second close, and then has exactly these events in its
// journal.
fn enters_all<J: ExchangeIdentity, P: PutEnd<OfferNote> + Drop, Q: PutEnd<AnswerNote> + Drop>(
    mut ledger: Ledger<J, P, Q>,
    inst: &Instance,
    mut tally: Tally<J>,
    events: &[Event],
) -> bool
    requires { inst.now ≡ J.inst }
{
    let closed_refusal = Err(EntryRefused::Step(Refused::Closed));
    let entries_are_right = answers_each(&mut ledger, inst, &mut tally, events, Ok(()))
        && ledger.close(inst, &mut tally) == closed_refusal
        && shows(&mut ledger, &mut tally, events)
        && ledger.core().is_closed();
    let (journal, _core, _offer_ends, _answer_ends, event_workers) = ledger.into_parts();
    entries_are_right
        && journal.as_slice() == events
        && event_workers.iter().all(|worker| *worker == 0)
}

// Whether the ledger enters no event, since the ends have no room.
fn enters_nothing<J: ExchangeIdentity, P: PutEnd<OfferNote>, Q: PutEnd<AnswerNote>>(
    ledger: &mut Ledger<J, P, Q>,
    inst: &Instance,
    tally: &mut Tally<J>,
) -> bool
    requires { inst.now ≡ J.inst }
{
    let full_refusal = EntryRefused::PutRefused(PutRefusal::Full);
    let pending_refusal = EntryRefused::Step(Refused::StillPending(Pending::Wish(A)));
    ledger.enter_offer(inst, tally, A, X) == Err(full_refusal)
        && shows(ledger, tally, &[])
        && ledger.close(inst, tally) == Err(pending_refusal)
}

// Whether the first of two tallies has all parts of the count except one, and the other has this one part.
fn have_split_parts<J: ExchangeIdentity>(first_tally: &Tally<J>, other_tally: &Tally<J>) -> bool {
    (
        first_tally.worker(),
        first_tally.parts(),
        first_tally.entered(),
    ) == (0, PARTS - 1, 0)
        && (
            other_tally.worker(),
            other_tally.parts(),
            other_tally.entered(),
        ) == (1, 1, 0)
}

// Whether the tallies of two workers each count this worker's entries, together count all entries, and the ledger
// notes the worker of each event.
fn counts_apart<J: ExchangeIdentity, P: PutEnd<OfferNote>, Q: PutEnd<AnswerNote>>(
    ledger: &mut Ledger<J, P, Q>,
    inst: &Instance,
    tally: &mut Tally<J>,
    other_tally: Tally<J>,
) -> bool
    requires { inst.now ≡ J.inst }
{
    let mut other_tally = other_tally;
    let all_events = nine_events();
    let (first_events, later_events) = all_events.split_at(5);
    let counts_are_right = have_split_parts(tally, &other_tally)
        && answers_each(ledger, inst, tally, first_events, Ok(()))
        && answers_each(ledger, inst, &mut other_tally, later_events, Ok(()))
        && tally.entered() == 5
        && other_tally.entered() == 4;
    tally.join(other_tally);
    counts_are_right
        && shows(ledger, tally, &all_events)
        && ledger.who() == [0, 0, 0, 0, 0, 1, 1, 1, 1].as_slice()
        && tally.worker() == 0
        && tally.parts() == PARTS
}

// Whether a ledger still has its journal after it was spoiled, and then enters no event.
fn keeps_its_journal<J: ExchangeIdentity, P: PutEnd<OfferNote>, Q: PutEnd<AnswerNote>>(
    ledger: &mut Ledger<J, P, Q>,
    inst: &Instance,
    tally: &mut Tally<J>,
) -> bool
    requires { inst.now ≡ J.inst }
{
    let all_events = nine_events();
    let first_five = &all_events[..5];
    if !answers_each(ledger, inst, tally, first_five, Ok(())) {
        return false;
    }
    ledger.spoil();
    answers_each(ledger, inst, tally, &all_events, Err(EntryRefused::Spoiled))
        && shows(ledger, tally, first_five)
}

// What a test does with a ledger over ends in memory.
#[derive(Clone, Copy)]
enum Trial {
    AllEvents,
    RefusedPut,
    TwoWorkers,
    Spoiled,
}

// Whether a ledger does what it should in this trial. The ledger's ends are lists in memory, two for each side,
// each with room for `room` notes.
fn does<J: ExchangeIdentity>(
    alloc: Global,
    blank: Blank,
    inst: &Instance,
    cap: Capacity,
    workers: u32,
    room: u32,
    trial: Trial,
) -> Result<bool, MailFault>
    requires instance { inst.now ≡ J.inst }
    requires capacity { cap ≡ J.cap }
    requires workers { workers ≡ J.workers }
    requires blank { (blank.name ≡ J.name) × (blank.parts ≡ J.parts) × (J.parts ≡ 8) }
{
    let offer_ends = memory_ends::<OfferNote>(alloc, 2, room)?;
    let answer_ends = memory_ends::<AnswerNote>(alloc, 2, room)?;
    let Ok((mut ledger, tallies)) = Ledger::<J, _, _>::open(
        alloc,
        blank,
        inst,
        cap,
        workers,
        offer_ends,
        answer_ends,
    ) else {
        return Ok(false);
    };
    let mut tallies = tallies.into_iter();
    let Some(mut tally) = tallies.next() else {
        return Ok(false);
    };
    match trial {
        Trial::AllEvents => Ok(enters_all(ledger, inst, tally, &nine_events())),
        Trial::RefusedPut => Ok(enters_nothing(&mut ledger, inst, &mut tally)),
        Trial::TwoWorkers => match tallies.next() {
            Some(other_tally) => Ok(counts_apart(&mut ledger, inst, &mut tally, other_tally)),
            None => Ok(false),
        },
        Trial::Spoiled => Ok(keeps_its_journal(&mut ledger, inst, &mut tally)),
    }
}

// Whether a ledger of two programmes and two residents does what it should in this trial, over ends with room for
// `room` notes.
fn small_does(alloc: Global, workers: u32, room: u32, trial: Trial) -> Result<bool, MailFault> {
    let Ok(inst) = instance_of(alloc, TWO_BY_TWO) else {
        return Err(MailFault::Memory);
    };
    does::<Brand>(
        alloc,
        Blank::new(8),
        &inst,
        Capacity::Full,
        workers,
        room,
        trial,
    )
}

#[test]
fn over_lists(rt: HostRuntime) -> Result<(), Fail> {
    for (workers, room, trial) in [
        (1, 4, Trial::AllEvents),
        (8, 4, Trial::AllEvents),
        (1, 0, Trial::RefusedPut),
        (2, 4, Trial::TwoWorkers),
        (1, 4, Trial::Spoiled),
    ] {
        assert!(rt; small_does(rt.alloc(), workers, room, trial)?);
    }
    Ok(())
}

// Whether a ledger enters the nineteen events over mailboxes with room for four messages each.
fn enters_posted<J: ExchangeIdentity, R: Wait + Copy + Drop>(
    rt: R,
    alloc: Global,
    blank: Blank,
    inst: &Instance,
    cap: Capacity,
) -> Result<bool, MailFault>
    requires instance { inst.now ≡ J.inst }
    requires capacity { cap ≡ J.cap }
    requires workers { J.workers ≡ 1 }
    requires blank { (blank.name ≡ J.name) × (blank.parts ≡ J.parts) × (J.parts ≡ 8) }
{
    let (offer_ends, _offers) = mailboxes::<OfferNote, R>(alloc, rt, 3, 4)?;
    let (answer_ends, _answers) = mailboxes::<AnswerNote, R>(alloc, rt, 2, 4)?;
    let Ok((ledger, mut tallies)) = Ledger::<J, _, _>::open(
        alloc,
        blank,
        inst,
        cap,
        1,
        offer_ends,
        answer_ends,
    ) else {
        return Ok(false);
    };
    match tallies.pop() {
        Some(tally) => Ok(enters_all(ledger, inst, tally, &nineteen_events())),
        None => Ok(false),
    }
}

#[test]
fn over_mailboxes(rt: HostRuntime) -> Result<(), Fail> {
    let alloc = rt.alloc();
    let inst = instance_of(alloc, TWO_PLACES)?;
    let entered = enters_posted::<Brand, HostRuntime>(
        rt,
        alloc,
        Blank::new(8),
        &inst,
        Capacity::Full,
    );
    assert!(rt; entered == Ok(true));
    Ok(())
}

// The fault of opening a ledger with this number of ends for residents and two ends for programmes, and
// how many ends come back.
fn not_opened<J: ExchangeIdentity>(
    alloc: Global,
    blank: Blank,
    inst: &Instance,
    cap: Capacity,
    workers: u32,
    resident_ends: u32,
) -> Result<Option<(LedgerFault, usize, usize)>, MailFault>
    requires instance { inst.now ≡ J.inst }
    requires capacity { cap ≡ J.cap }
    requires workers { workers ≡ J.workers }
    requires blank { (blank.name ≡ J.name) × (blank.parts ≡ J.parts) × (J.parts ≡ 8) }
{
    let offer_ends = memory_ends::<OfferNote>(alloc, resident_ends, 4)?;
    let answer_ends = memory_ends::<AnswerNote>(alloc, 2, 4)?;
    match Ledger::<J, _, _>::open(alloc, blank, inst, cap, workers, offer_ends, answer_ends) {
        Ok(_) => Ok(None),
        Err(
            LedgerRefused {
                fault,
                offer_ends,
                answer_ends,
            },
        ) => Ok(Some((fault, offer_ends.len(), answer_ends.len()))),
    }
}

#[test]
fn refused_opening(rt: HostRuntime) -> Result<(), Fail> {
    let alloc = rt.alloc();
    let inst = instance_of(alloc, TWO_BY_TWO)?;
    for (resident_ends, cap, workers, fault) in [
        (1, Capacity::Full, 1, LedgerFault::WrongEnds),
        (1, Capacity::Each(0), 0, LedgerFault::WrongEnds),
        (2, Capacity::Each(0), 1, LedgerFault::BadCapacity),
        (2, Capacity::Each(1_025), 0, LedgerFault::BadCapacity),
        (2, Capacity::Full, 0, LedgerFault::BadWorkers),
        (2, Capacity::Full, 9, LedgerFault::BadWorkers),
    ] {
        let opening_refusal = not_opened::<Brand>(
            alloc,
            Blank::new(8),
            &inst,
            cap,
            workers,
            resident_ends,
        );
        assert!(rt;
            opening_refusal == Ok(Some((fault, resident_ends as usize, 2))),
            "{cap:?}, {workers} workers"
        );
    }
    Ok(())
}

#[test]
fn texts(rt: HostRuntime) -> Result<(), Fail> {
    for (fault, text) in [
        (
            LedgerFault::WrongEnds,
            "a ledger needs one end for each desk",
        ),
        (LedgerFault::BadCapacity, "bad capacity"),
        (LedgerFault::BadWorkers, "bad number of workers"),
        (LedgerFault::Memory, "out of memory"),
    ] {
        assert!(rt; fault.to_string(rt.alloc())?.as_str() == text, "{text}");
    }
    Ok(())
}
