//! The core with two instances, tested event by event, and on random walks.
mod mail;
pub(super) mod run;
mod slow;
mod walks;

use exchange_core::{Capacity, CoreFault, Event, Pending, Refused};
use match_model::{Instance, ProgrammeNo, ResidentNo};
use run::{CoreView, Run};
use std::alloc::{AllocError, Global};
use std::test::Fail;
use test_support::events::{
    A, B, DECLINE, HOLD, RELEASE, X, Y, Z, answer, hear, nine_events, nineteen_events, offer, take,
};
use test_support::instances::{Members, TWO_BY_TWO, TWO_PLACES, has_places, instance_of};

// A core with its instance, made of these members, before any event.
fn new_run(alloc: Global, members: Members, cap: Capacity) -> Result<Run, CoreFault> {
    match instance_of(alloc, members) {
        Ok(inst) => Run::new(alloc, inst, cap),
        Err(_) => Err(CoreFault::Memory),
    }
}

#[test]
fn heeds_the_capacity(rt: HostRuntime) {
    let bad_capacity = Some(CoreFault::BadCapacity);
    for (room, fault) in [
        (0, bad_capacity),
        (1, None),
        (1_024, None),
        (1_025, bad_capacity),
    ] {
        let cap = Capacity::Each(room);
        assert!(rt;
            new_run(rt.alloc(), TWO_BY_TWO, cap).err() == fault,
            "{room}"
        );
    }
}

#[test]
fn prints_its_faults(rt: HostRuntime) -> Result<(), Fail> {
    for (fault, text) in [
        (CoreFault::BadCapacity, "bad capacity"),
        (CoreFault::Memory, "out of memory"),
    ] {
        assert!(rt; fault.to_string(rt.alloc())?.as_str() == text, "{text}");
    }
    Ok(())
}

// Whether the core accepts these events, and then refuses the event `last_event` for this cause.
fn refuses_last(run: &mut Run, events: &[Event], last_event: Event, cause: Refused) -> bool {
    for event in events {
        if run.step(*event).is_err() {
            return false;
        }
    }
    let (same_event, same_cause) = (last_event, cause);
    run.may(last_event) == Err(cause) && run.step(same_event) == Err(same_cause)
}

// Whether a new core accepts these events, and then refuses the event `last_event` for this cause.
fn refuses(
    alloc: Global,
    members_and_capacity: (Members, Capacity),
    events: &[Event],
    last_event: Event,
    cause: Refused,
) -> bool {
    match new_run(alloc, members_and_capacity.0, members_and_capacity.1) {
        Ok(mut run) => refuses_last(&mut run, events, last_event, cause),
        Err(_) => false,
    }
}

// Whether the core accepts these events, and then has this rank of the offer that X took last.
fn run_takes_rank(run: &mut Run, events: &[Event], rank: u32) -> bool {
    for event in events {
        if run.step(*event).is_err() {
            return false;
        }
    }
    run.core.taken_rank(X) == rank
}

// Whether a new core accepts these events, and then has this rank of the offer that X took last.
fn takes_rank(alloc: Global, events: &[Event], rank: u32) -> bool {
    match new_run(alloc, TWO_PLACES, Capacity::Full) {
        Ok(mut run) => run_takes_rank(&mut run, events, rank),
        Err(_) => false,
    }
}

#[test]
fn knows_the_rank_taken_last(rt: HostRuntime) {
    let all_events = nineteen_events();
    for (event_count, rank) in [(3, 0), (4, 1), (8, 0)] {
        let events = &all_events[..event_count.min(19)];
        assert!(rt; takes_rank(rt.alloc(), events, rank), "{event_count}");
    }
}

const LARGE_MARKET: (Members, Capacity) = (TWO_PLACES, Capacity::Full);

const NARROW_MARKET: (Members, Capacity) = (TWO_PLACES, Capacity::Each(1));

const SMALL_MARKET: (Members, Capacity) = (TWO_BY_TWO, Capacity::Full);

#[test]
fn refuses_after_the_nineteen(rt: HostRuntime) {
    let all_events = nineteen_events();
    let pending = Refused::StillPending(Pending::Answers(A));
    for (event_count, last_event, cause) in [
        (0, take(X, A), Refused::NothingWaiting),
        (13, Event::Close, pending),
        (11, hear(A, X, RELEASE), Refused::WrongFront),
        (19, take(X, A), Refused::Closed),
        (0, offer(A, Y), Refused::NotNext),
    ] {
        let events = &all_events[..event_count.min(19)];
        assert!(rt;
            refuses(rt.alloc(), LARGE_MARKET, events, last_event, cause),
            "{cause:?}"
        );
    }
}

#[test]
fn refuses_after_others(rt: HostRuntime) {
    let first_events = [
        offer(A, X),
        offer(B, X),
        take(X, A),
        answer(X, A, HOLD),
        take(X, B),
    ];
    let early_decline = answer(X, B, DECLINE);
    let strange_take = take(ResidentNo(7), A);
    for (members_and_capacity, event_count, last_event, cause) in [
        (LARGE_MARKET, 3, take(X, B), Refused::AnswerDue),
        (LARGE_MARKET, 5, early_decline, Refused::NotDue),
        (NARROW_MARKET, 1, offer(B, X), Refused::MailboxFull),
        (SMALL_MARKET, 1, offer(A, Y), Refused::NoPlace),
        (SMALL_MARKET, 0, strange_take, Refused::NoSuchDesk),
    ] {
        let events = &first_events[..event_count.min(5)];
        assert!(rt;
            refuses(rt.alloc(), members_and_capacity, events, last_event, cause),
            "{cause:?}"
        );
    }
}

const NO_PLACE: Option<Refused> = Some(Refused::NoPlace);

const WRONG_FRONT: Option<Refused> = Some(Refused::WrongFront);

// For each of the nineteen events, another event that is tried after it, and the cause that refuses this other
// event, or none.
fn events_tried_after() -> [(Event, Option<Refused>); 19] {
    [
        (offer(A, Y), None),
        (offer(A, Z), NO_PLACE),
        (answer(Y, A, HOLD), None),
        (answer(X, A, HOLD), None),
        (hear(A, Y, HOLD), None),
        (hear(A, X, HOLD), WRONG_FRONT),
        (offer(B, X), NO_PLACE),
        (answer(X, A, RELEASE), Some(Refused::NotDue)),
        (answer(X, A, RELEASE), None),
        (hear(A, X, RELEASE), WRONG_FRONT),
        (offer(A, Z), NO_PLACE),
        (offer(A, Z), NO_PLACE),
        (offer(B, X), NO_PLACE),
        (offer(A, Z), None),
        (offer(A, X), NO_PLACE),
        (answer(Z, A, HOLD), None),
        (hear(A, Z, HOLD), None),
        (Event::Close, None),
        (Event::Close, Some(Refused::Closed)),
    ]
}

// What the core shows of the programme A and the resident X after each of the nineteen events.
const CORE_VIEWS: [CoreView; 19] = [
    (Some(Pending::Offers(X)), Some(Y), None, None),
    (Some(Pending::Offers(X)), None, None, None),
    (Some(Pending::Offers(X)), None, None, None),
    (Some(Pending::Due(X)), None, None, Some((A, HOLD))),
    (Some(Pending::Due(X)), None, None, Some((A, HOLD))),
    (Some(Pending::Answers(A)), None, Some(A), None),
    (Some(Pending::Offers(X)), None, Some(A), None),
    (Some(Pending::Due(X)), None, Some(A), Some((B, HOLD))),
    (Some(Pending::Due(X)), None, Some(B), Some((A, RELEASE))),
    (Some(Pending::Answers(A)), None, Some(B), None),
    (Some(Pending::Answers(A)), None, Some(B), None),
    (Some(Pending::Answers(A)), None, Some(B), None),
    (Some(Pending::Answers(A)), None, Some(B), None),
    (Some(Pending::Wish(A)), Some(Z), Some(B), None),
    (Some(Pending::Offers(Z)), None, Some(B), None),
    (Some(Pending::Due(Z)), None, Some(B), None),
    (Some(Pending::Answers(A)), None, Some(B), None),
    (None, None, Some(B), None),
    (None, None, Some(B), None),
];

// Whether the core answers as expected to the other event, shows what it should of A and X, and is closed exactly if
// it should be.
fn shows(
    run: &Run,
    other_event: &(Event, Option<Refused>),
    view: &CoreView,
    is_closed: bool,
) -> bool {
    run.may(other_event.0).err() == other_event.1
        && run.core_view(A, X) == *view
        && run.core.is_closed() == is_closed
}

// The number, from 1, of the first of the nineteen events that the core refuses, or after which it doesn't show
// what it should.
fn first_wrong_event(run: &mut Run) -> Option<usize> {
    let (events, other_events) = (nineteen_events(), events_tried_after());
    for index in 0..19_usize {
        if run.step(events[index]).is_err()
            || !shows(run, &other_events[index], &CORE_VIEWS[index], index == 18)
        {
            return Some(index + 1);
        }
    }
    None
}

#[test]
fn shows_what_is_left(rt: HostRuntime) {
    let mut is_assignment_right = false;
    if let Ok(mut run) = new_run(rt.alloc(), TWO_PLACES, Capacity::Full) {
        assert!(rt; first_wrong_event(&mut run) == None);
        let assignment = run.assignment(rt.alloc());
        is_assignment_right = assignment.is_ok_and(|assignment| has_places(
            &assignment,
            &[Some(1), Some(0), Some(0)],
        ));
    }
    assert!(rt; is_assignment_right);
}

// Enters some event that may follow, again and again, and returns how many events there are up to the close. The
// result is none if one of these events is refused, or if the exchange does not close.
fn turns_to_close(run: &mut Run) -> Option<u32> {
    for turn in 0..=25 {
        let Some(event) = run.some_enabled() else {
            return if run.core.is_closed() {
                Some(turn)
            } else {
                None
            };
        };
        if run.step(event).is_err() {
            return None;
        }
    }
    None
}

#[test]
fn always_finds_an_event(rt: HostRuntime) {
    let mut turn_count = None;
    if let Ok(mut run) = new_run(rt.alloc(), TWO_PLACES, Capacity::Each(1)) {
        turn_count = turns_to_close(&mut run);
    }
    assert!(rt; turn_count == Some(17) || turn_count == Some(19));
}

// Every event between members of the instance.
fn possible_events(alloc: Global, inst: &Instance) -> Result<Vec<Event>, AllocError> {
    let mut events = Vec::new(alloc);
    for programme_number in 0..inst.programmes() {
        for resident_number in 0..inst.residents() {
            let (programme, resident) = (
                ProgrammeNo(programme_number),
                ResidentNo(resident_number),
            );
            events.push(offer(programme, resident))?;
            events.push(take(resident, programme))?;
            for kind in [HOLD, DECLINE, RELEASE] {
                events.push(answer(resident, programme, kind))?;
                events.push(hear(programme, resident, kind))?;
            }
        }
    }
    events.push(Event::Close)?;
    Ok(events)
}

// Whether the core and the slow definitions agree about this event: that it may follow the earlier events, or for
// which cause it may not.
fn agrees_on_one(run: &Run, cap: Capacity, earlier_events: &[Event], event: Event) -> bool {
    let same_event = event;
    let slow_refusal = slow::refusal(&run.inst, cap, earlier_events, event);
    slow::is_same(run.may(same_event), slow_refusal)
}

// Whether the core and the slow definitions agree about each of these events after the earlier events.
fn agrees_after(
    run: &Run,
    cap: Capacity,
    earlier_events: &[Event],
    tried_events: &[Event],
) -> bool {
    for event in tried_events {
        if !agrees_on_one(run, cap, earlier_events, *event) {
            return false;
        }
    }
    true
}

// Whether the core and the slow definitions agree about all events after each beginning of the list, from the empty
// list to the whole list.
fn agrees(run: &mut Run, cap: Capacity, tried_events: &[Event], legal_events: &[Event]) -> bool {
    for earlier_count in 0..=legal_events.len() {
        let (earlier_events, later_events) = legal_events.split_at(earlier_count);
        if !agrees_after(run, cap, earlier_events, tried_events) {
            return false;
        }
        if let Some(next_event) = later_events.first()
            && run.step(*next_event).is_err()
        {
            return false;
        }
    }
    true
}

// Whether the core and the slow definitions agree after each beginning of this list, in an exchange between these
// members.
fn agrees_on(
    alloc: Global,
    members: Members,
    cap: Capacity,
    legal_events: &[Event],
) -> Result<bool, AllocError> {
    let Ok(mut run) = new_run(alloc, members, cap) else {
        return Ok(false);
    };
    let tried_events = possible_events(alloc, &run.inst)?;
    Ok(agrees(&mut run, cap, tried_events.as_slice(), legal_events))
}

#[test]
fn agrees_with_the_definitions(rt: HostRuntime) -> Result<(), Fail> {
    for cap in [Capacity::Full, Capacity::Each(3)] {
        assert!(rt; agrees_on(rt.alloc(), TWO_BY_TWO, cap, &nine_events())?);
        assert!(rt; agrees_on(rt.alloc(), TWO_PLACES, cap, &nineteen_events())?);
    }
    Ok(())
}

#[test]
fn agrees_on_random_walks(rt: HostRuntime) {
    for cap in [Capacity::Full, Capacity::Each(1), Capacity::Each(2)] {
        for seed in 1..=15 {
            assert!(rt;
                walks::agrees(rt.alloc(), seed, cap, 300),
                "{seed}, {cap:?}"
            );
        }
    }
}
