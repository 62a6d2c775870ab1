//! Runs by one worker, and the order in which this worker visits the desks.
use crate::runs::run_of;
use exchange_core::{Capacity, Event};
use match_model::{ProgrammeNo, ResidentNo};
use match_pool::OpenGate;
use std::test::Fail;
use test_support::events::{A, B, HOLD, RELEASE, X, Y, Z, answer, hear, offer, take};
use test_support::instances::{Members, TWO_PLACES};

// The journal of a run by one worker over `TWO_PLACES`, through full mailboxes. The worker visits residents before
// programmes, and on each side the desk that was woken last. Programmes that were woken only for a hold come last.
fn journal_by_one_worker() -> [Event; 19] {
    [
        offer(A, X),
        offer(A, Y),
        take(Y, A),
        answer(Y, A, HOLD),
        take(X, A),
        answer(X, A, HOLD),
        offer(B, X),
        take(X, B),
        answer(X, B, HOLD),
        answer(X, A, RELEASE),
        hear(B, X, HOLD),
        hear(A, Y, HOLD),
        hear(A, X, HOLD),
        hear(A, X, RELEASE),
        offer(A, Z),
        take(Z, A),
        answer(Z, A, HOLD),
        hear(A, Z, HOLD),
        Event::Close,
    ]
}

// Whether this is the journal of a run by one worker over `TWO_PLACES`.
pub(crate) fn is_by_one_worker(journal: &[Event]) -> bool {
    journal == &journal_by_one_worker()[..]
}

#[test]
fn one_worker_is_repeated_to_the_event(rt: HostRuntime) -> Result<(), Fail> {
    for _ in 0..10 {
        let outcome = run_of(rt, rt.alloc(), TWO_PLACES, Capacity::Full, 1, &OpenGate)?;
        assert!(rt; is_by_one_worker(outcome.journal.as_slice()));
    }
    Ok(())
}

// Two pairs. Each pair is a programme with one place and a resident.
const TWO_PAIRS: Members = (&[(1, &[0]), (1, &[1])], &[&[0], &[1]]);

#[test]
fn what_a_visit_woke_comes_before_any_programme(rt: HostRuntime) -> Result<(), Fail> {
    let outcome = run_of(rt, rt.alloc(), TWO_PAIRS, Capacity::Full, 1, &OpenGate)?;
    let wanted_events = [
        offer(A, X),
        take(X, A),
        answer(X, A, HOLD),
        offer(B, Y),
        take(Y, B),
        answer(Y, B, HOLD),
    ];
    for (event, wanted_event) in outcome.journal.iter().zip(&wanted_events) {
        assert!(rt; event == wanted_event, "{event:?} for {wanted_event:?}");
    }
    assert!(rt; outcome.journal.len() == 9);
    Ok(())
}

// Markets whose mailboxes have room for one message. In each a programme waits for room in a resident's mailbox,
// while an answer of another resident waits for the programme. When there is room, the programme is called: it
// offers first, and then hears that answer.
const CALLED_MARKETS: [(Members, Event, Event); 3] = [
    (
        (
            &[(2, &[0, 1]), (2, &[1, 0]), (3, &[1, 0]), (2, &[1, 0])],
            &[&[1, 0, 3, 2], &[3, 1, 2, 0]],
        ),
        Event::Offer {
            programme: ProgrammeNo(3),
            resident: X,
        },
        Event::Hear {
            programme: ProgrammeNo(3),
            resident: Y,
            kind: HOLD,
        },
    ),
    (
        (
            &[(2, &[2, 0, 1]), (2, &[2, 0, 1]), (3, &[0, 1, 2])],
            &[&[1, 2, 0], &[1, 0, 2], &[0, 1, 2]],
        ),
        Event::Offer {
            programme: ProgrammeNo(2),
            resident: Z,
        },
        Event::Hear {
            programme: ProgrammeNo(2),
            resident: Y,
            kind: RELEASE,
        },
    ),
    (
        (
            &[
                (3, &[1, 2, 0]),
                (1, &[2, 3, 0]),
                (1, &[2, 0, 3]),
                (3, &[3, 0, 2, 1]),
            ],
            &[&[1, 0], &[3, 1, 2], &[0, 1, 3], &[1, 3, 0, 2]],
        ),
        Event::Offer {
            programme: ProgrammeNo(3),
            resident: Z,
        },
        Event::Hear {
            programme: ProgrammeNo(3),
            resident: ResidentNo(3),
            kind: RELEASE,
        },
    ),
];

// Whether one event stands right before another event in the journal.
fn is_followed(journal: &[Event], event_before: &Event, event_after: &Event) -> bool {
    let mut is_after = false;
    for event in journal {
        if is_after && event == event_after {
            return true;
        }
        is_after = event == event_before;
    }
    false
}

#[test]
fn a_called_programme_offers_first_and_hears_then(rt: HostRuntime) -> Result<(), Fail> {
    for (members, offer_event, hear_event) in CALLED_MARKETS {
        let outcome = run_of(rt, rt.alloc(), members, Capacity::Each(1), 1, &OpenGate)?;
        assert!(rt;
            is_followed(&outcome.journal, &offer_event, &hear_event),
            "{offer_event:?}, {hear_event:?}"
        );
    }
    Ok(())
}

// Markets as in `CALLED_MARKETS`, but another programme uses the room before the called programme comes. The called programme
// waits on, and hears the answer.
const REFUSED_AGAIN_MARKETS: [(Members, Event, Event); 2] = [
    (
        (
            &[
                (3, &[0, 2, 1]),
                (2, &[1, 2, 0]),
                (2, &[0, 1, 2]),
                (2, &[1, 2, 0]),
                (3, &[2, 1, 0]),
            ],
            &[&[4, 1, 3, 0, 2], &[2, 3, 0, 4, 1], &[3, 2, 4, 1, 0]],
        ),
        Event::Offer {
            programme: ProgrammeNo(3),
            resident: X,
        },
        Event::Hear {
            programme: ProgrammeNo(4),
            resident: Z,
            kind: HOLD,
        },
    ),
    (
        (
            &[
                (2, &[1, 2, 0]),
                (2, &[2, 0, 1]),
                (2, &[2, 0, 1]),
                (3, &[2, 1, 0]),
                (2, &[1, 2, 0]),
                (3, &[0, 1, 2]),
            ],
            &[
                &[4, 1, 3, 0, 5, 2],
                &[1, 2, 3, 4, 0, 5],
                &[3, 2, 4, 1, 5, 0],
            ],
        ),
        Event::Hear {
            programme: ProgrammeNo(4),
            resident: X,
            kind: HOLD,
        },
        Event::Hear {
            programme: ProgrammeNo(3),
            resident: Z,
            kind: HOLD,
        },
    ),
];

#[test]
fn a_called_programme_that_is_refused_hears(rt: HostRuntime) -> Result<(), Fail> {
    for (members, event_before, hear_event) in REFUSED_AGAIN_MARKETS {
        let outcome = run_of(rt, rt.alloc(), members, Capacity::Each(1), 1, &OpenGate)?;
        assert!(rt;
            is_followed(&outcome.journal, &event_before, &hear_event),
            "{event_before:?}, {hear_event:?}"
        );
    }
    Ok(())
}
