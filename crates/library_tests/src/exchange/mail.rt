//! What the core reports about the mailboxes after each event.
use super::new_run;
use super::run::Run;
use exchange_core::{Capacity, Event, MailLeft, Refused};
use std::alloc::Global;
use test_support::events::{A, B, HOLD, X, Y, answer, nineteen_events, offer, take};
use test_support::instances::TWO_PLACES;

const NOTHING_TO_REPORT: MailLeft = MailLeft {
    receiver_was_empty: false,
    sender_has_more: false,
};

const RECEIVER_WAS_EMPTY: MailLeft = MailLeft {
    receiver_was_empty: true,
    sender_has_more: false,
};

const SENDER_HAS_MORE: MailLeft = MailLeft {
    receiver_was_empty: false,
    sender_has_more: true,
};

const EMPTY_AND_MORE: MailLeft = MailLeft {
    receiver_was_empty: true,
    sender_has_more: true,
};

// What each of the nineteen events leaves in the mailboxes. An offer or an answer finds its receiver's mailbox empty
// or not. A hear by the programme A leaves the later answers in the mailbox.
const LEFT_AFTER_NINETEEN: [MailLeft; 19] = [
    RECEIVER_WAS_EMPTY,
    RECEIVER_WAS_EMPTY,
    NOTHING_TO_REPORT,
    NOTHING_TO_REPORT,
    RECEIVER_WAS_EMPTY,
    NOTHING_TO_REPORT,
    RECEIVER_WAS_EMPTY,
    NOTHING_TO_REPORT,
    RECEIVER_WAS_EMPTY,
    NOTHING_TO_REPORT,
    SENDER_HAS_MORE,
    SENDER_HAS_MORE,
    NOTHING_TO_REPORT,
    NOTHING_TO_REPORT,
    RECEIVER_WAS_EMPTY,
    NOTHING_TO_REPORT,
    RECEIVER_WAS_EMPTY,
    NOTHING_TO_REPORT,
    NOTHING_TO_REPORT,
];

// Whether the core reports what is expected of the mailboxes after each event.
fn tells_each(run: &mut Run, events: &[Event], expected_mail: &[MailLeft]) -> bool {
    for (event, mail_left) in events.iter().zip(expected_mail) {
        if run.step_and_tell(*event) != Ok(*mail_left) {
            return false;
        }
    }
    true
}

// Whether a new core reports what is expected of the mailboxes after each of these events, and then refuses, for this
// cause, that Y takes an offer of B.
fn tells_all(alloc: Global, events: &[Event], expected_mail: &[MailLeft], cause: Refused) -> bool {
    match new_run(alloc, TWO_PLACES, Capacity::Full) {
        Ok(mut run) => {
            tells_each(&mut run, events, expected_mail)
                && run.step_and_tell(take(Y, B)) == Err(cause)
        }
        Err(_) => false,
    }
}

#[test]
fn tells_what_mail_is_left(rt: HostRuntime) {
    let events = nineteen_events();
    assert!(rt; tells_all(rt.alloc(), &events, &LEFT_AFTER_NINETEEN, Refused::Closed));
}

#[test]
fn tells_of_mail_that_waits(rt: HostRuntime) {
    let events = [
        offer(A, X),
        offer(B, X),
        take(X, A),
        answer(X, A, HOLD),
        offer(A, Y),
    ];
    let expected_mail = [
        RECEIVER_WAS_EMPTY,
        NOTHING_TO_REPORT,
        SENDER_HAS_MORE,
        EMPTY_AND_MORE,
        EMPTY_AND_MORE,
    ];
    assert!(rt; tells_all(rt.alloc(), &events, &expected_mail, Refused::WrongFront));
}
