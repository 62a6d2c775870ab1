//! Members by number, and the lists of events of two exchanges.
use exchange_core::{AnswerKind, Desk, Event};
use match_model::{ProgrammeNo, ResidentNo};

/// The first programme.
pub const A: ProgrammeNo = ProgrammeNo(0);

/// The second programme.
pub const B: ProgrammeNo = ProgrammeNo(1);

/// The first resident.
pub const X: ResidentNo = ResidentNo(0);

/// The second resident.
pub const Y: ResidentNo = ResidentNo(1);

/// The third resident.
pub const Z: ResidentNo = ResidentNo(2);

/// The answer that holds an offer.
pub const HOLD: AnswerKind = AnswerKind::Hold;

/// The answer that rejects an offer at once.
pub const DECLINE: AnswerKind = AnswerKind::Decline;

/// The answer that gives back a held offer, because a better offer came.
pub const RELEASE: AnswerKind = AnswerKind::Release;

/// A programme offers a place to a resident.
pub fn offer(programme: ProgrammeNo, resident: ResidentNo) -> Event {
    Event::Offer {
        programme,
        resident,
    }
}

/// A resident takes a programme's offer from its mailbox.
pub fn take(resident: ResidentNo, programme: ProgrammeNo) -> Event {
    Event::Take {
        resident,
        programme,
    }
}

/// A resident answers a programme's offer.
pub fn answer(resident: ResidentNo, programme: ProgrammeNo, kind: AnswerKind) -> Event {
    Event::Answer {
        resident,
        programme,
        kind,
    }
}

/// A programme takes a resident's answer from its mailbox.
pub fn hear(programme: ProgrammeNo, resident: ResidentNo, kind: AnswerKind) -> Event {
    Event::Hear {
        programme,
        resident,
        kind,
    }
}

/// The events of an exchange between two programmes and two residents. The residents rank the programmes in the
/// opposite order to the programmes' own rankings.
pub fn nine_events() -> [Event; 9] {
    [
        offer(A, X),
        offer(B, Y),
        take(X, A),
        take(Y, B),
        answer(X, A, HOLD),
        answer(Y, B, HOLD),
        hear(A, X, HOLD),
        hear(B, Y, HOLD),
        Event::Close,
    ]
}

/// The events of an exchange in which X leaves A, a programme with two places, for B. Y takes an offer before X does,
/// although an offer was sent to X first.
pub fn nineteen_events() -> [Event; 19] {
    [
        offer(A, X),
        offer(A, Y),
        take(Y, A),
        take(X, A),
        answer(Y, A, HOLD),
        answer(X, A, HOLD),
        offer(B, X),
        take(X, B),
        answer(X, B, HOLD),
        answer(X, A, RELEASE),
        hear(A, Y, HOLD),
        hear(A, X, HOLD),
        hear(B, X, HOLD),
        hear(A, X, RELEASE),
        offer(A, Z),
        take(Z, A),
        answer(Z, A, HOLD),
        hear(A, Z, HOLD),
        Event::Close,
    ]
}

/// The desk whose worker makes an event, or none for the close.
pub fn desk_of(event: &Event) -> Option<Desk> {
    match event {
        Event::Take { resident, .. } | Event::Answer { resident, .. } => {
            Some(Desk::Resident(*resident))
        }
        Event::Hear { programme, .. } | Event::Offer { programme, .. } => {
            Some(Desk::Programme(*programme))
        }
        Event::Close => None,
    }
}
