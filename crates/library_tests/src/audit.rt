//! Sheets and lists of events with known answers: programme 0 is `A`, 1 is `B`, and residents 0 to 2 are `X`, `Y` and `Z`.
use exchange_core::{AnswerKind, Capacity, Event, Pending, Refused};
use match_audit::{AuditFault, AuditReport, ReplayFault, audit, check, counts, replay};
use match_model::{Assignment, ModelFault, ProgrammeNo, ResidentNo};
use std::alloc::{AllocError, Global};
use std::test::Fail;
use test_support::events::{
    A, B, X, Y, Z, answer, hear, nine_events, nineteen_events, offer, take,
};
use test_support::instances::{Members, TWO_BY_TWO, TWO_PLACES, instance_of};

// The sheet that matches each resident with the programme that has this number, or with none.
fn sheet(alloc: Global, programmes: &[Option<u32>]) -> Result<Assignment, ModelFault> {
    let Ok(residents) = u32::try_from(programmes.len()) else {
        return Err(ModelFault::TooManyResidents);
    };
    let mut sheet = Assignment::new(alloc, residents)?;
    for (resident, programme) in (0..sheet.len()).zip(programmes) {
        if resident < sheet.len() {
            sheet.set(
                ResidentNo(resident),
                programme.map(|number| ProgrammeNo(number)),
            );
        }
    }
    Ok(sheet)
}

fn joined_events(alloc: Global, event_lists: &[&[Event]]) -> Result<Vec<Event>, AllocError> {
    let mut events = Vec::new(alloc);
    for event_list in event_lists {
        events.extend_from_slice(event_list)?;
    }
    Ok(events)
}

fn refused_at(event_number: usize, refusal: Refused) -> Result<usize, ReplayFault> {
    Err(ReplayFault::At {
        place: event_number,
        refused: refusal,
    })
}

// The three lists of a report, with members as numbers.
type Findings<'a> = (&'a [(u32, u32)], &'a [(u32, u32)], &'a [(u32, u32)]);

// Whether the found pairs of a resident and a programme are the expected pairs.
fn are_pairs(found_pairs: &[(ResidentNo, ProgrammeNo)], wanted_pairs: &[(u32, u32)]) -> bool {
    found_pairs.len() == wanted_pairs.len()
        && found_pairs.iter().zip(wanted_pairs).all(|((resident, programme), wanted_pair)| (
            resident.0,
            programme.0,
        ) == *wanted_pair)
}

// Whether the programmes found over their quota, with their numbers of residents, are the expected ones.
fn are_over_quota(
    found_programmes: &[(ProgrammeNo, u32)],
    wanted_programmes: &[(u32, u32)],
) -> bool {
    found_programmes.len() == wanted_programmes.len()
        && found_programmes.iter().zip(wanted_programmes).all(|(
            (programme, residents),
            wanted_programme,
        )| (programme.0, *residents) == *wanted_programme)
}

// Whether the report has the expected lists, and says that the sheet is stable exactly if all of them are empty.
fn has_found(report: &AuditReport, findings: Findings) -> bool {
    let (unacceptable_pairs, programmes_over_quota, blocking_pairs) = findings;
    let finds_nothing = unacceptable_pairs.is_empty()
        && programmes_over_quota.is_empty()
        && blocking_pairs.is_empty();
    are_pairs(report.unacceptable.as_slice(), unacceptable_pairs)
        && are_over_quota(report.over.as_slice(), programmes_over_quota)
        && are_pairs(report.blocking.as_slice(), blocking_pairs)
        && report.is_stable() == finds_nothing
}

// Whether the audit of this sheet finds the expected lists.
fn finds(
    alloc: Global,
    members: Members,
    programmes: &[Option<u32>],
    findings: Findings,
) -> Result<bool, ModelFault> {
    let instance = instance_of(alloc, members)?;
    let sheet = sheet(alloc, programmes)?;
    match audit(alloc, &instance, &sheet) {
        Ok(report) => Ok(has_found(&report, findings)),
        Err(_) => Ok(false),
    }
}

const AUDITED_SHEETS: [(Members, &[Option<u32>], Findings); 4] = [
    (
        (&[(2, &[0, 1])], &[&[0], &[0]]),
        &[Some(0), None],
        (&[], &[], &[(1, 0)]),
    ),
    (TWO_BY_TWO, &[Some(1), Some(0)], (&[], &[], &[])),
    (TWO_BY_TWO, &[Some(0), Some(0)], (&[], &[(0, 2)], &[(0, 1)])),
    ((&[(1, &[0])], &[&[]]), &[Some(0)], (&[(0, 0)], &[], &[])),
];

#[test]
fn audits_sheets(rt: HostRuntime) -> Result<(), Fail> {
    for (members, programmes, findings) in AUDITED_SHEETS {
        assert!(rt; finds(rt.alloc(), members, programmes, findings)?);
    }
    Ok(())
}

#[test]
fn audits_no_sheet_of_another_size(rt: HostRuntime) -> Result<(), Fail> {
    let instance = instance_of(rt.alloc(), TWO_BY_TWO)?;
    let short_sheet = sheet(rt.alloc(), &[None])?;
    assert!(rt;
        matches!(
            audit(rt.alloc(), &instance, &short_sheet),
            Err(AuditFault::WrongSize)
        )
    );
    Ok(())
}

// How many events a replay enters, or its fault.
fn events_replayed(
    alloc: Global,
    members: Members,
    capacity: Capacity,
    events: &[Event],
) -> Result<usize, ReplayFault> {
    let Ok(instance) = instance_of(alloc, members) else {
        return Err(ReplayFault::Memory);
    };
    match replay(alloc, &instance, capacity, events) {
        Ok(report) => Ok(report.events),
        Err(fault) => Err(fault),
    }
}

// How many events a replay enters, or its fault, if it gets the first `kept_count` of the nineteen events, followed
// by the events `added_events`.
fn events_replayed_after(
    alloc: Global,
    kept_count: usize,
    added_events: &[Event],
) -> Result<usize, ReplayFault> {
    let events = nineteen_events();
    let Ok(events) = joined_events(alloc, &[&events[..kept_count.min(19)], added_events]) else {
        return Err(ReplayFault::Memory);
    };
    events_replayed(alloc, TWO_PLACES, Capacity::Full, events.as_slice())
}

#[test]
fn replays_lists(rt: HostRuntime) {
    let two_due_events = [
        offer(A, X),
        offer(B, X),
        take(X, A),
        answer(X, A, AnswerKind::Hold),
        take(X, B),
        answer(X, B, AnswerKind::Decline),
    ];
    let two_taken_events = [offer(A, X), offer(B, X), take(X, A), take(X, B)];
    let cases: [(usize, &[Event], Result<usize, ReplayFault>); 9] = [
        (19, &[], Ok(19)),
        (0, &[take(X, A)], refused_at(1, Refused::NothingWaiting)),
        (
            13,
            &[Event::Close],
            refused_at(14, Refused::StillPending(Pending::Answers(A))),
        ),
        (
            11,
            &[hear(A, X, AnswerKind::Release)],
            refused_at(12, Refused::WrongFront),
        ),
        (19, &[take(X, A)], refused_at(20, Refused::Closed)),
        (0, &two_due_events, refused_at(6, Refused::NotDue)),
        (18, &[], Err(ReplayFault::NotClosed)),
        (0, &[offer(A, Y)], refused_at(1, Refused::NotNext)),
        (0, &two_taken_events, refused_at(4, Refused::AnswerDue)),
    ];
    for (kept_count, added_events, expected_result) in cases {
        assert!(rt;
            events_replayed_after(rt.alloc(), kept_count, added_events) == expected_result,
            "{expected_result:?}"
        );
    }
}

#[test]
fn replays_under_a_capacity(rt: HostRuntime) {
    let good_events = nineteen_events();
    let two_offers = [offer(A, X), offer(B, X)];
    let cases: [(u32, &[Event], Result<usize, ReplayFault>); 6] = [
        (1, &two_offers, refused_at(2, Refused::MailboxFull)),
        (2, &good_events, refused_at(10, Refused::MailboxFull)),
        (3, &good_events, Ok(19)),
        (1024, &good_events, Ok(19)),
        (0, &good_events, Err(ReplayFault::BadCapacity)),
        (1025, &good_events, Err(ReplayFault::BadCapacity)),
    ];
    for (room, events, expected_result) in cases {
        let replay_result = events_replayed(rt.alloc(), TWO_PLACES, Capacity::Each(room), events);
        assert!(rt; replay_result == expected_result, "{expected_result:?}");
    }
}

// The events with these indices, in the order of the indices.
fn chosen_events(
    alloc: Global,
    events: &[Event],
    event_indices: &[usize],
) -> Result<Vec<Event>, AllocError> {
    let mut chosen = Vec::new(alloc);
    for index in event_indices {
        if let Some(event) = events.get(*index) {
            chosen.push(*event)?;
        }
    }
    Ok(chosen)
}

const FORGED_LISTS: [(&[usize], Result<usize, ReplayFault>); 6] = [
    // the answer is not heard
    (
        &[0, 1, 2, 3, 4, 5, 6, 8],
        Err(ReplayFault::At {
            place: 8,
            refused: Refused::StillPending(Pending::Answers(B)),
        }),
    ),
    // the offer is not answered
    (
        &[0, 1, 2, 3, 5, 6, 7, 8],
        Err(ReplayFault::At {
            place: 6,
            refused: Refused::NothingWaiting,
        }),
    ),
    // the offer is taken twice
    (
        &[0, 1, 2, 2, 3, 4, 5, 6, 7, 8],
        Err(ReplayFault::At {
            place: 4,
            refused: Refused::AnswerDue,
        }),
    ),
    // the offer is answered before it is taken
    (
        &[0, 1, 4, 3, 2, 5, 6, 7, 8],
        Err(ReplayFault::At {
            place: 3,
            refused: Refused::NotDue,
        }),
    ),
    (&[1, 0, 2, 3, 4, 5, 6, 7, 8], Ok(9)),
    (&[0, 1, 2, 3, 4], Err(ReplayFault::NotClosed)),
];

#[test]
fn sees_forged_lists(rt: HostRuntime) -> Result<(), Fail> {
    let alloc = rt.alloc();
    let good_events = nine_events();
    for (event_indices, expected_result) in FORGED_LISTS {
        let events = chosen_events(alloc, &good_events, event_indices)?;
        let replay_result = events_replayed(alloc, TWO_BY_TWO, Capacity::Full, events.as_slice());
        assert!(rt; replay_result == expected_result, "{expected_result:?}");
    }
    let replay_result = events_replayed(
        alloc,
        TWO_BY_TWO,
        Capacity::Full,
        &[offer(A, X), offer(A, Y)],
    );
    assert!(rt; replay_result == refused_at(2, Refused::NoPlace));
    Ok(())
}

// How many events a replay enters whose result is compared with this sheet, or its fault.
fn events_checked(
    alloc: Global,
    members: Members,
    events: &[Event],
    programmes: &[Option<u32>],
) -> Result<usize, ReplayFault> {
    let (Ok(instance), Ok(sheet)) = (instance_of(alloc, members), sheet(alloc, programmes)) else {
        return Err(ReplayFault::Memory);
    };
    match check(alloc, &instance, Capacity::Full, events, &sheet) {
        Ok(report) => Ok(report.events),
        Err(fault) => Err(fault),
    }
}

const CHECKED_SHEETS: [(&[Option<u32>], Result<usize, ReplayFault>); 5] = [
    (&[Some(0), Some(1)], Ok(9)),
    (&[Some(1), Some(0)], Err(ReplayFault::SheetDiffers(X))),
    (&[Some(0), None], Err(ReplayFault::SheetDiffers(Y))),
    (&[Some(0)], Err(ReplayFault::SheetDiffers(Y))),
    (&[Some(0), Some(1), None], Err(ReplayFault::SheetDiffers(Z))),
];

#[test]
fn checks_sheets(rt: HostRuntime) {
    let events = nine_events();
    for (programmes, expected_result) in CHECKED_SHEETS {
        let check_result = events_checked(rt.alloc(), TWO_BY_TWO, &events, programmes);
        assert!(rt; check_result == expected_result, "{expected_result:?}");
    }
    let settled_programmes = [Some(1), Some(0), Some(0)];
    assert!(rt;
        events_checked(
            rt.alloc(),
            TWO_PLACES,
            &nineteen_events(),
            &settled_programmes
        ) == Ok(19)
    );
}

// Whether these workers' events are counted as in `wanted_counts`, which has a number for each worker.
fn counts_are(alloc: Global, event_workers: &[u8], wanted_counts: &[u64]) -> bool {
    let Ok(workers) = u32::try_from(wanted_counts.len()) else {
        return false;
    };
    for worker in event_workers {
        if *worker as u32 >= workers {
            return false;
        }
    }
    match counts(alloc, workers, event_workers) {
        Ok(counts) => counts.as_slice() == wanted_counts,
        Err(_) => false,
    }
}

#[test]
fn counts_events_of_workers(rt: HostRuntime) {
    let cases: [(&[u8], &[u64]); 4] = [
        (&[0, 1, 0, 1, 0, 1, 0, 1, 0], &[5, 4]),
        (&[], &[0]),
        (&[2, 2, 7], &[0, 0, 2, 0, 0, 0, 0, 1]),
        (&[], &[]),
    ];
    for (event_workers, wanted_counts) in cases {
        assert!(rt; counts_are(rt.alloc(), event_workers, wanted_counts));
    }
}

#[test]
fn tells_faults(rt: HostRuntime) -> Result<(), Fail> {
    let audit_faults = [
        (
            AuditFault::WrongSize,
            "as many places as residents are wanted",
        ),
        (AuditFault::Memory, "out of memory"),
    ];
    for (fault, text) in audit_faults {
        assert!(rt; fault.to_string(rt.alloc())?.as_str() == text, "{text}");
    }
    let due_fault = ReplayFault::At {
        place: 4,
        refused: Refused::AnswerDue,
    };
    let replay_faults = [
        (ReplayFault::BadCapacity, "bad capacity"),
        (ReplayFault::Memory, "out of memory"),
        (due_fault, "event 4 is refused: AnswerDue"),
        (ReplayFault::NotClosed, "the exchange isn't closed"),
        (
            ReplayFault::SheetDiffers(Z),
            "the sheet differs at resident 2",
        ),
    ];
    for (fault, text) in replay_faults {
        assert!(rt; fault.to_string(rt.alloc())?.as_str() == text, "{text}");
    }
    Ok(())
}
