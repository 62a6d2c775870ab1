//! Replays of good, bad and forged journals, of journals by worker, and of journals that were made before a member
//! withdrew.
use crate::commands::{serves, serves_both};
use crate::texts::{
    CLOSE_EVENT, EIGHT_EVENTS_BY_TWO, ELEVEN_EVENTS, EVENTS_TO_EIGHTEEN, EVENTS_TO_THIRTEEN,
    FULL_CAPACITY, OTHER_SHEET, QUOTAS_DOCKET, SMALL_DOCKET, SMALL_JOURNAL, SMALL_SHEET,
    UNLISTED_MEMBERS, VERSION_2,
};
use docket::DocketFault;
use residency::{Order, ServeFault, Status};
use std::alloc::{AllocError, Global};
use std::test::Fail;

#[test]
fn replays_good_journals(rt: HostRuntime) -> Result<(), Fail> {
    let cases: [(&[&str], &str); 5] = [
        (
            &[
                QUOTAS_DOCKET,
                FULL_CAPACITY,
                ELEVEN_EVENTS,
                EVENTS_TO_THIRTEEN,
                EVENTS_TO_EIGHTEEN,
                CLOSE_EVENT,
            ],
            "G,19\n",
        ),
        (
            &[
                QUOTAS_DOCKET,
                "C,3\n",
                ELEVEN_EVENTS,
                EVENTS_TO_THIRTEEN,
                EVENTS_TO_EIGHTEEN,
                CLOSE_EVENT,
            ],
            "G,19\n",
        ),
        (
            &[SMALL_DOCKET, FULL_CAPACITY, SMALL_JOURNAL, SMALL_SHEET],
            "G,9\n",
        ),
        (
            &[SMALL_DOCKET, "C,1\n", SMALL_JOURNAL, SMALL_SHEET],
            "G,9\n",
        ),
        (&[SMALL_DOCKET, "C,1024\n", SMALL_JOURNAL], "G,9\n"),
    ];
    for (docket, replay_row) in cases {
        let outcome = (Ok(Status::ReplayGood), replay_row, 0);
        assert!(rt;
            serves_both(rt, rt.alloc(), Order::Replay, docket, outcome)?,
            "{replay_row}"
        );
    }
    Ok(())
}

// Journals that a replay refuses, each with the row of the fault.
const REFUSED_JOURNALS: [(&[&str], &str); 15] = [
    (
        &[QUOTAS_DOCKET, FULL_CAPACITY, "E,take,x,a\n"],
        "N,1,nothing-waiting\n",
    ),
    (
        &[
            QUOTAS_DOCKET,
            FULL_CAPACITY,
            ELEVEN_EVENTS,
            EVENTS_TO_THIRTEEN,
            CLOSE_EVENT,
        ],
        "N,14,still-pending,answers,a\n",
    ),
    (
        &[
            QUOTAS_DOCKET,
            FULL_CAPACITY,
            ELEVEN_EVENTS,
            "E,hear,a,x,release\n",
        ],
        "N,12,wrong-front\n",
    ),
    (
        &[
            QUOTAS_DOCKET,
            FULL_CAPACITY,
            ELEVEN_EVENTS,
            EVENTS_TO_THIRTEEN,
            EVENTS_TO_EIGHTEEN,
            CLOSE_EVENT,
            "E,take,x,a\n",
        ],
        "N,20,closed\n",
    ),
    (
        &[QUOTAS_DOCKET, "C,1\nE,offer,a,x\nE,offer,b,x\n"],
        "N,2,mailbox-full\n",
    ),
    (
        &[QUOTAS_DOCKET, "C,2\n", ELEVEN_EVENTS],
        "N,10,mailbox-full\n",
    ),
    (
        &[
            QUOTAS_DOCKET,
            FULL_CAPACITY,
            "E,offer,a,x\nE,offer,b,x\nE,take,x,a\nE,answer,x,a,hold\nE,take,x,b\nE,answer,x,b,decline\n",
        ],
        "N,6,not-due\n",
    ),
    (
        &[SMALL_DOCKET, FULL_CAPACITY, SMALL_JOURNAL, OTHER_SHEET],
        "D,x\n",
    ),
    (
        &[
            QUOTAS_DOCKET,
            FULL_CAPACITY,
            ELEVEN_EVENTS,
            EVENTS_TO_THIRTEEN,
            EVENTS_TO_EIGHTEEN,
        ],
        "N,19,not-closed\n",
    ),
    (
        &[QUOTAS_DOCKET, FULL_CAPACITY, "E,offer,a,y\n"],
        "N,1,not-next\n",
    ),
    (
        &[SMALL_DOCKET, FULL_CAPACITY, "E,offer,a,x\nE,offer,a,y\n"],
        "N,2,no-place\n",
    ),
    (
        &[
            QUOTAS_DOCKET,
            FULL_CAPACITY,
            "E,offer,a,x\nE,offer,b,x\nE,take,x,a\nE,take,x,b\n",
        ],
        "N,4,answer-due\n",
    ),
    (
        &[SMALL_DOCKET, FULL_CAPACITY, CLOSE_EVENT],
        "N,1,still-pending,wish,a\n",
    ),
    (
        &[SMALL_DOCKET, FULL_CAPACITY, "E,offer,a,x\n", CLOSE_EVENT],
        "N,2,still-pending,offers,x\n",
    ),
    (
        &[
            SMALL_DOCKET,
            FULL_CAPACITY,
            "E,offer,a,x\nE,take,x,a\n",
            CLOSE_EVENT,
        ],
        "N,3,still-pending,due,x\n",
    ),
];

#[test]
fn replays_bad_journals(rt: HostRuntime) -> Result<(), Fail> {
    for (docket, replay_row) in REFUSED_JOURNALS {
        let outcome = (Ok(Status::ReplayBad), replay_row, 4);
        assert!(rt;
            serves_both(rt, rt.alloc(), Order::Replay, docket, outcome)?,
            "{replay_row}"
        );
    }
    Ok(())
}

// The nine events of a journal of the small docket.
const NINE_EVENTS: [&str; 9] = [
    "E,offer,a,x\n",
    "E,offer,b,y\n",
    "E,take,x,a\n",
    "E,take,y,b\n",
    "E,answer,x,a,hold\n",
    "E,answer,y,b,hold\n",
    "E,hear,a,x,hold\n",
    "E,hear,b,y,hold\n",
    "E,close\n",
];

// A journal of those of the nine events that have these indices. Any other index stands for an event of no kind.
fn journal_of(alloc: Global, event_indices: &[usize]) -> Result<String, AllocError> {
    let mut journal = FULL_CAPACITY.to_string(alloc)?;
    for index in event_indices {
        journal.push_str(NINE_EVENTS.get(*index).copied().unwrap_or("E,none\n"))?;
    }
    Ok(journal)
}

// For each journal made of some of the nine events of the small docket's journal, by their indices: what its
// replay answers.
const FORGED_JOURNALS: [(&[usize], Status, &str, u8); 7] = [
    (&[0, 1, 2, 3, 4, 5, 6, 7, 8], Status::ReplayGood, "G,9\n", 0),
    (
        &[0, 1, 2, 3, 4, 5, 6, 8],
        Status::ReplayBad,
        "N,8,still-pending,answers,b\n",
        4,
    ),
    (
        &[0, 1, 2, 3, 5, 6, 7, 8],
        Status::ReplayBad,
        "N,6,nothing-waiting\n",
        4,
    ),
    (
        &[0, 1, 2, 2, 3, 4, 5, 6, 7, 8],
        Status::ReplayBad,
        "N,4,answer-due\n",
        4,
    ),
    (
        &[0, 1, 4, 3, 2, 5, 6, 7, 8],
        Status::ReplayBad,
        "N,3,not-due\n",
        4,
    ),
    (&[1, 0, 2, 3, 4, 5, 6, 7, 8], Status::ReplayGood, "G,9\n", 0),
    (&[0, 1, 2, 3, 4], Status::ReplayBad, "N,6,not-closed\n", 4),
];

#[test]
fn sees_forged_journals(rt: HostRuntime) -> Result<(), Fail> {
    for (event_indices, status, replay_row, exit_code) in FORGED_JOURNALS {
        let journal = journal_of(rt.alloc(), event_indices)?;
        let docket = [SMALL_DOCKET, journal.as_str()];
        let outcome = (Ok(status), replay_row, exit_code);
        assert!(rt;
            serves_both(rt, rt.alloc(), Order::Replay, &docket, outcome)?,
            "{replay_row}"
        );
    }
    Ok(())
}

#[test]
fn replays_journals_by_worker(rt: HostRuntime) -> Result<(), Fail> {
    let cases: [(&[&str], Status, &str, u8); 5] = [
        (
            &[SMALL_DOCKET, EIGHT_EVENTS_BY_TWO, "E,close,0\n"],
            Status::ReplayGood,
            "G,9\nK,0,5\nK,1,4\n",
            0,
        ),
        (
            &[
                SMALL_DOCKET,
                EIGHT_EVENTS_BY_TWO,
                "E,close,1\n",
                SMALL_SHEET,
            ],
            Status::ReplayGood,
            "G,9\nK,0,4\nK,1,5\n",
            0,
        ),
        (
            &["C,full,3\nE,close,1\n"],
            Status::ReplayGood,
            "G,1\nK,0,0\nK,1,1\nK,2,0\n",
            0,
        ),
        (
            &[SMALL_DOCKET, EIGHT_EVENTS_BY_TWO],
            Status::ReplayBad,
            "N,9,not-closed\n",
            4,
        ),
        (
            &[
                SMALL_DOCKET,
                EIGHT_EVENTS_BY_TWO,
                "E,close,0\n",
                OTHER_SHEET,
            ],
            Status::ReplayBad,
            "D,x\n",
            4,
        ),
    ];
    for (docket, status, replay_rows, exit_code) in cases {
        let outcome = (Ok(status), replay_rows, exit_code);
        assert!(rt;
            serves(rt, rt.alloc(), Order::Replay, docket, outcome)?,
            "{replay_rows}"
        );
    }
    Ok(())
}

#[test]
fn refuses_wrong_workers(rt: HostRuntime) -> Result<(), Fail> {
    let cases: [(&[&str], DocketFault); 4] = [
        (
            &[SMALL_DOCKET, EIGHT_EVENTS_BY_TWO, "E,close,2\n"],
            DocketFault::BadEvent { place: 16 },
        ),
        (
            &[SMALL_DOCKET, EIGHT_EVENTS_BY_TWO, "E,close\n"],
            DocketFault::FieldCount { place: 16 },
        ),
        (
            &[SMALL_DOCKET, EIGHT_EVENTS_BY_TWO, "E,close,0,0\n"],
            DocketFault::FieldCount { place: 16 },
        ),
        (
            &[SMALL_DOCKET, "C,full,9\n", "E,close,0\n"],
            DocketFault::BadEvent { place: 7 },
        ),
    ];
    for (docket, fault) in cases {
        let outcome = (Err(ServeFault::Docket(fault)), "", 3);
        assert!(rt;
            serves(rt, rt.alloc(), Order::Replay, docket, outcome)?,
            "{fault}"
        );
    }
    Ok(())
}

// Journals that were made before a member withdrew. The first offer by or to the withdrawn member is then no
// programme's next offer.
const OLD_JOURNAL_REPLAYS: [(&[&str], Status, &str, u8); 3] = [
    (
        &[
            VERSION_2,
            QUOTAS_DOCKET,
            "W,P,b\n",
            FULL_CAPACITY,
            ELEVEN_EVENTS,
            EVENTS_TO_THIRTEEN,
            EVENTS_TO_EIGHTEEN,
            CLOSE_EVENT,
        ],
        Status::ReplayBad,
        "N,7,not-next\n",
        4,
    ),
    (
        &[
            VERSION_2,
            SMALL_DOCKET,
            "W,R,x\n",
            FULL_CAPACITY,
            SMALL_JOURNAL,
            SMALL_SHEET,
        ],
        Status::ReplayBad,
        "N,1,not-next\n",
        4,
    ),
    (
        &[
            VERSION_2,
            SMALL_DOCKET,
            UNLISTED_MEMBERS,
            FULL_CAPACITY,
            SMALL_JOURNAL,
            "W,R,z\nW,P,c\n",
        ],
        Status::ReplayGood,
        "G,9\n",
        0,
    ),
];

#[test]
fn replays_of_old_journals(rt: HostRuntime) -> Result<(), Fail> {
    for (docket, status, replay_row, exit_code) in OLD_JOURNAL_REPLAYS {
        let outcome = (Ok(status), replay_row, exit_code);
        assert!(rt;
            serves(rt, rt.alloc(), Order::Replay, docket, outcome)?,
            "{replay_row}"
        );
    }
    Ok(())
}
