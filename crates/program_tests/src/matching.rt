//! Matches: their sheets, for all members and for those who remain after withdrawals, and their journals.
mod journals;
mod large;
mod withdrawn;

use crate::commands::{MATCH, MATCH_WITH_JOURNAL, NARROW_MATCH, serves, serves_both};
use crate::texts::{
    CHAIN_DOCKET, FULL_CAPACITY, ONE_SIDED_DOCKET, OTHER_SHEET, QUOTAS_DOCKET, QUOTAS_SHEET,
    SMALL_DOCKET, SMALL_JOURNAL, SMALL_SHEET, THREE_RECORDS,
};
use exchange_core::Capacity;
use match_pool::RunFault;
use residency::{JournalForm, MatchOptions, Order, ServeFault, Status};
use std::test::Fail;

#[test]
fn matches(rt: HostRuntime) -> Result<(), Fail> {
    let cases: [(&[&str], &str); 10] = [
        (&[SMALL_DOCKET], SMALL_SHEET),
        // the small docket without its last byte
        (&[THREE_RECORDS, "P,b,y,x\nR,x,b,a\nR,y,a,b"], SMALL_SHEET),
        (&[QUOTAS_DOCKET], QUOTAS_SHEET),
        (&[], ""),
        (
            &["Q,a,0\nQ,b,1\nP,a,x\nP,b,x\nR,x,a,b\n"],
            "M,x,b\nF,a,0,0\nF,b,1,1\n",
        ),
        (&[ONE_SIDED_DOCKET], "U,x\nF,a,0,1\n"),
        (
            &["Q,a,2\nQ,b,1\nP,a,x\nP,b,x,y\nR,x,b,a\nR,y,b\n"],
            "M,x,b\nU,y\nF,a,0,2\nF,b,1,1\n",
        ),
        (
            &[SMALL_DOCKET, FULL_CAPACITY, SMALL_JOURNAL, OTHER_SHEET],
            SMALL_SHEET,
        ),
        (
            &[CHAIN_DOCKET],
            "M,x,d\nF,a,0,1\nF,b,0,1\nF,c,0,1\nF,d,1,1\n",
        ),
        (
            &["Q,\"a\",1\r\nQ,b,1\r\n\r\nP,a,x,y\r\nP,b,y,x\r\nR,x,b,a\r\nR,y,a,b\r\n"],
            SMALL_SHEET,
        ),
    ];
    for (docket, sheet) in cases {
        let outcome = (Ok(Status::Closed), sheet, 0);
        assert!(rt;
            serves_both(rt, rt.alloc(), MATCH, docket, outcome)?,
            "{sheet}"
        );
    }
    Ok(())
}

#[test]
fn matches_through_narrow_mailboxes(rt: HostRuntime) -> Result<(), Fail> {
    for (docket_text, sheet) in [(QUOTAS_DOCKET, QUOTAS_SHEET), (SMALL_DOCKET, SMALL_SHEET)] {
        let outcome = (Ok(Status::Closed), sheet, 0);
        assert!(rt;
            serves_both(rt, rt.alloc(), NARROW_MATCH, &[docket_text], outcome)?,
            "{sheet}"
        );
    }
    Ok(())
}

#[test]
fn refuses_wrong_options(rt: HostRuntime) -> Result<(), Fail> {
    let cases = [
        (0, Capacity::Full, RunFault::BadWorkers),
        (9, Capacity::Full, RunFault::BadWorkers),
        (2, Capacity::Each(0), RunFault::BadCapacity),
        (2, Capacity::Each(1025), RunFault::BadCapacity),
    ];
    for (workers, capacity, fault) in cases {
        let order = Order::Match(MatchOptions {
            workers,
            capacity,
            journal: JournalForm::Absent,
        });
        let outcome = (Err(ServeFault::Run(fault)), "", 1);
        assert!(rt;
            serves(rt, rt.alloc(), order, &[SMALL_DOCKET], outcome)?,
            "{workers}"
        );
    }
    Ok(())
}

#[test]
fn writes_the_journal_of_nothing(rt: HostRuntime) -> Result<(), Fail> {
    let outcome = (Ok(Status::Closed), "C,full\nE,close\n", 0);
    assert!(rt; serves_both(rt, rt.alloc(), MATCH_WITH_JOURNAL, &[], outcome)?);
    Ok(())
}

const JOURNAL_BY_ONE_WORKER: Order = Order::Match(MatchOptions {
    workers: 1,
    capacity: Capacity::Full,
    journal: JournalForm::ByWorker,
});

#[test]
fn writes_the_journal_of_nothing_by_worker(rt: HostRuntime) -> Result<(), Fail> {
    let outcome = (Ok(Status::Closed), "C,full,1\nE,close,0\n", 0);
    assert!(rt; serves(rt, rt.alloc(), JOURNAL_BY_ONE_WORKER, &[], outcome)?);
    Ok(())
}
