//! Dockets that are just over the standard limits; for programmes and residents also dockets at the national limit
//! and with one member more.
use super::{ELEVENTH, docket_of_closes, numbered_records, ranked_docket};
use docket::read_docket_within;
use match_model::Limits;
use match_pool::OpenGate;
use residency::{JournalForm, MatchOptions, Order, Status, serve_within};
use std::alloc::{AllocError, Global};
use std::test::Fail;
use test_support::randomness::OneByte;

// Whether reading a docket within the national limits ends as expected: with a fault of this text, or without a fault
// if the text is `read`.
fn reads_as(alloc: Global, docket: &str, outcome: &str) -> Result<bool, AllocError> {
    let limits = Limits::National;
    match read_docket_within(&OneByte(7), alloc, limits, docket.as_bytes()) {
        Ok(_) => Ok(outcome == "read"),
        Err(fault) => {
            let fault_text = fault.within(limits).to_string(alloc)?;
            Ok(fault_text.as_str() == outcome)
        }
    }
}

#[test]
fn programmes(rt: HostRuntime) -> Result<(), Fail> {
    for (record_count, outcome) in [
        (2_001, "read"),
        (10_000, "read"),
        (10_001, "record 10001: more than 10000 programmes"),
    ] {
        let docket = numbered_records(rt.alloc(), "Q,p", record_count, ",10000\n")?;
        assert!(rt;
            reads_as(rt.alloc(), docket.as_str(), outcome)?,
            "{outcome}"
        );
    }
    Ok(())
}

#[test]
fn residents(rt: HostRuntime) -> Result<(), Fail> {
    for (record_count, outcome) in [
        (20_001, "read"),
        (100_000, "read"),
        (100_001, "record 100001: more than 100000 residents"),
    ] {
        let docket = numbered_records(rt.alloc(), "R,r", record_count, "\n")?;
        assert!(rt;
            reads_as(rt.alloc(), docket.as_str(), outcome)?,
            "{outcome}"
        );
    }
    Ok(())
}

#[test]
fn pairs(rt: HostRuntime) -> Result<(), Fail> {
    let docket = ranked_docket(rt.alloc(), ELEVENTH)?;
    assert!(rt; reads_as(rt.alloc(), docket.as_str(), "read")?);
    Ok(())
}

#[test]
fn records(rt: HostRuntime) -> Result<(), Fail> {
    let docket = docket_of_closes(rt.alloc(), 2_000_001)?;
    assert!(rt; reads_as(rt.alloc(), docket.as_str(), "read")?);
    Ok(())
}

// A match by two workers, without a journal.
const MATCH: MatchOptions = MatchOptions {
    workers: 2,
    capacity: exchange_core::Capacity::Full,
    journal: JournalForm::Absent,
};

#[test]
fn matches_beyond_the_standard_limits(rt: HostRuntime) -> Result<(), Fail> {
    let mut docket = numbered_records(rt.alloc(), "Q,p", 2_001, ",1\n")?;
    docket.push_str("P,p2000,r\nR,r,p2000\n")?;
    let mut sheet = Vec::new(rt.alloc());
    let status = serve_within(
        rt,
        rt.alloc(),
        Limits::National,
        &Order::Match(MATCH),
        docket.as_bytes(),
        &mut sheet,
        &OpenGate,
    );
    assert!(rt; status == Ok(Status::Closed));
    assert!(rt;
        sheet
            .as_slice()
            .starts_with(b"M,r,p2000\nF,p0,0,1\n".as_slice())
    );
    assert!(rt; sheet.as_slice().ends_with(b"F,p2000,1,1\n".as_slice()));
    Ok(())
}
