//! Dockets at each limit, and dockets one beyond it.
mod national;

use super::{read, reads_as};
use crate::commands::{MATCH, serves};
use crate::markets::{push_all_numbered, push_lists};
use docket::DocketFault;
use match_model::ModelFault;
use residency::ServeFault;
use std::alloc::{AllocError, Global};
use std::test::Fail;

// The end of the record of a resident who ranks all ten programmes, the last programme first.
const TEN_RANKED: &str = ",p9,p8,p7,p6,p5,p4,p3,p2,p1,p0\n";

// The text of `record_count` records, which are alike but for a rising number.
fn numbered_records(
    alloc: Global,
    prefix: &str,
    record_count: u32,
    suffix: &str,
) -> Result<String, AllocError> {
    let mut docket = String::new(alloc);
    push_all_numbered(&mut docket, alloc, prefix, record_count, suffix)?;
    Ok(docket)
}

// A docket of ten programmes and 20,000 residents who all rank each other. The records of the last resident are in
// `last_records`.
fn ranked_docket(alloc: Global, last_records: &str) -> Result<String, AllocError> {
    let mut docket = numbered_records(alloc, "Q,p", 10, ",1\n")?;
    push_lists(&mut docket, alloc)?;
    push_all_numbered(&mut docket, alloc, "R,r", 19_999, TEN_RANKED)?;
    docket.push_str(last_records)?;
    Ok(docket)
}

// A docket of this many records: the row of a capacity, and then closes.
fn docket_of_closes(alloc: Global, record_count: u32) -> Result<String, AllocError> {
    let mut docket = String::new(alloc);
    docket.push_str("C,full\n")?;
    for _ in 1..record_count {
        docket.push_str("E,close\n")?;
    }
    Ok(docket)
}

// A docket with the greatest number of programmes, and with the records in `last_records`.
fn most_programmes_and(alloc: Global, last_records: &str) -> Result<String, AllocError> {
    let mut docket = numbered_records(alloc, "Q,p", 2_000, ",10000\n")?;
    docket.push_str(last_records)?;
    Ok(docket)
}

#[test]
fn programmes(rt: HostRuntime) -> Result<(), Fail> {
    // the quota is tested after the number of programmes, and a repeated name before both
    for (last_records, outcome) in [
        ("", "read"),
        ("Q,q,10001\n", "record 2001: more than 2000 programmes"),
        ("Q,p0,10001\n", "record 2001: declared twice"),
    ] {
        let docket = most_programmes_and(rt.alloc(), last_records)?;
        assert!(rt;
            reads_as(rt.alloc(), &[docket.as_str()], outcome)?,
            "{outcome}"
        );
    }
    Ok(())
}

#[test]
fn residents(rt: HostRuntime) -> Result<(), Fail> {
    for (record_count, outcome) in [
        (20_000, "read"),
        (20_001, "record 20001: more than 20000 residents"),
    ] {
        let docket = numbered_records(rt.alloc(), "R,r", record_count, "\n")?;
        assert!(rt;
            reads_as(rt.alloc(), &[docket.as_str()], outcome)?,
            "{outcome}"
        );
    }
    Ok(())
}

// How many pairs are acceptable in the docket with this text; none if it is no docket.
fn acceptable_pairs(alloc: Global, input: &str) -> Option<u32> {
    match read(alloc, input) {
        Ok(docket) => Some(docket.instance().pairs()),
        Err(_) => None,
    }
}

#[test]
fn most_pairs(rt: HostRuntime) -> Result<(), Fail> {
    let docket = ranked_docket(rt.alloc(), "R,r19999,p9,p8,p7,p6,p5,p4,p3,p2,p1,p0\n")?;
    assert!(rt; acceptable_pairs(rt.alloc(), docket.as_str()) == Some(200_000));
    Ok(())
}

// The records of the last resident and of an eleventh programme.
const ELEVENTH: &str =
    "R,r19999,p9,p8,p7,p6,p5,p4,p3,p2,p1,p0,p10\nQ,p10,0\nP,p10,r19999\nC,full\n";

#[test]
fn one_pair_too_many(rt: HostRuntime) -> Result<(), Fail> {
    let docket = ranked_docket(rt.alloc(), ELEVENTH)?;
    let outcome = "record 20023: more than 200000 acceptable pairs";
    assert!(rt; reads_as(rt.alloc(), &[docket.as_str()], outcome)?);
    Ok(())
}

#[test]
fn quotas(rt: HostRuntime) -> Result<(), Fail> {
    for (input, outcome) in [
        ("Q,a,10000\n", "read"),
        ("Q,a,10001\n", "record 1: quota over 10000"),
    ] {
        assert!(rt; reads_as(rt.alloc(), &[input], outcome)?, "{outcome}");
    }
    Ok(())
}

#[test]
fn most_records(rt: HostRuntime) -> Result<(), Fail> {
    let docket = docket_of_closes(rt.alloc(), 2_000_000)?;
    assert!(rt; reads_as(rt.alloc(), &[docket.as_str()], "read")?);
    Ok(())
}

#[test]
fn one_record_too_many(rt: HostRuntime) -> Result<(), Fail> {
    let docket = docket_of_closes(rt.alloc(), 2_000_001)?;
    let outcome = "record 2000001: more than 2000000 records";
    assert!(rt; reads_as(rt.alloc(), &[docket.as_str()], outcome)?);
    Ok(())
}

// For each limit, the fault of the docket that goes beyond it.
const FAULTS_BEYOND: [DocketFault; 5] = [
    DocketFault::Model {
        place: 2_001,
        fault: ModelFault::TooManyProgrammes,
    },
    DocketFault::Model {
        place: 20_001,
        fault: ModelFault::TooManyResidents,
    },
    DocketFault::Model {
        place: 20_023,
        fault: ModelFault::TooManyPairs,
    },
    DocketFault::Model {
        place: 1,
        fault: ModelFault::QuotaTooLarge,
    },
    DocketFault::TooManyRecords { place: 2_000_001 },
];

// The docket that goes beyond the limit with this index in `FAULTS_BEYOND`.
fn docket_beyond(alloc: Global, limit: usize) -> Result<String, AllocError> {
    match limit {
        0 => most_programmes_and(alloc, "Q,q,10000\n"),
        1 => numbered_records(alloc, "R,r", 20_001, "\n"),
        2 => ranked_docket(alloc, ELEVENTH),
        3 => numbered_records(alloc, "Q,q", 1, ",10001\n"),
        _ => docket_of_closes(alloc, 2_000_001),
    }
}

#[test]
fn none_is_matched_beyond(rt: HostRuntime) -> Result<(), Fail> {
    for (limit, fault) in FAULTS_BEYOND.iter().enumerate() {
        let docket = docket_beyond(rt.alloc(), limit)?;
        let outcome = (Err(ServeFault::Docket(*fault)), "", 3);
        assert!(rt;
            serves(rt, rt.alloc(), MATCH, &[docket.as_str()], outcome)?,
            "{fault}"
        );
    }
    Ok(())
}
