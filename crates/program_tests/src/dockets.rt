//! Dockets, read from their bytes.
mod faults;
mod forms;
mod limits;
mod names;
mod order;
mod refused;
mod versions;
mod whole;
mod writing;

use crate::devices::broken::CutReader;
use crate::texts::{joined, one_record_further};
use docket::{Docket, DocketFault, capacity_of, read_docket};
use exchange_core::Capacity;
use std::alloc::{AllocError, Global};
use test_support::randomness::OneByte;

/// Reads a docket with a reader that gives all bytes at once.
fn read(alloc: Global, input: &str) -> Result<Docket, DocketFault> {
    read_docket(&OneByte(7), alloc, input.as_bytes())
}

/// Reads a docket byte by byte, with a reader that fails after `good_bytes` bytes.
fn read_slowly(alloc: Global, input: &str, good_bytes: usize) -> Result<Docket, DocketFault> {
    read_docket(
        &OneByte(7),
        alloc,
        CutReader::new(input.as_bytes(), good_bytes),
    )
}

/// Whether reading a docket ended as expected: with a fault of this text, or without a fault if the text
/// is `read`.
fn has_outcome(
    alloc: Global,
    reading: Result<Docket, DocketFault>,
    outcome: &str,
) -> Result<bool, AllocError> {
    match reading {
        Ok(_) => Ok(outcome == "read"),
        Err(fault) => Ok(fault.to_string(alloc)?.as_str() == outcome),
    }
}

/// Whether reading the docket in these texts, one after another, ends as expected.
fn reads_as(alloc: Global, docket: &[&str], outcome: &str) -> Result<bool, AllocError> {
    let docket_text = joined(alloc, docket)?;
    has_outcome(alloc, read(alloc, docket_text.as_str()), outcome)
}

/// Whether reading a docket ends as expected, with a reader that gives all bytes at once and with a slow reader. Spaces
/// separate the records of the docket.
fn reads_both_ways_as(alloc: Global, records: &str, outcome: &str) -> Result<bool, AllocError> {
    let mut input = records.replace(alloc, " ", "\n")?;
    input.push_str("\n")?;
    let reads_at_once = has_outcome(alloc, read(alloc, input.as_str()), outcome)?;
    let reads_slowly = has_outcome(
        alloc,
        read_slowly(alloc, input.as_str(), usize::MAX),
        outcome,
    )?;
    Ok(reads_at_once && reads_slowly)
}

/// The first line whose docket isn't read as the line says, by a reader that gives all bytes at once or by a slow
/// reader.
///
/// Spaces separate the records in a line, and the expected outcome stands after ` = `.
fn first_wrong_line<'a>(alloc: Global, lines: &'a str) -> Result<Option<&'a str>, AllocError> {
    for line in lines.lines() {
        let Some((records, outcome)) = line.split_once(" = ") else {
            return Ok(Some(line));
        };
        if !reads_both_ways_as(alloc, records, outcome)? {
            return Ok(Some(line));
        }
    }
    Ok(None)
}

/// Does what `first_wrong_line` does, for the same records in dockets of version 2, where the number of each record is
/// one higher.
fn first_wrong_line_of_version_2<'a>(
    alloc: Global,
    lines: &'a str,
) -> Result<Option<&'a str>, AllocError> {
    for line in lines.lines() {
        let Some((records, outcome)) = line.split_once(" = ") else {
            return Ok(Some(line));
        };
        let version_2 = joined(alloc, &["V,2 ", records])?;
        if !reads_both_ways_as(
            alloc,
            version_2.as_str(),
            one_record_further(alloc, outcome)?.as_str(),
        )? {
            return Ok(Some(line));
        }
    }
    Ok(None)
}

#[test]
fn capacities(rt: HostRuntime) {
    let cases = [
        ("full", Some(Capacity::Full)),
        ("1", Some(Capacity::Each(1))),
        ("0012", Some(Capacity::Each(12))),
        ("000001024", Some(Capacity::Each(1024))),
        ("0", None),
        ("1025", None),
        ("0000000001", None),
        ("+5", None),
        ("Full", None),
        ("", None),
    ];
    for (capacity_text, capacity) in cases {
        assert!(rt;
            capacity_of(capacity_text.as_bytes()) == capacity,
            "{capacity_text}"
        );
    }
}
