//! Matches in which a worker is kept waiting, and matches of the largest dockets.
use super::journals::{is_good, match_output};
use crate::commands::{MATCH, NARROW_MATCH, serve};
use crate::markets::{docket_in_one_order, sheet_in_one_order, widest_docket};
use crate::texts::{SMALL_DOCKET, SMALL_SHEET, rows_starting};
use exchange_core::Capacity;
use residency::{JournalForm, MatchOptions, Order, ServeFault, Status, serve_match};
use std::alloc::{AllocError, Global};
use std::random::RandomSource;
use std::sync::Wait;
use std::test::Fail;
use std::thread::Threads;
use test_gates::gates::{Firm, Held};

// Runs a match with a gate that keeps one call of `pass` waiting.
fn match_through_gate<H: Threads + Wait + RandomSource + Sync + Send + Copy>(
    rt: H,
    alloc: Global,
    docket: &str,
    gate: &Firm,
    sheet: &mut Vec<u8>,
) -> Result<Status, ServeFault> {
    serve_match(
        rt,
        alloc,
        docket.as_bytes(),
        sheet,
        &MatchOptions::default(),
        gate,
    )
}

// How many events two workers entered together; none unless the gate kept its call waiting and each of the two
// entered some.
fn events_entered(held: &Held) -> Option<u64> {
    let (first_count, second_count) = (held.count(0), held.count(1));
    if held.has_held() && first_count > 0 && second_count > 0 {
        Some(first_count.saturating_add(second_count))
    } else {
        None
    }
}

#[test]
fn two_at_once(rt: HostRuntime) {
    let gate = Firm(Held::new(0));
    let mut sheet = Vec::new(rt.alloc());
    let status = match_through_gate(rt, rt.alloc(), SMALL_DOCKET, &gate, &mut sheet);
    assert!(rt; status == Ok(Status::Closed));
    assert!(rt; sheet.as_slice() == SMALL_SHEET.as_bytes());
    assert!(rt; events_entered(&gate.0) == Some(9));
}

// Whether a sheet has exactly a row for each of 20,000 residents and each of 2,000 programmes.
fn is_widest_sheet(sheet: &[u8]) -> bool {
    let resident_rows = rows_starting(sheet, "M,").saturating_add(rows_starting(sheet, "U,"));
    resident_rows == 20_000
        && rows_starting(sheet, "F,") == 2_000
        && rows_starting(sheet, "") == 22_000
}

// Whether a written sheet, appended to its docket, is read and is stable.
fn is_stable<H: Threads + Wait + RandomSource + Sync + Send + Copy>(
    rt: H,
    alloc: Global,
    docket_text: &str,
    sheet: &[u8],
) -> Result<bool, AllocError> {
    let mut docket = docket_text.as_bytes().to_vec(alloc)?;
    docket.extend_from_slice(sheet)?;
    let mut report = Vec::new(alloc);
    let status = serve(rt, alloc, Order::Audit, docket.as_slice(), &mut report);
    Ok(status == Ok(Status::Stable) && report.as_slice() == b"S,stable\n".as_slice())
}

#[test]
fn the_widest_docket(rt: HostRuntime) -> Result<(), Fail> {
    let docket = widest_docket(rt.alloc())?;
    let gate = Firm(Held::new(9_999));
    let mut sheet = Vec::new(rt.alloc());
    let status = match_through_gate(rt, rt.alloc(), docket.as_str(), &gate, &mut sheet);
    assert!(rt; status == Ok(Status::Closed));
    assert!(rt; events_entered(&gate.0).is_some());
    assert!(rt; is_widest_sheet(sheet.as_slice()));
    assert!(rt; is_stable(rt, rt.alloc(), docket.as_str(), sheet.as_slice())?);
    Ok(())
}

// A match with the largest capacity that is a number, and with the journal.
const ROOMY_MATCH: Order = Order::Match(MatchOptions {
    workers: 2,
    capacity: Capacity::Each(1_024),
    journal: JournalForm::Plain,
});

#[test]
fn all_in_one_order(rt: HostRuntime) -> Result<(), Fail> {
    let docket = docket_in_one_order(rt.alloc())?;
    let right_sheet = sheet_in_one_order(rt.alloc())?;
    for order in [MATCH, NARROW_MATCH] {
        let mut sheet = Vec::new(rt.alloc());
        let status = serve(rt, rt.alloc(), order, docket.as_bytes(), &mut sheet);
        assert!(rt; status == Ok(Status::Closed));
        assert!(rt; sheet.as_slice() == right_sheet.as_bytes());
    }
    Ok(())
}

#[test]
fn the_journal_of_all_in_one_order(rt: HostRuntime) -> Result<(), Fail> {
    let docket = docket_in_one_order(rt.alloc())?;
    let right_sheet = sheet_in_one_order(rt.alloc())?;
    let Some(new_rows) = match_output(rt, rt.alloc(), ROOMY_MATCH, docket.as_str()) else {
        return Err(Fail::from("the match isn't closed"));
    };
    assert!(rt; new_rows.as_slice().starts_with(right_sheet.as_bytes()));
    assert!(rt; is_good(rt, rt.alloc(), docket.as_str(), new_rows.as_slice())?);
    Ok(())
}
