//! A docket with all its parts.
use super::read;
use crate::texts::{FULL_CAPACITY, OTHER_SHEET, SMALL_DOCKET, SMALL_JOURNAL, joined};
use docket::{Docket, Journal};
use exchange_core::Capacity;
use match_model::Assignment;
use std::alloc::{AllocError, Global};
use std::test::Fail;
use test_support::events::{A, B, X, Y, nine_events};

// Whether the sheet is the sheet in `OTHER_SHEET`.
fn is_right_sheet(sheet: &Assignment) -> bool {
    sheet.len() == 2 && sheet.get(X) == Some(B) && sheet.get(Y) == Some(A)
}

// Whether the journal is the journal in `SMALL_JOURNAL`.
fn is_right_journal(journal: &Journal) -> bool {
    journal.capacity == Capacity::Full && journal.events.as_slice() == nine_events().as_slice()
}

// Whether each part of the docket is as expected.
fn is_whole(docket: &Docket) -> bool {
    let (Some(sheet), Some(journal)) = (docket.sheet(), docket.journal()) else {
        return false;
    };
    docket.instance().pairs() == 4 && is_right_sheet(sheet) && is_right_journal(journal)
}

// Whether the docket in these texts is read with each part as expected.
fn reads_whole(alloc: Global, docket: &[&str]) -> Result<bool, AllocError> {
    let docket_text = joined(alloc, docket)?;
    match read(alloc, docket_text.as_str()) {
        Ok(docket) => Ok(is_whole(&docket)),
        Err(_) => Ok(false),
    }
}

// How many entries the sheet of the docket has, if it has a sheet, and whether it has a journal.
fn parts(alloc: Global, input: &str) -> Option<(Option<u32>, bool)> {
    match read(alloc, input) {
        Ok(docket) => Some((
            docket.sheet().map(|sheet| sheet.len()),
            docket.journal().is_some(),
        )),
        Err(_) => None,
    }
}

#[test]
fn reads_a_docket_whole(rt: HostRuntime) -> Result<(), Fail> {
    // the rows of the three parts, in two different orders
    for docket in [
        [SMALL_DOCKET, FULL_CAPACITY, SMALL_JOURNAL, OTHER_SHEET],
        [OTHER_SHEET, FULL_CAPACITY, SMALL_JOURNAL, SMALL_DOCKET],
    ] {
        assert!(rt; reads_whole(rt.alloc(), docket.as_slice())?);
    }
    Ok(())
}

#[test]
fn reads_what_a_docket_lacks(rt: HostRuntime) {
    // if no member is declared, the sheet has no rows
    for (input, expected_parts) in [
        (SMALL_DOCKET, (None, false)),
        ("", (Some(0), false)),
        ("C,7\n", (Some(0), true)),
        ("Q,a,1\nC,7\n", (None, true)),
        ("U,x\nR,x\n", (Some(1), false)),
    ] {
        assert!(rt; parts(rt.alloc(), input) == Some(expected_parts), "{input}");
    }
}
