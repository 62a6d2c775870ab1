//! The sheet and the journal that a match writes. If they are appended to the match's docket, the sheet is stable
//! and the replay is good.
use crate::commands::{MATCH_WITH_JOURNAL, NARROW_MATCH_WITH_JOURNAL, serve};
use crate::markets::four_hundred_pairs;
use crate::texts::{
    CHAIN_DOCKET, CLOSE_EVENT, OTHER_SHEET, QUOTAS_DOCKET, SMALL_DOCKET, SMALL_JOURNAL,
    SMALL_SHEET, joined, rows_starting,
};
use residency::{Order, Status};
use std::alloc::{AllocError, Global};
use std::random::RandomSource;
use std::sync::Wait;
use std::test::Fail;
use std::thread::Threads;

/// What a match writes for a docket, or none if the match does not close.
pub(super) fn match_output<H: Threads + Wait + RandomSource + Sync + Send + Copy>(
    rt: H,
    alloc: Global,
    order: Order,
    docket_text: &str,
) -> Option<Vec<u8>> {
    let mut written_bytes = Vec::new(alloc);
    match serve(rt, alloc, order, docket_text.as_bytes(), &mut written_bytes) {
        Ok(Status::Closed) => Some(written_bytes),
        _ => None,
    }
}

// Whether a command over a docket ends with this status, and writes this text.
fn tells<H: Threads + Wait + RandomSource + Sync + Send + Copy>(
    rt: H,
    alloc: Global,
    order: Order,
    docket: &[u8],
    wanted_status: Status,
    wanted_text: &str,
) -> bool {
    let mut written_bytes = Vec::new(alloc);
    let status = serve(rt, alloc, order, docket, &mut written_bytes);
    status == Ok(wanted_status) && written_bytes.as_slice() == wanted_text.as_bytes()
}

/// Whether a written sheet and journal, appended to these members' rows, are read as a stable sheet and a good
/// replay.
pub(super) fn is_good<H: Threads + Wait + RandomSource + Sync + Send + Copy>(
    rt: H,
    alloc: Global,
    members: &str,
    new_rows: &[u8],
) -> Result<bool, AllocError> {
    let mut docket = members.as_bytes().to_vec(alloc)?;
    docket.extend_from_slice(new_rows)?;
    let event_count = rows_starting(new_rows, "E,");
    let good_row = format!(in alloc; "G,{event_count}\n")?;
    let docket = docket.as_slice();
    Ok(
        tells(
            rt,
            alloc,
            Order::Audit,
            docket,
            Status::Stable,
            "S,stable\n",
        ) && tells(
            rt,
            alloc,
            Order::Replay,
            docket,
            Status::ReplayGood,
            good_row.as_str(),
        ),
    )
}

// The members of `QUOTAS_DOCKET` in a docket of version 2 that withdraws one programme.
const WITHDRAWN_DOCKET: &str =
    "V,2\nQ,a,2\nQ,b,1\nP,a,x,y,z\nP,b,x\nR,x,b,a\nR,y,a\nR,z,a\nW,P,b\n";

#[test]
fn its_journal_is_good(rt: HostRuntime) -> Result<(), Fail> {
    let market = four_hundred_pairs(rt.alloc())?;
    for order in [MATCH_WITH_JOURNAL, NARROW_MATCH_WITH_JOURNAL] {
        for docket_text in [
            QUOTAS_DOCKET,
            SMALL_DOCKET,
            CHAIN_DOCKET,
            WITHDRAWN_DOCKET,
            market.as_str(),
        ] {
            let Some(new_rows) = match_output(rt, rt.alloc(), order, docket_text) else {
                return Err(Fail::from("the match isn't closed"));
            };
            assert!(rt;
                is_good(rt, rt.alloc(), docket_text, new_rows.as_slice())?,
                "{docket_text}"
            );
        }
    }
    Ok(())
}

// Dockets with the members of `SMALL_DOCKET` that already have a sheet, or a journal of another exchange, or both.
const USED_DOCKETS: [&[&str]; 5] = [
    &[SMALL_DOCKET, OTHER_SHEET],
    &[SMALL_DOCKET, "C,7\n", CLOSE_EVENT],
    &[SMALL_DOCKET, "C,7\nE,offer,a,y\n", OTHER_SHEET],
    &["C,7\n", SMALL_JOURNAL, OTHER_SHEET, SMALL_DOCKET],
    &[
        OTHER_SHEET,
        SMALL_DOCKET,
        "C,7\n",
        SMALL_JOURNAL,
        CLOSE_EVENT,
    ],
];

// Whether the text is exactly the sheet of `SMALL_DOCKET`, the row of the capacity, and the nine events of an exchange.
fn is_new_output(new_rows: &[u8], capacity_row: &str) -> bool {
    let (sheet, journal) = new_rows.split_at(new_rows.len().min(SMALL_SHEET.len()));
    sheet == SMALL_SHEET.as_bytes()
        && journal.starts_with(capacity_row.as_bytes())
        && rows_starting(journal, "C,") == 1
        && rows_starting(journal, "E,") == 9
        && rows_starting(journal, "") == 10
}

#[test]
fn what_it_read_is_not_written(rt: HostRuntime) -> Result<(), Fail> {
    for (order, capacity_row) in [
        (MATCH_WITH_JOURNAL, "C,full\n"),
        (NARROW_MATCH_WITH_JOURNAL, "C,1\n"),
    ] {
        for used_docket in USED_DOCKETS {
            let docket_text = joined(rt.alloc(), used_docket)?;
            let Some(new_rows) = match_output(rt, rt.alloc(), order, docket_text.as_str()) else {
                return Err(Fail::from("the match isn't closed"));
            };
            assert!(rt;
                is_new_output(new_rows.as_slice(), capacity_row),
                "{docket_text}"
            );
            assert!(rt;
                is_good(rt, rt.alloc(), SMALL_DOCKET, new_rows.as_slice())?,
                "{docket_text}"
            );
        }
    }
    Ok(())
}
