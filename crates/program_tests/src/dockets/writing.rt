//! Sheets and journals as bytes, written and read back.
use super::read;
use crate::devices::broken::CutWriter;
use crate::texts::{
    CLOSE_EVENT, EIGHT_EVENTS_BY_TWO, ELEVEN_EVENTS, EVENTS_TO_EIGHTEEN, EVENTS_TO_THIRTEEN,
    FULL_CAPACITY, OTHER_SHEET, QUOTAS_DOCKET, SMALL_DOCKET, SMALL_JOURNAL, joined,
};
use docket::{
    Docket, DocketFault, RowWriter, push_programme, room_for_rows, write_journal, write_sheet,
};
use exchange_core::{AnswerKind, Capacity, Event};
use std::alloc::{AllocError, Global};
use std::io::Write;
use std::test::Fail;
use test_support::events::{A, B, X, Y, answer, hear, nine_events, nineteen_events};

// The rows of a docket with a sheet, in a mixed order.
const SHUFFLED: &str = "Q,a,1\nQ,b,1\nF,b,1,1\nF,a,1,1\nM,y,a\nM,x,b\nR,x,b,a\nR,y,a,b\n";

// More residents at a programme than its quota, none of them on a list.
const CROWDED: &str = "F,a,02,01\nM,x,a\nU,z\nM,y,a\nR,x\nR,y\nR,z\nQ,a,1\n";

const CROWDED_SHEET: &str = "M,x,a\nM,y,a\nU,z\nF,a,2,1\n";

// Writes the docket's own sheet.
fn write_docket_sheet<W: Write>(
    alloc: Global,
    docket: &Docket,
    writer: &mut W,
) -> Result<(), DocketFault> {
    match docket.sheet() {
        Some(sheet) => write_sheet(alloc, docket, sheet, writer),
        None => Ok(()),
    }
}

// Writes the docket's own journal.
fn write_docket_journal<W: Write>(
    alloc: Global,
    docket: &Docket,
    writer: &mut W,
) -> Result<(), DocketFault> {
    match docket.journal() {
        Some(journal) => write_journal(
            alloc,
            docket,
            journal.capacity,
            journal.events.as_slice(),
            journal.by.as_ref(),
            writer,
        ),
        None => Ok(()),
    }
}

// Reads a docket, and writes its sheet.
fn read_and_write_sheet<W: Write>(
    alloc: Global,
    input: &str,
    writer: &mut W,
) -> Result<(), DocketFault> {
    match read(alloc, input) {
        Ok(docket) => write_docket_sheet(alloc, &docket, writer),
        Err(fault) => Err(fault),
    }
}

// Reads a docket, and writes its journal.
fn read_and_write_journal<W: Write>(
    alloc: Global,
    input: &str,
    writer: &mut W,
) -> Result<(), DocketFault> {
    match read(alloc, input) {
        Ok(docket) => write_docket_journal(alloc, &docket, writer),
        Err(fault) => Err(fault),
    }
}

// Whether the docket has this journal.
fn is_journal(docket: &Docket, capacity: Capacity, events: &[Event]) -> bool {
    match docket.journal() {
        Some(journal) => journal.capacity == capacity && journal.events.as_slice() == events,
        None => false,
    }
}

// Whether the docket that is read has this journal.
fn has_journal(alloc: Global, input: &str, capacity: Capacity, events: &[Event]) -> bool {
    match read(alloc, input) {
        Ok(docket) => is_journal(&docket, capacity, events),
        Err(_) => false,
    }
}

// Whether the journal in a docket is written as this text.
fn writes_journal(alloc: Global, input: &str, journal: &str) -> bool {
    let mut written_bytes = Vec::new(alloc);
    read_and_write_journal(alloc, input, &mut written_bytes) == Ok(())
        && written_bytes.as_slice() == journal.as_bytes()
}

// Whether a journal is read both before its members' rows and after them, and is written unchanged.
fn keeps_journal(
    alloc: Global,
    members: &str,
    rows: &[&str],
    capacity: Capacity,
    events: &[Event],
) -> Result<bool, AllocError> {
    let journal = joined(alloc, rows)?;
    for docket in [[journal.as_str(), members], [members, journal.as_str()]] {
        let docket_text = joined(alloc, &docket)?;
        if !has_journal(alloc, docket_text.as_str(), capacity, events)
            || !writes_journal(alloc, docket_text.as_str(), journal.as_str())
        {
            return Ok(false);
        }
    }
    Ok(true)
}

#[test]
fn keeps_journals(rt: HostRuntime) -> Result<(), Fail> {
    let small_events = nine_events();
    let quotas_events = nineteen_events();
    // events that no legal list has
    let decline_events = [
        answer(X, B, AnswerKind::Decline),
        hear(A, Y, AnswerKind::Decline),
    ];
    let cases: [(&str, &[&str], Capacity, &[Event]); 7] = [
        (
            SMALL_DOCKET,
            &[FULL_CAPACITY, SMALL_JOURNAL],
            Capacity::Full,
            &small_events,
        ),
        (
            SMALL_DOCKET,
            &["C,7\n", SMALL_JOURNAL],
            Capacity::Each(7),
            &small_events,
        ),
        (
            QUOTAS_DOCKET,
            &[
                FULL_CAPACITY,
                ELEVEN_EVENTS,
                EVENTS_TO_THIRTEEN,
                EVENTS_TO_EIGHTEEN,
                CLOSE_EVENT,
            ],
            Capacity::Full,
            &quotas_events,
        ),
        (
            QUOTAS_DOCKET,
            &[
                "C,7\n",
                ELEVEN_EVENTS,
                EVENTS_TO_THIRTEEN,
                EVENTS_TO_EIGHTEEN,
                CLOSE_EVENT,
            ],
            Capacity::Each(7),
            &quotas_events,
        ),
        (
            "",
            &[FULL_CAPACITY, CLOSE_EVENT],
            Capacity::Full,
            &[Event::Close],
        ),
        ("", &["C,1\n"], Capacity::Each(1), &[]),
        (
            SMALL_DOCKET,
            &["C,1024\nE,answer,x,b,decline\nE,hear,a,y,decline\n"],
            Capacity::Each(1024),
            &decline_events,
        ),
    ];
    for (members, rows, capacity, events) in cases {
        assert!(rt;
            keeps_journal(rt.alloc(), members, rows, capacity, events)?,
            "{members}"
        );
    }
    Ok(())
}

// Whether the docket with this text has a journal by this number of workers, with these workers of the
// events.
fn has_workers(alloc: Global, input: &str, worker_count: u32, event_workers: &[u8]) -> bool {
    match read(alloc, input) {
        Ok(docket) => is_by_workers(&docket, worker_count, event_workers),
        Err(_) => false,
    }
}

// Whether the docket has a journal by this number of workers, with these workers of the events.
fn is_by_workers(docket: &Docket, worker_count: u32, event_workers: &[u8]) -> bool {
    match docket.journal() {
        Some(journal) => match &journal.by {
            Some(journal_workers) => journal_workers.workers == worker_count
                && journal_workers.who.as_slice() == event_workers,
            None => false,
        },
        None => false,
    }
}

// Whether a journal by worker is read with these members' rows, and is written unchanged.
fn keeps_journal_by_worker(
    alloc: Global,
    members: &str,
    journal: &str,
    worker_count: u32,
    event_workers: &[u8],
) -> Result<bool, AllocError> {
    let docket_text = joined(alloc, &[members, journal])?;
    Ok(
        has_workers(alloc, docket_text.as_str(), worker_count, event_workers)
            && writes_journal(alloc, docket_text.as_str(), journal),
    )
}

#[test]
fn keeps_journals_by_worker(rt: HostRuntime) -> Result<(), Fail> {
    let alloc = rt.alloc();
    let cases: [(&str, &[&str], u32, &[u8]); 4] = [
        (
            SMALL_DOCKET,
            &[EIGHT_EVENTS_BY_TWO, "E,close,0\n"],
            2,
            &[0, 1, 0, 1, 0, 1, 0, 1, 0],
        ),
        ("", &["C,full,1\n", "E,close,0\n"], 1, &[0]),
        ("", &["C,1024,8\n", "E,close,7\nE,close,3\n"], 8, &[7, 3]),
        ("", &["C,1,8\n"], 8, &[]),
    ];
    for (members, rows, worker_count, event_workers) in cases {
        let journal = joined(alloc, rows)?;
        assert!(rt;
            keeps_journal_by_worker(
                alloc,
                members,
                journal.as_str(),
                worker_count,
                event_workers
            )?
        );
    }
    Ok(())
}

#[test]
fn writes_sheets(rt: HostRuntime) {
    for (input, sheet) in [("", ""), (SHUFFLED, OTHER_SHEET), (CROWDED, CROWDED_SHEET)] {
        let mut written_bytes = Vec::new(rt.alloc());
        assert!(rt; read_and_write_sheet(rt.alloc(), input, &mut written_bytes) == Ok(()));
        assert!(rt; written_bytes.as_slice() == sheet.as_bytes(), "{sheet}");
    }
}

#[test]
fn a_writer_that_fails(rt: HostRuntime) -> Result<(), Fail> {
    let alloc = rt.alloc();
    let write_failed = Err(DocketFault::Write);
    // the writer accepts three bytes in each call; the sheet has 28 bytes, and the journal 129
    for (good_calls, expected_result) in [(0, write_failed), (9, write_failed), (10, Ok(()))] {
        let mut writer = CutWriter::new(Vec::new(alloc), good_calls);
        assert!(rt;
            read_and_write_sheet(alloc, SHUFFLED, &mut writer) == expected_result,
            "{good_calls}"
        );
    }
    let docket_text = joined(alloc, &[SMALL_DOCKET, FULL_CAPACITY, SMALL_JOURNAL])?;
    for (good_calls, expected_result) in [(0, write_failed), (42, write_failed), (43, Ok(()))] {
        let mut writer = CutWriter::new(Vec::new(alloc), good_calls);
        assert!(rt;
            read_and_write_journal(alloc, docket_text.as_str(), &mut writer) == expected_result,
            "{good_calls}"
        );
    }
    Ok(())
}

// What a writer gets of a row with two fields and of a programme's row.
fn gathered_rows(alloc: Global, docket: &Docket) -> Result<Vec<u8>, DocketFault> {
    let mut written_bytes = Vec::new(alloc);
    let mut room = room_for_rows(alloc)?;
    let mut rows = RowWriter::new(&mut written_bytes, &mut room);
    rows.push(&[b"U", b"x"])?;
    if A.0 < docket.instance().programmes() {
        push_programme(&mut rows, docket, b"O", A, 2)?;
    }
    rows.send()?;
    Ok(written_bytes)
}

// What `gathered_rows` gives for the docket with this text.
fn gathered_rows_of(alloc: Global, input: &str) -> Result<Vec<u8>, DocketFault> {
    match read(alloc, input) {
        Ok(docket) => gathered_rows(alloc, &docket),
        Err(fault) => Err(fault),
    }
}

#[test]
fn gathers_rows(rt: HostRuntime) {
    let rows = gathered_rows_of(rt.alloc(), SMALL_DOCKET);
    assert!(rt; rows.is_ok_and(|rows| rows.as_slice() == b"U,x\nO,a,2,1\n".as_slice()));
}
