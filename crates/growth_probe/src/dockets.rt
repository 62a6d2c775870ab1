//! The calls of `docket`.
use crate::outcome::{Outcome, mark_call_begin, mark_call_end};
use docket::{
    Docket, DocketFault, read_docket, read_docket_with_lists, write_journal, write_sheet,
};
use match_model::WrittenLists;
use std::alloc::{AllocError, Global};
use std::io::Write;
use test_support::events::{B, Y};
use test_support::randomness::OneByte;

/// Two programmes with one place each, and two residents. The residents rank the programmes in the opposite order to
/// the programmes' own rankings.
pub(super) const SMALL_DOCKET: &str = "Q,a,1\nQ,b,1\nP,a,x,y\nP,b,y,x\nR,x,b,a\nR,y,a,b\n";

/// The sheet that a match of `SMALL_DOCKET` writes.
pub(super) const SMALL_SHEET: &str = "M,x,a\nM,y,b\nF,a,1,1\nF,b,1,1\n";

/// A buffer for the output, made before growths of memory are counted.
pub(super) fn output_buffer(alloc: Global) -> Result<Vec<u8>, AllocError> {
    Vec::with_capacity(alloc, 4_096)
}

/// These texts as one text, one after another.
pub(super) fn joined(alloc: Global, docket_parts: &[&str]) -> Result<Vec<u8>, AllocError> {
    let mut joined_bytes = Vec::new(alloc);
    for part in docket_parts {
        joined_bytes.extend_from_slice(part.as_bytes())?;
    }
    Ok(joined_bytes)
}

/// The docket in these texts, read with enough memory.
pub(super) fn docket_of(alloc: Global, docket_parts: &[&str]) -> Option<Docket> {
    let docket_text = joined(alloc, docket_parts).ok()?;
    read_docket(&OneByte(7), alloc, docket_text.as_slice()).ok()
}

// Whether this is the docket of `SMALL_DOCKET`.
fn is_small(docket: &Docket) -> bool {
    let inst = docket.instance();
    inst.programmes() == 2
        && inst.residents() == 2
        && inst.pairs() == 4
        && docket.programme_name(B) == "b"
        && docket.resident_name(Y) == "y"
}

/// Reads a docket.
pub(super) fn read<W: Write>(alloc: Global, stdout: &mut W) -> Outcome {
    mark_call_begin(stdout);
    let first_answer = read_docket(&OneByte(7), alloc, SMALL_DOCKET.as_bytes());
    mark_call_end(stdout);
    match first_answer {
        Ok(docket) => Outcome::of_first_answer(is_small(&docket)),
        Err(DocketFault::Memory) => match read_docket(&OneByte(7), alloc, SMALL_DOCKET.as_bytes()) {
            Ok(docket) => Outcome::after_memory_fault(is_small(&docket)),
            Err(_) => Outcome::Wrong,
        },
        Err(_) => Outcome::Wrong,
    }
}

// Whether this is the docket of `SMALL_DOCKET` with its lists.
fn is_small_with_lists(docket: &Docket, written_lists: &WrittenLists) -> bool {
    is_small(docket)
        && written_lists.choice(Y, 1) == Some(B)
        && written_lists.rank_of_resident(B, Y) == Some(0)
}

/// Reads a docket with its lists.
pub(super) fn read_with_lists<W: Write>(alloc: Global, stdout: &mut W) -> Outcome {
    mark_call_begin(stdout);
    let first_answer = read_docket_with_lists(&OneByte(7), alloc, SMALL_DOCKET.as_bytes());
    mark_call_end(stdout);
    match first_answer {
        Ok((docket, written_lists)) => Outcome::of_first_answer(is_small_with_lists(
            &docket,
            &written_lists,
        )),
        Err(DocketFault::Memory) => {
            match read_docket_with_lists(&OneByte(7), alloc, SMALL_DOCKET.as_bytes()) {
                Ok((docket, written_lists)) => Outcome::after_memory_fault(is_small_with_lists(
                    &docket,
                    &written_lists,
                )),
                Err(_) => Outcome::Wrong,
            }
        }
        Err(_) => Outcome::Wrong,
    }
}

/// Writes a sheet.
pub(super) fn write_small_sheet<W: Write>(alloc: Global, stdout: &mut W) -> Outcome {
    let (Some(docket), Ok(mut written_bytes)) = (
        docket_of(alloc, &[SMALL_DOCKET, SMALL_SHEET]),
        output_buffer(alloc),
    ) else {
        return Outcome::Wrong;
    };
    let Some(sheet) = docket.sheet() else {
        return Outcome::Wrong;
    };
    mark_call_begin(stdout);
    let first_answer = write_sheet(alloc, &docket, sheet, &mut written_bytes);
    mark_call_end(stdout);
    if first_answer == Err(DocketFault::Memory) {
        let is_unchanged = written_bytes.is_empty() && is_small(&docket);
        let second_answer = write_sheet(alloc, &docket, sheet, &mut written_bytes);
        let is_second_right = second_answer == Ok(())
            && written_bytes.as_slice() == SMALL_SHEET.as_bytes();
        return Outcome::after_memory_fault(is_unchanged && is_second_right);
    }
    Outcome::of_first_answer(
        first_answer == Ok(()) && written_bytes.as_slice() == SMALL_SHEET.as_bytes(),
    )
}

const CLOSED_JOURNAL: &str = "C,full\nE,close\n";

/// Writes a journal.
pub(super) fn write_closed_journal<W: Write>(alloc: Global, stdout: &mut W) -> Outcome {
    let (Some(docket), Ok(mut written_bytes)) = (
        docket_of(alloc, &[CLOSED_JOURNAL]),
        output_buffer(alloc),
    ) else {
        return Outcome::Wrong;
    };
    let Some(journal) = docket.journal() else {
        return Outcome::Wrong;
    };
    let events = journal.events.as_slice();
    mark_call_begin(stdout);
    let first_answer = write_journal(
        alloc,
        &docket,
        journal.capacity,
        events,
        None,
        &mut written_bytes,
    );
    mark_call_end(stdout);
    if first_answer == Err(DocketFault::Memory) {
        let is_unchanged = written_bytes.is_empty() && events.len() == 1;
        let second_answer = write_journal(
            alloc,
            &docket,
            journal.capacity,
            events,
            None,
            &mut written_bytes,
        );
        let is_second_right = second_answer == Ok(())
            && written_bytes.as_slice() == CLOSED_JOURNAL.as_bytes();
        return Outcome::after_memory_fault(is_unchanged && is_second_right);
    }
    Outcome::of_first_answer(
        first_answer == Ok(()) && written_bytes.as_slice() == CLOSED_JOURNAL.as_bytes(),
    )
}
