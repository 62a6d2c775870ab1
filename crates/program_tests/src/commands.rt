//! The program's commands over texts, and their answers.
use crate::texts::{VERSION_2, joined, one_record_further};
use exchange_core::Capacity;
use match_pool::OpenGate;
use residency::{
    JournalForm, MatchOptions, Order, ServeFault, Status, exit_status, serve_audit, serve_match,
    serve_replay,
};
use std::alloc::{AllocError, Global};
use std::io::{Read, Write};
use std::random::RandomSource;
use std::sync::Wait;
use std::thread::Threads;

pub(super) const MATCH: Order = Order::Match(MatchOptions {
    workers: 2,
    capacity: Capacity::Full,
    journal: JournalForm::Absent,
});

pub(super) const NARROW_MATCH: Order = Order::Match(MatchOptions {
    workers: 2,
    capacity: Capacity::Each(1),
    journal: JournalForm::Absent,
});

pub(super) const NARROW_MATCH_WITH_JOURNAL: Order = Order::Match(MatchOptions {
    workers: 2,
    capacity: Capacity::Each(1),
    journal: JournalForm::Plain,
});

pub(super) const MATCH_WITH_JOURNAL: Order = Order::Match(MatchOptions {
    workers: 2,
    capacity: Capacity::Full,
    journal: JournalForm::Plain,
});

/// Does what a command line asks, over a reader and a writer.
pub(super) fn serve<
    R: Read + Drop,
    W: Write,
    H: Threads + Wait + RandomSource + Sync + Send + Copy,
>(rt: H, alloc: Global, order: Order, reader: R, writer: &mut W) -> Result<Status, ServeFault> {
    match order {
        Order::Match(options) => serve_match(rt, alloc, reader, writer, &options, &OpenGate),
        Order::Audit => serve_audit(&rt, alloc, reader, writer),
        Order::Replay => serve_replay(&rt, alloc, reader, writer),
    }
}

/// Whether a command over these texts gives this answer, writes this text, and ends with this exit status.
pub(super) fn serves<H: Threads + Wait + RandomSource + Sync + Send + Copy>(
    rt: H,
    alloc: Global,
    order: Order,
    docket: &[&str],
    outcome: (Result<Status, ServeFault>, &str, u8),
) -> Result<bool, AllocError> {
    let (wanted_status, wanted_text, wanted_exit) = outcome;
    let input = joined(alloc, docket)?;
    let mut written_bytes = Vec::new(alloc);
    let status = serve(rt, alloc, order, input.as_bytes(), &mut written_bytes);
    Ok(
        status == wanted_status
            && written_bytes.as_slice() == wanted_text.as_bytes()
            && exit_status(&status) == wanted_exit,
    )
}

// Whether an answer is the expected answer, except that the number of the record at fault is one
// higher.
fn is_one_record_further(
    alloc: Global,
    status: &Result<Status, ServeFault>,
    wanted_status: &Result<Status, ServeFault>,
) -> Result<bool, AllocError> {
    match (status, wanted_status) {
        (Err(fault), Err(wanted_fault)) => {
            let wanted_text = one_record_further(alloc, wanted_fault.to_string(alloc)?.as_str())?;
            Ok(fault.to_string(alloc)?.as_str() == wanted_text.as_str())
        }
        _ => Ok(status == wanted_status),
    }
}

/// Whether a command gives this answer over these texts, and also over the same texts in a docket of version
/// 2.
pub(super) fn serves_both<H: Threads + Wait + RandomSource + Sync + Send + Copy>(
    rt: H,
    alloc: Global,
    order: Order,
    docket: &[&str],
    outcome: (Result<Status, ServeFault>, &str, u8),
) -> Result<bool, AllocError> {
    let (wanted_status, wanted_text, wanted_exit) = outcome;
    let version_1 = joined(alloc, docket)?;
    let version_2 = joined(alloc, &[VERSION_2, version_1.as_str()])?;
    let mut written_bytes = Vec::new(alloc);
    let status = serve(rt, alloc, order, version_2.as_bytes(), &mut written_bytes);
    let serves_version_2 = is_one_record_further(alloc, &status, &wanted_status)?
        && written_bytes.as_slice() == wanted_text.as_bytes()
        && exit_status(&status) == wanted_exit;
    Ok(
        serves(
            rt,
            alloc,
            order,
            docket,
            (wanted_status, wanted_text, wanted_exit),
        )? && serves_version_2,
    )
}
