//! Readers that fail or are interrupted, and writers that fail: what the commands report about them.
pub(super) mod broken;

use crate::commands::{MATCH, serve};
use crate::texts::{FULL_CAPACITY, SMALL_DOCKET, SMALL_JOURNAL, SMALL_SHEET, VERSION_2, joined};
use broken::{CutReader, CutWriter, InterruptedReader};
use docket::DocketFault;
use residency::{Order, ServeFault, Status, exit_status, serve_audit};
use std::alloc::Global;
use std::io;
use std::random::RandomSource;
use std::sync::Wait;
use std::test::Fail;
use std::thread::Threads;
use test_support::randomness::OneByte;

// Each command, with its status and its output for a docket with a settled sheet and a journal.
const ORDERS: [(Order, Status, &str); 3] = [
    (MATCH, Status::Closed, SMALL_SHEET),
    (Order::Audit, Status::Stable, "S,stable\n"),
    (Order::Replay, Status::ReplayGood, "G,9\n"),
];

// Whether a command reports that the reader fails after `good_bytes` bytes, names this record, and writes nothing.
fn tells_of_cut<H: Threads + Wait + RandomSource + Sync + Send + Copy>(
    rt: H,
    alloc: Global,
    order: Order,
    docket: &str,
    good_bytes: usize,
    record_number: u32,
) -> bool {
    let mut written_bytes = Vec::new(alloc);
    let status = serve(
        rt,
        alloc,
        order,
        CutReader::new(docket.as_bytes(), good_bytes),
        &mut written_bytes,
    );
    status
        == Err(ServeFault::Docket(DocketFault::Read {
            place: record_number,
        }))
        && written_bytes.is_empty()
        && exit_status(&status) == 1
}

// The first number of bytes after which the reader fails and the command doesn't report it.
fn first_unreported_cut<H: Threads + Wait + RandomSource + Sync + Send + Copy>(
    rt: H,
    alloc: Global,
    order: Order,
    docket: &str,
) -> Option<usize> {
    let mut record_number = 1;
    for (good_bytes, byte) in docket.as_bytes().iter().enumerate() {
        if !tells_of_cut(rt, alloc, order, docket, good_bytes, record_number) {
            return Some(good_bytes);
        }
        if *byte == b'\n' {
            record_number = record_number.saturating_add(1);
        }
    }
    if tells_of_cut(rt, alloc, order, docket, docket.len(), record_number) {
        None
    } else {
        Some(docket.len())
    }
}

#[test]
fn tells_of_broken_readers(rt: HostRuntime) -> Result<(), Fail> {
    let alloc = rt.alloc();
    let version_1 = joined(
        alloc,
        &[SMALL_DOCKET, FULL_CAPACITY, SMALL_JOURNAL, SMALL_SHEET],
    )?;
    let version_2 = joined(alloc, &[VERSION_2, version_1.as_str()])?;
    for docket in [version_1.as_str(), version_2.as_str()] {
        for (order, status, _) in ORDERS {
            assert!(rt; first_unreported_cut(rt, alloc, order, docket) == None);
            let reader = CutReader::new(docket.as_bytes(), usize::MAX);
            let mut written_bytes = Vec::new(alloc);
            assert!(rt; serve(rt, alloc, order, reader, &mut written_bytes) == Ok(status));
        }
    }
    Ok(())
}

// Whether a command reports that the writer fails after `good_calls` calls, and the writer got the beginning
// of the text.
fn tells_of_cut_output<H: Threads + Wait + RandomSource + Sync + Send + Copy>(
    rt: H,
    alloc: Global,
    order: Order,
    input: &str,
    wanted_output: &str,
    good_calls: usize,
) -> bool {
    let mut writer = CutWriter::new(Vec::new(alloc), good_calls);
    let status = serve(rt, alloc, order, input.as_bytes(), &mut writer);
    status == Err(ServeFault::Docket(DocketFault::Write))
        && exit_status(&status) == 1
        && wanted_output.as_bytes().starts_with(writer.accepted())
}

// Whether a writer that accepts everything gets the whole text.
fn writes_all<H: Threads + Wait + RandomSource + Sync + Send + Copy>(
    rt: H,
    alloc: Global,
    order: Order,
    input: &str,
    wanted_output: &str,
    wanted_status: Status,
    good_calls: usize,
) -> bool {
    let mut writer = CutWriter::new(Vec::new(alloc), good_calls);
    serve(rt, alloc, order, input.as_bytes(), &mut writer) == Ok(wanted_status)
        && writer.accepted() == wanted_output.as_bytes()
}

#[test]
fn tells_of_broken_writers(rt: HostRuntime) -> Result<(), Fail> {
    let alloc = rt.alloc();
    let input = joined(
        alloc,
        &[SMALL_DOCKET, FULL_CAPACITY, SMALL_JOURNAL, SMALL_SHEET],
    )?;
    for (order, status, wanted_output) in ORDERS {
        let call_count = wanted_output.len().div_ceil(3);
        for good_calls in 0..call_count {
            assert!(rt;
                tells_of_cut_output(rt, alloc, order, input.as_str(), wanted_output, good_calls),
                "{good_calls}"
            );
        }
        assert!(rt;
            writes_all(
                rt,
                alloc,
                order,
                input.as_str(),
                wanted_output,
                status,
                call_count
            )
        );
    }
    Ok(())
}

// A reader that has no bytes to give at once has failed. It isn't read again, since that would go on for ever.
#[test]
fn tells_of_a_reader_that_would_block(rt: HostRuntime) -> Result<(), Fail> {
    let alloc = rt.alloc();
    let stable_docket = joined(alloc, &[SMALL_DOCKET, SMALL_SHEET])?;
    for (good_bytes, record_number) in [(0, 1), (stable_docket.len(), 11)] {
        let reader = CutReader::failing(
            stable_docket.as_bytes(),
            good_bytes,
            io::ErrorKind::WouldBlock,
        );
        let mut written_bytes = Vec::new(alloc);
        let status = serve_audit(&OneByte(7), alloc, reader, &mut written_bytes);
        assert!(rt;
            status
                == Err(ServeFault::Docket(DocketFault::Read {
                    place: record_number
                }))
                && written_bytes.is_empty(),
            "{good_bytes}"
        );
    }
    Ok(())
}

const UNKNOWN_KIND: &str = "Q,a,1\nZ,b\n";

// Audits a docket. The reader is interrupted again and again, each time after this number of bytes.
fn audit(
    alloc: Global,
    docket: &str,
    interval: usize,
    written_bytes: &mut Vec<u8>,
) -> Result<Status, ServeFault> {
    let reader = InterruptedReader::new(docket.as_bytes(), interval);
    serve_audit(&OneByte(7), alloc, reader, written_bytes)
}

#[test]
fn reads_on_after_an_interruption(rt: HostRuntime) -> Result<(), Fail> {
    let stable_docket = joined(rt.alloc(), &[SMALL_DOCKET, SMALL_SHEET])?;
    let unknown_kind = ServeFault::Docket(DocketFault::UnknownKind { place: 2 });
    let cases = [
        (stable_docket.as_str(), Ok(Status::Stable), "S,stable\n"),
        (UNKNOWN_KIND, Err(unknown_kind), ""),
    ];
    for (docket, wanted_status, report) in cases {
        for interval in [1, 2, 7] {
            let mut written_bytes = Vec::new(rt.alloc());
            let status = audit(rt.alloc(), docket, interval, &mut written_bytes);
            assert!(rt;
                status == wanted_status && written_bytes.as_slice() == report.as_bytes(),
                "{report}"
            );
        }
    }
    Ok(())
}
