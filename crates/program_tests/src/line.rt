//! Command lines, and the texts and exit statuses when the program refuses something.
use crate::commands::{MATCH, NARROW_MATCH_WITH_JOURNAL};
use docket::DocketFault;
use exchange_core::Capacity;
use match_pool::RunFault;
use residency::{
    JournalForm, LineFault, MatchOptions, Order, ServeFault, exit_status, line_status, read_line,
};
use std::alloc::Global;
use std::test::Fail;

#[test]
fn tells_faults(rt: HostRuntime) -> Result<(), Fail> {
    let alloc = rt.alloc();
    let cases = [
        (
            ServeFault::Docket(DocketFault::BadName { place: 4 }),
            "record 4: bad name",
        ),
        (
            ServeFault::Docket(DocketFault::Read { place: 9 }),
            "record 9: the input could not be read",
        ),
        (
            ServeFault::Docket(DocketFault::Write),
            "the output could not be written",
        ),
        (ServeFault::NoSheet, "no sheet in the docket"),
        (ServeFault::NoJournal, "no journal in the docket"),
        (ServeFault::Memory, "out of memory"),
    ];
    for (fault, fault_text) in cases {
        assert!(rt;
            fault.to_string(alloc)?.as_str() == fault_text,
            "{fault_text}"
        );
    }
    assert!(rt; LineFault::Memory.to_string(alloc)?.as_str() == "out of memory");
    assert!(rt; line_status(&LineFault::Memory) == 1);
    assert!(rt; exit_status(&Err(ServeFault::Memory)) == 1);
    assert!(rt; LineFault::BadCapacity.to_string(alloc)?.as_str() == "bad capacity");
    let run_fault = ServeFault::Run(RunFault::Thread);
    assert!(rt; run_fault.to_string(alloc)?.as_str() == "a worker could not be started");
    assert!(rt; exit_status(&Err(run_fault)) == 1);
    Ok(())
}

const MATCH_BY_ONE_WORKER: Order = Order::Match(MatchOptions {
    workers: 1,
    capacity: Capacity::Full,
    journal: JournalForm::Absent,
});

const MATCH_WITH_WORKER_JOURNAL: Order = Order::Match(MatchOptions {
    workers: 2,
    capacity: Capacity::Full,
    journal: JournalForm::ByWorker,
});

// What the command line's words ask the program to do, or the exit status of their fault.
fn order_of(alloc: Global, words: &[&str]) -> Result<Order, u8> {
    match read_line(alloc, words) {
        Ok(order) => Ok(order),
        Err(fault) => Err(line_status(&fault)),
    }
}

// Command lines, with what they ask the program to do, or with the exit status of their fault.
const COMMAND_LINES: [(&[&str], Result<Order, u8>); 21] = [
    (&["match"], Ok(MATCH)),
    (&["match", "--workers", "2"], Ok(MATCH)),
    (
        &["match", "--capacity", "1", "--journal"],
        Ok(NARROW_MATCH_WITH_JOURNAL),
    ),
    (&["match", "--capacity", "0"], Err(2)),
    (&["match", "--capacity", "1025"], Err(2)),
    (&["match", "--workers", "1"], Ok(MATCH_BY_ONE_WORKER)),
    (&["match", "--workers", "+1"], Ok(MATCH_BY_ONE_WORKER)),
    (&["match", "--workers", "0"], Err(2)),
    (
        &["match", "--journal-by-worker"],
        Ok(MATCH_WITH_WORKER_JOURNAL),
    ),
    (
        &["match", "--journal", "--journal-by-worker"],
        Ok(MATCH_WITH_WORKER_JOURNAL),
    ),
    (
        &["match", "--journal-by-worker", "--journal"],
        Ok(MATCH_WITH_WORKER_JOURNAL),
    ),
    (&["match", "--help"], Err(0)),
    (&["audit"], Ok(Order::Audit)),
    (&["replay"], Ok(Order::Replay)),
    (&[], Err(2)),
    (&["marry"], Err(2)),
    (&["match", "--workers", "9"], Err(2)),
    (&["match", "more"], Err(2)),
    (&["--help"], Err(0)),
    (&["audit", "--help"], Err(0)),
    (&["help", "audit"], Err(0)),
];

#[test]
fn reads_lines(rt: HostRuntime) {
    assert!(rt; MATCH == Order::Match(MatchOptions::default()));
    for (words, expected_order) in COMMAND_LINES {
        assert!(rt; order_of(rt.alloc(), words) == expected_order, "{words:?}");
    }
}
