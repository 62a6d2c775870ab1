//! The calls of the audit and of the replay, and the calls that write their answers.
ghost use Rattle.std.specs.Prelude.{◌≡◌, length, IfOk, IfSome};
ghost use Rattle.docket.specs.Whole.{IsByWorker};
ghost use Rattle.audit_text.specs.Report.{IsReportOf};

use crate::dockets::{SMALL_DOCKET, SMALL_SHEET, docket_of, output_buffer};
use crate::outcome::{Outcome, mark_call_begin, mark_call_end};
use docket::{Docket, DocketFault, Journal};
use match_audit::{AuditFault, AuditReport, ReplayFault, Replayed, audit, check, counts, replay};
use match_model::{ProgrammeNo, ResidentNo};
use residency::{write_replay, write_report};
use std::alloc::{AllocError, Global};
use std::io::Write;
use test_support::events::{A, B, X, Y};

// The other stable sheet of the small docket, which is not the result of its match.
const OTHER_SHEET: &str = "M,x,b\nM,y,a\nF,a,1,1\nF,b,1,1\n";

// The small docket's journal of nine events.
const SMALL_JOURNAL: &str =
    "C,full\nE,offer,a,x\nE,offer,b,y\nE,take,x,a\nE,take,y,b\nE,answer,x,a,hold\nE,answer,y,b,hold\nE,hear,a,x,hold\nE,hear,b,y,hold\nE,close\n";

// The rows of the report about the sheet in `BLOCKED_DOCKET`.
const UNSTABLE_REPORT: &str = "S,unstable\nB,y,a\n";

// A docket whose sheet has a blocking pair.
const BLOCKED_DOCKET: &str = "Q,a,2\nP,a,x,y\nR,x,a\nR,y,a\nM,x,a\nU,y\nF,a,1,2\n";

// Whether the report has the blocking pair of the second resident and the only programme, and nothing else.
fn is_blocked(report: &AuditReport) -> bool {
    report.unacceptable.is_empty()
        && report.over.is_empty()
        && report.blocking.as_slice() == [(Y, A)].as_slice()
        && !report.is_stable()
}

/// Audits a sheet with a blocking pair.
pub(super) fn audit_blocked_sheet<W: Write>(alloc: Global, stdout: &mut W) -> Outcome {
    let Some(docket) = docket_of(alloc, &[BLOCKED_DOCKET]) else {
        return Outcome::Wrong;
    };
    let Some(sheet) = docket.sheet() else {
        return Outcome::Wrong;
    };
    mark_call_begin(stdout);
    let first_answer = audit(alloc, docket.instance(), sheet);
    mark_call_end(stdout);
    match first_answer {
        Ok(report) => Outcome::of_first_answer(is_blocked(&report)),
        Err(AuditFault::Memory) => match audit(alloc, docket.instance(), sheet) {
            Ok(report) => Outcome::after_memory_fault(is_blocked(&report)),
            Err(_) => Outcome::Wrong,
        },
        Err(_) => Outcome::Wrong,
    }
}

// The report about the sheet in `BLOCKED_DOCKET`: the second resident and the only programme form a blocking pair.
fn blocked_report(alloc: Global, docket: &Docket) -> Result<AuditReport, AllocError>
    requires residents { length docket.now.instance.resident_lists ≡ 2 }
    requires programmes { length docket.now.instance.quotas ≡ 1 }
    ensures { IfOk result (IsReportOf docket.now) }
{
    let mut blocking = Vec::new(alloc);
    blocking.push((ResidentNo(1), ProgrammeNo(0)))?;
    Ok(AuditReport {
        unacceptable: Vec::new(alloc),
        over: Vec::new(alloc),
        blocking,
    })
}

/// Writes the report about a sheet with a blocking pair.
pub(super) fn write_blocked_report<W: Write>(alloc: Global, stdout: &mut W) -> Outcome {
    let (Some(docket), Ok(mut written_bytes)) = (
        docket_of(alloc, &[BLOCKED_DOCKET]),
        output_buffer(alloc),
    ) else {
        return Outcome::Wrong;
    };
    let inst = docket.instance();
    if inst.programmes() != 1 || inst.residents() != 2 {
        return Outcome::Wrong;
    }
    let Ok(report) = blocked_report(alloc, &docket) else {
        return Outcome::Wrong;
    };
    mark_call_begin(stdout);
    let first_answer = write_report(alloc, &docket, &report, &mut written_bytes);
    mark_call_end(stdout);
    if first_answer == Err(DocketFault::Memory) {
        let is_unchanged = written_bytes.is_empty() && is_blocked(&report);
        let second_answer = write_report(alloc, &docket, &report, &mut written_bytes);
        let is_second_right = second_answer == Ok(())
            && written_bytes.as_slice() == UNSTABLE_REPORT.as_bytes();
        return Outcome::after_memory_fault(is_unchanged && is_second_right);
    }
    Outcome::of_first_answer(
        first_answer == Ok(()) && written_bytes.as_slice() == UNSTABLE_REPORT.as_bytes(),
    )
}

// Whether a replay found nine good events, which lead to the result of the small docket.
fn is_good(replay_answer: &Result<Replayed, ReplayFault>) -> bool {
    match replay_answer {
        Ok(replayed) => {
            replayed.events == 9
                && replayed.assignment.len() == 2
                && replayed.assignment.get(X) == Some(A)
                && replayed.assignment.get(Y) == Some(B)
        }
        Err(_) => false,
    }
}

// The answer of a replay of the docket's journal; `NotClosed` if there is no journal.
fn replay_of(alloc: Global, docket: &Docket) -> Result<Replayed, ReplayFault> {
    let Some(journal) = docket.journal() else {
        return Err(ReplayFault::NotClosed);
    };
    let events = journal.events.as_slice();
    replay(alloc, docket.instance(), journal.capacity, events)
}

/// Replays a journal.
pub(super) fn replay_small_journal<W: Write>(alloc: Global, stdout: &mut W) -> Outcome {
    let Some(docket) = docket_of(alloc, &[SMALL_DOCKET, SMALL_JOURNAL]) else {
        return Outcome::Wrong;
    };
    mark_call_begin(stdout);
    let first_answer = replay_of(alloc, &docket);
    mark_call_end(stdout);
    if matches!(first_answer, Err(ReplayFault::Memory)) {
        return Outcome::after_memory_fault(is_good(&replay_of(alloc, &docket)));
    }
    Outcome::of_first_answer(is_good(&first_answer))
}

/// Writes the answer of a replay.
pub(super) fn write_good_replay<W: Write>(alloc: Global, stdout: &mut W) -> Outcome {
    let (Some(docket), Ok(mut written_bytes)) = (
        docket_of(alloc, &[SMALL_DOCKET, SMALL_JOURNAL]),
        output_buffer(alloc),
    ) else {
        return Outcome::Wrong;
    };
    let Ok(replayed) = replay_of(alloc, &docket) else {
        return Outcome::Wrong;
    };
    let good_answer = Ok(replayed);
    mark_call_begin(stdout);
    let first_answer = write_replay(alloc, &docket, &good_answer, None, &mut written_bytes);
    mark_call_end(stdout);
    if first_answer == Err(DocketFault::Memory) {
        let is_unchanged = written_bytes.is_empty() && is_good(&good_answer);
        let second_answer = write_replay(alloc, &docket, &good_answer, None, &mut written_bytes);
        let is_second_right = second_answer == Ok(())
            && written_bytes.as_slice() == b"G,9\n".as_slice();
        return Outcome::after_memory_fault(is_unchanged && is_second_right);
    }
    Outcome::of_first_answer(
        first_answer == Ok(()) && written_bytes.as_slice() == b"G,9\n".as_slice(),
    )
}

// The answer of a check of the docket's journal against its sheet; `NotClosed` if the journal or the
// sheet is missing.
fn check_of(alloc: Global, docket: &Docket) -> Result<Replayed, ReplayFault> {
    let (Some(journal), Some(sheet)) = (docket.journal(), docket.sheet()) else {
        return Err(ReplayFault::NotClosed);
    };
    let events = journal.events.as_slice();
    check(alloc, docket.instance(), journal.capacity, events, sheet)
}

// Whether the answer is that the sheet differs for the first resident.
fn sheet_differs(check_answer: &Result<Replayed, ReplayFault>) -> bool {
    matches!(check_answer, Err(ReplayFault::SheetDiffers(X)))
}

/// Checks a journal against another sheet, and against its own sheet.
pub(super) fn check_two_sheets<W: Write>(alloc: Global, stdout: &mut W) -> Outcome {
    let (Some(other_docket), Some(own_docket)) = (
        docket_of(alloc, &[SMALL_DOCKET, SMALL_JOURNAL, OTHER_SHEET]),
        docket_of(alloc, &[SMALL_DOCKET, SMALL_JOURNAL, SMALL_SHEET]),
    ) else {
        return Outcome::Wrong;
    };
    mark_call_begin(stdout);
    let first_answer = check_of(alloc, &other_docket);
    mark_call_end(stdout);
    let is_own_sheet_good = is_good(&check_of(alloc, &own_docket));
    if matches!(first_answer, Err(ReplayFault::Memory)) {
        return Outcome::after_memory_fault(
            is_own_sheet_good && sheet_differs(&check_of(alloc, &other_docket)),
        );
    }
    Outcome::of_first_answer(is_own_sheet_good && sheet_differs(&first_answer))
}

// The small docket's journal with the worker of each event. There are two workers.
const JOURNAL_BY_WORKER: &str =
    "C,full,2\nE,offer,a,x,0\nE,offer,b,y,1\nE,take,x,a,0\nE,take,y,b,1\nE,answer,x,a,hold,0\nE,answer,y,b,hold,1\nE,hear,a,x,hold,0\nE,hear,b,y,hold,1\nE,close,0\n";

// How many events each worker made, if the journal is by worker.
fn counts_of(alloc: Global, journal: &Journal) -> Result<Vec<u64>, AuditFault>
    requires { IfSome journal.now.by (IsByWorker journal.now.events) }
{
    match &journal.by {
        Some(by_worker) => counts(alloc, by_worker.workers, by_worker.who.as_slice()),
        None => Err(AuditFault::WrongSize),
    }
}

/// Counts the events of two workers.
pub(super) fn count_by_worker<W: Write>(alloc: Global, stdout: &mut W) -> Outcome {
    let Some(docket) = docket_of(alloc, &[SMALL_DOCKET, JOURNAL_BY_WORKER]) else {
        return Outcome::Wrong;
    };
    let Some(journal) = docket.journal() else {
        return Outcome::Wrong;
    };
    mark_call_begin(stdout);
    let first_answer = counts_of(alloc, journal);
    mark_call_end(stdout);
    match first_answer {
        Ok(counts) => Outcome::of_first_answer(counts.as_slice() == [5, 4].as_slice()),
        Err(AuditFault::Memory) => match counts_of(alloc, journal) {
            Ok(counts) => Outcome::after_memory_fault(counts.as_slice() == [5, 4].as_slice()),
            Err(_) => Outcome::Wrong,
        },
        Err(_) => Outcome::Wrong,
    }
}
