//! What an audit writes about a docket's sheet, and what a replay writes about its journal.
ghost use Rattle.std.specs.Prelude.{◌≡◌, ◌≢◌, ℕ, length, option_copied, option_map, IfOk, IfErr, IfSome};
ghost use Rattle.std.specs.Global.{Vec};
ghost use Rattle.match_audit.specs.Report.{Reports};
ghost use Rattle.docket.specs.Whole.{IsByWorker};
ghost use Rattle.audit_text.specs.Serving.{WritesReport, WritesReplay, IsAuditFault, IsReplayFault, IsBeforeWriting, counts_in};

use crate::answer::write_replay;
use crate::fault::AnswerFault;
use crate::report::write_report;
use crate::status::Status;
use docket::{Docket, Journal};
use match_audit::{AuditFault, AuditReport, ReplayFault, audit, check, counts, replay};
use match_model::Assignment;
use std::alloc::Global;
use std::io::Write;

// The report of an audit of the docket's sheet. The only error is out of memory.
fn report_of(alloc: Global, docket: &Docket, sheet: &Assignment) -> Result<AuditReport, AnswerFault>
    requires { length sheet.now ≡ length docket.now.instance.resident_lists }
    ensures report { IfOk result (Reports docket.now.instance sheet.now) }
    ensures fault { IfErr result (λ fault. fault ≡ AnswerFault.Memory) }
{
    match audit(alloc, docket.instance(), sheet) {
        Ok(report) => Ok(report),
        Err(AuditFault::Memory) => Err(AnswerFault::Memory),
        Err(AuditFault::WrongSize) => unreachable!("a docket's sheet is by resident"),
    }
}

/// Writes what keeps a docket's sheet from being stable. If the fault is not the writer's, nothing was written.
pub fn audit_docket<W: Write>(
    alloc: Global,
    docket: &Docket,
    writer: &mut W,
) -> Result<Status, AnswerFault>
    ensures report { IfOk result (λ status.
        WritesReport docket.now status (W.contents writer.old) (W.contents writer.new)) }
    ensures fault { IfErr result (IsAuditFault docket.now) }
    ensures before { IfErr result (λ fault. IsBeforeWriting fault → writer.new ≡ writer.old) }
{
    let Some(sheet) = docket.sheet() else {
        return Err(AnswerFault::NoSheet);
    };
    // For the proof alone: the rankings of an instance are mutual and within the limits.
    let _instance = docket.instance().residents();
    let report = report_of(alloc, docket, sheet)?;
    match write_report(alloc, docket, &report, writer) {
        Ok(()) if report.is_stable() => Ok(Status::Stable),
        Ok(()) => Ok(Status::Unstable),
        Err(fault) => Err(AnswerFault::Docket(fault)),
    }
}

// How many events each worker made, if the journal is by worker. The only error is out of memory.
fn counts_of(alloc: Global, journal: &Journal) -> Result<Option<Vec<u64>>, AnswerFault>
    requires { IfSome journal.now.by (IsByWorker journal.now.events) }
    ensures counts { IfOk result (λ event_counts.
        option_map (λ (v : Vec ℕ). v.items) event_counts ≡ counts_in journal.now) }
    ensures fault { IfErr result (λ fault. fault ≡ AnswerFault.Memory) }
{
    let Some(by_worker) = &journal.by else {
        return Ok(None);
    };
    match counts(alloc, by_worker.workers, by_worker.who.as_slice()) {
        Ok(event_counts) => Ok(Some(event_counts)),
        Err(_) => Err(AnswerFault::Memory),
    }
}

// The workers' counts as a slice, if there are any.
fn counts_slice(event_counts: &Option<Vec<u64>>) -> Option<&[u64]>
    ensures { option_copied result ≡ option_map (λ (v : Vec ℕ). v.items) event_counts.now }
{
    match event_counts {
        Some(event_counts) => Some(event_counts.as_slice()),
        None => None,
    }
}

/// Writes whether a docket's journal is a good exchange. If there is a sheet, the answer also says whether the journal
/// leads to this sheet. If the fault is not the writer's, nothing was written.
pub fn replay_docket<W: Write>(
    alloc: Global,
    docket: &Docket,
    writer: &mut W,
) -> Result<Status, AnswerFault>
    ensures answer { IfOk result (λ status.
        WritesReplay docket.now status (W.contents writer.old) (W.contents writer.new)) }
    ensures fault { IfErr result (IsReplayFault docket.now) }
    ensures before { IfErr result (λ fault. IsBeforeWriting fault → writer.new ≡ writer.old) }
{
    let Some(journal) = docket.journal() else {
        return Err(AnswerFault::NoJournal);
    };
    let events = journal.events.as_slice();
    let replay_result = match docket.sheet() {
        Some(sheet) => check(alloc, docket.instance(), journal.capacity, events, sheet),
        None => replay(alloc, docket.instance(), journal.capacity, events),
    };
    if let Err(ReplayFault::Memory) = replay_result {
        return Err(AnswerFault::Memory);
    }
    let event_counts = counts_of(alloc, journal)?;
    match write_replay(
        alloc,
        docket,
        &replay_result,
        counts_slice(&event_counts),
        writer,
    ) {
        Ok(()) if replay_result.is_ok() => Ok(Status::ReplayGood),
        Ok(()) => Ok(Status::ReplayBad),
        Err(fault) => Err(AnswerFault::Docket(fault)),
    }
}
