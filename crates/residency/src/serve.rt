//! The calls that read a docket's bytes and write an answer's bytes.
ghost use Rattle.std.specs.Prelude.{◌≡◌, ◌≢◌, ℕ, List, Some, false, IfOk, IfErr, OnOk};
ghost use Rattle.std.specs.List.{All};
ghost use Rattle.records.specs.RowText.{Adds, Writes};
ghost use Rattle.docket.specs.Whole.{IsSheetOf, NamesMembers, IsByWorker};
ghost use Rattle.audit_text.specs.Serving.{IsWriteFault};
ghost use Rattle.residency.specs.Serving.{WritesMatch, wanted_match, wanted_journal, WritesReport, WritesReplay, IsMatchFault, IsAuditFault, IsReplayFault, AreDocket, IsFaultOf, IsBeforeWriting, IsAnswerWithin, IsOrderFault, Serves};

use crate::fault::{LimitsFault, ServeFault};
use crate::spent::SpentMemory;
use crate::status::Status;
use audit_text::{audit_docket, replay_docket};
use command_line::{JournalForm, MatchOptions, Order};
use docket::{
    ByWorker, Docket, DocketFault, RowWriter, WriteFailed, push_journal, push_sheet, read_docket,
    read_docket_within, room_for_rows,
};
use exchange_core::Event;
use match_model::{Assignment, Limits};
use match_pool::{Ending, Gate, run};
use settle_law::law_one_settled;
use std::alloc::Global;
use std::io::{Read, Write};
use std::random::RandomSource;
use std::sync::Wait;
use std::thread::Threads;

// Adds the journal of an exchange, in the form that the options ask for.
fn push_wanted_journal<W: Write>(
    rows: &mut RowWriter<'_, W>,
    docket: &Docket,
    journal: &[Event],
    by_worker: &ByWorker,
    options: &MatchOptions,
) -> Result<(), WriteFailed>
    requires journal { All (NamesMembers docket.now.instance) journal.now }
    requires by { IsByWorker journal.now by_worker.now }
    ensures { OnOk result (Adds W.contents rows.old rows.new
        (wanted_journal docket.now options.now journal.now by_worker.now)) }
{
    match options.journal {
        JournalForm::Absent => Ok(()),
        JournalForm::Plain => push_journal(rows, docket, options.capacity, journal, None),
        JournalForm::ByWorker => {
            push_journal(rows, docket, options.capacity, journal, Some(by_worker))
        }
    }
}

// Writes the sheet of a closed exchange over the docket, and the journal if the options ask for it. The sheet and the
// journal go through one buffer, which is made before the first byte is written. So if memory runs out, nothing is half
// written.
fn write_match<W: Write>(
    alloc: Global,
    docket: &Docket,
    assignment: &Assignment,
    journal: &[Event],
    by_worker: &ByWorker,
    options: &MatchOptions,
    writer: &mut W,
) -> Result<(), DocketFault>
    requires sheet { IsSheetOf docket.now assignment.now }
    requires journal { All (NamesMembers docket.now.instance) journal.now }
    requires by { IsByWorker journal.now by_worker.now }
    ensures text { OnOk result (Writes W.contents writer.old writer.new
        (wanted_match docket.now options.now assignment.now journal.now by_worker.now)) }
    ensures fault { IfErr result IsWriteFault }
    ensures before { IfErr result (λ fault. fault ≢ DocketFault.Write → writer.new ≡ writer.old) }
{
    let mut row_buffer = room_for_rows(alloc)?;
    let mut rows = RowWriter::new(writer, &mut row_buffer);
    push_sheet(alloc, &mut rows, docket, assignment)?;
    push_wanted_journal(&mut rows, docket, journal, by_worker, options)?;
    rows.send()?;
    Ok(())
}

// Runs the exchange over a docket to its close. Writes the sheet, and the journal if the options ask for it.
fn match_docket<W, G, H>(
    rt: H,
    alloc: Global,
    docket: &Docket,
    writer: &mut W,
    options: &MatchOptions,
    gate: &G,
    spent_memory: SpentMemory,
) -> Result<Status, ServeFault>
where
    W: Write,
    G: Gate + Sync,
    H: Threads + Wait + Sync + Send + Copy,
    requires { G.MAY_STOP ≡ false }
    ensures status { IfOk result (λ status. status ≡ Status.Closed) }
    ensures text { OnOk result
        (WritesMatch docket.now options.now (W.contents writer.old) (W.contents writer.new)) }
    ensures fault { IfErr result (IsMatchFault options.now docket.now) }
    ensures before { IfErr result (λ fault. IsBeforeWriting fault → writer.new ≡ writer.old) }
{
    law_one_settled();
    let inst = docket.instance();
    // For the proof alone: the rankings of an instance are mutual and within the limits.
    let _instance = inst.residents();
    let finished_run = match run(rt, alloc, inst, options.capacity, options.workers, gate) {
        Ok(finished_run) => finished_run,
        Err(fault) => return Err(ServeFault::Run(fault)),
    };
    match finished_run.ending {
        Ending::Closed => {}
        Ending::Stopped => unreachable!("the gate may not stop a run"),
    }
    spent_memory.let_go(finished_run.ends);
    let by_worker = ByWorker {
        workers: options.workers as u32,
        who: finished_run.who,
    };
    match write_match(
        alloc,
        docket,
        &finished_run.assignment,
        &finished_run.journal,
        &by_worker,
        options,
        writer,
    ) {
        Ok(()) => Ok(Status::Closed),
        Err(fault) => Err(ServeFault::Docket(fault)),
    }
}

// Writes what keeps a docket's sheet from being stable.
fn write_audit<W: Write>(
    alloc: Global,
    docket: &Docket,
    writer: &mut W,
) -> Result<Status, ServeFault>
    ensures report { IfOk result (λ status.
        WritesReport docket.now status (W.contents writer.old) (W.contents writer.new)) }
    ensures fault { IfErr result (IsAuditFault docket.now) }
    ensures before { IfErr result (λ fault. IsBeforeWriting fault → writer.new ≡ writer.old) }
{
    match audit_docket(alloc, docket, writer) {
        Ok(status) => Ok(Status::from(status)),
        Err(fault) => Err(ServeFault::from(fault)),
    }
}

// Writes whether a docket's journal is a good exchange. If there is a sheet, the answer also says whether the journal
// leads to this sheet.
fn write_replay_result<W: Write>(
    alloc: Global,
    docket: &Docket,
    writer: &mut W,
) -> Result<Status, ServeFault>
    ensures answer { IfOk result (λ status.
        WritesReplay docket.now status (W.contents writer.old) (W.contents writer.new)) }
    ensures fault { IfErr result (IsReplayFault docket.now) }
    ensures before { IfErr result (λ fault. IsBeforeWriting fault → writer.new ≡ writer.old) }
{
    match replay_docket(alloc, docket, writer) {
        Ok(status) => Ok(Status::from(status)),
        Err(fault) => Err(ServeFault::from(fault)),
    }
}

/// Reads a docket within the standard limits, runs its exchange to the close by threads, and writes its sheet. If the
/// options ask for the journal, the journal of this run follows. The gate never stops a run.
///
/// A sheet or a journal in the docket is read and must be well formed, but is not used. No byte is written before the
/// exchange has closed.
pub fn serve_match<R, W, G, H>(
    rt: H,
    alloc: Global,
    reader: R,
    writer: &mut W,
    options: &MatchOptions,
    gate: &G,
) -> Result<Status, ServeFault>
where
    R: Read + Drop,
    W: Write,
    G: Gate + Sync,
    H: Threads + Wait + RandomSource + Sync + Send + Copy,
    requires { G.MAY_STOP ≡ false }
    ensures status { IfOk result (λ status. status ≡ Status.Closed) }
    ensures text { OnOk result ((bytes : List ℕ)
        → R.remaining reader ≡ Some bytes → AreDocket (λ docket.
        WritesMatch docket options.now (W.contents writer.old) (W.contents writer.new)) bytes) }
    ensures fault { IfErr result (λ fault. (bytes : List ℕ)
        → R.remaining reader ≡ Some bytes → IsFaultOf (IsMatchFault options.now) bytes fault) }
    ensures before { IfErr result (λ fault. IsBeforeWriting fault → writer.new ≡ writer.old) }
{
    match read_docket(&rt, alloc, reader) {
        Ok(docket) => match_docket(
            rt,
            alloc,
            &docket,
            writer,
            options,
            gate,
            SpentMemory::GivenBack,
        ),
        Err(fault) => Err(ServeFault::Docket(fault)),
    }
}

/// Reads a docket within the standard limits, and writes what keeps its sheet from being stable.
///
/// A journal in the docket is read and must be well formed, but is not used.
pub fn serve_audit<R: Read + Drop, W: Write, H: RandomSource>(
    rt: &H,
    alloc: Global,
    reader: R,
    writer: &mut W,
) -> Result<Status, ServeFault>
    ensures report { IfOk result (λ status. (bytes : List ℕ)
        → R.remaining reader ≡ Some bytes → AreDocket (λ docket.
        WritesReport docket status (W.contents writer.old) (W.contents writer.new)) bytes) }
    ensures fault { IfErr result (λ fault. (bytes : List ℕ)
        → R.remaining reader ≡ Some bytes → IsFaultOf IsAuditFault bytes fault) }
    ensures before { IfErr result (λ fault. IsBeforeWriting fault → writer.new ≡ writer.old) }
{
    match read_docket(rt, alloc, reader) {
        Ok(docket) => write_audit(alloc, &docket, writer),
        Err(fault) => Err(ServeFault::Docket(fault)),
    }
}

/// Reads a docket within the standard limits, and writes whether its journal is a good exchange. If the docket has a
/// sheet, the answer also says whether the journal leads to this sheet.
pub fn serve_replay<R: Read + Drop, W: Write, H: RandomSource>(
    rt: &H,
    alloc: Global,
    reader: R,
    writer: &mut W,
) -> Result<Status, ServeFault>
    ensures answer { IfOk result (λ status. (bytes : List ℕ)
        → R.remaining reader ≡ Some bytes → AreDocket (λ docket.
        WritesReplay docket status (W.contents writer.old) (W.contents writer.new)) bytes) }
    ensures fault { IfErr result (λ fault. (bytes : List ℕ)
        → R.remaining reader ≡ Some bytes → IsFaultOf IsReplayFault bytes fault) }
    ensures before { IfErr result (λ fault. IsBeforeWriting fault → writer.new ≡ writer.old) }
{
    match read_docket(rt, alloc, reader) {
        Ok(docket) => write_replay_result(alloc, &docket, writer),
        Err(fault) => Err(ServeFault::Docket(fault)),
    }
}

// Does what a command line asks, over a docket. A match leaves the memory of the mailboxes and of the agents to the
// operating system.
fn serve_docket<W, G, H>(
    rt: H,
    alloc: Global,
    order: &Order,
    docket: &Docket,
    writer: &mut W,
    gate: &G,
) -> Result<Status, ServeFault>
where
    H: Threads + Wait + Sync + Send + Copy,
    G: Gate + Sync,
    W: Write,
    requires { G.MAY_STOP ≡ false }
    ensures served { IfOk result (λ status. Serves order.now docket.now status
        (W.contents writer.old) (W.contents writer.new)) }
    ensures fault { IfErr result (IsOrderFault order.now docket.now) }
    ensures before { IfErr result (λ fault. IsBeforeWriting fault → writer.new ≡ writer.old) }
{
    match order {
        Order::Match(options) => {
            let spent_memory = SpentMemory::LeftToTheSystem;
            match_docket(rt, alloc, docket, writer, options, gate, spent_memory)
        }
        Order::Audit => write_audit(alloc, docket, writer),
        Order::Replay => write_replay_result(alloc, docket, writer),
    }
}

// What happens to the memory that an order took.
fn memory_spent_by(order: &Order) -> SpentMemory {
    match order {
        Order::Match(_) => SpentMemory::LeftToTheSystem,
        Order::Audit | Order::Replay => SpentMemory::GivenBack,
    }
}

/// Does what a command line asks, within these limits, for a program that ends right afterwards. A match leaves its
/// memory to the operating system instead of freeing it piece by piece, since that is faster. The gate never stops a
/// run. The reader's buffers in its frame would stay on the stack if the function were inlined.
#[inline(never)]
pub fn serve_within<R, W, G, H>(
    rt: H,
    alloc: Global,
    limits: Limits,
    order: &Order,
    reader: R,
    writer: &mut W,
    gate: &G,
) -> Result<Status, LimitsFault>
where
    R: Read + Drop,
    W: Write,
    G: Gate + Sync,
    H: Threads + Wait + RandomSource + Sync + Send + Copy,
    requires { G.MAY_STOP ≡ false }
    ensures answer { (bytes : List ℕ)
        → R.remaining reader ≡ Some bytes → IsAnswerWithin limits order.now bytes
        (W.contents writer.old) (W.contents writer.new) result }
{
    let docket = match read_docket_within(&rt, alloc, limits, reader) {
        Ok(docket) => docket,
        Err(fault) => return Err(LimitsFault::Reading(fault)),
    };
    let call_result = serve_docket(rt, alloc, order, &docket, writer, gate);
    memory_spent_by(order).let_go(docket);
    match call_result {
        Ok(status) => Ok(status),
        Err(fault) => Err(LimitsFault::Serving(fault)),
    }
}
