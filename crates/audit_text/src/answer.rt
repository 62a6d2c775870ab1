//! How the answer of a replay is written.
ghost use Rattle.std.specs.Prelude.{◌≡◌, ◌≢◌, ◌++◌, ◌∷◌, [], ◌+◌, ◌<◌, ◌^◌, codes, decimal, option_copied, OnOk, IfErr};
ghost use Rattle.records.specs.RowText.{Adds, Writes, row};
ghost use Rattle.match_audit.specs.Replay.{NamesMember, RefusesMember, IsPendingMember};
ghost use Rattle.audit_text.specs.Answer.{replay_text, answer_fields, worker_row, worker_rows, count_rows, refusal_word as word_of, pending_fields, refused_fields, pending_word as kind_of, pending_name as name_of, event_count as count_of, fault_fields, IsAnswerOf};
ghost use Rattle.audit_text.specs.Serving.{IsWriteFault};

use docket::{Docket, DocketFault, RowWriter, WriteFailed, room_for_rows};
use exchange_core::{Pending, Refused};
use match_audit::{ReplayFault, Replayed};
use std::alloc::Global;
use std::io::Write;

// The word for the cause of a refused event.
fn refusal_word(refused: &Refused) -> &'static str
    ensures { result.now ≡ word_of refused.now }
{
    match refused {
        Refused::Closed => "closed",
        Refused::NoSuchDesk => "no-such-desk",
        Refused::NoPlace => "no-place",
        Refused::NotNext => "not-next",
        Refused::AnswerDue => "answer-due",
        Refused::NothingWaiting => "nothing-waiting",
        Refused::WrongFront => "wrong-front",
        Refused::NotDue => "not-due",
        Refused::MailboxFull => "mailbox-full",
        Refused::StillPending(_) => "still-pending",
    }
}

// The word for what is pending at a desk.
fn pending_word(pending: &Pending) -> &'static str
    ensures { result.now ≡ kind_of pending.now }
{
    match pending {
        Pending::Offers(_) => "offers",
        Pending::Due(_) => "due",
        Pending::Answers(_) => "answers",
        Pending::Wish(_) => "wish",
    }
}

// The name of the desk where something is pending.
fn pending_name<'a>(docket: &'a Docket, pending: &Pending) -> &'a str
    requires { IsPendingMember docket.now.instance pending.now }
    ensures { result.now ≡ name_of docket.now pending.now }
{
    match pending {
        Pending::Offers(resident) | Pending::Due(resident) => docket.resident_name(*resident),
        Pending::Answers(programme) | Pending::Wish(programme) => {
            docket.programme_name(*programme)
        }
    }
}

// How many events the docket's journal has.
fn event_count(docket: &Docket) -> usize
    ensures count { result ≡ count_of docket.now.journal }
    ensures within { result + 1 < 2 ^ 64 }
{
    match docket.journal() {
        Some(journal) => journal.events.len(),
        None => 0,
    }
}

// Adds the row of a fault that needs no more than a word.
fn push_word<W: Write>(
    rows: &mut RowWriter<'_, W>,
    event_digits: &[u8],
    word: &str,
) -> Result<(), WriteFailed>
    ensures { OnOk result
        (Adds W.contents rows.old rows.new (row (codes "N" ∷ event_digits.now ∷ word.now ∷ []))) }
{
    rows.push(&[b"N", event_digits, word.as_bytes()])
}

// Adds the row of a close that was refused because something is pending.
fn push_pending<W: Write>(
    rows: &mut RowWriter<'_, W>,
    event_digits: &[u8],
    kind_word: &str,
    desk_name: &str,
) -> Result<(), WriteFailed>
    ensures { OnOk result
        (Adds W.contents rows.old rows.new
        (row (pending_fields event_digits.now kind_word.now desk_name.now))) }
{
    rows.push(&[
        b"N",
        event_digits,
        b"still-pending",
        kind_word.as_bytes(),
        desk_name.as_bytes(),
    ])
}

// Adds the row of a refused event, with the cause.
fn push_refused<W: Write>(
    rows: &mut RowWriter<'_, W>,
    docket: &Docket,
    event_digits: &[u8],
    refused: &Refused,
) -> Result<(), WriteFailed>
    requires member { RefusesMember docket.now.instance refused.now }
    ensures { OnOk result (Adds W.contents rows.old rows.new
        (row (refused_fields docket.now event_digits.now refused.now))) }
{
    match refused {
        Refused::StillPending(pending) => {
            push_pending(
                rows,
                event_digits,
                pending_word(pending),
                pending_name(docket, pending),
            )
        }
        _ => push_word(rows, event_digits, refusal_word(refused)),
    }
}

// Adds the row of a replay's fault.
fn push_fault<W: Write>(
    rows: &mut RowWriter<'_, W>,
    docket: &Docket,
    fault: &ReplayFault,
) -> Result<(), WriteFailed>
    requires member { NamesMember docket.now.instance fault.now }
    ensures { OnOk result
        (Adds W.contents rows.old rows.new (row (fault_fields docket.now fault.now))) }
{
    let mut number_buffer = itoa::Buffer::new();
    match fault {
        ReplayFault::BadCapacity => push_word(rows, b"0", "bad-capacity"),
        ReplayFault::Memory => push_word(rows, b"0", "memory"),
        ReplayFault::At { place, refused } => {
            let event_digits = number_buffer.format(*place).as_bytes();
            push_refused(rows, docket, event_digits, refused)
        }
        ReplayFault::NotClosed => {
            let event_digits = number_buffer.format(event_count(docket) + 1).as_bytes();
            push_word(rows, event_digits, "not-closed")
        }
        ReplayFault::SheetDiffers(resident) => {
            rows.push(&[b"D", docket.resident_name(*resident).as_bytes()])
        }
    }
}

// Adds the row of a good replay.
fn push_good<W: Write>(rows: &mut RowWriter<'_, W>, events: usize) -> Result<(), WriteFailed>
    ensures { OnOk result
        (Adds W.contents rows.old rows.new (row (codes "G" ∷ decimal events ∷ []))) }
{
    let mut number_buffer = itoa::Buffer::new();
    let count_digits = number_buffer.format(events);
    rows.push(&[b"G", count_digits.as_bytes()])
}

// Adds the row of a replay's answer.
fn push_answer<W: Write>(
    rows: &mut RowWriter<'_, W>,
    docket: &Docket,
    replay_result: &Result<Replayed, ReplayFault>,
) -> Result<(), WriteFailed>
    requires member { IsAnswerOf docket.now replay_result.now }
    ensures { OnOk result
        (Adds W.contents rows.old rows.new (row (answer_fields docket.now replay_result.now))) }
{
    match replay_result {
        Ok(replayed) => push_good(rows, replayed.events),
        Err(fault) => push_fault(rows, docket, fault),
    }
}

// Adds the row with the number of a worker's events.
#[tactic(auto, unfolding(crate::specs::Answer::worker_row))]
fn push_worker<W: Write>(
    rows: &mut RowWriter<'_, W>,
    worker: usize,
    events: u64,
) -> Result<(), WriteFailed>
    ensures { OnOk result (Adds W.contents rows.old rows.new (worker_row worker events)) }
{
    let (mut worker_buffer, mut event_buffer) = (itoa::Buffer::new(), itoa::Buffer::new());
    let worker_digits = worker_buffer.format(worker);
    let count_digits = event_buffer.format(events);
    rows.push(&[b"K", worker_digits.as_bytes(), count_digits.as_bytes()])
}

// Adds a row for each worker, with the number of the worker's events.
fn push_workers<W: Write>(
    rows: &mut RowWriter<'_, W>,
    event_counts: &[u64],
) -> Result<(), WriteFailed>
    ensures { OnOk result (Adds W.contents rows.old rows.new (worker_rows 0 event_counts.now)) }
{
    for worker in 0..event_counts.len() {
        push_worker(rows, worker, event_counts[worker])?;
    }
    Ok(())
}

// Adds the rows after the row of a replay's answer: if the answer is good and there are counts, one for each worker.
#[tactic(auto, unfolding(crate::specs::Answer::count_rows))]
fn push_counts<W: Write>(
    rows: &mut RowWriter<'_, W>,
    replay_result: &Result<Replayed, ReplayFault>,
    event_counts: Option<&[u64]>,
) -> Result<(), WriteFailed>
    ensures { OnOk result
        (Adds W.contents rows.old rows.new
        (count_rows replay_result.now (option_copied event_counts.entry))) }
{
    match (replay_result, event_counts) {
        (Ok(_), Some(event_counts)) => push_workers(rows, event_counts),
        _ => Ok(()),
    }
}

// Adds the row of a replay's answer, and the rows with the workers' counts after it.
fn push_replay<W: Write>(
    rows: &mut RowWriter<'_, W>,
    docket: &Docket,
    replay_result: &Result<Replayed, ReplayFault>,
    event_counts: Option<&[u64]>,
) -> Result<(), WriteFailed>
    requires { IsAnswerOf docket.now replay_result.now }
    ensures { OnOk result (Adds W.contents rows.old rows.new
        (replay_text docket.now replay_result.now (option_copied event_counts.entry))) }
{
    push_answer(rows, docket, replay_result)?;
    push_counts(rows, replay_result, event_counts)
}

/// Writes the answer of a replay of the docket's journal, in one row. After a good answer, if `event_counts` are given,
/// a row for each worker says how many events this worker made.
///
/// The answer names only members of the docket. If the fault is not the writer's, nothing was written.
pub fn write_replay<W: Write>(
    alloc: Global,
    docket: &Docket,
    replay_result: &Result<Replayed, ReplayFault>,
    event_counts: Option<&[u64]>,
    writer: &mut W,
) -> Result<(), DocketFault>
    requires { IsAnswerOf docket.now replay_result.now }
    ensures ok { OnOk result (Writes W.contents writer.old writer.new
        (replay_text docket.now replay_result.now (option_copied event_counts.entry))) }
    ensures fault { IfErr result IsWriteFault }
    ensures before { IfErr result (λ fault. fault ≢ DocketFault.Write → writer.new ≡ writer.old) }
{
    let mut row_buffer = room_for_rows(alloc)?;
    let mut rows = RowWriter::new(writer, &mut row_buffer);
    push_replay(&mut rows, docket, replay_result, event_counts)?;
    rows.send()?;
    Ok(())
}
