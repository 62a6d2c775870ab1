//! From the bytes of three files to the bytes of an answer.
ghost use Rattle.std.specs.Prelude.{◌≡◌, ◌≢◌, ℕ, [], Some, List, IfOk, IfErr, option_copied, unwrap_or};
ghost use Rattle.std.specs.Io.KnownBytes.{Appends};
ghost use Rattle.records.specs.Lines.{Grows};
ghost use Rattle.audit_text.specs.Serving.{WritesReport, WritesReplay};
ghost use Rattle.audit_files.specs.Rows.{facts_if, result_row};
ghost use Rattle.audit_files.specs.Answer.{Replays, Tells, AnswersFiles, IsAnswerFault, IsServingFault, TellsFirst, verdict_of};

use crate::facts::put_facts;
use crate::fault::FilesFault;
use crate::reading::read_files;
use crate::rows::put_result;
use audit_text::{AnswerFault, Status, audit_docket, replay_docket};
use docket::Docket;
use match_audit::first_unlike_result;
use match_model::ResidentNo;
use std::alloc::Global;
use std::io::Write;
use std::random::RandomSource;

/// What an audit over files found.
#[derive(Clone, Copy, Debug, PartialEq, Eq)]
pub enum Verdict {
    /// The sheet is stable and is the match's result. If there is a journal, it is a good exchange and leads to the
    /// sheet.
    Good,
    /// The sheet or the journal is not good.
    Bad,
}

// Adds the rows of an audit.
fn add_audit(
    alloc: Global,
    docket: &Docket,
    answer_text: &mut Vec<u8>,
) -> Result<Status, FilesFault>
    ensures report { IfOk result (λ status.
        WritesReport docket.now status (Some answer_text.old.items) (Some answer_text.new.items)) }
    ensures fault { IfErr result (IsAnswerFault docket.now) }
{
    match audit_docket(alloc, docket, answer_text) {
        Ok(status) => Ok(status),
        Err(AnswerFault::NoSheet) => Err(FilesFault::NoSheet),
        Err(_) => Err(FilesFault::Memory),
    }
}

// Adds the row that says whether the sheet is the match's result.
fn add_result(
    alloc: Global,
    docket: &Docket,
    answer_text: &mut Vec<u8>,
) -> Result<Option<ResidentNo>, FilesFault>
    ensures first { IfOk result (TellsFirst docket.now) }
    ensures text { IfOk result (λ differing_resident. Grows answer_text.old answer_text.new
        (result_row docket.now differing_resident)) }
    ensures fault { IfErr result (IsAnswerFault docket.now) }
{
    let Some(sheet) = docket.sheet() else {
        return Err(FilesFault::NoSheet);
    };
    let Ok(differing_resident) = first_unlike_result(alloc, docket.instance(), sheet) else {
        return Err(FilesFault::Memory);
    };
    let same_resident = differing_resident;
    match put_result(answer_text, docket, differing_resident) {
        Ok(()) => Ok(same_resident),
        Err(_) => Err(FilesFault::Memory),
    }
}

// Adds the rows of a replay.
fn add_replay(
    alloc: Global,
    docket: &Docket,
    answer_text: &mut Vec<u8>,
) -> Result<Status, FilesFault>
    ensures answer { IfOk result (λ status.
        WritesReplay docket.now status (Some answer_text.old.items) (Some answer_text.new.items)) }
    ensures fault { IfErr result (IsAnswerFault docket.now) }
{
    match replay_docket(alloc, docket, answer_text) {
        Ok(status) => Ok(status),
        Err(AnswerFault::NoJournal) => Err(FilesFault::NoJournal),
        Err(_) => Err(FilesFault::Memory),
    }
}

// Adds the rows of a replay, if there is a journal.
fn add_replay_if(
    alloc: Global,
    docket: &Docket,
    journal: Option<&[u8]>,
    answer_text: &mut Vec<u8>,
) -> Result<Option<Status>, FilesFault>
    ensures answer { IfOk result (λ status.
        Replays docket.now (option_copied journal.entry) answer_text.old.items status
        answer_text.new.items) }
    ensures fault { IfErr result (IsAnswerFault docket.now) }
{
    match journal {
        None => Ok(None),
        Some(_) => match add_replay(alloc, docket, answer_text) {
            Ok(status) => Ok(Some(status)),
            Err(fault) => Err(fault),
        },
    }
}

// The verdict from the audit, from the comparison with the result, and from the replay.
fn verdict_on(
    audit_status: Status,
    differing_resident: Option<ResidentNo>,
    replay_status: Option<Status>,
) -> Verdict
    ensures { result ≡ verdict_of audit_status differing_resident replay_status }
{
    match (audit_status, differing_resident, replay_status) {
        (Status::Stable, None, None | Some(Status::ReplayGood)) => Verdict::Good,
        _ => Verdict::Bad,
    }
}

// Adds all rows about a docket, except the rows of facts.
fn add_answer(
    alloc: Global,
    docket: &Docket,
    journal: Option<&[u8]>,
    answer_text: &mut Vec<u8>,
) -> Result<Verdict, FilesFault>
    ensures answer { IfOk result (λ verdict.
        Tells docket.now (option_copied journal.entry) answer_text.old.items verdict
        answer_text.new.items) }
    ensures fault { IfErr result (IsAnswerFault docket.now) }
{
    let audit_status = match add_audit(alloc, docket, answer_text) {
        Ok(audit_status) => audit_status,
        Err(fault) => return Err(fault),
    };
    let differing_resident = match add_result(alloc, docket, answer_text) {
        Ok(differing_resident) => differing_resident,
        Err(fault) => return Err(fault),
    };
    let replay_status = match add_replay_if(alloc, docket, journal, answer_text) {
        Ok(replay_status) => replay_status,
        Err(fault) => return Err(fault),
    };
    Ok(verdict_on(audit_status, differing_resident, replay_status))
}

// The text of the facts if the facts are asked for, else an empty text.
fn facts_of(
    alloc: Global,
    wants_facts: bool,
    docket: &Docket,
    docket_bytes: &[u8],
    sheet: &[u8],
    journal: Option<&[u8]>,
) -> Result<Vec<u8>, FilesFault>
    ensures text { IfOk result (λ text. text.items ≡ facts_if
        wants_facts docket.now docket_bytes.now sheet.now (option_copied journal.entry)) }
    ensures fault { IfErr result (λ fault. fault ≡ FilesFault.Memory) }
{
    let mut text = Vec::new(alloc);
    if wants_facts {
        let Ok(()) = put_facts(alloc, &mut text, docket, docket_bytes, sheet, journal) else {
            return Err(FilesFault::Memory);
        };
    }
    Ok(text)
}

// The bytes of a file, or no bytes if there is no file.
fn bytes_of(file: Option<&[u8]>) -> &[u8]
    ensures { result.now ≡ unwrap_or (option_copied file.entry) [] }
{
    match file {
        Some(bytes) => bytes,
        None => &[],
    }
}

/// Audits a sheet against a docket from another file, and compares the sheet with the match's result. If there is a
/// journal, the journal is replayed. Each file is read as its own part. The whole answer is made before the first byte
/// is written.
///
/// If the facts are asked for, they come first: the SHA-256 of each file, the numbers of members, and the withdrawn
/// members.
pub fn serve_files<W: Write, H: RandomSource>(
    rt: &H,
    alloc: Global,
    wants_facts: bool,
    docket: &[u8],
    sheet: &[u8],
    journal: Option<&[u8]>,
    writer: &mut W,
) -> Result<Verdict, FilesFault>
    ensures answer { IfOk result (λ verdict. (text : List ℕ)
        × AnswersFiles wants_facts docket.now sheet.now (option_copied journal.entry) verdict text
        × Appends (W.contents writer.old) (W.contents writer.new) text) }
    ensures fault { IfErr result
        (IsServingFault docket.now sheet.now (option_copied journal.entry)) }
    ensures before { IfErr result (λ fault. fault ≢ FilesFault.Write → writer.new ≡ writer.old) }
{
    let read_docket = match read_files(rt, alloc, docket, sheet, bytes_of(journal)) {
        Ok(read_docket) => read_docket,
        Err(fault) => return Err(fault),
    };
    let mut text = match facts_of(alloc, wants_facts, &read_docket, docket, sheet, journal) {
        Ok(text) => text,
        Err(fault) => return Err(fault),
    };
    let verdict = match add_answer(alloc, &read_docket, journal, &mut text) {
        Ok(verdict) => verdict,
        Err(fault) => return Err(fault),
    };
    match writer.write_all(text.as_slice()) {
        Ok(()) => Ok(verdict),
        Err(_) => Err(FilesFault::Write),
    }
}
