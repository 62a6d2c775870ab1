//! From a docket's bytes to sentences and rows of a table.
ghost use Rattle.std.specs.Prelude.{◌≡◌, ◌≢◌, ◌++◌, length, IfErr, IfOk, IfSome, IsSomeAnd, None, OnOk, Some, option_copied, string_bytes};
ghost use Rattle.reasons_text.specs.Keys.{IsKeyOf};
ghost use Rattle.match_model.specs.Instance.{IsProgramme, IsResident};
ghost use Rattle.records.specs.RowText.{Adds};
ghost use Rattle.reasons_text.specs.Lines.{lines};
ghost use Rattle.reasons_text.specs.Faults.{IsAskedFault, IsKeyFault, IsNameFault, IsServeFault, IsServeFaultWithin, IsTellFault, IsTextFault};
ghost use Rattle.reasons_text.specs.Naming.{HasNoNames, MeansAlone, both_of, naming_of};
ghost use Rattle.reasons_text.specs.Table.{rows_on};
ghost use Rattle.reasons_text.specs.Texts.{AddsOwnRows, AddsRows, Answers, AnswersFrom, AnswersWithin, AppendsText, Asks, IsLineOn, IsTable, IsTextOf, IsTextOn};
ghost use Rattle.reasons_text.specs.Told.{IsTold};

use crate::case::Case;
use crate::fault::WhyFault;
use crate::key::Key;
use crate::names::{Meant, Names};
use crate::near::{shared_name, unknown_name};
use crate::question::Asked;
use crate::sentences::{push_first_line, push_line};
use crate::side::{Side, member_count};
use crate::table::{push_columns, push_row};
use docket::{Docket, DocketFault, RowWriter, WriteFailed, room_for_rows};
use match_model::{Limits, ProgrammeNo, ResidentNo};
use match_reasons::Why;
use std::alloc::{AllocError, Global};
use std::hash::RandomState;
use std::io::{Read, Write};
use std::random::RandomSource;

// How answers are written: which names are shown for members, and whether ranks on programmes' lists are shown.
#[derive(Clone, Copy)]
struct AnswerManner<'a> {
    names: Names<'a>,
    without_ranks: bool,
}

// Whom the question is about: all residents, a resident, or a resident and a programme, by their numbers.
#[derive(Clone, Copy)]
enum AskedMembers {
    AllResidents,
    Resident(ResidentNo),
    Pair(ResidentNo, ProgrammeNo),
}

// Adds one line for each of these programmes. Reason `i` goes into the line about programme `i`.
fn push_each(
    alloc: Global,
    answer_lines: &mut String,
    manner: &AnswerManner,
    resident: ResidentNo,
    programmes: &[ProgrammeNo],
    reasons: &[Why],
) -> Result<(), AllocError>
    requires { length reasons.now ≡ length programmes.now }
    ensures { OnOk result (string_bytes answer_lines.new ≡ string_bytes answer_lines.old ++ lines
        (naming_of manner.now.names) manner.now.without_ranks resident programmes.now reasons.now) }
{
    for choice_index in 0..programmes.len() {
        push_line(
            alloc,
            answer_lines,
            &manner.names,
            resident,
            programmes[choice_index],
            reasons[choice_index],
            manner.without_ranks,
        )?;
    }
    Ok(())
}

// Adds the first line about a resident, and one line for each programme on the resident's list.
fn push_lines(
    alloc: Global,
    answer_lines: &mut String,
    case: &Case,
    manner: &AnswerManner,
    resident: ResidentNo,
) -> Result<(), AllocError>
    requires { IsResident case.now.docket.instance resident }
    ensures { OnOk result (AppendsText
        (IsTextOn case.now (naming_of manner.now.names) manner.now.without_ranks resident)
        (Some (string_bytes answer_lines.old)) (Some (string_bytes answer_lines.new))) }
{
    let answers = case.answers(alloc, resident)?;
    let programmes = answers.programmes.as_slice();
    let reasons = answers.reasons.as_slice();
    let own_programme = case.place_of(resident);
    push_first_line(
        alloc,
        answer_lines,
        &manner.names,
        resident,
        own_programme,
        programmes,
        reasons,
    )?;
    push_each(alloc, answer_lines, manner, resident, programmes, reasons)
}

// Adds one row for each of these programmes. Reason `i` goes into the row about programme `i`.
fn push_rows<W: Write>(
    rows: &mut RowWriter<'_, W>,
    manner: &AnswerManner,
    resident: ResidentNo,
    programmes: &[ProgrammeNo],
    reasons: &[Why],
) -> Result<(), WriteFailed>
    requires { length reasons.now ≡ length programmes.now }
    ensures { OnOk result (Adds W.contents rows.old rows.new (rows_on (naming_of manner.now.names)
        manner.now.without_ranks resident programmes.now reasons.now)) }
{
    for row_index in 0..programmes.len() {
        push_row(
            rows,
            &manner.names,
            resident,
            row_index + 1,
            programmes[row_index],
            &reasons[row_index],
            manner.without_ranks,
        )?;
    }
    Ok(())
}

// Adds all residents' rows.
fn push_all_rows<W: Write>(
    alloc: Global,
    rows: &mut RowWriter<'_, W>,
    case: &Case,
    manner: &AnswerManner,
) -> Result<(), DocketFault>
    ensures { OnOk result
        (AddsRows W.contents case.now (naming_of manner.now.names) manner.now.without_ranks
        (length case.now.docket.instance.resident_lists) rows.old rows.new) }
{
    for r in 0..case.docket().instance().residents() {
        let resident = ResidentNo(r);
        let answers = case.answers(alloc, resident)?;
        let programmes = answers.programmes.as_slice();
        let reasons = answers.reasons.as_slice();
        push_rows(rows, manner, resident, programmes, reasons)?;
    }
    Ok(())
}

/// Adds one resident's rows, with the names of the docket and with ranks on programmes' lists.
pub fn push_rows_on<W: Write>(
    alloc: Global,
    rows: &mut RowWriter<'_, W>,
    case: &Case,
    resident: ResidentNo,
) -> Result<(), DocketFault>
    requires { IsResident case.now.docket.instance resident }
    ensures { OnOk result (AddsOwnRows W.contents case.now resident rows.old rows.new) }
{
    let key = Key::none(alloc);
    let manner = AnswerManner {
        names: Names {
            docket: case.docket(),
            key: &key,
        },
        without_ranks: false,
    };
    let answers = case.answers(alloc, resident)?;
    let programmes = answers.programmes.as_slice();
    let reasons = answers.reasons.as_slice();
    push_rows(rows, &manner, resident, programmes, reasons)?;
    Ok(())
}

// Writes the row with the columns' names, and then all residents' rows.
fn write_table<W: Write>(
    alloc: Global,
    writer: &mut W,
    case: &Case,
    manner: &AnswerManner,
) -> Result<(), DocketFault>
    ensures { OnOk result
        (AppendsText (IsTable case.now (naming_of manner.now.names) manner.now.without_ranks)
        (W.contents writer.old) (W.contents writer.new)) }
{
    let mut row_buffer = room_for_rows(alloc)?;
    let mut rows = RowWriter::new(writer, &mut row_buffer);
    push_columns(&mut rows)?;
    push_all_rows(alloc, &mut rows, case, manner)?;
    rows.send()?;
    Ok(())
}

// The row with the columns' names, and then all residents' rows. The text is made in memory, so only memory can fail.
fn table_of(alloc: Global, case: &Case, manner: &AnswerManner) -> Result<Vec<u8>, AllocError>
    ensures { IfOk result (λ text.
        IsTable case.now (naming_of manner.now.names) manner.now.without_ranks text.items) }
{
    let mut table_text = Vec::new(alloc);
    match write_table(alloc, &mut table_text, case, manner) {
        Ok(()) => Ok(table_text),
        Err(_) => Err(AllocError),
    }
}

// The lines that answer a question about a resident.
fn lines_of(
    alloc: Global,
    case: &Case,
    manner: &AnswerManner,
    resident: ResidentNo,
) -> Result<Vec<u8>, AllocError>
    requires { IsResident case.now.docket.instance resident }
    ensures { IfOk result (λ text. IsTextOn case.now
        (naming_of manner.now.names) manner.now.without_ranks resident text.items) }
{
    let mut answer_lines = String::new(alloc);
    push_lines(alloc, &mut answer_lines, case, manner, resident)?;
    Ok(answer_lines.into_bytes())
}

// The line that answers a question about a resident and a programme.
fn line_of(
    alloc: Global,
    case: &Case,
    manner: &AnswerManner,
    resident: ResidentNo,
    programme: ProgrammeNo,
) -> Result<Vec<u8>, AllocError>
    requires resident { IsResident case.now.docket.instance resident }
    requires programme { IsProgramme case.now.docket.instance programme }
    ensures { IfOk result (λ text. IsLineOn case.now
        (naming_of manner.now.names) manner.now.without_ranks resident programme text.items) }
{
    let reason = case.reason(resident, programme);
    let mut answer_line = String::new(alloc);
    push_line(
        alloc,
        &mut answer_line,
        &manner.names,
        resident,
        programme,
        reason,
        manner.without_ranks,
    )?;
    Ok(answer_line.into_bytes())
}

// The text that answers the question, whose names were replaced by the members' numbers.
fn answer_text(
    alloc: Global,
    case: &Case,
    manner: &AnswerManner,
    whom: AskedMembers,
) -> Result<Vec<u8>, AllocError>
    requires { IsTold case.now.docket.instance whom }
    ensures { IfOk result (λ text.
        IsTextOf case.now (naming_of manner.now.names) manner.now.without_ranks whom text.items) }
{
    match whom {
        AskedMembers::AllResidents => table_of(alloc, case, manner),
        AskedMembers::Resident(resident) => lines_of(alloc, case, manner, resident),
        AskedMembers::Pair(resident, programme) => line_of(
            alloc, case, manner, resident, programme,
        ),
    }
}

// The only member of this side whom the name means. If the name means nobody, the fault lists similar names. If the
// name means more than one member, the fault lists these members' labels.
fn member_named(alloc: Global, names: &Names, side: Side, name: &str) -> Result<u32, WhyFault>
    ensures name { IfOk result (MeansAlone (naming_of names.now) side name.now) }
    ensures fault { IfErr result (IsNameFault (naming_of names.now) side name.now) }
{
    match names.meant(alloc, side, name)? {
        Meant::One(number) if number < member_count(names.docket, side) as usize => {
            Ok(number as u32)
        }
        Meant::One(_) | Meant::Nobody => Err(unknown_name(alloc, names, side, name)?),
        Meant::Several => Err(shared_name(alloc, names, side, name)?),
    }
}

// Whom the question is about, by the members' numbers; or the fault of one of its names.
fn members_asked(alloc: Global, names: &Names, asked: Asked) -> Result<AskedMembers, WhyFault>
    ensures member { IfOk result (IsTold names.now.docket.now.instance) }
    ensures asks { IfOk result (Asks (naming_of names.now) asked.entry) }
    ensures fault { IfErr result (IsAskedFault (naming_of names.now) asked.entry) }
{
    match asked {
        Asked::AllResidents => Ok(AskedMembers::AllResidents),
        Asked::Resident(resident) => {
            let resident = member_named(alloc, names, Side::Residents, resident)?;
            Ok(AskedMembers::Resident(ResidentNo(resident)))
        }
        Asked::Pair(resident, programme) => {
            let resident = member_named(alloc, names, Side::Residents, resident)?;
            let programme = member_named(alloc, names, Side::Programmes, programme)?;
            Ok(AskedMembers::Pair(ResidentNo(resident), ProgrammeNo(programme)))
        }
    }
}

// The names that the key has for members. Without a key there are none.
fn key_of(
    alloc: Global,
    hash_keys: RandomState,
    docket: &Docket,
    key_bytes: Option<&[u8]>,
) -> Result<Key, WhyFault>
    ensures none { IfOk result (λ key. option_copied key_bytes.entry ≡ None
        → HasNoNames key.residents × HasNoNames key.programmes) }
    ensures key { IfOk result (λ key.
        IfSome (option_copied key_bytes.entry) (λ bytes. IsKeyOf docket.now bytes (both_of key))) }
    ensures fault { IfErr result (λ fault.
        IsSomeAnd (option_copied key_bytes.entry) (λ bytes. IsKeyFault docket.now bytes fault)) }
{
    match key_bytes {
        Some(bytes) => Key::read(alloc, hash_keys, docket, bytes),
        None => Ok(Key::none(alloc)),
    }
}

/// The text of the whole answer.
pub(crate) fn text_of(
    alloc: Global,
    hash_keys: RandomState,
    case: &Case,
    key_bytes: Option<&[u8]>,
    asked: Asked,
    without_ranks: bool,
) -> Result<Vec<u8>, WhyFault>
    ensures text { IfOk result (λ text.
        Answers case.now (option_copied key_bytes.entry) asked.entry without_ranks text.items) }
    ensures fault { IfErr result
        (IsTextFault case.now (option_copied key_bytes.entry) asked.entry) }
{
    let docket = case.docket();
    let key = key_of(alloc, hash_keys, docket, key_bytes)?;
    let names = Names { docket, key: &key };
    let whom = members_asked(alloc, &names, asked)?;
    let manner = AnswerManner {
        names,
        without_ranks,
    };
    Ok(answer_text(alloc, case, &manner, whom)?)
}

/// Reads a docket with a sheet within the standard limits, and writes the answer to the question. A question about a
/// resident is answered by a first line, and a line for each programme on the resident's list. A question about a
/// resident and a programme is answered by one line. A question about all residents is answered by the rows of the
/// table. The bytes of the key have the members' real names. If the fault is not the writer's, nothing was written.
pub fn serve_why<R: Read + Drop, W: Write, H: RandomSource>(
    rt: &H,
    alloc: Global,
    reader: R,
    writer: &mut W,
    asked: Asked,
    without_ranks: bool,
    key_bytes: Option<&[u8]>,
) -> Result<(), WhyFault>
    ensures text { OnOk result (AppendsText
        (AnswersFrom (R.remaining reader) (option_copied key_bytes.entry) asked.entry without_ranks)
        (W.contents writer.old) (W.contents writer.new)) }
    ensures fault { IfErr result
        (IsServeFault (R.remaining reader) (option_copied key_bytes.entry) asked.entry) }
    ensures before { IfErr result (λ fault. fault ≢ WhyFault.Docket DocketFault.Write
        → writer.new ≡ writer.old) }
{
    serve_why_within(
        rt,
        alloc,
        Limits::Standard,
        reader,
        writer,
        asked,
        without_ranks,
        key_bytes,
    )
}

/// Does what `serve_why` does, but within these limits.
pub fn serve_why_within<R: Read + Drop, W: Write, H: RandomSource>(
    rt: &H,
    alloc: Global,
    limits: Limits,
    reader: R,
    writer: &mut W,
    asked: Asked,
    without_ranks: bool,
    key_bytes: Option<&[u8]>,
) -> Result<(), WhyFault>
    ensures text { OnOk result (AppendsText (AnswersWithin limits
        (R.remaining reader) (option_copied key_bytes.entry) asked.entry without_ranks)
        (W.contents writer.old) (W.contents writer.new)) }
    ensures fault { IfErr result (IsServeFaultWithin limits
        (R.remaining reader) (option_copied key_bytes.entry) asked.entry) }
    ensures before { IfErr result (λ fault. fault ≢ WhyFault.Docket DocketFault.Write
        → writer.new ≡ writer.old) }
{
    let answer = match read_and_tell(rt, alloc, limits, reader, asked, without_ranks, key_bytes) {
        Ok(answer) => answer,
        Err(fault) => return Err(fault),
    };
    match writer.write_all(answer.as_slice()) {
        Ok(()) => Ok(()),
        Err(_) => Err(WhyFault::Docket(DocketFault::Write)),
    }
}

// Reads a docket with a sheet within these limits, and makes the text of the whole answer.
fn read_and_tell<R: Read + Drop, H: RandomSource>(
    rt: &H,
    alloc: Global,
    limits: Limits,
    reader: R,
    asked: Asked,
    without_ranks: bool,
    key_bytes: Option<&[u8]>,
) -> Result<Vec<u8>, WhyFault>
    ensures text { IfOk result (λ text. AnswersWithin limits
        (R.remaining reader) (option_copied key_bytes.entry) asked.entry without_ranks text.items) }
    ensures fault { IfErr result
        (IsTellFault limits (R.remaining reader) (option_copied key_bytes.entry) asked.entry) }
{
    let Ok(hash_keys) = RandomState::new(rt) else {
        return Err(WhyFault::Docket(DocketFault::Read { place: 1 }));
    };
    let case = Case::read_within(rt, alloc, limits, reader, asked == Asked::AllResidents)?;
    text_of(alloc, hash_keys, &case, key_bytes, asked, without_ranks)
}
