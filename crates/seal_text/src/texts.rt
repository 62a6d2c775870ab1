//! The texts of leaves: the texts that are sealed for each member before the match and after it.
ghost use Rattle.std.specs.Prelude.{◌≡◌, ◌<◌, ◌++◌, ◌∷◌, [], ℕ, List, IfOk, IfSome, None, OnOk, Some, codes, length, map, nat_lt, option_copied, option_map, slice_index_or, true};
ghost use Rattle.std.specs.List.{list_all, range_with_len};
ghost use Rattle.docket.specs.Texts.{filled_row, mark_row, programme_name, programme_row, resident_name};
ghost use Rattle.csv.specs.Records.{fields_of, partial_of};
ghost use Rattle.records.specs.Lines.{Grows};
ghost use Rattle.match_model.specs.Draft.{Draft};
ghost use Rattle.match_model.specs.Instance.{IsProgramme, IsResident, list_at};
ghost use Rattle.match_model.specs.Written.{written_of};
ghost use Rattle.records.specs.RowText.{Adds};
ghost use Rattle.std.specs.Io.KnownBytes.{Appends};
ghost use Rattle.reasons_text.specs.Texts.{AppendsText};
ghost use Rattle.seal_text.specs.Grown.{texts_of};
ghost use Rattle.seal_text.specs.Texts.{AddsResidentResult, AreListsOf, AreResultTexts, Extends, HasSheet, IsResidentResult, NameMembers, PushesResults, line_if, list_record, name_record, quota_row, withdrawal_if};
ghost use Rattle.seal_text.specs.Texts as spec;

use crate::grow::put_row;
use csv::ByteRecord;
use docket::{Docket, DocketFault, ProgrammeLists, RowWriter, WriteFailed, room_for_rows};
use match_model::{ProgrammeNo, ResidentNo, WrittenLists};
use reasons_text::{Case, RealNames, push_rows_on};
use records::{field, put_line};
use std::alloc::{AllocError, Global};
use std::io::Write;

// Adds a field to a record.
fn push_field(row: &mut ByteRecord, field: &[u8]) -> Result<(), AllocError>
    requires { partial_of row.old ≡ [] }
    ensures { OnOk result (Extends row.old row.new (field.now ∷ [])) }
{
    row.push_field(field)
}

// A record of these two fields.
fn record_of(alloc: Global, letter: &[u8], name: &[u8]) -> Result<ByteRecord, AllocError>
    ensures fields { IfOk result (λ row. fields_of row ≡ letter.now ∷ name.now ∷ []) }
    ensures whole { IfOk result (λ row. partial_of row ≡ []) }
{
    let mut row = ByteRecord::new(alloc);
    row.push_field(letter)?;
    row.push_field(name)?;
    Ok(row)
}

// Adds the names of these residents to a record.
fn push_residents(
    row: &mut ByteRecord,
    docket: &Docket,
    list: &[ResidentNo],
) -> Result<(), AllocError>
    requires whole { partial_of row.old ≡ [] }
    requires list { list_all (λ r. nat_lt r (length docket.now.residents)) list.now ≡ true }
    ensures { OnOk result (Extends row.old row.new (map (resident_name docket.now) list.now)) }
{
    // For the proof alone: the docket is whole.
    let _instance = docket.instance();
    for k in 0..list.len() {
        push_field(row, docket.resident_name(list[k]).as_bytes())?;
    }
    Ok(())
}

// Adds the names of the programmes on a resident's list to a record.
fn push_choices(
    row: &mut ByteRecord,
    docket: &Docket,
    written_lists: &WrittenLists,
    resident: ResidentNo,
) -> Result<(), AllocError>
    requires whole { partial_of row.old ≡ [] }
    requires list { list_all (λ p. nat_lt p (length docket.now.programmes))
        (list_at written_lists.now.resident_lists resident) ≡ true }
    ensures { OnOk result (Extends row.old row.new
        (map (programme_name docket.now) (list_at written_lists.now.resident_lists resident))) }
{
    // For the proof alone: the docket is whole.
    let _instance = docket.instance();
    for k in 0..written_lists.listed_by_resident(resident) {
        let Some(programme) = written_lists.choice(resident, k) else {
            unreachable!("the list is so long");
        };
        push_field(row, docket.programme_name(programme).as_bytes())?;
    }
    Ok(())
}

// Adds the fields of another record to a record.
fn push_fields(row: &mut ByteRecord, fields: &ByteRecord) -> Result<(), AllocError>
    requires { partial_of row.old ≡ [] }
    ensures { OnOk result (Extends row.old row.new (fields_of fields.now)) }
{
    for k in 0..fields.len() {
        push_field(row, field(fields, k))?;
    }
    Ok(())
}

// Adds the `N` row with a member's real name, if the name is known.
fn put_real_name(
    alloc: Global,
    leaf_text: &mut Vec<u8>,
    real_name: Option<&ByteRecord>,
) -> Result<(), AllocError>
    ensures { OnOk result (Grows leaf_text.old leaf_text.new
        (line_if (name_record
        (option_map (λ real_name. fields_of real_name.now) real_name.entry)))) }
{
    match real_name {
        Some(real_name) => {
            let mut row = ByteRecord::new(alloc);
            push_field(&mut row, b"N")?;
            push_fields(&mut row, real_name)?;
            put_line(leaf_text, &row)
        }
        None => Ok(()),
    }
}

// Adds a programme's `P` record, if it has a list.
fn put_ranking(
    alloc: Global,
    leaf_text: &mut Vec<u8>,
    docket: &Docket,
    name: &[u8],
    list: Option<&[ResidentNo]>,
) -> Result<(), AllocError>
    requires { IfSome (option_copied list) (λ list.
        list_all (λ r. nat_lt r (length docket.now.residents)) list ≡ true) }
    ensures { OnOk result
        (Grows leaf_text.old leaf_text.new (line_if (option_map (list_record (codes "P") name.now)
        (option_map (map (resident_name docket.now)) (option_copied list.entry))))) }
{
    match list {
        Some(list) => {
            let mut row = record_of(alloc, b"P", name)?;
            push_residents(&mut row, docket, list)?;
            put_line(leaf_text, &row)
        }
        None => Ok(()),
    }
}

// Adds the `W` row, if the member is withdrawn.
fn put_withdrawal_if(
    alloc: Global,
    leaf_text: &mut Vec<u8>,
    withdrawn: bool,
    side_letter: &[u8],
    name: &[u8],
) -> Result<(), AllocError>
    ensures { OnOk result
        (Grows leaf_text.old leaf_text.new (withdrawal_if withdrawn side_letter.now name.now)) }
{
    if withdrawn {
        put_row(alloc, leaf_text, &[b"W", side_letter, name])
    } else {
        Ok(())
    }
}

// Adds a programme's `Q` row.
fn put_quota(
    alloc: Global,
    leaf_text: &mut Vec<u8>,
    name: &[u8],
    quota: u32,
) -> Result<(), AllocError>
    ensures { OnOk result (Grows leaf_text.old leaf_text.new (quota_row name.now quota)) }
{
    let mut number_buffer = itoa::Buffer::new();
    let quota_digits = number_buffer.format(quota).as_bytes();
    put_row(alloc, leaf_text, &[b"Q", name, quota_digits])
}

// The text of a programme's lists leaf: its `Q` row, its `P` record if it has one, its `W` row if it is withdrawn, and its `N`
// row if its real name is known.
fn programme_lists(
    alloc: Global,
    docket: &Docket,
    given_lists: &ProgrammeLists,
    real_names: &RealNames,
    programme: ProgrammeNo,
) -> Result<Vec<u8>, AllocError>
    requires given { (p : ℕ) (list : List ℕ) → slice_index_or given_lists.now p None ≡ Some list
        → list_all (λ r. nat_lt r (length docket.now.residents)) list ≡ true }
    requires programme { IsProgramme docket.now.instance programme }
    ensures { IfOk result (λ text. (draft : Draft) → given_lists.now ≡ draft.programme_lists
        → text.items ≡ spec.programme_lists docket.now draft real_names.now programme) }
{
    let name = docket.programme_name(programme).as_bytes();
    let quota = docket.instance().quota(programme);
    let withdrawn = docket.instance().programme_withdrawn(programme);
    let mut text = Vec::new(alloc);
    put_quota(alloc, &mut text, name, quota)?;
    put_ranking(
        alloc,
        &mut text,
        docket,
        name,
        given_lists.list_of(programme),
    )?;
    put_withdrawal_if(alloc, &mut text, withdrawn, b"P", name)?;
    put_real_name(alloc, &mut text, real_names.programme(programme))?;
    Ok(text)
}

// The text of a resident's lists leaf: its `R` record, its `W` row if it is withdrawn, and its `N` row if its real name is known.
fn resident_lists(
    alloc: Global,
    docket: &Docket,
    written_lists: &WrittenLists,
    real_names: &RealNames,
    resident: ResidentNo,
) -> Result<Vec<u8>, AllocError>
    requires list { list_all (λ p. nat_lt p (length docket.now.programmes))
        (list_at written_lists.now.resident_lists resident) ≡ true }
    requires resident { IsResident docket.now.instance resident }
    ensures { IfOk result (λ text. (draft : Draft) → written_lists.now ≡ written_of draft
        → text.items ≡ spec.resident_lists docket.now draft real_names.now resident) }
{
    let name = docket.resident_name(resident).as_bytes();
    let withdrawn = docket.instance().resident_withdrawn(resident);
    let mut text = Vec::new(alloc);
    let mut row = record_of(alloc, b"R", name)?;
    push_choices(&mut row, docket, written_lists, resident)?;
    put_line(&mut text, &row)?;
    put_withdrawal_if(alloc, &mut text, withdrawn, b"R", name)?;
    put_real_name(alloc, &mut text, real_names.resident(resident))?;
    Ok(text)
}

// Adds the texts of the programmes' lists leaves.
fn push_programme_lists(
    alloc: Global,
    leaf_texts: &mut Vec<Vec<u8>>,
    docket: &Docket,
    given_lists: &ProgrammeLists,
    real_names: &RealNames,
) -> Result<(), AllocError>
    requires given { (p : ℕ) (list : List ℕ) → slice_index_or given_lists.now p None ≡ Some list
        → list_all (λ r. nat_lt r (length docket.now.residents)) list ≡ true }
    ensures { OnOk result ((draft : Draft)
        → given_lists.now ≡ draft.programme_lists → texts_of leaf_texts.new.items
        ≡ texts_of leaf_texts.old.items ++ map (spec.programme_lists docket.now draft
        real_names.now) (range_with_len 0 (length docket.now.instance.quotas))) }
{
    for p in 0..docket.instance().programmes() {
        let text = programme_lists(alloc, docket, given_lists, real_names, ProgrammeNo(p))?;
        leaf_texts.push(text)?;
    }
    Ok(())
}

// Adds the texts of the residents' lists leaves.
fn push_resident_lists(
    alloc: Global,
    leaf_texts: &mut Vec<Vec<u8>>,
    docket: &Docket,
    written_lists: &WrittenLists,
    real_names: &RealNames,
) -> Result<(), AllocError>
    requires lists { (r : ℕ) → r < length docket.now.residents
        → list_all (λ p. nat_lt p (length docket.now.programmes))
        (list_at written_lists.now.resident_lists r) ≡ true }
    ensures { OnOk result ((draft : Draft)
        → written_lists.now ≡ written_of draft → texts_of leaf_texts.new.items
        ≡ texts_of leaf_texts.old.items ++ map (spec.resident_lists docket.now draft real_names.now)
        (range_with_len 0 (length docket.now.instance.resident_lists))) }
{
    for r in 0..docket.instance().residents() {
        let text = resident_lists(alloc, docket, written_lists, real_names, ResidentNo(r))?;
        leaf_texts.push(text)?;
    }
    Ok(())
}

/// The texts of all lists leaves: the programmes' and then the residents', in the docket's order.
pub(crate) fn lists_texts(
    alloc: Global,
    docket: &Docket,
    given_lists: &ProgrammeLists,
    written_lists: &WrittenLists,
    real_names: &RealNames,
) -> Result<Vec<Vec<u8>>, AllocError>
    requires { NameMembers docket.now given_lists.now written_lists.now }
    ensures { IfOk result (λ leaf_texts. (draft : Draft) → AreListsOf draft given_lists.now
        written_lists.now
        → texts_of leaf_texts.items ≡ spec.lists_texts docket.now draft real_names.now) }
{
    let mut leaf_texts = Vec::new(alloc);
    push_programme_lists(alloc, &mut leaf_texts, docket, given_lists, real_names)?;
    push_resident_lists(alloc, &mut leaf_texts, docket, written_lists, real_names)?;
    Ok(leaf_texts)
}

// Adds a programme's `F` row.
fn put_filled(
    alloc: Global,
    leaf_text: &mut Vec<u8>,
    docket: &Docket,
    programme: ProgrammeNo,
    filled: u32,
) -> Result<(), AllocError>
    requires { IsProgramme docket.now.instance programme }
    ensures { OnOk result
        (Grows leaf_text.old leaf_text.new
        (programme_row docket.now (codes "F") programme filled)) }
{
    let name = docket.programme_name(programme).as_bytes();
    let (mut filled_buffer, mut quota_buffer) = (itoa::Buffer::new(), itoa::Buffer::new());
    let filled_digits = filled_buffer.format(filled).as_bytes();
    let quota_digits = quota_buffer
        .format(docket.instance().quota(programme))
        .as_bytes();
    put_row(alloc, leaf_text, &[b"F", name, filled_digits, quota_digits])
}

// The `F` row of each programme, as a text of its own.
fn filled_rows(alloc: Global, case: &Case) -> Result<Vec<Vec<u8>>, AllocError>
    requires { HasSheet case.now }
    ensures { IfOk result (λ leaf_texts. texts_of leaf_texts.items
        ≡ map (filled_row case.now.docket case.now.sheet)
        (range_with_len 0 (length case.now.docket.instance.quotas))) }
{
    let docket = case.docket();
    let mut leaf_texts = Vec::new(alloc);
    for p in 0..docket.instance().programmes() {
        let programme = ProgrammeNo(p);
        let mut text = Vec::new(alloc);
        put_filled(alloc, &mut text, docket, programme, case.filled(programme))?;
        leaf_texts.push(text)?;
    }
    Ok(leaf_texts)
}

// Adds a resident's `M` row to the text of the resident's programme.
fn put_member(
    alloc: Global,
    leaf_text: &mut Vec<u8>,
    docket: &Docket,
    resident: ResidentNo,
    programme: ProgrammeNo,
) -> Result<(), AllocError>
    requires resident { IsResident docket.now.instance resident }
    requires programme { IsProgramme docket.now.instance programme }
    ensures { OnOk result
        (Grows leaf_text.old leaf_text.new (mark_row docket.now resident (Some programme))) }
{
    let name = docket.resident_name(resident).as_bytes();
    put_row(
        alloc,
        leaf_text,
        &[b"M", name, docket.programme_name(programme).as_bytes()],
    )
}

// The texts of the programmes' result leaves. Each has the programme's `F` row, and the `M` rows of its residents in
// the docket's order. One walk over the residents adds each `M` row to the text of its programme.
fn programme_results(alloc: Global, case: &Case) -> Result<Vec<Vec<u8>>, AllocError>
    requires { HasSheet case.now }
    ensures { IfOk result (λ leaf_texts. texts_of leaf_texts.items
        ≡ map (spec.programme_result case.now.docket case.now.sheet)
        (range_with_len 0 (length case.now.docket.instance.quotas))) }
{
    let docket = case.docket();
    let mut leaf_texts = filled_rows(alloc, case)?;
    for r in 0..docket.instance().residents() {
        let resident = ResidentNo(r);
        let Some(programme) = case.place_of(resident) else {
            continue;
        };
        put_member(
            alloc,
            &mut leaf_texts[programme.0 as usize],
            docket,
            resident,
            programme,
        )?;
    }
    Ok(leaf_texts)
}

// Adds a resident's `M` or `U` row.
fn push_mark<W: Write>(
    rows: &mut RowWriter<'_, W>,
    docket: &Docket,
    resident: ResidentNo,
    programme: Option<ProgrammeNo>,
) -> Result<(), WriteFailed>
    requires resident { IsResident docket.now.instance resident }
    requires programme { (p : ℕ) → programme ≡ Some p → IsProgramme docket.now.instance p }
    ensures { OnOk result
        (Adds W.contents rows.old rows.new (mark_row docket.now resident programme)) }
{
    let name = docket.resident_name(resident).as_bytes();
    match programme {
        Some(programme) => rows.push(&[b"M", name, docket.programme_name(programme).as_bytes()]),
        None => rows.push(&[b"U", name]),
    }
}

// Adds the text of a resident's result leaf: its `M` or `U` row, and its rows of reasons.
fn push_resident_result<W: Write>(
    alloc: Global,
    rows: &mut RowWriter<'_, W>,
    case: &Case,
    resident: ResidentNo,
) -> Result<(), DocketFault>
    requires case { HasSheet case.now }
    requires resident { IsResident case.now.docket.instance resident }
    ensures { OnOk result (AddsResidentResult W.contents case.now resident rows.old rows.new) }
{
    push_mark(rows, case.docket(), resident, case.place_of(resident))?;
    push_rows_on(alloc, rows, case, resident)
}

// Writes the text of a resident's result leaf.
fn write_resident_result<W: Write>(
    alloc: Global,
    writer: &mut W,
    case: &Case,
    resident: ResidentNo,
) -> Result<(), DocketFault>
    requires case { HasSheet case.now }
    requires resident { IsResident case.now.docket.instance resident }
    ensures { OnOk result (AppendsText
        (IsResidentResult case.now resident) (W.contents writer.old) (W.contents writer.new)) }
{
    let mut row_buffer = room_for_rows(alloc)?;
    let mut rows = RowWriter::new(writer, &mut row_buffer);
    push_resident_result(alloc, &mut rows, case, resident)?;
    rows.send()?;
    Ok(())
}

// The text of a resident's result leaf.
fn resident_result(alloc: Global, case: &Case, resident: ResidentNo) -> Result<Vec<u8>, AllocError>
    requires case { HasSheet case.now }
    requires resident { IsResident case.now.docket.instance resident }
    ensures { IfOk result (λ text. IsResidentResult case.now resident text.items) }
{
    let mut text = Vec::new(alloc);
    match write_resident_result(alloc, &mut text, case, resident) {
        Ok(()) => Ok(text),
        Err(_) => Err(AllocError),
    }
}

// Adds the texts of the residents' result leaves.
fn push_resident_results(
    alloc: Global,
    leaf_texts: &mut Vec<Vec<u8>>,
    case: &Case,
) -> Result<(), AllocError>
    requires { HasSheet case.now }
    ensures { OnOk result (PushesResults case.now (length case.now.docket.instance.resident_lists)
        (texts_of leaf_texts.old.items) (texts_of leaf_texts.new.items)) }
{
    for r in 0..case.docket().instance().residents() {
        let text = resident_result(alloc, case, ResidentNo(r))?;
        leaf_texts.push(text)?;
    }
    Ok(())
}

/// The texts of all result leaves: the programmes' and then the residents', in the docket's order.
pub(crate) fn result_texts(alloc: Global, case: &Case) -> Result<Vec<Vec<u8>>, AllocError>
    requires { HasSheet case.now }
    ensures { IfOk result (λ leaf_texts. AreResultTexts case.now (texts_of leaf_texts.items)) }
{
    let mut leaf_texts = programme_results(alloc, case)?;
    push_resident_results(alloc, &mut leaf_texts, case)?;
    Ok(leaf_texts)
}
