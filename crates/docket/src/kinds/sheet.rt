//! The records of a sheet.
ghost use Rattle.std.specs.Prelude.{◌≡◌, ◌++◌, ◌∷◌, [], ◌&&◌, List, Some, OnOk, IfOk};
ghost use Rattle.csv.specs.Records.{fields_of};
ghost use Rattle.docket_names.specs.Words.{is_name as named, is_number, number_of as number_in};
ghost use Rattle.docket.specs.Answers.{Answers};
ghost use Rattle.docket.specs.Fields.{kind_of, unless, matched_row_fault, unmatched_row_fault, filled_row_fault};
ghost use Rattle.records.specs.Reading.{Fields, field as field_of};
ghost use Rattle.docket.specs.Passes.{next_place};
ghost use Rattle.docket.specs.SheetRows.{AreSheetRows, IsText};
ghost use Rattle.docket_names.specs.Texts.{StartsWith};

use crate::fault::DocketFault;
use crate::store::sheet_rows::{Mark, SheetRows};
use crate::vocabulary::{FILLED, MATCHED, UNMATCHED};
use csv::ByteRecord;
use docket_names::{Texts, is_name, number_of};
use records::field;

// Tests that field `field_index` is a name.
fn check_name(row: &ByteRecord, field_index: usize, record_no: u32) -> Result<(), DocketFault>
    ensures { Answers
        (unless (named (field_of (fields_of row.now) field_index))
        (DocketFault.BadName record_no)) result }
{
    if is_name(field(row, field_index)) {
        Ok(())
    } else {
        Err(DocketFault::BadName { place: record_no })
    }
}

// The number of the name in field `field_index`. A new name is added to the texts.
fn name_in(
    name_texts: &mut Texts,
    row: &ByteRecord,
    field_index: usize,
    record_no: u32,
) -> Result<u32, DocketFault>
    ensures texts { StartsWith name_texts.old name_texts.new }
    ensures number { IfOk result (λ number.
        IsText name_texts.new number field_index (fields_of row.now)) }
    ensures fault { Answers
        (unless (named (field_of (fields_of row.now) field_index))
        (DocketFault.BadName record_no)) result }
{
    let Some(number) = name_texts.name(field(row, field_index))? else {
        return Err(DocketFault::BadName { place: record_no });
    };
    match u32::try_from(number) {
        Ok(number) => Ok(number),
        Err(_) => Err(DocketFault::Memory),
    }
}

// The number in field `field_index` of an F row.
fn count_in(row: &ByteRecord, field_index: usize, record_no: u32) -> Result<u32, DocketFault>
    ensures number { IfOk result (λ number.
        number_in (field_of (fields_of row.now) field_index) ≡ Some number) }
    ensures fault { Answers
        (unless (is_number (field_of (fields_of row.now) field_index))
        (DocketFault.BadSheet record_no)) result }
{
    match number_of(field(row, field_index)) {
        Some(number) => Ok(number),
        None => Err(DocketFault::BadSheet { place: record_no }),
    }
}

/// Checks and keeps `M,resident,programme`.
pub(crate) fn matched_row(
    sheet_rows: &mut SheetRows,
    name_texts: &mut Texts,
    row: &ByteRecord,
    record_no: u32,
) -> Result<(), DocketFault>
    requires kind { kind_of (fields_of row.now) ≡ MATCHED }
    ensures texts { StartsWith name_texts.old name_texts.new }
    ensures kept { OnOk result ((rows : List Fields)
        → record_no ≡ next_place rows → AreSheetRows name_texts.old sheet_rows.old rows
        → AreSheetRows name_texts.new sheet_rows.new (rows ++ fields_of row.now ∷ [])) }
    ensures fault { Answers (matched_row_fault record_no (fields_of row.now)) result }
{
    if row.len() != 3 {
        return Err(DocketFault::FieldCount { place: record_no });
    }
    if sheet_rows.is_cut() {
        check_name(row, 1, record_no)?;
        return check_name(row, 2, record_no);
    }
    let resident = name_in(name_texts, row, 1, record_no)?;
    let programme = name_in(name_texts, row, 2, record_no)?;
    sheet_rows.add(
        record_no,
        Mark::Matched {
            resident,
            programme,
        },
    )?;
    Ok(())
}

/// Checks and keeps `U,resident`.
pub(crate) fn unmatched_row(
    sheet_rows: &mut SheetRows,
    name_texts: &mut Texts,
    row: &ByteRecord,
    record_no: u32,
) -> Result<(), DocketFault>
    requires kind { kind_of (fields_of row.now) ≡ UNMATCHED }
    ensures texts { StartsWith name_texts.old name_texts.new }
    ensures kept { OnOk result ((rows : List Fields)
        → record_no ≡ next_place rows → AreSheetRows name_texts.old sheet_rows.old rows
        → AreSheetRows name_texts.new sheet_rows.new (rows ++ fields_of row.now ∷ [])) }
    ensures fault { Answers (unmatched_row_fault record_no (fields_of row.now)) result }
{
    if row.len() != 2 {
        return Err(DocketFault::FieldCount { place: record_no });
    }
    if sheet_rows.is_cut() {
        return check_name(row, 1, record_no);
    }
    let resident = name_in(name_texts, row, 1, record_no)?;
    sheet_rows.add(record_no, Mark::Unmatched { resident })?;
    Ok(())
}

// The number of residents and the quota in an F row.
fn counts_in(row: &ByteRecord, record_no: u32) -> Result<(u32, u32), DocketFault>
    ensures numbers { IfOk result (λ counts.
        (number_in (field_of (fields_of row.now) 2) ≡ Some counts.0)
        × (number_in (field_of (fields_of row.now) 3) ≡ Some counts.1)) }
    ensures fault { Answers (unless (is_number (field_of (fields_of row.now) 2)
        && is_number (field_of (fields_of row.now) 3)) (DocketFault.BadSheet record_no)) result }
{
    let filled = count_in(row, 2, record_no)?;
    let quota = count_in(row, 3, record_no)?;
    Ok((filled, quota))
}

/// Checks and keeps `F,programme,filled,quota`.
pub(crate) fn filled_row(
    sheet_rows: &mut SheetRows,
    name_texts: &mut Texts,
    row: &ByteRecord,
    record_no: u32,
) -> Result<(), DocketFault>
    requires kind { kind_of (fields_of row.now) ≡ FILLED }
    ensures texts { StartsWith name_texts.old name_texts.new }
    ensures kept { OnOk result ((rows : List Fields)
        → record_no ≡ next_place rows → AreSheetRows name_texts.old sheet_rows.old rows
        → AreSheetRows name_texts.new sheet_rows.new (rows ++ fields_of row.now ∷ [])) }
    ensures fault { Answers (filled_row_fault record_no (fields_of row.now)) result }
{
    if row.len() != 4 {
        return Err(DocketFault::FieldCount { place: record_no });
    }
    if sheet_rows.is_cut() {
        check_name(row, 1, record_no)?;
        counts_in(row, record_no)?;
        return Ok(());
    }
    let programme = name_in(name_texts, row, 1, record_no)?;
    let (filled, quota) = counts_in(row, record_no)?;
    sheet_rows.add(
        record_no,
        Mark::Filled {
            programme,
            filled,
            quota,
        },
    )?;
    Ok(())
}
