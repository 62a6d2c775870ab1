//! The rank lists and the withdrawals.
ghost use Rattle.std.specs.Prelude.{◌≡◌, ◌++◌, ◌∷◌, [], Some, List, slice_get, IfOk, OnOk};
ghost use Rattle.csv.specs.Records.{fields_of};
ghost use Rattle.docket.specs.Answers.{Answers};
ghost use Rattle.docket.specs.Fields.{kind_of, list_row_fault, withdrawal_row_fault};
ghost use Rattle.records.specs.Reading.{Fields, field as field_of};
ghost use Rattle.docket.specs.Lists.{AreLists, list_letter};
ghost use Rattle.docket.specs.Passes.{next_place};
ghost use Rattle.docket.specs.Rows.{side_text};
ghost use Rattle.docket_names.specs.Texts.{StartsWith};

use crate::fault::DocketFault;
use crate::store::lists::Lists;
use crate::vocabulary::{Side, WITHDRAWAL, side_of};
use csv::ByteRecord;
use docket_names::Texts;
use records::field;

/// Checks and keeps the list of a member on this side: `P,programme,resident,..` or `R,resident,programme,..`. The answer
/// is the number of the owner's name.
pub(crate) fn list_row(
    lists: &mut Lists,
    name_texts: &mut Texts,
    row: &ByteRecord,
    side: Side,
    record_no: u32,
) -> Result<usize, DocketFault>
    requires kind { kind_of (fields_of row.now) ≡ list_letter side }
    ensures texts { StartsWith name_texts.old name_texts.new }
    ensures owner { IfOk result (λ number.
        slice_get name_texts.new number ≡ Some (field_of (fields_of row.now) 1)) }
    ensures kept { OnOk result ((rows : List Fields)
        → record_no ≡ next_place rows → AreLists name_texts.old lists.old rows
        → AreLists name_texts.new lists.new (rows ++ fields_of row.now ∷ [])) }
    ensures fault { Answers (list_row_fault record_no (fields_of row.now)) result }
{
    if row.len() < 2 {
        return Err(DocketFault::FieldCount { place: record_no });
    }
    match lists.add_list(name_texts, row, side, record_no)? {
        Some(owner) => Ok(owner),
        None => Err(DocketFault::BadName { place: record_no }),
    }
}

/// Checks and keeps the withdrawal `W,P,programme` or `W,R,resident`. The answer is the side, and the number of the name.
pub(crate) fn withdrawal_row(
    lists: &mut Lists,
    name_texts: &mut Texts,
    row: &ByteRecord,
    record_no: u32,
) -> Result<(Side, usize), DocketFault>
    requires kind { kind_of (fields_of row.now) ≡ WITHDRAWAL }
    ensures texts { StartsWith name_texts.old name_texts.new }
    ensures side { IfOk result (λ withdrawal.
        field_of (fields_of row.now) 1 ≡ side_text withdrawal.0) }
    ensures name { IfOk result (λ withdrawal.
        slice_get name_texts.new withdrawal.1 ≡ Some (field_of (fields_of row.now) 2)) }
    ensures kept { OnOk result ((rows : List Fields)
        → record_no ≡ next_place rows → AreLists name_texts.old lists.old rows
        → AreLists name_texts.new lists.new (rows ++ fields_of row.now ∷ [])) }
    ensures fault { Answers (withdrawal_row_fault record_no (fields_of row.now)) result }
{
    if row.len() != 3 {
        return Err(DocketFault::FieldCount { place: record_no });
    }
    let Some(side) = side_of(field(row, 1)) else {
        return Err(DocketFault::BadWithdrawal { place: record_no });
    };
    match lists.add_withdrawal(name_texts, row, side, record_no)? {
        Some(name) => Ok((side, name)),
        None => Err(DocketFault::BadName { place: record_no }),
    }
}
