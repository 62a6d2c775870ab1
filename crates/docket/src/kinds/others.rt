//! The records that no later pass needs, apart from what they declare: programmes, the capacity and the
//! version.
ghost use Rattle.std.specs.Prelude.{◌≡◌, Some, true, slice_get, IfOk};
ghost use Rattle.csv.specs.Records.{fields_of};
ghost use Rattle.docket.specs.Answers.{Answers};
ghost use Rattle.docket.specs.Declarations.{version_fault};
ghost use Rattle.docket.specs.Fields.{quota_row_fault, capacity_row_fault};
ghost use Rattle.records.specs.Reading.{field as field_of};
ghost use Rattle.docket.specs.Words as words;
ghost use Rattle.docket_names.specs.Texts.{StartsWith};
ghost use Rattle.docket_names.specs.Words as names;

use crate::fault::DocketFault;
use crate::vocabulary::capacity_of;
use crate::words::workers_of;
use csv::ByteRecord;
use docket_names::{Texts, number_of};
use exchange_core::Capacity;
use records::field;

/// Checks `Q,programme,quota`. The answer is the number of the programme's name, and the quota.
pub(crate) fn programme_row(
    name_texts: &mut Texts,
    row: &ByteRecord,
    record_no: u32,
) -> Result<(usize, u32), DocketFault>
    ensures texts { StartsWith name_texts.old name_texts.new }
    ensures name { IfOk result (λ name_and_quota.
        slice_get name_texts.new name_and_quota.0 ≡ Some (field_of (fields_of row.now) 1)) }
    ensures named { IfOk result (λ name_and_quota.
        names.is_name (field_of (fields_of row.now) 1) ≡ true) }
    ensures quota { IfOk result (λ name_and_quota.
        names.number_of (field_of (fields_of row.now) 2) ≡ Some name_and_quota.1) }
    ensures fault { Answers (quota_row_fault record_no (fields_of row.now)) result }
{
    if row.len() != 3 {
        return Err(DocketFault::FieldCount { place: record_no });
    }
    let Some(name) = name_texts.name(field(row, 1))? else {
        return Err(DocketFault::BadName { place: record_no });
    };
    match number_of(field(row, 2)) {
        Some(quota) => Ok((name, quota)),
        None => Err(DocketFault::BadQuota { place: record_no }),
    }
}

/// Checks `C,full` or `C,n`. In a journal by worker the number of workers follows. The answer is the capacity, and the
/// number of workers.
pub(crate) fn capacity_row(
    row: &ByteRecord,
    record_no: u32,
) -> Result<(Capacity, Option<u32>), DocketFault>
    ensures capacity { IfOk result (λ capacity_and_workers.
        words.capacity_of (field_of (fields_of row.now) 1) ≡ Some capacity_and_workers.0) }
    ensures workers { IfOk result (λ capacity_and_workers.
        words.workers_of (field_of (fields_of row.now) 2) ≡ capacity_and_workers.1) }
    ensures fault { Answers (capacity_row_fault record_no (fields_of row.now)) result }
{
    if row.len() != 2 && row.len() != 3 {
        return Err(DocketFault::FieldCount { place: record_no });
    }
    let Some(capacity) = capacity_of(field(row, 1)) else {
        return Err(DocketFault::BadEvent { place: record_no });
    };
    let workers = workers_of(field(row, 2));
    if row.len() == 3 && workers.is_none() {
        return Err(DocketFault::BadEvent { place: record_no });
    }
    Ok((capacity, workers))
}

/// The fault of a `V` record, or none. The kind `V` is allowed only in the first record.
pub(crate) fn version_fault_of(row: &ByteRecord, record_no: u32) -> Option<DocketFault>
    ensures { result ≡ version_fault record_no (fields_of row.now) }
{
    if record_no != 1 {
        return Some(DocketFault::UnknownKind { place: record_no });
    }
    if row.len() != 2 {
        return Some(DocketFault::FieldCount { place: record_no });
    }
    if field(row, 1) != b"2".as_slice() {
        return Some(DocketFault::BadVersion { place: record_no });
    }
    None
}
