//! The second pass: the lists and the withdrawals.
ghost use Rattle.std.specs.Prelude.{◌≡◌, ◌<◌, ◌+◌, ℕ, [], List, None, length, replicate, take, map, slice_get, Some, OnOk, IfOk, true};
ghost use Rattle.match_model.specs.Draft.{instance_of as instance_from};
ghost use Rattle.std.specs.List.{list_all};
ghost use Rattle.std.specs.Option.{option_or};
ghost use Rattle.docket.specs.Answers.{Answers};
ghost use Rattle.docket.specs.Contents.{draft_of};
ghost use Rattle.docket.specs.Fields.{unless};
ghost use Rattle.records.specs.Reading.{Fields};
ghost use Rattle.docket.specs.Known.{AreKnown};
ghost use Rattle.docket.specs.ListPass.{IsNext, is_member, member_at};
ghost use Rattle.docket.specs.Lists.{AreLists, KeptEntry};
ghost use Rattle.docket.specs.Passes.{first_from, ranking_fault, pairs_fault};
ghost use Rattle.docket.specs.Ranking.{IsRanked};
ghost use Rattle.docket.specs.Rows.{row_at};
ghost use Rattle.docket.specs.WithLists.{lists_if};
ghost use Rattle.docket.specs.declared.fault.DocketFault.TheVariants.{UnknownName};
ghost use Rattle.docket.specs.declared.store.lists.ListKind.TheVariants.{Ranking, Withdrawal};
ghost use Rattle.docket.specs.declared.vocabulary.Side.TheVariants.{Programmes, Residents};

use crate::declarations::model_fault;
use crate::fault::DocketFault;
use crate::programme_lists::ProgrammeLists;
use crate::store::lists::{ListKind, ListRow, Lists};
use crate::vocabulary::Side;
use docket_names::Members;
use match_model::{Instance, InstanceBuilder, ProgrammeNo, ResidentNo, WrittenLists};
use std::alloc::{AllocError, Global};

// Fills `list_buffer` with the residents whose names have these numbers.
fn listed_residents(
    record_no: u32,
    name_numbers: &[u32],
    residents: &Members,
    list_buffer: &mut Vec<ResidentNo>,
) -> Result<(), DocketFault>
    ensures listed { OnOk result
        (list_buffer.new.items ≡ map (member_at residents.now) name_numbers.now) }
    ensures fault { Answers
        (unless (list_all (is_member residents.now) name_numbers.now)
        (UnknownName record_no)) result }
{
    list_buffer.clear();
    for name in name_numbers {
        let Some(resident) = residents.member(*name as usize) else {
            return Err(DocketFault::UnknownName { place: record_no });
        };
        list_buffer.push(ResidentNo(resident))?;
    }
    Ok(())
}

// Fills `list_buffer` with the programmes whose names have these numbers.
fn listed_programmes(
    record_no: u32,
    name_numbers: &[u32],
    programmes: &Members,
    list_buffer: &mut Vec<ProgrammeNo>,
) -> Result<(), DocketFault>
    ensures listed { OnOk result
        (list_buffer.new.items ≡ map (member_at programmes.now) name_numbers.now) }
    ensures fault { Answers
        (unless (list_all (is_member programmes.now) name_numbers.now)
        (UnknownName record_no)) result }
{
    list_buffer.clear();
    for name in name_numbers {
        let Some(programme) = programmes.member(*name as usize) else {
            return Err(DocketFault::UnknownName { place: record_no });
        };
        list_buffer.push(ProgrammeNo(programme))?;
    }
    Ok(())
}

// Gives the builder the list in a row `P,programme,resident,..`, and keeps it.
fn rank_residents(
    alloc: Global,
    row: &ListRow,
    programmes: &Members,
    residents: &Members,
    builder: &mut InstanceBuilder,
    programme_lists: &mut ProgrammeLists,
    list_buffer: &mut Vec<ResidentNo>,
) -> Result<(), DocketFault>
    ensures ranked { OnOk result ((name_texts : Fields) (rows : List Fields) (record_index : ℕ)
        → IsNext name_texts programmes.now residents.now builder.old rows record_index
        (record {
          record_no = row.now.record_no;
          kind = Ranking Programmes;
          owner = row.now.owner;
          listed = row.now.listed_names.now;
        }) → IsRanked builder.new rows (take (record_index + 1) rows)) }
    ensures fault { (name_texts : Fields) (rows : List Fields) (record_index : ℕ)
        → IsNext name_texts programmes.now residents.now builder.old rows record_index
        (record {
          record_no = row.now.record_no;
          kind = Ranking Programmes;
          owner = row.now.owner;
          listed = row.now.listed_names.now;
        })
        → Answers (ranking_fault rows (take record_index rows) (row_at rows record_index)) result }
    ensures limits { OnOk result (builder.new.limits ≡ builder.old.limits) }
    ensures given { OnOk result (programme_lists.old ≡ builder.old.programme_lists
        → programme_lists.new ≡ builder.new.programme_lists) }
{
    let Some(owner) = programmes.member(row.owner as usize) else {
        return Err(DocketFault::UnknownName {
            place: row.record_no,
        });
    };
    listed_residents(row.record_no, row.listed_names, residents, list_buffer)?;
    let (owner, list) = (ProgrammeNo(owner), list_buffer.as_slice());
    programme_lists.give(alloc, owner, list)?;
    match builder.programme_list(owner, list) {
        Ok(()) => Ok(()),
        Err(fault) => Err(model_fault(row.record_no, fault)),
    }
}

// Gives the builder the list in a row `R,resident,programme,..`.
fn rank_programmes(
    row: &ListRow,
    programmes: &Members,
    residents: &Members,
    builder: &mut InstanceBuilder,
    list_buffer: &mut Vec<ProgrammeNo>,
) -> Result<(), DocketFault>
    ensures ranked { OnOk result ((name_texts : Fields) (rows : List Fields) (record_index : ℕ)
        → IsNext name_texts programmes.now residents.now builder.old rows record_index
        (record {
          record_no = row.now.record_no;
          kind = Ranking Residents;
          owner = row.now.owner;
          listed = row.now.listed_names.now;
        }) → IsRanked builder.new rows (take (record_index + 1) rows)) }
    ensures fault { (name_texts : Fields) (rows : List Fields) (record_index : ℕ)
        → IsNext name_texts programmes.now residents.now builder.old rows record_index
        (record {
          record_no = row.now.record_no;
          kind = Ranking Residents;
          owner = row.now.owner;
          listed = row.now.listed_names.now;
        })
        → Answers (ranking_fault rows (take record_index rows) (row_at rows record_index)) result }
    ensures limits { OnOk result (builder.new.limits ≡ builder.old.limits) }
    ensures same { OnOk result (builder.new.programme_lists ≡ builder.old.programme_lists) }
{
    let Some(owner) = residents.member(row.owner as usize) else {
        return Err(DocketFault::UnknownName {
            place: row.record_no,
        });
    };
    listed_programmes(row.record_no, row.listed_names, programmes, list_buffer)?;
    match builder.resident_list(ResidentNo(owner), list_buffer.as_slice()) {
        Ok(()) => Ok(()),
        Err(fault) => Err(model_fault(row.record_no, fault)),
    }
}

// Gives the builder the withdrawal in a row `W,P,programme`.
fn withdraw_programme(
    row: &ListRow,
    programmes: &Members,
    builder: &mut InstanceBuilder,
) -> Result<(), DocketFault>
    ensures ranked { OnOk result ((name_texts : Fields) (rows : List Fields)
        (residents : List ℕ) (record_index : ℕ)
        → IsNext name_texts programmes.now residents builder.old rows record_index (record {
          record_no = row.now.record_no;
          kind = Withdrawal Programmes;
          owner = row.now.owner;
          listed = [];
        })
        → IsRanked builder.new rows (take (record_index + 1) rows)) }
    ensures fault { (name_texts : Fields) (rows : List Fields)
        (residents : List ℕ) (record_index : ℕ)
        → IsNext name_texts programmes.now residents builder.old rows record_index (record {
          record_no = row.now.record_no;
          kind = Withdrawal Programmes;
          owner = row.now.owner;
          listed = [];
        })
        → Answers (ranking_fault rows (take record_index rows) (row_at rows record_index)) result }
    ensures limits { OnOk result (builder.new.limits ≡ builder.old.limits) }
    ensures same { OnOk result (builder.new.programme_lists ≡ builder.old.programme_lists) }
{
    let Some(programme) = programmes.member(row.owner as usize) else {
        return Err(DocketFault::UnknownName {
            place: row.record_no,
        });
    };
    match builder.withdraw_programme(ProgrammeNo(programme)) {
        Ok(()) => Ok(()),
        Err(fault) => Err(model_fault(row.record_no, fault)),
    }
}

// Gives the builder the withdrawal in a row `W,R,resident`.
fn withdraw_resident(
    row: &ListRow,
    residents: &Members,
    builder: &mut InstanceBuilder,
) -> Result<(), DocketFault>
    ensures ranked { OnOk result ((name_texts : Fields) (rows : List Fields)
        (programmes : List ℕ) (record_index : ℕ)
        → IsNext name_texts programmes residents.now builder.old rows record_index
        (record {
          record_no = row.now.record_no;
          kind = Withdrawal Residents;
          owner = row.now.owner;
          listed = [];
        }) → IsRanked builder.new rows (take (record_index + 1) rows)) }
    ensures fault { (name_texts : Fields) (rows : List Fields)
        (programmes : List ℕ) (record_index : ℕ)
        → IsNext name_texts programmes residents.now builder.old rows record_index (record {
          record_no = row.now.record_no;
          kind = Withdrawal Residents;
          owner = row.now.owner;
          listed = [];
        })
        → Answers (ranking_fault rows (take record_index rows) (row_at rows record_index)) result }
    ensures limits { OnOk result (builder.new.limits ≡ builder.old.limits) }
    ensures same { OnOk result (builder.new.programme_lists ≡ builder.old.programme_lists) }
{
    let Some(resident) = residents.member(row.owner as usize) else {
        return Err(DocketFault::UnknownName {
            place: row.record_no,
        });
    };
    match builder.withdraw_resident(ResidentNo(resident)) {
        Ok(()) => Ok(()),
        Err(fault) => Err(model_fault(row.record_no, fault)),
    }
}

// Gives the builder the list or the withdrawal in this row of the store.
fn rank_row(
    alloc: Global,
    lists: &Lists,
    row_index: usize,
    programmes: &Members,
    residents: &Members,
    builder: &mut InstanceBuilder,
    programme_lists: &mut ProgrammeLists,
    listed_by_programme: &mut Vec<ResidentNo>,
    listed_by_resident: &mut Vec<ProgrammeNo>,
) -> Result<(), DocketFault>
    requires { row_index < length lists.now.entries }
    ensures ranked { OnOk result ((name_texts : Fields) (rows : List Fields)
        (record_index : ℕ) (entry : KeptEntry)
        → slice_get lists.now.entries row_index ≡ Some entry
        → IsNext name_texts programmes.now residents.now builder.old rows record_index entry
        → IsRanked builder.new rows (take (record_index + 1) rows)) }
    ensures fault { (name_texts : Fields) (rows : List Fields)
        (record_index : ℕ) (entry : KeptEntry)
        → slice_get lists.now.entries row_index ≡ Some entry
        → IsNext name_texts programmes.now residents.now builder.old rows record_index entry
        → Answers (ranking_fault rows (take record_index rows) (row_at rows record_index)) result }
    ensures limits { OnOk result (builder.new.limits ≡ builder.old.limits) }
    ensures given { OnOk result (programme_lists.old ≡ builder.old.programme_lists
        → programme_lists.new ≡ builder.new.programme_lists) }
{
    let row = lists.row(row_index);
    match row.kind {
        ListKind::Ranking(Side::Programmes) => rank_residents(
            alloc,
            &row,
            programmes,
            residents,
            builder,
            programme_lists,
            listed_by_programme,
        ),
        ListKind::Ranking(Side::Residents) => {
            rank_programmes(&row, programmes, residents, builder, listed_by_resident)
        }
        ListKind::Withdrawal(Side::Programmes) => { withdraw_programme(&row, programmes, builder) }
        ListKind::Withdrawal(Side::Residents) => { withdraw_resident(&row, residents, builder) }
    }
}

// Gives the builder all lists and withdrawals, in the order of the rows, and keeps the programmes' lists.
fn rank(
    alloc: Global,
    lists: &Lists,
    programmes: &Members,
    residents: &Members,
    builder: &mut InstanceBuilder,
    programme_lists: &mut ProgrammeLists,
) -> Result<(), DocketFault>
    ensures ranked { OnOk result ((name_texts : Fields) (rows : List Fields)
        → AreLists name_texts lists.now rows → AreKnown name_texts programmes.now residents.now rows
        → IsRanked builder.old rows [] → IsRanked builder.new rows rows) }
    ensures fault { (name_texts : Fields) (rows : List Fields)
        → AreLists name_texts lists.now rows → AreKnown name_texts programmes.now residents.now rows
        → IsRanked builder.old rows [] → Answers (first_from (ranking_fault rows) [] rows) result }
    ensures limits { OnOk result (builder.new.limits ≡ builder.old.limits) }
    ensures given { OnOk result (programme_lists.old ≡ builder.old.programme_lists
        → programme_lists.new ≡ builder.new.programme_lists) }
{
    let mut listed_by_programme = Vec::new(alloc);
    let mut listed_by_resident = Vec::new(alloc);
    for row_index in 0..lists.len() {
        rank_row(
            alloc,
            lists,
            row_index,
            programmes,
            residents,
            builder,
            programme_lists,
            &mut listed_by_programme,
            &mut listed_by_resident,
        )?;
    }
    Ok(())
}

// The instance that the builder makes after this many records, and the lists if `keeps_lists` is set.
fn finished(
    builder: InstanceBuilder,
    record_count: u32,
    programme_lists: ProgrammeLists,
    keeps_lists: bool,
) -> Result<(Instance, Option<(WrittenLists, ProgrammeLists)>), DocketFault>
    ensures instance { IfOk result (λ instance_and_lists. (rows : List Fields)
        → IsRanked builder rows rows → instance_and_lists.0 ≡ instance_from (draft_of rows)) }
    ensures lists { IfOk result (λ instance_and_lists. (rows : List Fields)
        → IsRanked builder rows rows
        → (keeps_lists ≡ true → programme_lists ≡ builder.programme_lists)
        → instance_and_lists.1 ≡ lists_if keeps_lists rows) }
    ensures fault { (rows : List Fields) → IsRanked builder rows rows
        → record_count ≡ length rows → Answers (pairs_fault builder.limits rows) result }
{
    match builder.finish_with_lists() {
        Ok((instance, written_lists)) if keeps_lists => Ok((
            instance,
            Some((written_lists, programme_lists)),
        )),
        Ok((instance, _)) => Ok((instance, None)),
        Err(refused) => Err(model_fault(record_count, refused.fault)),
    }
}

// The place for the programmes' lists, with no list yet; no place if lists are not kept.
fn no_lists(
    alloc: Global,
    programmes: &Members,
    keeps_lists: bool,
) -> Result<ProgrammeLists, AllocError>
    ensures { keeps_lists ≡ true
        → IfOk result (λ lists. lists ≡ replicate (length programmes.now) None) }
{
    ProgrammeLists::none(alloc, if keeps_lists { programmes.len() } else { 0 })
}

/// The instance that the builder makes from the lists and withdrawals of this many records, and the lists if
/// `keeps_lists` is set.
pub(crate) fn instance_of(
    alloc: Global,
    record_count: u32,
    lists: &Lists,
    programmes: &Members,
    residents: &Members,
    mut builder: InstanceBuilder,
    keeps_lists: bool,
) -> Result<(Instance, Option<(WrittenLists, ProgrammeLists)>), DocketFault>
    ensures instance { IfOk result (λ instance_and_lists. (name_texts : Fields) (rows : List Fields)
        → AreLists name_texts lists.now rows → AreKnown name_texts programmes.now residents.now rows
        → IsRanked builder rows [] → record_count ≡ length rows
        → instance_and_lists.0 ≡ instance_from (draft_of rows)) }
    ensures lists { IfOk result (λ instance_and_lists. (name_texts : Fields) (rows : List Fields)
        → AreLists name_texts lists.now rows → AreKnown name_texts programmes.now residents.now rows
        → IsRanked builder rows [] → record_count ≡ length rows
        → instance_and_lists.1 ≡ lists_if keeps_lists rows) }
    ensures fault { (name_texts : Fields) (rows : List Fields)
        → AreLists name_texts lists.now rows → AreKnown name_texts programmes.now residents.now rows
        → IsRanked builder rows [] → record_count ≡ length rows → Answers (option_or
        (first_from (ranking_fault rows) [] rows) (pairs_fault builder.limits rows)) result }
{
    let mut programme_lists = no_lists(alloc, programmes, keeps_lists)?;
    rank(
        alloc,
        lists,
        programmes,
        residents,
        &mut builder,
        &mut programme_lists,
    )?;
    finished(builder, record_count, programme_lists, keeps_lists)
}
