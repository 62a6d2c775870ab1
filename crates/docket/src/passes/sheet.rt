//! The third pass: the sheet.
ghost use Rattle.std.specs.Prelude.{◌≡◌, ◌<◌, ◌++◌, ◌∷◌, ◌&&◌, [], ℕ, List, Some, false, None, is_some, nat_eq, position, replicate, length, IfOk, IfErr, OnOk};
ghost use Rattle.std.specs.List.{list_all};
ghost use Rattle.docket.specs.Answers.{Answers};
ghost use Rattle.docket.specs.Contents.{placement_of, quotas_of};
ghost use Rattle.docket.specs.Fields.{unless};
ghost use Rattle.records.specs.Reading.{Fields};
ghost use Rattle.docket.specs.Known.{AreKnown};
ghost use Rattle.docket.specs.Passes.{first_from, mark_fault, filled_fault, placement_fault};
ghost use Rattle.docket.specs.SheetRows.{AreSheetRows};

use crate::fault::DocketFault;
use crate::store::sheet_rows::{Mark, SheetRow, SheetRows};
use docket_names::Members;
use match_model::{Assignment, Instance, ProgrammeNo, ResidentNo};
use std::alloc::{AllocError, Global};

// A vector of `count` flags, all false.
fn flags(alloc: Global, count: usize) -> Result<Vec<bool>, AllocError>
    ensures { IfOk result (λ flags. flags.items ≡ replicate count false) }
{
    vec![in alloc; false; count]
}

// A vector of `count` numbers, all 0.
fn zeros(alloc: Global, count: usize) -> Result<Vec<u32>, AllocError>
    ensures { IfOk result (λ counts. counts.items ≡ replicate count 0) }
{
    vec![in alloc; 0; count]
}

// Whether each flag is set.
fn all_set(flags: &[bool]) -> bool
    ensures { result ≡ list_all (λ flag. flag) flags.now }
{
    flags.iter().all(|flag| *flag)
}

// The member whose name is the text with this number.
fn known_member(members: &Members, text: u32, record_no: u32) -> Result<u32, DocketFault>
    ensures member { IfOk result (λ member. position (nat_eq text) members.now ≡ Some member) }
    ensures below { IfOk result (λ member. member < length members.now) }
    ensures fault { Answers (unless
        (is_some (position (nat_eq text) members.now)) (DocketFault.UnknownName record_no)) result }
{
    match members.member(text as usize) {
        Some(member) => Ok(member),
        None => Err(DocketFault::UnknownName { place: record_no }),
    }
}

// What is known from the rows of the sheet that were read so far.
#[derive(Drop)]
struct Marks {
    sheet: Assignment,
    // For each resident, whether an M or U row of this resident was read.
    marked_residents: Vec<bool>,
    // For each programme, whether an F row of this programme was read.
    filled_programmes: Vec<bool>,
    // For each programme, the number of M rows with this programme.
    matched_counts: Vec<u32>,
}

impl Marks {
    ghost use Rattle.docket.specs.SheetMarks.{IsBlank, IsMarked, IsSized, StandsAfter};

    // The marks before any row of the sheet is read.
    fn new(alloc: Global, programmes: usize, residents: usize) -> Result<Marks, DocketFault>
        ensures blank { IfOk result (λ marks. IsBlank marks programmes residents) }
        ensures memory { IfErr result (λ fault. fault ≡ DocketFault.Memory) }
    {
        let Ok(resident_count) = u32::try_from(residents) else {
            return Err(DocketFault::Memory);
        };
        let Ok(sheet) = Assignment::new(alloc, resident_count) else {
            return Err(DocketFault::Memory);
        };
        let marked_residents = flags(alloc, residents)?;
        let filled_programmes = flags(alloc, programmes)?;
        let matched_counts = zeros(alloc, programmes)?;
        Ok(Marks {
            sheet,
            marked_residents,
            filled_programmes,
            matched_counts,
        })
    }

    // Enters a row `M,resident,programme` into the marks.
    fn add_matched(
        &mut self,
        programmes: &Members,
        residents: &Members,
        record_no: u32,
        resident: u32,
        programme: u32,
    ) -> Result<(), DocketFault>
        requires sizes { IsSized self.old (length programmes.now) (length residents.now) }
        ensures sizes { OnOk result
            (IsSized self.new (length programmes.now) (length residents.now)) }
        ensures marked { OnOk result ((name_texts : Fields) (all_rows rows_before : List Fields)
            (row : Fields)
            → StandsAfter name_texts programmes.now residents.now all_rows rows_before record_no
            (Mark.Matched resident programme) row
            → IsMarked self.old all_rows rows_before
            → IsMarked self.new all_rows (rows_before ++ row ∷ [])) }
        ensures fault { (name_texts : Fields) (all_rows rows_before : List Fields) (row : Fields)
            → StandsAfter name_texts programmes.now residents.now all_rows rows_before record_no
            (Mark.Matched resident programme) row
            → IsMarked self.old all_rows rows_before
            → Answers (mark_fault all_rows rows_before row) result }
    {
        let resident = known_member(residents, resident, record_no)?;
        let programme = known_member(programmes, programme, record_no)?;
        if self.marked_residents[resident as usize] {
            return Err(DocketFault::BadSheet { place: record_no });
        }
        self.marked_residents[resident as usize] = true;
        self.matched_counts[programme as usize] =
            self.matched_counts[programme as usize].saturating_add(1);
        self.sheet
            .set(ResidentNo(resident), Some(ProgrammeNo(programme)));
        Ok(())
    }

    // Enters a row `U,resident` into the marks.
    fn add_unmatched(
        &mut self,
        residents: &Members,
        record_no: u32,
        resident: u32,
    ) -> Result<(), DocketFault>
        requires sizes { length self.old.marked_residents.items ≡ length residents.now }
        ensures sizes { (programmes : ℕ) → IsSized self.old programmes (length residents.now)
            → OnOk result (IsSized self.new programmes (length residents.now)) }
        ensures marked { (programmes : List ℕ)
            → OnOk result ((name_texts : Fields) (all_rows rows_before : List Fields) (row : Fields)
            → StandsAfter name_texts programmes residents.now all_rows rows_before record_no
            (Mark.Unmatched resident) row
            → IsMarked self.old all_rows rows_before
            → IsMarked self.new all_rows (rows_before ++ row ∷ [])) }
        ensures fault { (programmes : List ℕ) (name_texts : Fields)
            (all_rows rows_before : List Fields) (row : Fields)
            → StandsAfter name_texts programmes residents.now all_rows rows_before record_no
            (Mark.Unmatched resident) row
            → IsMarked self.old all_rows rows_before
            → Answers (mark_fault all_rows rows_before row) result }
    {
        let resident = known_member(residents, resident, record_no)?;
        if self.marked_residents[resident as usize] {
            return Err(DocketFault::BadSheet { place: record_no });
        }
        self.marked_residents[resident as usize] = true;
        Ok(())
    }

    // Enters a row `F,programme,filled,quota` into the marks. The row's two numbers are tested in the
    // third walk.
    fn add_filled(
        &mut self,
        programmes: &Members,
        record_no: u32,
        programme: u32,
    ) -> Result<(), DocketFault>
        requires sizes { length self.old.filled_programmes.items ≡ length programmes.now }
        ensures sizes { (residents : ℕ) → IsSized self.old (length programmes.now) residents
            → OnOk result (IsSized self.new (length programmes.now) residents) }
        ensures marked { (filled quota : ℕ) (residents : List ℕ)
            → OnOk result ((name_texts : Fields) (all_rows rows_before : List Fields) (row : Fields)
            → StandsAfter name_texts programmes.now residents all_rows rows_before record_no
            (Mark.Filled programme filled quota) row
            → IsMarked self.old all_rows rows_before
            → IsMarked self.new all_rows (rows_before ++ row ∷ [])) }
        ensures fault { (filled quota : ℕ)
            (residents : List ℕ) (name_texts : Fields) (all_rows rows_before : List Fields)
            (row : Fields)
            → StandsAfter name_texts programmes.now residents all_rows rows_before record_no
            (Mark.Filled programme filled quota) row
            → IsMarked self.old all_rows rows_before
            → Answers (mark_fault all_rows rows_before row) result }
    {
        let programme = known_member(programmes, programme, record_no)?;
        if self.filled_programmes[programme as usize] {
            return Err(DocketFault::BadSheet { place: record_no });
        }
        self.filled_programmes[programme as usize] = true;
        Ok(())
    }

    // Enters a kept row into the marks.
    fn add_row(
        &mut self,
        programmes: &Members,
        residents: &Members,
        sheet_row: SheetRow,
    ) -> Result<(), DocketFault>
        requires sizes { IsSized self.old (length programmes.now) (length residents.now) }
        ensures sizes { OnOk result
            (IsSized self.new (length programmes.now) (length residents.now)) }
        ensures marked { OnOk result ((name_texts : Fields) (all_rows rows_before : List Fields)
            (row : Fields)
            → StandsAfter name_texts programmes.now residents.now all_rows rows_before
            sheet_row.record_no sheet_row.mark row
            → IsMarked self.old all_rows rows_before
            → IsMarked self.new all_rows (rows_before ++ row ∷ [])) }
        ensures fault { (name_texts : Fields) (all_rows rows_before : List Fields) (row : Fields)
            → StandsAfter name_texts programmes.now residents.now all_rows rows_before
            sheet_row.record_no sheet_row.mark row
            → IsMarked self.old all_rows rows_before
            → Answers (mark_fault all_rows rows_before row) result }
    {
        let record_no = sheet_row.record_no;
        match sheet_row.mark {
            Mark::Matched {
                resident,
                programme,
            } => self.add_matched(programmes, residents, record_no, resident, programme),
            Mark::Unmatched { resident } => self.add_unmatched(residents, record_no, resident),
            Mark::Filled { programme, .. } => self.add_filled(programmes, record_no, programme),
        }
    }

    // The first walk over the rows: it enters them into the marks.
    fn add_rows(
        &mut self,
        rows: &[SheetRow],
        programmes: &Members,
        residents: &Members,
    ) -> Result<(), DocketFault>
        requires sizes { IsSized self.old (length programmes.now) (length residents.now) }
        ensures sizes { OnOk result
            (IsSized self.new (length programmes.now) (length residents.now)) }
        ensures marked { OnOk result ((name_texts : Fields) (all_rows : List Fields)
            → AreSheetRows name_texts rows.now all_rows
            → AreKnown name_texts programmes.now residents.now all_rows
            → IsMarked self.old all_rows [] → IsMarked self.new all_rows all_rows) }
        ensures fault { (name_texts : Fields) (all_rows : List Fields)
            → AreSheetRows name_texts rows.now all_rows
            → AreKnown name_texts programmes.now residents.now all_rows
            → IsMarked self.old all_rows []
            → Answers (first_from (mark_fault all_rows) [] all_rows) result }
    {
        for sheet_row in rows {
            self.add_row(programmes, residents, *sheet_row)?;
        }
        Ok(())
    }

    // Whether each resident has an M or U row, and each programme has an F row.
    fn is_complete(&self) -> bool
        ensures { result ≡ (list_all (λ flag.
            flag) self.now.marked_residents.items
            && list_all (λ flag. flag) self.now.filled_programmes.items) }
    {
        all_set(self.marked_residents.as_slice()) && all_set(self.filled_programmes.as_slice())
    }

    // Whether a kept row agrees with the number of M rows and with the quota, if the row is an F row.
    fn is_right(&self, programmes: &Members, sheet_row: SheetRow, instance: &Instance) -> bool
        requires sizes { length self.now.matched_counts.items ≡ length programmes.now }
        requires quotas { length instance.now.quotas ≡ length programmes.now }
        ensures { (name_texts : Fields) (residents : List ℕ) (all_rows rows_before : List Fields)
            (row : Fields)
            → StandsAfter name_texts programmes.now residents all_rows rows_before
            sheet_row.record_no sheet_row.mark row
            → IsMarked self.now all_rows all_rows
            → instance.now.quotas ≡ quotas_of all_rows
            → first_from (mark_fault all_rows) [] all_rows ≡ None
            → filled_fault all_rows rows_before row ≡ unless result
            (DocketFault.BadSheet sheet_row.record_no) }
    {
        let Mark::Filled {
            programme,
            filled,
            quota,
        } = sheet_row.mark
        else {
            return true;
        };
        // After the first walk there is no row of an unknown programme.
        let Some(programme) = programmes.member(programme as usize) else {
            return false;
        };
        filled == self.matched_counts[programme as usize]
            && quota == instance.quota(ProgrammeNo(programme))
    }

    // The third walk over the rows: it finds the first F row whose numbers are wrong.
    fn check_filled(
        &self,
        rows: &[SheetRow],
        programmes: &Members,
        instance: &Instance,
    ) -> Result<(), DocketFault>
        requires sizes { length self.now.matched_counts.items ≡ length programmes.now }
        requires quotas { length instance.now.quotas ≡ length programmes.now }
        ensures { (name_texts : Fields) (residents : List ℕ) (all_rows : List Fields)
            → AreSheetRows name_texts rows.now all_rows
            → AreKnown name_texts programmes.now residents all_rows
            → IsMarked self.now all_rows all_rows → instance.now.quotas ≡ quotas_of all_rows
            → first_from (mark_fault all_rows) [] all_rows ≡ None
            → Answers (first_from (filled_fault all_rows) [] all_rows) result }
    {
        for sheet_row in rows {
            if !self.is_right(programmes, *sheet_row, instance) {
                return Err(DocketFault::BadSheet {
                    place: sheet_row.record_no,
                });
            }
        }
        Ok(())
    }
}

/// The sheet of a docket that has one, from the rows that were kept of this many records.
pub(crate) fn sheet_of(
    alloc: Global,
    record_count: u32,
    rows: &SheetRows,
    programmes: &Members,
    residents: &Members,
    instance: &Instance,
) -> Result<Assignment, DocketFault>
    requires quotas { length instance.now.quotas ≡ length programmes.now }
    ensures sheet { IfOk result (λ sheet. (name_texts : Fields) (all_rows : List Fields)
        → AreSheetRows name_texts rows.now all_rows
        → AreKnown name_texts programmes.now residents.now all_rows
        → instance.now.quotas ≡ quotas_of all_rows → record_count ≡ length all_rows
        → sheet ≡ placement_of all_rows) }
    ensures fault { (name_texts : Fields) (all_rows : List Fields)
        → AreSheetRows name_texts rows.now all_rows
        → AreKnown name_texts programmes.now residents.now all_rows
        → instance.now.quotas ≡ quotas_of all_rows
        → record_count ≡ length all_rows → Answers (placement_fault all_rows) result }
{
    let mut marks = Marks::new(alloc, programmes.len(), residents.len())?;
    marks.add_rows(rows.rows(), programmes, residents)?;
    if !marks.is_complete() {
        return Err(DocketFault::BadSheet {
            place: record_count,
        });
    }
    marks.check_filled(rows.rows(), programmes, instance)?;
    Ok(marks.sheet)
}
