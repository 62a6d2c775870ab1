//! What every answer is made from: a docket with a sheet, and the members' lists as they were written.
ghost use Rattle.std.specs.Prelude.{◌≡◌, [], IfErr, IfOk, Some};
ghost use Rattle.docket.specs.Parts.{IsInFilesWithLists};
ghost use Rattle.docket.specs.WithLists.{IsReadWithin};
ghost use Rattle.match_model.specs.Instance.{IsProgramme, IsResident, list_at};
ghost use Rattle.match_model.specs.Placement.{member_count, programme_of};
ghost use Rattle.match_reasons.specs.Reason.{AreTaken, IsTaken};
ghost use Rattle.reasons_text.specs.Faults.{IsCaseFaultWithin, IsOfNoCase};
ghost use Rattle.reasons_text.specs.Files as spec;
ghost use Rattle.reasons_text.specs.Files.{IsFilesCaseFault};
ghost use Rattle.reasons_text.specs.Answers.{AreAnswers, AreOfRecord, IsAnswer, IsCase, WasRead, case_of};

use crate::answers::Answers;
use crate::fault::WhyFault;
use docket::{
    Docket, DocketFault, FileFault, RecordsFault, read_docket_with_lists_within,
    read_parts_with_lists,
};
use match_model::{Assignment, Limits, ProgrammeNo, ResidentNo, WrittenLists};
use match_reasons::{Listed, Taken, Why, all_places_taken, places_taken, why};
use std::alloc::{AllocError, Global};
use std::io::Read;
use std::marker::Model;
use std::random::RandomSource;

/// A docket with a sheet, and the members' lists as they were written. `taken_places` says for some first programmes,
/// or for all, how their places are taken.
pub struct Case {
    docket: Docket,
    written_lists: WrittenLists,
    taken_places: Vec<Taken>,
}

impl Model for Case {
    ghost use Rattle.std.specs.Prelude.{unwrap_or, []};
    ghost use Rattle.reasons_text.specs.Answers.{CaseParts, IsCase, case_of};

    ghost Value = { CaseParts };

    ghost view = { λ case. case_of case.docket (unwrap_or case.docket.sheet [])
        case.written_lists case.taken_places.items };

    ghost invariant = { λ case. IsCase (case_of case.docket (unwrap_or case.docket.sheet [])
        case.written_lists case.taken_places.items) };
}

// One function drops the whole case: callers prove nothing about its parts.
impl Drop for Case {
    fn drop(self) {
        let Case {
            docket: _,
            written_lists: _,
            taken_places: _,
        } = self;
    }
}

// How a programme's places are taken: looked up if this was counted before, else counted now.
fn taken_of(
    listed_instance: &Listed,
    sheet: &Assignment,
    taken_places: &[Taken],
    programme: ProgrammeNo,
) -> Taken
    requires { AreTaken listed_instance.now.written sheet.now taken_places.now }
    ensures { IsTaken
        (list_at listed_instance.now.written.programme_lists programme) sheet.now programme result }
{
    match taken_places.get(programme.0 as usize) {
        Some(programme_places) => *programme_places,
        None => places_taken(listed_instance, sheet, programme),
    }
}

// The answer for a resident about one programme.
fn reason_from(
    docket: &Docket,
    sheet: &Assignment,
    written_lists: &WrittenLists,
    taken_places: &[Taken],
    resident: ResidentNo,
    programme: ProgrammeNo,
) -> Why
    requires case { IsCase (case_of docket.now sheet.now written_lists.now taken_places.now) }
    requires resident { IsResident docket.now.instance resident }
    requires programme { IsProgramme docket.now.instance programme }
    ensures { IsAnswer (case_of docket.now sheet.now written_lists.now taken_places.now)
        resident programme result }
{
    let listed_instance = Listed::new(docket.instance(), written_lists);
    let programme_places = taken_of(&listed_instance, sheet, taken_places, programme);
    why(
        &listed_instance,
        sheet,
        &programme_places,
        resident,
        programme,
    )
}

// How many residents the sheet matches with a programme.
fn filled_from(
    docket: &Docket,
    sheet: &Assignment,
    written_lists: &WrittenLists,
    taken_places: &[Taken],
    programme: ProgrammeNo,
) -> u32
    requires { IsCase (case_of docket.now sheet.now written_lists.now taken_places.now) }
    ensures { result ≡ member_count sheet.now programme }
{
    let listed_instance = Listed::new(docket.instance(), written_lists);
    taken_of(&listed_instance, sheet, taken_places, programme).members
}

// The answers for a resident about each programme on the resident's list.
fn answers_from(
    alloc: Global,
    docket: &Docket,
    sheet: &Assignment,
    written_lists: &WrittenLists,
    taken_places: &[Taken],
    resident: ResidentNo,
) -> Result<Answers, AllocError>
    requires case { IsCase (case_of docket.now sheet.now written_lists.now taken_places.now) }
    requires resident { IsResident docket.now.instance resident }
    ensures first { IfOk result (λ answers. AreAnswers
        (case_of docket.now sheet.now written_lists.now taken_places.now)
        resident answers.programmes.items answers.reasons.items) }
    ensures record { IfOk result (λ answers.
        AreOfRecord docket.now written_lists.now resident answers.programmes.items) }
{
    // For the proof alone: the docket has a name for each member, and its sheet names only
    // members.
    let _inst = docket.instance();
    let mut programmes = Vec::new(alloc);
    let mut reasons = Vec::new(alloc);
    for choice_index in 0..written_lists.listed_by_resident(resident) {
        let Some(programme) = written_lists.choice(resident, choice_index) else {
            unreachable!("the list is so long");
        };
        programmes.push(programme)?;
        reasons.push(reason_from(
            docket,
            sheet,
            written_lists,
            taken_places,
            resident,
            programme,
        ))?;
    }
    Ok(Answers {
        programmes,
        reasons,
    })
}

// A fault of the files, with its file. Out of memory is no fault of a file.
fn in_its_file(file_fault: FileFault) -> WhyFault
    ensures { result ≡ spec.in_its_file file_fault }
{
    match file_fault.fault {
        RecordsFault::Docket(DocketFault::Memory) => WhyFault::Docket(DocketFault::Memory),
        fault => WhyFault::Records {
            file: file_fault.file,
            fault,
        },
    }
}

impl Case {
    /// Reads a docket that has a sheet, with its lists, within these limits. If all residents will get answers, the
    /// call also counts how each programme's places are taken. This function isn't inlined, since the reader's
    /// buffers in its frame would stay on the stack while the rest of the program runs.
    #[inline(never)]
    pub fn read_within<R: Read + Drop, H: RandomSource>(
        rt: &H,
        alloc: Global,
        limits: Limits,
        reader: R,
        are_all_residents_asked: bool,
    ) -> Result<Case, WhyFault>
        ensures read { IfOk result (λ case.
            IsReadWithin limits (R.remaining reader) case.docket case.written) }
        ensures sheet { IfOk result (λ case. case.docket.sheet ≡ Some case.sheet) }
        ensures fault { IfErr result (IsCaseFaultWithin limits (R.remaining reader)) }
    {
        match read_docket_with_lists_within(rt, alloc, limits, reader) {
            Ok((docket, written_lists)) => Case::of_docket(
                alloc,
                docket,
                written_lists,
                are_all_residents_asked,
            ),
            Err(fault) => Err(WhyFault::Reading(fault)),
        }
    }

    /// Does what `read_within` does, but over a docket's file and a sheet's file, each read as its own part. A fault
    /// of the files is told with its file.
    #[inline(never)]
    pub(crate) fn read_files<H: RandomSource>(
        rt: &H,
        alloc: Global,
        limits: Limits,
        docket_bytes: &[u8],
        sheet_bytes: &[u8],
        are_all_residents_asked: bool,
    ) -> Result<Case, WhyFault>
        ensures read { IfOk result (λ case. IsInFilesWithLists
            limits docket_bytes.now sheet_bytes.now [] case.docket case.written) }
        ensures sheet { IfOk result (λ case. case.docket.sheet ≡ Some case.sheet) }
        ensures fault { IfErr result (IsFilesCaseFault limits docket_bytes.now sheet_bytes.now) }
    {
        match read_parts_with_lists(rt, alloc, limits, docket_bytes, sheet_bytes, &[]) {
            Ok((docket, written_lists, _)) => match Case::of_docket(
                alloc,
                docket,
                written_lists,
                are_all_residents_asked,
            ) {
                Ok(case) => Ok(case),
                Err(WhyFault::NoSheet) => Err(WhyFault::EmptySheet),
                Err(_) => Err(WhyFault::Docket(DocketFault::Memory)),
            },
            Err(file_fault) => Err(in_its_file(file_fault)),
        }
    }

    /// The case of a docket that was read with these lists, if the docket has a sheet.
    pub fn of_docket(
        alloc: Global,
        docket: Docket,
        written_lists: WrittenLists,
        are_all_residents_asked: bool,
    ) -> Result<Case, WhyFault>
        requires { WasRead docket written_lists }
        ensures parts { IfOk result (λ case.
            (case.docket ≡ docket) × (case.written ≡ written_lists)) }
        ensures sheet { IfOk result (λ case. case.docket.sheet ≡ Some case.sheet) }
        ensures fault { IfErr result (IsOfNoCase docket) }
    {
        let Some(sheet) = docket.sheet() else {
            return Err(WhyFault::NoSheet);
        };
        let programmes = if are_all_residents_asked {
            docket.instance().programmes()
        } else {
            0
        };
        let listed_instance = Listed::new(docket.instance(), &written_lists);
        let taken_places = all_places_taken(alloc, &listed_instance, sheet, programmes)?;
        Ok(Case {
            docket,
            written_lists,
            taken_places,
        })
    }

    /// The docket.
    pub fn docket(&self) -> &Docket
        ensures { result.now ≡ self.now.docket }
    {
        &self.docket
    }

    /// The docket's sheet.
    pub fn sheet(&self) -> &Assignment
        ensures { result.now ≡ self.now.sheet }
    {
        let Some(sheet) = self.docket.sheet() else {
            unreachable!("a case has a sheet");
        };
        sheet
    }

    /// The lists as they were written.
    pub fn written(&self) -> &WrittenLists
        ensures { result.now ≡ self.now.written }
    {
        &self.written_lists
    }

    /// The programme with which the sheet matches a resident, or none.
    pub fn place_of(&self, resident: ResidentNo) -> Option<ProgrammeNo>
        requires { IsResident self.now.docket.instance resident }
        ensures { result ≡ programme_of self.now.sheet resident }
    {
        // For the proof alone: the sheet has an entry for each resident.
        let _inst = self.docket.instance();
        self.sheet().get(resident)
    }

    /// How many residents the sheet matches with a programme.
    pub fn filled(&self, programme: ProgrammeNo) -> u32
        ensures { result ≡ member_count self.now.sheet programme }
    {
        let taken_places = self.taken_places.as_slice();
        filled_from(
            &self.docket,
            self.sheet(),
            &self.written_lists,
            taken_places,
            programme,
        )
    }

    /// The answer for a resident about one programme: the first of the possible answers that is true.
    pub fn reason(&self, resident: ResidentNo, programme: ProgrammeNo) -> Why
        requires resident { IsResident self.now.docket.instance resident }
        requires programme { IsProgramme self.now.docket.instance programme }
        ensures { IsAnswer self.now resident programme result }
    {
        let taken_places = self.taken_places.as_slice();
        reason_from(
            &self.docket,
            self.sheet(),
            &self.written_lists,
            taken_places,
            resident,
            programme,
        )
    }

    /// The answers for a resident about each programme on the resident's R record, in order, and about no other
    /// programme.
    pub fn answers(&self, alloc: Global, resident: ResidentNo) -> Result<Answers, AllocError>
        requires { IsResident self.now.docket.instance resident }
        ensures first { IfOk result (λ answers.
            AreAnswers self.now resident answers.programmes.items answers.reasons.items) }

        // The programmes' names are the fields of the resident's R record, whatever bytes were read.
        ensures record { IfOk result (λ answers.
            AreOfRecord self.now.docket self.now.written resident answers.programmes.items) }
    {
        let taken_places = self.taken_places.as_slice();
        answers_from(
            alloc,
            &self.docket,
            self.sheet(),
            &self.written_lists,
            taken_places,
            resident,
        )
    }
}
