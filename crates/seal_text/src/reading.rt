//! Reading what is to be sealed, each part from its own file.
ghost use Rattle.std.specs.Prelude.{[], ◌≡◌, IfErr, IfOk, Some};
ghost use Rattle.audit_files.specs.Answer.{IsReadingFault};
ghost use Rattle.docket.specs.Parts.{AreGiven, IsInFilesWithLists, rows_of_all};
ghost use Rattle.seal_text.specs.Serving.{IsCaseIn, IsCaseFault};

use audit_files::{FilesFault, files_fault};
use docket::{Docket, ProgrammeLists, read_parts_with_lists};
use match_model::{Limits, WrittenLists};
use reasons_text::{Case, WhyFault};
use std::alloc::Global;
use std::random::RandomSource;

/// The docket in the records of two files, each read as its own part, and its lists as they were written. A missing
/// file counts as empty.
pub(crate) fn read_lists<H: RandomSource>(
    rt: &H,
    alloc: Global,
    docket: &[u8],
    sheet: &[u8],
) -> Result<(Docket, WrittenLists, ProgrammeLists), FilesFault>
    ensures read { IfOk result (λ parts.
        IsInFilesWithLists Limits.National docket.now sheet.now [] parts.0 parts.1) }
    ensures given { IfOk result (λ parts.
        AreGiven (rows_of_all docket.now sheet.now []) parts.0 parts.2) }
    ensures fault { IfErr result (IsReadingFault docket.now sheet.now []) }
{
    match read_parts_with_lists(rt, alloc, Limits::National, docket, sheet, &[]) {
        Ok(parts) => Ok(parts),
        Err(file_fault) => Err(files_fault(file_fault)),
    }
}

/// The docket and the sheet in the records of two files, each read as its own part, and the programmes' lists.
pub(crate) fn read_case<H: RandomSource>(
    rt: &H,
    alloc: Global,
    docket: &[u8],
    sheet: &[u8],
) -> Result<(Case, ProgrammeLists), FilesFault>
    ensures case { IfOk result (λ parts. IsCaseIn docket.now sheet.now parts.0) }
    ensures given { IfOk result (λ parts.
        AreGiven (rows_of_all docket.now sheet.now []) parts.0.docket parts.1) }
    ensures fault { IfErr result (IsCaseFault docket.now sheet.now) }
{
    let (docket, lists, given_lists) = match read_lists(rt, alloc, docket, sheet) {
        Ok(parts) => parts,
        Err(fault) => return Err(fault),
    };
    match Case::of_docket(alloc, docket, lists, true) {
        Ok(case) => Ok((case, given_lists)),
        Err(WhyFault::NoSheet) => Err(FilesFault::NoSheet),
        Err(_) => Err(FilesFault::Memory),
    }
}
