//! How a docket is read from three files, each read as its own part.
ghost use Rattle.std.specs.Prelude.{◌≡◌, IfOk, IfErr};
ghost use Rattle.audit_files.specs.Answer.{IsDocketIn, IsReadingFault};

use crate::fault::{FilesFault, files_fault};
use docket::{Docket, read_parts};
use match_model::Limits;
use std::alloc::Global;
use std::random::RandomSource;

/// Reads a docket from three files, each read as its own part. A missing file counts as empty.
pub(crate) fn read_files<H: RandomSource>(
    rt: &H,
    alloc: Global,
    docket: &[u8],
    sheet: &[u8],
    journal: &[u8],
) -> Result<Docket, FilesFault>
    ensures docket { IfOk result (IsDocketIn docket.now sheet.now journal.now) }
    ensures fault { IfErr result (IsReadingFault docket.now sheet.now journal.now) }
{
    match read_parts(rt, alloc, Limits::National, docket, sheet, journal) {
        Ok(docket) => Ok(docket),
        Err(file_fault) => Err(files_fault(file_fault)),
    }
}
