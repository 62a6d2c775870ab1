//! How a docket is read from the files of a market, each read as its own part.
ghost use Rattle.std.specs.Prelude.{List, [], ◌≡◌, ◌≤◌, None, Some, IfErr, IfOk, IfSome, OnOk};
ghost use Rattle.records.specs.Reading.{Fields, rows_of};
ghost use Rattle.docket.specs.Limits.{most_records as most_records_in};
ghost use Rattle.docket.specs.Parts.{AreEnds, AreGiven, GoesOn, IsInFiles, IsInFilesWithLists, Tells, fault_of_files, file_fault, files_fault, rows_of_all};
ghost use Rattle.docket.specs.Passed.{HasPassed, IsPassed};
ghost use Rattle.docket.specs.Reading.{IsReading};
ghost use Rattle.docket.specs.WithLists.{lists_if};

use crate::docket::Docket;
use crate::fault::DocketFault;
use crate::file_fault::{Ends, FileFault, fault_in_file, located};
use crate::part::Part;
use crate::programme_lists::ProgrammeLists;
use crate::read::{docket_from, read_part};
use crate::reading::Reading;
use crate::records_fault::RecordsFault;
use match_model::{Limits, WrittenLists};
use std::alloc::Global;
use std::hash::RandomState;
use std::random::RandomSource;

// Reads all records of one more file, with what they declare. A fault is told with its file.
fn read_file(
    alloc: Global,
    file: Part,
    bytes: &[u8],
    reading: &mut Reading,
) -> Result<(), FileFault>
    requires within { reading.old.records ≤ most_records_in reading.old.declared.builder.limits }
    requires workers { IfSome reading.old.declared.workers (λ count. count ≤ 8) }
    ensures workers { OnOk result (IfSome reading.new.declared.workers (λ count. count ≤ 8)) }
    ensures passed { OnOk result ((kept_rows : List Fields) → IsPassed reading.old kept_rows
        → GoesOn (Some file) kept_rows (Some (rows_of bytes.now)) reading.new) }
    ensures limits { OnOk result
        (reading.new.declared.builder.limits ≡ reading.old.declared.builder.limits) }
    ensures fault { IfErr result (λ fault. (kept_rows : List Fields)
        → IsPassed reading.old kept_rows → Tells
        (file_fault file reading.old.declared.builder.limits kept_rows (rows_of bytes.now)) fault) }
{
    let records_before = reading.records;
    match read_part(alloc, Some(file), bytes, reading) {
        Ok(()) => Ok(()),
        Err(fault) => Err(fault_in_file(file, records_before, fault)),
    }
}

// Reads all records of three files, each of its own part, with what they declare, and returns where the files end.
fn read_three(
    alloc: Global,
    docket: &[u8],
    sheet: &[u8],
    journal: &[u8],
    reading: &mut Reading,
) -> Result<Ends, FileFault>
    requires empty { IsReading reading.old [] }
    requires workers { IfSome reading.old.declared.workers (λ count. count ≤ 8) }
    ensures own { OnOk result (files_fault
        reading.old.declared.builder.limits docket.now sheet.now journal.now ≡ None) }
    ensures passed { OnOk result
        (HasPassed (Some (rows_of_all docket.now sheet.now journal.now)) reading.new) }
    ensures limits { OnOk result
        (reading.new.declared.builder.limits ≡ reading.old.declared.builder.limits) }
    ensures ends { IfOk result (AreEnds docket.now sheet.now) }
    ensures fault { IfErr result (Tells (files_fault
        reading.old.declared.builder.limits docket.now sheet.now journal.now)) }
{
    read_file(alloc, Part::Docket, docket, reading)?;
    let docket_end = reading.records;
    read_file(alloc, Part::Sheet, sheet, reading)?;
    let sheet_end = reading.records;
    read_file(alloc, Part::Journal, journal, reading)?;
    Ok(Ends {
        docket: docket_end,
        sheet: sheet_end,
    })
}

// Reads a docket from three files. The docket's lists are returned if `keeps_lists` is set.
fn parts_as<H: RandomSource>(
    rt: &H,
    alloc: Global,
    limits: Limits,
    docket: &[u8],
    sheet: &[u8],
    journal: &[u8],
    keeps_lists: bool,
) -> Result<(Docket, Option<(WrittenLists, ProgrammeLists)>), FileFault>
    ensures docket { IfOk result (λ docket_and_lists.
        IsInFiles limits docket.now sheet.now journal.now docket_and_lists.0) }
    ensures lists { IfOk result (λ docket_and_lists.
        docket_and_lists.1 ≡ lists_if keeps_lists (rows_of_all docket.now sheet.now journal.now)) }
    ensures fault { IfErr result
        (Tells (fault_of_files limits docket.now sheet.now journal.now)) }
{
    let Ok(hash_keys) = RandomState::new(rt) else {
        return Err(FileFault {
            file: Part::Docket,
            fault: RecordsFault::Docket(DocketFault::Read { place: 1 }),
        });
    };
    let mut reading = Reading::new(alloc, hash_keys, limits);
    let ends = read_three(alloc, docket, sheet, journal, &mut reading)?;
    match docket_from(alloc, reading, keeps_lists) {
        Ok(docket_and_lists) => Ok(docket_and_lists),
        Err(fault) => Err(located(&ends, fault)),
    }
}

/// Reads a docket from the files of a market within these limits. A missing file counts as empty. The docket is that of
/// the records of the files, one file after another. An open quote, a byte order mark or an unfinished last line in one
/// file changes no record of another file.
///
/// The reported fault is the first fault that these records have by the four passes. A record of another part has a
/// fault of the first pass.
pub fn read_parts<H: RandomSource>(
    rt: &H,
    alloc: Global,
    limits: Limits,
    docket: &[u8],
    sheet: &[u8],
    journal: &[u8],
) -> Result<Docket, FileFault>
    ensures docket { IfOk result (IsInFiles limits docket.now sheet.now journal.now) }
    ensures fault { IfErr result
        (Tells (fault_of_files limits docket.now sheet.now journal.now)) }
{
    let (docket, _) = parts_as(rt, alloc, limits, docket, sheet, journal, false)?;
    Ok(docket)
}

/// Reads a docket as `read_parts` does, and also returns its lists as they were written, and which programmes have one.
pub fn read_parts_with_lists<H: RandomSource>(
    rt: &H,
    alloc: Global,
    limits: Limits,
    docket: &[u8],
    sheet: &[u8],
    journal: &[u8],
) -> Result<(Docket, WrittenLists, ProgrammeLists), FileFault>
    ensures read { IfOk result (λ docket_and_lists.
        IsInFilesWithLists limits docket.now sheet.now journal.now
        docket_and_lists.0 docket_and_lists.1) }
    ensures given { IfOk result (λ docket_and_lists.
        AreGiven (rows_of_all docket.now sheet.now journal.now)
        docket_and_lists.0 docket_and_lists.2) }
    ensures fault { IfErr result
        (Tells (fault_of_files limits docket.now sheet.now journal.now)) }
{
    let (docket, lists_read) = parts_as(rt, alloc, limits, docket, sheet, journal, true)?;
    let Some((written_lists, programme_lists)) = lists_read else {
        unreachable!("the lists are kept");
    };
    Ok((docket, written_lists, programme_lists))
}
