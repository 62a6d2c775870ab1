//! In which file a fault is, and at which record of the file.
ghost use Rattle.std.specs.Prelude.{◌≡◌};
ghost use Rattle.docket.specs.FileFault as spec;

use crate::fault::DocketFault;
use crate::part::Part;
use crate::records_fault::{RecordsFault, counted_in_file};

/// A fault of files that are read as parts, with the file in which it is.
#[derive(Clone, Copy, Debug, PartialEq, Eq)]
pub struct FileFault {
    /// The file in which the fault is.
    pub file: Part,
    /// The fault. The number in the fault is the record's number in the file.
    pub fault: RecordsFault,
}

/// Where files end: how many records there are up to the end of the docket's file, and up to the end of the sheet's.
#[derive(Clone, Copy)]
pub(crate) struct Ends {
    pub(crate) docket: u32,
    pub(crate) sheet: u32,
}

/// The number of the record at fault, or 0 if the fault names no record.
pub(crate) fn number_of(fault: DocketFault) -> u32
    ensures { result ≡ spec.number_of fault }
{
    match fault {
        DocketFault::Read { place }
        | DocketFault::TooManyRecords { place }
        | DocketFault::UnknownKind { place }
        | DocketFault::FieldCount { place }
        | DocketFault::BadName { place }
        | DocketFault::BadQuota { place }
        | DocketFault::DeclaredTwice { place }
        | DocketFault::UnknownName { place }
        | DocketFault::Model { place, fault: _ }
        | DocketFault::BadEvent { place }
        | DocketFault::BadSheet { place }
        | DocketFault::BadVersion { place }
        | DocketFault::BadWithdrawal { place } => place,
        DocketFault::Memory | DocketFault::Write => 0,
    }
}

/// The fault `fault`, but at the record with this number.
pub(crate) fn at_place(place: u32, fault: DocketFault) -> DocketFault
    ensures { result ≡ spec.at_place place fault }
{
    match fault {
        DocketFault::TooManyRecords { .. } => DocketFault::TooManyRecords { place },
        DocketFault::UnknownKind { .. } => DocketFault::UnknownKind { place },
        DocketFault::FieldCount { .. } => DocketFault::FieldCount { place },
        DocketFault::BadName { .. } => DocketFault::BadName { place },
        DocketFault::BadQuota { .. } => DocketFault::BadQuota { place },
        DocketFault::DeclaredTwice { .. } => DocketFault::DeclaredTwice { place },
        DocketFault::UnknownName { .. } => DocketFault::UnknownName { place },
        DocketFault::Model { fault, .. } => DocketFault::Model { place, fault },
        DocketFault::BadEvent { .. } => DocketFault::BadEvent { place },
        DocketFault::BadSheet { .. } => DocketFault::BadSheet { place },
        DocketFault::BadVersion { .. } => DocketFault::BadVersion { place },
        DocketFault::BadWithdrawal { .. } => DocketFault::BadWithdrawal { place },
        DocketFault::Read { place } => DocketFault::Read { place },
        DocketFault::Memory => DocketFault::Memory,
        DocketFault::Write => DocketFault::Write,
    }
}

/// A fault with its file, which comes after `records_before` records of other files. The fault's record is counted
/// in its own file.
pub(crate) fn fault_in_file(file: Part, records_before: u32, fault: RecordsFault) -> FileFault
    ensures { result ≡ spec.there file records_before fault }
{
    FileFault {
        file,
        fault: counted_in_file(records_before, fault),
    }
}

// The last of the three files in which a fault of this kind can be. A fault that a list or a sheet lacks something
// names the last record of all files.
fn last_file(fault: DocketFault) -> Part
    ensures { result ≡ spec.last_file fault }
{
    match fault {
        DocketFault::Model { .. } => Part::Docket,
        DocketFault::BadSheet { .. } => Part::Sheet,
        _ => Part::Journal,
    }
}

// The file of a record, and the record's number in this file. `place` is the record's number among the records of all
// files.
fn in_file(ends: &Ends, last_part: Part, place: u32) -> (Part, u32)
    ensures { result ≡ spec.in_file ends.now.docket ends.now.sheet last_part place }
{
    if place <= ends.docket {
        return (Part::Docket, place);
    }
    if last_part == Part::Docket {
        return (Part::Docket, ends.docket);
    }
    if place <= ends.sheet {
        return (Part::Sheet, place.saturating_sub(ends.docket));
    }
    if last_part == Part::Sheet {
        return (Part::Sheet, ends.sheet.saturating_sub(ends.docket));
    }
    (Part::Journal, place.saturating_sub(ends.sheet))
}

/// A fault that a later pass finds in the records of all files together, as a fault of one of the files.
pub(crate) fn located(ends: &Ends, fault: DocketFault) -> FileFault
    ensures { result ≡ spec.located ends.now.docket ends.now.sheet fault }
{
    let (last_part, same_fault) = (last_file(fault), fault);
    let (file, place) = in_file(ends, last_part, number_of(fault));
    FileFault {
        file,
        fault: RecordsFault::Docket(at_place(place, same_fault)),
    }
}
