//! Why an audit over files gave no answer.
ghost use Rattle.std.specs.Prelude.{◌≡◌};
ghost use Rattle.audit_files.specs.Place as spec;

use docket::{DocketFault, FileFault, Part, RecordsFault};
use match_model::Limits;
use thiserror::Error;

/// Why an audit over files gave no answer.
#[derive(Clone, Copy, Debug, PartialEq, Eq, Error)]
pub enum FilesFault {
    /// The files are no docket, for this fault in this file. The fault has the record's number in the
    /// file. The text names the national limits.
    #[error("{}", .fault.within(Limits::National))]
    Docket { file: Part, fault: RecordsFault },
    /// The sheet's file has no record.
    #[error("no sheet")]
    NoSheet,
    /// The journal's file has no record.
    #[error("no journal")]
    NoJournal,
    /// The memory could not grow.
    #[error("out of memory")]
    Memory,
    /// The writer failed.
    #[error("the output could not be written")]
    Write,
}

/// A fault of the docket's reader, as a fault of the audit over files. Out of memory is no fault of
/// a file.
pub fn files_fault(file_fault: FileFault) -> FilesFault
    ensures { result ≡ spec.told file_fault }
{
    match file_fault.fault {
        RecordsFault::Docket(DocketFault::Memory) => FilesFault::Memory,
        fault => FilesFault::Docket {
            file: file_fault.file,
            fault,
        },
    }
}

impl FilesFault {
    /// The file in which the fault is, if the fault is in a file.
    pub fn file(&self) -> Option<Part> {
        match self {
            FilesFault::Docket { file, .. } => Some(*file),
            FilesFault::NoSheet => Some(Part::Sheet),
            FilesFault::NoJournal => Some(Part::Journal),
            FilesFault::Memory | FilesFault::Write => None,
        }
    }
}
