//! The exit status of a program.
ghost use Rattle.std.specs.Prelude.{◌≡◌};
ghost use Rattle.program_shell.specs.Status.{docket_status_of, line_status_of, records_status_of, usage_status_of};

use crate::fault::{LineFault, UsageFault};
use clap::error::ErrorKind;
use docket::{DocketFault, RecordsFault};

/// The exit status after a docket at fault: 1 if memory, the reader or the writer failed, else 3.
pub fn docket_status(fault: &DocketFault) -> u8
    ensures { result ≡ docket_status_of fault.now }
{
    match fault {
        DocketFault::Read { .. } | DocketFault::Memory | DocketFault::Write => 1,
        _ => 3,
    }
}

/// The exit status after a fault of records: that of a docket's fault, and 3 for too many listed names or a record in
/// the wrong file.
pub fn records_status(fault: &RecordsFault) -> u8
    ensures { result ≡ records_status_of fault.now }
{
    match fault {
        RecordsFault::Docket(fault) => docket_status(fault),
        RecordsFault::TooManyListed { .. } | RecordsFault::AnotherPart { .. } => 3,
    }
}

/// The exit status after a command line that gives no order. The status is 0 if the words ask for help or the
/// version.
pub fn line_status(fault: &LineFault) -> u8
    ensures { result ≡ line_status_of fault.now }
{
    match fault {
        LineFault::Memory => 1,
        LineFault::Line(error) => match error.kind() {
            ErrorKind::DisplayHelp | ErrorKind::DisplayVersion => 0,
            _ => 2,
        },
        _ => 2,
    }
}

/// The exit status after words that give no order. The status is 2 if a word is not valid text.
pub fn usage_status(fault: &UsageFault) -> u8
    ensures { result ≡ usage_status_of fault.now }
{
    match fault {
        UsageFault::NoText => 2,
        UsageFault::Line(fault) => line_status(fault),
    }
}
