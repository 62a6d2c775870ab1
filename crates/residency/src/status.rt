//! How a call ended, and the program's exit status for it.
ghost use Rattle.std.specs.Prelude.{◌≡◌};
ghost use Rattle.residency.specs.Status.{exit_status_of, exit_status_within_of, fault_status_of, status_of};

use crate::fault::{LimitsFault, ServeFault};
use program_shell::{docket_status, records_status};

/// What a call found that wrote its whole answer.
#[derive(Clone, Copy, Debug, PartialEq, Eq)]
pub enum Status {
    /// The exchange closed, and its sheet was written.
    Closed,
    /// The sheet is stable.
    Stable,
    /// The sheet isn't stable.
    Unstable,
    /// The journal is a good exchange, and leads to the sheet if the docket has a sheet.
    ReplayGood,
    /// The journal is not a good exchange, or does not lead to the sheet.
    ReplayBad,
}

impl From<audit_text::Status> for Status {
    ghost use Rattle.residency.specs.Told.{status_told};

    ghost from_gives = { λ audit_status status. status ≡ status_told audit_status };

    fn from(status: audit_text::Status) -> Status {
        match status {
            audit_text::Status::Stable => Status::Stable,
            audit_text::Status::Unstable => Status::Unstable,
            audit_text::Status::ReplayGood => Status::ReplayGood,
            audit_text::Status::ReplayBad => Status::ReplayBad,
        }
    }
}

// The exit status after an answer.
fn status_code(status: Status) -> u8
    ensures { result ≡ status_of status }
{
    match status {
        Status::Closed | Status::Stable | Status::ReplayGood => 0,
        Status::Unstable | Status::ReplayBad => 4,
    }
}

// The exit status after a fault.
fn fault_status(fault: &ServeFault) -> u8
    ensures { result ≡ fault_status_of fault.now }
{
    match fault {
        ServeFault::Docket(fault) => docket_status(fault),
        ServeFault::Run(_) | ServeFault::Memory => 1,
        ServeFault::NoSheet | ServeFault::NoJournal => 3,
    }
}

/// The exit status of the program after a call.
pub fn exit_status(call_result: &Result<Status, ServeFault>) -> u8
    ensures { result ≡ exit_status_of call_result.now }
{
    match call_result {
        Ok(status) => status_code(*status),
        Err(fault) => fault_status(fault),
    }
}

/// The exit status of the program after a call within limits.
pub(crate) fn exit_status_within(call_result: &Result<Status, LimitsFault>) -> u8
    ensures { result ≡ exit_status_within_of call_result.now }
{
    match call_result {
        Ok(status) => status_code(*status),
        Err(LimitsFault::Reading(fault)) => records_status(fault),
        Err(LimitsFault::Serving(fault)) => fault_status(fault),
    }
}
