//! The exit status of the program.
ghost use Rattle.std.specs.Prelude.{◌≡◌};
ghost use Rattle.audit_files.specs.Status.{exit_status_of, fault_status_of};

use crate::fault::FilesFault;
use crate::serve::Verdict;
use program_shell::records_status;

/// The exit status after a fault: 1 if memory, reading or writing failed, and 3 if a file is at fault.
pub fn files_status(fault: &FilesFault) -> u8
    ensures { result ≡ fault_status_of fault.now }
{
    match fault {
        FilesFault::Docket { fault, .. } => records_status(fault),
        FilesFault::Memory | FilesFault::Write => 1,
        FilesFault::NoSheet | FilesFault::NoJournal => 3,
    }
}

/// The exit status after an audit over files. The status is 0 if everything is good, and 4 if something is bad. The
/// status is 1 if memory, reading or writing failed, and 3 if a file is at fault.
pub(crate) fn exit_status(serve_result: &Result<Verdict, FilesFault>) -> u8
    ensures { result ≡ exit_status_of serve_result.now }
{
    match serve_result {
        Ok(Verdict::Good) => 0,
        Ok(Verdict::Bad) => 4,
        Err(fault) => files_status(fault),
    }
}
