//! The exit status of the program.
ghost use Rattle.std.specs.Prelude.{◌≡◌};
ghost use Rattle.seal_text.specs.Status.{compare_status_of, receipt_status_of, seal_status_of};

use crate::fault::SealFault;
use audit_files::files_status;
use reasons_text::names_status;
use receipt_check::{CompareFault, ReceiptFault};

/// The exit status after sealing. The status is 0 if all was written, and 1 if memory, reading or writing failed. The
/// status is 3 if a file is at fault, there is no secret, or the sheet isn't stable.
pub(crate) fn seal_status(seal_result: &Result<(), SealFault>) -> u8
    ensures { result ≡ seal_status_of seal_result.now }
{
    match seal_result {
        Ok(()) => 0,
        Err(SealFault::Secret(_) | SealFault::Unstable) => 3,
        Err(SealFault::Files(fault)) => files_status(fault),
        Err(SealFault::Key(fault)) => names_status(fault),
    }
}

/// The exit status after a check. The status is 0 for a good receipt, 3 for a file that isn't as it was given, 4 for
/// a wrong receipt, and 1 if memory or writing failed.
pub(crate) fn receipt_status(check_result: &Result<(), ReceiptFault>) -> u8
    ensures { result ≡ receipt_status_of check_result.now }
{
    match check_result {
        Ok(()) => 0,
        Err(ReceiptFault::Wrong(fault)) => { if fault.is_changed() { 3 } else { 4 } }
        Err(ReceiptFault::Memory | ReceiptFault::Write) => 1,
    }
}

/// The exit status after receipts were compared. The status is 0 if the receipts agree or show that the placement is
/// stable, and 4 if they don't. The status is 3 if a file is at fault, and 1 if memory or writing failed.
pub(crate) fn compare_status(compare_result: &Result<bool, CompareFault>) -> u8
    ensures { result ≡ compare_status_of compare_result.now }
{
    match compare_result {
        Ok(agree) => { if *agree { 0 } else { 4 } }
        Err(CompareFault::Wrong(_, _)) => 3,
        Err(CompareFault::Memory | CompareFault::Write) => 1,
    }
}
