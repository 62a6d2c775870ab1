//! The exit status of the program.
ghost use Rattle.std.specs.Prelude.{◌≡◌};
ghost use Rattle.reasons_text.specs.Status.{exit_status_of, fault_status_of, names_status_of};

use crate::fault::WhyFault;
use crate::real_names::NamesFault;
use program_shell::{docket_status, records_status};

/// The exit status of the program after a question. The status is 0 for an answer, and 1 if memory, reading or writing
/// failed. The status is 3 for a docket at fault, a missing sheet, an unknown name, and a name that means several
/// members.
pub fn exit_status(question_result: &Result<(), WhyFault>) -> u8
    ensures { result ≡ exit_status_of question_result.now }
{
    match question_result {
        Ok(()) => 0,
        Err(fault) => fault_status(fault),
    }
}

// The exit status after a fault.
fn fault_status(fault: &WhyFault) -> u8
    ensures { result ≡ fault_status_of fault.now }
{
    match fault {
        WhyFault::Docket(fault) => docket_status(fault),
        WhyFault::EmptySheet => 3,
        WhyFault::Reading(fault) | WhyFault::Records { fault, .. } => records_status(fault),
        WhyFault::NoSheet | WhyFault::BadKey { .. } | WhyFault::DoubledKey { .. } => 3,
        WhyFault::NoResident(_) | WhyFault::NoProgramme(_) => 3,
        WhyFault::ManyResidents(_) | WhyFault::ManyProgrammes(_) => 3,
    }
}

/// The exit status if a key gives no names to seal: 1 if memory ran out, and 3 if the key is at fault.
pub fn names_status(fault: &NamesFault) -> u8
    ensures { result ≡ names_status_of fault.now }
{
    match fault {
        NamesFault::Key(fault) => fault_status(fault),
        NamesFault::Hidden { .. } | NamesFault::Long { .. } => 3,
    }
}
