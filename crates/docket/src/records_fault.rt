//! Why records could not be read as a docket. Limits and files add faults to those of a docket.
ghost use Rattle.std.specs.Prelude.{◌≡◌};
ghost use Rattle.docket.specs.FileFault as spec;
ghost use Rattle.docket.specs.Read.{IsOfDocket};
ghost use Rattle.docket.specs.declared.records_fault.RecordsFault.TheVariants.{Docket};

use crate::fault::DocketFault;
use crate::file_fault::{at_place, number_of};
use crate::vocabulary::most_listed;
use match_model::Limits;
use std::fmt;
use thiserror::Error;

/// Why a docket could not be read within limits that the caller chose, or from files. The standard reader has only the
/// faults of the first kind.
#[derive(Clone, Copy, Debug, PartialEq, Eq, Error)]
pub enum RecordsFault {
    /// A fault that every docket may have.
    Docket(DocketFault),
    /// The rank lists have more names than the limits allow, from this list on.
    TooManyListed { place: u32 },
    /// The record belongs to another part than its file.
    AnotherPart { place: u32 },
}

impl RecordsFault {
    /// The fault as a text. The text names the limits under which the docket was read.
    pub fn within(self, limits: Limits) -> FaultWithin {
        FaultWithin {
            fault: self,
            limits,
        }
    }

    // The number of the record at fault, or 0 if the fault names no record.
    fn record_no(self) -> u32 {
        match self {
            RecordsFault::Docket(fault) => number_of(fault),
            RecordsFault::TooManyListed { place } | RecordsFault::AnotherPart { place } => place,
        }
    }

    // Writes what is wrong, without the number of the record. The text names these limits.
    fn write_cause<W: fmt::Write>(&self, limits: Limits, f: &mut fmt::Formatter<W>) -> fmt::Result {
        f.write_str(match self {
            RecordsFault::Docket(fault) => return fault.write_cause(limits, f),
            RecordsFault::TooManyListed { .. } => match most_listed(limits) {
                Some(most) => return write!(f, "more than {most} listed names"),
                None => "too many listed names",
            },
            RecordsFault::AnotherPart { .. } => "belongs to another part",
        })
    }
}

/// Writes the fault as a text. The text names the standard limits.
impl fmt::Display for RecordsFault {
    fn fmt<W: fmt::Write>(&self, f: &mut fmt::Formatter<W>) -> fmt::Result {
        write!(f, "{}", self.within(Limits::Standard))
    }
}

/// A fault of a docket that was read within these limits. Where a limit was exceeded, the text names this limit.
#[derive(Clone, Copy, Debug)]
pub struct FaultWithin {
    fault: RecordsFault,
    limits: Limits,
}

impl fmt::Display for FaultWithin {
    fn fmt<W: fmt::Write>(&self, f: &mut fmt::Formatter<W>) -> fmt::Result {
        let record_no = self.fault.record_no();
        if record_no > 0 {
            write!(f, "record {record_no}: ")?;
        }
        self.fault.write_cause(self.limits, f)
    }
}

impl From<DocketFault> for RecordsFault {
    ghost from_gives = { λ docket_fault fault. fault ≡ Docket docket_fault };

    fn from(fault: DocketFault) -> RecordsFault {
        RecordsFault::Docket(fault)
    }
}

/// A fault of records as a docket's fault; the fault is one that every docket may have.
pub(crate) fn of_docket(fault: RecordsFault) -> DocketFault
    requires { IsOfDocket fault }
    ensures { fault ≡ Docket result }
{
    match fault {
        RecordsFault::Docket(fault) => fault,
        RecordsFault::TooManyListed { .. } | RecordsFault::AnotherPart { .. } => {
            unreachable!("every docket may have the fault")
        }
    }
}

/// The fault with its record counted in its own file, which comes after `records_before` records of other
/// files.
pub(crate) fn counted_in_file(records_before: u32, fault: RecordsFault) -> RecordsFault
    ensures { result ≡ spec.there_is records_before fault }
{
    match fault {
        RecordsFault::Docket(fault) => {
            let same_fault = fault;
            let record_no = number_of(fault).saturating_sub(records_before);
            RecordsFault::Docket(at_place(record_no, same_fault))
        }
        RecordsFault::TooManyListed { place } => RecordsFault::TooManyListed {
            place: place.saturating_sub(records_before),
        },
        RecordsFault::AnotherPart { place } => RecordsFault::AnotherPart {
            place: place.saturating_sub(records_before),
        },
    }
}
