//! Why a docket could not be read or written.
ghost use Rattle.std.specs.Prelude.{◌≡◌};
ghost use Rattle.docket.specs.declared.fault.DocketFault.TheVariants.{Memory, Write};

use crate::records_fault::{FaultWithin, RecordsFault};
use crate::vocabulary::most_records;
use match_model::{Limits, ModelFault};
use records::WriteFailed;
use std::alloc::{AllocError, AllocFailed};
use std::fmt;
use thiserror::Error;

/// Why a docket could not be read or written. `place` is the number, from 1, of the record at fault.
#[derive(Clone, Copy, Debug, PartialEq, Eq, Error)]
pub enum DocketFault {
    /// The reader failed, other than by an interruption.
    Read { place: u32 },
    /// The docket has more records than the limits allow.
    TooManyRecords { place: u32 },
    /// The first field is no known kind of row.
    UnknownKind { place: u32 },
    /// The number of fields in the row is wrong for a row of its kind.
    FieldCount { place: u32 },
    /// A name is empty, or is longer than 32 characters, or has a character other than a letter, a digit, `-`, `_` or
    /// `.`.
    BadName { place: u32 },
    /// A quota is not 1 to 9 digits.
    BadQuota { place: u32 },
    /// An earlier row of the same kind declared the same name.
    DeclaredTwice { place: u32 },
    /// A name isn't declared.
    UnknownName { place: u32 },
    /// The model refuses the docket's members or lists, for this reason.
    Model { place: u32, fault: ModelFault },
    /// A row of the journal has a bad field, or stands in a wrong order.
    BadEvent { place: u32 },
    /// The sheet lacks a row, or its numbers contradict one another.
    BadSheet { place: u32 },
    /// The memory could not grow.
    Memory,
    /// The writer failed.
    Write,
    /// The first row has a version other than 2.
    BadVersion { place: u32 },
    /// A withdrawal is neither for a programme nor for a resident.
    BadWithdrawal { place: u32 },
}

impl DocketFault {
    /// The fault as a text. The text names the limits under which the docket was read.
    pub fn within(self, limits: Limits) -> FaultWithin {
        RecordsFault::Docket(self).within(limits)
    }

    // Writes what is wrong, without the number of the record. The text names these limits.
    pub(crate) fn write_cause<W: fmt::Write>(
        &self,
        limits: Limits,
        f: &mut fmt::Formatter<W>,
    ) -> fmt::Result {
        f.write_str(match self {
            DocketFault::Read { .. } => "the input could not be read",
            DocketFault::TooManyRecords { .. } => {
                return write!(f, "more than {} records", most_records(limits));
            }
            DocketFault::UnknownKind { .. } => "unknown kind of row",
            DocketFault::FieldCount { .. } => "wrong number of fields",
            DocketFault::BadName { .. } => "bad name",
            DocketFault::BadQuota { .. } => "bad quota",
            DocketFault::DeclaredTwice { .. } => "declared twice",
            DocketFault::UnknownName { .. } => "unknown name",
            DocketFault::Model { fault, .. } => return write!(f, "{}", fault.within(limits)),
            DocketFault::BadEvent { .. } => "bad journal row",
            DocketFault::BadSheet { .. } => "bad sheet",
            DocketFault::Memory => "out of memory",
            DocketFault::Write => "the output could not be written",
            DocketFault::BadVersion { .. } => "unknown version",
            DocketFault::BadWithdrawal { .. } => "bad withdrawal row",
        })
    }
}

/// Writes the fault as a text. The text names the standard limits.
impl fmt::Display for DocketFault {
    fn fmt<W: fmt::Write>(&self, f: &mut fmt::Formatter<W>) -> fmt::Result {
        write!(f, "{}", self.within(Limits::Standard))
    }
}

impl From<AllocError> for DocketFault {
    ghost from_gives = { λ _ fault. fault ≡ Memory };

    fn from(_error: AllocError) -> DocketFault {
        DocketFault::Memory
    }
}

impl From<WriteFailed> for DocketFault {
    ghost from_gives = { λ _ fault. fault ≡ Write };

    fn from(_error: WriteFailed) -> DocketFault {
        DocketFault::Write
    }
}

impl<T: Drop> From<AllocFailed<T>> for DocketFault {
    ghost from_gives = { λ _ fault. fault ≡ Memory };

    fn from(_error: AllocFailed<T>) -> DocketFault {
        DocketFault::Memory
    }
}
