//! Why no answer was written, or only a part of the answer.
ghost use Rattle.std.specs.Prelude.{◌≡◌};
ghost use Rattle.docket.specs.declared.fault.DocketFault.TheVariants as docket_fault;
ghost use Rattle.reasons_text.specs.declared.fault.WhyFault.TheVariants.{Docket};

use docket::{DocketFault, Part, RecordsFault};
use match_model::Limits;
use std::alloc::AllocError;
use std::fmt;
use thiserror::Error;

/// Why a question was not answered.
#[derive(Debug, PartialEq, Eq, Drop, Error)]
pub enum WhyFault {
    /// Memory ran out, or the answer could not be written.
    #[error(transparent)]
    Docket(DocketFault),
    /// The docket could not be read.
    #[error(transparent)]
    Reading(RecordsFault),
    /// The docket has no sheet.
    #[error("no sheet in the docket")]
    NoSheet,
    /// A row of the key does not begin with a side, a name and a real name.
    #[error("record {row_number} of the key: not a side, a name and a real name")]
    BadKey {
        /// The number of the row, from 1.
        row_number: u64,
    },
    /// An earlier row of the key has the same member.
    #[error("record {row_number} of the key: that member has a row before")]
    DoubledKey {
        /// The number of the row, from 1.
        row_number: u64,
    },
    /// No resident has a name of the question. The text is the message for the user.
    #[error("{0}")]
    NoResident(String),
    /// No programme has a name of the question. The text is the message for the user.
    #[error("{0}")]
    NoProgramme(String),
    /// More than one resident has a name of the question. The text has the labels of these residents.
    #[error("{0}")]
    ManyResidents(String),
    /// More than one programme has a name of the question. The text has the labels of these
    /// programmes.
    #[error("{0}")]
    ManyProgrammes(String),
    /// A record of a file has this fault. The fault has the record's number in this file.
    #[error("{fault}")]
    Records {
        /// The file of the record: the docket's file or the sheet's file.
        file: Part,
        /// The fault of the record.
        fault: RecordsFault,
    },
    /// The sheet's file has no record.
    #[error("no sheet")]
    EmptySheet,
}

impl WhyFault {
    // The fault as a text, which names these limits.
    pub(crate) fn within(&self, limits: Limits) -> FaultWithin<'_> {
        FaultWithin {
            fault: self,
            limits,
        }
    }

    // The file with the fault, if a file has it: the docket's or the sheet's.
    pub(crate) fn file(&self) -> Option<Part> {
        match self {
            WhyFault::Records { file, .. } => Some(*file),
            WhyFault::EmptySheet => Some(Part::Sheet),
            _ => None,
        }
    }
}

/// A fault within these limits. Where a limit was exceeded, the text names this limit.
#[derive(Clone, Copy)]
pub(crate) struct FaultWithin<'a> {
    fault: &'a WhyFault,
    limits: Limits,
}

impl fmt::Display for FaultWithin<'_> {
    fn fmt<W: fmt::Write>(&self, f: &mut fmt::Formatter<W>) -> fmt::Result {
        match self.fault {
            WhyFault::Reading(fault) | WhyFault::Records { fault, .. } => {
                write!(f, "{}", fault.within(self.limits))
            }
            fault => write!(f, "{fault}"),
        }
    }
}

impl From<AllocError> for WhyFault {
    ghost from_gives = { λ _ fault. fault ≡ Docket docket_fault.Memory };

    fn from(_error: AllocError) -> WhyFault {
        WhyFault::Docket(DocketFault::Memory)
    }
}
