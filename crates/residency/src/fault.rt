//! Why no complete answer was written.

use audit_text::AnswerFault;
use docket::{DocketFault, RecordsFault};
use match_pool::RunFault;
use thiserror::Error;

/// Why no complete answer about a docket was written.
#[derive(Debug, Drop, PartialEq, Eq, Error)]
pub enum ServeFault {
    /// The docket could not be read, or the answer could not be written.
    #[error(transparent)]
    Docket(DocketFault),
    /// The docket has no sheet.
    #[error("no sheet in the docket")]
    NoSheet,
    /// The docket has no journal.
    #[error("no journal in the docket")]
    NoJournal,
    /// The run of the exchange had no result.
    #[error(transparent)]
    Run(RunFault),
    /// The memory could not grow in an audit or a replay.
    #[error("out of memory")]
    Memory,
}

/// Why no complete answer about a docket was written, if the docket is read within limits that the
/// caller chose.
#[derive(Debug, Drop, PartialEq, Eq, Error)]
pub enum LimitsFault {
    /// The docket could not be read within the limits.
    #[error(transparent)]
    Reading(RecordsFault),
    /// The docket was read, but not served.
    #[error(transparent)]
    Serving(ServeFault),
}

impl From<AnswerFault> for ServeFault {
    ghost use Rattle.std.specs.Prelude.{◌≡◌};
    ghost use Rattle.residency.specs.Told.{fault_told};

    ghost from_gives = { λ answer_fault fault. fault ≡ fault_told answer_fault };

    fn from(fault: AnswerFault) -> ServeFault {
        match fault {
            AnswerFault::Docket(fault) => ServeFault::Docket(fault),
            AnswerFault::NoSheet => ServeFault::NoSheet,
            AnswerFault::NoJournal => ServeFault::NoJournal,
            AnswerFault::Memory => ServeFault::Memory,
        }
    }
}
