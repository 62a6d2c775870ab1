//! Why no answer about a docket was written.

use docket::DocketFault;
use thiserror::Error;

/// Why no answer about a docket was written.
#[derive(Clone, Copy, Debug, PartialEq, Eq, Error)]
pub enum AnswerFault {
    /// Memory ran out, or the answer could not be written.
    #[error(transparent)]
    Docket(DocketFault),
    /// The docket has no sheet.
    #[error("no sheet in the docket")]
    NoSheet,
    /// The docket has no journal.
    #[error("no journal in the docket")]
    NoJournal,
    /// The memory could not grow in an audit or a replay.
    #[error("out of memory")]
    Memory,
}
