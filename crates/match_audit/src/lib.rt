//! The auditor and the replay. The auditor finds what keeps a placement from being stable. The replay says whether a
//! list of events is a good exchange.
//!
//! The auditor and the replay need not know who made the placement or the list of events: they work out everything
//! again from the instance. Contracts say nothing about the texts of faults. Tests compare these texts.
#![tactic(auto)]

mod auditor;
mod counter;
mod findings;
mod load;
mod replayer;
mod report;
mod settling;

pub use auditor::{AuditFault, audit};
pub use counter::counts;
pub use replayer::{ReplayFault, Replayed, check, replay};
pub use report::AuditReport;
pub use settling::{first_unlike_result, is_result, settle};
