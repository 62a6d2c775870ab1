//! The model of a residency match: quotas, rankings, ranks and assignments.
//!
//! A builder accepts quotas, lists and withdrawals, and `finish` makes an instance from them. Each list of the instance
//! has, in order, those listed members who list its owner too. The list has no repeats and no withdrawn member.
//!
//! Contracts say nothing about the text of a `ModelFault`. A test compares this text.
#![tactic(auto)]

mod assignment;
mod builder;
mod choices;
mod fault;
mod given;
mod guesses;
mod instance;
mod limits;
mod member;
mod mutual_parts;
mod owners;
mod places;
mod ranking;
mod rows;
mod withdrawals;
mod written;

pub use assignment::Assignment;
pub use builder::{FinishRefused, InstanceBuilder};
pub use fault::{FaultWithin, ModelFault};
pub use instance::Instance;
pub use limits::{
    Limits, MAX_PAIRS, MAX_PROGRAMMES, MAX_QUOTA, MAX_RESIDENTS, NATIONAL_PROGRAMMES,
    NATIONAL_RESIDENTS, law_limits, law_national_limits, law_standard_limits,
};
pub use member::{ProgrammeNo, ResidentNo};
pub use withdrawals::law_withdrawals;
pub use written::WrittenLists;
