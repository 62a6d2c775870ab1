//! The rows that an audit and a replay of a docket write.
//!
//! This crate uses no threads, so the program that audits files needs no threads.
#![tactic(auto)]

mod answer;
mod fault;
mod report;
mod serve;
mod status;

pub use answer::write_replay;
pub use fault::AnswerFault;
pub use report::write_report;
pub use serve::{audit_docket, replay_docket};
pub use status::Status;
