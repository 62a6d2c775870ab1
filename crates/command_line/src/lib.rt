//! The command line of the program that matches, audits and replays.
//!
//! Contracts say nothing about the texts of help and version, nor about a number of workers that is written as `+1`.
//! Tests compare these texts and this number.
#![tactic(auto)]

mod line;
mod options;

pub use line::read_line;
pub use options::{JournalForm, MatchOptions, Order};
