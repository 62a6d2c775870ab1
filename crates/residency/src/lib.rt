//! From a docket's bytes to an answer's bytes. A docket from any reader is matched, audited or replayed, and the answer
//! goes to any writer.
//!
//! The program is `serve_words`, called with the command line's words and the standard streams.
//!
//! Contracts say nothing about the texts of faults. Tests compare these texts.
#![tactic(auto)]

mod fault;
mod program;
mod serve;
mod spent;
mod status;

pub use audit_text::{write_replay, write_report};
pub use command_line::{JournalForm, MatchOptions, Order, read_line};
pub use fault::{LimitsFault, ServeFault};
pub use program::{serve_words, serve_words_within};
pub use program_shell::{LineFault, line_status};
pub use serve::{serve_audit, serve_match, serve_replay, serve_within};
pub use status::{Status, exit_status};
