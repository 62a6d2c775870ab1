//! How a program turns the words of a command line into texts before it parses them, and what it does if they give
//! no order.
//!
//! Contracts say which fault is reported, and with which exit status. Tests compare the texts.
#![tactic(auto)]

mod commands;
mod fault;
mod load;
mod status;
mod words;

pub use commands::{described, required_argument, with_command, with_commands};
pub use fault::{LineFault, UsageFault, line_fault};
pub use load::{
    Unread, is_input, lent, load_file, load_if, load_input, load_path, load_path_if, refuse_unread,
};
pub use status::{docket_status, line_status, records_status, usage_status};
pub use words::{refuse, texts_of};
