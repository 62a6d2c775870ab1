//! Answers residents who ask why the match ended as it did: reads a docket with a sheet, and writes plain sentences or
//! rows to any writer.
//!
//! The program is `tell_words`, called with the command line's words and the standard streams. No contract says which
//! names are similar to an unknown name, or says the texts of faults; tests show both.
#![tactic(auto)]

mod answering;
mod answers;
mod case;
mod delimiter;
mod fault;
mod files;
mod key;
mod labels;
mod line;
mod names;
mod naming;
mod near;
mod program;
mod question;
mod real_names;
mod sentences;
mod shown;
mod side;
mod status;
mod table;

pub use answering::{push_rows_on, serve_why, serve_why_within};
pub use answers::Answers;
pub use case::Case;
pub use fault::WhyFault;
pub use files::{serve_why_files, serve_why_files_within};
pub use line::read_line;
pub use program::{tell_words, tell_words_within};
pub use program_shell::{LineFault, UsageFault, line_status};
pub use question::{Asked, Question};
pub use real_names::{NamesFault, RealNames};
pub use status::{exit_status, names_status};
