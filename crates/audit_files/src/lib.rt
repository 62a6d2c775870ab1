//! An audit over files. The docket, the sheet and the journal are each read as their own part, and the sheet is
//! compared with the match's result.
//!
//! The program is `audit_words`, called with the command line's words and the standard streams. No contract can say
//! what files contain. So `serve_files` does the work, over the bytes of the files.
//!
//! Only tests refuse other texts of faults and of help, a file that is read in place of another, and a body that always
//! answers out of memory.
#![tactic(auto)]

mod facts;
mod fault;
mod line;
mod load;
mod order;
mod program;
mod reading;
mod rows;
mod serve;
mod status;

pub use fault::{FilesFault, files_fault};
pub use order::Order;
pub use program::audit_words;
pub use serve::{Verdict, serve_files};
pub use status::files_status;
