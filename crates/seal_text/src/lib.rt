//! Sealing a docket: the roots of its lists and of its result, and each member's receipt; and the program, which also checks
//! receipts and compares them.
//!
//! The program is `seal_words`, over the words and the streams that it is given. No contract can say what files
//! contain, so the other calls work over the bytes of files.
#![tactic(auto)]

mod compare;
mod compare_line;
mod directory;
mod fault;
mod grow;
mod grown;
mod laws;
mod leaves;
mod line;
mod program;
mod reading;
mod receipts;
mod secret;
mod serve;
mod status;
mod texts;

pub use compare_line::{PublishedRows, ReceiptPaths};
pub use fault::{SealFault, SecretFault};
pub use laws::{law_receipt_opens, law_same_texts};
pub use leaves::Section;
pub use line::{Order, Roots, Sources};
pub use program::seal_words;
pub use secret::read_secret;
pub use serve::{Wanted, serve_receipts, serve_seal};
