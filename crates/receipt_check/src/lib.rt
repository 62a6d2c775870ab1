//! The check of a receipt of a sealed match.
//!
//! Any file is read as the content of a receipt. Then the receipt with this content is printed, and compared with the
//! file. At last the content is tested, and put into words.
#![tactic(auto)]

mod check;
mod compared;
mod difference;
mod faults;
mod folder;
mod kind;
mod laws;
mod named;
mod names;
mod opening;
mod pair_words;
mod pairs;
mod present;
mod print;
mod published;
mod reasons;
mod rows;
mod shape;
mod shown;
mod side;
mod told;
mod wrong;

pub use check::serve_receipt;
pub use compared::serve_pair;
pub use difference::Difference;
pub use kind::Kind;
pub use laws::law_good_receipt;
pub use opening::digest_of;
pub use pairs::serve_pairs;
pub use published::{Published, published_of};
pub use wrong::{CompareFault, Fault, ReceiptFault, Wrong};
