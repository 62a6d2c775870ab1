//! Names and numbers, as they are written in a docket; and the docket's different texts, each stored once with a
//! number.
//!
//! Only tests refuse a body that always answers out of memory. Nothing refuses guesses that are never right. With such
//! guesses each text is found by its hash.
#![tactic(auto)]

mod guesses;
mod members;
mod name_key;
mod name_set;
mod names;
mod texts;
mod words;

pub use members::Members;
pub use name_set::NameSet;
pub use names::Names;
pub use texts::Texts;
pub use words::{digits_worth, is_name, is_number, number_of};
