//! The theorem of a match in few words: a match writes the sheet of the docket's only settled placement, and this
//! placement is stable.
#![tactic(auto)]

mod theorem;

pub use theorem::{law_match, law_national_program, law_program};
