//! Laws of legal lists of events. Each law is the contract of a function without parameters.
#![tactic(auto)]

mod lists;
mod settled;

pub use lists::{law_bound, law_closes, law_no_jam, law_orderly};
pub use settled::{
    law_has_settled, law_never_rejects, law_one_settled, law_same_residents, law_settled,
};
