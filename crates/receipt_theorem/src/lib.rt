//! What the receipts of a sealed docket show, and why each receipt that is written passes the check. No program uses this crate.
#![tactic(auto)]

mod laws;

pub use laws::{
    law_agreeing_receipts, law_good_receipts, law_one_sealing, law_published_roots,
    law_sealed_receipt,
};
