//! Members, instances, lists of events and sources of random bytes that the tests of several crates share.
#![tactic(auto)]

pub mod events;
pub mod instances;
pub mod markets;
pub mod members;
pub mod randomness;
