//! Gates of the pool that the tests of several crates share.
#![tactic(auto)]

pub mod gates;
pub mod rests;
