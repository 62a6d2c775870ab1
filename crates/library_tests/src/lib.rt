//! Small instances and lists of events with known results, and what the libraries answer to them.
//!
//! Each library has a module: `model`, `exchange`, `mailbox`, `ledger`, `agents` and `audit` test `match_model`,
//! `exchange_core`, `mailbox_rule`, `offer_ledger`, `match_agents` and `match_audit`.
//!
//! A crate with tests is proved twice: with its tests and without them. So the tests of several libraries stand in this
//! crate, which has nothing else. The pool's tests stand in `pool_tests`, and the tests that use the bytes of a docket in
//! `program_tests`.
#![tactic(auto)]

#[cfg(test)]
mod agents;
#[cfg(test)]
mod audit;
#[cfg(test)]
mod exchange;
#[cfg(test)]
mod ledger;
#[cfg(test)]
mod mailbox;
#[cfg(test)]
mod model;
