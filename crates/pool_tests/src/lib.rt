//! What the pool does: its runs, its workers, its stops, its gates and its faults.
//!
//! A crate with tests is proved twice, so the pool's tests stand in this crate, which has nothing else. They take as long
//! to prove as those of all other libraries together, so they don't stand in `library_tests`.
#![tactic(auto)]

#[cfg(test)]
mod alone;
#[cfg(test)]
mod faults;
#[cfg(test)]
mod gates;
#[cfg(test)]
mod latched;
#[cfg(test)]
mod misses;
#[cfg(test)]
mod orders;
#[cfg(test)]
mod rests;
#[cfg(test)]
mod runs;
#[cfg(test)]
mod slips;
#[cfg(test)]
mod stops;
#[cfg(test)]
mod workers;
#[cfg(test)]
mod yields;
