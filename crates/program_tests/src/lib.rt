//! Small dockets with known results, as bytes, and what reading, writing and the program answer to them.
//!
//! This crate has only tests, like `library_tests`.
#![tactic(auto)]

#[cfg(test)]
mod audit;
#[cfg(test)]
mod commands;
#[cfg(test)]
mod devices;
#[cfg(test)]
mod dockets;
#[cfg(test)]
mod line;
#[cfg(test)]
mod markets;
#[cfg(test)]
mod matching;
#[cfg(test)]
mod replay;
#[cfg(test)]
mod texts;
#[cfg(test)]
mod workers;
