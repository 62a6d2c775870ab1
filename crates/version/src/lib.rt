//! The version of this repository's programs, manual pages, Python package and archive. The version stands only here:
//! `tools/version` prints it for everything that isn't written in Rattle.
#![tactic(auto)]

/// The version, as `major.minor.patch`.
pub const VERSION: &str = "1.1.0";
