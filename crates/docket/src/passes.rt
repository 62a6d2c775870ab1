//! The passes after the first. The second reads the lists, the third the sheet, and the fourth the journal.

pub(crate) mod journal;
pub(crate) mod ranking;
pub(crate) mod sheet;
