//! What is kept of a docket's records: one store for each later pass, with everything already parsed.

pub(crate) mod events;
pub(crate) mod lists;
pub(crate) mod sheet_rows;
