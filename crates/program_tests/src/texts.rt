//! Dockets as texts, and functions on texts that several tests use.
use std::alloc::{AllocError, Global};

/// Two programmes and two residents. The residents rank the programmes in the opposite order to the programmes' own
/// rankings.
pub(super) const SMALL_DOCKET: &str = "Q,a,1\nQ,b,1\nP,a,x,y\nP,b,y,x\nR,x,b,a\nR,y,a,b\n";

/// The first three records of `SMALL_DOCKET`.
pub(super) const THREE_RECORDS: &str = "Q,a,1\nQ,b,1\nP,a,x,y\n";

/// The sheet of a match of `SMALL_DOCKET`.
pub(super) const SMALL_SHEET: &str = "M,x,a\nM,y,b\nF,a,1,1\nF,b,1,1\n";

/// The other stable sheet of `SMALL_DOCKET`, which a match would give if residents made the offers.
pub(super) const OTHER_SHEET: &str = "M,x,b\nM,y,a\nF,a,1,1\nF,b,1,1\n";

/// The journal of an exchange of `SMALL_DOCKET`, without its capacity.
pub(super) const SMALL_JOURNAL: &str =
    "E,offer,a,x\nE,offer,b,y\nE,take,x,a\nE,take,y,b\nE,answer,x,a,hold\nE,answer,y,b,hold\nE,hear,a,x,hold\nE,hear,b,y,hold\nE,close\n";

/// The journal of `SMALL_DOCKET` made by two workers in turn, without its last event.
pub(super) const EIGHT_EVENTS_BY_TWO: &str =
    "C,full,2\nE,offer,a,x,0\nE,offer,b,y,1\nE,take,x,a,0\nE,take,y,b,1\nE,answer,x,a,hold,0\nE,answer,y,b,hold,1\nE,hear,a,x,hold,0\nE,hear,b,y,hold,1\n";

/// A programme with two places that all residents rank, and a second programme that draws a resident away from it.
pub(super) const QUOTAS_DOCKET: &str = "Q,a,2\nQ,b,1\nP,a,x,y,z\nP,b,x\nR,x,b,a\nR,y,a\nR,z,a\n";

/// The sheet of a match of `QUOTAS_DOCKET`.
pub(super) const QUOTAS_SHEET: &str = "M,x,b\nM,y,a\nM,z,a\nF,a,2,2\nF,b,1,1\n";

/// A resident whom only one side lists.
pub(super) const ONE_SIDED_DOCKET: &str = "Q,a,1\nP,a,x\nR,x\n";

/// Four programmes, each of which offers to the only resident. The resident prefers each later programme to the
/// programmes before. The exchange has 23 of the at most 25 events that four pairs allow.
pub(super) const CHAIN_DOCKET: &str =
    "Q,a,1\nQ,b,1\nQ,c,1\nQ,d,1\nP,a,x\nP,b,x\nP,c,x\nP,d,x\nR,x,d,c,b,a\n";

/// A programme and a resident whom nobody lists.
pub(super) const UNLISTED_MEMBERS: &str = "Q,c,1\nR,z\n";

/// The row of a capacity that is always large enough.
pub(super) const FULL_CAPACITY: &str = "C,full\n";

/// The first 11 events of an exchange of `QUOTAS_DOCKET`.
pub(super) const ELEVEN_EVENTS: &str =
    "E,offer,a,x\nE,offer,a,y\nE,take,y,a\nE,take,x,a\nE,answer,y,a,hold\nE,answer,x,a,hold\nE,offer,b,x\nE,take,x,b\nE,answer,x,b,hold\nE,answer,x,a,release\nE,hear,a,y,hold\n";

/// The twelfth and the thirteenth event of the exchange of `QUOTAS_DOCKET`.
pub(super) const EVENTS_TO_THIRTEEN: &str = "E,hear,a,x,hold\nE,hear,b,x,hold\n";

/// The fourteenth to the eighteenth event of the exchange of `QUOTAS_DOCKET`. The nineteenth event is `CLOSE_EVENT`.
pub(super) const EVENTS_TO_EIGHTEEN: &str =
    "E,hear,a,x,release\nE,offer,a,z\nE,take,z,a\nE,answer,z,a,hold\nE,hear,a,z,hold\n";

pub(super) const CLOSE_EVENT: &str = "E,close\n";

/// The first record of a docket of version 2, which may withdraw members.
pub(super) const VERSION_2: &str = "V,2\n";

/// The text of a fault with the number of the record one higher.
pub(super) fn one_record_further(alloc: Global, fault_text: &str) -> Result<String, AllocError> {
    let Some((number_text, cause)) = fault_text
        .strip_prefix("record ")
        .and_then(|t| t.split_once(": "))
    else {
        return fault_text.to_string(alloc);
    };
    match number_text.parse::<u32>() {
        Ok(number) => format!(in alloc; "record {}: {cause}", number.saturating_add(1)),
        Err(_) => fault_text.to_string(alloc),
    }
}

/// These texts, one after another.
pub(super) fn joined(alloc: Global, text_parts: &[&str]) -> Result<String, AllocError> {
    let mut joined_text = String::new(alloc);
    for part in text_parts {
        joined_text.push_str(part)?;
    }
    Ok(joined_text)
}

/// How many rows of a text begin with `row_start`.
pub(super) fn rows_starting(text: &[u8], row_start: &str) -> usize {
    let mut row_count = 0_usize;
    if let Ok(text) = str::from_utf8(text) {
        for line in text.lines() {
            if line.starts_with(row_start) {
                row_count = row_count.saturating_add(1);
            }
        }
    }
    row_count
}
