//! The parts of a market's files, and the kinds of record that belong to each part.
ghost use Rattle.std.specs.Prelude.{◌≡◌};
ghost use Rattle.csv.specs.Records.{fields_of};
ghost use Rattle.docket.specs.Parts as parts;

use crate::kinds::kind_of;
use crate::vocabulary::{
    CAPACITY, EVENT, FILLED, MATCHED, PROGRAMME_LIST, QUOTA, RESIDENT_LIST, UNMATCHED, VERSION,
    WITHDRAWAL,
};
use csv::ByteRecord;

/// A part of a market's files.
#[derive(Clone, Copy, Debug, PartialEq, Eq)]
pub enum Part {
    /// The quotas, the lists and the withdrawals: `V`, `Q`, `P`, `R` and `W` records.
    Docket,
    /// The placement: `M`, `U` and `F` records.
    Sheet,
    /// The events of an exchange: `C` and `E` records.
    Journal,
}

// The part to which a kind of record belongs, or none for an unknown kind.
#[tactic(auto, unfolding(crate::specs::Parts::part_of))]
fn part_of(kind: u8) -> Option<Part>
    ensures { result ≡ parts.part_of kind }
{
    if kind == EVENT || kind == CAPACITY {
        Some(Part::Journal)
    } else if kind == QUOTA
        || kind == PROGRAMME_LIST
        || kind == RESIDENT_LIST
        || kind == VERSION
        || kind == WITHDRAWAL
    {
        Some(Part::Docket)
    } else if kind == MATCHED || kind == UNMATCHED || kind == FILLED {
        Some(Part::Sheet)
    } else {
        None
    }
}

// Whether a kind of record belongs to a part other than this one.
fn is_other(part: Part, kind: u8) -> bool
    ensures { result ≡ parts.is_other part (parts.part_of kind) }
{
    match (part, part_of(kind)) {
        (_, None) => false,
        (Part::Docket, Some(Part::Docket)) => false,
        (Part::Sheet, Some(Part::Sheet)) => false,
        (Part::Journal, Some(Part::Journal)) => false,
        _ => true,
    }
}

/// Whether a record belongs to a part other than this one. Without a part each record may stand anywhere.
#[inline(always)]
pub(crate) fn is_elsewhere(part: Option<Part>, row: &ByteRecord) -> bool
    ensures { result ≡ parts.is_elsewhere part (fields_of row.now) }
{
    match part {
        Some(part) => is_other(part, kind_of(row)),
        None => false,
    }
}
