//! The first pass: the records read so far.
ghost use Rattle.std.specs.Prelude.{◌≡◌, ◌<◌, ◌≤◌, ◌+◌, [], IfSome};
ghost use Rattle.docket.specs.Limits.{most_records as most_records_in};
ghost use Rattle.docket.specs.Reading.{IsReading};

use crate::declarations::Declarations;
use crate::store::events::Events;
use crate::store::lists::Lists;
use crate::store::sheet_rows::SheetRows;
use docket_names::Texts;
use match_model::Limits;
use std::alloc::Global;
use std::hash::RandomState;

/// What the first pass keeps of the records so far: how many there are, what they declare, and what each later pass
/// needs.
#[derive(Drop)]
pub(crate) struct Reading {
    pub(crate) records: u32,
    pub(crate) name_texts: Texts,
    pub(crate) declared: Declarations,
    pub(crate) lists: Lists,
    pub(crate) sheet: SheetRows,
    pub(crate) events: Events,
}

impl Reading {
    /// What the first pass keeps before any record is read. Texts that are added later are hashed with these keys,
    /// and declarations have to be within these limits.
    pub(crate) fn new(alloc: Global, hash_keys: RandomState, limits: Limits) -> Reading
        ensures reading { IsReading result [] }
        ensures limits { result.declared.builder.limits ≡ limits }
        ensures workers { IfSome result.declared.workers (λ count. count ≤ 8) }
    {
        Reading {
            records: 0,
            name_texts: Texts::new(alloc, hash_keys),
            declared: Declarations::new(alloc, limits),
            lists: Lists::new(alloc),
            sheet: SheetRows::new(alloc),
            events: Events::new(alloc),
        }
    }

    /// The number of the next record, from 1.
    #[inline(always)]
    pub(crate) fn next_record_no(&self) -> u32
        requires { self.now.records < most_records_in self.now.declared.builder.limits }
        ensures { result ≡ self.now.records + 1 }
    {
        self.records + 1
    }
}
