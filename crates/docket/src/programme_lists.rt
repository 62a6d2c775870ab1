//! The programmes' lists as they were written.
ghost use Rattle.std.specs.Prelude.{◌≡◌, IfOk, None, OnOk, Some, map, option_copied, replicate, slice_index_or, slice_set};
ghost use Rattle.docket.specs.Lists.{items_of};

use match_model::{ProgrammeNo, ResidentNo};
use std::alloc::{AllocError, Global};
use std::marker::Model;

/// For each programme the list in its P record, best first, or none if it has no P record.
#[derive(Drop)]
pub struct ProgrammeLists {
    lists: Vec<Option<Vec<ResidentNo>>>,
}

impl Model for ProgrammeLists {
    ghost use Rattle.std.specs.Prelude.{List, Option, ℕ, map};
    ghost use Rattle.docket.specs.Lists.{items_of};

    ghost Value = { List (Option (List ℕ)) };

    ghost view = { λ programme_lists. map items_of programme_lists.lists.items };
}

// Puts a list at index `programme_index`, if there is such an index.
fn put(lists: &mut Vec<Option<Vec<ResidentNo>>>, programme_index: usize, list: Vec<ResidentNo>)
    ensures { map items_of lists.new.items
        ≡ slice_set (map items_of lists.old.items) programme_index (Some list.items) }
{
    if let Some(slot) = lists.get_mut(programme_index) {
        *slot = Some(list);
    }
}

impl ProgrammeLists {
    /// The lists of this many programmes before any list is given.
    pub(crate) fn none(alloc: Global, programmes: usize) -> Result<ProgrammeLists, AllocError>
        ensures { IfOk result (λ lists. lists ≡ replicate programmes None) }
    {
        let mut lists = Vec::new(alloc);
        for _p in 0..programmes {
            lists.push(None)?;
        }
        Ok(ProgrammeLists { lists })
    }

    /// Gives a programme its list. Without such a programme nothing changes.
    pub(crate) fn give(
        &mut self,
        alloc: Global,
        programme: ProgrammeNo,
        list: &[ResidentNo],
    ) -> Result<(), AllocError>
        ensures { OnOk result (self.new ≡ slice_set self.old programme (Some list.now)) }
    {
        let programme_index = programme.0 as usize;
        if programme_index < self.lists.len() {
            put(
                &mut self.lists,
                programme_index,
                Vec::from_slice(alloc, list)?,
            );
        }
        Ok(())
    }

    /// The list of a programme, or none if it has no P record.
    pub fn list_of(&self, programme: ProgrammeNo) -> Option<&[ResidentNo]>
        ensures { option_copied result ≡ slice_index_or self.now programme None }
    {
        match self.lists.get(programme.0 as usize) {
            Some(Some(list)) => Some(list.as_slice()),
            _ => None,
        }
    }
}
