//! The lists of one side as they were given, one after another in one vector.
ghost use Rattle.std.specs.Prelude.{◌≡◌, ◌+◌, ◌<◌, ◌≤◌, ◌∷◌, ◌++◌, [], length, None, Some, OnOk, OnErr, slice_index_or, slice_set, unwrap_or, vec_len, vec_capacity};
ghost use Rattle.match_model.specs.Draft.{owner_fault, items_fault, given_lists, AnswersFirst, AnswersOrWantsMemory};
ghost use Rattle.match_model.specs.Instance.{list_at};

use crate::fault::ModelFault;
use crate::member::{ProgrammeNo, ResidentNo};
use crate::ranking::test_items;
use std::alloc::{AllocError, Global};
use std::marker::Model;

/// The items of all lists of one side. For each member with a list, also where this list stands among the items.
#[derive(Debug, Drop)]
pub(crate) struct GivenLists {
    items: Vec<u32>,
    spans: Vec<Option<(usize, usize)>>,
}

impl Model for GivenLists {
    ghost use Rattle.std.specs.Prelude.{List, Option, ℕ, map, length};
    ghost use Rattle.std.specs.List.{All};
    ghost use Rattle.match_model.specs.Draft.{list_in, IsSpan};

    ghost Value = { List (Option (List ℕ)) };

    ghost view = { λ g. map (list_in g.items.items) g.spans.items };

    ghost invariant = { λ g. All (IsSpan (length g.items.items)) g.spans.items };
}

impl GivenLists {
    pub(crate) fn new(alloc: Global) -> GivenLists
        ensures { result ≡ [] }
    {
        GivenLists {
            items: Vec::new(alloc),
            spans: Vec::new(alloc),
        }
    }

    /// The number of members on this side.
    pub(crate) fn len(&self) -> usize
        ensures { result ≡ length self.now }
    {
        self.spans.len()
    }

    /// Adds a member, who has no list yet.
    pub(crate) fn add_member(&mut self) -> Result<(), AllocError>
        ensures added { OnOk result (self.new ≡ self.old ++ None ∷ []) }
        ensures err { OnErr result (self.new ≡ self.old) }
    {
        self.spans.push(None)?;
        Ok(())
    }

    /// Whether this owner was added and has no list yet; if not, why.
    pub(crate) fn test_owner(&self, owner: usize) -> Result<(), ModelFault>
        ensures { AnswersFirst (owner_fault self.now owner) result }
    {
        match self.spans.get(owner) {
            None => Err(ModelFault::NoSuchMember),
            Some(None) => Ok(()),
            Some(Some(_)) => Err(ModelFault::ListGivenTwice),
        }
    }

    /// The items of a member's list, or no items if the member has no list.
    pub(crate) fn items(&self, owner: usize) -> &[u32]
        requires { owner < length self.now }
        ensures { result.now ≡ unwrap_or (slice_index_or self.now owner None) [] }
    {
        match self.spans[owner] {
            Some((start, end)) => &self.items[start..end],
            None => &[],
        }
    }

    /// The items of the list of the member with this number, or no items if there is no such list.
    pub(crate) fn written(&self, owner: u32) -> &[u32]
        ensures { result.now ≡ list_at (given_lists self.now) owner }
    {
        if owner as usize >= self.len() {
            return &[];
        }
        self.items(owner as usize)
    }

    /// Gives a member a list of residents. Each resident's number has to be below `other_count`, and no resident may
    /// stand on the list twice.
    pub(crate) fn give_residents(
        &mut self,
        owner: usize,
        residents: &[ResidentNo],
        other_count: usize,
        item_places: &mut Vec<usize>,
    ) -> Result<(), ModelFault>
        requires { owner < length self.old }
        ensures given { OnOk result (self.new ≡ slice_set self.old owner (Some residents.now)) }
        ensures first_fault { AnswersOrWantsMemory (items_fault other_count residents.now) result }
        ensures err { OnErr result (self.new ≡ self.old) }
    {
        let start = self.items.len();
        push_residents(&mut self.items, residents)?;
        match test_items(item_places, other_count, &self.items[start..]) {
            Ok(()) => {
                self.spans[owner] = Some((start, self.items.len()));
                Ok(())
            }
            Err(fault) => {
                self.items.truncate(start);
                Err(fault)
            }
        }
    }

    /// Gives a member a list of programmes, as `give_residents` gives a list of residents.
    pub(crate) fn give_programmes(
        &mut self,
        owner: usize,
        programmes: &[ProgrammeNo],
        other_count: usize,
        item_places: &mut Vec<usize>,
    ) -> Result<(), ModelFault>
        requires { owner < length self.old }
        ensures given { OnOk result (self.new ≡ slice_set self.old owner (Some programmes.now)) }
        ensures first_fault { AnswersOrWantsMemory (items_fault other_count programmes.now) result }
        ensures err { OnErr result (self.new ≡ self.old) }
    {
        let start = self.items.len();
        push_programmes(&mut self.items, programmes)?;
        match test_items(item_places, other_count, &self.items[start..]) {
            Ok(()) => {
                self.spans[owner] = Some((start, self.items.len()));
                Ok(())
            }
            Err(fault) => {
                self.items.truncate(start);
                Err(fault)
            }
        }
    }
}

fn push_residents(items: &mut Vec<u32>, residents: &[ResidentNo]) -> Result<(), AllocError>
    ensures pushed { OnOk result (items.new.items ≡ items.old.items ++ residents.now) }
    ensures err { OnErr result (items.new.items ≡ items.old.items) }
{
    items.reserve(residents.len())?;
    for resident in residents {
        items.push_reserved(resident.0);
    }
    Ok(())
}

fn push_programmes(items: &mut Vec<u32>, programmes: &[ProgrammeNo]) -> Result<(), AllocError>
    ensures pushed { OnOk result (items.new.items ≡ items.old.items ++ programmes.now) }
    ensures err { OnErr result (items.new.items ≡ items.old.items) }
{
    items.reserve(programmes.len())?;
    for programme in programmes {
        items.push_reserved(programme.0);
    }
    Ok(())
}
