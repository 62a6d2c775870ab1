//! The members' lists as they were written.
ghost use Rattle.std.specs.Prelude.{◌≡◌, length, slice_get};
ghost use Rattle.match_model.specs.Draft.{given_lists};
ghost use Rattle.match_model.specs.Instance.{list_at, rank};

use crate::given::GivenLists;
use crate::member::{ProgrammeNo, ResidentNo};
use std::marker::Model;

/// The members' lists as they were written, best first. A member without a list has an empty list here, and so has a
/// number that is no member's.
#[derive(Debug, Drop)]
pub struct WrittenLists {
    programme_lists: GivenLists,
    resident_lists: GivenLists,
}

impl Model for WrittenLists {
    ghost use Rattle.match_model.specs.Draft.{given_lists};
    ghost use Rattle.match_model.specs.Written.{Written};

    ghost Value = { Written };

    ghost view = { λ w. record {
      programme_lists = given_lists w.programme_lists;
      resident_lists = given_lists w.resident_lists;
    } };
}

impl WrittenLists {
    /// The written lists of both sides, from the lists that the builder was given.
    pub(crate) fn new(programme_lists: GivenLists, resident_lists: GivenLists) -> WrittenLists
        ensures { result ≡ record {
          programme_lists = given_lists programme_lists;
          resident_lists = given_lists resident_lists;
        } }
    {
        WrittenLists {
            programme_lists,
            resident_lists,
        }
    }

    /// The rank of a resident on a programme's list, counted from 0, if the resident is listed. The rank is found by a
    /// walk along the list.
    pub fn rank_of_resident(&self, programme: ProgrammeNo, resident: ResidentNo) -> Option<usize>
        ensures { result ≡ rank (list_at self.now.programme_lists programme) resident }
    {
        rank_along(self.programme_lists.written(programme.0), resident.0)
    }

    /// The rank of a programme on a resident's list, counted from 0, if the programme is listed. The rank is found by a
    /// walk along the list.
    pub fn rank_of_programme(&self, resident: ResidentNo, programme: ProgrammeNo) -> Option<usize>
        ensures { result ≡ rank (list_at self.now.resident_lists resident) programme }
    {
        rank_along(self.resident_lists.written(resident.0), programme.0)
    }

    /// How many residents a programme listed, as the list was written.
    pub fn listed_by_programme(&self, programme: ProgrammeNo) -> usize
        ensures { result ≡ length (list_at self.now.programme_lists programme) }
    {
        self.programme_lists.written(programme.0).len()
    }

    /// How many programmes a resident listed, as the list was written.
    pub fn listed_by_resident(&self, resident: ResidentNo) -> usize
        ensures { result ≡ length (list_at self.now.resident_lists resident) }
    {
        self.resident_lists.written(resident.0).len()
    }

    /// The programme at this place of a resident's list, counted from 0, if the list is long enough.
    pub fn choice(&self, resident: ResidentNo, place: usize) -> Option<ProgrammeNo>
        ensures { result ≡ slice_get (list_at self.now.resident_lists resident) place }
    {
        match self.resident_lists.written(resident.0).get(place) {
            Some(number) => Some(ProgrammeNo(*number)),
            None => None,
        }
    }
}

/// The rank of a number in a list, counted from 0, if the number is listed.
fn rank_along(list: &[u32], number: u32) -> Option<usize>
    ensures { result ≡ rank list.now number }
{
    for i in 0..list.len() {
        if list[i] == number {
            return Some(i);
        }
    }
    None
}
