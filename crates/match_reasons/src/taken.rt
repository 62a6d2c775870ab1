//! How a programme's places are taken in a placement.
ghost use Rattle.std.specs.Prelude.{◌≡◌, ◌+◌, ◌<◌, ◌^◌, ◌↔◌, length, IfOk, IsTrue, Some, max, unwrap_or};
ghost use Rattle.match_model.specs.Ranking.{place};
ghost use Rattle.match_model.specs.Instance.{list_at};
ghost use Rattle.match_model.specs.Placement.{IsMemberOf};
ghost use Rattle.match_reasons.specs.Reason.{AreTaken, IsTaken, HasRoomAt};

use crate::listed::Listed;
use match_model::{Assignment, ProgrammeNo, ResidentNo, WrittenLists};
use std::alloc::{AllocError, Global};

/// How many members a programme has in a placement, and at which place of the programme's list, as it was written, its
/// last-ranked member stands. A member who isn't on the list counts as standing behind all members who are.
#[derive(Clone, Copy, Debug, Default, PartialEq, Eq)]
pub struct Taken {
    /// How many members the programme has.
    pub members: u32,
    /// The place of the programme's last-ranked member, if the programme has members.
    pub last: Option<usize>,
}

impl Taken {
    // Counts a member who stands at this place of the programme's list.
    fn add(&mut self, place: usize)
        requires { self.old.members + 1 < 2 ^ 32 }
        ensures { self.new ≡ record {
          members = self.old.members + 1;
          last = Some (max (unwrap_or self.old.last 0) place);
        } }
    {
        self.members += 1;
        self.last = Some(later_place(self.last, place));
    }

    /// Whether the programme has fewer members than places, or a member who stands at this rank or behind it.
    pub(crate) fn has_room(&self, quota: u32, rank: usize) -> bool
        ensures { IsTrue result ↔ HasRoomAt self.now quota rank }
    {
        match self.last {
            Some(last_place) => self.members < quota || rank <= last_place,
            None => self.members < quota,
        }
    }
}

/// Whether a resident is one of the programme's members.
pub(crate) fn is_member(sheet: &Assignment, resident: ResidentNo, programme: ProgrammeNo) -> bool
    requires { resident < length sheet.now }
    ensures { IsTrue result ↔ IsMemberOf sheet.now resident programme }
{
    match sheet.get(resident) {
        Some(own_programme) => own_programme == programme,
        None => false,
    }
}

// The place of a resident on a programme's list as it was written. A resident who isn't listed gets the list's length.
fn place_of_resident(written: &WrittenLists, programme: ProgrammeNo, resident: ResidentNo) -> usize
    ensures { result ≡ place (list_at written.now.programme_lists programme) resident }
{
    match written.rank_of_resident(programme, resident) {
        Some(rank) => rank,
        None => written.listed_by_programme(programme),
    }
}

// The larger of two places, of which the first may be none.
fn later_place(last_place: Option<usize>, place: usize) -> usize
    ensures { result ≡ max (unwrap_or last_place 0) place }
{
    match last_place {
        Some(last_place) => last_place.max(place),
        None => place,
    }
}

/// How a programme's places are taken, by the programme's list as it was written. The call makes one walk over the
/// placement.
pub fn places_taken(listed: &Listed, sheet: &Assignment, programme: ProgrammeNo) -> Taken
    ensures { IsTaken (list_at listed.now.written.programme_lists programme) sheet.now
        programme result }
{
    let written_lists = listed.lists();
    let mut taken = Taken::default();
    for r in 0..sheet.len() {
        let resident = ResidentNo(r);
        if is_member(sheet, resident, programme) {
            taken.add(place_of_resident(written_lists, programme, resident));
        }
    }
    taken
}

/// How the places of each of this many programmes are taken. The call makes one walk over the placement.
pub fn all_places_taken(
    alloc: Global,
    listed: &Listed,
    sheet: &Assignment,
    programmes: u32,
) -> Result<Vec<Taken>, AllocError>
    ensures each { IfOk result (λ taken_places. length taken_places.items ≡ programmes) }
    ensures taken { IfOk result (λ taken_places.
        AreTaken listed.now.written sheet.now taken_places.items) }
{
    let written_lists = listed.lists();
    let mut taken_places = vec![in alloc; Taken::default(); programmes as usize]?;
    for r in 0..sheet.len() {
        let resident = ResidentNo(r);
        let Some(programme) = sheet.get(resident) else {
            continue;
        };
        if programme.0 < programmes {
            taken_places[programme.0 as usize].add(place_of_resident(
                written_lists,
                programme,
                resident,
            ));
        }
    }
    Ok(taken_places)
}
