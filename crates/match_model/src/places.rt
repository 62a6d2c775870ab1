//! Tables of places. With such a table, one look-up says where a number stands in a list.
ghost use Rattle.std.specs.Prelude.{◌≡◌, ◌<◌, nat_lt, length, true};
ghost use Rattle.std.specs.List.{list_all};
ghost use Rattle.match_model.specs.Draft.{has_no_repeats};
ghost use Rattle.match_model.specs.Instance.{rank};
ghost use Rattle.match_model.specs.Ranking.{is_listed};
ghost use Rattle.match_model.specs.Places.{ArePlaces};

/// The place of a number in the table's list, if the number stands in the list.
pub(crate) fn place_in(places: &[usize], list: &[u32], number: u32) -> Option<usize>
    requires noted { ArePlaces list.now places.now }
    requires below { number < length places.now }
    ensures { result ≡ rank list.now number }
{
    let place = places[number as usize];
    if place < list.len() && list[place] == number {
        return Some(place);
    }
    None
}

/// Whether a number stands in the table's list.
pub(crate) fn stands_in(places: &[usize], list: &[u32], number: u32) -> bool
    requires noted { ArePlaces list.now places.now }
    requires below { number < length places.now }
    ensures { result ≡ is_listed list.now number }
{
    place_in(places, list, number).is_some()
}

/// Notes the place of each item of a list without repeats. The table may keep notes of other lists. They do no
/// harm, since a look-up tests the number at the noted place.
pub(crate) fn note_places(places: &mut [usize], list: &[u32])
    requires below { list_all (λ x. nat_lt x (length places.old)) list.now ≡ true }
    requires distinct { has_no_repeats list.now ≡ true }
    ensures noted { ArePlaces list.now places.new }
    ensures length { length places.new ≡ length places.old }
{
    for (place, number) in list.iter().enumerate() {
        places[*number as usize] = place;
    }
}
