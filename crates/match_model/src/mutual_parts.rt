//! The mutual part of each list: the members on the list who list its owner too. This part is found with rows that say
//! who lists each owner.
ghost use Rattle.std.specs.Prelude.{◌≡◌, ℕ, ◌<◌, ◌≤◌, ◌^◌, nat_lt, List, [], length, map, true, false, ◌++◌, Some, OnOk, IfOk, IfErr};
ghost use Rattle.std.specs.List.{All, list_all, filter, sum_by};
ghost use Rattle.match_model.specs.Ranking.{is_listed};
ghost use Rattle.match_model.specs.Draft.{lists_left, mutual_left, mutual_lists, has_no_repeats, AreLists, are_over, IsGatherFault};
ghost use Rattle.match_model.specs.Owners.{AreRows, AreChoices, kept_lists};
ghost use Rattle.match_model.specs.Places.{ArePlaces};
ghost use Rattle.match_model.specs.declared.fault.ModelFault.TheVariants.{Memory};

use crate::choices::Choices;
use crate::fault::ModelFault;
use crate::given::GivenLists;
use crate::guesses::note_guess;
use crate::owners::{owners, owners_of_rows};
use crate::places::{note_places, stands_in};
use crate::ranking::remaining;
use crate::rows::Rows;
use std::alloc::{AllocError, Global};

/// Appends to the open row of `kept_rows` those items of a list that also stand in the row `row`, in the list's order.
/// `places` says where each number stands in `row`. For each of these items its rank among them is noted in `ranks`, in
/// which the items of the row begin at `start`.
fn keep(
    kept_rows: &mut Rows<u32>,
    items: &[u32],
    row: &[u32],
    places: &[usize],
    start: usize,
    ranks: &mut [u32],
) -> Result<(), AllocError>
    requires below { list_all (λ x. nat_lt x (length places.now)) items.now ≡ true }
    requires noted { ArePlaces row.now places.now }
    ensures { OnOk result (kept_rows.new ≡ record kept_rows.old {
      begun = kept_rows.old.begun ++ filter (is_listed row.now) items.now;
    }) }
{
    let mut rank: usize = 0;
    for number in items {
        if stands_in(places, row, *number) {
            note_guess(ranks, start.wrapping_add(places[*number as usize]), rank);
            rank = rank.wrapping_add(1);
            kept_rows.push(*number)?;
        }
    }
    Ok(())
}

/// Whether this many items are more than the limit `most_items`. They never are if there is no limit.
fn is_over(most_items: Option<usize>, item_count: usize) -> bool
    ensures { result ≡ are_over most_items item_count }
{
    match most_items {
        Some(most_items) => item_count > most_items,
        None => false,
    }
}

/// For how many of these items memory is reserved: for all of them, but at most for the limit, if there is a limit.
fn room_for(most_items: Option<usize>, item_count: usize) -> usize
    ensures { result ≤ item_count }
{
    match most_items {
        Some(most_items) => item_count.min(most_items),
        None => item_count,
    }
}

/// For each list, those of its items that stand in the row of the list's owner. Fails as soon as these items together
/// are more than the limit. All numbers are below `other_count`. For each item of the rows its rank in the new list is
/// noted in `ranks`.
fn rows_kept(
    alloc: Global,
    most_items: Option<usize>,
    lists: &GivenLists,
    withdrawn: &[bool],
    other_count: usize,
    rows: &Rows<u32>,
    ranks: &mut [u32],
) -> Result<Rows<u32>, ModelFault>
    requires flags { length withdrawn.now ≡ length lists.now }
    requires lists { AreLists lists.now other_count }
    requires rows { AreRows (length lists.now) other_count rows.now.rows }
    ensures lists { IfOk result (λ made. made ≡ record {
      rows = kept_lists
          (lists_left lists.now withdrawn.now) rows.now.rows;
      begun = [];
    }) }
    ensures within { OnOk result (are_over most_items
        (sum_by length (kept_lists (lists_left lists.now withdrawn.now) rows.now.rows)) ≡ false) }
    ensures cause { IfErr result (IsGatherFault most_items
        (sum_by length (kept_lists (lists_left lists.now withdrawn.now) rows.now.rows))) }
{
    let mut places = vec![in alloc; 0; other_count]?;
    let reserved_items = room_for(most_items, rows.item_count());
    let mut kept_rows = Rows::with_capacity(alloc, lists.len(), reserved_items)?;
    for owner in 0..lists.len() {
        let row = rows.row(owner);
        note_places(&mut places, row);
        let items = remaining(lists, withdrawn, owner);
        keep(
            &mut kept_rows,
            items,
            row,
            &places,
            rows.index(owner, 0),
            ranks,
        )?;
        kept_rows.end_row()?;
        if is_over(most_items, kept_rows.item_count()) {
            return Err(ModelFault::TooManyPairs);
        }
    }
    Ok(kept_rows)
}

/// For each member, those on the member's list who list this member too, in order. Fails if these items together are
/// more than `most_items`.
pub(crate) fn mutual(
    alloc: Global,
    most_items: usize,
    own_lists: &GivenLists,
    own_withdrawn: &[bool],
    other_lists: &GivenLists,
    other_withdrawn: &[bool],
) -> Result<Rows<u32>, ModelFault>
    requires few { length other_lists.now < 2 ^ 32 }
    requires flags { length own_withdrawn.now ≡ length own_lists.now }
    requires other_flags { length other_withdrawn.now ≡ length other_lists.now }
    requires lists { AreLists own_lists.now (length other_lists.now) }
    requires others { AreLists other_lists.now (length own_lists.now) }
    ensures lists { IfOk result (λ made. made ≡ record {
      rows = mutual_left own_lists.now own_withdrawn.now other_lists.now other_withdrawn.now;
      begun = [];
    }) }
    ensures within { OnOk result (are_over (Some most_items) (sum_by length (mutual_left
        own_lists.now own_withdrawn.now other_lists.now other_withdrawn.now)) ≡ false) }
    ensures cause { IfErr result (IsGatherFault (Some most_items) (sum_by length (mutual_left
        own_lists.now own_withdrawn.now other_lists.now other_withdrawn.now))) }
{
    let rows = owners(alloc, own_lists.len(), other_lists, other_withdrawn)?;
    rows_kept(
        alloc,
        Some(most_items),
        own_lists,
        own_withdrawn,
        other_lists.len(),
        &rows,
        &mut [],
    )
}

/// What `mutual` gives, but made from the mutual lists of the other side instead of the lists as given, and with the
/// choices. The mutual lists are shorter, and have exactly the members who are listed back.
pub(crate) fn mutual_in_turn(
    alloc: Global,
    own_lists: &GivenLists,
    own_withdrawn: &[bool],
    other_rows: &Rows<u32>,
) -> Result<(Rows<u32>, Choices), ModelFault>
    requires few { length other_rows.now.rows < 2 ^ 32 }
    requires flags { length own_withdrawn.now ≡ length own_lists.now }
    requires lists { AreLists own_lists.now (length other_rows.now.rows) }
    requires below { All (λ list.
        list_all (λ x. nat_lt x (length own_lists.now)) list ≡ true) other_rows.now.rows }
    requires distinct { All (λ list. has_no_repeats list ≡ true) other_rows.now.rows }
    ensures lists { IfOk result (λ made. made.0 ≡ record {
      rows = mutual_lists
          (lists_left own_lists.now own_withdrawn.now) other_rows.now.rows;
      begun = [];
    }) }
    ensures choices { IfOk result (λ made. AreChoices made.0.rows made.1.rows.rows) }
    ensures cause { IfErr result (λ fault. fault ≡ Memory) }
{
    let (rows, places, offers) = owners_of_rows(alloc, own_lists.len(), other_rows)?;
    let mut ranks: Vec<u32> = vec![in alloc; 0; other_rows.item_count()]?;
    let kept_rows = rows_kept(
        alloc,
        None,
        own_lists,
        own_withdrawn,
        other_rows.len(),
        &rows,
        &mut ranks,
    )?;
    let choices = Choices {
        rows,
        resident_ranks: ranks,
        programme_ranks: places,
        offers,
    };
    Ok((kept_rows, choices))
}
