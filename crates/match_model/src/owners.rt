//! For each member's number, the owners of the lists on which this number stands.
ghost use Rattle.std.specs.Prelude.{◌≡◌, ℕ, ◌+◌, ◌<◌, ◌^◌, nat_lt, List, [], length, slice_index, slice_set, true, IfOk};
ghost use Rattle.std.specs.List.{All, list_all};
ghost use Rattle.match_model.specs.Ranking.{is_listed};
ghost use Rattle.match_model.specs.Instance.{list_at};
ghost use Rattle.match_model.specs.Draft.{lists_left, has_no_repeats};
ghost use Rattle.match_model.specs.Owners.{AreOwners, AreCounts, AreStepped};

use crate::given::GivenLists;
use crate::guesses::note_guess;
use crate::ranking::remaining;
use crate::rows::Rows;
use std::alloc::{AllocError, Global};

/// For each number below `member_count`, how many of the lists have it.
fn row_lengths(
    alloc: Global,
    member_count: usize,
    lists: &GivenLists,
    withdrawn: &[bool],
) -> Result<Vec<usize>, AllocError>
    requires few { length lists.now < 2 ^ 32 }
    requires flags { length withdrawn.now ≡ length lists.now }
    requires below { All (λ list.
        list_all (λ x. nat_lt x member_count) list ≡ true) (lists_left lists.now withdrawn.now) }
    requires distinct { All (λ list.
        has_no_repeats list ≡ true) (lists_left lists.now withdrawn.now) }
    ensures { IfOk result (λ counts. AreCounts member_count
        (length lists.now) (lists_left lists.now withdrawn.now) counts.items) }
{
    let mut counts: Vec<usize> = vec![in alloc; 0; member_count]?;
    for owner in 0..lists.len() {
        count_items(&mut counts, remaining(lists, withdrawn, owner));
    }
    Ok(counts)
}

/// Adds one to the count of each item of a list.
fn count_items(counts: &mut [usize], items: &[u32])
    requires below { list_all (λ x. nat_lt x (length counts.old)) items.now ≡ true }
    requires distinct { has_no_repeats items.now ≡ true }
    requires few { (x : ℕ) → x < length counts.old → slice_index counts.old x < 2 ^ 32 }
    ensures { AreStepped 0 (λ _ n. n + 1) items.now counts.old counts.new }
{
    for item in items {
        counts[*item as usize] += 1;
    }
}

/// Enters an owner into the row of each item of the owner's list, behind the owners who were entered there before,
/// and counts the owner there. In `places` the rank of the row's number on the owner's list is noted, at the new item's
/// index. In `offers` this index is noted, at the item of the list, which begins there at `start`.
fn enter(
    rows: &mut Rows<u32>,
    counts: &mut [usize],
    places: &mut [u32],
    offers: &mut [u32],
    start: usize,
    owner: u32,
    items: &[u32],
)
    requires below { list_all (λ x. nat_lt x (length counts.old)) items.now ≡ true }
    requires distinct { has_no_repeats items.now ≡ true }
    requires few { (x : ℕ) → x < length counts.old → slice_index counts.old x < 2 ^ 32 }
    requires one_each { length rows.old.rows ≡ length counts.old }
    requires room { (x : ℕ) → is_listed items.now x ≡ true
        → slice_index counts.old x < length (list_at rows.old.rows x) }
    ensures entered { AreStepped [] (λ x row.
        slice_set row (slice_index counts.old x) owner) items.now rows.old.rows rows.new.rows }
    ensures counted { AreStepped 0 (λ _ n. n + 1) items.now counts.old counts.new }
{
    let mut place: usize = 0;
    for item in items {
        let row = *item as usize;
        let choice = rows.set(row, counts[row], owner);
        note_guess(places, choice, place);
        note_guess(offers, start.wrapping_add(place), choice);
        place = place.wrapping_add(1);
        counts[row] += 1;
    }
}

/// For each number below `member_count`, the owners of the lists on which it stands, in rising order.
pub(crate) fn owners(
    alloc: Global,
    member_count: usize,
    lists: &GivenLists,
    withdrawn: &[bool],
) -> Result<Rows<u32>, AllocError>
    requires few { length lists.now < 2 ^ 32 }
    requires flags { length withdrawn.now ≡ length lists.now }
    requires below { All (λ list.
        list_all (λ x. nat_lt x member_count) list ≡ true) (lists_left lists.now withdrawn.now) }
    requires distinct { All (λ list.
        has_no_repeats list ≡ true) (lists_left lists.now withdrawn.now) }
    ensures { IfOk result (λ made.
        AreOwners member_count (length lists.now) (lists_left lists.now withdrawn.now) made.rows) }
{
    let lengths = row_lengths(alloc, member_count, lists, withdrawn)?;
    let mut rows = Rows::of_lengths(alloc, &lengths)?;
    let mut counts: Vec<usize> = vec![in alloc; 0; member_count]?;
    for owner in 0..lists.len() {
        enter(
            &mut rows,
            &mut counts,
            &mut [],
            &mut [],
            0,
            owner as u32,
            remaining(lists, withdrawn, owner),
        );
    }
    Ok(rows)
}

/// For each number below `member_count`, how many of the rows have it.
fn lengths_by_rows(
    alloc: Global,
    member_count: usize,
    lists: &Rows<u32>,
) -> Result<Vec<usize>, AllocError>
    requires few { length lists.now.rows < 2 ^ 32 }
    requires below { All (λ list.
        list_all (λ x. nat_lt x member_count) list ≡ true) lists.now.rows }
    requires distinct { All (λ list. has_no_repeats list ≡ true) lists.now.rows }
    ensures { IfOk result (λ counts.
        AreCounts member_count (length lists.now.rows) lists.now.rows counts.items) }
{
    let mut counts: Vec<usize> = vec![in alloc; 0; member_count]?;
    for owner in 0..lists.len() {
        count_items(&mut counts, lists.row(owner));
    }
    Ok(counts)
}

/// What `owners` gives, for lists that are stored as rows. Also gives what `enter` notes, first `places` and then
/// `offers`.
pub(crate) fn owners_of_rows(
    alloc: Global,
    member_count: usize,
    lists: &Rows<u32>,
) -> Result<(Rows<u32>, Vec<u32>, Vec<u32>), AllocError>
    requires few { length lists.now.rows < 2 ^ 32 }
    requires below { All (λ list.
        list_all (λ x. nat_lt x member_count) list ≡ true) lists.now.rows }
    requires distinct { All (λ list. has_no_repeats list ≡ true) lists.now.rows }
    ensures { IfOk result (λ made.
        AreOwners member_count (length lists.now.rows) lists.now.rows made.0.rows) }
{
    let lengths = lengths_by_rows(alloc, member_count, lists)?;
    let mut rows = Rows::of_lengths(alloc, &lengths)?;
    let mut counts: Vec<usize> = vec![in alloc; 0; member_count]?;
    let mut places: Vec<u32> = vec![in alloc; 0; lists.item_count()]?;
    let mut offers: Vec<u32> = vec![in alloc; 0; lists.item_count()]?;
    for owner in 0..lists.len() {
        enter(
            &mut rows,
            &mut counts,
            &mut places,
            &mut offers,
            lists.index(owner, 0),
            owner as u32,
            lists.row(owner),
        );
    }
    Ok((rows, places, offers))
}
