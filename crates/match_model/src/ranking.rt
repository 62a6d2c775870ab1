//! Tests on lists as they are given, and the lists that remain after withdrawals.
ghost use Rattle.std.specs.Prelude.{◌≡◌, ◌<◌, ◌≤◌, nat_lt, length, false, Some, vec_len, OnOk, IfOk};
ghost use Rattle.std.specs.List.{list_all};
ghost use Rattle.match_model.specs.Draft.{lists_left, items_fault, withdrawal_fault, has_no_repeats, AnswersOrWantsMemory};
ghost use Rattle.match_model.specs.Fault.{AnswersExactly};
ghost use Rattle.match_model.specs.Instance.{list_at};

use crate::fault::ModelFault;
use crate::given::GivenLists;
use crate::member::{ProgrammeNo, ResidentNo};
use crate::places::stands_in;
use std::alloc::{AllocError, Global};

/// Whether this member was added and is not withdrawn yet; if not, why.
pub(crate) fn test_withdrawal(withdrawn: &[bool], member: usize) -> Result<(), ModelFault>
    ensures { AnswersExactly (withdrawal_fault withdrawn.now member) result }
{
    match withdrawn.get(member) {
        None => Err(ModelFault::NoSuchMember),
        Some(false) => Ok(()),
        Some(true) => Err(ModelFault::WithdrawnTwice),
    }
}

/// Whether each item is below `other_count` and stands in the list once; if not, why. The table of places may have any
/// content before the call.
pub(crate) fn test_items(
    item_places: &mut Vec<usize>,
    other_count: usize,
    items: &[u32],
) -> Result<(), ModelFault>
    ensures { AnswersOrWantsMemory (items_fault other_count items.now) result }
{
    grow_places(item_places, other_count)?;
    match first_fault(item_places, other_count, items) {
        Some(fault) => Err(fault),
        None => Ok(()),
    }
}

/// The first fault of a list's items, found in one walk over the list. The walk also notes the places of the items.
fn first_fault(item_places: &mut [usize], other_count: usize, items: &[u32]) -> Option<ModelFault>
    requires { other_count ≤ length item_places.old }
    ensures { result ≡ items_fault other_count items.now }
{
    for (place, number) in items.iter().enumerate() {
        if *number as usize >= other_count {
            return Some(ModelFault::NoSuchMember);
        }
        if stands_in(item_places, &items[..place], *number) {
            return Some(fault_of_repeat(other_count, items));
        }
        item_places[*number as usize] = place;
    }
    None
}

/// The first fault of a list that has an item twice.
fn fault_of_repeat(other_count: usize, items: &[u32]) -> ModelFault
    requires { has_no_repeats items.now ≡ false }
    ensures { Some result ≡ items_fault other_count items.now }
{
    if are_below(items, other_count) {
        return ModelFault::ListedTwice;
    }
    ModelFault::NoSuchMember
}

/// Makes the table of places at least `other_count` entries long.
fn grow_places(item_places: &mut Vec<usize>, other_count: usize) -> Result<(), AllocError>
    ensures { OnOk result (other_count ≤ vec_len item_places.new) }
{
    if item_places.len() < other_count {
        item_places.resize(other_count, 0)?;
    }
    Ok(())
}

/// Whether each item is below `other_count`.
fn are_below(items: &[u32], other_count: usize) -> bool
    ensures { result ≡ list_all (λ x. nat_lt x other_count) items.now }
{
    items.iter().all(|item| (*item as usize) < other_count)
}

/// A member's list, or an empty list if the member is withdrawn.
pub(crate) fn remaining<'a>(lists: &'a GivenLists, withdrawn: &[bool], owner: usize) -> &'a [u32]
    requires one_flag_each { length withdrawn.now ≡ length lists.now }
    requires member { owner < length lists.now }
    ensures { result.now ≡ list_at (lists_left lists.now withdrawn.now) owner }
{
    if withdrawn[owner] {
        return &[];
    }
    lists.items(owner)
}

/// The residents with these numbers.
pub(crate) fn resident_numbers(
    alloc: Global,
    numbers: &[u32],
) -> Result<Vec<ResidentNo>, AllocError>
    ensures { IfOk result (λ v. v.items ≡ numbers.now) }
{
    let mut residents = Vec::with_capacity(alloc, numbers.len())?;
    for number in numbers {
        residents.push_reserved(ResidentNo(*number));
    }
    Ok(residents)
}

/// The programmes with these numbers.
pub(crate) fn programme_numbers(
    alloc: Global,
    numbers: &[u32],
) -> Result<Vec<ProgrammeNo>, AllocError>
    ensures { IfOk result (λ v. v.items ≡ numbers.now) }
{
    let mut programmes = Vec::with_capacity(alloc, numbers.len())?;
    for number in numbers {
        programmes.push_reserved(ProgrammeNo(*number));
    }
    Ok(programmes)
}
