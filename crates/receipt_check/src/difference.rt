//! What two receipts differ in.
ghost use Rattle.std.specs.Prelude.{◌≡◌, ◌<◌, ◌^◌, IfSome};
ghost use Rattle.docket_names.specs.Texts.{number_in};
ghost use Rattle.receipt_check.specs.Faults.{plain_number as plain_number_in};
ghost use Rattle.receipt_check.specs.Pair as pair;
ghost use Rattle.receipt_check.specs.Shown.{fields_in};
ghost use Rattle.receipt_check.specs.Side.{IsSide, receipt_of};

use crate::opening::plain_number;
use crate::rows::{field, is};
use crate::side::ComparedReceipt;

/// The first thing in which the receipts of a resident and a programme differ.
#[derive(Clone, Copy, Debug, PartialEq, Eq)]
pub enum Difference {
    /// The programme has the resident, though the resident doesn't list the programme.
    Unlisted,
    /// The answer is `withdrawn` though neither member is withdrawn, or another answer though one of them
    /// is.
    Withdrawn,
    /// The answer is `unranked` though the programme lists the resident, or another answer though it
    /// doesn't.
    Unranked,
    /// The answer is `matched` though the programme doesn't have the resident, or another answer though
    /// it does.
    Matched,
    /// The resident's rank on the programme's list.
    Rank,
    /// The programme's quota.
    Quota,
    /// Whether all places of the programme are filled.
    Filled,
    /// The rank of the last one of the programme's residents.
    Last,
}

/// Whether the answer is this word.
pub(crate) fn says(answer: &[&[u8]], word: &[u8]) -> bool
    ensures { result ≡ pair.says (fields_in answer.now) word.now }
{
    is(field(answer, 0), word)
}

/// Whether the digits write this number.
pub(crate) fn is_number(digits: &[u8], number: usize) -> bool
    ensures { result ≡ pair.is_number (plain_number_in digits.now) number }
{
    match plain_number(digits) {
        Some(written_number) => written_number as usize == number,
        None => false,
    }
}

// Whether the digits write this place, counted from 1. Without a place there may be no digits.
fn is_position(digits: &[u8], position: Option<usize>) -> bool
    requires { IfSome position (λ position. position < 2 ^ 63) }
    ensures { result ≡ pair.is_place digits.now position }
{
    match position {
        Some(position) => is_number(digits, position + 1),
        None => digits.len() == 0,
    }
}

/// Whether the resident or the programme is withdrawn.
pub(crate) fn is_withdrawn(resident: &ComparedReceipt, programme: &ComparedReceipt) -> bool
    ensures { result ≡ pair.is_gone (receipt_of resident.now) (receipt_of programme.now) }
{
    resident.contents.withdrawn || programme.contents.withdrawn
}

// The first difference between the answer `full` and the programme's receipt. The programme lists the
// resident at the place `rank`.
fn full_difference(
    answer: &[&[u8]],
    rank: Option<usize>,
    programme: &ComparedReceipt,
) -> Option<Difference>
    requires rank { IfSome rank (λ k. k < 2 ^ 63) }
    requires programme { IsSide programme.now }
    ensures { result ≡ pair.full_difference (fields_in answer.now) rank (receipt_of programme.now) }
{
    if !is_position(field(answer, 1), rank) {
        return Some(Difference::Rank);
    }
    if !is(field(answer, 3), programme.contents.quota) {
        return Some(Difference::Quota);
    }
    if !is_number(
        programme.contents.quota,
        programme.contents.detail_rows.len(),
    ) {
        return Some(Difference::Filled);
    }
    if !is_position(field(answer, 2), programme.last_member_position) {
        return Some(Difference::Last);
    }
    None
}

// The first difference between a resident's answer about a programme and the programme's receipt.
fn answer_difference(
    answer: &[&[u8]],
    resident: &ComparedReceipt,
    programme: &ComparedReceipt,
) -> Option<Difference>
    requires { IsSide programme.now }
    ensures { result ≡ pair.answer_difference (fields_in answer.now)
        (number_in (receipt_of programme.now).list (receipt_of resident.now).name)
        (receipt_of resident.now) (receipt_of programme.now) }
{
    let withdrawn = is_withdrawn(resident, programme);
    let rank = programme.position(resident.contents.name);
    if says(answer, b"withdrawn") != withdrawn {
        return Some(Difference::Withdrawn);
    }
    if !withdrawn && says(answer, b"unranked") == rank.is_some() {
        return Some(Difference::Unranked);
    }
    if says(answer, b"matched") != programme.has(resident.contents.name) {
        return Some(Difference::Matched);
    }
    if says(answer, b"full") {
        return full_difference(answer, rank, programme);
    }
    None
}

/// The first thing in which the receipts of a resident and a programme differ, if they do.
#[tactic(auto, unfolding(crate::specs::Pair::difference))]
pub(crate) fn first_difference(
    resident: &ComparedReceipt,
    programme: &ComparedReceipt,
) -> Option<Difference>
    requires resident { IsSide resident.now }
    requires programme { IsSide programme.now }
    ensures { result ≡ pair.difference (receipt_of resident.now) (receipt_of programme.now) }
{
    match resident.position(programme.contents.name) {
        Some(choice) => answer_difference(resident.contents.answer(choice), resident, programme),
        None if programme.has(resident.contents.name) => Some(Difference::Unlisted),
        None => None,
    }
}
