//! The reasons of a resident's choices.
ghost use Rattle.std.specs.Prelude.{◌≡◌, ◌<◌, ◌==◌, ◌^◌, ℕ, IfSome, Option, length};
ghost use Rattle.receipt_check.specs.Faults as faults;
ghost use Rattle.receipt_check.specs.Shown.{content, fields_in};

use crate::opening::plain_number;
use crate::rows::{field, is};
use crate::shown::ReceiptContents;
use crate::wrong::Wrong;

// Where a choice stands: before, at or after the resident's own programme. Without an own programme each
// choice stands before.
#[derive(Clone, Copy, Debug, PartialEq, Eq)]
enum ChoicePlace {
    BeforeOwn,
    Own,
    AfterOwn,
}

// Where a choice stands, if `own_choice` is the choice that is the resident's own programme.
fn choice_place_of(own_choice: Option<usize>, choice: usize) -> ChoicePlace
    ensures { result ≡ faults.stand_of own_choice choice }
{
    match own_choice {
        None => ChoicePlace::BeforeOwn,
        Some(own_choice) => {
            if choice < own_choice {
                ChoicePlace::BeforeOwn
            } else if choice == own_choice {
                ChoicePlace::Own
            } else {
                ChoicePlace::AfterOwn
            }
        }
    }
}

// Whether the answer has this word, and no number in its other three fields.
fn is_bare_answer(answer: &[&[u8]], word: &[u8]) -> bool
    ensures { result ≡ faults.is_bare word.now (fields_in answer.now) }
{
    answer.len() == 4
        && field(answer, 0) == word
        && field(answer, 1).len() == 0
        && field(answer, 2).len() == 0
        && field(answer, 3).len() == 0
}

// Whether the numbers of an answer `full` are possible: the places went to residents before this one, or
// the programme has no places.
fn are_full_numbers(
    rank: Option<u32>,
    last_digits: &[u8],
    last_rank: Option<u32>,
    quota: Option<u32>,
) -> bool
    ensures { result ≡ faults.is_before rank last_digits.now last_rank quota }
{
    match (rank, last_rank, quota) {
        (Some(rank), Some(last_rank), Some(quota)) => 1 <= quota
            && quota <= last_rank
            && last_rank < rank,
        (Some(rank), None, Some(quota)) => last_digits.len() == 0 && quota == 0 && 1 <= rank,
        _ => false,
    }
}

// Whether the answer is `full`, with numbers that are possible.
fn is_full_answer(answer: &[&[u8]]) -> bool
    ensures { result ≡ faults.is_full (fields_in answer.now) }
{
    if answer.len() != 4 || !is(field(answer, 0), b"full") {
        return false;
    }
    let rank = plain_number(field(answer, 1));
    let last_rank = plain_number(field(answer, 2));
    let quota = plain_number(field(answer, 3));
    are_full_numbers(rank, field(answer, 2), last_rank, quota)
}

// Whether a programme before the resident's own can have this answer.
fn can_be_before_own(answer: &[&[u8]]) -> bool
    ensures { result ≡ faults.is_passed (fields_in answer.now) }
{
    is_bare_answer(answer, b"withdrawn")
        || is_bare_answer(answer, b"unranked")
        || is_full_answer(answer)
}

// Whether a programme after the resident's own can have this answer.
fn can_be_after_own(answer: &[&[u8]]) -> bool
    ensures { result ≡ faults.is_later (fields_in answer.now) }
{
    is_bare_answer(answer, b"better")
        || is_bare_answer(answer, b"unranked")
        || is_bare_answer(answer, b"withdrawn")
}

// Whether a choice that stands so can have this answer; `withdrawn` says whether the resident is
// withdrawn.
fn can_have_answer(withdrawn: bool, choice_place: ChoicePlace, answer: &[&[u8]]) -> bool
    ensures { result ≡ faults.can_stand withdrawn choice_place (fields_in answer.now) }
{
    if withdrawn {
        return is_bare_answer(answer, b"withdrawn");
    }
    match choice_place {
        ChoicePlace::BeforeOwn => can_be_before_own(answer),
        ChoicePlace::Own => is_bare_answer(answer, b"matched"),
        ChoicePlace::AfterOwn => can_be_after_own(answer),
    }
}

// What is wrong with an answer, if the choice can't have it.
fn answer_defect(withdrawn: bool, choice_place: ChoicePlace, answer: &[&[u8]]) -> Option<Wrong>
    ensures { result ≡ faults.reason_wrong withdrawn choice_place (fields_in answer.now) }
{
    if can_have_answer(withdrawn, choice_place, answer) {
        return None;
    }
    if is(field(answer, 0), b"full") {
        return Some(Wrong::Full);
    }
    Some(Wrong::Reason)
}

/// The first choice of a resident whose answer is wrong, by its number from 0, and what is wrong. `own_choice` is
/// the choice that is the resident's own programme.
pub(crate) fn wrong_reason(
    contents: &ReceiptContents,
    own_choice: Option<usize>,
) -> Option<(usize, Wrong)>
    ensures found { result ≡ faults.wrong_reason (content contents.now) own_choice }
    ensures within { IfSome result (λ choice_defect.
        choice_defect.0 < length contents.now.list.now) }
{
    for k in 0..contents.list.len() {
        if let Some(defect) = answer_defect(
            contents.withdrawn,
            choice_place_of(own_choice, k),
            contents.answer(k),
        ) {
            return Some((k, defect));
        }
    }
    None
}
