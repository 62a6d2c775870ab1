//! The sentence on the receipts of a resident and a programme.
ghost use Rattle.std.specs.Prelude.{◌≡◌, ◌<◌, ◌^◌, IfSome, OnOk, codes};
ghost use Rattle.receipt_check.specs.Pair as pair;
ghost use Rattle.receipt_check.specs.Rows.{Grows};
ghost use Rattle.receipt_check.specs.Shown.{fields_in};
ghost use Rattle.receipt_check.specs.Side.{IsSide, receipt_of};

use crate::difference::{Difference, is_withdrawn, says};
use crate::print::{put, put_number};
use crate::rows::{field, is};
use crate::side::ComparedReceipt;
use crate::told::{put_rank, put_stop};
use std::alloc::AllocError;

// Adds pieces of a text, one after another.
fn put_pieces(sentence: &mut Vec<u8>, pieces: &[&[u8]]) -> Result<(), AllocError>
    ensures { OnOk result (Grows sentence.old sentence.new (pair.joined (fields_in pieces.now))) }
{
    for k in 0..pieces.len() {
        put(sentence, field(pieces, k))?;
    }
    Ok(())
}

// Adds a place on a list, counted from 0, as a rank.
fn put_position(sentence: &mut Vec<u8>, position: Option<usize>) -> Result<(), AllocError>
    requires { IfSome position (λ position. position < 2 ^ 63) }
    ensures { OnOk result (Grows sentence.old sentence.new (pair.place_text position)) }
{
    match position {
        Some(position) => {
            let mut number_buffer = itoa::Buffer::new();
            put_rank(sentence, number_buffer.format(position + 1).as_bytes())
        }
        None => Ok(()),
    }
}

// Adds the words on who is withdrawn: the resident, or else the programme.
fn put_withdrawn_name(
    sentence: &mut Vec<u8>,
    resident: &ComparedReceipt,
    programme: &ComparedReceipt,
) -> Result<(), AllocError>
    ensures { OnOk result (Grows sentence.old sentence.new
        (pair.gone_text (receipt_of resident.now) (receipt_of programme.now))) }
{
    if resident.contents.withdrawn {
        return put_pieces(sentence, &[resident.contents.name, b" is withdrawn"]);
    }
    put_pieces(sentence, &[programme.contents.name, b" is withdrawn"])
}

// Adds the words on the places of a programme that is full.
fn put_full_places(sentence: &mut Vec<u8>, answer: &[&[u8]]) -> Result<(), AllocError>
    ensures { OnOk result
        (Grows sentence.old sentence.new (pair.full_text (fields_in answer.now))) }
{
    let quota = field(answer, 3);
    if is(quota, b"0") {
        return put(sentence, b", and it has no places");
    }
    if is(quota, b"1") {
        put(
            sentence,
            b", and its place went to the resident whom it lists ",
        )?;
        return put_rank(sentence, field(answer, 2));
    }
    put(sentence, b", and all its ")?;
    put(sentence, quota)?;
    put(
        sentence,
        b" places went to residents whom it lists before, the last of them ",
    )?;
    put_rank(sentence, field(answer, 2))
}

// Adds what both receipts say of a resident's choice.
fn put_agreement(
    sentence: &mut Vec<u8>,
    answer: &[&[u8]],
    resident: &ComparedReceipt,
    programme: &ComparedReceipt,
) -> Result<(), AllocError>
    ensures { OnOk result (Grows sentence.old sentence.new (pair.answer_agreed (fields_in
        answer.now) (receipt_of resident.now) (receipt_of programme.now))) }
{
    let (resident_name, programme_name) = (resident.contents.name, programme.contents.name);
    if says(answer, b"withdrawn") {
        return put_withdrawn_name(sentence, resident, programme);
    }
    if says(answer, b"unranked") {
        return put_pieces(
            sentence,
            &[programme_name, b" does not list ", resident_name],
        );
    }
    if says(answer, b"matched") {
        return put_pieces(
            sentence,
            &[resident_name, b" is matched with ", programme_name],
        );
    }
    if says(answer, b"better") {
        let better_words = b" is matched with a programme that it lists before ";
        return put_pieces(sentence, &[resident_name, better_words, programme_name]);
    }
    put_pieces(sentence, &[programme_name, b" lists ", resident_name, b" "])?;
    put_rank(sentence, field(answer, 1))?;
    put_full_places(sentence, answer)
}

// Adds the beginning of a sentence on a difference: what the resident's receipt says.
fn put_answer_word(
    sentence: &mut Vec<u8>,
    answer: &[&[u8]],
    resident: &ComparedReceipt,
) -> Result<(), AllocError>
    ensures { OnOk result (Grows sentence.old sentence.new
        (pair.joined (pair.word_pieces (fields_in answer.now) (receipt_of resident.now)))) }
{
    let (resident_name, answer_word) = (resident.contents.name, field(answer, 0));
    put_pieces(
        sentence,
        &[resident_name, b"'s receipt says ", answer_word, b", and "],
    )
}

// Adds the difference that only one of the two receipts says that a member is withdrawn.
fn put_withdrawal_difference(
    sentence: &mut Vec<u8>,
    answer: &[&[u8]],
    resident: &ComparedReceipt,
    programme: &ComparedReceipt,
) -> Result<(), AllocError>
    ensures { OnOk result (Grows sentence.old sentence.new (pair.withdrawn_differing (fields_in
        answer.now) (receipt_of resident.now) (receipt_of programme.now))) }
{
    put_answer_word(sentence, answer, resident)?;
    if is_withdrawn(resident, programme) {
        return put_withdrawn_name(sentence, resident, programme);
    }
    put(sentence, b"neither is withdrawn")
}

// Adds at which rank the programme lists the resident.
fn put_list_rank(
    sentence: &mut Vec<u8>,
    resident: &ComparedReceipt,
    programme: &ComparedReceipt,
) -> Result<(), AllocError>
    requires { IsSide programme.now }
    ensures { OnOk result (Grows sentence.old sentence.new
        (pair.listed_text (receipt_of resident.now) (receipt_of programme.now))) }
{
    let (resident_name, programme_name) = (resident.contents.name, programme.contents.name);
    put_pieces(sentence, &[programme_name, b" lists ", resident_name, b" "])?;
    put_position(sentence, programme.position(resident_name))
}

// Adds the difference that only one receipt says that the programme lists the resident.
fn put_ranking_difference(
    sentence: &mut Vec<u8>,
    answer: &[&[u8]],
    resident: &ComparedReceipt,
    programme: &ComparedReceipt,
) -> Result<(), AllocError>
    requires { IsSide programme.now }
    ensures { OnOk result (Grows sentence.old sentence.new (pair.unranked_differing (fields_in
        answer.now) (receipt_of resident.now) (receipt_of programme.now))) }
{
    let (resident_name, programme_name) = (resident.contents.name, programme.contents.name);
    put_answer_word(sentence, answer, resident)?;
    if says(answer, b"unranked") {
        return put_list_rank(sentence, resident, programme);
    }
    put_pieces(
        sentence,
        &[programme_name, b" does not list ", resident_name],
    )
}

// Adds the difference that only one receipt says that the programme has the resident.
fn put_match_difference(
    sentence: &mut Vec<u8>,
    answer: &[&[u8]],
    resident: &ComparedReceipt,
    programme: &ComparedReceipt,
) -> Result<(), AllocError>
    ensures { OnOk result (Grows sentence.old sentence.new (pair.matched_differing (fields_in
        answer.now) (receipt_of resident.now) (receipt_of programme.now))) }
{
    let (resident_name, programme_name) = (resident.contents.name, programme.contents.name);
    put_answer_word(sentence, answer, resident)?;
    if says(answer, b"matched") {
        return put_pieces(
            sentence,
            &[programme_name, b" does not have ", resident_name],
        );
    }
    put_pieces(sentence, &[programme_name, b" has ", resident_name])
}

// Adds the difference between the resident's ranks on the programme's list in the two receipts.
fn put_rank_difference(
    sentence: &mut Vec<u8>,
    answer: &[&[u8]],
    resident: &ComparedReceipt,
    programme: &ComparedReceipt,
) -> Result<(), AllocError>
    requires { IsSide programme.now }
    ensures { OnOk result (Grows sentence.old sentence.new (pair.rank_differing (fields_in
        answer.now) (receipt_of resident.now) (receipt_of programme.now))) }
{
    let (resident_name, programme_name) = (resident.contents.name, programme.contents.name);
    put_pieces(
        sentence,
        &[
            resident_name,
            b"'s receipt says that ",
            programme_name,
            b" lists it ",
        ],
    )?;
    put_rank(sentence, field(answer, 1))?;
    put_pieces(
        sentence,
        &[b", and ", programme.contents.name, b" lists it "],
    )?;
    put_position(sentence, programme.position(resident.contents.name))
}

// Adds the difference between the programme's quotas in the two receipts.
fn put_quota_difference(
    sentence: &mut Vec<u8>,
    answer: &[&[u8]],
    resident: &ComparedReceipt,
    programme: &ComparedReceipt,
) -> Result<(), AllocError>
    ensures { OnOk result (Grows sentence.old sentence.new (pair.quota_differing (fields_in
        answer.now) (receipt_of resident.now) (receipt_of programme.now))) }
{
    let (resident_name, programme_name, answer_quota) = (
        resident.contents.name,
        programme.contents.name,
        field(answer, 3),
    );
    let (says_words, has_words, places_words) = (
        b"'s receipt says that ",
        b" has ",
        b" places, and ",
    );
    let own_quota = programme.contents.quota;
    put_pieces(
        sentence,
        &[
            resident_name,
            says_words,
            programme_name,
            has_words,
            answer_quota,
            places_words,
            programme_name,
            has_words,
            own_quota,
        ],
    )
}

// Adds the difference that not all places are filled, and how many are.
fn put_filled(
    sentence: &mut Vec<u8>,
    resident: &ComparedReceipt,
    programme: &ComparedReceipt,
) -> Result<(), AllocError>
    ensures { OnOk result (Grows sentence.old sentence.new (pair.filled_differing
        (receipt_of resident.now) (receipt_of programme.now))) }
{
    let (resident_name, programme_name) = (resident.contents.name, programme.contents.name);
    let (says_words, went_words) = (
        b"'s receipt says that all places of ",
        b" went to others, and ",
    );
    put_pieces(
        sentence,
        &[resident_name, says_words, programme_name, went_words],
    )?;
    put_number(sentence, programme.contents.detail_rows.len())?;
    put_pieces(
        sentence,
        &[b" of ", programme.contents.quota, b" are filled"],
    )
}

// Adds the difference between the last ranks that got a place, in the two receipts.
fn put_last_difference(
    sentence: &mut Vec<u8>,
    answer: &[&[u8]],
    resident: &ComparedReceipt,
    programme: &ComparedReceipt,
) -> Result<(), AllocError>
    requires { IsSide programme.now }
    ensures { OnOk result (Grows sentence.old sentence.new (pair.last_differing (fields_in
        answer.now) (receipt_of resident.now) (receipt_of programme.now))) }
{
    let (resident_name, programme_name) = (resident.contents.name, programme.contents.name);
    put_pieces(
        sentence,
        &[resident_name, b"'s receipt says that the last of them is "],
    )?;
    put_rank(sentence, field(answer, 2))?;
    put_pieces(sentence, &[b" with ", programme_name, b", and it is "])?;
    put_position(sentence, programme.last_member_position)
}

// Adds what the two receipts say differently, by what they differ in first.
fn put_difference(
    sentence: &mut Vec<u8>,
    difference: Difference,
    answer: &[&[u8]],
    resident: &ComparedReceipt,
    programme: &ComparedReceipt,
) -> Result<(), AllocError>
    requires { IsSide programme.now }
    ensures { OnOk result (Grows sentence.old sentence.new (pair.differing difference (fields_in
        answer.now) (receipt_of resident.now) (receipt_of programme.now))) }
{
    let (resident_name, programme_name) = (resident.contents.name, programme.contents.name);
    match difference {
        Difference::Unlisted => {
            let unlisted_words = b" does not list ";
            put_pieces(
                sentence,
                &[
                    programme_name,
                    b" has ",
                    resident_name,
                    b", and ",
                    resident_name,
                    unlisted_words,
                    programme_name,
                ],
            )
        }
        Difference::Withdrawn => put_withdrawal_difference(sentence, answer, resident, programme),
        Difference::Unranked => put_ranking_difference(sentence, answer, resident, programme),
        Difference::Matched => put_match_difference(sentence, answer, resident, programme),
        Difference::Rank => put_rank_difference(sentence, answer, resident, programme),
        Difference::Quota => put_quota_difference(sentence, answer, resident, programme),
        Difference::Filled => put_filled(sentence, resident, programme),
        Difference::Last => put_last_difference(sentence, answer, resident, programme),
    }
}

// Adds what both receipts say, if the programme is this choice of the resident's.
fn put_agreement_at(
    sentence: &mut Vec<u8>,
    choice: Option<usize>,
    resident: &ComparedReceipt,
    programme: &ComparedReceipt,
) -> Result<(), AllocError>
    ensures { OnOk result (Grows sentence.old sentence.new (pair.agreed_at (receipt_of resident.now)
        (receipt_of programme.now) choice)) }
{
    let (resident_name, programme_name) = (resident.contents.name, programme.contents.name);
    match choice {
        None => put_pieces(
            sentence,
            &[resident_name, b" does not list ", programme_name],
        ),
        Some(choice) => put_agreement(
            sentence,
            resident.contents.answer(choice),
            resident,
            programme,
        ),
    }
}

// Adds what the two receipts say differently, if the programme is this choice of the resident's.
fn put_difference_at(
    sentence: &mut Vec<u8>,
    difference: Difference,
    choice: Option<usize>,
    resident: &ComparedReceipt,
    programme: &ComparedReceipt,
) -> Result<(), AllocError>
    requires { IsSide programme.now }
    ensures { OnOk result (Grows sentence.old sentence.new (pair.differing difference
        (pair.answer_at (receipt_of resident.now) choice)
        (receipt_of resident.now) (receipt_of programme.now))) }
{
    match choice {
        None => put_difference(sentence, difference, &[], resident, programme),
        Some(choice) => put_difference(
            sentence,
            difference,
            resident.contents.answer(choice),
            resident,
            programme,
        ),
    }
}

// Adds whether the two receipts agree and what they say, if the programme is this choice of the
// resident's.
fn put_comparison(
    sentence: &mut Vec<u8>,
    difference: Option<Difference>,
    choice: Option<usize>,
    resident: &ComparedReceipt,
    programme: &ComparedReceipt,
) -> Result<(), AllocError>
    requires { IsSide programme.now }
    ensures { OnOk result (Grows sentence.old sentence.new (pair.compared_words (receipt_of
        resident.now) (receipt_of programme.now) choice difference)) }
{
    match difference {
        None => {
            put(sentence, b" agree: ")?;
            put_agreement_at(sentence, choice, resident, programme)
        }
        Some(difference) => {
            put(sentence, b" differ: ")?;
            put_difference_at(sentence, difference, choice, resident, programme)
        }
    }
}

/// Adds the sentence on the receipts of a resident and a programme. `difference` is the first thing in
/// which they differ, if they do.
#[tactic(auto, unfolding(crate::specs::Pair::pair_words))]
pub(crate) fn put_pair(
    sentence: &mut Vec<u8>,
    difference: Option<Difference>,
    resident: &ComparedReceipt,
    programme: &ComparedReceipt,
) -> Result<(), AllocError>
    requires found { difference
        ≡ pair.difference (receipt_of resident.now) (receipt_of programme.now) }
    requires resident { IsSide resident.now }
    requires programme { IsSide programme.now }
    ensures { OnOk result (Grows sentence.old sentence.new
        (pair.pair_words (receipt_of resident.now) (receipt_of programme.now))) }
{
    put_pieces(
        sentence,
        &[resident.contents.name, b" and ", programme.contents.name],
    )?;
    let choice = resident.position(programme.contents.name);
    put_comparison(sentence, difference, choice, resident, programme)?;
    put_stop(sentence)
}
