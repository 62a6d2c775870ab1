//! What a good receipt shows, in words.
ghost use Rattle.std.specs.Prelude.{◌≡◌, ◌<◌, ◌++◌, ℕ, List, IfOk, OnOk, codes, length, option_map};
ghost use Rattle.std.specs.List.{flat_map, range_with_len};
ghost use Rattle.csv.specs.Records.{fields_of};
ghost use Rattle.receipt_check.specs.Receipt.{members};
ghost use Rattle.receipt_check.specs.Rows.{Grows};
ghost use Rattle.receipt_check.specs.Shown.{content, fields_in};
ghost use Rattle.receipt_check.specs.Told as words;

use crate::faults::members_in;
use crate::kind::Kind;
use crate::named::real_fields;
use crate::print::{put, put_number};
use crate::rows::{field, is};
use crate::shown::{ReceiptContents, has_real_name};
use csv::ByteRecord;
use docket_names::number_of;
use records::field as record_field;
use std::alloc::{AllocError, Global};

/// Adds the end of a sentence.
pub(crate) fn put_stop(sentences: &mut Vec<u8>) -> Result<(), AllocError>
    ensures { OnOk result (Grows sentences.old sentences.new words.stop) }
{
    put(sentences, b".\n")
}

// Adds the names after the first, each after a comma.
fn put_more_names(sentences: &mut Vec<u8>, names: &[&[u8]]) -> Result<(), AllocError>
    ensures { OnOk result (Grows sentences.old sentences.new (words.more_names (fields_in
        names.now))) }
{
    for k in 0..names.len() {
        put(sentences, b", ")?;
        put(sentences, field(names, k))?;
    }
    Ok(())
}

// Adds the names on a list, or `nobody` if there are none.
fn put_names(sentences: &mut Vec<u8>, names: &[&[u8]]) -> Result<(), AllocError>
    ensures { OnOk result (Grows sentences.old sentences.new (words.names_text (fields_in
        names.now))) }
{
    let Some((first_name, later_names)) = names.split_first() else {
        return put(sentences, b"nobody");
    };
    put(sentences, *first_name)?;
    put_more_names(sentences, later_names)
}

// The ending of a rank, as in 1st, 2nd, 3rd and 4th.
fn ending_of(rank: u32) -> &'static [u8]
    ensures { result.now ≡ words.ending_of rank }
{
    if 11 <= rank % 100 && rank % 100 <= 13 {
        return b"th";
    }
    match rank % 10 {
        1 => b"st",
        2 => b"nd",
        3 => b"rd",
        _ => b"th",
    }
}

/// Adds a rank with its ending.
pub(crate) fn put_rank(sentences: &mut Vec<u8>, digits: &[u8]) -> Result<(), AllocError>
    ensures { OnOk result (Grows sentences.old sentences.new (words.rank_text digits.now)) }
{
    put(sentences, digits)?;
    match number_of(digits) {
        Some(rank) => put(sentences, ending_of(rank)),
        None => Ok(()),
    }
}

// Adds the places of a full programme, and the last rank among those who have them.
fn put_places(sentences: &mut Vec<u8>, answer: &[&[u8]]) -> Result<(), AllocError>
    ensures { OnOk result (Grows sentences.old sentences.new (words.places_text (fields_in
        answer.now))) }
{
    let quota = field(answer, 3);
    if is(quota, b"0") {
        return put(sentences, b", and it has no places");
    }
    if is(quota, b"1") {
        put(
            sentences,
            b". Its place went to a resident it ranked higher, ",
        )?;
        return put_rank(sentences, field(answer, 2));
    }
    put(sentences, b". Its ")?;
    put(sentences, quota)?;
    put(
        sentences,
        b" places went to residents it ranked higher, the last of them ",
    )?;
    put_rank(sentences, field(answer, 2))
}

// Adds the sentence on an answer.
fn put_answer(sentences: &mut Vec<u8>, answer: &[&[u8]]) -> Result<(), AllocError>
    ensures { OnOk result (Grows sentences.old sentences.new (words.answer_text (fields_in
        answer.now))) }
{
    let answer_word = field(answer, 0);
    if is(answer_word, b"matched") {
        return put(sentences, b"you are matched there");
    }
    if is(answer_word, b"withdrawn") {
        return put(sentences, b"you or the programme is withdrawn");
    }
    if is(answer_word, b"unranked") {
        return put(sentences, b"it did not rank you");
    }
    if is(answer_word, b"better") {
        return put(sentences, b"you have a programme that you ranked higher");
    }
    put(sentences, b"it ranked you ")?;
    put_rank(sentences, field(answer, 1))?;
    put_places(sentences, answer)
}

// Adds the sentence on a choice of a resident, counted from 0.
fn put_reason(
    sentences: &mut Vec<u8>,
    contents: &ReceiptContents,
    choice: usize,
) -> Result<(), AllocError>
    ensures { OnOk result
        (Grows sentences.old sentences.new (words.reason_text (content contents.now) choice)) }
{
    put(sentences, field(contents.list, choice))?;
    put(sentences, b": ")?;
    put_answer(sentences, contents.answer(choice))?;
    put_stop(sentences)
}

// Adds the words that stand before the names on a member's list.
fn put_lists_words(sentences: &mut Vec<u8>, kind: Kind, quota: &[u8]) -> Result<(), AllocError>
    ensures { OnOk result (Grows sentences.old sentences.new (words.lists_words kind quota.now)) }
{
    match kind {
        Kind::Programme => {
            put(sentences, b": the sealed lists have your quota of ")?;
            put(sentences, quota)?;
            put(sentences, b", and your list: ")
        }
        Kind::Resident => put(sentences, b": the sealed lists have your list: "),
    }
}

// Adds the sentence on a withdrawal, if the member is withdrawn.
fn put_withdrawal(sentences: &mut Vec<u8>, withdrawn: bool) -> Result<(), AllocError>
    ensures { OnOk result (Grows sentences.old sentences.new (words.gone_words withdrawn)) }
{
    if withdrawn {
        put(sentences, b"You are withdrawn")?;
        return put_stop(sentences);
    }
    Ok(())
}

// Adds the sentences on the member's sealed list.
#[tactic(auto, unfolding(crate::specs::Told::told_lists))]
fn put_lists(sentences: &mut Vec<u8>, contents: &ReceiptContents) -> Result<(), AllocError>
    ensures { OnOk result (Grows sentences.old sentences.new (words.told_lists (content
        contents.now))) }
{
    put(sentences, contents.name)?;
    put_lists_words(sentences, contents.kind, contents.quota)?;
    put_names(sentences, contents.list)?;
    put_stop(sentences)?;
    put_withdrawal(sentences, contents.withdrawn)
}

// Adds where a resident is placed.
fn put_placement(sentences: &mut Vec<u8>, own_programme: Option<&[u8]>) -> Result<(), AllocError>
    ensures { OnOk result (Grows sentences.old sentences.new
        (words.own_words (option_map (λ own_programme. own_programme.now) own_programme.entry))) }
{
    match own_programme {
        Some(own_programme) => {
            put(sentences, b"The sealed result has you matched with ")?;
            put(sentences, own_programme)?;
        }
        None => put(sentences, b"The sealed result has you unmatched")?,
    }
    put_stop(sentences)
}

// Adds the sentences on all choices of a resident.
fn put_reasons(sentences: &mut Vec<u8>, contents: &ReceiptContents) -> Result<(), AllocError>
    ensures { OnOk result (Grows sentences.old sentences.new
        (flat_map (words.reason_text (content contents.now))
        (range_with_len 0 (length contents.now.list.now)))) }
{
    for k in 0..contents.list.len() {
        put_reason(sentences, contents, k)?;
    }
    Ok(())
}

// Adds the names of a programme's residents.
fn put_members(
    alloc: Global,
    sentences: &mut Vec<u8>,
    contents: &ReceiptContents,
) -> Result<(), AllocError>
    ensures { OnOk result (Grows sentences.old sentences.new
        (words.names_text (members (content contents.now)))) }
{
    let member_names = members_in(alloc, contents)?;
    put_names(sentences, member_names.as_slice())
}

// Adds the result of a member.
#[tactic(auto, unfolding(crate::specs::Told::told_result))]
fn put_result(
    alloc: Global,
    sentences: &mut Vec<u8>,
    contents: &ReceiptContents,
) -> Result<(), AllocError>
    ensures { OnOk result (Grows sentences.old sentences.new (words.told_result (content
        contents.now))) }
{
    match contents.kind {
        Kind::Programme => {
            put(sentences, b"The sealed result has ")?;
            put_number(sentences, contents.detail_rows.len())?;
            put(sentences, b" of your places filled: ")?;
            put_members(alloc, sentences, contents)?;
            put_stop(sentences)
        }
        Kind::Resident => {
            put_placement(sentences, contents.own_programme)?;
            put_reasons(sentences, contents)
        }
    }
}

// Adds the ID in brackets, if there is one.
fn put_id(sentences: &mut Vec<u8>, id: &[u8]) -> Result<(), AllocError>
    ensures { OnOk result (Grows sentences.old sentences.new (words.id_words id.now)) }
{
    if id.len() == 0 {
        return Ok(());
    }
    put(sentences, b" (")?;
    put(sentences, id)?;
    put(sentences, b")")
}

// Adds the sentence that says who the member with this name in the docket is.
fn put_real_name(
    sentences: &mut Vec<u8>,
    name: &[u8],
    name_record: &ByteRecord,
) -> Result<(), AllocError>
    ensures { OnOk result (Grows sentences.old sentences.new
        (words.real_words name.now (fields_of name_record.now))) }
{
    put(sentences, record_field(name_record, 1))?;
    put_id(sentences, record_field(name_record, 2))?;
    put(sentences, b" is ")?;
    put(sentences, name)?;
    put(sentences, b" in the lists.\n")
}

// Adds the sentence on the member's real name, if this was sealed.
#[tactic(auto, unfolding(crate::specs::Told::told_name))]
fn put_name_sentence(
    alloc: Global,
    sentences: &mut Vec<u8>,
    contents: &ReceiptContents,
) -> Result<(), AllocError>
    ensures { OnOk result (Grows sentences.old sentences.new (words.told_name (content
        contents.now))) }
{
    if !has_real_name(contents.name_pieces) {
        return Ok(());
    }
    let name_record = real_fields(alloc, contents.name_pieces)?;
    put_real_name(sentences, contents.name, &name_record)
}

/// What a receipt with this content shows, in words. The receipt has a result if a result's root
/// was published.
pub(crate) fn receipt_words(
    alloc: Global,
    result_root: Option<&[u8; 32]>,
    contents: &ReceiptContents,
) -> Result<Vec<u8>, AllocError>
    ensures { IfOk result (λ text. text.items
        ≡ words.told (option_map (λ root. root.now) result_root.entry) (content contents.now)) }
{
    let mut text = Vec::new(alloc);
    put_name_sentence(alloc, &mut text, contents)?;
    put_lists(&mut text, contents)?;
    if result_root.is_some() {
        put_result(alloc, &mut text, contents)?;
    }
    Ok(text)
}
