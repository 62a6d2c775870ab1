//! How rows are printed, and the receipt with some content.
ghost use Rattle.std.specs.Prelude.{◌≡◌, ◌∷◌, ◌++◌, [], ℕ, List, IfOk, OnOk, codes, decimal, length, ◌<◌, ◌+◌, ◌^◌, map, option_map};
ghost use Rattle.std.specs.List.{range_with_len};
ghost use Rattle.std.specs.Global.{Vec};
ghost use Rattle.hex.specs.Hex.{encode_lower};
ghost use Rattle.receipt_check.specs.Receipt as receipt;
ghost use Rattle.receipt_check.specs.Rows.{Grows, line, lines, more_fields};
ghost use Rattle.receipt_check.specs.Shown.{content, fields_in};

use crate::kind::Kind;
use crate::rows::{cell, field};
use crate::shown::{ReceiptContents, has_real_name};
use std::alloc::{AllocError, Global};

/// Adds bytes.
pub(crate) fn put(text: &mut Vec<u8>, bytes: &[u8]) -> Result<(), AllocError>
    ensures { OnOk result (Grows text.old text.new bytes.now) }
{
    text.extend_from_slice(bytes)
}

/// Adds a number in decimal.
pub(crate) fn put_number(text: &mut Vec<u8>, number: usize) -> Result<(), AllocError>
    ensures { OnOk result (Grows text.old text.new (decimal number)) }
{
    let mut number_buffer = itoa::Buffer::new();
    put(text, number_buffer.format(number).as_bytes())
}

// Adds fields after the first, each after a comma.
fn put_more_fields(rows_text: &mut Vec<u8>, fields: &[&[u8]]) -> Result<(), AllocError>
    ensures { OnOk result (Grows rows_text.old rows_text.new (more_fields (fields_in fields.now))) }
{
    for k in 0..fields.len() {
        put(rows_text, b",")?;
        put(rows_text, field(fields, k))?;
    }
    Ok(())
}

// Adds a row of these fields: the first one, those in `middle_fields`, and those in `last_fields`.
fn put_row(
    rows_text: &mut Vec<u8>,
    first_field: &[u8],
    middle_fields: &[&[u8]],
    last_fields: &[&[u8]],
) -> Result<(), AllocError>
    ensures { OnOk result (Grows rows_text.old rows_text.new
        (line (first_field.now ∷ (fields_in middle_fields.now ++ fields_in last_fields.now)))) }
{
    put(rows_text, first_field)?;
    put_more_fields(rows_text, middle_fields)?;
    put_more_fields(rows_text, last_fields)?;
    put(rows_text, b"\n")
}

// Adds the row that withdraws a member of the side with this letter.
fn put_withdrawal(rows_text: &mut Vec<u8>, letter: &[u8], name: &[u8]) -> Result<(), AllocError>
    ensures { OnOk result (Grows rows_text.old rows_text.new
        (line (codes "W" ∷ letter.now ∷ name.now ∷ []))) }
{
    put_row(rows_text, b"W", &[letter, name], &[])
}

// Adds the first row of a receipt of a member of the side with this letter.
fn put_header_row(rows_text: &mut Vec<u8>, letter: &[u8], name: &[u8]) -> Result<(), AllocError>
    ensures { OnOk result (Grows rows_text.old rows_text.new
        (line (codes "receipt" ∷ codes "2" ∷ letter.now ∷ name.now ∷ []))) }
{
    put_row(rows_text, b"receipt", &[b"2", letter, name], &[])
}

// Adds the `W` row, if the member is withdrawn.
fn put_withdrawal_if(rows_text: &mut Vec<u8>, contents: &ReceiptContents) -> Result<(), AllocError>
    ensures { OnOk result (Grows rows_text.old rows_text.new
        (lines (receipt.gone_rows (content contents.now)))) }
{
    if contents.withdrawn {
        return put_withdrawal(rows_text, contents.kind.letter(), contents.name);
    }
    Ok(())
}

/// Adds the `N` row, if there is a real name.
pub(crate) fn put_name(rows_text: &mut Vec<u8>, name_pieces: &[&[u8]]) -> Result<(), AllocError>
    ensures { OnOk result (Grows rows_text.old rows_text.new
        (lines (receipt.name_rows (fields_in name_pieces.now)))) }
{
    if has_real_name(name_pieces) {
        return put_row(rows_text, b"N", &[], name_pieces);
    }
    Ok(())
}

// Adds the rows after a member's list: the row of a withdrawal, and the row of a real name.
fn put_withdrawal_and_name(
    rows_text: &mut Vec<u8>,
    contents: &ReceiptContents,
) -> Result<(), AllocError>
    ensures { OnOk result (Grows rows_text.old rows_text.new
        (lines (receipt.last_rows (content contents.now)))) }
{
    put_withdrawal_if(rows_text, contents)?;
    put_name(rows_text, contents.name_pieces)
}

// Adds the row of a programme's list, if it has one.
fn put_list(rows_text: &mut Vec<u8>, contents: &ReceiptContents) -> Result<(), AllocError>
    ensures { OnOk result (Grows rows_text.old rows_text.new
        (lines (receipt.list_rows (content contents.now)))) }
{
    if contents.has_list {
        return put_row(rows_text, b"P", &[contents.name], contents.list);
    }
    Ok(())
}

// Adds the rows that were sealed for a member before the match.
fn put_lists(rows_text: &mut Vec<u8>, contents: &ReceiptContents) -> Result<(), AllocError>
    ensures { OnOk result (Grows rows_text.old rows_text.new
        (lines (receipt.lists_rows (content contents.now)))) }
{
    match contents.kind {
        Kind::Programme => {
            put_row(rows_text, b"Q", &[contents.name, contents.quota], &[])?;
            put_list(rows_text, contents)?;
        }
        Kind::Resident => put_row(rows_text, b"R", &[contents.name], contents.list)?,
    }
    put_withdrawal_and_name(rows_text, contents)
}

// Adds the row that says how many places of a programme are filled.
fn put_filled(rows_text: &mut Vec<u8>, contents: &ReceiptContents) -> Result<(), AllocError>
    ensures { OnOk result
        (Grows rows_text.old rows_text.new (line (receipt.filled_row (content contents.now)))) }
{
    let mut number_buffer = itoa::Buffer::new();
    let filled_digits = number_buffer.format(contents.detail_rows.len()).as_bytes();
    put_row(
        rows_text,
        b"F",
        &[contents.name, filled_digits, contents.quota],
        &[],
    )
}

// Adds the rows of a programme's residents.
fn put_members(rows_text: &mut Vec<u8>, contents: &ReceiptContents) -> Result<(), AllocError>
    ensures { OnOk result (Grows rows_text.old rows_text.new (lines
        (map (receipt.member_row contents.now.name.now)
        (receipt.members (content contents.now))))) }
{
    for k in 0..contents.detail_rows.len() {
        put_row(
            rows_text,
            b"M",
            &[cell(contents.detail_rows, k, 1), contents.name],
            &[],
        )?;
    }
    Ok(())
}

// Adds the row that says where a resident is placed.
fn put_placement_row(rows_text: &mut Vec<u8>, contents: &ReceiptContents) -> Result<(), AllocError>
    ensures { OnOk result (Grows rows_text.old rows_text.new (line (receipt.placed_row
        contents.now.name.now
        (option_map (λ own_programme. own_programme.now) contents.now.own_programme)))) }
{
    match contents.own_programme {
        Some(own_programme) => put_row(rows_text, b"M", &[contents.name, own_programme], &[]),
        None => put_row(rows_text, b"U", &[contents.name], &[]),
    }
}

// Adds the row of a resident's choice, which is counted from 0.
fn put_reason(
    rows_text: &mut Vec<u8>,
    contents: &ReceiptContents,
    choice: usize,
) -> Result<(), AllocError>
    requires { choice < 2 ^ 63 }
    ensures { OnOk result (Grows rows_text.old rows_text.new
        (line (receipt.reason_row (content contents.now) choice))) }
{
    let mut number_buffer = itoa::Buffer::new();
    let choice_digits = number_buffer.format(choice + 1).as_bytes();
    put_row(
        rows_text,
        contents.name,
        &[field(contents.list, choice), choice_digits],
        contents.answer(choice),
    )
}

// Adds the rows of a resident's choices.
fn put_reasons(rows_text: &mut Vec<u8>, contents: &ReceiptContents) -> Result<(), AllocError>
    ensures { OnOk result (Grows rows_text.old rows_text.new (lines
        (map (receipt.reason_row (content contents.now))
        (range_with_len 0 (length contents.now.list.now))))) }
{
    for k in 0..contents.list.len() {
        put_reason(rows_text, contents, k)?;
    }
    Ok(())
}

// Adds the rows that were sealed for a member after the match.
fn put_result(rows_text: &mut Vec<u8>, contents: &ReceiptContents) -> Result<(), AllocError>
    ensures { OnOk result
        (Grows rows_text.old rows_text.new (lines (receipt.result_rows (content contents.now)))) }
{
    match contents.kind {
        Kind::Programme => {
            put_filled(rows_text, contents)?;
            put_members(rows_text, contents)
        }
        Kind::Resident => {
            put_placement_row(rows_text, contents)?;
            put_reasons(rows_text, contents)
        }
    }
}

/// The text that was sealed for a member before the match.
#[tactic(auto, unfolding(crate::specs::Receipt::lists_text))]
pub(crate) fn lists_text(alloc: Global, contents: &ReceiptContents) -> Result<Vec<u8>, AllocError>
    ensures { IfOk result (λ text. text.items ≡ receipt.lists_text (content contents.now)) }
{
    let mut text = Vec::new(alloc);
    put_lists(&mut text, contents)?;
    Ok(text)
}

/// The text that was sealed for a member after the match.
#[tactic(auto, unfolding(crate::specs::Receipt::result_text))]
pub(crate) fn result_text(alloc: Global, contents: &ReceiptContents) -> Result<Vec<u8>, AllocError>
    ensures { IfOk result (λ text. text.items ≡ receipt.result_text (content contents.now)) }
{
    let mut text = Vec::new(alloc);
    put_result(&mut text, contents)?;
    Ok(text)
}

/// Adds the two rows of a tree that stand before the text of a leaf: the root's row and the
/// opening's row.
pub(crate) fn put_tree_part(
    alloc: Global,
    rows_text: &mut Vec<u8>,
    tree_word: &[u8],
    root: &[u8; 32],
    member_count: &[u8],
    member_index: &[u8],
    opening: &[&[u8]],
) -> Result<(), AllocError>
    ensures { OnOk result (Grows rows_text.old rows_text.new (lines
        (receipt.part_rows tree_word.now root.now member_count.now member_index.now
        (fields_in opening.now)))) }
{
    let root_digits = hex::encode(alloc, *root)?;
    put_row(
        rows_text,
        tree_word,
        &[member_count, root_digits.as_bytes()],
        &[],
    )?;
    put_row(rows_text, b"opens", &[tree_word, member_index], opening)
}

// Adds the part of a receipt about the result, if a result's root was published.
fn put_result_part(
    alloc: Global,
    rows_text: &mut Vec<u8>,
    root: Option<&[u8; 32]>,
    contents: &ReceiptContents,
) -> Result<(), AllocError>
    ensures { OnOk result (Grows rows_text.old rows_text.new
        (receipt.result_part (option_map (λ root. root.now) root.entry) (content contents.now))) }
{
    let Some(root) = root else {
        return Ok(());
    };
    put_tree_part(
        alloc,
        rows_text,
        b"result",
        root,
        contents.member_count,
        contents.member_index,
        contents.result_opening,
    )?;
    let result_rows = result_text(alloc, contents)?;
    put(rows_text, result_rows.as_slice())
}

/// The text of a receipt with this content under these published roots.
#[tactic(auto, unfolding(crate::specs::Receipt::receipt_text))]
pub(crate) fn receipt_text(
    alloc: Global,
    lists_root: &[u8; 32],
    result_root: Option<&[u8; 32]>,
    contents: &ReceiptContents,
) -> Result<Vec<u8>, AllocError>
    ensures { IfOk result (λ text. text.items ≡ receipt.receipt_text lists_root.now
        (option_map (λ root. root.now) result_root.entry) (content contents.now)) }
{
    let mut text = Vec::new(alloc);
    put_header_row(&mut text, contents.kind.letter(), contents.name)?;
    put_tree_part(
        alloc,
        &mut text,
        b"lists",
        lists_root,
        contents.member_count,
        contents.member_index,
        contents.lists_opening,
    )?;
    let lists_rows = lists_text(alloc, contents)?;
    put(&mut text, lists_rows.as_slice())?;
    put_result_part(alloc, &mut text, result_root, contents)?;
    Ok(text)
}
