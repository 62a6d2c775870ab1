//! The first row that differs from the printed receipt with the same content.
ghost use Rattle.std.specs.Prelude.{◌≡◌, ◌<◌, ◌^◌, IfOk, IfSome, length, option_map};
ghost use Rattle.receipt_check.specs.Shape as shape;
ghost use Rattle.receipt_check.specs.Shown.{content, fields_in, rows_in};

use crate::print::receipt_text;
use crate::rows::{cell, field, fields_from, is};
use crate::shown::ReceiptContents;
use crate::wrong::{Fault, Wrong, row_fault};
use std::alloc::{AllocError, Global};

// 1 if the byte is a line feed, else 0.
fn line_feeds(byte: u8) -> usize
    ensures { result ≡ shape.feeds byte }
{
    if byte == b'\n' { 1 } else { 0 }
}

// The first row, counted from 0, in which two texts differ, if they do.
fn first_unlike(text: &[u8], other_text: &[u8]) -> Option<usize>
    ensures row { result ≡ shape.first_unlike text.now other_text.now }
    ensures within { IfSome result (λ row_number. row_number < 2 ^ 63) }
{
    let mut row = 0;
    for i in 0..text.len() {
        if i >= other_text.len() {
            return Some(row);
        }
        if text[i] != other_text[i] {
            return Some(row);
        }
        row += line_feeds(text[i]);
    }
    if other_text.len() > text.len() {
        return Some(row);
    }
    None
}

// What is wrong with the first row.
fn header_defect(rows: &[Vec<&[u8]>]) -> Wrong
    ensures { result ≡ shape.header_wrong (rows_in rows.now) }
{
    if is(cell(rows, 0, 0), b"receipt") && is(cell(rows, 0, 1), b"1") {
        Wrong::Age
    } else {
        Wrong::Header
    }
}

// What is wrong with the row of a root.
fn root_defect(
    alloc: Global,
    root: &[u8; 32],
    member_count: &[u8],
    fields: &[&[u8]],
) -> Result<Wrong, AllocError>
    ensures { IfOk result (λ defect. defect
        ≡ shape.root_wrong root.now member_count.now (fields_in fields.now)) }
{
    if field(fields, 2).len() != 64 {
        return Ok(Wrong::RootRow);
    }
    let root_digits = hex::encode(alloc, *root)?;
    if field(fields, 2) != root_digits.as_bytes() {
        return Ok(Wrong::Root);
    }
    if field(fields, 1) == member_count {
        return Ok(Wrong::RootRow);
    }
    Ok(Wrong::Count)
}

// What is wrong with a row of the result.
fn result_defect(
    alloc: Global,
    root: &[u8; 32],
    contents: &ReceiptContents,
    rows: &[Vec<&[u8]>],
    row_number: usize,
) -> Result<Wrong, AllocError>
    ensures { IfOk result (λ defect. defect
        ≡ shape.result_wrong root.now (content contents.now) (rows_in rows.now) row_number) }
{
    let result_start = contents.lists_end();
    if row_number == result_start {
        if is(cell(rows, row_number, 0), b"result") {
            return root_defect(
                alloc,
                root,
                contents.member_count,
                fields_from(rows, row_number, 0),
            );
        }
        return Ok(Wrong::List);
    }
    if row_number == result_start + 1 {
        if cell(rows, row_number, 2) == contents.member_index {
            return Ok(Wrong::OpeningRow);
        }
        return Ok(Wrong::Place);
    }
    Ok(Wrong::Result)
}

// What is wrong with a row after the rows of the lists.
fn later_row_defect(
    alloc: Global,
    root: Option<&[u8; 32]>,
    contents: &ReceiptContents,
    rows: &[Vec<&[u8]>],
    row_number: usize,
) -> Result<Wrong, AllocError>
    ensures { IfOk result (λ defect. defect ≡ shape.later_wrong
        (option_map (λ root. root.now) root.entry)
        (content contents.now) (rows_in rows.now) row_number) }
{
    match root {
        Some(root) => result_defect(alloc, root, contents, rows, row_number),
        None => {
            if is(cell(rows, row_number, 0), b"result") {
                return Ok(Wrong::Unasked);
            }
            Ok(Wrong::List)
        }
    }
}

// What is wrong with the first row that differs from the printed receipt with this content.
#[tactic(auto, unfolding(crate::specs::Shape::shape_wrong))]
fn row_defect(
    alloc: Global,
    lists_root: &[u8; 32],
    result_root: Option<&[u8; 32]>,
    contents: &ReceiptContents,
    rows: &[Vec<&[u8]>],
    row_number: usize,
) -> Result<Wrong, AllocError>
    ensures { IfOk result (λ defect. defect ≡ shape.shape_wrong lists_root.now
        (option_map (λ root. root.now) result_root.entry)
        (content contents.now) (rows_in rows.now) row_number) }
{
    if rows.len() <= row_number {
        return Ok(Wrong::Missing);
    }
    if row_number == 0 {
        return Ok(header_defect(rows));
    }
    if row_number == 1 {
        return root_defect(
            alloc,
            lists_root,
            contents.member_count,
            fields_from(rows, 1, 0),
        );
    }
    if row_number == 2 {
        return Ok(Wrong::OpeningRow);
    }
    if row_number < contents.lists_end() {
        return Ok(Wrong::List);
    }
    later_row_defect(alloc, result_root, contents, rows, row_number)
}

/// The fault of the first row of a text that differs from the printed receipt with this content.
#[tactic(auto, unfolding(crate::specs::Shape::shape_fault))]
pub(crate) fn shape_fault(
    alloc: Global,
    lists_root: &[u8; 32],
    result_root: Option<&[u8; 32]>,
    contents: &ReceiptContents,
    rows: &[Vec<&[u8]>],
    text: &[u8],
) -> Result<Option<Fault>, AllocError>
    ensures { IfOk result (λ fault. fault ≡ shape.shape_fault lists_root.now
        (option_map (λ root. root.now) result_root.entry) (content contents.now)
        (rows_in rows.now) text.now) }
{
    let printed_text = receipt_text(alloc, lists_root, result_root, contents)?;
    let Some(row_number) = first_unlike(text, printed_text.as_slice()) else {
        return Ok(None);
    };
    let defect = row_defect(alloc, lists_root, result_root, contents, rows, row_number)?;
    Ok(Some(row_fault(row_number, defect)))
}
