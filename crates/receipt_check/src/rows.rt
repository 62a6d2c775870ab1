//! The text of a receipt, and its rows.
ghost use Rattle.std.specs.Prelude.{◌≡◌, ◌+◌, ◌<◌, ◌^◌, List, ℕ, IfOk, OnOk, bytes_eq, drop, length, map};
ghost use Rattle.receipt_check.specs.Rows as form;
ghost use Rattle.receipt_check.specs.Rows.{Grows};
ghost use Rattle.receipt_check.specs.Shown.{fields_in, rows_in};

use std::alloc::{AllocError, Global};

// The bytes without a byte order mark before them.
fn without_mark(bytes: &[u8]) -> &[u8]
    ensures { result.now ≡ form.without_mark bytes.now }
{
    match bytes.strip_prefix(&[239u8, 187, 191][..]) {
        Some(unmarked) => unmarked,
        None => bytes,
    }
}

// The byte at a place.
fn byte_at(bytes: &[u8], i: usize) -> u8
    ensures { result ≡ form.byte_at bytes.now i }
{
    match bytes.get(i) {
        Some(byte) => *byte,
        None => 0,
    }
}

// Whether the byte at this place is a carriage return that stands before a line feed.
fn is_return(bytes: &[u8], i: usize) -> bool
    requires { i < 2 ^ 63 }
    ensures { result ≡ form.is_return (form.byte_at bytes.now i) (drop (i + 1) bytes.now) }
{
    byte_at(bytes, i) == b'\r' && byte_at(bytes, i + 1) == b'\n'
}

// Keeps the byte at this place, unless it is a carriage return that stands before a line feed.
fn push_unless_return(text: &mut Vec<u8>, bytes: &[u8], i: usize) -> Result<(), AllocError>
    requires { i < 2 ^ 63 }
    ensures { OnOk result (Grows text.old text.new
        (form.kept (form.byte_at bytes.now i) (drop (i + 1) bytes.now))) }
{
    if is_return(bytes, i) {
        return Ok(());
    }
    text.push(byte_at(bytes, i))?;
    Ok(())
}

// The bytes without each carriage return that stands before a line feed.
fn without_returns(alloc: Global, bytes: &[u8]) -> Result<Vec<u8>, AllocError>
    ensures { IfOk result (λ text. text.items ≡ form.without_returns bytes.now) }
{
    let mut text = Vec::new(alloc);
    for i in 0..bytes.len() {
        push_unless_return(&mut text, bytes, i)?;
    }
    Ok(text)
}

/// The text of a receipt as it was printed, from the bytes of a file.
#[tactic(auto, unfolding(crate::specs::Rows::plain_text))]
pub(crate) fn plain_text(alloc: Global, bytes: &[u8]) -> Result<Vec<u8>, AllocError>
    ensures { IfOk result (λ text. text.items ≡ form.plain_text bytes.now) }
{
    without_returns(alloc, without_mark(bytes))
}

// The pieces of a text between the bytes that are equal to `separator`.
fn pieces<'a>(alloc: Global, text: &'a [u8], separator: u8) -> Result<Vec<&'a [u8]>, AllocError>
    ensures { IfOk result (λ text_pieces.
        fields_in text_pieces.items ≡ form.pieces separator text.now) }
{
    text.split(|byte| *byte == separator).collect(alloc)
}

/// The rows of a text.
pub(crate) fn split_rows<'a>(
    alloc: Global,
    text: &'a [u8],
) -> Result<Vec<Vec<&'a [u8]>>, AllocError>
    ensures { IfOk result (λ rows. rows_in rows.items ≡ form.split_rows text.now) }
{
    let lines = pieces(alloc, text, b'\n')?;
    let mut rows = Vec::new(alloc);
    for k in 0..lines.len().saturating_sub(1) {
        rows.push(pieces(alloc, field(lines.as_slice(), k), b',')?)?;
    }
    Ok(rows)
}

// The fields from field `start` on.
fn tail<'r, 'a>(fields: &'r [&'a [u8]], start: usize) -> &'r [&'a [u8]]
    ensures { result.now ≡ drop start fields.now }
{
    if start < fields.len() {
        &fields[start..]
    } else {
        &fields[fields.len()..]
    }
}

/// The fields of row `row_number`, from field `start` on.
pub(crate) fn fields_from<'r, 'a>(
    rows: &'r [Vec<&'a [u8]>],
    row_number: usize,
    start: usize,
) -> &'r [&'a [u8]]
    ensures { fields_in result.now ≡ drop start (form.row_at (rows_in rows.now) row_number) }
{
    if row_number >= rows.len() {
        return &[];
    }
    tail(rows[row_number].as_slice(), start)
}

/// Field `i` of these fields, or an empty field if it is missing.
pub(crate) fn field<'a>(fields: &[&'a [u8]], i: usize) -> &'a [u8]
    ensures { result.now ≡ form.text_at (fields_in fields.now) i }
{
    match fields.get(i) {
        Some(field) => *field,
        None => &[],
    }
}

/// Field `column` of row `row_number`, or an empty field if it is missing.
pub(crate) fn cell<'a>(rows: &[Vec<&'a [u8]>], row_number: usize, column: usize) -> &'a [u8]
    ensures { result.now ≡ form.cell (rows_in rows.now) row_number column }
{
    field(fields_from(rows, row_number, 0), column)
}

/// Whether the bytes are this text.
pub(crate) fn is(bytes: &[u8], text: &[u8]) -> bool
    ensures { result ≡ bytes_eq bytes.now text.now }
{
    bytes == text
}
