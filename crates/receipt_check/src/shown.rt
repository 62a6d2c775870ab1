//! The content of a receipt, as it is read from the receipt's rows.
ghost use Rattle.std.specs.Prelude.{◌≡◌, ◌<◌, ◌+◌, ◌^◌, List, ℕ, drop, map, option_map};
ghost use Rattle.receipt_check.specs.Receipt as receipt;
ghost use Rattle.receipt_check.specs.Shown.{content, fields_in, rows_in};

use crate::kind::Kind;
use crate::rows::{cell, field, fields_from, is};

/// The content of a receipt. Numbers and digests are as they are written. The last three fields are of
/// the result.
#[derive(Clone, Copy)]
pub(crate) struct ReceiptContents<'r, 'a> {
    /// The member's side.
    pub(crate) kind: Kind,
    /// The member's name.
    pub(crate) name: &'a [u8],
    /// How many members there are, in digits.
    pub(crate) member_count: &'a [u8],
    /// The member's number from 0, in digits.
    pub(crate) member_index: &'a [u8],
    /// The salt and the path that open the root of the lists.
    pub(crate) lists_opening: &'r [&'a [u8]],
    /// The quota of a programme.
    pub(crate) quota: &'a [u8],
    /// Whether a programme has a row for its list.
    pub(crate) has_list: bool,
    /// The names on the member's list.
    pub(crate) list: &'r [&'a [u8]],
    /// Whether the member is withdrawn.
    pub(crate) withdrawn: bool,
    /// The row of the real name after its `N`, in pieces at its commas; nothing without such a row.
    pub(crate) name_pieces: &'r [&'a [u8]],
    /// The salt and the path that open the root of the result.
    pub(crate) result_opening: &'r [&'a [u8]],
    /// The programme of a resident, if there is one.
    pub(crate) own_programme: Option<&'a [u8]>,
    /// The rows after the result's first row: a programme's residents, or the answers to a resident.
    pub(crate) detail_rows: &'r [Vec<&'a [u8]>],
}

// The side of the member whose receipt has these rows.
fn kind_in(rows: &[Vec<&[u8]>]) -> Kind
    ensures { result ≡ receipt.kind_in (rows_in rows.now) }
{
    if is(cell(rows, 0, 2), b"P") {
        Kind::Programme
    } else {
        Kind::Resident
    }
}

// Whether a programme has a row for its list.
fn has_list_in(rows: &[Vec<&[u8]>]) -> bool
    ensures { result ≡ receipt.has_list_in (rows_in rows.now) }
{
    kind_in(rows).is_programme() && is(cell(rows, 4, 0), b"P")
}

/// The place of the row with the member's list. For a programme without a list it is the place of
/// the quota's row.
pub(crate) fn list_row(has_list: bool) -> usize
    ensures { result ≡ receipt.list_place has_list }
{
    if has_list { 4 } else { 3 }
}

/// The place of the row after the member's list and its withdrawal, where the row of a real name
/// stands.
pub(crate) fn real_name_row(has_list: bool, withdrawn: bool) -> usize
    ensures { result ≡ receipt.named_place has_list withdrawn }
{
    list_row(has_list) + if withdrawn { 2 } else { 1 }
}

/// Whether there is a row of the real name.
pub(crate) fn has_real_name(name_pieces: &[&[u8]]) -> bool
    ensures { result ≡ receipt.has_real_name (fields_in name_pieces.now) }
{
    match name_pieces.split_first() {
        Some(_) => true,
        None => false,
    }
}

/// The place of the row after the member's rows of the lists.
pub(crate) fn lists_end_row(has_list: bool, withdrawn: bool, name_pieces: &[&[u8]]) -> usize
    ensures { result ≡ receipt.end_place has_list withdrawn (fields_in name_pieces.now) }
{
    real_name_row(has_list, withdrawn) + if has_real_name(name_pieces) { 1 } else { 0 }
}

// The list of the member.
fn list_in<'r, 'a>(rows: &'r [Vec<&'a [u8]>]) -> &'r [&'a [u8]]
    ensures { fields_in result.now ≡ receipt.list_in (rows_in rows.now) }
{
    let has_list = has_list_in(rows);
    if kind_in(rows).is_programme() && !has_list {
        return &[];
    }
    fields_from(rows, list_row(has_list), 2)
}

// Whether the member is withdrawn.
fn withdrawn_in(rows: &[Vec<&[u8]>]) -> bool
    ensures { result ≡ receipt.gone_in (rows_in rows.now) }
{
    is(cell(rows, list_row(has_list_in(rows)) + 1, 0), b"W")
}

// The row of the real name after its `N`, if there is one.
fn name_pieces_in<'r, 'a>(rows: &'r [Vec<&'a [u8]>]) -> &'r [&'a [u8]]
    ensures { fields_in result.now ≡ receipt.named_in (rows_in rows.now) }
{
    let row_number = real_name_row(has_list_in(rows), withdrawn_in(rows));
    if is(cell(rows, row_number, 0), b"N") {
        return fields_from(rows, row_number, 1);
    }
    &[]
}

// The programme of a resident, if the row says that there is one.
fn own_programme_in<'a>(row: &[&'a [u8]]) -> Option<&'a [u8]>
    ensures { option_map (λ own_programme. own_programme.now) result
        ≡ receipt.own_in (fields_in row.now) }
{
    if is(field(row, 0), b"M") {
        Some(field(row, 2))
    } else {
        None
    }
}

// The rows from row `start` on.
fn rows_from<'r, 'a>(rows: &'r [Vec<&'a [u8]>], start: usize) -> &'r [Vec<&'a [u8]>]
    ensures { rows_in result.now ≡ drop start (rows_in rows.now) }
{
    if start < rows.len() {
        &rows[start..]
    } else {
        &[]
    }
}

/// The content of the receipt with these rows.
#[tactic(auto, unfolding(crate::specs::Receipt::read))]
pub(crate) fn read_contents<'r, 'a>(rows: &'r [Vec<&'a [u8]>]) -> ReceiptContents<'r, 'a>
    ensures { content result ≡ receipt.read (rows_in rows.now) }
{
    let has_list = has_list_in(rows);
    let withdrawn = withdrawn_in(rows);
    let name_pieces = name_pieces_in(rows);
    let lists_end = lists_end_row(has_list, withdrawn, name_pieces);
    ReceiptContents {
        kind: kind_in(rows),
        name: cell(rows, 0, 3),
        member_count: cell(rows, 1, 1),
        member_index: cell(rows, 2, 2),
        lists_opening: fields_from(rows, 2, 3),
        quota: cell(rows, 3, 2),
        has_list,
        list: list_in(rows),
        withdrawn,
        name_pieces,
        result_opening: fields_from(rows, lists_end + 1, 3),
        own_programme: own_programme_in(fields_from(rows, lists_end + 2, 0)),
        detail_rows: rows_from(rows, lists_end + 3),
    }
}

impl<'r, 'a> ReceiptContents<'r, 'a> {
    /// The place of the row after the member's rows of the lists.
    pub(crate) fn lists_end(&self) -> usize
        ensures { result ≡ receipt.end_of (content self.now) }
    {
        lists_end_row(self.has_list, self.withdrawn, self.name_pieces)
    }

    /// The answer to a resident's choice, from 0: a word and three numbers.
    pub(crate) fn answer(&self, choice: usize) -> &'r [&'a [u8]]
        ensures { fields_in result.now ≡ receipt.answer (content self.now) choice }
    {
        fields_from(self.detail_rows, choice, 3)
    }
}
