//! A receipt that is compared with others, and what is looked up in it.
ghost use Rattle.std.specs.Prelude.{◌≡◌, ◌<◌, ◌^◌, IfSome};
ghost use Rattle.docket_names.specs.Texts.{is_declared, number_in};
ghost use Rattle.receipt_check.specs.Pair as pair;
ghost use Rattle.receipt_check.specs.Receipt.{members};
ghost use Rattle.receipt_check.specs.Shown.{content, fields_in};
ghost use Rattle.receipt_check.specs.Side.{IsSide, receipt_of};

use crate::rows::{cell, is};
use crate::shown::ReceiptContents;
use docket_names::Texts;

/// A good receipt that is compared with others.
#[derive(Drop)]
pub(crate) struct ComparedReceipt<'r, 'a> {
    /// The content of the receipt.
    pub(crate) contents: ReceiptContents<'r, 'a>,
    /// The names on the member's list.
    pub(crate) list: Texts,
    /// For a programme, the last place on its list that one of its residents has.
    pub(crate) last_member_position: Option<usize>,
}

// The later of two places on a list; if only one is given, this one.
fn later(position: Option<usize>, other_position: Option<usize>) -> Option<usize>
    ensures { result ≡ pair.later position other_position }
{
    match (position, other_position) {
        (None, other_position) => other_position,
        (Some(position), None) => Some(position),
        (Some(position), Some(other_position)) => Some(if position < other_position {
            other_position
        } else {
            position
        }),
    }
}

// The place of a name on the member's list.
fn position_of(contents: &ReceiptContents, list: &Texts, name: &[u8]) -> Option<usize>
    requires { list.now ≡ fields_in contents.now.list.now }
    ensures place { result ≡ number_in (fields_in contents.now.list.now) name.now }
    ensures within { IfSome result (λ position. position < 2 ^ 63) }
{
    match list.find(name) {
        Some(position) if position < contents.list.len() => Some(position),
        _ => None,
    }
}

// The last place on the list that has one of the names in the rows after the result's first row.
fn last_position(contents: &ReceiptContents, list: &Texts) -> Option<usize>
    requires { list.now ≡ fields_in contents.now.list.now }
    ensures last { result ≡ pair.last_place (content contents.now) }
    ensures within { IfSome result (λ position. position < 2 ^ 63) }
{
    let mut last_member_position = None;
    for k in 0..contents.detail_rows.len() {
        last_member_position = later(
            last_member_position,
            position_of(contents, list, cell(contents.detail_rows, k, 1)),
        );
    }
    last_member_position
}

/// The receipt with this content and these names on its list.
pub(crate) fn compared_receipt<'r, 'a>(
    contents: ReceiptContents<'r, 'a>,
    list: Texts,
) -> ComparedReceipt<'r, 'a>
    requires { list ≡ fields_in contents.list.now }
    ensures shown { receipt_of result ≡ content contents.entry }
    ensures side { IsSide result }
{
    let last_member_position = last_position(&contents, &list);
    ComparedReceipt {
        contents,
        list,
        last_member_position,
    }
}

impl<'r, 'a> ComparedReceipt<'r, 'a> {
    /// The place of this name on the member's list.
    pub(crate) fn position(&self, name: &[u8]) -> Option<usize>
        requires { IsSide self.now }
        ensures place { result ≡ number_in (receipt_of self.now).list name.now }
        ensures within { IfSome result (λ position. position < 2 ^ 63) }
    {
        position_of(&self.contents, &self.list, name)
    }

    /// Whether the programme has the resident with this name.
    pub(crate) fn has(&self, name: &[u8]) -> bool
        ensures { result ≡ is_declared (members (receipt_of self.now)) name.now }
    {
        for k in 0..self.contents.detail_rows.len() {
            if is(name, cell(self.contents.detail_rows, k, 1)) {
                return true;
            }
        }
        false
    }
}
