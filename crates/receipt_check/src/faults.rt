//! The faults of a receipt's content.
ghost use Rattle.std.specs.Prelude.{◌≡◌, ◌<◌, ◌^◌, ◌+◌, ℕ, Some, None, true, IfOk, MatchResult, Option, length, option_map};
ghost use Rattle.docket_names.specs.Words as words;
ghost use Rattle.receipt_check.specs.Faults as faults;
ghost use Rattle.receipt_check.specs.Receipt.{members};
ghost use Rattle.receipt_check.specs.Shown.{content, fields_in};

use crate::kind::Kind;
use crate::named::is_real;
use crate::names::names_in;
use crate::opening::{openings_fault, plain_number};
use crate::reasons::wrong_reason;
use crate::rows::cell;
use crate::shown::{ReceiptContents, has_real_name, list_row, real_name_row};
use crate::wrong::{Fault, Wrong, row_fault};
use docket_names::{Texts, is_name};
use std::alloc::{AllocError, Global};
use std::hash::RandomState;

// The place in the receipt of this row of the result's text, counted from 0.
fn result_row(contents: &ReceiptContents, row: usize) -> usize
    requires { row < 2 ^ 63 }
    ensures { result ≡ faults.result_place (content contents.now) row }
{
    contents.lists_end() + 2 + row
}

// The first fault of a resident's answers. `own_choice` is the choice that is the resident's own
// programme.
fn reasons_fault(contents: &ReceiptContents, own_choice: Option<usize>) -> Option<Fault>
    ensures { result ≡ faults.reasons_fault (content contents.now) own_choice }
{
    match wrong_reason(contents, own_choice) {
        Some((choice, defect)) => Some(row_fault(result_row(contents, choice + 1), defect)),
        None => None,
    }
}

// The first fault of the result of a resident with this list.
fn resident_fault(contents: &ReceiptContents, list: &Texts) -> Option<Fault>
    requires { list.now ≡ fields_in contents.now.list.now }
    ensures { result ≡ faults.resident_fault (content contents.now)
        (option_map (λ own_programme. own_programme.now) contents.now.own_programme) }
{
    let Some(own_programme) = contents.own_programme else {
        return reasons_fault(contents, None);
    };
    if contents.withdrawn {
        return Some(row_fault(result_row(contents, 0), Wrong::Gone));
    }
    match list.find(own_programme) {
        None => Some(row_fault(result_row(contents, 0), Wrong::NotListed)),
        Some(position) => reasons_fault(contents, Some(position)),
    }
}

/// The residents of a programme.
pub(crate) fn members_in<'r, 'a>(
    alloc: Global,
    contents: &ReceiptContents<'r, 'a>,
) -> Result<Vec<&'a [u8]>, AllocError>
    ensures { IfOk result (λ member_names.
        fields_in member_names.items ≡ members (content contents.now)) }
{
    let mut member_names = Vec::new(alloc);
    for k in 0..contents.detail_rows.len() {
        member_names.push(cell(contents.detail_rows, k, 1))?;
    }
    Ok(member_names)
}

// The first fault among the residents of a programme with this list.
fn members_fault(
    alloc: Global,
    hash_keys: RandomState,
    contents: &ReceiptContents,
    list: &Texts,
) -> Result<Option<Fault>, AllocError>
    requires { list.now ≡ fields_in contents.now.list.now }
    ensures { IfOk result (λ fault. fault ≡ faults.members_fault (content contents.now)) }
{
    let member_names = members_in(alloc, contents)?;
    match names_in(alloc, hash_keys, Some(list), member_names.as_slice())? {
        Ok(_) => Ok(None),
        Err((member, defect)) => Ok(Some(row_fault(result_row(contents, member + 1), defect))),
    }
}

// The first fault of the result of a programme with this list.
fn programme_fault(
    alloc: Global,
    hash_keys: RandomState,
    contents: &ReceiptContents,
    list: &Texts,
) -> Result<Option<Fault>, AllocError>
    requires { list.now ≡ fields_in contents.now.list.now }
    ensures { IfOk result (λ fault. fault ≡ faults.programme_fault (content contents.now)
        (faults.plain_number contents.now.quota.now)) }
{
    let Some(quota) = plain_number(contents.quota) else {
        return Ok(Some(row_fault(3, Wrong::Numbers)));
    };
    if (quota as usize) < contents.detail_rows.len() {
        return Ok(Some(row_fault(result_row(contents, 0), Wrong::Numbers)));
    }
    if contents.withdrawn && contents.detail_rows.len() > 0 {
        return Ok(Some(row_fault(result_row(contents, 0), Wrong::Gone)));
    }
    members_fault(alloc, hash_keys, contents, list)
}

// The first fault of the result of a member with this list.
fn result_fault(
    alloc: Global,
    hash_keys: RandomState,
    contents: &ReceiptContents,
    list: &Texts,
) -> Result<Option<Fault>, AllocError>
    requires { list.now ≡ fields_in contents.now.list.now }
    ensures { IfOk result (λ fault. fault
        ≡ faults.result_fault_of contents.now.kind (content contents.now)) }
{
    match contents.kind {
        Kind::Programme => programme_fault(alloc, hash_keys, contents, list),
        Kind::Resident => Ok(resident_fault(contents, list)),
    }
}

// The fault of the real name's row, if there is such a row.
fn real_name_fault(alloc: Global, contents: &ReceiptContents) -> Result<Option<Fault>, AllocError>
    ensures { IfOk result (λ fault. fault ≡ faults.real_fault (content contents.now)) }
{
    if !has_real_name(contents.name_pieces) || is_real(alloc, contents.name_pieces)? {
        return Ok(None);
    }
    let row_index = real_name_row(contents.has_list, contents.withdrawn);
    Ok(Some(row_fault(row_index, Wrong::RealName)))
}

// The names on a member's list, or the first fault of the member's name, quota, list and real name.
fn lists_in(
    alloc: Global,
    hash_keys: RandomState,
    contents: &ReceiptContents,
) -> Result<Result<Texts, Fault>, AllocError>
    ensures { IfOk result (λ check_result. MatchResult check_result
        (λ list. (list ≡ fields_in contents.now.list.now)
        × (faults.lists_fault (content contents.now) ≡ None)
        × (words.is_name contents.now.name.now ≡ true))
        (λ fault. faults.lists_fault (content contents.now) ≡ Some fault)) }
{
    if !is_name(contents.name) {
        return Ok(Err(row_fault(0, Wrong::Name)));
    }
    if contents.kind.is_programme() && plain_number(contents.quota).is_none() {
        return Ok(Err(row_fault(3, Wrong::Numbers)));
    }
    let list = match names_in(alloc, hash_keys, None, contents.list)? {
        Ok(list) => list,
        Err((_, defect)) => return Ok(Err(row_fault(list_row(contents.has_list), defect))),
    };
    match real_name_fault(alloc, contents)? {
        Some(fault) => Ok(Err(fault)),
        None => Ok(Ok(list)),
    }
}

/// The names on the list of a receipt with this content, or the first fault of the content.
#[tactic(auto, unfolding(crate::specs::Faults::value_fault))]
pub(crate) fn checked_list(
    alloc: Global,
    hash_keys: RandomState,
    lists_root: &[u8; 32],
    result_root: Option<&[u8; 32]>,
    contents: &ReceiptContents,
) -> Result<Result<Texts, Fault>, AllocError>
    ensures { IfOk result (λ check_result. MatchResult check_result
        (λ list. (list ≡ fields_in contents.now.list.now) × (faults.value_fault lists_root.now
        (option_map (λ root. root.now) result_root.entry) (content contents.now) ≡ None)
        × (words.is_name contents.now.name.now ≡ true))
        (λ fault. faults.value_fault lists_root.now
        (option_map (λ root. root.now) result_root.entry) (content contents.now) ≡ Some fault)) }
{
    if let Some(fault) = openings_fault(alloc, lists_root, result_root, contents)? {
        return Ok(Err(fault));
    }
    let list = match lists_in(alloc, hash_keys, contents)? {
        Ok(list) => list,
        Err(fault) => return Ok(Err(fault)),
    };
    if result_root.is_some() {
        if let Some(fault) = result_fault(alloc, hash_keys, contents, &list)? {
            return Ok(Err(fault));
        }
    }
    Ok(Ok(list))
}
