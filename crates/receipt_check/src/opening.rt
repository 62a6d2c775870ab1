//! Numbers, digests and openings.
ghost use Rattle.std.specs.Prelude.{◌≡◌, List, ℕ, IfOk, Some, ◌<◌, ◌^◌, map, option_map};
ghost use Rattle.std.specs.Global.{Vec};
ghost use Rattle.std.specs.List.{list_all};
ghost use Rattle.receipt_check.specs.Faults as faults;
ghost use Rattle.receipt_check.specs.Shown.{content, fields_in};

use crate::print::{lists_text, result_text};
use crate::rows::field;
use crate::shown::ReceiptContents;
use crate::wrong::{Fault, Wrong, row_fault};
use docket_names::number_of;
use hex::FromHex;
use seal::{leaf_hash, opens};
use std::alloc::{AllocError, Global};

/// The number that these 1 to 9 digits write. None for any other text, and for digits with a
/// needless zero in front.
#[tactic(auto, unfolding(crate::specs::Faults::plain_number))]
pub(crate) fn plain_number(digits: &[u8]) -> Option<u32>
    ensures { result ≡ faults.plain_number digits.now }
{
    let number = number_of(digits)?;
    let mut number_buffer = itoa::Buffer::new();
    if digits == number_buffer.format(number).as_bytes() {
        return Some(number);
    }
    None
}

// Whether no byte is a capital letter.
fn has_small_bytes(digits: &[u8]) -> bool
    ensures { result ≡ list_all faults.is_small digits.now }
{
    digits.iter().all(|byte| *byte <= b'9' || b'a' <= *byte)
}

/// The 32 bytes that 64 hexadecimal digits without capital letters write.
#[tactic(auto, unfolding(crate::specs::Faults::digest_of))]
pub fn digest_of(digits: &[u8]) -> Option<[u8; 32]>
    ensures { result ≡ faults.digest_of digits.now }
{
    if !has_small_bytes(digits) {
        return None;
    }
    match <[u8; 32] as FromHex>::from_hex(digits) {
        Ok(digest) => Some(digest),
        Err(_) => None,
    }
}

// The digests that these fields write. None if one of the fields is no digest.
fn digests_of(alloc: Global, fields: &[&[u8]]) -> Result<Option<Vec<[u8; 32]>>, AllocError>
    ensures { IfOk result (λ digests. option_map (λ (ds : Vec (List ℕ)). ds.items) digests
        ≡ faults.digests_of (fields_in fields.now)) }
{
    let mut digests = Vec::new(alloc);
    for k in 0..fields.len() {
        match digest_of(field(fields, k)) {
            Some(digest) => digests.push(digest)?,
            None => return Ok(None),
        }
    }
    Ok(Some(digests))
}

// Why these fields, a salt and a path, don't open this root from the leaf with this text; none if
// they do.
#[tactic(auto, unfolding(crate::specs::Faults::opening_wrong))]
fn opening_defect(
    alloc: Global,
    root: &[u8; 32],
    member_count: u32,
    member_index: u32,
    opening: &[&[u8]],
    text: &[u8],
) -> Result<Option<Wrong>, AllocError>
    ensures { IfOk result (λ defect. defect
        ≡ faults.opening_wrong root.now member_count member_index
        (fields_in opening.now) text.now) }
{
    let Some(digests) = digests_of(alloc, opening)? else {
        return Ok(Some(Wrong::OpeningRow));
    };
    let Some((salt, path)) = digests.as_slice().split_first() else {
        return Ok(Some(Wrong::OpeningRow));
    };
    if opens(
        root,
        member_count as usize,
        member_index as usize,
        &leaf_hash(salt, text),
        path,
    ) {
        return Ok(None);
    }
    Ok(Some(Wrong::Opening))
}

// The fault of the row at this place, if something is wrong with the row.
fn fault_at(row_index: usize, defect: Option<Wrong>) -> Option<Fault>
    requires { row_index < 2 ^ 63 }
    ensures { result ≡ faults.fault_at row_index defect }
{
    match defect {
        Some(defect) => Some(row_fault(row_index, defect)),
        None => None,
    }
}

// The fault of the opening of the result's root. None if no such root was published.
fn result_opening_fault(
    alloc: Global,
    root: Option<&[u8; 32]>,
    member_count: u32,
    member_index: u32,
    contents: &ReceiptContents,
) -> Result<Option<Fault>, AllocError>
    ensures { IfOk result (λ fault. fault ≡ faults.second_fault
        (option_map (λ root. root.now) root.entry)
        member_count member_index (content contents.now)) }
{
    let Some(root) = root else {
        return Ok(None);
    };
    let text = result_text(alloc, contents)?;
    let defect = opening_defect(
        alloc,
        root,
        member_count,
        member_index,
        contents.result_opening,
        text.as_slice(),
    )?;
    Ok(fault_at(contents.lists_end() + 1, defect))
}

// The first fault of the openings of the member with number `member_index` among `member_count`
// members.
fn member_openings_fault(
    alloc: Global,
    lists_root: &[u8; 32],
    result_root: Option<&[u8; 32]>,
    member_count: u32,
    member_index: u32,
    contents: &ReceiptContents,
) -> Result<Option<Fault>, AllocError>
    ensures { IfOk result (λ fault. fault ≡ faults.openings_at lists_root.now
        (option_map (λ root. root.now) result_root.entry) (content contents.now)
        (Some member_count) (Some member_index)) }
{
    let text = lists_text(alloc, contents)?;
    let defect = opening_defect(
        alloc,
        lists_root,
        member_count,
        member_index,
        contents.lists_opening,
        text.as_slice(),
    )?;
    if let Some(defect) = defect {
        return Ok(Some(row_fault(2, defect)));
    }
    result_opening_fault(alloc, result_root, member_count, member_index, contents)
}

/// The first fault of a receipt's openings.
#[tactic(auto, unfolding(crate::specs::Faults::openings_fault))]
pub(crate) fn openings_fault(
    alloc: Global,
    lists_root: &[u8; 32],
    result_root: Option<&[u8; 32]>,
    contents: &ReceiptContents,
) -> Result<Option<Fault>, AllocError>
    ensures { IfOk result (λ fault. fault ≡ faults.openings_fault lists_root.now
        (option_map (λ root. root.now) result_root.entry) (content contents.now)) }
{
    let Some(member_count) = plain_number(contents.member_count) else {
        return Ok(Some(row_fault(1, Wrong::RootRow)));
    };
    let Some(member_index) = plain_number(contents.member_index) else {
        return Ok(Some(row_fault(2, Wrong::OpeningRow)));
    };
    member_openings_fault(
        alloc,
        lists_root,
        result_root,
        member_count,
        member_index,
        contents,
    )
}
