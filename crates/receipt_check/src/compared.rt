//! Comparing the receipts of a resident and a programme.
ghost use Rattle.std.specs.Prelude.{◌≡◌, ◌≢◌, ℕ, None, Some, List, IfErr, IfOk, MatchResult, OnOk, is_some, not, true};
ghost use Rattle.std.specs.Io.KnownBytes.{Appends};
ghost use Rattle.docket_names.specs.Words as words;
ghost use Rattle.receipt_check.specs.Compared.{IsCompareFault, pair_fault};
ghost use Rattle.receipt_check.specs.Pair as pair;
ghost use Rattle.receipt_check.specs.Pair.{content_of};
ghost use Rattle.receipt_check.specs.Rows as form;
ghost use Rattle.receipt_check.specs.Shown.{content, rows_in};
ghost use Rattle.receipt_check.specs.Side.{IsSide, receipt_of};

use crate::check::{LONGEST_RECEIPT, checked_contents};
use crate::difference::{first_difference, is_number};
use crate::kind::Kind;
use crate::pair_words::put_pair;
use crate::published::Published;
use crate::rows::{plain_text, split_rows};
use crate::shown::ReceiptContents;
use crate::side::{ComparedReceipt, compared_receipt};
use crate::wrong::{CompareFault, Fault, Wrong, row_fault};
use std::alloc::{AllocError, Global};
use std::hash::RandomState;
use std::io::Write;
use std::random::RandomSource;

/// The text of a receipt as it was printed; an empty text if the file is longer than any receipt.
pub(crate) fn short_text(alloc: Global, file: &[u8]) -> Result<Vec<u8>, AllocError>
    ensures { IfOk result (λ text. text.items ≡ pair.short_text file.now) }
{
    if file.len() > LONGEST_RECEIPT {
        return Ok(Vec::new(alloc));
    }
    plain_text(alloc, file)
}

// The fault of a receipt whose number of members isn't the published number.
fn members_fault(
    published_lists: &Published,
    published_result: &Published,
    contents: &ReceiptContents,
) -> Option<Fault>
    ensures { result
        ≡ pair.members_fault published_lists.now.members published_result.now.members (content
        contents.now) }
{
    if !is_number(contents.member_count, published_lists.members as usize) {
        return Some(row_fault(1, Wrong::Members));
    }
    if !is_number(contents.member_count, published_result.members as usize) {
        return Some(row_fault(contents.lists_end(), Wrong::Members));
    }
    None
}

/// The receipt in the rows of a file's text, or its first fault.
#[tactic(auto, unfolding(crate::specs::Pair::compared_fault))]
pub(crate) fn checked_receipt<'r, 'a>(
    alloc: Global,
    hash_keys: RandomState,
    published_lists: &Published,
    published_result: &Published,
    file: &[u8],
    text: &[u8],
    rows: &'r [Vec<&'a [u8]>],
) -> Result<Result<ComparedReceipt<'r, 'a>, Fault>, AllocError>
    requires text { text.now ≡ pair.short_text file.now }
    requires rows { rows_in rows.now ≡ form.split_rows text.now }
    ensures { IfOk result (λ check_result. MatchResult check_result
        (λ receipt. (pair.compared_fault published_lists.now.members published_lists.now.root
        published_result.now.members
        published_result.now.root file.now ≡ None) × (receipt_of receipt ≡ content_of file.now)
        × IsSide receipt × (words.is_name (content_of file.now).name ≡ true))
        (λ fault. pair.compared_fault published_lists.now.members published_lists.now.root
        published_result.now.members published_result.now.root file.now ≡ Some fault)) }
{
    if file.len() > LONGEST_RECEIPT {
        return Ok(Err(row_fault(0, Wrong::Long)));
    }
    let (contents, list) = match checked_contents(
        alloc,
        hash_keys,
        text,
        rows,
        &published_lists.root,
        Some(&published_result.root),
    )? {
        Ok(contents_and_list) => contents_and_list,
        Err(fault) => return Ok(Err(fault)),
    };
    match members_fault(published_lists, published_result, &contents) {
        Some(fault) => Ok(Err(fault)),
        None => Ok(Ok(compared_receipt(contents, list))),
    }
}

// The fault of a receipt whose member is of side `kind` and has to be of side `wanted_kind`.
fn kind_fault(wanted_kind: Kind, kind: Kind) -> Option<Fault>
    ensures { result ≡ pair.kind_fault wanted_kind kind }
{
    match (wanted_kind, kind) {
        (Kind::Programme, Kind::Resident) => Some(row_fault(0, Wrong::NotProgramme)),
        (Kind::Resident, Kind::Programme) => Some(row_fault(0, Wrong::NotResident)),
        _ => None,
    }
}

// The receipt in the rows of a file's text, whose member has to be of this side, or its first
// fault.
fn receipt_of_kind<'r, 'a>(
    alloc: Global,
    hash_keys: RandomState,
    kind: Kind,
    published_lists: &Published,
    published_result: &Published,
    file: &[u8],
    text: &[u8],
    rows: &'r [Vec<&'a [u8]>],
) -> Result<Result<ComparedReceipt<'r, 'a>, Fault>, AllocError>
    requires text { text.now ≡ pair.short_text file.now }
    requires rows { rows_in rows.now ≡ form.split_rows text.now }
    ensures { IfOk result (λ check_result. MatchResult check_result
        (λ receipt. (pair.side_fault kind published_lists.now.members published_lists.now.root
        published_result.now.members
        published_result.now.root file.now ≡ None) × (receipt_of receipt ≡ content_of file.now)
        × IsSide receipt)
        (λ fault. pair.side_fault kind published_lists.now.members published_lists.now.root
        published_result.now.members published_result.now.root file.now ≡ Some fault)) }
{
    let receipt = match checked_receipt(
        alloc,
        hash_keys,
        published_lists,
        published_result,
        file,
        text,
        rows,
    )? {
        Ok(receipt) => receipt,
        Err(fault) => return Ok(Err(fault)),
    };
    match kind_fault(kind, receipt.contents.kind) {
        Some(fault) => Ok(Err(fault)),
        None => Ok(Ok(receipt)),
    }
}

// The sentence on two receipts, and whether they agree; or the first fault of one of them, with this
// receipt's number.
fn pair_of(
    alloc: Global,
    hash_keys: RandomState,
    published_lists: &Published,
    published_result: &Published,
    resident: &[u8],
    programme: &[u8],
) -> Result<(Vec<u8>, bool), CompareFault>
    ensures { MatchResult result
        (λ sentence. (pair_fault published_lists.now published_result.now resident.now programme.now
        ≡ None)
        × (sentence.0.items ≡ pair.pair_words (content_of resident.now) (content_of programme.now))
        × (sentence.1
        ≡ not (is_some (pair.difference (content_of resident.now) (content_of programme.now)))))
        (IsCompareFault (pair_fault published_lists.now published_result.now resident.now
        programme.now)) }
{
    let (resident_text, programme_text) = (
        short_text(alloc, resident)?,
        short_text(alloc, programme)?,
    );
    let resident_rows = split_rows(alloc, resident_text.as_slice())?;
    let programme_rows = split_rows(alloc, programme_text.as_slice())?;
    let (text, rows) = (resident_text.as_slice(), resident_rows.as_slice());
    let resident_receipt = match receipt_of_kind(
        alloc,
        hash_keys,
        Kind::Resident,
        published_lists,
        published_result,
        resident,
        text,
        rows,
    )? {
        Ok(receipt) => receipt,
        Err(fault) => return Err(CompareFault::Wrong(0, fault)),
    };
    let (text, rows) = (programme_text.as_slice(), programme_rows.as_slice());
    let programme_receipt = match receipt_of_kind(
        alloc,
        hash_keys,
        Kind::Programme,
        published_lists,
        published_result,
        programme,
        text,
        rows,
    )? {
        Ok(receipt) => receipt,
        Err(fault) => return Err(CompareFault::Wrong(1, fault)),
    };
    let difference = first_difference(&resident_receipt, &programme_receipt);
    let mut sentence = Vec::new(alloc);
    put_pair(
        &mut sentence,
        difference,
        &resident_receipt,
        &programme_receipt,
    )?;
    Ok((sentence, difference.is_none()))
}

/// Checks the receipts of a resident and of a programme against what was published. Writes whether they agree, or in
/// what they differ first, and returns whether they agree. If something is wrong with a receipt, nothing is written.
pub fn serve_pair<W: Write, H: RandomSource>(
    rt: &H,
    alloc: Global,
    published_lists: &Published,
    published_result: &Published,
    resident: &[u8],
    programme: &[u8],
    writer: &mut W,
) -> Result<bool, CompareFault>
    ensures good { OnOk result
        (pair_fault published_lists.now published_result.now resident.now programme.now ≡ None) }
    ensures told { OnOk result (Appends (W.contents writer.old) (W.contents writer.new)
        (pair.pair_words (content_of resident.now) (content_of programme.now))) }
    ensures agree { IfOk result (λ agree. agree
        ≡ not (is_some (pair.difference (content_of resident.now) (content_of programme.now)))) }
    ensures fault { IfErr result
        (IsCompareFault (pair_fault published_lists.now published_result.now resident.now
        programme.now)) }
    ensures unwritten { IfErr result (λ fault.
        fault ≢ CompareFault.Write → writer.new ≡ writer.old) }
{
    let Ok(hash_keys) = RandomState::new(rt) else {
        return Err(CompareFault::Memory);
    };
    let (text, agree) = pair_of(
        alloc,
        hash_keys,
        published_lists,
        published_result,
        resident,
        programme,
    )?;
    match writer.write_all(text.as_slice()) {
        Ok(()) => Ok(agree),
        Err(_) => Err(CompareFault::Write),
    }
}
