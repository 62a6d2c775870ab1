//! Comparing the receipts of a folder.
ghost use Rattle.std.specs.Prelude.{◌≡◌, ◌≢◌, ℕ, None, Some, List, IfErr, IfOk, MatchResult, OnOk, length, map};
ghost use Rattle.std.specs.Io.KnownBytes.{Appends};
ghost use Rattle.receipt_check.specs.Compared.{IsCompareFault};
ghost use Rattle.receipt_check.specs.Folder as folder;
ghost use Rattle.receipt_check.specs.Held.{IsHeld, bytes_in, receipts_of, rows_of};
ghost use Rattle.receipt_check.specs.Pair as pair;
ghost use Rattle.receipt_check.specs.Rows as form;

use crate::compared::{checked_receipt, short_text};
use crate::folder::FolderReceipts;
use crate::published::Published;
use crate::rows::split_rows;
use crate::wrong::{CompareFault, Wrong, row_fault};
use std::alloc::{AllocError, Global};
use std::hash::RandomState;
use std::io::Write;
use std::random::RandomSource;

// The text of each file's receipt, as it was printed.
fn texts_of(alloc: Global, receipt_files: &[Vec<u8>]) -> Result<Vec<Vec<u8>>, AllocError>
    ensures { IfOk result (λ receipt_texts. bytes_in receipt_texts.items
        ≡ map pair.short_text (bytes_in receipt_files.now)) }
{
    let mut receipt_texts = Vec::new(alloc);
    for k in 0..receipt_files.len() {
        receipt_texts.push(short_text(alloc, receipt_files[k].as_slice())?)?;
    }
    Ok(receipt_texts)
}

// The rows of each text.
fn rows_in<'a>(
    alloc: Global,
    receipt_texts: &'a [Vec<u8>],
) -> Result<Vec<Vec<Vec<&'a [u8]>>>, AllocError>
    ensures { IfOk result (λ rows. rows_of rows.items ≡ map form.split_rows (bytes_in
        receipt_texts.now)) }
{
    let mut rows = Vec::new(alloc);
    for k in 0..receipt_texts.len() {
        rows.push(split_rows(alloc, receipt_texts[k].as_slice())?)?;
    }
    Ok(rows)
}

// The receipts of all files, or the first file at fault and its fault.
#[tactic(auto, unfolding(crate::specs::Folder::folder_fault))]
fn gather_receipts<'r, 'a>(
    alloc: Global,
    hash_keys: RandomState,
    published_lists: &Published,
    published_result: &Published,
    receipt_files: &[Vec<u8>],
    receipt_texts: &[Vec<u8>],
    rows: &'r [Vec<Vec<&'a [u8]>>],
) -> Result<FolderReceipts<'r, 'a>, CompareFault>
    requires texts { bytes_in receipt_texts.now ≡ map pair.short_text (bytes_in receipt_files.now) }
    requires rows { rows_of rows.now ≡ map form.split_rows (bytes_in receipt_texts.now) }
    ensures { MatchResult result
        (λ receipts. (folder.folder_fault published_lists.now published_result.now (bytes_in
        receipt_files.now) ≡ None)
        × (receipts_of receipts ≡ folder.contents_of (bytes_in receipt_files.now)) × IsHeld
        receipts)
        (IsCompareFault (folder.folder_fault published_lists.now published_result.now (bytes_in
        receipt_files.now))) }
{
    let mut receipts = FolderReceipts::new(alloc, hash_keys);
    for k in 0..receipt_files.len() {
        let (file, text, rows) = (
            receipt_files[k].as_slice(),
            receipt_texts[k].as_slice(),
            rows[k].as_slice(),
        );
        let receipt = match checked_receipt(
            alloc,
            hash_keys,
            published_lists,
            published_result,
            file,
            text,
            rows,
        )? {
            Ok(receipt) => receipt,
            Err(fault) => return Err(CompareFault::Wrong(k, fault)),
        };
        if receipts.has(&receipt) {
            return Err(CompareFault::Wrong(k, row_fault(2, Wrong::Again)));
        }
        receipts.add(receipt)?;
    }
    Ok(receipts)
}

// The text about the receipts of all files, and whether the placement is stable; or the first file at fault and its
// fault.
fn pairs_text(
    alloc: Global,
    hash_keys: RandomState,
    published_lists: &Published,
    published_result: &Published,
    receipt_files: &[Vec<u8>],
) -> Result<(Vec<u8>, bool), CompareFault>
    ensures { MatchResult result
        (λ text. (folder.folder_fault published_lists.now published_result.now (bytes_in
        receipt_files.now) ≡ None) × (text.0.items ≡ folder.folder_text published_lists.now.members
        (folder.contents_of (bytes_in receipt_files.now)))
        × (text.1 ≡ folder.is_stable published_lists.now.members (folder.contents_of (bytes_in
        receipt_files.now))))
        (IsCompareFault (folder.folder_fault published_lists.now published_result.now (bytes_in
        receipt_files.now))) }
{
    let receipt_texts = texts_of(alloc, receipt_files)?;
    let rows = rows_in(alloc, receipt_texts.as_slice())?;
    let receipts = gather_receipts(
        alloc,
        hash_keys,
        published_lists,
        published_result,
        receipt_files,
        receipt_texts.as_slice(),
        rows.as_slice(),
    )?;
    let mut text = Vec::new(alloc);
    let stable = receipts.put_folder_text(alloc, &mut text, published_lists.members as usize)?;
    Ok((text, stable))
}

/// Checks the receipts of a folder against what was published, and compares those of residents and programmes who
/// name each other. Writes which pairs differ, how many members and pairs there are, and whether this shows that
/// the placement is stable. Returns whether it does. If something is wrong with a receipt, nothing is written.
pub fn serve_pairs<W: Write, H: RandomSource>(
    rt: &H,
    alloc: Global,
    published_lists: &Published,
    published_result: &Published,
    receipt_files: &[Vec<u8>],
    writer: &mut W,
) -> Result<bool, CompareFault>
    ensures good { OnOk result
        (folder.folder_fault published_lists.now published_result.now (bytes_in receipt_files.now) ≡
        None) }
    ensures told { OnOk result (Appends (W.contents writer.old) (W.contents writer.new)
        (folder.folder_text published_lists.now.members (folder.contents_of (bytes_in
        receipt_files.now)))) }
    ensures stable { IfOk result (λ stable. stable
        ≡ folder.is_stable published_lists.now.members (folder.contents_of (bytes_in
        receipt_files.now))) }
    ensures fault { IfErr result
        (IsCompareFault (folder.folder_fault published_lists.now published_result.now (bytes_in
        receipt_files.now))) }
    ensures unwritten { IfErr result (λ fault.
        fault ≢ CompareFault.Write → writer.new ≡ writer.old) }
{
    let Ok(hash_keys) = RandomState::new(rt) else {
        return Err(CompareFault::Memory);
    };
    let (text, stable) = pairs_text(
        alloc,
        hash_keys,
        published_lists,
        published_result,
        receipt_files,
    )?;
    match writer.write_all(text.as_slice()) {
        Ok(()) => Ok(stable),
        Err(_) => Err(CompareFault::Write),
    }
}
