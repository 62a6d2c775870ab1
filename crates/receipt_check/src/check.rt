//! The check of a receipt.
ghost use Rattle.std.specs.Prelude.{◌≡◌, ◌≢◌, ℕ, None, Some, true, List, IfErr, IfOk, MatchResult, OnOk, option_map};
ghost use Rattle.std.specs.Io.KnownBytes.{Appends};
ghost use Rattle.docket_names.specs.Words as lawful;
ghost use Rattle.receipt_check.specs.Faults as faults;
ghost use Rattle.receipt_check.specs.Faults.{receipt_fault};
ghost use Rattle.receipt_check.specs.Good.{IsReceiptFault};
ghost use Rattle.receipt_check.specs.Receipt as receipt;
ghost use Rattle.receipt_check.specs.Rows as form;
ghost use Rattle.receipt_check.specs.Shown.{content, fields_in, rows_in};
ghost use Rattle.receipt_check.specs.Told as words;

use crate::faults::checked_list;
use crate::rows::{plain_text, split_rows};
use crate::shape::shape_fault;
use crate::shown::{ReceiptContents, read_contents};
use crate::told::receipt_words;
use crate::wrong::{Fault, ReceiptFault, Wrong, row_fault};
use docket_names::Texts;
use std::alloc::{AllocError, Global};
use std::hash::RandomState;
use std::io::Write;
use std::random::RandomSource;

/// How many bytes a receipt has at most. The longest receipt that a docket can have is shorter.
pub(crate) const LONGEST_RECEIPT: usize = 8_000_000;

/// The content of the receipt with these rows and the names on its list, or the receipt's first fault.
#[tactic(auto, unfolding(crate::specs::Faults::text_fault))]
pub(crate) fn checked_contents<'r, 'a>(
    alloc: Global,
    hash_keys: RandomState,
    text: &[u8],
    rows: &'r [Vec<&'a [u8]>],
    lists_root: &[u8; 32],
    result_root: Option<&[u8; 32]>,
) -> Result<Result<(ReceiptContents<'r, 'a>, Texts), Fault>, AllocError>
    requires { rows_in rows.now ≡ form.split_rows text.now }
    ensures { IfOk result (λ check_result. MatchResult check_result
        (λ contents_and_list. (faults.text_fault lists_root.now
        (option_map (λ root. root.now) result_root.entry) text.now ≡ None)
        × (content contents_and_list.0 ≡ receipt.read (form.split_rows text.now))
        × (contents_and_list.1 ≡ fields_in contents_and_list.0.list.now)
        × (lawful.is_name contents_and_list.0.name.now ≡ true))
        (λ fault. faults.text_fault lists_root.now
        (option_map (λ root. root.now) result_root.entry) text.now ≡ Some fault)) }
{
    let contents = read_contents(rows);
    if let Some(fault) = shape_fault(alloc, lists_root, result_root, &contents, rows, text)? {
        return Ok(Err(fault));
    }
    match checked_list(alloc, hash_keys, lists_root, result_root, &contents)? {
        Ok(list) => Ok(Ok((contents, list))),
        Err(fault) => Ok(Err(fault)),
    }
}

// What the receipt with this text shows, in words, or the receipt's first fault.
fn words_of(
    alloc: Global,
    hash_keys: RandomState,
    text: &[u8],
    lists_root: &[u8; 32],
    result_root: Option<&[u8; 32]>,
) -> Result<Result<Vec<u8>, Fault>, AllocError>
    ensures { IfOk result (λ check_result. MatchResult check_result
        (λ sentences. (faults.text_fault lists_root.now
        (option_map (λ root. root.now) result_root.entry) text.now ≡ None)
        × (sentences.items ≡ words.told (option_map (λ root. root.now) result_root.entry)
        (receipt.read (form.split_rows text.now))))
        (λ fault. faults.text_fault lists_root.now
        (option_map (λ root. root.now) result_root.entry) text.now ≡ Some fault)) }
{
    let rows = split_rows(alloc, text)?;
    match checked_contents(
        alloc,
        hash_keys,
        text,
        rows.as_slice(),
        lists_root,
        result_root,
    )? {
        Ok((contents, _)) => Ok(Ok(receipt_words(alloc, result_root, &contents)?)),
        Err(fault) => Ok(Err(fault)),
    }
}

// What the receipt shows, in words, or why there is no answer.
fn answer_of<H: RandomSource>(
    rt: &H,
    alloc: Global,
    bytes: &[u8],
    lists_root: &[u8; 32],
    result_root: Option<&[u8; 32]>,
) -> Result<Vec<u8>, ReceiptFault>
    ensures { MatchResult result
        (λ sentences. (receipt_fault lists_root.now
        (option_map (λ root. root.now) result_root.entry) bytes.now ≡ None)
        × (sentences.items
        ≡ words.told_of (option_map (λ root. root.now) result_root.entry) bytes.now))
        (IsReceiptFault lists_root.now
        (option_map (λ root. root.now) result_root.entry) bytes.now) }
{
    if bytes.len() > LONGEST_RECEIPT {
        return Err(ReceiptFault::Wrong(row_fault(0, Wrong::Long)));
    }
    let Ok(hash_keys) = RandomState::new(rt) else {
        return Err(ReceiptFault::Memory);
    };
    let text = plain_text(alloc, bytes)?;
    match words_of(alloc, hash_keys, text.as_slice(), lists_root, result_root)? {
        Ok(sentences) => Ok(sentences),
        Err(fault) => Err(ReceiptFault::Wrong(fault)),
    }
}

/// Checks a receipt against the published roots, and writes what it shows in words. If something is wrong with the
/// receipt, nothing is written, and the answer is the first fault.
pub fn serve_receipt<W: Write, H: RandomSource>(
    rt: &H,
    alloc: Global,
    receipt: &[u8],
    lists_root: &[u8; 32],
    result_root: Option<&[u8; 32]>,
    writer: &mut W,
) -> Result<(), ReceiptFault>
    ensures good { OnOk result (receipt_fault lists_root.now
        (option_map (λ root. root.now) result_root.entry) receipt.now ≡ None) }
    ensures told { OnOk result (Appends (W.contents writer.old) (W.contents writer.new)
        (words.told_of (option_map (λ root. root.now) result_root.entry) receipt.now)) }
    ensures fault { IfErr result (IsReceiptFault lists_root.now
        (option_map (λ root. root.now) result_root.entry) receipt.now) }
    ensures unwritten { IfErr result (λ fault.
        fault ≢ ReceiptFault.Write → writer.new ≡ writer.old) }
{
    let text = answer_of(rt, alloc, receipt, lists_root, result_root)?;
    match writer.write_all(text.as_slice()) {
        Ok(()) => Ok(()),
        Err(_) => Err(ReceiptFault::Write),
    }
}
