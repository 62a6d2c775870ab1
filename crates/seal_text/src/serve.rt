//! From the bytes of a docket, a sheet and a secret to roots and receipts.
ghost use Rattle.std.specs.Prelude.{◌≡◌, ◌≢◌, ℕ, [], None, Some, Ok, List, IfErr, IfOk, IfSome, OnOk, OnErr, length, option_copied, option_map};
ghost use Rattle.std.specs.Io.KnownBytes.{Appends};
ghost use Rattle.match_model.specs.Draft.{Draft};
ghost use Rattle.records.specs.Lines.{Grows};
ghost use Rattle.seal_text.specs.declared.leaves.Section.TheVariants.{Outcome};
ghost use Rattle.seal_text.specs.Grown.{AreTrees, IsGrownAs, lists_in, member_count, results_in, texts_in, texts_of};
ghost use Rattle.seal_text.specs.Secret.{secret_of};
ghost use Rattle.seal_text.specs.Serving as serving;
ghost use Rattle.reasons_text.specs.RealNames.{AreReal, IsNamesFault};
ghost use Rattle.seal_text.specs.Serving.{IsEarlyText, IsFullText, IsOfKey, IsUnmade, IsTextFrom, IsTextOf, IsServed, IsSealFault, IsTold, IsUntold};
ghost use Rattle.seal_text.specs.Texts.{AreListsOf, AreResultTexts, HasSheet, NameMembers};
ghost use Rattle.seal_text.specs.Texts as texts;

use crate::fault::SealFault;
use crate::grown::TextTree;
use crate::leaves::Section;
use crate::reading::{read_case, read_lists};
use crate::receipts::Trees;
use crate::secret::read_secret;
use crate::texts::{lists_texts, result_texts};
use audit_files::FilesFault;
use docket::{Docket, ProgrammeLists};
use match_audit::audit;
use match_model::WrittenLists;
use reasons_text::{Case, RealNames};
use std::alloc::{AllocError, Global};
use std::io::Write;
use std::random::RandomSource;

/// What the program writes when it seals a docket.
#[derive(Clone, Copy, Debug, PartialEq, Eq)]
pub enum Wanted {
    /// The rows of the trees' roots.
    Roots,
    /// The receipts of its members.
    Receipts,
}

// The tree of the result over these texts, if there are any.
fn tree_if(
    alloc: Global,
    secret: &[u8; 32],
    texts: Option<Vec<Vec<u8>>>,
) -> Result<Option<TextTree>, AllocError>
    ensures grown { IfOk result (λ tree. (count : ℕ) → IfSome texts (λ texts.
        length texts.items ≡ count) → IfSome tree (IsGrownAs secret.now Outcome count)) }
    ensures texts { IfOk result (λ tree.
        option_map texts_in tree ≡ option_map (λ texts. texts_of texts.items) texts) }
{
    match texts {
        Some(texts) => {
            let tree = TextTree::new(alloc, secret, Section::Outcome, texts)?;
            Ok(Some(tree))
        }
        None => Ok(None),
    }
}

// Adds the roots of a docket's trees, or the receipts, as wanted.
fn put_wanted(
    alloc: Global,
    rows_text: &mut Vec<u8>,
    text_kind: Wanted,
    secret: &[u8; 32],
    docket: &Docket,
    trees: &Trees,
) -> Result<(), AllocError>
    requires trees { AreTrees secret.now (length trees.now.lists.leaf_texts.items) trees.now }
    requires count { length trees.now.lists.leaf_texts.items ≡ member_count docket.now }
    ensures { OnOk result (Grows rows_text.old rows_text.new (serving.text_of text_kind secret.now
        docket.now (lists_in trees.now) (results_in trees.now))) }
{
    match text_kind {
        Wanted::Roots => trees.put_roots(alloc, rows_text),
        Wanted::Receipts => trees.put_receipts(alloc, rows_text, secret, docket),
    }
}

// The roots or the receipts, as wanted, of trees whose leaves have these texts.
fn text_of(
    alloc: Global,
    text_kind: Wanted,
    secret: &[u8; 32],
    docket: &Docket,
    lists: Vec<Vec<u8>>,
    outcome: Option<Vec<Vec<u8>>>,
) -> Result<Vec<u8>, AllocError>
    requires lists { length lists.items ≡ member_count docket.now }
    requires outcome { IfSome outcome (λ texts. length texts.items ≡ member_count docket.now) }
    ensures { IfOk result (λ text. text.items ≡ serving.text_of text_kind secret.now docket.now
        (texts_of lists.items) (option_map (λ texts. texts_of texts.items) outcome)) }
{
    let lists = TextTree::new(alloc, secret, Section::Lists, lists)?;
    let outcome = tree_if(alloc, secret, outcome)?;
    let trees = Trees { lists, outcome };
    let mut text = Vec::new(alloc);
    put_wanted(alloc, &mut text, text_kind, secret, docket, &trees)?;
    Ok(text)
}

// The roots or the receipts, as wanted, of a docket and its sheet, with these real names.
fn text_of_case(
    alloc: Global,
    text_kind: Wanted,
    secret: &[u8; 32],
    case: &Case,
    given_lists: &ProgrammeLists,
    real_names: &RealNames,
) -> Result<Vec<u8>, AllocError>
    requires sheet { HasSheet case.now }
    requires lists { NameMembers case.now.docket given_lists.now case.now.written }
    ensures { IfOk result (λ text. (draft : Draft)
        → AreListsOf draft given_lists.now case.now.written
        → (results : List (List ℕ)) × AreResultTexts case.now results
        × (text.items ≡ serving.text_of text_kind secret.now case.now.docket
        (texts.lists_texts case.now.docket draft real_names.now) (Some results))) }
{
    let lists = lists_texts(
        alloc,
        case.docket(),
        given_lists,
        case.written(),
        real_names,
    )?;
    let outcome = result_texts(alloc, case)?;
    text_of(
        alloc,
        text_kind,
        secret,
        case.docket(),
        lists,
        Some(outcome),
    )
}

// The roots or the receipts, as wanted, of a docket without a sheet, with these real names.
fn text_of_docket(
    alloc: Global,
    text_kind: Wanted,
    secret: &[u8; 32],
    docket: &Docket,
    written_lists: &WrittenLists,
    given_lists: &ProgrammeLists,
    real_names: &RealNames,
) -> Result<Vec<u8>, AllocError>
    requires { NameMembers docket.now given_lists.now written_lists.now }
    ensures { IfOk result (λ text. (draft : Draft)
        → AreListsOf draft given_lists.now written_lists.now
        → text.items ≡ serving.text_of text_kind secret.now docket.now
        (texts.lists_texts docket.now draft real_names.now) None) }
{
    let lists = lists_texts(alloc, docket, given_lists, written_lists, real_names)?;
    text_of(alloc, text_kind, secret, docket, lists, None)
}

// The real names in a key, if there is one.
fn names_of<H: RandomSource>(
    rt: &H,
    alloc: Global,
    docket: &Docket,
    key: Option<&[u8]>,
) -> Result<RealNames, SealFault>
    ensures names { IfOk result (AreReal docket.now (option_copied key.entry)) }
    ensures fault { IfErr result
        (IsOfKey (option_copied key.entry) (IsNamesFault docket.now)) }
{
    let Some(bytes) = key else {
        return Ok(RealNames::none(alloc));
    };
    match RealNames::read(rt, alloc, docket, bytes) {
        Ok(names) => Ok(names),
        Err(fault) => Err(SealFault::Key(fault)),
    }
}

// The roots or the receipts, as wanted, from the bytes of a docket without a sheet.
fn early_text<H: RandomSource>(
    rt: &H,
    alloc: Global,
    text_kind: Wanted,
    docket: &[u8],
    key: Option<&[u8]>,
    secret: &[u8; 32],
) -> Result<Vec<u8>, SealFault>
    ensures text { IfOk result (λ text.
        IsEarlyText text_kind docket.now (option_copied key.entry) secret.now text.items) }
    ensures fault { IfErr result (IsUnmade text_kind docket.now None (option_copied key.entry)) }
{
    let (read_docket, written_lists, given_lists) = match read_lists(rt, alloc, docket, &[]) {
        Ok(parts) => parts,
        Err(fault) => return Err(SealFault::Files(fault)),
    };
    let real_names = match names_of(rt, alloc, &read_docket, key) {
        Ok(real_names) => real_names,
        Err(fault) => return Err(fault),
    };
    match text_of_docket(
        alloc,
        text_kind,
        secret,
        &read_docket,
        &written_lists,
        &given_lists,
        &real_names,
    ) {
        Ok(text) => Ok(text),
        Err(_) => Err(SealFault::Files(FilesFault::Memory)),
    }
}

// Whether the wanted text may be written for this case: roots always, and receipts only if the sheet is
// stable.
fn is_allowed(alloc: Global, text_kind: Wanted, case: &Case) -> Result<bool, AllocError>
    ensures { IfOk result (IsTold text_kind case.now) }
{
    if text_kind == Wanted::Roots {
        return Ok(true);
    }
    match audit(alloc, case.docket().instance(), case.sheet()) {
        Ok(report) => Ok(report.is_stable()),
        Err(_) => Err(AllocError),
    }
}

// The roots or the receipts, as wanted, of a case, with the real names in a key, if there is one. Receipts are made
// only if the sheet is stable.
fn allowed_text<H: RandomSource>(
    rt: &H,
    alloc: Global,
    text_kind: Wanted,
    case: &Case,
    given_lists: &ProgrammeLists,
    key: Option<&[u8]>,
    secret: &[u8; 32],
) -> Result<Vec<u8>, SealFault>
    requires sheet { HasSheet case.now }
    requires lists { NameMembers case.now.docket given_lists.now case.now.written }
    ensures text { IfOk result (λ text. (draft : Draft)
        → AreListsOf draft given_lists.now case.now.written
        → IsTextOf text_kind case.now draft (option_copied key.entry) secret.now text.items) }
    ensures fault { IfErr result (IsUntold text_kind case.now (option_copied key.entry)) }
{
    let real_names = match names_of(rt, alloc, case.docket(), key) {
        Ok(real_names) => real_names,
        Err(fault) => return Err(fault),
    };
    match is_allowed(alloc, text_kind, case) {
        Ok(true) => {}
        Ok(false) => return Err(SealFault::Unstable),
        Err(_) => return Err(SealFault::Files(FilesFault::Memory)),
    }
    match text_of_case(alloc, text_kind, secret, case, given_lists, &real_names) {
        Ok(text) => Ok(text),
        Err(_) => Err(SealFault::Files(FilesFault::Memory)),
    }
}

// The roots or the receipts, as wanted, from the bytes of a docket and of its sheet.
fn full_text<H: RandomSource>(
    rt: &H,
    alloc: Global,
    text_kind: Wanted,
    docket: &[u8],
    sheet: &[u8],
    key: Option<&[u8]>,
    secret: &[u8; 32],
) -> Result<Vec<u8>, SealFault>
    ensures text { IfOk result (λ text.
        IsFullText text_kind docket.now sheet.now (option_copied key.entry) secret.now text.items) }
    ensures fault { IfErr result
        (IsUnmade text_kind docket.now (Some sheet.now) (option_copied key.entry)) }
{
    let (case, given_lists) = match read_case(rt, alloc, docket, sheet) {
        Ok(case_and_lists) => case_and_lists,
        Err(fault) => return Err(SealFault::Files(fault)),
    };
    // For the proof alone: the docket is whole.
    let _instance = case.docket().instance();
    allowed_text(rt, alloc, text_kind, &case, &given_lists, key, secret)
}

// The roots or the receipts, as wanted, from the bytes of a docket and, if there is one, of its sheet.
fn text_from<H: RandomSource>(
    rt: &H,
    alloc: Global,
    text_kind: Wanted,
    docket: &[u8],
    sheet: Option<&[u8]>,
    key: Option<&[u8]>,
    secret: &[u8; 32],
) -> Result<Vec<u8>, SealFault>
    ensures text { IfOk result (λ text. IsTextFrom text_kind docket.now (option_copied sheet.entry)
        (option_copied key.entry) secret.now text.items) }
    ensures fault { IfErr result
        (IsUnmade text_kind docket.now (option_copied sheet.entry) (option_copied key.entry)) }
{
    match sheet {
        Some(sheet) => full_text(rt, alloc, text_kind, docket, sheet, key, secret),
        None => early_text(rt, alloc, text_kind, docket, key, secret),
    }
}

/// Writes the roots or the receipts, as wanted.
pub(crate) fn serve<W: Write, H: RandomSource>(
    rt: &H,
    alloc: Global,
    text_kind: Wanted,
    docket: &[u8],
    sheet: Option<&[u8]>,
    key: Option<&[u8]>,
    secret: &[u8],
    writer: &mut W,
) -> Result<(), SealFault>
    ensures text { OnOk result ((text : List ℕ)
        × IsServed text_kind docket.now (option_copied sheet.entry)
        (option_copied key.entry) secret.now text
        × Appends (W.contents writer.old) (W.contents writer.new) text) }
    ensures fault { IfErr result
        (IsSealFault text_kind docket.now (option_copied sheet.entry)
        (option_copied key.entry) secret.now) }
    ensures before { IfErr result (λ fault. fault ≢ SealFault.Files FilesFault.Write
        → writer.new ≡ writer.old) }
{
    let secret = match read_secret(secret) {
        Ok(secret) => secret,
        Err(fault) => return Err(SealFault::Secret(fault)),
    };
    let text = match text_from(rt, alloc, text_kind, docket, sheet, key, &secret) {
        Ok(text) => text,
        Err(fault) => return Err(fault),
    };
    match writer.write_all(text.as_slice()) {
        Ok(()) => Ok(()),
        Err(_) => Err(SealFault::Files(FilesFault::Write)),
    }
}

/// Writes the root of a docket's lists, and if there is a sheet, also that of the result. If there is a key, the list
/// leaf of each member that it names ends with the real name. Each file is read by itself. The secret is 64
/// hexadecimal digits. If the fault is not the writer's, nothing was written.
pub fn serve_seal<W: Write, H: RandomSource>(
    rt: &H,
    alloc: Global,
    docket: &[u8],
    sheet: Option<&[u8]>,
    key: Option<&[u8]>,
    secret: &[u8],
    writer: &mut W,
) -> Result<(), SealFault>
    ensures text { OnOk result ((text : List ℕ)
        × IsServed Wanted.Roots docket.now (option_copied sheet.entry)
        (option_copied key.entry) secret.now text
        × Appends (W.contents writer.old) (W.contents writer.new) text) }
    ensures fault { IfErr result
        (IsSealFault Wanted.Roots docket.now (option_copied sheet.entry)
        (option_copied key.entry) secret.now) }
    ensures before { IfErr result (λ fault. fault ≢ SealFault.Files FilesFault.Write
        → writer.new ≡ writer.old) }
{
    serve(rt, alloc, Wanted::Roots, docket, sheet, key, secret, writer)
}

/// Writes the receipt of each member, after a row that names the member. If there is a sheet, a receipt also has
/// the result. If there is a key, a receipt has the member's real name, if the key names the member. Each file is
/// read by itself. A sheet that isn't stable is a fault. If the fault is not the writer's, nothing was written.
pub fn serve_receipts<W: Write, H: RandomSource>(
    rt: &H,
    alloc: Global,
    docket: &[u8],
    sheet: Option<&[u8]>,
    key: Option<&[u8]>,
    secret: &[u8],
    writer: &mut W,
) -> Result<(), SealFault>
    ensures text { OnOk result ((text : List ℕ)
        × IsServed Wanted.Receipts docket.now (option_copied sheet.entry)
        (option_copied key.entry) secret.now text
        × Appends (W.contents writer.old) (W.contents writer.new) text) }
    ensures fault { IfErr result
        (IsSealFault Wanted.Receipts docket.now (option_copied sheet.entry)
        (option_copied key.entry) secret.now) }
    ensures before { IfErr result (λ fault. fault ≢ SealFault.Files FilesFault.Write
        → writer.new ≡ writer.old) }
{
    serve(
        rt,
        alloc,
        Wanted::Receipts,
        docket,
        sheet,
        key,
        secret,
        writer,
    )
}
