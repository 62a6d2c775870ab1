//! What the second pass needs: the rank lists and the withdrawals.
ghost use Rattle.std.specs.Prelude.{◌≡◌, ◌≤◌, ◌<◌, ◌+◌, ◌++◌, ◌∷◌, ◌&&◌, Some, [], true, is_some, length, drop, slice_get, IfOk, IfSome, OnOk, OnErr};
ghost use Rattle.std.specs.List.{list_all};
ghost use Rattle.csv.specs.Records.{fields_of};
ghost use Rattle.records.specs.Reading.{Fields, field as field_of};
ghost use Rattle.docket.specs.Lists.{AreLists, AreWalked, AddsEntry, list_entry, gone_entry};
ghost use Rattle.docket_names.specs.Texts.{StartsWith, IsJoined};
ghost use Rattle.docket_names.specs.Words as words;

use crate::vocabulary::{MOST_NAMES, Side};
use csv::ByteRecord;
use docket_names::{Texts, is_name};
use records::field;
use std::alloc::{AllocError, Global};
use std::marker::Model;

/// The kind of a kept row.
#[derive(Clone, Copy)]
pub(crate) enum ListKind {
    /// A rank list of a member on this side.
    Ranking(Side),
    /// The withdrawal of a member on this side.
    Withdrawal(Side),
}

/// A kept row: the number of its record, its kind, the number of its owner's name, and where its listed names stand in
/// the long sequence. A withdrawal lists nobody, and its owner is the one withdrawn.
#[derive(Clone, Copy)]
pub(crate) struct KeptRow {
    record_no: u32,
    kind: ListKind,
    owner: u32,
    start: u32,
    end: u32,
}

/// A kept row with its listed names.
#[derive(Clone, Copy)]
pub(crate) struct ListRow<'a> {
    pub(crate) record_no: u32,
    pub(crate) kind: ListKind,
    pub(crate) owner: u32,
    pub(crate) listed_names: &'a [u32],
}

/// The rank lists and withdrawals in order. Each name is kept as the number of its text.
///
/// If these rows bring more new names than there can be members, one of the names is nobody's, and the second pass ends
/// at that name's row. So from then on nothing more is kept.
#[derive(Drop)]
pub(crate) struct Lists {
    rows: Vec<KeptRow>,
    name_numbers: Vec<u32>,
    // How many new texts these rows brought.
    new_names: usize,
}

impl Model for Lists {
    ghost use Rattle.std.specs.Prelude.{map};
    ghost use Rattle.docket.specs.Lists.{KeptLists, entry_at, ArePartsOf};

    ghost Value = { KeptLists };

    ghost view = { λ lists.
        record {
          entries = map (entry_at lists.name_numbers.items) lists.rows.items;
          brought = lists.new_names;
        } };

    ghost invariant = { λ lists. ArePartsOf lists.name_numbers.items lists.rows.items };
}

// The count of new names, after the number of texts grew from `texts_before` to `texts_after`. Once there are too
// many new names, the count stays the same.
#[inline(always)]
fn counted_names(new_names: usize, texts_before: usize, texts_after: usize) -> usize
    requires within { texts_before ≤ texts_after }
    requires one { texts_after ≤ texts_before + 1 }
    ensures counted { new_names ≤ MOST_NAMES → result + texts_before ≡ new_names + texts_after }
    ensures cut { MOST_NAMES < new_names → result ≡ new_names }
{
    if new_names <= MOST_NAMES && texts_before < texts_after {
        new_names + 1
    } else {
        new_names
    }
}

// The number of a name, or none if the text is not a name. The name is counted if it is new.
#[inline(always)]
fn number_name(
    new_names: &mut usize,
    name_texts: &mut Texts,
    text: &[u8],
) -> Result<Option<usize>, AllocError>
    ensures named { IfOk result (λ number. is_some number ≡ words.is_name text.now) }
    ensures number { IfOk result (λ number. IfSome number (λ number. slice_get name_texts.new number
        ≡ Some text.now)) }
    ensures texts { StartsWith name_texts.old name_texts.new }
    ensures joined { IfOk result (λ number. IsJoined name_texts.old name_texts.new text.now) }
    ensures counted { OnOk result (new_names.old ≤ MOST_NAMES
        → new_names.new + length name_texts.old ≡ new_names.old + length name_texts.new) }
    ensures cut { OnOk result (MOST_NAMES < new_names.old → new_names.new ≡ new_names.old) }
{
    let texts_before = name_texts.len();
    let number = name_texts.name(text)?;
    *new_names = counted_names(*new_names, texts_before, name_texts.len());
    Ok(number)
}

// Adds a number at the end of the sequence.
#[inline(always)]
fn push_number(name_numbers: &mut Vec<u32>, number: usize) -> Result<(), AllocError>
    ensures pushed { OnOk result (name_numbers.new.items ≡ name_numbers.old.items ++ number ∷ []) }
    ensures grown { length name_numbers.old.items ≤ length name_numbers.new.items }
{
    let Ok(number) = u32::try_from(number) else {
        return Err(AllocError);
    };
    name_numbers.push(number)?;
    Ok(())
}

// Tests a text and keeps its number. If there are too many new names, the text is only tested. Returns whether the text
// is a name.
#[inline(always)]
fn add_name(
    name_numbers: &mut Vec<u32>,
    new_names: &mut usize,
    name_texts: &mut Texts,
    text: &[u8],
) -> Result<bool, AllocError>
    ensures named { IfOk result (λ named. named ≡ words.is_name text.now) }
    ensures walked { IfOk result (λ named. named ≡ true
        → AreWalked name_texts.old name_numbers.old.items new_names.old
        name_texts.new name_numbers.new.items new_names.new
        (text.now ∷ [])) }
    ensures texts { StartsWith name_texts.old name_texts.new }
    ensures grown { length name_numbers.old.items ≤ length name_numbers.new.items }
{
    if *new_names > MOST_NAMES {
        return Ok(name_texts.known(text).is_some() || is_name(text));
    }
    let Some(number) = number_name(new_names, name_texts, text)? else {
        return Ok(false);
    };
    push_number(name_numbers, number)?;
    Ok(true)
}

// Tests the names that a rank list has after the name of its owner, and keeps their numbers. Once there are too many
// new names, the remaining names are only tested. Returns whether all of them are names.
fn add_names(
    name_numbers: &mut Vec<u32>,
    new_names: &mut usize,
    name_texts: &mut Texts,
    row: &ByteRecord,
) -> Result<bool, AllocError>
    ensures named { IfOk result (λ named.
        named ≡ list_all words.is_name (drop 2 (fields_of row.now))) }
    ensures walked { IfOk result (λ named. named ≡ true
        → AreWalked name_texts.old name_numbers.old.items new_names.old
        name_texts.new name_numbers.new.items new_names.new
        (drop 2 (fields_of row.now))) }
    ensures texts { StartsWith name_texts.old name_texts.new }
    ensures grown { length name_numbers.old.items ≤ length name_numbers.new.items }
{
    for field_index in 2..row.len() {
        if let Some(text) = row.get(field_index) {
            if !add_name(name_numbers, new_names, name_texts, text)? {
                return Ok(false);
            }
        }
    }
    Ok(true)
}

// Adds a row whose listed names stand from `start` up to `end` in the long sequence.
fn push_row(
    rows: &mut Vec<KeptRow>,
    record_no: u32,
    kind: ListKind,
    owner: usize,
    start: usize,
    end: usize,
) -> Result<(), AllocError>
    ensures pushed { OnOk result (rows.new.items ≡ rows.old.items ++ record {
      record_no = record_no;
      kind = kind;
      owner = owner;
      start = start;
      end = end;
    } ∷ []) }
    ensures refused { OnErr result (rows.new.items ≡ rows.old.items) }
{
    let (Ok(owner), Ok(start), Ok(end)) = (
        u32::try_from(owner),
        u32::try_from(start),
        u32::try_from(end),
    ) else {
        return Err(AllocError);
    };
    rows.push(KeptRow {
        record_no,
        kind,
        owner,
        start,
        end,
    })?;
    Ok(())
}

impl Lists {
    /// A store without rows.
    pub(crate) fn new(alloc: Global) -> Lists
        ensures { (name_texts : Fields) → AreLists name_texts result [] }
    {
        Lists {
            rows: Vec::new(alloc),
            name_numbers: Vec::new(alloc),
            new_names: 0,
        }
    }

    /// Tests a rank list of a member on this side and keeps it. The answer is the number of the owner's name, or none if
    /// a field after the first is not a name.
    pub(crate) fn add_list(
        &mut self,
        name_texts: &mut Texts,
        row: &ByteRecord,
        side: Side,
        record_no: u32,
    ) -> Result<Option<usize>, AllocError>
        ensures named { IfOk result (λ owner.
            is_some owner ≡ (words.is_name (field_of (fields_of row.now) 1)
            && list_all words.is_name (drop 2 (fields_of row.now)))) }
        ensures owner { IfOk result (λ owner.
            IfSome owner (λ number. slice_get name_texts.new number
            ≡ Some (field_of (fields_of row.now) 1))) }
        ensures texts { StartsWith name_texts.old name_texts.new }
        ensures kept { IfOk result (λ owner. is_some owner ≡ true
            → AddsEntry name_texts.old name_texts.new self.old self.new
            (list_entry record_no side (fields_of row.now))) }
    {
        let was_cut = self.new_names > MOST_NAMES;
        let mut new_names = self.new_names;
        let Some(owner) = number_name(&mut new_names, name_texts, field(row, 1))? else {
            return Ok(None);
        };
        let names_start = self.name_numbers.len();
        if !add_names(&mut self.name_numbers, &mut new_names, name_texts, row)? {
            return Ok(None);
        }
        if !was_cut {
            let names_end = self.name_numbers.len();
            push_row(
                &mut self.rows,
                record_no,
                ListKind::Ranking(side),
                owner,
                names_start,
                names_end,
            )?;
            self.new_names = new_names;
        }
        Ok(Some(owner))
    }

    /// Tests the name of a member on this side who is withdrawn, and keeps the withdrawal. The answer is the number of
    /// the name, or none if the text is not a name.
    pub(crate) fn add_withdrawal(
        &mut self,
        name_texts: &mut Texts,
        row: &ByteRecord,
        side: Side,
        record_no: u32,
    ) -> Result<Option<usize>, AllocError>
        ensures named { IfOk result (λ owner.
            is_some owner ≡ words.is_name (field_of (fields_of row.now) 2)) }
        ensures owner { IfOk result (λ owner.
            IfSome owner (λ number. slice_get name_texts.new number
            ≡ Some (field_of (fields_of row.now) 2))) }
        ensures texts { StartsWith name_texts.old name_texts.new }
        ensures kept { IfOk result (λ owner. is_some owner ≡ true
            → AddsEntry name_texts.old name_texts.new self.old self.new
            (gone_entry record_no side (fields_of row.now))) }
    {
        let was_cut = self.new_names > MOST_NAMES;
        let mut new_names = self.new_names;
        let Some(owner) = number_name(&mut new_names, name_texts, field(row, 2))? else {
            return Ok(None);
        };
        if !was_cut {
            let names_end = self.name_numbers.len();
            push_row(
                &mut self.rows,
                record_no,
                ListKind::Withdrawal(side),
                owner,
                names_end,
                names_end,
            )?;
            self.new_names = new_names;
        }
        Ok(Some(owner))
    }

    /// How many rows are kept.
    pub(crate) fn len(&self) -> usize
        ensures { result ≡ length self.now.entries }
    {
        self.rows.len()
    }

    /// Row `row_index`, from 0.
    pub(crate) fn row(&self, row_index: usize) -> ListRow
        requires { row_index < length self.now.entries }
        ensures { slice_get self.now.entries row_index ≡ Some (record {
          record_no = result.record_no;
          kind = result.kind;
          owner = result.owner;
          listed = result.listed_names.now;
        }) }
    {
        let row = self.rows[row_index];
        ListRow {
            record_no: row.record_no,
            kind: row.kind,
            owner: row.owner,
            listed_names: &self.name_numbers[row.start as usize..row.end as usize],
        }
    }
}
