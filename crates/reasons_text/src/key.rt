//! The members' real names, as people know them, from the office's key.
ghost use Rattle.std.specs.Prelude.{◌≡◌, ◌⊎◌, ◌==◌, ◌&&◌, if◌then◌else◌, [], IfErr, IfOk, None, OnOk, Some, length, map, true, option_copied, option_map, replicate, slice_set, string_bytes};
ghost use Rattle.std.specs.Str.{is_utf8};
ghost use Rattle.csv.specs.Records.{fields_of};
ghost use Rattle.reasons_text.specs.Faults.{IsFaultOrMemory, IsKeyFault};
ghost use Rattle.reasons_text.specs.Keys.{AddsAll, HasBadRow, IsKeyOf, added, is_free, noted, row_fault, row_side, side_fault, sign_in, unnamed, unnamed_side, with_row};
ghost use Rattle.reasons_text.specs.Keys.{is_blank as is_blank_row};
ghost use Rattle.reasons_text.specs.Naming.{HasNoNames, both_of, label_of, side_of, text_at};
ghost use Rattle.reasons_text.specs.Numbers.{AreNumbers};
ghost use Rattle.reasons_text.specs.Shown.{shown_text};

use crate::delimiter::delimiter_of;
use crate::fault::WhyFault;
use crate::labels::labels;
use crate::naming::MemberNumbers;
use crate::shown::push_shown;
use crate::side::{Side, member_count};
use csv::ByteRecord;
use docket::{Docket, DocketFault};
use records::{ReadFailed, field, next_row, reader_over};
use std::alloc::{AllocError, Global};
use std::hash::RandomState;

/// The names that the key has for one side's members, in the order of the members' numbers. After them come the names
/// of members whom the docket lacks. A member without a row has an empty name and an empty sign. A member whose name
/// means nobody else has an empty label.
#[derive(Drop)]
pub(crate) struct SideKey {
    /// The real names.
    pub(crate) names: Vec<String>,
    /// The signs, which tell members of the same name apart: the ID, or without one the docket's name.
    pub(crate) signs: Vec<String>,
    /// The label `NAME (ID)` of each member whose name also means another member. For all others it is empty.
    pub(crate) labels: Vec<String>,
}

/// The key's names of both sides.
#[derive(Drop)]
pub(crate) struct Key {
    pub(crate) residents: SideKey,
    pub(crate) programmes: SideKey,
}

// A vector of `text_count` empty texts.
fn empty_texts(alloc: Global, text_count: u32) -> Result<Vec<String>, AllocError>
    ensures { IfOk result (λ texts. map string_bytes texts.items ≡ replicate text_count []) }
{
    let mut texts = Vec::new(alloc);
    for _n in 0..text_count {
        texts.push(String::new(alloc))?;
    }
    Ok(texts)
}

/// The text at index `number`, or none if this text is empty or missing.
#[tactic(auto, unfolding(crate::specs::Naming::text_at))]
pub(crate) fn text_in(member_texts: &[String], number: usize) -> Option<&str>
    ensures { option_copied result ≡ text_at (map string_bytes member_texts.now) number }
{
    match member_texts.get(number) {
        Some(text) if !text.is_empty() => Some(text.as_str()),
        _ => None,
    }
}

/// A name and its sign, as the office writes a label: `NAME (ID)`.
#[tactic(auto, unfolding(crate::specs::Naming::label_of))]
pub(crate) fn label_text(alloc: Global, name: &str, sign: &str) -> Result<String, AllocError>
    ensures { IfOk result (λ text. string_bytes text ≡ label_of name.now sign.now) }
{
    format!(in alloc; "{name} ({sign})")
}

// A field of a row in the form in which it is shown, or none if the field's bytes are no text.
#[tactic(auto, using(crate::proofs::TextFacts::is_text, crate::proofs::TextFacts::no_text))]
fn row_text(alloc: Global, field_bytes: &[u8]) -> Result<Option<String>, AllocError>
    ensures { IfOk result (λ shown. option_map string_bytes shown
        ≡ (if is_utf8 field_bytes.now then Some (shown_text field_bytes.now) else None)) }
{
    let Ok(text) = str::from_utf8(field_bytes) else {
        return Ok(None);
    };
    let mut shown = String::new(alloc);
    push_shown(&mut shown, text)?;
    Ok(Some(shown))
}

// The sign of the member in a row: the ID, or the docket's name if there is no ID.
fn sign_of_row(row: &ByteRecord) -> &[u8]
    ensures { result.now ≡ sign_in (fields_of row.now) }
{
    let id = field(row, 3);
    if id.len() == 0 { field(row, 1) } else { id }
}

/// The side of a row, from its first field.
#[tactic(auto, unfolding(records::specs::Reading::field))]
pub(crate) fn side_of_row(row: &ByteRecord) -> Option<Side>
    ensures { result ≡ row_side (fields_of row.now) }
{
    match field(row, 0) {
        b"P" => Some(Side::Programmes),
        b"R" => Some(Side::Residents),
        _ => None,
    }
}

// Whether `were_blank` is true and this text is empty.
fn still_blank(were_blank: bool, field_bytes: &[u8]) -> bool
    ensures { result ≡ (were_blank && length field_bytes.now == 0) }
{
    were_blank && field_bytes.is_empty()
}

// Whether all fields of a row are empty.
fn is_blank(row: &ByteRecord) -> bool
    ensures { result ≡ is_blank_row (fields_of row.now) }
{
    let mut are_all_blank = true;
    for i in 0..row.len() {
        are_all_blank = still_blank(are_all_blank, field(row, i));
    }
    are_all_blank
}

// Puts a text at index `number`, if there is such an index.
fn put(member_texts: &mut Vec<String>, number: usize, member_text: String)
    ensures { map string_bytes member_texts.new.items
        ≡ slice_set (map string_bytes member_texts.old.items) number (string_bytes member_text) }
{
    if let Some(slot) = member_texts.get_mut(number) {
        *slot = member_text;
    }
}

impl SideKey {
    // A side without members.
    fn none(alloc: Global) -> SideKey
        ensures { HasNoNames result }
    {
        SideKey {
            names: Vec::new(alloc),
            signs: Vec::new(alloc),
            labels: Vec::new(alloc),
        }
    }

    // A side with `side_size` members, all without names.
    fn empty(alloc: Global, side_size: u32) -> Result<SideKey, AllocError>
        ensures { IfOk result (λ key. side_of key ≡ unnamed_side side_size) }
    {
        Ok(SideKey {
            names: empty_texts(alloc, side_size)?,
            signs: empty_texts(alloc, side_size)?,
            labels: Vec::new(alloc),
        })
    }

    // Notes the name and the sign of a member. If the docket lacks the member, both are put after the names and signs
    // of all members.
    fn note(&mut self, number: Option<u32>, name: String, sign: String) -> Result<(), AllocError>
        ensures { OnOk result (side_of self.new
            ≡ noted (side_of self.old) number (string_bytes name) (string_bytes sign)) }
    {
        let Some(number) = number else {
            self.names.push(name)?;
            self.signs.push(sign)?;
            return Ok(());
        };
        put(&mut self.names, number as usize, name);
        put(&mut self.signs, number as usize, sign);
        Ok(())
    }

    // Whether no earlier row gave this member a name.
    fn lacks_name(&self, number: Option<u32>) -> bool
        ensures { result ≡ is_free (side_of self.now) number }
    {
        match number {
            Some(number) => text_in(self.names.as_slice(), number as usize).is_none(),
            None => true,
        }
    }

    // Adds a row with a member of this side.
    #[tactic(auto, unfolding(crate::specs::Keys::side_fault))]
    fn add(
        &mut self,
        alloc: Global,
        numbers: &MemberNumbers,
        side: Side,
        row: &ByteRecord,
        row_number: u64,
    ) -> Result<(), WhyFault>
        requires { AreNumbers numbers.now }
        ensures row { OnOk result (side_of self.new
            ≡ with_row numbers.now.docket.now side (fields_of row.now) (side_of self.old)) }
        ensures faultless { OnOk result (side_fault numbers.now.docket.now side
            (side_of self.old) row_number (fields_of row.now) ≡ None) }
        ensures fault { IfErr result (IsFaultOrMemory (side_fault
            numbers.now.docket.now side (side_of self.old) row_number (fields_of row.now))) }
    {
        if field(row, 1).is_empty() || field(row, 2).is_empty() {
            return Err(WhyFault::BadKey { row_number });
        }
        let number = numbers.number(side, field(row, 1));
        if !self.lacks_name(number) {
            return Err(WhyFault::DoubledKey { row_number });
        }
        let Some(name) = row_text(alloc, field(row, 2))? else {
            return Err(WhyFault::BadKey { row_number });
        };
        let Some(sign) = row_text(alloc, sign_of_row(row))? else {
            return Err(WhyFault::BadKey { row_number });
        };
        self.note(number, name, sign)?;
        Ok(())
    }
}

// A key's bytes are in memory and can always be read. So if reading them fails, memory ran out.
impl From<ReadFailed> for WhyFault {
    ghost use Rattle.docket.specs.declared.fault.DocketFault.TheVariants as docket_fault;
    ghost use Rattle.reasons_text.specs.declared.fault.WhyFault.TheVariants.{Docket};

    ghost from_gives = { λ _ fault. fault ≡ Docket docket_fault.Memory };

    fn from(_failed: ReadFailed) -> WhyFault {
        WhyFault::Docket(DocketFault::Memory)
    }
}

impl Key {
    /// A key without any names.
    pub(crate) fn none(alloc: Global) -> Key
        ensures { HasNoNames result.residents × HasNoNames result.programmes }
    {
        Key {
            residents: SideKey::none(alloc),
            programmes: SideKey::none(alloc),
        }
    }

    /// A key in which no member of the docket has a name yet.
    pub(crate) fn unnamed(alloc: Global, docket: &Docket) -> Result<Key, AllocError>
        ensures { IfOk result (λ key. both_of key ≡ unnamed docket.now) }
    {
        Ok(Key {
            residents: SideKey::empty(alloc, member_count(docket, Side::Residents))?,
            programmes: SideKey::empty(alloc, member_count(docket, Side::Programmes))?,
        })
    }

    /// The names in a key's rows: `P,programme,name` and `R,resident,name`, with an optional ID. Rows with only empty
    /// fields are skipped. The name of a member whom the docket lacks is kept, too, since a member of the docket may
    /// have the same name.
    #[inline(never)]
    pub(crate) fn read(
        alloc: Global,
        hash_keys: RandomState,
        docket: &Docket,
        key_bytes: &[u8],
    ) -> Result<Key, WhyFault>
        ensures key { IfOk result (λ key. IsKeyOf docket.now key_bytes.now (both_of key)) }
        ensures fault { IfErr result (IsKeyFault docket.now key_bytes.now) }
    {
        let numbers = MemberNumbers::of(alloc, hash_keys, docket)?;
        let mut key = Key::unnamed(alloc, docket)?;
        key.add_all(alloc, &numbers, key_bytes)?;
        let resident_labels = labels(alloc, hash_keys, docket, Side::Residents, &key.residents)?;
        let programme_labels = labels(alloc, hash_keys, docket, Side::Programmes, &key.programmes)?;
        key.residents.labels = resident_labels;
        key.programmes.labels = programme_labels;
        Ok(key)
    }

    // Adds each row of a key's bytes.
    fn add_all(
        &mut self,
        alloc: Global,
        numbers: &MemberNumbers,
        key_bytes: &[u8],
    ) -> Result<(), WhyFault>
        requires { AreNumbers numbers.now }
        ensures all { OnOk result
            (AddsAll numbers.now.docket.now key_bytes.now (both_of self.old) (both_of self.new)) }
        ensures fault { IfErr result (λ fault. (fault ≡ WhyFault.Docket DocketFault.Memory)
            ⊎ HasBadRow numbers.now.docket.now (both_of self.old) key_bytes.now fault) }
    {
        let mut reader = reader_over(alloc, delimiter_of(key_bytes), key_bytes)?;
        let mut row = ByteRecord::new(alloc);
        for rows_before in 0..u64::MAX {
            if !next_row(&mut reader, &mut row)? {
                return Ok(());
            }
            self.add(alloc, numbers, &row, rows_before + 1)?;
        }
        Err(WhyFault::Docket(DocketFault::Memory))
    }

    /// Adds one row, unless all fields of the row are empty.
    pub(crate) fn add(
        &mut self,
        alloc: Global,
        numbers: &MemberNumbers,
        row: &ByteRecord,
        row_number: u64,
    ) -> Result<(), WhyFault>
        requires { AreNumbers numbers.now }
        ensures row { OnOk result (both_of self.new
            ≡ added numbers.now.docket.now (both_of self.old) (fields_of row.now)) }
        ensures faultless { OnOk result (row_fault
            numbers.now.docket.now (both_of self.old) row_number (fields_of row.now) ≡ None) }
        ensures fault { IfErr result (IsFaultOrMemory
            (row_fault numbers.now.docket.now (both_of self.old) row_number (fields_of row.now))) }
    {
        match side_of_row(row) {
            Some(Side::Programmes) => self
                .programmes
                .add(alloc, numbers, Side::Programmes, row, row_number),
            Some(Side::Residents) => self
                .residents
                .add(alloc, numbers, Side::Residents, row, row_number),
            None if is_blank(row) => Ok(()),
            None => Err(WhyFault::BadKey { row_number }),
        }
    }
}
