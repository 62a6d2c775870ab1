//! The members' real names and IDs, as the office wrote them in its key.
ghost use Rattle.std.specs.Prelude.{◌≡◌, ◌⊎◌, [], IfErr, IfOk, None, OnOk, Some, chars, map, option_map, replicate, slice_index_or, slice_set};
ghost use Rattle.std.specs.List.{list_any};
ghost use Rattle.csv.specs.Records.{fields_of};
ghost use Rattle.reasons_text.specs.Keys.{AreKeyRows, added, unnamed};
ghost use Rattle.reasons_text.specs.Naming.{both_of};
ghost use Rattle.reasons_text.specs.Numbers.{AreNumbers};
ghost use Rattle.reasons_text.specs.RealNames.{AreRealIn, IsNamesFault, IsOutOfMemory, IsRealOf, nobody_named, real_fault, real_fault_from, real_in, with_first, with_row};
ghost use Rattle.reasons_text.specs.RealNames as spec;

use crate::delimiter::delimiter_of;
use crate::fault::WhyFault;
use crate::key::{Key, side_of_row};
use crate::naming::MemberNumbers;
use crate::side::{Side, member_count};
use csv::ByteRecord;
use docket::{Docket, DocketFault};
use match_model::{ProgrammeNo, ResidentNo};
use records::{field, next_row, reader_over};
use std::alloc::{AllocError, Global};
use std::hash::RandomState;
use std::marker::Model;
use std::random::RandomSource;
use thiserror::Error;

/// Why a key gives no names that can be sealed.
#[derive(Debug, PartialEq, Eq, Drop, Error)]
pub enum NamesFault {
    /// A row of the key is bad, or memory ran out.
    #[error(transparent)]
    Key(WhyFault),
    /// A name or an ID is no text, or has a character that is invisible or changes the direction of
    /// text.
    #[error("record {row_number} of the key: its name or ID has a hidden character")]
    Hidden {
        /// The number of the row, from 1.
        row_number: u64,
    },
    /// A name or an ID is longer than [`LONGEST_NAME`].
    #[error("record {row_number} of the key: its name or ID is longer than 10000 bytes")]
    Long {
        /// The number of the row, from 1.
        row_number: u64,
    },
}

/// The greatest length in bytes of a name or an ID that is sealed.
pub const LONGEST_NAME: usize = 10_000;

/// The real names that a key gives the members of a docket, each with the ID if there is one.
#[derive(Drop)]
pub struct RealNames {
    programmes: Vec<Option<ByteRecord>>,
    residents: Vec<Option<ByteRecord>>,
}

impl From<AllocError> for NamesFault {
    ghost use Rattle.docket.specs.declared.fault.DocketFault.TheVariants as docket_fault;
    ghost use Rattle.reasons_text.specs.declared.fault.WhyFault.TheVariants.{Docket};
    ghost use Rattle.reasons_text.specs.declared.real_names.NamesFault.TheVariants.{Key};

    ghost from_gives = { λ _ fault. fault ≡ Key (Docket docket_fault.Memory) };

    fn from(_error: AllocError) -> NamesFault {
        NamesFault::Key(WhyFault::Docket(DocketFault::Memory))
    }
}

// Whether the character is invisible or changes the direction of text: a control character, an end of a line or of a
// paragraph, or a mark of direction.
fn is_hidden(c: char) -> bool
    ensures { result ≡ spec.is_hidden c }
{
    c.is_control()
        || c == '\u{61c}'
        || (c >= '\u{200e}' && c <= '\u{200f}')
        || (c >= '\u{2028}' && c <= '\u{202e}')
        || (c >= '\u{2066}' && c <= '\u{2069}')
}

// Whether a text has a hidden character.
fn has_hidden(text: &str) -> bool
    ensures { result ≡ list_any spec.is_hidden (chars text.now) }
{
    for c in text.chars() {
        if is_hidden(c) {
            return true;
        }
    }
    false
}

// Whether the bytes are no text, or have a hidden character.
#[tactic(auto, unfolding(crate::specs::RealNames::is_unclear), using(crate::proofs::TextFacts::is_text, crate::proofs::TextFacts::no_text))]
fn is_unclear(text: &[u8]) -> bool
    ensures { result ≡ spec.is_unclear text.now }
{
    match str::from_utf8(text) {
        Ok(text) => has_hidden(text),
        Err(_) => true,
    }
}

// Whether a name or an ID has too many bytes to be sealed.
fn is_long(text: &[u8]) -> bool
    ensures { result ≡ spec.is_long text.now }
{
    text.len() > LONGEST_NAME
}

// The records of a key.
fn key_rows(alloc: Global, key_bytes: &[u8]) -> Result<Vec<ByteRecord>, AllocError>
    ensures { IfOk result (λ rows. AreKeyRows key_bytes.now (map fields_of rows.items)) }
{
    let mut reader = reader_over(alloc, delimiter_of(key_bytes), key_bytes)?;
    let mut rows = Vec::new(alloc);
    for _n in 0..u64::MAX {
        let mut row = ByteRecord::new(alloc);
        let Ok(has_row) = next_row(&mut reader, &mut row) else {
            return Err(AllocError);
        };
        if !has_row {
            return Ok(rows);
        }
        rows.push(row)?;
    }
    Err(AllocError)
}

// The real name in a key's row, and the ID if the row has one.
fn real_fields(alloc: Global, row: &ByteRecord) -> Result<ByteRecord, AllocError>
    ensures { IfOk result (λ name. fields_of name ≡ spec.real_fields (fields_of row.now)) }
{
    let mut real_name = ByteRecord::new(alloc);
    real_name.push_field(field(row, 2))?;
    if !field(row, 3).is_empty() {
        real_name.push_field(field(row, 3))?;
    }
    Ok(real_name)
}

// A vector of `side_size` entries without a name.
fn no_names(alloc: Global, side_size: u32) -> Result<Vec<Option<ByteRecord>>, AllocError>
    ensures { IfOk result (λ names. map real_in names.items ≡ replicate side_size None) }
{
    let mut names = Vec::new(alloc);
    for _n in 0..side_size {
        names.push(None)?;
    }
    Ok(names)
}

// The real name of the member with this number, or none.
fn name_at(names: &[Option<ByteRecord>], member: usize) -> Option<&ByteRecord>
    ensures { option_map (λ real_name. fields_of real_name.now) result
        ≡ slice_index_or (map real_in names.now) member None }
{
    match names.get(member) {
        Some(Some(real_name)) => Some(real_name),
        _ => None,
    }
}

// Puts a real name at index `member`, if there is such an index.
fn put(names: &mut Vec<Option<ByteRecord>>, member: usize, real_name: ByteRecord)
    ensures { map real_in names.new.items
        ≡ slice_set (map real_in names.old.items) member (Some (fields_of real_name)) }
{
    if let Some(slot) = names.get_mut(member) {
        *slot = Some(real_name);
    }
}

// Gives a member a real name, unless an earlier row gave the member one.
#[tactic(auto, using(crate::proofs::RealFacts::is_none_too))]
fn note(names: &mut Vec<Option<ByteRecord>>, member: usize, real_name: ByteRecord)
    ensures { map real_in names.new.items
        ≡ with_first (map real_in names.old.items) (Some member) (fields_of real_name) }
{
    if name_at(names.as_slice(), member).is_none() {
        put(names, member, real_name);
    }
}

impl Model for RealNames {
    ghost use Rattle.std.specs.Prelude.{map};
    ghost use Rattle.reasons_text.specs.RealNames.{Real, real_in};

    ghost Value = { Real };

    ghost view = { λ real_names. record {
      programmes = map real_in real_names.programmes.items;
      residents = map real_in real_names.residents.items;
    } };
}

impl RealNames {
    /// Real names in which nobody has a name.
    pub fn none(alloc: Global) -> RealNames
        ensures { result ≡ nobody_named }
    {
        RealNames {
            programmes: Vec::new(alloc),
            residents: Vec::new(alloc),
        }
    }

    // The real names of a docket's members before any row of a key: nobody has a name.
    fn unnamed(alloc: Global, docket: &Docket) -> Result<RealNames, AllocError>
        ensures { IfOk result (AreRealIn docket.now []) }
    {
        Ok(RealNames {
            programmes: no_names(alloc, member_count(docket, Side::Programmes))?,
            residents: no_names(alloc, member_count(docket, Side::Residents))?,
        })
    }

    /// The real names in a key's rows, as `residency-why` reads keys. It is a fault if a row is bad, or if a name
    /// or an ID has a hidden character or more than 10,000 bytes. Names are hashed with keys that the runtime
    /// draws.
    pub fn read<H: RandomSource>(
        rt: &H,
        alloc: Global,
        docket: &Docket,
        key_bytes: &[u8],
    ) -> Result<RealNames, NamesFault>
        ensures names { IfOk result (IsRealOf docket.now key_bytes.now) }
        ensures fault { IfErr result (IsNamesFault docket.now key_bytes.now) }
    {
        let Ok(hash_keys) = RandomState::new(rt) else {
            return Err(NamesFault::Key(WhyFault::Docket(DocketFault::Read { place: 1 })));
        };
        let rows = key_rows(alloc, key_bytes)?;
        let numbers = MemberNumbers::of(alloc, hash_keys, docket)?;
        names_in_rows(alloc, &numbers, docket, rows.as_slice())
    }

    // Adds the real name in one row of a key.
    fn add(
        &mut self,
        alloc: Global,
        numbers: &MemberNumbers,
        row: &ByteRecord,
    ) -> Result<(), AllocError>
        requires { AreNumbers numbers.now }
        ensures { OnOk result
            (self.new ≡ with_row numbers.now.docket.now self.old (fields_of row.now)) }
    {
        let Some(side) = side_of_row(row) else {
            return Ok(());
        };
        let Some(member) = numbers.number(side, field(row, 1)) else {
            return Ok(());
        };
        let real_name = real_fields(alloc, row)?;
        match side {
            Side::Programmes => note(&mut self.programmes, member as usize, real_name),
            Side::Residents => note(&mut self.residents, member as usize, real_name),
        }
        Ok(())
    }

    /// The real name of a programme, if the key names it.
    pub fn programme(&self, programme: ProgrammeNo) -> Option<&ByteRecord>
        ensures { option_map (λ real_name. fields_of real_name.now) result
            ≡ slice_index_or self.now.programmes programme None }
    {
        name_at(self.programmes.as_slice(), programme.0 as usize)
    }

    /// The real name of a resident, if the key names the resident.
    pub fn resident(&self, resident: ResidentNo) -> Option<&ByteRecord>
        ensures { option_map (λ real_name. fields_of real_name.now) result
            ≡ slice_index_or self.now.residents resident None }
    {
        name_at(self.residents.as_slice(), resident.0 as usize)
    }
}

// Tests a row of a key whose earlier rows gave these names, and adds the row's name to them.
fn test_row(
    alloc: Global,
    numbers: &MemberNumbers,
    key: &mut Key,
    row: &ByteRecord,
    row_number: u64,
) -> Result<(), NamesFault>
    requires { AreNumbers numbers.now }
    ensures row { OnOk result (both_of key.new
        ≡ added numbers.now.docket.now (both_of key.old) (fields_of row.now)) }
    ensures faultless { OnOk result (real_fault
        numbers.now.docket.now (both_of key.old) row_number (fields_of row.now) ≡ None) }
    ensures fault { IfErr result (λ fault. IsOutOfMemory fault ⊎ (real_fault
        numbers.now.docket.now (both_of key.old) row_number (fields_of row.now) ≡ Some fault)) }
{
    if let Err(fault) = key.add(alloc, numbers, row, row_number) {
        return Err(NamesFault::Key(fault));
    }
    if is_unclear(field(row, 2)) || is_unclear(field(row, 3)) {
        return Err(NamesFault::Hidden { row_number });
    }
    if is_long(field(row, 2)) || is_long(field(row, 3)) {
        return Err(NamesFault::Long { row_number });
    }
    Ok(())
}

// The real names that all rows of a key give.
fn names_in_rows(
    alloc: Global,
    numbers: &MemberNumbers,
    docket: &Docket,
    rows: &[ByteRecord],
) -> Result<RealNames, NamesFault>
    requires numbers { AreNumbers numbers.now }
    requires docket { numbers.now.docket.now ≡ docket.now }
    ensures names { IfOk result (AreRealIn docket.now (map fields_of rows.now)) }
    ensures faultless { OnOk result
        (real_fault_from docket.now (unnamed docket.now) 0 (map fields_of rows.now) ≡ None) }
    ensures fault { IfErr result (λ fault. IsOutOfMemory fault ⊎ (real_fault_from
        docket.now (unnamed docket.now) 0 (map fields_of rows.now) ≡ Some fault)) }
{
    let mut key = Key::unnamed(alloc, docket)?;
    let mut names = RealNames::unnamed(alloc, docket)?;
    for k in 0..rows.len() {
        let row = &rows[k];
        match test_row(alloc, numbers, &mut key, row, k as u64 + 1) {
            Ok(()) => {}
            Err(fault) => return Err(fault),
        }
        names.add(alloc, numbers, row)?;
    }
    Ok(names)
}
