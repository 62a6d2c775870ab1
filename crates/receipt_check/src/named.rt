//! The real name of a member in a row of a receipt.
ghost use Rattle.std.specs.Prelude.{◌≡◌, ◌&&◌, IfOk, bytes_eq, not, ◌==◌};
ghost use Rattle.std.specs.List.{list_all};
ghost use Rattle.csv.specs.Records.{fields_of};
ghost use Rattle.receipt_check.specs.Named as named_row;
ghost use Rattle.receipt_check.specs.Shown.{fields_in};
ghost use Rattle.records.specs.Reading.{rows_of};

use crate::print::put_name;
use csv::ByteRecord;
use records::{field, next_row, put_line, reader_over};
use std::alloc::{AllocError, Global};

// Whether a real name or an ID can have the character.
fn can_be_shown(character: char) -> bool
    ensures { result ≡ named_row.is_shown character }
{
    let code = character as u32;
    32 <= code
        && !(127 <= code && code <= 159)
        && code != 1564
        && !(8206 <= code && code <= 8207)
        && !(8232 <= code && code <= 8238)
        && !(8294 <= code && code <= 8297)
}

// Whether a text between two commas can have the character.
fn fits_in_piece(character: char) -> bool
    ensures { result ≡ named_row.is_part character }
{
    can_be_shown(character) && character != ','
}

// Whether a text between two commas is UTF-8 and has only characters that it can have.
fn is_piece(piece: &[u8]) -> bool
    ensures { result ≡ named_row.is_piece piece.now }
{
    let Ok(text) = str::from_utf8(piece) else {
        return false;
    };
    text.chars().all(|character| fits_in_piece(character))
}

// Whether each of the texts between commas is UTF-8 and has only characters that it can have.
fn are_pieces(pieces: &[&[u8]]) -> bool
    ensures { result ≡ list_all named_row.is_piece (fields_in pieces.now) }
{
    pieces.iter().all(|piece| is_piece(*piece))
}

// The row of the real name as it is printed.
fn name_text(alloc: Global, name_pieces: &[&[u8]]) -> Result<Vec<u8>, AllocError>
    ensures { IfOk result (λ text. text.items ≡ named_row.name_text (fields_in name_pieces.now)) }
{
    let mut text = Vec::new(alloc);
    put_name(&mut text, name_pieces)?;
    Ok(text)
}

// The fields of the first row of these bytes, as csv reads them.
fn first_fields(alloc: Global, bytes: &[u8]) -> Result<ByteRecord, AllocError>
    ensures { IfOk result (λ row. fields_of row ≡ named_row.first_fields (rows_of bytes.now)) }
{
    let mut reader = reader_over(alloc, b',', bytes)?;
    let mut row = ByteRecord::new(alloc);
    match next_row(&mut reader, &mut row) {
        Ok(true) => Ok(row),
        Ok(false) => Ok(ByteRecord::new(alloc)),
        Err(_) => Err(AllocError),
    }
}

/// The fields of the row as `csv` reads them: `N`, the real name, and perhaps an ID.
#[tactic(auto, unfolding(crate::specs::Named::real_fields))]
pub(crate) fn real_fields(alloc: Global, name_pieces: &[&[u8]]) -> Result<ByteRecord, AllocError>
    ensures { IfOk result (λ row. fields_of row
        ≡ named_row.real_fields (fields_in name_pieces.now)) }
{
    let text = name_text(alloc, name_pieces)?;
    first_fields(alloc, text.as_slice())
}

// Whether the row is printed exactly as `csv` prints these fields.
fn is_printed(
    alloc: Global,
    name_pieces: &[&[u8]],
    name_record: &ByteRecord,
) -> Result<bool, AllocError>
    ensures { IfOk result (λ printed. printed ≡ named_row.is_printed
        (fields_in name_pieces.now) (fields_of name_record.now)) }
{
    let row_text = name_text(alloc, name_pieces)?;
    let mut printed_row = Vec::new(alloc);
    put_line(&mut printed_row, name_record)?;
    Ok(printed_row.as_slice() == row_text.as_slice())
}

// Whether the fields after the `N` are a real name, or a real name and an ID, and none is empty.
fn has_parts(name_record: &ByteRecord) -> bool
    ensures { result ≡ named_row.has_parts (fields_of name_record.now) }
{
    field(name_record, 1).len() != 0
        && (name_record.len() == 2 || name_record.len() == 3 && field(name_record, 2).len() != 0)
}

/// Whether the row is a right row of a real name.
#[tactic(auto, unfolding(crate::specs::Named::is_real))]
pub(crate) fn is_real(alloc: Global, name_pieces: &[&[u8]]) -> Result<bool, AllocError>
    ensures { IfOk result (λ real. real ≡ named_row.is_real (fields_in name_pieces.now)) }
{
    if !are_pieces(name_pieces) {
        return Ok(false);
    }
    let name_record = real_fields(alloc, name_pieces)?;
    if !is_printed(alloc, name_pieces, &name_record)? {
        return Ok(false);
    }
    Ok(has_parts(&name_record))
}
