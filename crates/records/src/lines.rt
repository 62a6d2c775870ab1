//! How records are written one after another, each on its own line.
ghost use Rattle.std.specs.Prelude.{◌≡◌, ◌∷◌, [], OnOk};
ghost use Rattle.csv.specs.Records.{fields_of};
ghost use Rattle.csv.specs.Writing.{needs_byte, needs_quotes, escaped, quoted, field_text, next_sep, default_writer};
ghost use Rattle.records.specs.Lines.{Grows, line};

use crate::reading::field;
use csv::ByteRecord;
use std::alloc::AllocError;

// Whether a field that has this byte is written between quotes.
fn is_marked(byte: u8) -> bool
    ensures { result ≡ needs_byte default_writer byte }
{
    byte == b',' || byte == b'"' || byte == b'\r' || byte == b'\n'
}

// Whether this field is written between quotes.
fn is_quoted(field: &[u8]) -> bool
    ensures { result ≡ needs_quotes default_writer field.now }
{
    field.iter().any(|byte| is_marked(*byte))
}

// Adds these bytes to the text.
#[inline]
fn put(text: &mut Vec<u8>, bytes: &[u8]) -> Result<(), AllocError>
    ensures { OnOk result (Grows text.old text.new bytes.now) }
{
    text.extend_from_slice(bytes)
}

// Adds a byte of a quoted field. A quote is written twice.
fn put_escaped(text: &mut Vec<u8>, byte: u8) -> Result<(), AllocError>
    ensures { OnOk result (Grows text.old text.new (escaped default_writer (byte ∷ []))) }
{
    if byte == b'"' {
        put(text, b"\"\"")
    } else {
        put(text, &[byte])
    }
}

// Adds a field between quotes.
#[cold]
#[inline(never)]
fn put_quoted(text: &mut Vec<u8>, field: &[u8]) -> Result<(), AllocError>
    ensures { OnOk result (Grows text.old text.new (quoted default_writer field.now)) }
{
    put(text, b"\"")?;
    for i in 0..field.len() {
        put_escaped(text, field[i])?;
    }
    put(text, b"\"")
}

// Adds a field, between quotes if it needs them.
#[inline]
fn put_field(text: &mut Vec<u8>, field: &[u8]) -> Result<(), AllocError>
    ensures { OnOk result (Grows text.old text.new (field_text default_writer field.now)) }
{
    if is_quoted(field) {
        put_quoted(text, field)
    } else {
        put(text, field)
    }
}

// Adds a comma in front of field `field_index`, unless the field is the first.
#[inline]
fn put_comma(text: &mut Vec<u8>, field_index: usize) -> Result<(), AllocError>
    ensures { OnOk result (Grows text.old text.new (next_sep default_writer field_index)) }
{
    match field_index {
        0 => Ok(()),
        _ => put(text, b","),
    }
}

/// Adds a record and a line feed to the text. Fields that need quotes get them.
pub fn put_line(text: &mut Vec<u8>, row: &ByteRecord) -> Result<(), AllocError>
    ensures { OnOk result (Grows text.old text.new (line (fields_of row.now))) }
{
    for i in 0..row.len() {
        put_comma(text, i)?;
        put_field(text, field(row, i))?;
    }
    put(text, b"\n")
}
