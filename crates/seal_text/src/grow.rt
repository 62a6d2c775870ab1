//! Texts that grow.
ghost use Rattle.std.specs.Prelude.{◌≡◌, OnOk, decimal, map};
ghost use Rattle.std.specs.Io.KnownBytes.{Appends};
ghost use Rattle.records.specs.Lines.{Grows};
ghost use Rattle.records.specs.RowText.{row};
ghost use Rattle.seal_text.specs.Sealed.{digest_field};

use docket::{DocketFault, RowWriter, room_for_rows};
use std::alloc::{AllocError, Global};
use std::io::Write;

/// Adds these bytes to the text.
#[inline]
pub(crate) fn put(text: &mut Vec<u8>, bytes: &[u8]) -> Result<(), AllocError>
    ensures { OnOk result (Grows text.old text.new bytes.now) }
{
    text.extend_from_slice(bytes)
}

/// Adds a number in decimal to the text.
pub(crate) fn put_number(text: &mut Vec<u8>, number: usize) -> Result<(), AllocError>
    ensures { OnOk result (Grows text.old text.new (decimal number)) }
{
    let mut number_buffer = itoa::Buffer::new();
    put(text, number_buffer.format(number).as_bytes())
}

// Writes a row with these fields.
fn write_row<W: Write>(alloc: Global, writer: &mut W, fields: &[&[u8]]) -> Result<(), DocketFault>
    ensures { OnOk result (Appends
        (W.contents writer.old) (W.contents writer.new) (row (map (λ f. f.now) fields.now))) }
{
    let mut row_buffer = room_for_rows(alloc)?;
    let mut rows = RowWriter::new(writer, &mut row_buffer);
    rows.push(fields)?;
    rows.send()?;
    Ok(())
}

/// Adds a row with these fields to the text.
pub(crate) fn put_row(alloc: Global, text: &mut Vec<u8>, fields: &[&[u8]]) -> Result<(), AllocError>
    ensures { OnOk result (Grows text.old text.new (row (map (λ f. f.now) fields.now))) }
{
    match write_row(alloc, text, fields) {
        Ok(()) => Ok(()),
        Err(_) => Err(AllocError),
    }
}

/// Adds a comma and a digest in hexadecimal.
pub(crate) fn put_digest(
    alloc: Global,
    text: &mut Vec<u8>,
    digest: &[u8; 32],
) -> Result<(), AllocError>
    ensures { OnOk result (Grows text.old text.new (digest_field digest.now)) }
{
    let digits = hex::encode(alloc, *digest)?;
    put(text, b",")?;
    put(text, digits.as_bytes())
}
