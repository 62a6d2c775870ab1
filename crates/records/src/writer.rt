//! A writer of rows of CSV. The buffer is made before the first byte is written. From then on only the writer can fail.
ghost use Rattle.std.specs.Prelude.{◌≡◌, ◌∷◌, [], map, OnOk, IfOk};
ghost use Rattle.csv.specs.Writing.{needs_byte, needs_quotes, escaped, quoted, field_text, next_sep, is_blank as shows_nothing};
ghost use Rattle.records.specs.RowText.{Adds, IsOver, Writes, row_setup, row, row_end};

use std::alloc::{AllocError, Global};
use std::io::Write;

// The greatest number of bytes in the buffer.
const BUFFER_BYTES: usize = 16_384;

/// The writer failed.
#[derive(Clone, Copy, Debug, PartialEq, Eq)]
pub struct WriteFailed;

/// A buffer for rows on their way to a writer: 16,384 bytes. The buffer never grows.
pub fn room_for_rows(alloc: Global) -> Result<Vec<u8>, AllocError>
    ensures { IfOk result (λ room. room.items ≡ []) }
{
    let room = Vec::with_capacity(alloc, BUFFER_BYTES)?;
    Ok(room)
}

/// A writer, and a buffer with the rows on their way to this writer.
#[derive(Drop)]
pub struct RowWriter<'a, W> {
    writer: &'a mut W,
    buffer: &'a mut Vec<u8>,
}

// Whether a field that has this byte is written between quotes.
fn is_marked(byte: u8) -> bool
    ensures { result ≡ needs_byte row_setup byte }
{
    byte == b',' || byte == b'"' || byte == b'\r' || byte == b'\n'
}

// Whether this field is written between quotes.
fn is_quoted(field: &[u8]) -> bool
    ensures { result ≡ needs_quotes row_setup field.now }
{
    field.iter().any(|byte| is_marked(*byte))
}

// Whether a row of these fields would be written as an empty line. In such a row two quotes stand for the one empty
// field.
fn is_blank(fields: &[&[u8]]) -> bool
    ensures { result ≡ shows_nothing row_setup (map (λ f. f.now) fields.now) }
{
    if fields.len() == 1 {
        return fields[0].is_empty();
    }
    fields.is_empty()
}

impl<'a, W: Write> RowWriter<'a, W> {
    /// A row writer over this writer and this buffer. The buffer is emptied first.
    pub fn new(writer: &'a mut W, room: &'a mut Vec<u8>) -> RowWriter<'a, W>
        ensures { IsOver result writer.entry room.old.items }
    {
        RowWriter {
            writer,
            buffer: room,
        }
    }

    // Sends the buffer's bytes to the writer. These bytes then go into the buffer, or to the writer if they are
    // longer than the buffer. This is a function of its own, so that only `put`'s test for room is inlined.
    #[cold]
    #[inline(never)]
    fn flush_and_put(&mut self, bytes: &[u8]) -> Result<(), WriteFailed>
        ensures { OnOk result (Adds W.contents self.old self.new bytes.now) }
    {
        let Ok(()) = self.writer.write_all(self.buffer.as_slice()) else {
            return Err(WriteFailed);
        };
        self.buffer.clear();
        if bytes.len() <= self.buffer.capacity() {
            let Ok(()) = self.buffer.extend_from_slice(bytes) else {
                unreachable!("there is room")
            };
            return Ok(());
        }
        let Ok(()) = self.writer.write_all(bytes) else {
            return Err(WriteFailed);
        };
        Ok(())
    }

    // Adds these bytes to the buffer. If there is no room, the buffer's bytes go to the writer
    // first.
    #[inline]
    fn put(&mut self, bytes: &[u8]) -> Result<(), WriteFailed>
        ensures { OnOk result (Adds W.contents self.old self.new bytes.now) }
    {
        if bytes.len() > self.buffer.capacity() - self.buffer.len() {
            return self.flush_and_put(bytes);
        }
        let Ok(()) = self.buffer.extend_from_slice(bytes) else {
            unreachable!("there is room")
        };
        Ok(())
    }

    // Adds a byte of a quoted field. A quote is written twice.
    fn put_escaped(&mut self, byte: u8) -> Result<(), WriteFailed>
        ensures { OnOk result (Adds W.contents self.old self.new (escaped row_setup (byte ∷ []))) }
    {
        if byte == b'"' {
            self.put(b"\"\"")
        } else {
            self.put(&[byte])
        }
    }

    // Adds a field between quotes.
    #[cold]
    #[inline(never)]
    fn put_quoted(&mut self, field: &[u8]) -> Result<(), WriteFailed>
        ensures { OnOk result (Adds W.contents self.old self.new (quoted row_setup field.now)) }
    {
        self.put(b"\"")?;
        for i in 0..field.len() {
            self.put_escaped(field[i])?;
        }
        self.put(b"\"")
    }

    // Adds a field, between quotes if it needs them.
    #[inline]
    fn put_field(&mut self, field: &[u8]) -> Result<(), WriteFailed>
        ensures { OnOk result (Adds W.contents self.old self.new (field_text row_setup field.now)) }
    {
        if is_quoted(field) {
            self.put_quoted(field)
        } else {
            self.put(field)
        }
    }

    // Adds a comma before field `field_index`, unless the field is the first.
    #[inline]
    fn put_comma(&mut self, field_index: usize) -> Result<(), WriteFailed>
        ensures { OnOk result (Adds W.contents self.old self.new (next_sep row_setup field_index)) }
    {
        match field_index {
            0 => Ok(()),
            _ => self.put(b","),
        }
    }

    // Adds the end of the row that has these fields.
    fn put_end(&mut self, fields: &[&[u8]]) -> Result<(), WriteFailed>
        ensures { OnOk result
            (Adds W.contents self.old self.new (row_end (map (λ f. f.now) fields.now))) }
    {
        if is_blank(fields) {
            self.put(b"\"\"\n")
        } else {
            self.put(b"\n")
        }
    }

    /// Adds a row to the buffer. When the buffer is full, its bytes go to the writer.
    pub fn push(&mut self, fields: &[&[u8]]) -> Result<(), WriteFailed>
        ensures { OnOk result
            (Adds W.contents self.old self.new (row (map (λ f. f.now) fields.now))) }
    {
        for i in 0..fields.len() {
            self.put_comma(i)?;
            self.put_field(fields[i])?;
        }
        self.put_end(fields)
    }

    /// Sends the remaining bytes of the buffer to the writer.
    pub fn send(self) -> Result<(), WriteFailed>
        ensures { OnOk result
            (Writes W.contents self.entry.writer.now self.exit.0.now self.entry.buffer.now.items) }
    {
        let RowWriter { writer, buffer } = self;
        match writer.write_all(buffer.as_slice()) {
            Ok(()) => Ok(()),
            Err(_) => Err(WriteFailed),
        }
    }
}
