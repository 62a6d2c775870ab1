//! How the records of bytes are read, one after another.
ghost use Rattle.std.specs.Prelude.{◌≡◌, true, option_map, IfOk};
ghost use Rattle.csv.specs.Reading.{ReadRecord, reader_config, reader_state, source_of, strip_bom};
ghost use Rattle.csv.specs.Records.{fields_of};
ghost use Rattle.csv.specs.declared.parser.State.TheVariants as st;
ghost use Rattle.records.specs.Reading.{GivesRow, IsSource, marked, rows_by, rows_left, field as field_in};

use csv::{ByteRecord, ErrorKind, Reader, ReaderBuilder};
use std::alloc::{AllocError, Global};
use std::io::Read;

/// Why a record could not be read.
#[derive(Clone, Copy, Debug, PartialEq, Eq)]
pub enum ReadFailed {
    /// The source failed. A read that would block is a failure too.
    Source,
    /// The memory could not grow.
    Memory,
}

/// Field `i` of a record, counted from 0, or an empty field past the record's end.
#[tactic(auto, unfolding(crate::specs::Reading::field))]
pub fn field(row: &ByteRecord, i: usize) -> &[u8]
    ensures { result.now ≡ field_in (fields_of row.now) i }
{
    match row.get(i) {
        Some(text) => text,
        None => &[],
    }
}

/// A reader of the records of a source, with this mark between fields. Records may have any number of fields.
///
/// Without a header row, a csv reader stores two further copies of the first record, however long that record is. So this
/// reader gets an empty header row, and reads the first record like any other record.
pub fn reader_over<R: Read + Drop>(
    alloc: Global,
    delimiter: u8,
    source: R,
) -> Result<Reader<R>, AllocError>
    ensures reading { IfOk result IsSource }
    ensures config { IfOk result (λ reader. reader_config reader ≡ marked delimiter) }
    ensures left { IfOk result (λ reader.
        rows_left R.remaining reader ≡ option_map (rows_by delimiter) (R.remaining source)) }

    // No record was read, and all bytes are left, apart from a byte order mark.
    ensures state { IfOk result (λ reader. reader_state reader ≡ st.StartRecord) }
    ensures source { IfOk result (λ reader.
        source_of R.remaining reader ≡ option_map strip_bom (R.remaining source)) }
{
    let mut reader = ReaderBuilder::new()
        .delimiter(delimiter)
        .flexible(true)
        .from_reader(alloc, source);
    let Ok(()) = reader.set_byte_headers(ByteRecord::new(alloc)) else {
        return Err(AllocError);
    };
    Ok(reader)
}

/// Reads the next record, and returns whether there was one.
pub fn next_row<R: Read>(reader: &mut Reader<R>, row: &mut ByteRecord) -> Result<bool, ReadFailed>
    requires reading { IsSource reader.old }
    ensures reading { IfOk result (λ has_row. has_row ≡ true → IsSource reader.new) }
    ensures gives { IfOk result (λ has_row. GivesRow (rows_left R.remaining reader.old)
        (rows_left R.remaining reader.new) has_row (fields_of row.new)) }

    // What the read does by the contracts of `csv`, whether or not the bytes are known.
    ensures reads { IfOk result (λ has_row.
        ReadRecord R.remaining reader.old reader.new has_row (fields_of row.new)) }
{
    let read_result = reader.read_byte_record(row);
    match &read_result {
        Ok(has_row) => Ok(*has_row),
        Err(error) => match error.kind() {
            ErrorKind::Io(_) => Err(ReadFailed::Source),
            // a reader that accepts records of any length, read as bytes, returns only the last of these errors
            ErrorKind::Utf8 { .. }
            | ErrorKind::UnequalLengths { .. }
            | ErrorKind::Serialize(_)
            | ErrorKind::Deserialize { .. }
            | ErrorKind::OutOfMemory => Err(ReadFailed::Memory),
        },
    }
}
