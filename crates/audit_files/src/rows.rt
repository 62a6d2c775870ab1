//! The rows that an audit over files writes besides the rows of an audit and of a replay.
ghost use Rattle.std.specs.Prelude.{◌≡◌, ℕ, OnOk};
ghost use Rattle.records.specs.Lines.{Grows};
ghost use Rattle.audit_files.specs.Rows as spec;
ghost use Rattle.match_model.specs.Instance.{IsResident};

use docket::Docket;
use match_model::ResidentNo;
use std::alloc::AllocError;

/// Adds these bytes to the text.
#[inline]
pub(crate) fn put(text: &mut Vec<u8>, bytes: &[u8]) -> Result<(), AllocError>
    ensures { OnOk result (Grows text.old text.new bytes.now) }
{
    text.extend_from_slice(bytes)
}

/// Adds a row with a letter and one field.
pub(crate) fn put_row(text: &mut Vec<u8>, letter: &[u8], field: &[u8]) -> Result<(), AllocError>
    ensures { OnOk result (Grows text.old text.new (spec.short_row letter.now field.now)) }
{
    put(text, letter)?;
    put(text, b",")?;
    put(text, field)?;
    put(text, b"\n")
}

/// Adds a row with a letter and two fields.
pub(crate) fn put_long_row(
    text: &mut Vec<u8>,
    letter: &[u8],
    first_field: &[u8],
    second_field: &[u8],
) -> Result<(), AllocError>
    ensures { OnOk result
        (Grows text.old text.new (spec.long_row letter.now first_field.now second_field.now)) }
{
    put(text, letter)?;
    put(text, b",")?;
    put(text, first_field)?;
    put(text, b",")?;
    put(text, second_field)?;
    put(text, b"\n")
}

/// Adds the row about the match's result: that the sheet is the result, or the first resident for whom the sheet
/// differs from it.
pub(crate) fn put_result(
    text: &mut Vec<u8>,
    docket: &Docket,
    differing_resident: Option<ResidentNo>,
) -> Result<(), AllocError>
    requires { (r : ℕ) → differing_resident ≡ Some r → IsResident docket.now.instance r }
    ensures { OnOk result
        (Grows text.old text.new (spec.result_row docket.now differing_resident)) }
{
    match differing_resident {
        None => put_row(text, b"Y", b"result"),
        Some(resident) => put_row(text, b"D", docket.resident_name(resident).as_bytes()),
    }
}
