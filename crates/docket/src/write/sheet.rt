//! How a sheet is written.
ghost use Rattle.std.specs.Prelude.{◌≡◌, ◌≢◌, ◌⊎◌, ◌<◌, ℕ, length, OnOk, IfOk, IfErr, Some, Option, List};
ghost use Rattle.match_model.specs.Instance.{IsProgramme, IsResident};
ghost use Rattle.match_model.specs.Placement.{IsMemberOf};
ghost use Rattle.docket.specs.Whole.{IsSheetOf};
ghost use Rattle.records.specs.RowText.{Adds, Keeps, Writes};
ghost use Rattle.docket.specs.Texts.{sheet_text, mark_row, programme_row, resident_rows, filled_rows, AreCountsOf};

use crate::docket::Docket;
use crate::fault::DocketFault;
use crate::vocabulary::{FILLED, MATCHED, UNMATCHED};
use crate::write::room_for_rows;
use match_model::{Assignment, ProgrammeNo, ResidentNo};
use records::{RowWriter, WriteFailed};
use std::alloc::{AllocError, Global};
use std::io::Write;

// Adds the M or U row of this resident.
fn push_mark<W: Write>(
    rows: &mut RowWriter<'_, W>,
    docket: &Docket,
    resident: ResidentNo,
    programme: Option<ProgrammeNo>,
) -> Result<(), WriteFailed>
    requires resident { IsResident docket.now.instance resident }
    requires programme { (p : ℕ) → programme ≡ Some p → IsProgramme docket.now.instance p }
    ensures { OnOk result
        (Adds W.contents rows.old rows.new (mark_row docket.now resident programme)) }
{
    let name = docket.resident_name(resident).as_bytes();
    match programme {
        Some(programme) => rows.push(&[
            &[MATCHED],
            name,
            docket.programme_name(programme).as_bytes(),
        ]),
        None => rows.push(&[&[UNMATCHED], name]),
    }
}

// For each programme, the number of its residents.
fn member_counts(
    alloc: Global,
    programmes: usize,
    assignment: &Assignment,
) -> Result<Vec<u32>, AllocError>
    requires { (r p : ℕ) → IsMemberOf assignment.now r p → p < programmes }
    ensures length { IfOk result (λ counts. length counts.items ≡ programmes) }
    ensures counts { IfOk result (λ counts. AreCountsOf assignment.now counts.items programmes) }
{
    let mut counts = vec![in alloc; 0u32; programmes]?;
    for r in 0..assignment.len() {
        if let Some(programme) = assignment.get(ResidentNo(r)) {
            counts[programme.0 as usize] += 1;
        }
    }
    Ok(counts)
}

// Adds an M or U row for each resident.
fn push_residents<W: Write>(
    rows: &mut RowWriter<'_, W>,
    docket: &Docket,
    assignment: &Assignment,
) -> Result<(), WriteFailed>
    requires sheet { IsSheetOf docket.now assignment.now }
    ensures { OnOk result
        (Adds W.contents rows.old rows.new (resident_rows docket.now assignment.now)) }
{
    for r in 0..docket.instance().residents() {
        let resident = ResidentNo(r);
        push_mark(rows, docket, resident, assignment.get(resident))?;
    }
    Ok(())
}

/// Adds the fields of a programme's row: its kind, the programme's name, the number of the programme's residents, and
/// the quota.
///
/// The programme is a member.
pub fn push_programme<W: Write>(
    rows: &mut RowWriter<'_, W>,
    docket: &Docket,
    kind: &[u8],
    programme: ProgrammeNo,
    filled: u32,
) -> Result<(), WriteFailed>
    requires { IsProgramme docket.now.instance programme }
    ensures { OnOk result
        (Adds W.contents rows.old rows.new (programme_row docket.now kind.now programme filled)) }
{
    let (mut quota_buffer, mut filled_buffer) = (itoa::Buffer::new(), itoa::Buffer::new());
    let quota = quota_buffer
        .format(docket.instance().quota(programme))
        .as_bytes();
    let filled = filled_buffer.format(filled).as_bytes();
    let name = docket.programme_name(programme).as_bytes();
    rows.push(&[kind, name, filled, quota])
}

// Adds an F row for each programme.
fn push_programmes<W: Write>(
    rows: &mut RowWriter<'_, W>,
    docket: &Docket,
    filled_counts: &[u32],
) -> Result<(), WriteFailed>
    requires counts { length filled_counts.now ≡ length docket.now.programmes }
    ensures { OnOk result ((assignment : List (Option ℕ))
        → AreCountsOf assignment filled_counts.now (length docket.now.programmes)
        → Adds W.contents rows.old rows.new (filled_rows docket.now assignment)) }
{
    for p in 0..docket.instance().programmes() {
        push_programme(
            rows,
            docket,
            &[FILLED],
            ProgrammeNo(p),
            filled_counts[p as usize],
        )?;
    }
    Ok(())
}

/// Adds the sheet of an assignment to rows on their way to a writer: a row for each resident, and then a row for each
/// programme.
///
/// The assignment has an entry for each resident, and only programmes of the docket. The faults are `Memory` and
/// `Write`. If the fault is not the writer's, nothing was written.
pub fn push_sheet<W: Write>(
    alloc: Global,
    rows: &mut RowWriter<'_, W>,
    docket: &Docket,
    assignment: &Assignment,
) -> Result<(), DocketFault>
    requires { IsSheetOf docket.now assignment.now }
    ensures rows { OnOk result
        (Adds W.contents rows.old rows.new (sheet_text docket.now assignment.now)) }
    ensures fault { IfErr result (λ fault. (fault ≡ DocketFault.Memory)
        ⊎ (fault ≡ DocketFault.Write)) }
    ensures before { IfErr result (λ fault. fault ≢ DocketFault.Write → Keeps rows.old rows.new) }
{
    let programmes = docket.instance().programmes() as usize;
    let counts = member_counts(alloc, programmes, assignment)?;
    push_residents(rows, docket, assignment)?;
    push_programmes(rows, docket, counts.as_slice())?;
    Ok(())
}

/// Writes the sheet of an assignment, as `push_sheet` describes. If the fault is not the writer's, nothing was written.
pub fn write_sheet<W: Write>(
    alloc: Global,
    docket: &Docket,
    assignment: &Assignment,
    writer: &mut W,
) -> Result<(), DocketFault>
    requires { IsSheetOf docket.now assignment.now }
    ensures ok { OnOk result
        (Writes W.contents writer.old writer.new (sheet_text docket.now assignment.now)) }
    ensures fault { IfErr result (λ fault. (fault ≡ DocketFault.Memory)
        ⊎ (fault ≡ DocketFault.Write)) }
    ensures before { IfErr result (λ fault. fault ≢ DocketFault.Write → writer.new ≡ writer.old) }
{
    let mut row_buffer = room_for_rows(alloc)?;
    let mut rows = RowWriter::new(writer, &mut row_buffer);
    push_sheet(alloc, &mut rows, docket, assignment)?;
    rows.send()?;
    Ok(())
}
