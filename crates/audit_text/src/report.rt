//! How the findings of an audit are written.
ghost use Rattle.std.specs.Prelude.{◌≡◌, ◌≢◌, ◌++◌, OnOk, IfErr};
ghost use Rattle.std.specs.List.{All, flat_map};
ghost use Rattle.match_model.specs.Instance.{IsProgramme};
ghost use Rattle.records.specs.RowText.{Adds, Writes};
ghost use Rattle.audit_text.specs.Report.{report_text, stability_row, pair_row, over_row, IsPairOf, IsReportOf};
ghost use Rattle.audit_text.specs.Serving.{IsWriteFault};

use docket::{Docket, DocketFault, RowWriter, WriteFailed, push_programme, room_for_rows};
use match_audit::AuditReport;
use match_model::{ProgrammeNo, ResidentNo};
use std::alloc::Global;
use std::io::Write;

// Adds a row with a resident and a programme.
fn push_pair<W: Write>(
    rows: &mut RowWriter<'_, W>,
    docket: &Docket,
    letter: &[u8],
    resident: ResidentNo,
    programme: ProgrammeNo,
) -> Result<(), WriteFailed>
    requires members { IsPairOf docket.now (resident, programme) }
    ensures { OnOk result
        (Adds W.contents rows.old rows.new (pair_row docket.now letter.now (resident, programme))) }
{
    let resident = docket.resident_name(resident).as_bytes();
    let programme = docket.programme_name(programme).as_bytes();
    rows.push(&[letter, resident, programme])
}

// Adds a row for each pair.
fn push_pairs<W: Write>(
    rows: &mut RowWriter<'_, W>,
    docket: &Docket,
    letter: &[u8],
    pairs: &[(ResidentNo, ProgrammeNo)],
) -> Result<(), WriteFailed>
    requires members { All (IsPairOf docket.now) pairs.now }
    ensures { OnOk result
        (Adds W.contents rows.old rows.new (flat_map (pair_row docket.now letter.now) pairs.now)) }
{
    for (resident, programme) in pairs {
        push_pair(rows, docket, letter, *resident, *programme)?;
    }
    Ok(())
}

// Adds a row for each programme over its quota.
fn push_over_quota<W: Write>(
    rows: &mut RowWriter<'_, W>,
    docket: &Docket,
    over_quota: &[(ProgrammeNo, u32)],
) -> Result<(), WriteFailed>
    requires members { All (λ over. IsProgramme docket.now.instance over.0) over_quota.now }
    ensures { OnOk result
        (Adds W.contents rows.old rows.new (flat_map (over_row docket.now) over_quota.now)) }
{
    for (programme, filled) in over_quota {
        push_programme(rows, docket, b"O", *programme, *filled)?;
    }
    Ok(())
}

// Adds the row `S,stable` or `S,unstable`.
fn push_stability<W: Write>(
    rows: &mut RowWriter<'_, W>,
    report: &AuditReport,
) -> Result<(), WriteFailed>
    ensures { OnOk result (Adds W.contents rows.old rows.new (stability_row report.now)) }
{
    if report.is_stable() {
        rows.push(&[b"S", b"stable"])
    } else {
        rows.push(&[b"S", b"unstable"])
    }
}

// Adds the rows of a report.
fn push_report<W: Write>(
    rows: &mut RowWriter<'_, W>,
    docket: &Docket,
    report: &AuditReport,
) -> Result<(), WriteFailed>
    requires { IsReportOf docket.now report.now }
    ensures { OnOk result (Adds W.contents rows.old rows.new (report_text docket.now report.now)) }
{
    push_stability(rows, report)?;
    push_pairs(rows, docket, b"X", report.unacceptable.as_slice())?;
    push_over_quota(rows, docket, report.over.as_slice())?;
    push_pairs(rows, docket, b"B", report.blocking.as_slice())
}

/// Writes what an audit found: whether the sheet is stable, the unacceptable pairs, the programmes over their quota,
/// and the blocking pairs.
///
/// The report names only members of the docket. If the fault is not the writer's, nothing was written.
pub fn write_report<W: Write>(
    alloc: Global,
    docket: &Docket,
    report: &AuditReport,
    writer: &mut W,
) -> Result<(), DocketFault>
    requires { IsReportOf docket.now report.now }
    ensures ok { OnOk result
        (Writes W.contents writer.old writer.new (report_text docket.now report.now)) }
    ensures fault { IfErr result IsWriteFault }
    ensures before { IfErr result (λ fault. fault ≢ DocketFault.Write → writer.new ≡ writer.old) }
{
    let mut row_buffer = room_for_rows(alloc)?;
    let mut rows = RowWriter::new(writer, &mut row_buffer);
    push_report(&mut rows, docket, report)?;
    rows.send()?;
    Ok(())
}
