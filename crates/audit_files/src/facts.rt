//! The facts about the files: their digests, the numbers of members, and the withdrawn members.
ghost use Rattle.std.specs.Prelude.{◌≡◌, ◌≤◌, ◌++◌, OnOk, option_copied, codes, length};
ghost use Rattle.records.specs.Lines.{Grows};
ghost use Rattle.match_model.specs.Instance.{IsProgramme, IsResident};
ghost use Rattle.docket.specs.Texts.{programme_name, resident_name};
ghost use Rattle.audit_files.specs.Rows as spec;

use crate::rows::put_long_row;
use docket::Docket;
use match_model::{ProgrammeNo, ResidentNo};
use sha2::{Digest, Sha256};
use std::alloc::{AllocError, Global};

// Adds the row with a file's digest.
fn put_digest(
    alloc: Global,
    facts_text: &mut Vec<u8>,
    part: &[u8],
    bytes: &[u8],
) -> Result<(), AllocError>
    ensures { OnOk result
        (Grows facts_text.old facts_text.new (spec.digest_row part.now bytes.now)) }
{
    let digest = Sha256::digest(bytes);
    let digits = hex::encode(alloc, digest)?;
    put_long_row(facts_text, b"H", part, digits.as_bytes())
}

// Adds the row with the digest of the journal's file, if there is a journal.
fn put_journal_digest(
    alloc: Global,
    facts_text: &mut Vec<u8>,
    journal: Option<&[u8]>,
) -> Result<(), AllocError>
    ensures { OnOk result
        (Grows facts_text.old facts_text.new (spec.journal_digest_row (option_copied
        journal.entry))) }
{
    match journal {
        Some(bytes) => put_digest(alloc, facts_text, b"journal", bytes),
        None => Ok(()),
    }
}

// Adds the row with the numbers of programmes and residents.
fn put_members(facts_text: &mut Vec<u8>, docket: &Docket) -> Result<(), AllocError>
    ensures { OnOk result (Grows facts_text.old facts_text.new (spec.members_row docket.now)) }
{
    let (mut programme_buffer, mut resident_buffer) = (itoa::Buffer::new(), itoa::Buffer::new());
    let programme_digits = programme_buffer.format(docket.instance().programmes());
    let resident_digits = resident_buffer.format(docket.instance().residents());
    put_long_row(
        facts_text,
        b"T",
        programme_digits.as_bytes(),
        resident_digits.as_bytes(),
    )
}

// Adds the row of a programme, if the programme is withdrawn.
fn put_programme(
    facts_text: &mut Vec<u8>,
    docket: &Docket,
    programme: ProgrammeNo,
) -> Result<(), AllocError>
    requires { IsProgramme docket.now.instance programme }
    ensures { OnOk result (Grows facts_text.old facts_text.new (spec.withdrawn_row (codes "P")
        (programme_name docket.now) docket.now.instance.programmes_withdrawn programme)) }
{
    let same_programme = programme;
    if docket.instance().programme_withdrawn(programme) {
        put_long_row(
            facts_text,
            b"W",
            b"P",
            docket.programme_name(same_programme).as_bytes(),
        )
    } else {
        Ok(())
    }
}

// Adds the row of a resident, if the resident is withdrawn.
fn put_resident(
    facts_text: &mut Vec<u8>,
    docket: &Docket,
    resident: ResidentNo,
) -> Result<(), AllocError>
    requires { IsResident docket.now.instance resident }
    ensures { OnOk result (Grows facts_text.old facts_text.new (spec.withdrawn_row (codes "R")
        (resident_name docket.now) docket.now.instance.residents_withdrawn resident)) }
{
    let same_resident = resident;
    if docket.instance().resident_withdrawn(resident) {
        put_long_row(
            facts_text,
            b"W",
            b"R",
            docket.resident_name(same_resident).as_bytes(),
        )
    } else {
        Ok(())
    }
}

// Adds the rows of the withdrawn programmes.
fn put_programmes(facts_text: &mut Vec<u8>, docket: &Docket) -> Result<(), AllocError>
    ensures { OnOk result (Grows facts_text.old facts_text.new (spec.withdrawn_rows
        (codes "P") (programme_name docket.now) docket.now.instance.programmes_withdrawn
        (length docket.now.instance.quotas))) }
{
    for p in 0..docket.instance().programmes() {
        put_programme(facts_text, docket, ProgrammeNo(p))?;
    }
    Ok(())
}

// Adds the rows of the withdrawn residents.
fn put_residents(facts_text: &mut Vec<u8>, docket: &Docket) -> Result<(), AllocError>
    ensures { OnOk result (Grows facts_text.old facts_text.new (spec.withdrawn_rows
        (codes "R") (resident_name docket.now) docket.now.instance.residents_withdrawn
        (length docket.now.instance.resident_lists))) }
{
    for r in 0..docket.instance().residents() {
        put_resident(facts_text, docket, ResidentNo(r))?;
    }
    Ok(())
}

/// Adds all rows of facts about the files.
pub(crate) fn put_facts(
    alloc: Global,
    facts_text: &mut Vec<u8>,
    docket: &Docket,
    docket_bytes: &[u8],
    sheet: &[u8],
    journal: Option<&[u8]>,
) -> Result<(), AllocError>
    ensures { OnOk result (Grows facts_text.old facts_text.new
        (spec.facts_text docket.now docket_bytes.now sheet.now (option_copied journal.entry))) }
{
    put_digest(alloc, facts_text, b"docket", docket_bytes)?;
    put_digest(alloc, facts_text, b"sheet", sheet)?;
    put_journal_digest(alloc, facts_text, journal)?;
    put_members(facts_text, docket)?;
    put_programmes(facts_text, docket)?;
    put_residents(facts_text, docket)
}
