//! What keeps a placement from being stable.
ghost use Rattle.std.specs.Prelude.{◌≡◌, ◌≢◌, ◌↔◌, length, IfOk, IsErrOf};
ghost use Rattle.match_audit.specs.Report.{Reports};
ghost use Rattle.match_audit.specs.declared.auditor.AuditFault.TheVariants.{Memory};

use crate::findings::{blocking_pairs, over_quota, unacceptable_pairs};
use crate::load::loads;
use crate::report::AuditReport;
use match_model::{Assignment, Instance};
use std::alloc::{AllocError, Global};
use std::error::Error;
use std::fmt;

/// Why a placement was not audited.
#[derive(Clone, Copy, Debug, PartialEq, Eq)]
pub enum AuditFault {
    /// The placement does not have exactly one entry for each resident.
    WrongSize,
    /// The memory could not grow.
    Memory,
}

impl fmt::Display for AuditFault {
    fn fmt<W: fmt::Write>(&self, f: &mut fmt::Formatter<W>) -> fmt::Result {
        f.write_str(match self {
            AuditFault::WrongSize => "as many places as residents are wanted",
            AuditFault::Memory => "out of memory",
        })
    }
}

impl Error for AuditFault {}

impl From<AllocError> for AuditFault {
    ghost from_gives = { λ _ fault. fault ≡ Memory };

    fn from(_error: AllocError) -> AuditFault {
        AuditFault::Memory
    }
}

/// Finds the unacceptable pairs, the programmes over their quota and the blocking pairs. A member who isn't on a
/// list ranks below all members on it. The placement may have numbers that no programme has.
pub fn audit(
    alloc: Global,
    inst: &Instance,
    assignment: &Assignment,
) -> Result<AuditReport, AuditFault>
    ensures report { IfOk result (Reports inst.now assignment.now) }
    ensures wrong_size { IsErrOf result AuditFault.WrongSize
        ↔ (length assignment.now ≢ length inst.now.resident_lists) }
{
    if assignment.len() != inst.residents() {
        return Err(AuditFault::WrongSize);
    }
    let loads = loads(alloc, inst, assignment)?;
    Ok(AuditReport {
        unacceptable: unacceptable_pairs(alloc, inst, assignment)?,
        over: over_quota(alloc, inst, &loads)?,
        blocking: blocking_pairs(alloc, inst, assignment, &loads)?,
    })
}
