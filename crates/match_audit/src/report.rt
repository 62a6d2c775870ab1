//! What an audit finds.

use match_model::{ProgrammeNo, ResidentNo};

/// Everything that keeps a placement from being stable, and nothing else.
#[derive(Debug, Drop)]
pub struct AuditReport {
    /// The unacceptable pairs, ordered by the resident's number.
    pub unacceptable: Vec<(ResidentNo, ProgrammeNo)>,
    /// The programmes over their quota, each with its number of residents, ordered by the programme's number.
    pub over: Vec<(ProgrammeNo, u32)>,
    /// The blocking pairs, ordered by the resident's number and then by the programme's number.
    pub blocking: Vec<(ResidentNo, ProgrammeNo)>,
}

impl AuditReport {
    ghost use Rattle.std.specs.Prelude.{◌≡◌, ◌↔◌, [], IsTrue};
    ghost use Rattle.match_audit.specs.Report.{TellsStability};

    /// Whether the placement is stable: all three lists of the report are empty.
    pub fn is_stable(&self) -> bool
        ensures nothing_found { IsTrue result ↔ ((self.now.unacceptable.items ≡ [])
            × (self.now.over.items ≡ []) × (self.now.blocking.items ≡ [])) }
        ensures stable { TellsStability self.now result }
    {
        self.unacceptable.is_empty() && self.over.is_empty() && self.blocking.is_empty()
    }
}
