//! What a walk over a placement notes for each programme.
ghost use Rattle.std.specs.Prelude.{◌≡◌, ◌+◌, ◌^◌, ◌<◌, ◌⊎◌, ◌↔◌, max, IfOk, IsTrue};
ghost use Rattle.match_model.specs.Ranking.{place as place_in};
ghost use Rattle.match_model.specs.Instance.{IsProgramme, list_of_programme as ranking_of_programme};
ghost use Rattle.match_audit.specs.Loads.{AreLoads};

use match_model::{Assignment, Instance, ProgrammeNo, ResidentNo};
use std::alloc::{AllocError, Global};

/// How many members a programme has, and the last rank on its list at which one of them stands.
#[derive(Clone, Copy, Debug, Default)]
pub(crate) struct Load {
    pub(crate) members: u32,
    pub(crate) worst_rank: u32,
}

impl Load {
    /// Counts a member who stands at this rank of the programme's list.
    pub(crate) fn add(&mut self, rank: u32)
        requires { self.old.members + 1 < 2 ^ 32 }
        ensures { self.new
            ≡ record { members = self.old.members + 1; worst_rank = max self.old.worst_rank rank } }
    {
        self.members += 1;
        self.worst_rank = self.worst_rank.max(rank);
    }

    /// Whether the programme has fewer members than the quota.
    pub(crate) fn has_fewer_than(&self, quota: u32) -> bool
        ensures { IsTrue result ↔ (self.now.members < quota) }
    {
        self.members < quota
    }

    /// Whether some member stands behind this rank of the programme's list.
    pub(crate) fn has_member_after(&self, rank: u32) -> bool
        ensures { IsTrue result ↔ (rank < self.now.worst_rank) }
    {
        rank < self.worst_rank
    }
}

/// The rank of a resident on a programme's list. A resident who isn't listed gets the list's length.
pub(crate) fn rank_or_length(inst: &Instance, programme: ProgrammeNo, resident: ResidentNo) -> u32
    requires { IsProgramme inst.now programme }
    ensures { result ≡ place_in (ranking_of_programme inst.now programme) resident }
{
    match inst.rank_at_programme(programme, resident) {
        Some(rank) => rank,
        None => inst.list_of_programme(programme).len() as u32,
    }
}

/// For each programme, how many members it has and the last rank of one of them.
pub(crate) fn loads(
    alloc: Global,
    inst: &Instance,
    assignment: &Assignment,
) -> Result<Vec<Load>, AllocError>
    ensures { IfOk result (λ loads. AreLoads inst.now assignment.now loads.items) }
{
    let programmes = inst.programmes();
    let mut loads = vec![in alloc; Load::default(); programmes as usize]?;
    for r in 0..assignment.len() {
        let resident = ResidentNo(r);
        let Some(programme) = assignment.get(resident) else {
            continue;
        };
        if programme.0 < programmes {
            loads[programme.0 as usize].add(rank_or_length(inst, programme, resident));
        }
    }
    Ok(loads)
}
