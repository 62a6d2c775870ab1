//! The possible answers to the question why.

use match_model::ProgrammeNo;

/// Why a resident isn't matched with a programme, or that the resident is. A rank is the place of a member on a list as
/// it was written, counted from 0.
#[derive(Clone, Copy, Debug, PartialEq, Eq)]
pub enum Why {
    /// The resident or the programme is withdrawn.
    Withdrawn,
    /// The programme isn't on the resident's list.
    NotListed,
    /// The programme didn't rank the resident.
    NotRanked,
    /// The resident is matched with this programme.
    Matched,
    /// The resident is matched with a programme that the resident ranks before this programme.
    PrefersOwn {
        /// The programme with which the resident is matched.
        own: ProgrammeNo,
        /// The rank of that programme on the resident's list.
        own_rank: usize,
        /// The rank of the programme asked about, on the resident's list.
        rank: usize,
    },
    /// All places of the programme went to residents whom the programme ranks before this resident.
    Full {
        /// The resident's rank on the programme's list.
        rank: usize,
        /// The rank of the programme's last-ranked member, if the programme has members.
        last_rank: Option<usize>,
        /// How many places the programme has.
        quota: u32,
    },
    /// The resident and the programme would rather have each other than what they have, so the placement isn't stable.
    Blocking,
}
