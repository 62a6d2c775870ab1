//! An instance: quotas, mutual rankings with ranks, and the withdrawn members.
ghost use Rattle.std.specs.Prelude.{◌≡◌, ◌<◌, ◌≤◌, length, slice_get, Some, IfSome};
ghost use Rattle.match_model.specs.Instance.{IsInstance, IsProgramme, IsResident, pair_count, is_withdrawn, quota as quota_of, list_of_programme as ranking_of_programme, list_of_resident as ranking_of_resident, offer_at as offer_of, rank};

use crate::choices::Choices;
use crate::guesses::{guess_at, rank_of_programme, rank_of_resident};
use crate::limits::MAX_PAIRS;
use crate::member::{ProgrammeNo, ResidentNo};
use crate::rows::Rows;
use std::marker::Model;

// A walk along a list up to this length takes no longer than a search.
const SHORT_LIST: usize = 16;

/// The quotas, and for each member the ranking of the members who rank this member too, best first.
#[derive(Debug)]
pub struct Instance {
    pub(crate) quotas: Vec<u32>,
    pub(crate) programme_lists: Rows<ResidentNo>,
    pub(crate) resident_lists: Rows<ProgrammeNo>,
    pub(crate) choices: Choices,
    pub(crate) pairs: u32,
    pub(crate) programmes_withdrawn: Vec<bool>,
    pub(crate) residents_withdrawn: Vec<bool>,
}

impl Model for Instance {
    ghost use Rattle.match_model.specs.Instance.{Instance as Rankings, IsWellFormed, instance_with};
    ghost use Rattle.match_model.specs.Owners.{AreChoices};

    ghost Value = { Rankings };

    ghost view = { λ i. instance_with i.quotas.items i.programme_lists.rows
        i.resident_lists.rows i.programmes_withdrawn.items i.residents_withdrawn.items };

    ghost invariant = { λ i. record {
      rankings : IsWellFormed (instance_with i.quotas.items i.programme_lists.rows
          i.resident_lists.rows i.programmes_withdrawn.items i.residents_withdrawn.items) i.pairs;
      choices : AreChoices i.resident_lists.rows i.choices.rows.rows;
    } };
}

// One function drops the whole instance: callers prove nothing about its parts.
impl Drop for Instance {
    fn drop(self) {
        let Instance {
            quotas: _,
            programme_lists: _,
            resident_lists: _,
            choices: _,
            pairs: _,
            programmes_withdrawn: _,
            residents_withdrawn: _,
        } = self;
    }
}

impl Instance {
    /// The number of programmes, at most `MAX_PROGRAMMES`.
    #[inline(always)]
    pub fn programmes(&self) -> u32
        ensures count { result ≡ length self.now.quotas }
        ensures instance { IsInstance self.now }
    {
        self.quotas.len() as u32
    }

    /// The number of residents, at most `MAX_RESIDENTS`.
    #[inline(always)]
    pub fn residents(&self) -> u32
        ensures count { result ≡ length self.now.resident_lists }
        ensures instance { IsInstance self.now }
    {
        self.resident_lists.len() as u32
    }

    /// The number of acceptable pairs, at most `MAX_PAIRS`.
    pub fn pairs(&self) -> u32
        ensures count { result ≡ pair_count self.now }
        ensures instance { IsInstance self.now }
    {
        self.pairs
    }

    /// How many residents a programme may have, at most 10,000. The programme is a member.
    #[inline(always)]
    pub fn quota(&self, programme: ProgrammeNo) -> u32
        requires { IsProgramme self.now programme }
        ensures { result ≡ quota_of self.now programme }
    {
        self.quotas[programme.0 as usize]
    }

    /// Whether a programme is withdrawn and so lists nobody. The programme is a member.
    pub fn programme_withdrawn(&self, programme: ProgrammeNo) -> bool
        requires { IsProgramme self.now programme }
        ensures { result ≡ is_withdrawn self.now.programmes_withdrawn programme }
    {
        self.programmes_withdrawn[programme.0 as usize]
    }

    /// Whether a resident is withdrawn and so lists nobody. The resident is a member.
    pub fn resident_withdrawn(&self, resident: ResidentNo) -> bool
        requires { IsResident self.now resident }
        ensures { result ≡ is_withdrawn self.now.residents_withdrawn resident }
    {
        self.residents_withdrawn[resident.0 as usize]
    }

    /// The residents whom a programme ranks and who rank the programme, best first. The programme is a member.
    #[inline(always)]
    pub fn list_of_programme(&self, programme: ProgrammeNo) -> &[ResidentNo]
        requires { IsProgramme self.now programme }
        ensures list { result.now ≡ ranking_of_programme self.now programme }
        ensures within { length (ranking_of_programme self.now programme) ≤ MAX_PAIRS }
    {
        self.programme_lists.row(programme.0 as usize)
    }

    /// The resident at this place of a programme's list, or none past the list's end. Places are counted from 0. The
    /// programme is a member.
    #[inline(always)]
    pub fn listed_at(&self, programme: ProgrammeNo, place: u32) -> Option<ResidentNo>
        requires { IsProgramme self.now programme }
        ensures { result ≡ slice_get (ranking_of_programme self.now programme) place }
    {
        let list = self.list_of_programme(programme);
        list.get(place as usize).copied()
    }

    /// The resident at this place of a programme's list, with the programme's place on that resident's list. The result
    /// is none past the programme's list's end. Both places are counted from 0. The programme is a member.
    #[inline]
    pub fn offer_at(&self, programme: ProgrammeNo, place: u32) -> Option<(ResidentNo, u32)>
        requires { IsProgramme self.now programme }
        ensures offer { result ≡ offer_of self.now programme place }
        ensures ranked { IfSome result (λ offer.
            rank (ranking_of_resident self.now offer.0) programme ≡ Some offer.1) }
    {
        let resident = self.listed_at(programme, place)?;
        let offer_index = self
            .programme_lists
            .index(programme.0 as usize, place as usize);
        let choice_index = guess_at(&self.choices.offers, offer_index) as usize;
        let guess = guess_at(&self.choices.resident_ranks, choice_index);
        let rank = self.rank_by_guess(resident, programme, guess)?;
        Some((resident, rank))
    }

    /// The programmes that a resident ranks and that rank the resident, best first. The resident is a member.
    #[inline(always)]
    pub fn list_of_resident(&self, resident: ResidentNo) -> &[ProgrammeNo]
        requires { IsResident self.now resident }
        ensures list { result.now ≡ ranking_of_resident self.now resident }
        ensures within { length (ranking_of_resident self.now resident) ≤ MAX_PAIRS }
    {
        self.resident_lists.row(resident.0 as usize)
    }

    /// The place of a resident on a programme's list, counted from 0, if the pair is acceptable. The programme is a
    /// member.
    #[inline(always)]
    pub fn rank_at_programme(&self, programme: ProgrammeNo, resident: ResidentNo) -> Option<u32>
        requires { IsProgramme self.now programme }
        ensures { result ≡ rank (ranking_of_programme self.now programme) resident }
    {
        if resident.0 as usize >= self.resident_lists.len() {
            return None;
        }
        let choice_index = self.choices.rows.find(resident.0 as usize, programme.0)?;
        let guess = guess_at(&self.choices.programme_ranks, choice_index);
        let list = self.programme_lists.row(programme.0 as usize);
        match list.get(guess as usize) {
            Some(listed) if *listed == resident => Some(guess),
            _ => rank_of_resident(list, resident),
        }
    }

    /// The place of a programme on a resident's list, counted from 0, if the pair is acceptable. The resident is a
    /// member.
    #[inline(always)]
    pub fn rank_at_resident(&self, resident: ResidentNo, programme: ProgrammeNo) -> Option<u32>
        requires { IsResident self.now resident }
        ensures { result ≡ rank (ranking_of_resident self.now resident) programme }
    {
        let list = self.resident_lists.row(resident.0 as usize);
        if list.len() <= SHORT_LIST {
            return rank_of_programme(list, programme);
        }
        self.rank_by_choice(resident, programme)
    }

    /// What `rank_at_resident` returns, found by a search among the resident's choices.
    fn rank_by_choice(&self, resident: ResidentNo, programme: ProgrammeNo) -> Option<u32>
        requires { IsResident self.now resident }
        ensures { result ≡ rank (ranking_of_resident self.now resident) programme }
    {
        let choice_index = self.choices.rows.find(resident.0 as usize, programme.0)?;
        let guess = guess_at(&self.choices.resident_ranks, choice_index);
        let list = self.resident_lists.row(resident.0 as usize);
        match list.get(guess as usize) {
            Some(listed) if *listed == programme => Some(guess),
            _ => rank_of_programme(list, programme),
        }
    }

    /// The same as `rank_at_resident`, but the guessed place of the list is tried first. The resident is a member.
    #[inline(always)]
    pub fn rank_by_guess(
        &self,
        resident: ResidentNo,
        programme: ProgrammeNo,
        guess: u32,
    ) -> Option<u32>
        requires { IsResident self.now resident }
        ensures { result ≡ rank (ranking_of_resident self.now resident) programme }
    {
        let list = self.resident_lists.row(resident.0 as usize);
        match list.get(guess as usize) {
            Some(listed) if *listed == programme => Some(guess),
            _ => self.rank_at_resident(resident, programme),
        }
    }
}
