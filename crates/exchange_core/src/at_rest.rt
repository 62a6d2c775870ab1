//! What is still pending in an exchange. An exchange is at rest if nothing is pending.
ghost use Rattle.std.specs.Prelude.{◌≡◌, ◌<◌, true, length, None};
ghost use Rattle.exchange_core.specs.Refusal.{first_below};
ghost use Rattle.exchange_core.specs.Steps.{IsCoreOf, pending_left, resident_pending_at, programme_pending_at};

use crate::event::Pending;
use crate::exchange::Core;
use match_model::{Instance, ProgrammeNo, ResidentNo};

impl Core {
    /// What is pending first in the exchange, or none if the exchange is at rest.
    #[tactic(auto, using(crate::proofs::FirstBelow::first_of_second, crate::proofs::FirstBelow::first_of_first), unfolding(crate::specs::Steps::pending_left))]
    #[inline(never)]
    pub(crate) fn pending(&self, inst: &Instance) -> Option<Pending>
        requires { IsCoreOf inst.now self.now }
        ensures { result ≡ pending_left inst.now self.now }
    {
        let pending = self.pending_at_residents(inst);
        if pending.is_some() {
            return pending;
        }
        self.pending_at_programmes(inst)
    }

    /// Whether nothing is pending at any desk, by the core's four counts of desks where something is.
    #[tactic(auto, using(crate::proofs::Quiet::all_at_rest))]
    pub(crate) fn is_at_rest(&self, inst: &Instance) -> bool
        requires { IsCoreOf inst.now self.now }
        ensures { result ≡ true → pending_left inst.now self.now ≡ None }
    {
        self.residents.are_quiet() && self.programmes.are_content()
    }

    /// What is pending first at a resident's desk. No desk is looked at if, by the counts, no offer waits and no
    /// answer is due anywhere.
    #[tactic(auto, using(crate::proofs::FirstBelow::first_below_found, crate::proofs::FirstBelow::first_below_more, crate::proofs::Quiet::quiet_residents))]
    fn pending_at_residents(&self, inst: &Instance) -> Option<Pending>
        requires { IsCoreOf inst.now self.now }
        ensures { result
            ≡ first_below (resident_pending_at self.now) (length inst.now.resident_lists) }
    {
        if self.residents.are_quiet() {
            return None;
        }
        for r in 0..inst.residents() {
            let pending = self.pending_resident(ResidentNo(r));
            if pending.is_some() {
                return pending;
            }
        }
        None
    }

    /// What is pending first at a programme's desk. No desk is looked at if, by the counts, no answer waits and no
    /// programme has a wish.
    #[tactic(auto, using(crate::proofs::FirstBelow::first_below_found, crate::proofs::FirstBelow::first_below_more, crate::proofs::Quiet::content_programmes))]
    fn pending_at_programmes(&self, inst: &Instance) -> Option<Pending>
        requires { IsCoreOf inst.now self.now }
        ensures { result ≡ first_below (programme_pending_at self.now) (length inst.now.quotas) }
    {
        if self.programmes.are_content() {
            return None;
        }
        for p in 0..inst.programmes() {
            let pending = self.pending_programme(ProgrammeNo(p));
            if pending.is_some() {
                return pending;
            }
        }
        None
    }

    fn pending_resident(&self, resident: ResidentNo) -> Option<Pending>
        requires { resident < length self.now.residents }
        ensures { result ≡ resident_pending_at self.now resident }
    {
        if self.residents.has_waiting(resident) {
            return Some(Pending::Offers(resident));
        }
        if self.residents.first_due(resident).is_some() {
            return Some(Pending::Due(resident));
        }
        None
    }

    fn pending_programme(&self, programme: ProgrammeNo) -> Option<Pending>
        requires { programme < length self.now.programmes }
        ensures { result ≡ programme_pending_at self.now programme }
    {
        if self.programmes.has_waiting(programme) {
            return Some(Pending::Answers(programme));
        }
        if self.programmes.has_wish(programme) {
            return Some(Pending::Wish(programme));
        }
        None
    }
}
