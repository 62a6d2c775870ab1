//! How to find some event that may follow the earlier events.
ghost use Rattle.std.specs.Prelude.{◌≡◌, ℕ, true, IfSome, IfNone, ◌≢◌, None};
ghost use Rattle.match_model.specs.Instance.{IsInstance, IsProgramme, IsResident};
ghost use Rattle.exchange_core.specs.Shown.{EnabledExactly};
ghost use Rattle.exchange_core.specs.declared.event.Event.{Event};
ghost use Rattle.exchange_core.specs.declared.event.AnswerKind.{AnswerKind};
ghost use Rattle.exchange_core.specs.Steps.{IsCoreOf, HasNoResidentEvent, HasNoProgrammeEvent, HaveNoEvent, AreMembers, fault_left};

use crate::event::Event;
use crate::exchange::{Core, is_strange};
use match_model::{Instance, ProgrammeNo, ResidentNo};

impl Core {
    /// Some event that may follow the earlier events. The result is none only if the exchange is closed. The instance
    /// is the instance that was given to `new`.
    pub fn some_enabled(&self, inst: &Instance) -> Option<Event>
        requires { IsCoreOf inst.now self.now }
        ensures { EnabledExactly inst.now self.now result }
    {
        if self.closed {
            return None;
        }
        // For the proof alone: the number of programmes is within the limits.
        let _members = inst.programmes();
        if self.is_at_rest(inst) {
            return Some(Event::Close);
        }
        let recent_desks = self.recent_desks(inst);
        if let Some(event) = self.event_at(inst, recent_desks) {
            return Some(event);
        }
        if let Some(event) = self.event_of_residents(inst, recent_desks) {
            return Some(event);
        }
        if let Some(event) = self.event_of_programmes(inst, recent_desks) {
            return Some(event);
        }
        Some(Event::Close)
    }

    /// The programme and the resident of the last event. Most pending work is at these two desks.
    fn recent_desks(&self, inst: &Instance) -> Option<(u32, u32)>
        ensures { IfSome result (AreMembers inst.now) }
    {
        let (programme, resident) = self.recent_pair?;
        if is_strange(inst, programme, resident) {
            return None;
        }
        Some((programme.0, resident.0))
    }

    /// An event that may follow at one of these two desks, if there is such an event.
    fn event_at(&self, inst: &Instance, desks: Option<(u32, u32)>) -> Option<Event>
        requires core { IsCoreOf inst.now self.now }
        requires members { IfSome desks (AreMembers inst.now) }
        ensures free { IfSome result (λ e. fault_left inst.now self.now e ≡ None) }
        ensures none { IfNone result (IfSome desks (HaveNoEvent inst.now self.now)) }
    {
        let (programme, resident) = desks?;
        if let Some(event) = self.event_of_resident(inst, ResidentNo(resident)) {
            return Some(event);
        }
        self.event_of_programme(inst, ProgrammeNo(programme))
    }

    /// An event that may follow at some resident's desk. The desks in `looked_at` were searched before and have no such
    /// event.
    #[tactic(auto, using(crate::proofs::Quiet::quiet_events))]
    fn event_of_residents(&self, inst: &Instance, looked_at: Option<(u32, u32)>) -> Option<Event>
        requires core { IsCoreOf inst.now self.now }
        requires none { IfSome looked_at (HaveNoEvent inst.now self.now) }
        ensures free { IfSome result (λ e. fault_left inst.now self.now e ≡ None) }
        ensures none { IfNone result ((r : ℕ)
            → IsResident inst.now r → HasNoResidentEvent inst.now self.now r) }
    {
        if self.residents.are_quiet() {
            return None;
        }
        for r in 0..inst.residents() {
            if is_looked_at_resident(looked_at, r) {
                continue;
            }
            if let Some(event) = self.event_of_resident(inst, ResidentNo(r)) {
                return Some(event);
            }
        }
        None
    }

    /// An event that may follow at some programme's desk. The desks in `looked_at` were searched before and have no
    /// such event.
    fn event_of_programmes(&self, inst: &Instance, looked_at: Option<(u32, u32)>) -> Option<Event>
        requires core { IsCoreOf inst.now self.now }
        requires none { IfSome looked_at (HaveNoEvent inst.now self.now) }
        ensures free { IfSome result (λ e. fault_left inst.now self.now e ≡ None) }
        ensures none { IfNone result ((p : ℕ)
            → IsProgramme inst.now p → HasNoProgrammeEvent inst.now self.now p) }
        ensures instance { IsInstance inst.now }
    {
        for p in 0..inst.programmes() {
            if is_looked_at_programme(looked_at, p) {
                continue;
            }
            if let Some(event) = self.event_of_programme(inst, ProgrammeNo(p)) {
                return Some(event);
            }
        }
        None
    }

    /// An event that may follow at this resident's desk, if there is such an event.
    fn event_of_resident(&self, inst: &Instance, resident: ResidentNo) -> Option<Event>
        requires core { IsCoreOf inst.now self.now }
        requires member { IsResident inst.now resident }
        ensures free { IfSome result (λ e. fault_left inst.now self.now e ≡ None) }
        ensures none { IfNone result (HasNoResidentEvent inst.now self.now resident) }
    {
        if let Some(event) = self.answer_of(inst, resident) {
            return Some(event);
        }
        self.take_of(inst, resident)
    }

    #[tactic(auto, using(crate::proofs::Enabled::answer_only, crate::proofs::Enabled::answer_none))]
    fn answer_of(&self, inst: &Instance, resident: ResidentNo) -> Option<Event>
        requires core { IsCoreOf inst.now self.now }
        requires member { IsResident inst.now resident }
        ensures free { IfSome result (λ e. fault_left inst.now self.now e ≡ None) }
        ensures none { IfNone result ((p : ℕ) (k : AnswerKind)
            → fault_left inst.now self.now (Event.Answer resident p k) ≢ None) }
    {
        match self.residents.first_due(resident) {
            Some((programme, kind)) => self.allowed(
                inst,
                Event::Answer {
                    resident,
                    programme,
                    kind,
                },
            ),
            None => None,
        }
    }

    #[tactic(auto, using(crate::proofs::Enabled::take_only, crate::proofs::Enabled::take_none))]
    fn take_of(&self, inst: &Instance, resident: ResidentNo) -> Option<Event>
        requires core { IsCoreOf inst.now self.now }
        requires member { IsResident inst.now resident }
        ensures free { IfSome result (λ e. fault_left inst.now self.now e ≡ None) }
        ensures none { IfNone result ((p : ℕ)
            → fault_left inst.now self.now (Event.Take resident p) ≢ None) }
    {
        match self.residents.first_waiting(resident) {
            Some(programme) => self.allowed(
                inst,
                Event::Take {
                    resident,
                    programme,
                },
            ),
            None => None,
        }
    }

    /// An event that may follow at this programme's desk, if there is such an event.
    fn event_of_programme(&self, inst: &Instance, programme: ProgrammeNo) -> Option<Event>
        requires core { IsCoreOf inst.now self.now }
        requires member { IsProgramme inst.now programme }
        ensures free { IfSome result (λ e. fault_left inst.now self.now e ≡ None) }
        ensures none { IfNone result (HasNoProgrammeEvent inst.now self.now programme) }
    {
        if let Some(event) = self.hear_of(inst, programme) {
            return Some(event);
        }
        self.offer_of(inst, programme)
    }

    #[tactic(auto, using(crate::proofs::Enabled::hear_only, crate::proofs::Enabled::hear_none))]
    fn hear_of(&self, inst: &Instance, programme: ProgrammeNo) -> Option<Event>
        requires core { IsCoreOf inst.now self.now }
        requires member { IsProgramme inst.now programme }
        ensures free { IfSome result (λ e. fault_left inst.now self.now e ≡ None) }
        ensures none { IfNone result ((r : ℕ) (k : AnswerKind)
            → fault_left inst.now self.now (Event.Hear programme r k) ≢ None) }
    {
        match self.programmes.first_waiting(programme) {
            Some((resident, kind)) => self.allowed(
                inst,
                Event::Hear {
                    programme,
                    resident,
                    kind,
                },
            ),
            None => None,
        }
    }

    #[tactic(auto, using(crate::proofs::Enabled::offer_only, crate::proofs::Enabled::offer_none))]
    fn offer_of(&self, inst: &Instance, programme: ProgrammeNo) -> Option<Event>
        requires core { IsCoreOf inst.now self.now }
        requires member { IsProgramme inst.now programme }
        ensures free { IfSome result (λ e. fault_left inst.now self.now e ≡ None) }
        ensures none { IfNone result ((r : ℕ)
            → fault_left inst.now self.now (Event.Offer programme r) ≢ None) }
    {
        match self.next_listed(inst, programme) {
            Some(resident) => self.allowed(
                inst,
                Event::Offer {
                    programme,
                    resident,
                },
            ),
            None => None,
        }
    }

    /// The event itself if there is no cause against it, else none.
    fn allowed(&self, inst: &Instance, event: Event) -> Option<Event>
        requires { IsCoreOf inst.now self.now }
        ensures free { IfSome result (λ e. (e ≡ event)
            × (fault_left inst.now self.now event ≡ None)) }
        ensures none { IfNone result (fault_left inst.now self.now event ≢ None) }
        ensures instance { IsInstance inst.now }
    {
        let same_event = event;
        match self.fault(inst, event) {
            None => Some(same_event),
            Some(_) => None,
        }
    }
}

/// Whether `desks` has two desks and one of them is this resident's.
fn is_looked_at_resident(desks: Option<(u32, u32)>, number: u32) -> bool
    ensures { result ≡ true → IfSome desks (λ d. d.1 ≡ number) × (desks ≢ None) }
{
    match desks {
        Some((_, resident)) => resident == number,
        None => false,
    }
}

/// Whether `desks` has two desks and one of them is this programme's.
fn is_looked_at_programme(desks: Option<(u32, u32)>, number: u32) -> bool
    ensures { result ≡ true → IfSome desks (λ d. d.0 ≡ number) × (desks ≢ None) }
{
    match desks {
        Some((programme, _)) => programme == number,
        None => false,
    }
}
