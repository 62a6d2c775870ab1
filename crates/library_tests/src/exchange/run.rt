//! A core with its instance.
ghost use Rattle.std.specs.Prelude.{◌≡◌, IfOk, length};
ghost use Rattle.exchange_core.specs.Steps.{IsCoreOf};

use exchange_core::{AnswerKind, Capacity, Core, CoreFault, Event, MailLeft, Pending, Refused};
use match_model::{Assignment, Instance, ModelFault, ProgrammeNo, ResidentNo};
use std::alloc::Global;

/// A core with its instance.
#[derive(Drop)]
pub(crate) struct Run {
    pub(super) inst: Instance,
    pub(super) core: Core,
    ghost core_of: { IsCoreOf inst core },
}

/// What the core shows: what is pending first, the resident of a programme's next offer, the programme whose
/// offer a resident holds, and the answer that this resident owes first.
pub(super) type CoreView = (
    Option<Pending>,
    Option<ResidentNo>,
    Option<ProgrammeNo>,
    Option<(ProgrammeNo, AnswerKind)>,
);

impl Run {
    pub(crate) fn new(alloc: Global, inst: Instance, cap: Capacity) -> Result<Run, CoreFault> {
        let core = Core::new(alloc, &inst, cap)?;
        Ok(Run { inst, core })
    }

    pub(crate) fn may(&self, event: Event) -> Result<(), Refused> {
        self.core.may(&self.inst, event)
    }

    pub(crate) fn step(&mut self, event: Event) -> Result<(), Refused> {
        self.core.step(&self.inst, event)
    }

    pub(super) fn step_and_tell(&mut self, event: Event) -> Result<MailLeft, Refused> {
        self.core.step_and_tell(&self.inst, event)
    }

    pub(super) fn some_enabled(&self) -> Option<Event> {
        self.core.some_enabled(&self.inst)
    }

    /// What the core shows of this programme and this resident. Nothing is shown of a number that no member has.
    pub(super) fn core_view(&self, programme: ProgrammeNo, resident: ResidentNo) -> CoreView {
        if programme.0 >= self.inst.programmes() || resident.0 >= self.inst.residents() {
            return (None, None, None, None);
        }
        (
            self.core.first_pending(&self.inst),
            self.core.next_offer(&self.inst, programme),
            self.core.held(resident),
            self.core.next_answer(resident),
        )
    }

    pub(super) fn assignment(&self, alloc: Global) -> Result<Assignment, ModelFault>
        ensures { IfOk result (λ assignment.
            length assignment ≡ length self.now.inst.resident_lists) }
    {
        let mut assignment = Assignment::new(alloc, self.inst.residents())?;
        self.core.assignment(&mut assignment);
        Ok(assignment)
    }
}
