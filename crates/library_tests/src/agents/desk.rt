//! One desk with its agent and the instance.
ghost use Rattle.std.specs.Prelude.{◌≡◌, []};
ghost use Rattle.match_agents.specs.Programmes.{IsProgrammeAgentOf};
ghost use Rattle.match_agents.specs.Residents.{IsResidentAgentOf};

use exchange_core::{AnswerKind, AnswerNote, OfferNote};
use mailbox_rule::TakeEnd;
use match_agents::{Heard, ProgrammeAgent, ResidentAgent};
use match_model::{Instance, ProgrammeNo, ResidentNo};
use std::alloc::Global;

/// A resident's agent together with the instance.
#[derive(Drop)]
pub(super) struct ResidentRun<T: TakeEnd<OfferNote>> {
    inst: Instance,
    agent: ResidentAgent<T>,
    ghost agent_of: { IsResidentAgentOf inst agent },
}

impl<T: TakeEnd<OfferNote> + Drop> ResidentRun<T> {
    /// Opens the agent of a resident. The result is none if the resident is no member, or if there is no memory.
    pub(super) fn open(
        alloc: Global,
        inst: Instance,
        resident: ResidentNo,
        end: T,
    ) -> Option<ResidentRun<T>>
        requires { T.taken end ≡ [] }
    {
        if resident.0 >= inst.residents() {
            return None;
        }
        let agent = ResidentAgent::open(alloc, &inst, resident, end).ok()?;
        Some(ResidentRun { inst, agent })
    }

    /// Takes an offer and decides about it, if the agent is ready.
    pub(super) fn take(&mut self) -> Option<Heard<OfferNote>> {
        if !self.agent.ready() {
            return None;
        }
        let heard = self.agent.take();
        if let Heard::Got(_) = heard {
            self.agent.decide(&self.inst);
        }
        Some(heard)
    }

    /// Gives the first answer that is due.
    pub(super) fn give(&mut self) -> Option<(ProgrammeNo, AnswerKind)> {
        let due_answer = self.agent.due()?;
        self.agent.answered();
        Some(due_answer)
    }

    /// Gives the first two answers that are due.
    pub(super) fn give_two(&mut self) -> [Option<(ProgrammeNo, AnswerKind)>; 2] {
        let first_answer = self.give();
        let second_answer = self.give();
        [first_answer, second_answer]
    }

    pub(super) fn log(&self) -> &[OfferNote] {
        self.agent.taken_log()
    }
}

/// A programme's agent together with the instance.
#[derive(Drop)]
pub(super) struct ProgrammeRun<T: TakeEnd<AnswerNote>> {
    inst: Instance,
    agent: ProgrammeAgent<T>,
    ghost agent_of: { IsProgrammeAgentOf inst agent },
}

impl<T: TakeEnd<AnswerNote> + Drop> ProgrammeRun<T> {
    /// Opens the agent of a programme. The result is none if the programme is no member, or if there is no
    /// memory.
    pub(super) fn open(
        alloc: Global,
        inst: Instance,
        programme: ProgrammeNo,
        end: T,
    ) -> Option<ProgrammeRun<T>>
        requires { T.taken end ≡ [] }
    {
        if programme.0 >= inst.programmes() {
            return None;
        }
        let agent = ProgrammeAgent::open(alloc, &inst, programme, end).ok()?;
        Some(ProgrammeRun { inst, agent })
    }

    /// Makes an offer to the resident to whom the programme offers next, if there is one.
    pub(super) fn offer(&mut self) -> Option<ResidentNo> {
        let wish = self.agent.wish(&self.inst)?;
        self.agent.offered(&self.inst);
        Some(wish)
    }

    pub(super) fn hear(&mut self) -> Heard<AnswerNote> {
        self.agent.hear()
    }

    pub(super) fn log(&self) -> &[AnswerNote] {
        self.agent.heard_log()
    }
}
