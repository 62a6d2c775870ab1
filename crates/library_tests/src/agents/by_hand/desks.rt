//! The desks of the exchange that the type names.
ghost use Rattle.std.specs.Prelude.{◌≡◌, []};
ghost use Rattle.match_model.specs.Instance.{IsProgramme, IsResident};
ghost use Rattle.match_agents.specs.Programmes.{IsProgrammeAgentOf};
ghost use Rattle.match_agents.specs.Residents.{IsResidentAgentOf};

use exchange_core::{AnswerKind, AnswerNote, OfferNote};
use mailbox_rule::TakeEnd;
use match_agents::{Heard, ProgrammeAgent, ResidentAgent};
use match_model::{Instance, ProgrammeNo, ResidentNo};
use offer_ledger::ExchangeIdentity;
use std::alloc::Global;
use std::marker::PhantomData;

/// A resident's agent in the exchange that the type names.
#[derive(Drop)]
pub(super) struct Resident<J: ExchangeIdentity, T: TakeEnd<OfferNote>> {
    agent: ResidentAgent<T>,
    exchange: PhantomData<J>,
    ghost agent_of: { IsResidentAgentOf J.inst agent },
}

impl<J: ExchangeIdentity, T: TakeEnd<OfferNote> + Drop> Resident<J, T> {
    pub(super) fn open(
        alloc: Global,
        inst: &Instance,
        resident: ResidentNo,
        end: T,
    ) -> Option<Resident<J, T>>
        requires instance { inst.now ≡ J.inst }
        requires member { IsResident inst.now resident }
        requires unused { T.taken end ≡ [] }
    {
        let agent = ResidentAgent::open(alloc, inst, resident, end).ok()?;
        Some(Resident {
            agent,
            exchange: PhantomData,
        })
    }

    /// Takes an offer and decides about it, if the agent is ready and an offer waits.
    pub(super) fn take(&mut self, inst: &Instance) -> Option<ProgrammeNo>
        requires { inst.now ≡ J.inst }
    {
        if !self.agent.ready() {
            return None;
        }
        let Heard::Got(offer) = self.agent.take() else {
            return None;
        };
        self.agent.decide(inst);
        Some(offer.programme)
    }

    /// Gives the first answer that is due.
    pub(super) fn give(&mut self) -> Option<(ProgrammeNo, AnswerKind)> {
        let due_answer = self.agent.due()?;
        self.agent.answered();
        Some(due_answer)
    }

    pub(super) fn log(&self) -> &[OfferNote] {
        self.agent.taken_log()
    }
}

/// A programme's agent in the exchange that the type names.
#[derive(Drop)]
pub(super) struct Programme<J: ExchangeIdentity, T: TakeEnd<AnswerNote>> {
    agent: ProgrammeAgent<T>,
    exchange: PhantomData<J>,
    ghost agent_of: { IsProgrammeAgentOf J.inst agent },
}

impl<J: ExchangeIdentity, T: TakeEnd<AnswerNote> + Drop> Programme<J, T> {
    pub(super) fn open(
        alloc: Global,
        inst: &Instance,
        programme: ProgrammeNo,
        end: T,
    ) -> Option<Programme<J, T>>
        requires instance { inst.now ≡ J.inst }
        requires member { IsProgramme inst.now programme }
        requires unused { T.taken end ≡ [] }
    {
        let agent = ProgrammeAgent::open(alloc, inst, programme, end).ok()?;
        Some(Programme {
            agent,
            exchange: PhantomData,
        })
    }

    /// Takes an answer out of the mailbox, if an answer waits.
    pub(super) fn hear(&mut self) -> Option<AnswerNote> {
        match self.agent.hear() {
            Heard::Got(answer) => Some(answer),
            _ => None,
        }
    }

    /// Counts an offer to the resident to whom the programme offers next, if there is one.
    pub(super) fn offer(&mut self, inst: &Instance) -> Option<ResidentNo>
        requires { inst.now ≡ J.inst }
    {
        let wish = self.agent.wish(inst)?;
        self.agent.offered(inst);
        Some(wish)
    }

    pub(super) fn log(&self) -> &[AnswerNote] {
        self.agent.heard_log()
    }
}
