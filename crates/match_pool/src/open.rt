//! What a run makes before its workers start: mailboxes, agents and the ledger.
ghost use Rattle.std.specs.Prelude.{◌≡◌, ◌≢◌, ◌≤◌, ◌*◌, length, true, IfOk, IfErr};
ghost use Rattle.exchange_core.specs.Shown.{is_capacity};
ghost use Rattle.match_model.specs.Instance.{IsResident, IsProgramme};
ghost use Rattle.match_pool.specs.Done.{Each};
ghost use Rattle.match_pool.specs.Rooms.{room_of, offer_room_of, answer_room_of, IsNew};
ghost use Rattle.match_pool.specs.declared.fault.RunFault.TheVariants.{Memory};

use crate::exchange::Exchange;
use crate::fault::RunFault;
use crate::gate::Gate;
use crate::locks::DeskLock;
use crate::mailboxes::Mailboxes;
use crate::run_state::RunState;
use crate::seats::{Agent, ProgrammeSeat, ResidentSeat, Seat};
use crate::shared::SharedState;
use desk_scheduler::{Scheduler, Shift, Workers, WorkersIdentity};
use exchange_core::Capacity;
use match_agents::{ProgrammeAgent, ResidentAgent};
use match_model::{Instance, MAX_PAIRS, ProgrammeNo, ResidentNo};
use offer_ledger::{ExchangeIdentity, Ledger, Tally};
use std::alloc::Global;
use std::marker::PhantomData;
use std::sync::ledger::Blank;

/// The desks of one side, in the order of their numbers: the sending ends of their mailboxes, and the locks with
/// their agents.
type SideDesks<P, J, D> = (Vec<P>, Vec<DeskLock<J, D>>);

/// What a run needs to open its exchange. The type names the instance and the capacity.
#[derive(Drop)]
pub(crate) struct RunStart<'a, J: ExchangeIdentity + WorkersIdentity, M: Mailboxes> {
    pub(crate) alloc: Global,
    pub(crate) mailboxes: &'a M,
    pub(crate) inst: &'a Instance,
    pub(crate) cap: Capacity,
    pub(crate) exchange: PhantomData<J>,
    ghost instance: { inst.now ≡ J.inst },
    ghost capacity: { cap ≡ J.cap },
    ghost admitted: { is_capacity cap ≡ true },
}

impl<'a, J: ExchangeIdentity + WorkersIdentity, M: Mailboxes> RunStart<'a, J, M> {
    /// All that the workers share, and the workers' tallies, before any event.
    pub(crate) fn shared<'g, G: Gate>(
        &self,
        blank: Blank,
        worker_counts: Workers<J>,
        workers: u32,
    ) -> Result<(SharedState<'g, J, M, G>, Vec<Tally<J>>), RunFault>
        requires nobody { worker_counts.begun ≡ 0 }
        requires workers { workers ≡ J.workers }
        requires blank { (blank.name ≡ J.name) × (blank.parts ≡ J.parts) × (J.parts ≡ 8) }
        ensures { IfErr result (λ fault. fault ≡ Memory) }
    {
        let (residents, programmes) = (self.inst.residents(), self.inst.programmes());
        let scheduler = Scheduler::open(self.alloc, residents, programmes)?;
        let (offer_puts, residents) = self.residents()?;
        let (answer_puts, programmes) = self.programmes()?;
        let (exchange, tallies) = self.exchange(blank, workers, offer_puts, answer_puts)?;
        let state = RunState::new(Shift::new(scheduler, worker_counts));
        let shared = SharedState::new(residents, programmes, exchange, state);
        Ok((shared, tallies))
    }

    // For each resident a mailbox: its sending end, and a lock with the resident's agent, which has the receiving end.
    fn residents(&self) -> Result<SideDesks<M::OfferPut, J, ResidentSeat<J, M>>, RunFault>
        ensures puts { IfOk result (λ side. Each side.0.items (length J.inst.resident_lists)
            (IsNew M.OfferPut.puts M.offer_room (offer_room_of J.inst J.cap))) }
        ensures fault { IfErr result (λ fault. fault ≡ Memory) }
    {
        let resident_count = self.inst.residents();
        let mut offer_puts = Vec::with_capacity(self.alloc, resident_count as usize)?;
        let mut desks = Vec::with_capacity(self.alloc, resident_count as usize)?;
        for r in 0..resident_count {
            let (offer_put, desk) = self.resident(ResidentNo(r))?;
            offer_puts.push(offer_put)?;
            desks.push(DeskLock::new(desk))?;
        }
        Ok((offer_puts, desks))
    }

    // For each programme a mailbox: its sending end, and a lock with the agent, which has the receiving end.
    fn programmes(&self) -> Result<SideDesks<M::AnswerPut, J, ProgrammeSeat<J, M>>, RunFault>
        ensures puts { IfOk result (λ side. Each side.0.items (length J.inst.quotas)
            (IsNew M.AnswerPut.puts M.answer_room (answer_room_of J.inst J.cap))) }
        ensures fault { IfErr result (λ fault. fault ≡ Memory) }
    {
        let programme_count = self.inst.programmes();
        let mut answer_puts = Vec::with_capacity(self.alloc, programme_count as usize)?;
        let mut desks = Vec::with_capacity(self.alloc, programme_count as usize)?;
        for p in 0..programme_count {
            let (answer_put, desk) = self.programme(ProgrammeNo(p))?;
            answer_puts.push(answer_put)?;
            desks.push(DeskLock::new(desk))?;
        }
        Ok((answer_puts, desks))
    }

    // A resident's desk: the sending end of the desk's mailbox, and the desk's agent.
    fn resident(&self, resident: ResidentNo) -> Result<(M::OfferPut, ResidentSeat<J, M>), RunFault>
        requires { IsResident J.inst resident }
        ensures new { IfOk result (λ desk. IsNew M.OfferPut.puts M.offer_room
            (offer_room_of J.inst J.cap) resident desk.0) }
        ensures fault { IfErr result (λ fault. fault ≡ Memory) }
    {
        let room = room(self.cap, self.inst.list_of_resident(resident).len());
        let Ok((offer_put, offer_take)) = self.mailboxes.open_offers(self.alloc, resident, room)
        else {
            return Err(RunFault::Memory);
        };
        match ResidentAgent::open(self.alloc, self.inst, resident, offer_take) {
            Ok(agent) => Ok((offer_put, Seat::new(agent))),
            Err(_) => Err(RunFault::Memory),
        }
    }

    // A programme's desk: the sending end of the desk's mailbox, and the desk's agent.
    fn programme(
        &self,
        programme: ProgrammeNo,
    ) -> Result<(M::AnswerPut, ProgrammeSeat<J, M>), RunFault>
        requires { IsProgramme J.inst programme }
        ensures new { IfOk result (λ desk. IsNew M.AnswerPut.puts M.answer_room
            (answer_room_of J.inst J.cap) programme desk.0) }
        ensures fault { IfErr result (λ fault. fault ≡ Memory) }
    {
        let room = room(self.cap, 2 * self.inst.list_of_programme(programme).len());
        let Ok((answer_put, answer_take)) = self.mailboxes.open_answers(self.alloc, programme, room)
        else {
            return Err(RunFault::Memory);
        };
        match ProgrammeAgent::open(self.alloc, self.inst, programme, answer_take) {
            Ok(agent) => Ok((answer_put, Seat::new(agent))),
            Err(_) => Err(RunFault::Memory),
        }
    }

    // The ledger over these new sending ends, and each worker's tally. No desk waits for room yet.
    fn exchange(
        &self,
        blank: Blank,
        workers: u32,
        offer_puts: Vec<M::OfferPut>,
        answer_puts: Vec<M::AnswerPut>,
    ) -> Result<(Exchange<J, M>, Vec<Tally<J>>), RunFault>
        requires workers { workers ≡ J.workers }
        requires blank { (blank.name ≡ J.name) × (blank.parts ≡ J.parts) × (J.parts ≡ 8) }
        requires offer_puts { Each offer_puts.items (length J.inst.resident_lists)
            (IsNew M.OfferPut.puts M.offer_room (offer_room_of J.inst J.cap)) }
        requires answer_puts { Each answer_puts.items (length J.inst.quotas)
            (IsNew M.AnswerPut.puts M.answer_room (answer_room_of J.inst J.cap)) }
        ensures { IfErr result (λ fault. fault ≡ Memory) }
    {
        let (alloc, inst) = (self.alloc, self.inst);
        let desks = offer_puts.len() + answer_puts.len();
        match Ledger::open(
            alloc,
            blank,
            inst,
            self.cap,
            workers,
            offer_puts,
            answer_puts,
        ) {
            Ok((ledger, tallies)) => Ok((Exchange::new(alloc, ledger, desks)?, tallies)),
            Err(_) => Err(RunFault::Memory),
        }
    }
}

// The room of a mailbox that gets at most `most_messages` in the whole exchange. The room is never more than can be
// used.
fn room(cap: Capacity, most_messages: usize) -> u32
    requires within { most_messages ≤ 2 * MAX_PAIRS }
    requires admitted { is_capacity cap ≡ true }
    ensures exact { result ≡ room_of cap most_messages }
    ensures some { result ≢ 0 }
{
    let full_room = (most_messages as u32).max(1);
    match cap {
        Capacity::Full => full_room,
        Capacity::Each(messages) => messages.min(full_room),
    }
}
