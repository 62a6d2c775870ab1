//! What a run returns after its workers have ended, and the memory that the run reserves for this at its start.
ghost use Rattle.std.specs.Prelude.{◌≡◌, ◌≢◌, ◌↔◌, Bool, None, Some, Err, length, replicate, true, IfOk, IfErr};
ghost use Rattle.exchange_core.specs.declared.event.Event.{Event};
ghost use Rattle.exchange_core.specs.Legal.{IsClosed};
ghost use Rattle.exchange_core.specs.Mail.{takes, hears};
ghost use Rattle.match_pool.specs.Compare.{AreLogs, AreByResident, AreByProgramme, taken_of, heard_of};
ghost use Rattle.match_pool.specs.Done.{IsRunOf, AreCounted, IsFault};
ghost use Rattle.match_pool.specs.Exchange.{IsOutOfStep};
ghost use Rattle.match_pool.specs.RunState.{desk_of, fault_of};
ghost use Rattle.match_pool.specs.declared.fault.RunFault.{RunFault};
ghost use Rattle.match_pool.specs.declared.fault.RunFault.TheVariants.{Memory};

use crate::compare::{Agents, Logs, compare};
use crate::done::{Done, Ending, Ends};
use crate::exchange::Exchange;
use crate::fault::{RunFault, Trouble};
use crate::gate::Gate;
use crate::mailboxes::Mailboxes;
use crate::run_state::RunState;
use crate::shared::SharedState;
use desk_scheduler::WorkersIdentity;
use exchange_core::{Desk, Event, Pending};
use match_agents::{ProgrammeAgent, ResidentAgent};
use match_model::{Assignment, Instance};
use offer_ledger::{ExchangeIdentity, Ledger, Tally};
use settle_law::{law_orderly, law_settled};
use std::alloc::Global;

/// Memory for the comparison of the logs and for the result. This memory is reserved at the start, so that no call
/// after the end of the workers needs memory.
pub(crate) struct Reserve<M: Mailboxes> {
    residents: Logs<ResidentAgent<M::OfferTake>>,
    programmes: Logs<ProgrammeAgent<M::AnswerTake>>,
    assignment: Assignment,
    entered: Vec<u64>,
}

// One function drops the whole reserve: callers prove nothing about its parts.
impl<M: Mailboxes> Drop for Reserve<M> {
    fn drop(self) {
        let Reserve {
            residents: _,
            programmes: _,
            assignment: _,
            entered: _,
        } = self;
    }
}

impl<M: Mailboxes> Reserve<M> {
    /// Reserves memory for a run of this instance by this number of workers.
    pub(crate) fn new(
        alloc: Global,
        inst: &Instance,
        workers: usize,
    ) -> Result<Reserve<M>, RunFault>
        ensures made { IfOk result (λ reserve.
            length reserve.assignment ≡ length inst.now.resident_lists) }
        ensures uncounted { IfOk result (λ reserve. reserve.entered.items ≡ replicate workers 0) }
        ensures fault { IfErr result (λ fault. fault ≡ Memory) }
    {
        let residents = Logs::with_room(alloc, inst.residents() as usize)?;
        let programmes = Logs::with_room(alloc, inst.programmes() as usize)?;
        let entered = vec![in alloc; 0_u64; workers]?;
        match Assignment::new(alloc, inst.residents()) {
            Ok(assignment) => Ok(Reserve {
                residents,
                programmes,
                assignment,
                entered,
            }),
            Err(_) => Err(RunFault::Memory),
        }
    }

    /// The result of a run whose workers have ended and gave these tallies back.
    pub(crate) fn finish<J: ExchangeIdentity + WorkersIdentity, G: Gate>(
        self,
        inst: &Instance,
        shared: SharedState<'_, J, M, G>,
        tallies: Vec<Tally<J>>,
    ) -> Result<Done<M>, RunFault>
        requires instance { inst.now ≡ J.inst }
        requires uncounted { self.entered.items ≡ replicate J.workers 0 }
        requires room { length self.assignment ≡ length inst.now.resident_lists }
        ensures run { IfOk result (λ done. IsRunOf done M.OfferPut.puts M.OfferTake.taken
            M.AnswerPut.puts M.AnswerTake.taken inst.now J.cap J.workers G.MAY_STOP) }
        ensures fault { IfErr result (IsFault inst.now J.cap) }
    {
        let Reserve {
            mut residents,
            mut programmes,
            assignment,
            entered,
        } = self;
        let (resident_desks, programme_desks, exchange, state) = shared.into_parts();
        let (ledger, ending) = outcome_of(inst, exchange, &state)?;
        join_all(tallies);
        residents.fill(resident_desks);
        programmes.fill(programme_desks);
        let desk_counts = (inst.residents(), inst.programmes());
        match compare(residents, programmes, ledger.journal(), desk_counts) {
            Ok(agents) => Ok(done_of(inst, ledger, ending, agents, assignment, entered)),
            Err(desk) => Err(RunFault::Torn(desk)),
        }
    }
}

// Joins the tallies of all workers, so that together they count all entries of the ledger. How many events each
// worker entered is counted from the ledger's own list of workers.
fn join_all<J: ExchangeIdentity>(tallies: Vec<Tally<J>>) {
    let mut tallies = tallies.into_iter();
    if let Some(mut whole_tally) = tallies.next() {
        for tally in tallies {
            whole_tally.join(tally);
        }
    }
}

// How the run ended, with its ledger; or the fault that ended it early.
fn outcome_of<J: ExchangeIdentity + WorkersIdentity, M: Mailboxes, G: Gate>(
    inst: &Instance,
    exchange: Exchange<J, M>,
    state: &RunState<'_, J, G>,
) -> Result<(Ledger<J, M::OfferPut, M::AnswerPut>, Ending), RunFault>
    requires { inst.now ≡ J.inst }
    ensures closed { IfOk result (λ outcome. (outcome.1 ≡ Ending.Closed)
        ↔ IsClosed outcome.0.journal) }
    ensures stopped { IfOk result (λ outcome. outcome.1 ≡ Ending.Stopped → G.MAY_STOP ≡ true) }
    ensures fault { IfErr result (IsFault inst.now J.cap) }
    ensures told { (fault : RunFault)
        → fault_of state.now.trouble ≡ Some fault → result ≡ Err fault }
    ensures refused { exchange.out_of_step ≢ None → IfOk result (λ _. ⊥) }
{
    match state.trouble() {
        Some(Trouble::Torn(desk)) => return Err(RunFault::Torn(desk)),
        Some(Trouble::MailGone(desk)) => return Err(RunFault::MailGone(desk)),
        Some(Trouble::Thread) => return Err(RunFault::Thread),
        Some(Trouble::OutOfStep) | None => {}
    }
    let (ledger, out_of_step) = exchange.into_parts();
    if let Some(receipt) = out_of_step {
        return Err(out_of_step_fault::<J, M>(inst, ledger, receipt));
    }
    let ending = ending_of::<J, M>(inst, &ledger, state.is_stopped())?;
    Ok((ledger, ending))
}

// The fault for a receipt that may not follow the journal of the ledger.
fn out_of_step_fault<J: ExchangeIdentity, M: Mailboxes>(
    inst: &Instance,
    ledger: Ledger<J, M::OfferPut, M::AnswerPut>,
    receipt: Event,
) -> RunFault
    requires instance { inst.now ≡ J.inst }
    requires out_of_step { IsOutOfStep J.inst J.cap ledger receipt }
    ensures { IsFault inst.now J.cap result }
{
    let (journal, ..) = ledger.into_parts();
    RunFault::OutOfStep {
        journal,
        event: receipt,
    }
}

// How a run without a fault ended: closed, or stopped by the gate. If it was neither closed nor stopped, the fault
// names a desk at which something is pending. If nothing is pending, no worker ever began, so nobody closed the
// exchange.
fn ending_of<J: ExchangeIdentity, M: Mailboxes>(
    inst: &Instance,
    ledger: &Ledger<J, M::OfferPut, M::AnswerPut>,
    stopped: bool,
) -> Result<Ending, RunFault>
    requires { inst.now ≡ J.inst }
    ensures closed { IfOk result (λ ending. (ending ≡ Ending.Closed)
        ↔ IsClosed ledger.now.journal) }
    ensures stopped { IfOk result (λ ending. ending ≡ Ending.Stopped → stopped ≡ true) }
    ensures fault { IfErr result (IsFault inst.now J.cap) }
{
    if ledger.core().is_closed() {
        return Ok(Ending::Closed);
    }
    if stopped {
        return Ok(Ending::Stopped);
    }
    let Some(pending) = ledger.core().first_pending(inst) else {
        return Err(RunFault::Thread);
    };
    Err(RunFault::Torn(pending_desk(pending)))
}

// The desk at which something is pending.
fn pending_desk(pending: Pending) -> Desk
    ensures { result ≡ desk_of pending }
{
    match pending {
        Pending::Offers(resident) => Desk::Resident(resident),
        Pending::Due(resident) => Desk::Resident(resident),
        Pending::Answers(programme) => Desk::Programme(programme),
        Pending::Wish(programme) => Desk::Programme(programme),
    }
}

// The result of a run in which each desk's log agrees with the journal.
fn done_of<J: ExchangeIdentity, M: Mailboxes>(
    inst: &Instance,
    ledger: Ledger<J, M::OfferPut, M::AnswerPut>,
    ending: Ending,
    agents: Agents<M::OfferTake, M::AnswerTake>,
    assignment: Assignment,
    entered: Vec<u64>,
) -> Done<M>
    requires instance { inst.now ≡ J.inst }
    requires room { length assignment ≡ length inst.now.resident_lists }
    requires uncounted { entered.items ≡ replicate J.workers 0 }
    requires ending { (ending ≡ Ending.Closed) ↔ IsClosed ledger.journal }
    requires takes { AreLogs taken_of agents.0.items (length inst.now.resident_lists) (λ r.
        takes r ledger.journal) }
    requires taken { AreByResident M.OfferTake.taken agents.0.items }
    requires hears { AreLogs heard_of agents.1.items (length inst.now.quotas) (λ p.
        hears p ledger.journal) }
    requires heard { AreByProgramme M.AnswerTake.taken agents.1.items }
    ensures { (may_stop : Bool)
        → (ending ≡ Ending.Stopped → may_stop ≡ true) → IsRunOf result M.OfferPut.puts
        M.OfferTake.taken M.AnswerPut.puts M.AnswerTake.taken inst.now J.cap J.workers may_stop }
{
    law_orderly();
    law_settled();
    let _members = inst.residents();
    let (mut assignment, mut entered) = (assignment, entered);
    ledger.core().assignment(&mut assignment);
    count::<J, M>(&ledger, &mut entered);
    let (journal, _, offer_puts, answer_puts, who) = ledger.into_parts();
    let (residents, programmes) = agents;
    Done {
        ending,
        journal,
        who,
        assignment,
        entered,
        ends: Ends {
            offer_puts,
            residents,
            answer_puts,
            programmes,
        },
    }
}

// Counts for each worker the events that this worker entered.
fn count<J: ExchangeIdentity, M: Mailboxes>(
    ledger: &Ledger<J, M::OfferPut, M::AnswerPut>,
    entered: &mut Vec<u64>,
)
    requires { entered.old.items ≡ replicate J.workers 0 }
    ensures { AreCounted J.workers ledger.now.journal ledger.now.who entered.new.items }
{
    let who = ledger.who();
    for worker in who {
        entered[usize::from(*worker)] += 1;
    }
}
