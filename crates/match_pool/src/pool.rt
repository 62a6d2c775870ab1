//! A run of an exchange: an instance goes in, and the events and the result come out.
ghost use Rattle.std.specs.Prelude.{◌≡◌, ◌≤◌, true, IfOk, IfErr, OnOk};
ghost use Rattle.exchange_core.specs.Shown.{is_capacity};
ghost use Rattle.match_pool.specs.Done.{IsRunOf, IsFault, IsRunFault};

use crate::after_joins::Reserve;
use crate::done::Done;
use crate::drive::drive;
use crate::fault::RunFault;
use crate::gate::Gate;
use crate::mailboxes::{Mailboxes, RuledMailboxes};
use crate::open::RunStart;
use desk_scheduler::{WorkerBlanks, WorkersIdentity};
use exchange_core::Capacity;
use match_model::Instance;
use offer_ledger::{ExchangeIdentity, PARTS};
use std::alloc::Global;
use std::marker::{Brand, PhantomData};
use std::sync::Wait;
use std::sync::ledger::Blank;
use std::thread::Threads;

/// The greatest number of workers of a run.
const MOST_WORKERS: usize = 8;

/// The result of a run with ruled mailboxes.
pub type RuledDone<R> = Done<RuledMailboxes<R>>;

/// Runs the exchange of an instance with this number of workers, from 1 to 8, until the exchange is closed or the gate
/// stops the run.
///
/// After a stop each worker enters only the event that it has begun. A stop at the run's last receipt may come too
/// late: once this receipt is entered, a worker that has not seen the stop may close the exchange. Then the run ends as
/// `Closed`.
pub fn run<G: Gate + Sync, R: Threads + Wait + Sync + Send + Copy>(
    rt: R,
    alloc: Global,
    inst: &Instance,
    cap: Capacity,
    workers: usize,
    gate: &G,
) -> Result<RuledDone<R>, RunFault>
    ensures run { IfOk result (λ done. IsRunOf done (λ end. end.puts) (λ end. end.taken)
        (λ end. end.puts) (λ end. end.taken) inst.now cap workers G.MAY_STOP) }
    ensures admitted { OnOk result ((1 ≤ workers) × (workers ≤ 8) × (is_capacity cap ≡ true)) }
    ensures fault { IfErr result (IsRunFault inst.now cap workers) }
{
    run_over(rt, alloc, &RuledMailboxes(rt), inst, cap, workers, gate)
}

/// Runs the exchange of an instance over these mailboxes, until the exchange is closed or the gate stops the run. There
/// are `workers` workers, from 1 to 8.
pub fn run_over<M: Mailboxes + Send + Sync, G: Gate + Sync, R: Threads + Wait + Sync + Copy>(
    rt: R,
    alloc: Global,
    mailboxes: &M,
    inst: &Instance,
    cap: Capacity,
    workers: usize,
    gate: &G,
) -> Result<Done<M>, RunFault>
    ensures run { IfOk result (λ done. IsRunOf done M.OfferPut.puts M.OfferTake.taken
        M.AnswerPut.puts M.AnswerTake.taken inst.now cap workers G.MAY_STOP) }
    ensures admitted { OnOk result ((1 ≤ workers) × (workers ≤ 8) × (is_capacity cap ≡ true)) }
    ensures fault { IfErr result (IsRunFault inst.now cap workers) }
{
    if workers == 0 || workers > MOST_WORKERS {
        return Err(RunFault::BadWorkers);
    }
    if !cap.is_admitted() {
        return Err(RunFault::BadCapacity);
    }
    let blanks = Blanks {
        entries: Blank::new(PARTS),
        workers: WorkerBlanks::new(),
    };
    run_named::<Brand, M, G, R>(&rt, alloc, blanks, mailboxes, inst, cap, workers, gate)
}

/// Empty records for the two counts of a run: of the ledger's entries, and of the workers.
#[derive(Drop)]
struct Blanks {
    entries: Blank,
    workers: WorkerBlanks,
}

// Runs the exchange of the instance and the capacity that the type names.
fn run_named<
    J: ExchangeIdentity + WorkersIdentity + Send + Sync,
    M: Mailboxes + Send + Sync,
    G: Gate + Sync,
    R: Threads + Wait + Sync,
>(
    rt: &R,
    alloc: Global,
    blanks: Blanks,
    mailboxes: &M,
    inst: &Instance,
    cap: Capacity,
    workers: usize,
    gate: &G,
) -> Result<Done<M>, RunFault>
    requires instance { inst.now ≡ J.inst }
    requires capacity { cap ≡ J.cap }
    requires workers { (workers ≡ J.workers) × (1 ≤ workers) × (workers ≤ 8) }
    requires entries { (blanks.entries.name ≡ J.name)
        × (blanks.entries.parts ≡ J.parts) × (J.parts ≡ 8) }
    requires holding { blanks.workers.holding.name ≡ J.holding_ledger }
    requires looking { blanks.workers.looking.name ≡ J.looking_ledger }
    requires resting { blanks.workers.resting.name ≡ J.resting_ledger }
    requires ranks { blanks.workers.ranks.name ≡ J.rank_ledger }
    requires admitted { is_capacity cap ≡ true }
    ensures run { IfOk result (λ done. IsRunOf done M.OfferPut.puts M.OfferTake.taken
        M.AnswerPut.puts M.AnswerTake.taken inst.now cap workers G.MAY_STOP) }
    ensures fault { IfErr result (IsFault inst.now cap) }
{
    let reserve = Reserve::new(alloc, inst, workers)?;
    let Blanks {
        entries,
        workers: worker_blanks,
    } = blanks;
    let run_start = RunStart::<J, M> {
        alloc,
        mailboxes,
        inst,
        cap,
        exchange: PhantomData,
    };
    let (worker_counts, crew, ranks) = worker_blanks.open();
    let (shared, tallies) = run_start.shared::<G>(entries, worker_counts, workers as u32)?;
    let tallies = drive(rt, alloc, inst, &shared, gate, tallies, crew, ranks)?;
    reserve.finish(inst, shared, tallies)
}
