//! The threads of a run, one for each worker.
ghost use Rattle.std.specs.Prelude.{◌≡◌, ◌≤◌, ◌⊎◌, [], length, vec_capacity, IfErr};
ghost use Rattle.match_pool.specs.declared.fault.RunFault.TheVariants.{Memory, Thread};

use crate::fault::{RunFault, Trouble};
use crate::gate::Gate;
use crate::locks::{InnerRank, ranks_of};
use crate::mailboxes::Mailboxes;
use crate::shared::SharedState;
use crate::worker::Worker;
use desk_scheduler::{Crew, Ranks, WorkersIdentity};
use match_model::Instance;
use offer_ledger::{ExchangeIdentity, Tally};
use std::alloc::Global;
use std::sync::Wait;
use std::thread;
use std::thread::{Builder, JoinHandle, Scope, Threads};

/// The size of a worker's stack, in bytes. A worker uses about 5,000 bytes.
const STACK_BYTES: usize = 256 * 1024;

/// The threads of the workers. Each thread returns its worker's tally.
type Handles<J> = Vec<JoinHandle<Tally<J>>>;

/// Starts a worker for each tally, and waits until all workers have ended. The tallies come back in the order of
/// workers. If the system refuses to start a worker, the workers already started are ended.
pub(crate) fn drive<J, M, G, R>(
    rt: &R,
    alloc: Global,
    inst: &Instance,
    shared: &SharedState<'_, J, M, G>,
    gate: &G,
    tallies: Vec<Tally<J>>,
    crew: Crew<J>,
    ranks: Ranks<J>,
) -> Result<Vec<Tally<J>>, RunFault>
where
    J: ExchangeIdentity + WorkersIdentity + Send + Sync,
    M: Mailboxes + Send + Sync,
    M::OfferPut: Send,
    M::OfferTake: Send,
    M::AnswerPut: Send,
    M::AnswerTake: Send,
    G: Gate + Sync,
    R: Threads + Wait + Sync,
    requires { inst.now ≡ J.inst }
    ensures { IfErr result (λ fault. (fault ≡ Memory) ⊎ (fault ≡ Thread)) }
{
    let workers = tallies.len();
    let handles = Vec::with_capacity(alloc, workers)?;
    let mut ended_tallies = Vec::with_capacity(alloc, workers)?;
    let started = thread::scope(
        thread::scope_env(),
        rt,
        |scope| -> Option<Handles<J>>
            requires instance { inst.now ≡ J.inst }
            requires none { handles.items ≡ [] }
            requires room { length tallies.items ≤ vec_capacity handles }
        { start_all(scope, rt, inst, shared, gate, tallies, handles, crew, ranks) },
    );
    let Some(handles) = started else {
        return Err(RunFault::Thread);
    };
    for handle in handles {
        ended_tallies.push(handle.join(rt))?;
    }
    Ok(ended_tallies)
}

// What the thread that starts the workers has: the workers that have not begun, the ranks that no thread has yet, and a
// rank of its own.
#[derive(Drop)]
struct Starter<J: WorkersIdentity> {
    crew: Crew<J>,
    ranks: Ranks<J>,
    inner_rank: InnerRank<J>,
    ghost idle: { inner_rank.share.parts ≡ 1 },
}

impl<J: WorkersIdentity> Starter<J> {
    // Takes ranks for the starting thread, which never takes a desk's lock. The result is none if there are no ranks.
    fn new(crew: Crew<J>, ranks: Ranks<J>) -> Option<Starter<J>> {
        let mut ranks = ranks;
        let (_, inner_rank) = ranks_of(ranks.of_thread()?);
        Some(Starter {
            crew,
            ranks,
            inner_rank,
        })
    }
}

// Starts a worker for each tally. If the system refuses to start one, the result is none, and the run is ended.
fn start_all<'s, 'f, E, J, M, G, R>(
    scope: &Scope<'s, E>,
    rt: &'s R,
    inst: &'s Instance,
    shared: &'s SharedState<'f, J, M, G>,
    gate: &'s G,
    tallies: Vec<Tally<J>>,
    handles: Handles<J>,
    crew: Crew<J>,
    ranks: Ranks<J>,
) -> Option<Handles<J>>
where
    J: ExchangeIdentity + WorkersIdentity + Send + Sync,
    M: Mailboxes + Send + Sync,
    M::OfferPut: Send,
    M::OfferTake: Send,
    M::AnswerPut: Send,
    M::AnswerTake: Send,
    G: Gate + Sync,
    R: Wait + Sync,
    requires instance { inst.now ≡ J.inst }
    requires none { handles.items ≡ [] }
    requires room { length tallies.items ≤ vec_capacity handles }
{
    let mut starter = Starter::new(crew, ranks)?;
    let mut handles = handles;
    let mut worker_number = 0;
    for tally in tallies {
        let handle = start_one(
            scope,
            rt,
            inst,
            shared,
            gate,
            worker_number,
            tally,
            &mut starter,
        )?;
        handles.push_reserved(handle);
        worker_number = worker_number.saturating_add(1);
    }
    Some(handles)
}

// Starts the worker with this number and tally. If the system refuses, the result is none, and the run is ended.
fn start_one<'s, 'f, E, J, M, G, R>(
    scope: &Scope<'s, E>,
    rt: &'s R,
    inst: &'s Instance,
    shared: &'s SharedState<'f, J, M, G>,
    gate: &'s G,
    worker_number: usize,
    tally: Tally<J>,
    starter: &mut Starter<J>,
) -> Option<JoinHandle<Tally<J>>>
where
    J: ExchangeIdentity + WorkersIdentity + Send + Sync,
    M: Mailboxes + Send + Sync,
    M::OfferPut: Send,
    M::OfferTake: Send,
    M::AnswerPut: Send,
    M::AnswerTake: Send,
    G: Gate + Sync,
    R: Wait + Sync,
    requires { inst.now ≡ J.inst }
{
    let begun_worker = shared.begin_one(rt, &mut starter.inner_rank, &mut starter.crew);
    let (Some(looking), Some(share)) = (begun_worker, starter.ranks.of_thread()) else {
        shared.fail(rt, &mut starter.inner_rank, Trouble::Thread);
        return None;
    };
    let thread = Builder::new().stack_size(STACK_BYTES);
    let spawned = thread.spawn_scoped(
        scope,
        move || -> Tally<J>
            requires instance { inst.now ≡ J.inst }
            requires parts { (share.parts ≡ 2) × (share.amount ≡ 0) }
        {
            let (desk_rank, inner_rank) = ranks_of(share);
            let worker = Worker::new(rt, inst, gate, shared, worker_number, tally, inner_rank);
            let (tally, _looking) = worker.work(desk_rank, looking);
            tally
        },
    );
    match spawned {
        Ok(handle) => Some(handle),
        Err(_) => {
            shared.fail(rt, &mut starter.inner_rank, Trouble::Thread);
            None
        }
    }
}
