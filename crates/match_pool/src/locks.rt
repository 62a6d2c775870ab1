//! The locks of a run, and the order in which a worker takes them: first a desk's lock, then the ledger's lock or the
//! schedule's lock. Here is also where a worker waits for news. No other file of the crate has a mutex or a condition
//! variable.
ghost use Rattle.std.specs.Prelude.{◌≡◌};

use crate::gate::Gate;
use crate::naps::{NapRoom, Naps};
use crate::run_state::RunState;
use desk_scheduler::{RankLedger, Resting, WorkersIdentity};
use offer_ledger::ExchangeIdentity;
use std::hint::spin_loop;
use std::marker::PhantomData;
use std::sync::ledger::Share;
use std::sync::{Condvar, Mutex, MutexGuard, Wait};

/// A thread's rank for desks: one of the two parts that the thread has of the run's ledger of ranks. The rank takes
/// no bytes. While the thread holds a desk's lock, the lock's guard has the rank.
#[derive(Drop)]
pub(crate) struct DeskRank<J: WorkersIdentity> {
    share: Share<RankLedger<J>>,
    ghost one: { share.parts ≡ 1 },
    ghost none: { share.amount ≡ 0 },
}

/// A thread's rank for the ledger's lock and the schedule's: the thread's other part of the ledger of ranks. While
/// the thread holds one of these locks, the lock's guard has this part, and the rank has none.
#[derive(Drop)]
pub(crate) struct InnerRank<J: WorkersIdentity> {
    share: Share<RankLedger<J>>,
    ghost none: { share.amount ≡ 0 },
}

/// The two ranks of a thread, made of exactly the two parts that the thread has of the run's ledger of ranks.
pub(crate) fn ranks_of<J: WorkersIdentity>(
    share: Share<RankLedger<J>>,
) -> (DeskRank<J>, InnerRank<J>)
    requires parts { share.parts ≡ 2 }
    requires amount { share.amount ≡ 0 }
    ensures { result.1.share.parts ≡ 1 }
{
    let mut desk_share = share;
    let inner_share = desk_share.split_off(1, 0);
    (
        DeskRank { share: desk_share },
        InnerRank { share: inner_share },
    )
}

impl<J: WorkersIdentity> InnerRank<J> {
    // Takes the part out of the rank, for the guard of a lock.
    #[inline(always)]
    fn take_part(&mut self) -> HeldPart<J>
        requires { self.old.share.parts ≡ 1 }
        ensures { self.new.share.parts ≡ 0 }
    {
        HeldPart {
            share: self.share.split_off(1, 0),
        }
    }

    /// Releases the ledger's lock or the schedule's. The rank gets back the part that the lock's guard has.
    #[inline(always)]
    pub(crate) fn give_back<T>(&mut self, guard: InnerGuard<'_, J, T>)
        requires { self.old.share.parts ≡ 0 }
        ensures { self.new.share.parts ≡ 1 }
    {
        let InnerGuard {
            guard,
            held_part: HeldPart { share },
        } = guard;
        drop(guard);
        self.share.merge(share);
    }
}

/// A value under the ledger's lock or the schedule's lock.
#[derive(Drop)]
pub(crate) struct InnerLock<J: WorkersIdentity, T> {
    lock: Mutex<T>,
    run: PhantomData<J>,
}

/// The ledger's lock or the schedule's lock, while a thread holds it, with the thread's part of the ledger of ranks.
#[derive(Drop)]
pub(crate) struct InnerGuard<'a, J: WorkersIdentity, T> {
    guard: MutexGuard<'a, T>,
    held_part: HeldPart<J>,
}

/// The part that a thread's `InnerRank` lacks while the thread holds the ledger's lock or the schedule's.
#[derive(Drop)]
struct HeldPart<J: WorkersIdentity> {
    share: Share<RankLedger<J>>,
    ghost one: { share.parts ≡ 1 },
    ghost none: { share.amount ≡ 0 },
}

impl<J: WorkersIdentity, T> InnerLock<J, T> {
    /// A lock that no thread holds.
    pub(crate) fn new(value: T) -> InnerLock<J, T> {
        InnerLock {
            lock: Mutex::new(value),
            run: PhantomData,
        }
    }

    /// Takes the lock. The thread naps in this room while another thread holds the lock.
    #[inline(always)]
    pub(crate) fn lock<R: Wait>(
        &self,
        rt: &R,
        inner_rank: &mut InnerRank<J>,
        nap_room: &NapRoom,
    ) -> InnerGuard<'_, J, T>
        requires { inner_rank.old.share.parts ≡ 1 }
        ensures { inner_rank.new.share.parts ≡ 0 }
    {
        let held_part = inner_rank.take_part();
        InnerGuard {
            guard: lock_soon(rt, &self.lock, nap_room),
            held_part,
        }
    }

    /// Takes the lock, and does not nap.
    pub(crate) fn lock_at_once<R: Wait>(
        &self,
        rt: &R,
        inner_rank: &mut InnerRank<J>,
    ) -> InnerGuard<'_, J, T>
        requires { inner_rank.old.share.parts ≡ 1 }
        ensures { inner_rank.new.share.parts ≡ 0 }
    {
        let held_part = inner_rank.take_part();
        InnerGuard {
            guard: self.lock.lock(rt),
            held_part,
        }
    }

    /// Takes the value out of its lock.
    pub(crate) fn into_inner(self) -> T {
        let InnerLock { lock, run: _ } = self;
        lock.into_inner()
    }
}

impl<'a, J: WorkersIdentity, T> InnerGuard<'a, J, T> {
    /// The value under the lock.
    #[inline(always)]
    pub(crate) fn value(&mut self) -> &mut T {
        &mut self.guard
    }
}

impl<'s, 'a, J: ExchangeIdentity + WorkersIdentity, G: Gate> InnerGuard<'s, J, RunState<'a, J, G>> {
    /// Releases the schedule's lock and waits for news until a desk is listed or the run ends. Only a worker that is
    /// counted as resting has a `Resting`.
    pub(crate) fn rest<R: Wait>(
        self,
        rt: &R,
        news: &News,
        _resting: &Resting<J>,
    ) -> InnerGuard<'s, J, RunState<'a, J, G>> {
        let InnerGuard { guard, held_part } = self;
        InnerGuard {
            guard: news
                .0
                .wait_while(rt, guard, |state| !state.shift.has_news()),
            held_part,
        }
    }
}

/// Where resting workers wait for news.
#[derive(Drop)]
pub(crate) struct News(Condvar);

/// The end of a run, of which the resting workers have not heard yet. This value can't be dropped: only
/// `News::wake_all` takes it. So each function that ends the run wakes these workers before it returns.
pub(crate) struct Unheard(());

impl Unheard {
    /// An end that nobody has heard of.
    pub(crate) fn end() -> Unheard {
        Unheard(())
    }
}

impl News {
    /// A place for news where no worker waits yet.
    pub(crate) fn new() -> News {
        News(Condvar::new())
    }

    /// Wakes one worker that rests.
    pub(crate) fn wake_one(&self) {
        self.0.notify_one();
    }

    /// Wakes all workers that rest, so that they hear of the run's end.
    pub(crate) fn wake_all(&self, end: Unheard) {
        let Unheard(()) = end;
        self.0.notify_all();
    }
}

/// A value under a desk's lock.
#[derive(Drop)]
pub(crate) struct DeskLock<J: WorkersIdentity, T> {
    lock: Mutex<T>,
    run: PhantomData<J>,
}

/// A desk's lock, while a thread holds it, with the thread's rank for desks.
#[derive(Drop)]
pub(crate) struct DeskGuard<'a, J: WorkersIdentity, T> {
    guard: MutexGuard<'a, T>,
    rank: DeskRank<J>,
}

impl<J: WorkersIdentity, T> DeskLock<J, T> {
    /// A lock that no thread holds.
    pub(crate) fn new(value: T) -> DeskLock<J, T> {
        DeskLock {
            lock: Mutex::new(value),
            run: PhantomData,
        }
    }

    /// Waits for the desk's lock. The thread holds neither another desk's lock nor the ledger's or the schedule's.
    #[inline(always)]
    pub(crate) fn lock<R: Wait>(
        &self,
        rt: &R,
        rank: DeskRank<J>,
        inner_rank: &InnerRank<J>,
    ) -> DeskGuard<'_, J, T>
        requires { inner_rank.now.share.parts ≡ 1 }
    {
        DeskGuard {
            guard: self.lock.lock(rt),
            rank,
        }
    }

    /// Takes the value out of its lock.
    pub(crate) fn into_inner(self) -> T {
        let DeskLock { lock, run: _ } = self;
        lock.into_inner()
    }
}

impl<'a, J: WorkersIdentity, T> DeskGuard<'a, J, T> {
    /// The value under the lock.
    #[inline(always)]
    pub(crate) fn value(&mut self) -> &mut T {
        &mut self.guard
    }

    /// Releases the desk's lock.
    #[inline(always)]
    pub(crate) fn give_back(self) -> DeskRank<J> {
        let DeskGuard { guard, rank } = self;
        drop(guard);
        rank
    }
}

/// How often a worker tries a lock before it naps, and how long the worker pauses after each try.
const TRIES_PER_LOCK: u32 = 2;

const PAUSES_PER_TRY: u32 = 4;

/// How often a worker naps before it waits for a lock without a limit.
const NAPS_PER_LOCK: u32 = 20;

// Tries a lock a few times, and returns none if another worker holds the lock each time.
#[inline(always)]
fn try_soon<T>(lock: &Mutex<T>) -> Option<MutexGuard<'_, T>> {
    for _ in 0..TRIES_PER_LOCK {
        if let Some(guard) = lock.try_lock() {
            return Some(guard);
        }
        for _ in 0..PAUSES_PER_TRY {
            spin_loop();
        }
    }
    None
}

// Locks a lock that each worker needs for each event. If another worker holds the lock, this worker naps, so that the
// other one goes on alone. If a lock changes hands with each event, two workers are slower than one.
#[inline(always)]
fn lock_soon<'a, T, R: Wait>(rt: &R, lock: &'a Mutex<T>, nap_room: &NapRoom) -> MutexGuard<'a, T> {
    match try_soon(lock) {
        Some(guard) => guard,
        None => lock_later(rt, lock, nap_room),
    }
}

// Locks a lock that another worker holds. This worker tries the lock after each of several naps, and after the last
// nap waits for it.
#[cold]
fn lock_later<'a, T, R: Wait>(rt: &R, lock: &'a Mutex<T>, nap_room: &NapRoom) -> MutexGuard<'a, T> {
    let mut naps = Naps::FOR_LOCK;
    for _ in 0..NAPS_PER_LOCK {
        naps.nap(rt, nap_room);
        if let Some(guard) = try_soon(lock) {
            return guard;
        }
    }
    lock.lock(rt)
}
