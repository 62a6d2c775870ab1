//! What all workers of a run share.
ghost use Rattle.std.specs.Prelude.{◌≡◌, true};

use crate::exchange::Exchange;
use crate::fault::Trouble;
use crate::gate::Gate;
use crate::locks::{DeskLock, InnerGuard, InnerLock, InnerRank, News};
use crate::mailboxes::Mailboxes;
use crate::naps::{NapRoom, Naps};
use crate::run_state::RunState;
use crate::seats::{ProgrammeSeat, ResidentSeat};
use desk_scheduler::{Crew, Looking, Resting, WorkersIdentity};
use offer_ledger::{CloseToken, ExchangeIdentity};
use std::sync::Wait;

/// The parts of the shared state: the seats of the residents and of the programmes, the exchange, and the state of the
/// run.
pub(crate) type SharedParts<'a, J, M, G> = (
    Vec<DeskLock<J, ResidentSeat<J, M>>>,
    Vec<DeskLock<J, ProgrammeSeat<J, M>>>,
    Exchange<J, M>,
    RunState<'a, J, G>,
);

/// The locks of a run, in the order in which a worker takes them: a desk's lock first, and then either the ledger's
/// lock or the schedule's lock.
pub(crate) struct SharedState<'a, J: ExchangeIdentity + WorkersIdentity, M: Mailboxes, G: Gate> {
    pub(crate) residents: Vec<DeskLock<J, ResidentSeat<J, M>>>,
    pub(crate) programmes: Vec<DeskLock<J, ProgrammeSeat<J, M>>>,
    exchange: InnerLock<J, Exchange<J, M>>,
    state: InnerLock<J, RunState<'a, J, G>>,
    news: News,
    lock_nap_room: NapRoom,
    work_nap_room: NapRoom,
}

// One function drops the whole shared state: callers prove nothing about its parts.
impl<'a, J: ExchangeIdentity + WorkersIdentity, M: Mailboxes, G: Gate> Drop
    for SharedState<'a, J, M, G> {
    fn drop(self) {
        let SharedState {
            residents: _,
            programmes: _,
            exchange: _,
            state: _,
            news: _,
            lock_nap_room: _,
            work_nap_room: _,
        } = self;
    }
}

impl<'a, J: ExchangeIdentity + WorkersIdentity, M: Mailboxes, G: Gate> SharedState<'a, J, M, G> {
    /// The seats, the exchange and the state of the run. The exchange and the state are taken out of their locks.
    pub(crate) fn into_parts(self) -> SharedParts<'a, J, M, G> {
        let SharedState {
            residents,
            programmes,
            exchange,
            state,
            news: _,
            lock_nap_room: _,
            work_nap_room: _,
        } = self;
        let exchange = exchange.into_inner();
        (residents, programmes, exchange, state.into_inner())
    }

    /// The seats, the exchange and the state of the run, each put under its lock.
    pub(crate) fn new(
        residents: Vec<DeskLock<J, ResidentSeat<J, M>>>,
        programmes: Vec<DeskLock<J, ProgrammeSeat<J, M>>>,
        exchange: Exchange<J, M>,
        state: RunState<'a, J, G>,
    ) -> SharedState<'a, J, M, G> {
        SharedState {
            residents,
            programmes,
            exchange: InnerLock::new(exchange),
            state: InnerLock::new(state),
            news: News::new(),
            lock_nap_room: NapRoom::new(),
            work_nap_room: NapRoom::new(),
        }
    }

    /// The ledger and the desks that wait for room, once this thread has their lock.
    #[inline(always)]
    pub(crate) fn lock_exchange<R: Wait>(
        &self,
        rt: &R,
        inner_rank: &mut InnerRank<J>,
    ) -> InnerGuard<'_, J, Exchange<J, M>>
        requires { inner_rank.old.share.parts ≡ 1 }
        ensures { inner_rank.new.share.parts ≡ 0 }
    {
        self.exchange.lock(rt, inner_rank, &self.lock_nap_room)
    }

    /// The schedule and the state of the run, once this thread has their lock.
    #[inline(always)]
    pub(crate) fn lock_state<R: Wait>(
        &self,
        rt: &R,
        inner_rank: &mut InnerRank<J>,
    ) -> InnerGuard<'_, J, RunState<'a, J, G>>
        requires { inner_rank.old.share.parts ≡ 1 }
        ensures { inner_rank.new.share.parts ≡ 0 }
    {
        self.state.lock(rt, inner_rank, &self.lock_nap_room)
    }

    /// Naps once, because the worker found no desk with work. Also wakes the workers that nap for a lock, since one
    /// of them may hold a desk with work.
    pub(crate) fn nap<R: Wait>(&self, rt: &R, naps: &mut Naps) {
        self.lock_nap_room.rouse();
        naps.nap(rt, &self.work_nap_room);
    }

    /// Whether the run ends.
    #[inline(always)]
    pub(crate) fn is_ending(&self) -> bool {
        self.lock_nap_room.is_over()
    }

    /// Ends the run, because the close is entered.
    pub(crate) fn close<R: Wait>(&self, rt: &R, inner_rank: &mut InnerRank<J>, close: CloseToken<J>)
        requires { inner_rank.old.share.parts ≡ 1 }
        ensures { inner_rank.new.share.parts ≡ 1 }
    {
        self.end_naps();
        let mut state = self.lock_state(rt, inner_rank);
        let unheard_end = state.value().close(close);
        inner_rank.give_back(state);
        self.news.wake_all(unheard_end);
    }

    /// Ends the run, because the gate said so. Each worker still enters the event that it has begun, and then leaves.
    pub(crate) fn stop<R: Wait>(&self, rt: &R, inner_rank: &mut InnerRank<J>)
        requires may_stop { G.MAY_STOP ≡ true }
        requires free { inner_rank.old.share.parts ≡ 1 }
        ensures { inner_rank.new.share.parts ≡ 1 }
    {
        let mut state = self.lock_state(rt, inner_rank);
        let unheard_end = state.value().stop();
        inner_rank.give_back(state);
        self.end_naps();
        self.news.wake_all(unheard_end);
    }

    /// Ends the run with a fault. If there are several faults, the first fault stays.
    pub(crate) fn fail<R: Wait>(&self, rt: &R, inner_rank: &mut InnerRank<J>, trouble: Trouble)
        requires { inner_rank.old.share.parts ≡ 1 }
        ensures { inner_rank.new.share.parts ≡ 1 }
    {
        self.end_naps();
        let mut state = self.lock_state(rt, inner_rank);
        let unheard_end = state.value().fail(trouble);
        inner_rank.give_back(state);
        self.news.wake_all(unheard_end);
    }

    // Notes that no worker may begin another event, and wakes all workers that nap.
    fn end_naps(&self) {
        self.lock_nap_room.end();
        self.work_nap_room.end();
    }

    /// Counts one more worker of the crew as begun, before its thread starts. The result is none if too many have
    /// begun.
    pub(crate) fn begin_one<R: Wait>(
        &self,
        rt: &R,
        inner_rank: &mut InnerRank<J>,
        crew: &mut Crew<J>,
    ) -> Option<Looking<J>>
        requires { inner_rank.old.share.parts ≡ 1 }
        ensures { inner_rank.new.share.parts ≡ 1 }
    {
        let mut state = self.state.lock_at_once(rt, inner_rank);
        let begun_worker = state.value().shift.begins(crew);
        inner_rank.give_back(state);
        begun_worker
    }

    /// Waits for news until a desk is listed or the run ends. The worker is counted as resting.
    pub(crate) fn rest<'s, R: Wait>(
        &self,
        rt: &R,
        state: InnerGuard<'s, J, RunState<'a, J, G>>,
        resting: &Resting<J>,
    ) -> InnerGuard<'s, J, RunState<'a, J, G>> {
        state.rest(rt, &self.news, resting)
    }

    /// Wakes one of the workers that rest until a desk is listed.
    pub(crate) fn wake_one(&self) {
        self.news.wake_one();
    }
}
