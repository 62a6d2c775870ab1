//! The workers of a run and its desks, as one value under one lock.
ghost use Rattle.std.specs.Prelude.{◌≡◌, ◌⊎◌, ◌+◌, ◌<◌, ◌≤◌, ◌||◌, ◌&&◌, [], false, true, fold, nat_lt, IfOk, IfErr, IfSome, IfNone};
ghost use Rattle.desk_scheduler.specs.Desks.{letting_go};
ghost use Rattle.desk_scheduler.specs.Shift.{GetDesks, next_in, desks_in};
ghost use Rattle.desk_scheduler.specs.Turns.{IsInHand, at_desk, next_of, claim_or_next_of, waiting_now, ended_now, any_ready, woken_by};

use crate::scheduler::{Next, Scheduler};
use crate::turn::Turn;
use crate::woken::Woken;
use crate::workers::{Crew, Holding, Looking, Resting, Workers, WorkersIdentity};
use std::marker::Model;

/// A desk that a worker has. Only a worker that looked for a desk gets a `Hand`, and it gives the `Hand` back when it
/// leaves the desk.
#[derive(Drop)]
pub struct Hand<J: WorkersIdentity> {
    desk: u32,
    holding: Holding<J>,
}

impl<J: WorkersIdentity> Hand<J> {
    /// The number of the desk.
    #[inline(always)]
    pub fn desk(&self) -> u32
        ensures { result ≡ self.now.desk }
    {
        self.desk
    }
}

/// The answer to a worker of this run that looks for a desk.
pub type TurnOf<J> = Turn<Hand<J>, Looking<J>>;

/// The schedule of a run, and its workers. Each worker has a token that says what it does: a `Hand` with a desk,
/// `Looking`, or `Resting`. Only calls of this value give tokens, and each call takes the worker's old token. At no
/// time do all workers rest.
#[derive(Drop)]
pub struct Shift<J: WorkersIdentity> {
    scheduler: Scheduler,
    workers: Workers<J>,
}

impl<J: WorkersIdentity> Model for Shift<J> {
    ghost use Rattle.std.specs.Prelude.{◌≡◌};
    ghost use Rattle.desk_scheduler.specs.Shift.{Manned};

    ghost Value = { Manned };

    ghost view = { λ s. record {
      schedule = s.scheduler;
      begun = s.workers.begun;
      holding = s.workers.holding.total;
      looking = s.workers.looking.total;
      resting = s.workers.resting.total;
    } };

    ghost invariant = { λ s. s.scheduler.waiting ≡ s.workers.resting.total };
}

impl<J: WorkersIdentity> Shift<J> {
    /// A shift with this schedule, before any worker begins.
    pub fn new(scheduler: Scheduler, workers: Workers<J>) -> Shift<J>
        requires nobody_waits { scheduler.waiting ≡ 0 }
        requires nobody { workers.begun ≡ 0 }
        ensures schedule { result.schedule ≡ scheduler }
        ensures nobody { result.begun ≡ 0 }
    {
        Shift { scheduler, workers }
    }

    /// Counts one more worker of the crew as begun; it looks for a desk. The result is none if 63 workers have begun,
    /// or if the crew has no worker left.
    pub fn begins(&mut self, crew: &mut Crew<J>) -> Option<Looking<J>>
        ensures begun { IfSome result (λ _. self.new.begun ≡ self.old.begun + 1) }
        ensures crew { IfSome result (λ _. crew.new.workers_left + 1 ≡ crew.old.workers_left) }
        ensures looks { IfSome result (λ _. self.new.looking ≡ self.old.looking + 1) }
        ensures others { (self.new.holding ≡ self.old.holding)
            × (self.new.resting ≡ self.old.resting) }
        ensures none { IfNone result (((63 ≤ self.old.begun) ⊎ (crew.old.workers_left ≡ 0))
            × (self.new ≡ self.old) × (crew.new ≡ crew.old)) }
        ensures schedule { self.new.schedule ≡ self.old.schedule }
    {
        self.workers.begins(crew)
    }

    /// Lists all noted desks, and removes the notes.
    #[inline(always)]
    pub fn list_all(&mut self, woken: &mut Woken)
        ensures listed { self.new.schedule ≡ fold woken_by self.old.schedule woken.old }
        ensures goes_on { self.new.schedule.ended ≡ self.old.schedule.ended }
        ensures counted { GetDesks self.old self.new 0 }
        ensures none_left { woken.new ≡ [] }
    {
        self.scheduler.list_all(woken);
    }

    /// Notes that a worker leaves its desk and looks for a desk again. If the desk that it left may have work again,
    /// this desk is listed.
    #[inline(always)]
    pub fn let_go(&mut self, hand: Hand<J>, visit_again: bool) -> Looking<J>
        ensures let_go { self.new.schedule
            ≡ at_desk (λ desks d. letting_go desks d visit_again) self.old.schedule hand.desk }
        ensures goes_on { self.new.schedule.ended ≡ self.old.schedule.ended }
        ensures counted { GetDesks self.new self.old 1 }
    {
        let Hand { desk, holding } = hand;
        self.scheduler.let_go(desk, visit_again);
        self.workers.lets_go(holding)
    }

    /// Gives a worker that looks for a desk the first listed one, until the run ends.
    #[inline(always)]
    pub fn next(&mut self, token: Looking<J>) -> TurnOf<J>
        ensures next { (next_in (λ hand. hand.desk) result, self.new.schedule)
            ≡ next_of self.old.schedule }
        ensures goes_on { self.new.schedule.ended ≡ self.old.schedule.ended }
        ensures counted { GetDesks self.old self.new (desks_in result) }
    {
        let next_desk = self.scheduler.next();
        self.turn_for(next_desk, token)
    }

    /// Gives a worker that looks for a desk this one if it is idle, else the first listed one. The worker gets no
    /// desk only if another worker has this desk and no desk is listed, or if the run has ended.
    pub fn claim_or_next(&mut self, token: Looking<J>, desk: u32) -> TurnOf<J>
        ensures next { (next_in (λ hand. hand.desk) result, self.new.schedule)
            ≡ claim_or_next_of self.old.schedule desk }
        ensures in_hand { next_in (λ hand. hand.desk) result ≡ Next.Nothing
            → IsInHand self.old.schedule desk }
        ensures none { next_in (λ hand. hand.desk) result ≡ Next.Nothing
            → any_ready self.old.schedule ≡ false }
        ensures goes_on { self.new.schedule.ended ≡ self.old.schedule.ended }
        ensures counted { GetDesks self.old self.new (desks_in result) }
    {
        let next_desk = self.scheduler.claim_or_next(desk);
        self.turn_for(next_desk, token)
    }

    // The worker's new token, for the answer that the scheduler gave to the worker.
    #[inline(always)]
    fn turn_for(&mut self, next_desk: Next, token: Looking<J>) -> TurnOf<J>
        ensures next { next_in (λ hand. hand.desk) result ≡ next_desk }
        ensures schedule { self.new.schedule ≡ self.old.schedule }
        ensures counted { GetDesks self.old self.new (desks_in result) }
    {
        match next_desk {
            Next::Desk(desk) => Turn::Desk(Hand {
                desk,
                holding: self.workers.takes(token),
            }),
            Next::Nothing => Turn::Nothing(token),
            Next::Ended => Turn::Ended(token),
        }
    }

    /// Lets a worker that looks for a desk rest, if some other worker has a desk. Otherwise the worker goes on
    /// looking.
    pub fn rests(&mut self, token: Looking<J>) -> Result<Resting<J>, Looking<J>>
        ensures rests { IfOk result (λ _. (self.new.resting ≡ self.old.resting + 1)
            × (self.new.looking + 1 ≡ self.old.looking)) }
        ensures another { IfOk result (λ _. (0 < self.old.holding)
            × (self.new.holding ≡ self.old.holding)) }
        ensures awake { IfOk result (λ _. self.new.resting < self.new.begun) }
        ensures waits { IfOk result (λ _.
            self.new.schedule ≡ waiting_now self.old.schedule self.new.resting) }
        ensures alone { IfErr result (λ _. (self.old.holding ≡ 0) × (self.new ≡ self.old)) }
        ensures goes_on { self.new.schedule.ended ≡ self.old.schedule.ended }
    {
        let resting = self.workers.rests(token)?;
        self.scheduler.wait_begins();
        Ok(resting)
    }

    /// Lets a worker that rested look for a desk again.
    pub fn wakes(&mut self, token: Resting<J>) -> Looking<J>
        ensures resting { self.new.resting + 1 ≡ self.old.resting }
        ensures looking { self.new.looking ≡ self.old.looking + 1 }
        ensures holding { (self.new.holding ≡ self.old.holding)
            × (self.new.begun ≡ self.old.begun) }
        ensures waits { self.new.schedule ≡ waiting_now self.old.schedule self.new.resting }
        ensures goes_on { self.new.schedule.ended ≡ self.old.schedule.ended }
    {
        self.scheduler.wait_ends();
        self.workers.wakes(token)
    }

    /// Ends the run: from now on no worker gets a desk.
    pub fn end(&mut self)
        ensures ended { self.new.schedule ≡ ended_now self.old.schedule }
        ensures counted { GetDesks self.old self.new 0 }
    {
        self.scheduler.end();
    }

    /// Whether resting workers have a reason to wake: a desk is listed, or the run has ended.
    #[inline(always)]
    pub fn has_news(&self) -> bool
        ensures { result ≡ (self.now.schedule.ended || any_ready self.now.schedule) }
    {
        self.scheduler.has_news()
    }

    /// Whether some worker rests while a desk is listed.
    #[inline(always)]
    pub fn wakes_one(&self) -> bool
        ensures { result ≡ (nat_lt 0 self.now.resting && any_ready self.now.schedule) }
    {
        self.scheduler.wakes_one()
    }
}
