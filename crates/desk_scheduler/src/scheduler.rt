//! Which desks workers have, and which desks are listed because they may have work.
ghost use Rattle.std.specs.Prelude.{◌≡◌, ◌≢◌, ◌+◌, ◌-◌, ◌<◌, ◌^◌, ◌||◌, ◌&&◌, [], true, false, length, fold, nat_lt, replicate, cond, IfOk};
ghost use Rattle.std.specs.List.{range_with_len};
ghost use Rattle.desk_scheduler.specs.Desks.{letting_go};
ghost use Rattle.desk_scheduler.specs.Turns.{IsInHand, at_desk, in_hand, place_at, next_of, claim_or_next_of, waiting_now, ended_now, any_ready, woken_by};
ghost use Rattle.desk_scheduler.specs.declared.side.Place.TheVariants.{Idle, Listed};

use crate::side::Side;
use crate::wake::Wake;
use crate::woken::Woken;
use std::alloc::{AllocError, Global};
use std::marker::Model;

/// The answer to a worker that looks for a desk.
#[derive(Clone, Copy, Debug, PartialEq, Eq)]
pub enum Next {
    /// The worker gets the desk with this number.
    Desk(u32),
    /// No desk is listed.
    Nothing,
    /// The run ends.
    Ended,
}

/// Which desks workers have, and which desks are listed. Residents' desks have the numbers before programmes' desks.
/// A listed resident's desk is taken before any programme's desk, so that a programme hears many answers in one
/// visit. On each side, a desk that only has to hear the answer `hold` is taken after all other desks. Of the other
/// desks, the one listed last is taken first, since its data is mostly still in the cache.
#[derive(Debug, Drop)]
pub struct Scheduler {
    residents: Side,
    programmes: Side,
    first_programme: u32,
    waiting_workers: usize,
    ended: bool,
}

impl Model for Scheduler {
    ghost use Rattle.desk_scheduler.specs.Schedule.{Schedule, IsNumbered};

    ghost Value = { Schedule };

    ghost view = { λ s. record {
      residents = s.residents;
      programmes = s.programmes;
      waiting = s.waiting_workers;
      ended = s.ended;
    } };

    ghost invariant = { λ s. IsNumbered s.residents s.programmes s.first_programme };
}

impl Scheduler {
    /// A scheduler at the start: no worker has a desk, and every programme's desk is listed, the first programme's desk
    /// in front.
    pub fn open(alloc: Global, residents: u32, programmes: u32) -> Result<Scheduler, AllocError>
        requires { residents + programmes < 2 ^ 32 }
        ensures residents { IfOk result (λ s. (s.residents.places ≡ replicate residents Idle)
            × (s.residents.ready ≡ [])) }
        ensures programmes { IfOk result (λ s. (length s.programmes.places ≡ programmes)
            × (s.programmes.ready ≡ range_with_len 0 programmes)) }
        ensures behind { IfOk result (λ s. (s.residents.behind ≡ []) × (s.programmes.behind ≡ [])) }
        ensures nobody { IfOk result (λ s. (s.waiting ≡ 0) × (s.ended ≡ false)) }
    {
        Ok(Scheduler {
            residents: Side::idle(alloc, residents)?,
            programmes: Side::ready(alloc, programmes)?,
            first_programme: residents,
            waiting_workers: 0,
            ended: false,
        })
    }

    /// Wakes a desk. If no worker has the desk, it is listed, and `wake` decides whether it is taken sooner or later.
    /// If a worker has the desk, it is marked, so that it is listed afterwards.
    #[inline(always)]
    pub fn list(&mut self, desk: u32, wake: Wake)
        ensures listed { self.new ≡ woken_by self.old (desk, wake) }
        ensures goes_on { self.new.ended ≡ self.old.ended }
        ensures waits { self.new.waiting ≡ self.old.waiting }
    {
        if desk < self.first_programme {
            self.residents.list(desk, wake);
        } else if self.programmes.has(desk - self.first_programme) {
            self.programmes.list(desk - self.first_programme, wake);
        }
    }

    /// Lists all noted desks, and removes the notes.
    #[inline(always)]
    pub fn list_all(&mut self, woken: &mut Woken)
        ensures listed { self.new ≡ fold woken_by self.old woken.old }
        ensures goes_on { self.new.ended ≡ self.old.ended }
        ensures waits { self.new.waiting ≡ self.old.waiting }
        ensures none_left { woken.new ≡ [] }
    {
        for note in woken.desks() {
            let (desk, wake) = *note;
            self.list(desk, wake);
        }
        woken.clear();
    }

    /// Notes that a worker leaves a desk. If the desk may have work again, it is listed.
    #[inline(always)]
    pub fn let_go(&mut self, desk: u32, visit_again: bool)
        ensures let_go { self.new ≡ at_desk (λ desks d.
            letting_go desks d visit_again) self.old desk }
        ensures goes_on { self.new.ended ≡ self.old.ended }
        ensures waits { self.new.waiting ≡ self.old.waiting }
    {
        if desk < self.first_programme {
            self.residents.let_go(desk, visit_again);
        } else if self.programmes.has(desk - self.first_programme) {
            self.programmes
                .let_go(desk - self.first_programme, visit_again);
        }
    }

    /// Gives a worker the first listed desk. Once the run has ended, the worker gets no desk.
    #[inline(always)]
    pub fn next(&mut self) -> Next
        ensures next { (result, self.new) ≡ next_of self.old }
        ensures goes_on { self.new.ended ≡ self.old.ended }
        ensures waits { self.new.waiting ≡ self.old.waiting }
        ensures ended { result ≡ Next.Ended → self.old.ended ≡ true }
    {
        if self.ended {
            return Next::Ended;
        }
        if let Some(resident) = self.residents.next() {
            return Next::Desk(resident);
        }
        match self.programmes.next() {
            Some(programme) => Next::Desk(self.first_programme + programme),
            None => Next::Nothing,
        }
    }

    /// Gives a worker this desk if it is idle, else the first listed desk. The answer is `Nothing` only if another
    /// worker has this desk and no desk is listed.
    pub fn claim_or_next(&mut self, desk: u32) -> Next
        ensures next { (result, self.new) ≡ claim_or_next_of self.old desk }
        ensures in_hand { result ≡ Next.Nothing → IsInHand self.old desk }
        ensures none { result ≡ Next.Nothing → any_ready self.old ≡ false }
        ensures goes_on { self.new.ended ≡ self.old.ended }
        ensures waits { self.new.waiting ≡ self.old.waiting }
        ensures ended { result ≡ Next.Ended → self.old.ended ≡ true }
    {
        if self.ended {
            return Next::Ended;
        }
        if self.claim(desk) {
            return Next::Desk(desk);
        }
        self.next()
    }

    // Gives a worker this desk if it is idle. Returns whether the worker got it.
    fn claim(&mut self, desk: u32) -> bool
        ensures claimed { result ≡ true
            → (place_at self.old desk ≡ Idle) × (self.new ≡ at_desk in_hand self.old desk) }
        ensures left { result ≡ false → (place_at self.old desk ≢ Idle) × (self.new ≡ self.old) }
        ensures listed { place_at self.old desk ≡ Listed → any_ready self.old ≡ true }
    {
        if desk < self.first_programme {
            return self.residents.claim(desk);
        }
        let programme = desk - self.first_programme;
        self.programmes.has(programme) && self.programmes.claim(programme)
    }

    /// Notes that a worker begins to wait.
    pub fn wait_begins(&mut self)
        ensures waiting { self.old.waiting + 1 < 2 ^ 64 → self.new.waiting ≡ self.old.waiting + 1 }
        ensures rest { self.new ≡ waiting_now self.old self.new.waiting }
    {
        self.waiting_workers = self.waiting_workers.saturating_add(1);
    }

    /// Notes that a worker no longer waits.
    pub fn wait_ends(&mut self)
        ensures { self.new ≡ waiting_now self.old (self.old.waiting - 1) }
    {
        self.waiting_workers = self.waiting_workers.saturating_sub(1);
    }

    /// Ends the run: from now on no worker gets a desk.
    pub fn end(&mut self)
        ensures { self.new ≡ ended_now self.old }
    {
        self.ended = true;
    }

    /// Whether a waiting worker has a reason to wake: a desk is listed, or the run has ended.
    #[inline(always)]
    pub fn has_news(&self) -> bool
        ensures { result ≡ (self.now.ended || any_ready self.now) }
    {
        self.ended || self.residents.is_ready() || self.programmes.is_ready()
    }

    /// Whether some worker waits while a desk is listed.
    #[inline(always)]
    pub fn wakes_one(&self) -> bool
        ensures { result ≡ (nat_lt 0 self.now.waiting && any_ready self.now) }
    {
        self.waiting_workers > 0 && (self.residents.is_ready() || self.programmes.is_ready())
    }
}
