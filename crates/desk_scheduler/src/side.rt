//! The desks of one side: the state of each desk, and which desks are listed.
ghost use Rattle.std.specs.Prelude.{◌≡◌, ◌≢◌, ◌<◌, [], None, Some, true, false, length, replicate, nat_lt, MatchOption, IfOk};
ghost use Rattle.std.specs.List.{range_with_len};
ghost use Rattle.desk_scheduler.specs.Desks.{listing, letting_go, is_listed, moved, on_top, on_top_behind, place_of, taken, times};
ghost use Rattle.desk_scheduler.specs.declared.side.Place.TheVariants.{Idle, InHand, Listed};

use crate::wake::Wake;
use std::alloc::{AllocError, Global};
use std::marker::Model;

/// The state of a desk in the schedule.
#[derive(Clone, Copy, Debug, PartialEq, Eq)]
pub(crate) enum Place {
    /// No worker has the desk, and no work at the desk is known.
    Idle,
    /// The desk is listed, since it may have work.
    Listed,
    /// A worker has the desk.
    InHand,
    /// A worker has the desk. When the worker leaves the desk, the desk is listed.
    InHandAgain,
}

/// The desks of one side: the state of each desk, and the listed desks in two tiers. The second tier has the desks that
/// were woken only because of the answer `hold`. A desk of the second tier is taken only when the first tier is empty.
/// In each tier the desk that was listed last is taken first.
#[derive(Debug, Drop)]
pub(crate) struct Side {
    places: Vec<Place>,
    first_tier: Vec<u32>,
    second_tier: Vec<u32>,
}

impl Model for Side {
    ghost use Rattle.std.specs.Prelude.{reverse, length, ◌≤◌, vec_capacity};
    ghost use Rattle.desk_scheduler.specs.Desks.{Desks, AreListed};

    ghost Value = { Desks };

    ghost view = { λ s. record {
      places = s.places.items;
      ready = reverse s.first_tier.items;
      behind = reverse s.second_tier.items;
    } };

    ghost invariant = { λ s. AreListed s.places.items s.first_tier.items s.second_tier.items
        (vec_capacity s.first_tier) (vec_capacity s.second_tier) };
}

impl Side {
    /// The desks of a side, all idle, of which none is listed.
    pub(crate) fn idle(alloc: Global, desks: u32) -> Result<Side, AllocError>
        ensures { IfOk result (λ side. (side.places ≡ replicate desks Idle)
            × (side.ready ≡ []) × (side.behind ≡ [])) }
    {
        Ok(Side {
            places: vec![in alloc; Place::Idle; desks as usize]?,
            first_tier: Vec::with_capacity(alloc, desks as usize)?,
            second_tier: Vec::with_capacity(alloc, desks as usize)?,
        })
    }

    /// The desks of a side, all listed. The first desk is taken first.
    pub(crate) fn ready(alloc: Global, desks: u32) -> Result<Side, AllocError>
        ensures desks { IfOk result (λ side. length side.places ≡ desks) }
        ensures all { IfOk result (λ side. side.ready ≡ range_with_len 0 desks) }
        ensures behind { IfOk result (λ side. side.behind ≡ []) }
    {
        let mut side = Side::idle(alloc, desks)?;
        for listed_count in 0..desks {
            side.list(desks - 1 - listed_count, Wake::Work);
        }
        Ok(side)
    }

    /// Whether there is a desk with this number.
    #[inline(always)]
    pub(crate) fn has(&self, desk: u32) -> bool
        ensures { result ≡ nat_lt desk (length self.now.places) }
    {
        (desk as usize) < self.places.len()
    }

    /// Whether some desk of this side is listed.
    #[inline(always)]
    pub(crate) fn is_ready(&self) -> bool
        ensures { result ≡ is_listed self.now }
    {
        !self.first_tier.is_empty() || !self.second_tier.is_empty()
    }

    /// Wakes a desk for this reason.
    #[inline(always)]
    pub(crate) fn list(&mut self, desk: u32, wake: Wake)
        requires { desk < length self.old.places }
        ensures { self.new ≡ listing self.old desk wake }
    {
        match self.places[desk as usize] {
            Place::Idle => match wake {
                Wake::Work => self.put(desk),
                Wake::Hold => self.put_behind(desk),
            },
            Place::InHand => self.places[desk as usize] = Place::InHandAgain,
            Place::Listed | Place::InHandAgain => {}
        }
    }

    /// Notes that a worker leaves a desk. If the desk may have work again, it is listed.
    #[inline(always)]
    pub(crate) fn let_go(&mut self, desk: u32, visit_again: bool)
        requires { desk < length self.old.places }
        ensures { self.new ≡ letting_go self.old desk visit_again }
    {
        match self.places[desk as usize] {
            Place::InHand if !visit_again => self.places[desk as usize] = Place::Idle,
            Place::InHand | Place::InHandAgain => self.put(desk),
            Place::Idle | Place::Listed => {}
        }
    }

    // Lists a desk that is not listed yet, in front of the first tier.
    #[inline(always)]
    fn put(&mut self, desk: u32)
        requires within { desk < length self.old.places }
        requires unlisted { times (place_of self.old desk) ≡ 0 }
        ensures { self.new ≡ on_top self.old desk }
    {
        self.places[desk as usize] = Place::Listed;
        self.first_tier.push_reserved(desk);
    }

    // Lists a desk that is not listed yet, in front of the second tier.
    #[inline(always)]
    fn put_behind(&mut self, desk: u32)
        requires within { desk < length self.old.places }
        requires unlisted { times (place_of self.old desk) ≡ 0 }
        ensures { self.new ≡ on_top_behind self.old desk }
    {
        self.places[desk as usize] = Place::Listed;
        self.second_tier.push_reserved(desk);
    }

    /// Gives a worker the first desk of the first tier, or of the second tier if the first is empty.
    #[inline(always)]
    pub(crate) fn next(&mut self) -> Option<u32>
        ensures { MatchOption result ((taken self.old ≡ None) × (self.new ≡ self.old)) (λ desk.
            (taken self.old ≡ Some (desk, self.new)) × (desk < length self.old.places)) }
    {
        match self.first_tier.pop() {
            Some(desk) => {
                self.places[desk as usize] = Place::InHand;
                Some(desk)
            }
            None => self.next_behind(),
        }
    }

    // Gives a worker the first desk of the second tier. The first tier is empty.
    #[inline(always)]
    fn next_behind(&mut self) -> Option<u32>
        requires { self.old.ready ≡ [] }
        ensures { MatchOption result ((taken self.old ≡ None) × (self.new ≡ self.old)) (λ desk.
            (taken self.old ≡ Some (desk, self.new)) × (desk < length self.old.places)) }
    {
        let desk = self.second_tier.pop()?;
        self.places[desk as usize] = Place::InHand;
        Some(desk)
    }

    /// Gives a worker this desk if it is idle. Returns whether the worker got it.
    #[inline(always)]
    pub(crate) fn claim(&mut self, desk: u32) -> bool
        requires { desk < length self.old.places }
        ensures taken { result ≡ true → (place_of self.old desk ≡ Idle)
            × (self.new ≡ moved self.old desk InHand) }
        ensures left { result ≡ false → (place_of self.old desk ≢ Idle) × (self.new ≡ self.old) }
        ensures listed { place_of self.old desk ≡ Listed → is_listed self.old ≡ true }
    {
        if self.places[desk as usize] != Place::Idle {
            return false;
        }
        self.places[desk as usize] = Place::InHand;
        true
    }
}
