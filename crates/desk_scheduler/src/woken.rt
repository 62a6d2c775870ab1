//! The desks to which a worker's events gave work, noted until the scheduler lists them.
ghost use Rattle.std.specs.Prelude.{◌≡◌, ◌<◌, ◌↔◌, ◌++◌, ◌∷◌, [], true, false, length};

use crate::wake::Wake;
use arrayvec::ArrayVec;
use std::marker::Model;

/// The greatest number of desks that can be noted at once.
const MOST_DESKS: usize = 64;

/// The noted desks with the reasons for which they were woken, in the order in which they were noted. Notes are removed
/// only when the desks are listed.
#[derive(Debug, Drop)]
pub struct Woken {
    desks: ArrayVec<(u32, Wake), MOST_DESKS>,
}

impl Model for Woken {
    ghost use Rattle.std.specs.Prelude.{ℕ, List};
    ghost use Rattle.desk_scheduler.specs.declared.wake.Wake.{Wake};

    ghost Value = { List (ℕ × Wake) };

    ghost view = { λ w. w.desks.items };
}

impl Woken {
    /// A value in which no woken desk is noted.
    pub fn new() -> Woken
        ensures { result ≡ [] }
    {
        Woken {
            desks: ArrayVec::new(),
        }
    }

    /// Whether no desk is noted.
    #[inline(always)]
    pub fn is_empty(&self) -> bool
        ensures { (result ≡ true) ↔ (self.now ≡ []) }
    {
        self.desks.is_empty()
    }

    /// Whether no further desk can be noted.
    #[inline(always)]
    pub fn is_full(&self) -> bool
        ensures { (result ≡ false) ↔ (length self.now < 64) }
    {
        self.desks.is_full()
    }

    /// Notes a desk that was woken for this reason.
    #[inline(always)]
    pub fn note(&mut self, desk: u32, wake: Wake)
        requires { length self.old < 64 }
        ensures { self.new ≡ self.old ++ (desk, wake) ∷ [] }
    {
        self.desks.push((desk, wake));
    }

    /// The noted desks, in order.
    #[inline(always)]
    pub(crate) fn desks(&self) -> &[(u32, Wake)]
        ensures { result.now ≡ self.now }
    {
        self.desks.as_slice()
    }

    /// Forgets all noted desks.
    #[inline(always)]
    pub(crate) fn clear(&mut self)
        ensures { self.new ≡ [] }
    {
        self.desks.clear();
    }
}
