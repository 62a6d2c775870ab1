//! What the schedule's lock protects: which worker has which desk, which desks may have work, and what ended the run.
ghost use Rattle.std.specs.Prelude.{◌≡◌, Some, true, false, MatchOption};
ghost use Rattle.match_pool.specs.RunState.{is_told};

use crate::fault::Trouble;
use crate::gate::Gate;
use crate::locks::Unheard;
use desk_scheduler::{Shift, WorkersIdentity};
use offer_ledger::{CloseToken, ExchangeIdentity};
use std::marker::PhantomData;

/// The schedule of workers and desks, and what ended the run: the close, the gate's stop, or a fault.
#[derive(Drop)]
pub(crate) struct RunState<'a, J: ExchangeIdentity + WorkersIdentity, G: Gate> {
    pub(crate) shift: Shift<J>,
    closed: bool,
    stopped: bool,
    gate: PhantomData<&'a G>,
    trouble: Option<Trouble>,
    ghost heeded: { stopped ≡ true → G.MAY_STOP ≡ true },
    ghost told: { shift.schedule.ended ≡ true → is_told closed stopped trouble ≡ true },
}

impl<'a, J: ExchangeIdentity + WorkersIdentity, G: Gate> RunState<'a, J, G> {
    /// The state while nothing has ended the run.
    pub(crate) fn new(shift: Shift<J>) -> RunState<'a, J, G>
        requires { shift.schedule.ended ≡ false }
    {
        RunState {
            shift,
            closed: false,
            stopped: false,
            gate: PhantomData,
            trouble: None,
        }
    }

    /// Notes that the close is entered, so that the run ends.
    pub(crate) fn close(&mut self, _close: CloseToken<J>) -> Unheard {
        self.closed = true;
        self.end()
    }

    /// Notes that the gate stopped the run, so that the run ends.
    pub(crate) fn stop(&mut self) -> Unheard
        requires { G.MAY_STOP ≡ true }
    {
        self.stopped = true;
        self.end()
    }

    /// Notes a fault that ends the run. If there was a fault before, that one stays.
    pub(crate) fn fail(&mut self, trouble: Trouble) -> Unheard
        ensures { MatchOption self.old.trouble (self.new.trouble ≡ Some trouble)
            (λ first_trouble. self.new.trouble ≡ Some first_trouble) }
    {
        let first_trouble = self.trouble.unwrap_or(trouble);
        self.trouble = Some(first_trouble);
        self.end()
    }

    // Ends the schedule, so that no worker gets a desk any more. The worker that closed, stopped or failed the run
    // calls this.
    fn end(&mut self) -> Unheard
        requires { is_told self.old.closed self.old.stopped self.old.trouble ≡ true }
        ensures { self.new.trouble ≡ self.old.trouble }
    {
        self.shift.end();
        Unheard::end()
    }

    /// The fault that ended the run, if there is one.
    pub(crate) fn trouble(&self) -> Option<Trouble>
        ensures { result ≡ self.now.trouble }
    {
        self.trouble
    }

    /// Whether the gate has stopped the run.
    pub(crate) fn is_stopped(&self) -> bool
        ensures { result ≡ true → G.MAY_STOP ≡ true }
    {
        self.stopped
    }
}
