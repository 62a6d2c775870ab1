//! A gate sees a run while it goes on, and may stop the run.
ghost use Rattle.std.specs.Prelude.{◌≡◌, Bool, true, false};

use exchange_core::Desk;

/// Whether a run goes on.
#[derive(Clone, Copy, Debug, PartialEq, Eq)]
pub enum Go {
    /// The run goes on.
    On,
    /// The run ends after each worker has entered the event that it has begun.
    Stop,
}

/// What the workers of a run call between their steps. Workers are numbered from 0.
pub trait Gate {
    // Whether the gate's call `pass` may answer `Stop`, as clauses see it.
    ghost MAY_STOP: { Bool };

    /// Whether the gate's call `pass` may answer `Stop`.
    const MAY_STOP: bool;

    /// Whether the gate's call `entered` may keep its worker waiting. If so, the worker lists the desks to which an
    /// event gave work before it makes the call, so that other workers find these desks.
    const ENTERED_MAY_HOLD: bool = true;

    /// The gate's call after a worker took a message out of a mailbox and before it enters this receipt. The worker
    /// holds no lock but this desk's.
    fn pass(&self, worker: usize, desk: Desk) -> Go
        ensures { result ≡ Go.Stop → MAY_STOP ≡ true };

    /// The gate's call after each event that was entered. The worker has released the ledger's lock by then.
    fn entered(&self, worker: usize);
}

/// A gate that never stops a run.
#[derive(Clone, Copy, Debug)]
pub struct OpenGate;

impl Gate for OpenGate {
    ghost MAY_STOP = { false };

    const MAY_STOP: bool = false;

    const ENTERED_MAY_HOLD: bool = false;

    fn pass(&self, _worker: usize, _desk: Desk) -> Go {
        Go::On
    }

    fn entered(&self, _worker: usize) {}
}
