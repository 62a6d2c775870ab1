//! Why a run had no result.
ghost use Rattle.std.specs.Prelude.{◌≡◌};
ghost use Rattle.match_pool.specs.declared.fault.RunFault.TheVariants.{Memory};

use exchange_core::{Desk, Event};
use std::alloc::{AllocError, AllocFailed};
use thiserror::Error;

/// Why a run had no result. A fault ends all workers, and the run returns the fault after all workers have ended.
#[derive(Debug, Drop, PartialEq, Eq, Error)]
pub enum RunFault {
    /// The number of workers is not from 1 to 8.
    #[error("bad number of workers")]
    BadWorkers,
    /// The capacity is neither full nor from 1 to 1,024.
    #[error("bad capacity")]
    BadCapacity,
    /// The memory could not grow.
    #[error("out of memory")]
    Memory,
    /// The system refused to start a worker.
    #[error("a worker could not be started")]
    Thread,
    /// A receipt did not agree with the journal: it may not follow the journal's events.
    #[error("a receipt was out of step")]
    OutOfStep {
        /// The events entered before the receipt.
        journal: Vec<Event>,
        /// The receipt: a take or a hear.
        event: Event,
    },
    /// The desk's log differs from the journal, or the desk was left pending. A desk is left pending if its mailbox too
    /// often disagreed with the journal: the mailbox had no message where the journal has a message, or no room where
    /// the journal has room.
    #[error("a desk's log differs from the journal")]
    Torn(Desk),
    /// The other end of this desk's mailbox is gone.
    #[error("a mailbox is gone")]
    MailGone(Desk),
}

/// The fault that ended the workers early.
#[derive(Clone, Copy, Debug)]
pub(crate) enum Trouble {
    /// The core refused a receipt.
    OutOfStep,
    /// The desk's log is full, or the core refused the desk's event, or the desk's mailbox disagreed with the journal
    /// too often.
    Torn(Desk),
    /// The other end of this desk's mailbox is gone.
    MailGone(Desk),
    /// The system refused to start a worker.
    Thread,
}

impl From<AllocError> for RunFault {
    ghost from_gives = { λ _ fault. fault ≡ Memory };

    fn from(_: AllocError) -> RunFault {
        RunFault::Memory
    }
}

impl<T: Drop> From<AllocFailed<T>> for RunFault {
    ghost from_gives = { λ _ fault. fault ≡ Memory };

    fn from(_: AllocFailed<T>) -> RunFault {
        RunFault::Memory
    }
}
