//! The pool: several threads drive the agents of an exchange. Each desk has a lock of its own, and the ledger has a
//! lock. A further lock protects the schedule: which worker has which desk, and which desks may have work.
#![tactic(auto)]

mod after_joins;
mod compare;
mod done;
mod drive;
mod exchange;
mod fault;
mod gate;
mod locks;
mod mailboxes;
mod naps;
mod open;
mod pool;
mod run_state;
mod seats;
mod shared;
mod worker;

pub use done::{Done, Ending, Ends};
pub use fault::RunFault;
pub use gate::{Gate, Go, OpenGate};
pub use mailboxes::{Mailboxes, RuledMailboxes};
pub use pool::{RuledDone, run, run_over};
