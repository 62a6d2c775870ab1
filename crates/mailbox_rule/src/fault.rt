//! Why a mailbox could not be made.
ghost use Rattle.std.specs.Prelude.{◌≡◌};
ghost use Rattle.mailbox_rule.specs.declared.fault.MailFault.TheVariants.{Memory};

use std::alloc::AllocError;
use thiserror::Error;

/// Why no mailbox was made, or no list in memory that stands in for one in tests.
#[derive(Clone, Copy, PartialEq, Eq, Debug, Drop, Error)]
pub enum MailFault {
    /// The mailbox would have room for no message.
    #[error("a mailbox needs a capacity above 0")]
    NoCapacity,
    /// The memory could not grow.
    #[error("out of memory")]
    Memory,
}

impl From<AllocError> for MailFault {
    ghost from_gives = { λ _ fault. fault ≡ Memory };

    fn from(_: AllocError) -> MailFault {
        MailFault::Memory
    }
}
