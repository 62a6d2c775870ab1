//! Why a call of the model is refused.
ghost use Rattle.std.specs.Prelude.{◌≡◌};
ghost use Rattle.match_model.specs.declared.fault.ModelFault.TheVariants.{Memory};

use crate::limits::{Limits, MAX_QUOTA};
use std::alloc::{AllocError, AllocFailed};
use std::error::Error;
use std::fmt;

/// Why a builder or an assignment refused a call. Each call tests the causes in the order that its own comment gives.
#[derive(Clone, Copy, Debug, PartialEq, Eq, Hash)]
pub enum ModelFault {
    /// The number of programmes is already at the builder's limit.
    TooManyProgrammes,
    /// The number of residents is already at the builder's limit.
    TooManyResidents,
    /// The quota is above `MAX_QUOTA`.
    QuotaTooLarge,
    /// The owner of a list, or a member on the list, was not added.
    NoSuchMember,
    /// The owner of the list already has a list.
    ListGivenTwice,
    /// A member stands on the list twice.
    ListedTwice,
    /// The number of acceptable pairs is above the builder's limit.
    TooManyPairs,
    /// The memory could not grow.
    Memory,
    /// The member is withdrawn already.
    WithdrawnTwice,
}

impl ModelFault {
    /// The fault as a text. The text names the limits under which the builder refused.
    pub fn within(self, limits: Limits) -> FaultWithin {
        FaultWithin {
            fault: self,
            limits,
        }
    }
}

/// Writes the fault as a text. The text names the standard limits.
impl fmt::Display for ModelFault {
    fn fmt<W: fmt::Write>(&self, f: &mut fmt::Formatter<W>) -> fmt::Result {
        self.within(Limits::Standard).fmt(f)
    }
}

impl Error for ModelFault {}

/// A fault of a builder within these limits. Where a limit was exceeded, the text names this limit.
#[derive(Clone, Copy, Debug)]
pub struct FaultWithin {
    fault: ModelFault,
    limits: Limits,
}

impl fmt::Display for FaultWithin {
    fn fmt<W: fmt::Write>(&self, f: &mut fmt::Formatter<W>) -> fmt::Result {
        let limits = self.limits;
        f.write_str(match self.fault {
            ModelFault::TooManyProgrammes => {
                return write!(f, "more than {} programmes", limits.programmes());
            }
            ModelFault::TooManyResidents => {
                return write!(f, "more than {} residents", limits.residents());
            }
            ModelFault::QuotaTooLarge => return write!(f, "quota over {MAX_QUOTA}"),
            ModelFault::NoSuchMember => "no such member",
            ModelFault::ListGivenTwice => "a list was given twice",
            ModelFault::ListedTwice => "a name is listed twice",
            ModelFault::TooManyPairs => {
                return write!(f, "more than {} acceptable pairs", limits.pairs());
            }
            ModelFault::Memory => "out of memory",
            ModelFault::WithdrawnTwice => "a member is withdrawn twice",
        })
    }
}

impl From<AllocError> for ModelFault {
    ghost from_gives = { λ _ fault. fault ≡ Memory };

    fn from(_error: AllocError) -> ModelFault {
        ModelFault::Memory
    }
}

impl<T: Drop> From<AllocFailed<T>> for ModelFault {
    ghost from_gives = { λ _ fault. fault ≡ Memory };

    fn from(_error: AllocFailed<T>) -> ModelFault {
        ModelFault::Memory
    }
}
