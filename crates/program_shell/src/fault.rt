//! Why a command line's words do not say what the program has to do.
ghost use Rattle.std.specs.Prelude.{◌≡◌};
ghost use Rattle.clap.specs.Values.{kind_of};
ghost use Rattle.program_shell.specs.Faults.{IsErrorOf, told_by_kind};
ghost use Rattle.program_shell.specs.declared.fault.LineFault.TheVariants.{Memory};

use clap::error::ErrorKind;
use std::alloc::AllocError;
use thiserror::Error;

/// Why a command line does not say what the program has to do.
#[derive(Debug, Drop, Error)]
pub enum LineFault {
    /// The memory could not grow.
    #[error("out of memory")]
    Memory,
    /// The parser refuses the words, or they ask for help or the version.
    #[error(transparent)]
    Line(clap::Error),
    /// The capacity is neither `full` nor a number from 1 to 1,024.
    #[error("bad capacity")]
    BadCapacity,
    /// More than one file would come from standard input.
    #[error("only one of the files can be standard input")]
    SecondInput,
}

impl From<AllocError> for LineFault {
    ghost from_gives = { λ _ fault. fault ≡ Memory };

    fn from(_: AllocError) -> LineFault {
        LineFault::Memory
    }
}

/// Why the words after the program's name do not say what the program has to do.
#[derive(Debug, Drop, Error)]
pub enum UsageFault {
    /// One of the words is not valid text.
    #[error("a word of the command line is no text")]
    NoText,
    /// The words are text, but give no order, or they ask for help or the version.
    #[error(transparent)]
    Line(LineFault),
}

/// The parser's error as a fault of the command line.
pub fn line_fault(error: clap::Error) -> LineFault
    ensures exact { result ≡ told_by_kind (kind_of error) error }
    ensures kind { IsErrorOf (λ kind. kind ≡ kind_of error) result }
{
    match error.kind() {
        ErrorKind::OutOfMemory => LineFault::Memory,
        _ => LineFault::Line(error),
    }
}
