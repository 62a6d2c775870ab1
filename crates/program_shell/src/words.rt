//! The words after a program's name: their texts, and the message if they do not say what to do.
ghost use Rattle.std.specs.Prelude.{◌≡◌, IfErr, IfOk, Ok};
ghost use Rattle.std.specs.Process.{exit_status as exit_status_in};
ghost use Rattle.program_shell.specs.Ends.{IsRefusedStatus, IsTextFaultOf};

use crate::fault::{LineFault, UsageFault};
use crate::status::usage_status;
use docket::DocketFault;
use std::io;
use std::process::ExitCode;

/// The texts of the words, or the fault that one of them is not valid text.
pub fn texts_of(words: io::Result<Vec<String>>) -> Result<Vec<String>, UsageFault>
    ensures texts { IfOk result (λ word_texts. words ≡ Ok word_texts) }
    ensures fault { IfErr result (IsTextFaultOf words) }
{
    match words {
        Ok(word_texts) => Ok(word_texts),
        Err(error) if error.kind() == io::ErrorKind::OutOfMemory => {
            Err(UsageFault::Line(LineFault::Memory))
        }
        Err(_) => Err(UsageFault::NoText),
    }
}

/// Prints why the words give no order, and returns the exit status. Help and the version are answers, so the program
/// fails if their text can't be written.
pub fn refuse<T: Print + Eprint>(console: &T, fault: &UsageFault) -> ExitCode
    ensures { IsRefusedStatus fault.now (exit_status_in result) }
{
    let is_printed = match fault {
        UsageFault::Line(LineFault::Line(error)) => error.print(console).is_ok(),
        fault => eprintln!(console; "residency: {fault}").is_ok(),
    };
    let status = usage_status(fault);
    if status == 0 && !is_printed {
        let _ = eprintln!(console; "residency: {}", DocketFault::Write);
        return ExitCode::from(1);
    }
    ExitCode::from(status)
}
