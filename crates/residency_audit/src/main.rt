//! The auditor's program. The command line names the files of the docket, the sheet and the journal.
#![tactic(auto)]

use audit_files::audit_words;
use std::process::ExitCode;
use std::{env, io};

// The words after the program's own name.
fn words(rt: &HostRuntime) -> io::Result<Vec<String>> {
    Ok(env::args(rt)?.skip(1).collect(rt.alloc())?)
}

fn main(rt: HostRuntime) -> ExitCode {
    audit_words(
        &rt,
        rt.alloc(),
        words(&rt),
        &mut rt.reader(),
        &mut io::writer(&rt),
        &rt,
    )
}
