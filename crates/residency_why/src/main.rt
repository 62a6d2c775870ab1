//! The program for residents who ask why the match ended as it did. The command line names the resident. The docket
//! with its sheet is on standard input.
#![tactic(auto)]

use reasons_text::tell_words;
use std::process::ExitCode;
use std::{env, io};

// The words after the program's own name.
fn words(rt: &HostRuntime) -> io::Result<Vec<String>> {
    Ok(env::args(rt)?.skip(1).collect(rt.alloc())?)
}

fn main(rt: HostRuntime) -> ExitCode {
    tell_words(
        &rt,
        rt.alloc(),
        words(&rt),
        &mut rt.reader(),
        &mut io::writer(&rt),
        &rt,
    )
}
