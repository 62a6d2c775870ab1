//! The main program. The command line says what to do with the docket on standard input, and the answer goes to
//! standard output.
#![tactic(auto)]

use residency::serve_words;
use std::process::ExitCode;
use std::{env, io};

// The words after the program's own name.
fn words(rt: &HostRuntime) -> io::Result<Vec<String>> {
    Ok(env::args(rt)?.skip(1).collect(rt.alloc())?)
}

fn main(rt: HostRuntime) -> ExitCode {
    serve_words(
        rt,
        rt.alloc(),
        words(&rt),
        &mut rt.reader(),
        &mut io::writer(&rt),
        &rt,
    )
}
