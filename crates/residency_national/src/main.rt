//! The program for markets of a whole nation. This program does what `residency` does, but within the national limits.
#![tactic(auto)]

use match_model::Limits;
use residency::serve_words_within;
use std::process::ExitCode;
use std::{env, io};

// The words after the program's own name.
fn words(rt: &HostRuntime) -> io::Result<Vec<String>> {
    Ok(env::args(rt)?.skip(1).collect(rt.alloc())?)
}

fn main(rt: HostRuntime) -> ExitCode {
    serve_words_within(
        rt,
        rt.alloc(),
        Limits::National,
        words(&rt),
        &mut rt.reader(),
        &mut io::writer(&rt),
        &rt,
    )
}
