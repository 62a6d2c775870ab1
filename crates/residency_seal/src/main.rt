//! The program of sealed lists: it seals a docket, makes receipts for members, and checks a receipt.
#![tactic(auto)]

use seal_text::seal_words;
use std::process::ExitCode;
use std::{env, io};

// The words after the program's own name.
fn words(rt: &HostRuntime) -> io::Result<Vec<String>> {
    Ok(env::args(rt)?.skip(1).collect(rt.alloc())?)
}

fn main(rt: HostRuntime) -> ExitCode {
    seal_words(
        &rt,
        rt.alloc(),
        words(&rt),
        &mut rt.reader(),
        &mut io::writer(&rt),
        &rt,
    )
}
