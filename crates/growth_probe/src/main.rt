//! Makes one call of the libraries, and prints what the call did. Without a name on the command line, the program
//! makes all calls, one after another. If a growth of memory is refused during a call, the call has to answer that
//! memory ran out and to leave borrowed values unchanged. When the call is made again, it has to give its right
//! answer.
#![tactic(auto)]

mod audits;
mod builder;
mod dockets;
mod exchange;
mod ledger;
mod outcome;
mod serving;

use outcome::Outcome;
use std::alloc::Global;
use std::io::Write;
use std::process::ExitCode;
use std::random::RandomSource;
use std::sync::Wait;
use std::thread::Threads;
use std::{env, io};

// The names of the calls.
const CALLS: [&str; 28] = [
    "add_programme",
    "add_resident",
    "programme_list",
    "resident_list",
    "finish",
    "finish_with_lists",
    "assignment",
    "read_docket",
    "read_docket_with_lists",
    "write_sheet",
    "write_journal",
    "core",
    "mailbox",
    "list_put",
    "ledger",
    "programme_agent",
    "resident_agent",
    "run",
    "audit",
    "write_report",
    "serve_audit",
    "replay",
    "write_replay",
    "serve_replay",
    "check",
    "counts",
    "serve_match",
    "read_line",
];

// Makes the call with this name, and writes a mark to `stdout` before the call and one after it.
fn call_outcome<H: Threads + Wait + RandomSource + Sync + Send + Copy + Drop, W: Write>(
    rt: H,
    alloc: Global,
    call_name: &str,
    stdout: &mut W,
) -> Outcome {
    match call_name {
        "add_programme" => builder::add_programme(alloc, stdout),
        "add_resident" => builder::add_resident(alloc, stdout),
        "programme_list" => builder::programme_list(alloc, stdout),
        "resident_list" => builder::resident_list(alloc, stdout),
        "finish" => builder::finish(alloc, stdout),
        "finish_with_lists" => builder::finish_with_lists(alloc, stdout),
        "assignment" => builder::assignment(alloc, stdout),
        "read_docket" => dockets::read(alloc, stdout),
        "read_docket_with_lists" => dockets::read_with_lists(alloc, stdout),
        "write_sheet" => dockets::write_small_sheet(alloc, stdout),
        "write_journal" => dockets::write_closed_journal(alloc, stdout),
        "core" => exchange::core(alloc, stdout),
        "mailbox" => exchange::mailbox_of_two(rt, alloc, stdout),
        "list_put" => exchange::list_put(alloc, stdout),
        "ledger" => ledger::open_full_ledger(alloc, stdout),
        "programme_agent" => exchange::programme_agent(alloc, stdout),
        "resident_agent" => exchange::resident_agent(alloc, stdout),
        "run" => exchange::whole_run(rt, alloc, stdout),
        "audit" => audits::audit_blocked_sheet(alloc, stdout),
        "write_report" => audits::write_blocked_report(alloc, stdout),
        "replay" => audits::replay_small_journal(alloc, stdout),
        "write_replay" => audits::write_good_replay(alloc, stdout),
        "check" => audits::check_two_sheets(alloc, stdout),
        "counts" => audits::count_by_worker(alloc, stdout),
        _ => serving::call_outcome(rt, alloc, call_name, stdout),
    }
}

// The words after the program's own name.
fn words(rt: &HostRuntime) -> io::Result<Vec<String>> {
    Ok(env::args(rt)?.skip(1).collect(rt.alloc())?)
}

// Makes the call with this name, and prints what the call did. Returns whether the call did what it
// should.
fn call_and_print<H: Threads + Wait + RandomSource + Sync + Send + Copy + Drop, W: Write>(
    rt: H,
    alloc: Global,
    call_name: &str,
    stdout: &mut W,
) -> bool {
    let outcome = call_outcome(rt, alloc, call_name, stdout);
    let outcome_word = outcome.word();
    writeln!(stdout, "{call_name} {outcome_word}").is_ok() && outcome != Outcome::Wrong
}

fn main(rt: HostRuntime) -> ExitCode {
    let Ok(words) = words(&rt) else {
        return ExitCode::FAILURE;
    };
    let alloc = rt.alloc();
    let stdout = &mut io::writer(&rt);
    let mut are_calls_right = true;
    match words.first() {
        Some(call_name) => are_calls_right = call_and_print(rt, alloc, call_name.as_str(), stdout),
        None => {
            for call_name in CALLS {
                are_calls_right = call_and_print(rt, alloc, call_name, stdout) && are_calls_right;
            }
        }
    }
    if are_calls_right {
        ExitCode::SUCCESS
    } else {
        ExitCode::FAILURE
    }
}
