//! The calls of `residency`.
use crate::dockets::{SMALL_DOCKET, SMALL_SHEET, joined, output_buffer};
use crate::outcome::{Outcome, mark_call_begin, mark_call_end};
use docket::DocketFault;
use match_pool::{OpenGate, RunFault};
use residency::{
    LineFault, MatchOptions, Order, ServeFault, Status, line_status, read_line, serve_audit,
    serve_match, serve_replay,
};
use std::alloc::Global;
use std::io::Write;
use std::random::RandomSource;
use std::sync::Wait;
use std::thread::Threads;

// A docket whose sheet has a blocking pair.
const BLOCKED_DOCKET: &str = "Q,a,2\nP,a,x,y\nR,x,a\nR,y,a\nM,x,a\nU,y\nF,a,1,2\n";

// The journal of nineteen events of a docket with two programmes and three residents.
const NINETEEN_EVENTS: [&str; 3] = [
    "Q,a,2\nQ,b,1\nP,a,x,y,z\nP,b,x\nR,x,b,a\nR,y,a\nR,z,a\nC,full\n",
    "E,offer,a,x\nE,offer,a,y\nE,take,y,a\nE,take,x,a\nE,answer,y,a,hold\nE,answer,x,a,hold\nE,offer,b,x\nE,take,x,b\nE,answer,x,b,hold\nE,answer,x,a,release\nE,hear,a,y,hold\n",
    "E,hear,a,x,hold\nE,hear,b,x,hold\nE,hear,a,x,release\nE,offer,a,z\nE,take,z,a\nE,answer,z,a,hold\nE,hear,a,z,hold\nE,close\n",
];

// Whether the answer is that memory ran out.
fn lacks_memory(serve_answer: &Result<Status, ServeFault>) -> bool {
    matches!(
        serve_answer,
        Err(
            ServeFault::Memory
                | ServeFault::Docket(DocketFault::Memory)
                | ServeFault::Run(RunFault::Memory)
        )
    )
}

// One trial: what the program is asked to do, its input, the expected status, and the expected output.
#[derive(Drop)]
struct Trial<'a> {
    order: Order,
    input: &'a [u8],
    expected_status: Status,
    expected_text: &'a str,
}

impl Trial<'_> {
    fn serve<H: Threads + Wait + RandomSource + Sync + Send + Copy>(
        &self,
        rt: H,
        alloc: Global,
        writer: &mut Vec<u8>,
    ) -> Result<Status, ServeFault> {
        match &self.order {
            Order::Match(options) => {
                serve_match(rt, alloc, self.input, writer, options, &OpenGate)
            }
            Order::Audit => serve_audit(&rt, alloc, self.input, writer),
            Order::Replay => serve_replay(&rt, alloc, self.input, writer),
        }
    }

    fn is_served(&self, serve_answer: &Result<Status, ServeFault>, written_bytes: &[u8]) -> bool {
        *serve_answer == Ok(self.expected_status) && written_bytes == self.expected_text.as_bytes()
    }

    fn outcome<H: Threads + Wait + RandomSource + Sync + Send + Copy, W: Write>(
        &self,
        rt: H,
        alloc: Global,
        stdout: &mut W,
    ) -> Outcome {
        let Ok(mut written_bytes) = output_buffer(alloc) else {
            return Outcome::Wrong;
        };
        mark_call_begin(stdout);
        let first_answer = self.serve(rt, alloc, &mut written_bytes);
        mark_call_end(stdout);
        let lacks_thread = matches!(first_answer, Err(ServeFault::Run(RunFault::Thread)));
        if !lacks_thread && !lacks_memory(&first_answer) {
            return Outcome::of_first_answer(self.is_served(
                &first_answer,
                written_bytes.as_slice(),
            ));
        }
        let is_unchanged = written_bytes.is_empty();
        let second_answer = self.serve(rt, alloc, &mut written_bytes);
        if !is_unchanged || !self.is_served(&second_answer, written_bytes.as_slice()) {
            Outcome::Wrong
        } else if lacks_thread {
            Outcome::WantedThread
        } else {
            Outcome::WantedMemory
        }
    }
}

// Reads a command line that has a wrong number of workers.
fn wrong_line<W: Write>(alloc: Global, stdout: &mut W) -> Outcome {
    let line_words = ["match", "--workers", "9"];
    mark_call_begin(stdout);
    let first_answer = read_line(alloc, &line_words);
    mark_call_end(stdout);
    match first_answer {
        Err(LineFault::Memory) => match read_line(alloc, &line_words) {
            Err(fault) => Outcome::after_memory_fault(line_status(&fault) == 2),
            Ok(_) => Outcome::Wrong,
        },
        Err(fault) => Outcome::of_first_answer(line_status(&fault) == 2),
        Ok(_) => Outcome::Wrong,
    }
}

// Matches the small docket.
fn match_small_docket<H: Threads + Wait + RandomSource + Sync + Send + Copy, W: Write>(
    rt: H,
    alloc: Global,
    stdout: &mut W,
) -> Outcome {
    let trial = Trial {
        order: Order::Match(MatchOptions::default()),
        input: SMALL_DOCKET.as_bytes(),
        expected_status: Status::Closed,
        expected_text: SMALL_SHEET,
    };
    trial.outcome(rt, alloc, stdout)
}

// Audits a sheet with a blocking pair.
fn audit_blocked_sheet<H: Threads + Wait + RandomSource + Sync + Send + Copy, W: Write>(
    rt: H,
    alloc: Global,
    stdout: &mut W,
) -> Outcome {
    let trial = Trial {
        order: Order::Audit,
        input: BLOCKED_DOCKET.as_bytes(),
        expected_status: Status::Unstable,
        expected_text: "S,unstable\nB,y,a\n",
    };
    trial.outcome(rt, alloc, stdout)
}

// Replays nineteen events from these bytes.
fn replay_nineteen_events<H: Threads + Wait + RandomSource + Sync + Send + Copy, W: Write>(
    rt: H,
    alloc: Global,
    journal_bytes: &[u8],
    stdout: &mut W,
) -> Outcome {
    let trial = Trial {
        order: Order::Replay,
        input: journal_bytes,
        expected_status: Status::ReplayGood,
        expected_text: "G,19\n",
    };
    trial.outcome(rt, alloc, stdout)
}

/// Makes the call with this name. The result is wrong if there is no such call.
pub(super) fn call_outcome<H: Threads + Wait + RandomSource + Sync + Send + Copy, W: Write>(
    rt: H,
    alloc: Global,
    call_name: &str,
    stdout: &mut W,
) -> Outcome {
    match call_name {
        "serve_match" => match_small_docket(rt, alloc, stdout),
        "serve_audit" => audit_blocked_sheet(rt, alloc, stdout),
        "serve_replay" => match joined(alloc, &NINETEEN_EVENTS) {
            Ok(journal_bytes) => replay_nineteen_events(
                rt,
                alloc,
                journal_bytes.as_slice(),
                stdout,
            ),
            Err(_) => Outcome::Wrong,
        },
        "read_line" => wrong_line(alloc, stdout),
        _ => Outcome::Wrong,
    }
}
