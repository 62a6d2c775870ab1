//! The program, over any streams. The program does what the command line's words ask. The program's exit status says
//! what was found, or why no answer was written.
ghost use Rattle.std.specs.Process.{exit_status as exit_status_in};
ghost use Rattle.residency.specs.Program.{Ends, EndsWithin, EndsServingWithin};

use crate::fault::LimitsFault;
use crate::serve::serve_within;
use crate::status::exit_status_within;
use command_line::{Order, read_line};
use match_model::Limits;
use match_pool::OpenGate;
use program_shell::{UsageFault, refuse, texts_of};
use std::alloc::Global;
use std::io;
use std::io::{Read, Write};
use std::process::ExitCode;
use std::random::RandomSource;
use std::sync::Wait;
use std::thread::Threads;

// Writes why there is no complete answer. The text names these limits. No exit status depends on whether this
// text could be written.
fn tell<T: Eprint>(console: &T, limits: Limits, fault: &LimitsFault) {
    let _ = match fault {
        LimitsFault::Reading(fault) => eprintln!(console; "residency: {}", fault.within(limits)),
        LimitsFault::Serving(fault) => eprintln!(console; "residency: {fault}"),
    };
}

// Does what the command line asks within these limits, or writes why there is no complete answer.
fn serve_and_tell<R, W, T, H>(
    rt: H,
    alloc: Global,
    limits: Limits,
    order: &Order,
    console: &T,
    reader: R,
    writer: &mut W,
) -> ExitCode
where
    T: Eprint,
    R: Read + Drop,
    W: Write,
    H: Threads + Wait + RandomSource + Sync + Send + Copy,
    ensures { EndsServingWithin limits order.now (R.remaining reader)
        (W.contents writer.old) (W.contents writer.new) (exit_status_in result) }
{
    let call_result = serve_within(rt, alloc, limits, order, reader, writer, &OpenGate);
    if let Err(fault) = &call_result {
        tell(console, limits, fault);
    }
    ExitCode::from(exit_status_within(&call_result))
}

/// Does what the words ask within the standard limits, over a reader and a writer, and returns the exit status.
///
/// The words are those after the program's own name. Help and the version go to standard output. The reason for a
/// missing or partial answer goes to standard error. The handle `rt` starts the threads of a match, and gives the
/// random bytes for reading a docket.
pub fn serve_words<R, W, T, H>(
    rt: H,
    alloc: Global,
    words: io::Result<Vec<String>>,
    reader: R,
    writer: &mut W,
    console: &T,
) -> ExitCode
where
    R: Read + Drop,
    W: Write,
    T: Print + Eprint,
    H: Threads + Wait + RandomSource + Sync + Send + Copy,
    ensures { Ends words (R.remaining reader)
        (W.contents writer.old) (W.contents writer.new) (exit_status_in result) }
{
    serve_words_within(rt, alloc, Limits::Standard, words, reader, writer, console)
}

/// Does what `serve_words` does, but within these limits.
pub fn serve_words_within<R, W, T, H>(
    rt: H,
    alloc: Global,
    limits: Limits,
    words: io::Result<Vec<String>>,
    reader: R,
    writer: &mut W,
    console: &T,
) -> ExitCode
where
    R: Read + Drop,
    W: Write,
    T: Print + Eprint,
    H: Threads + Wait + RandomSource + Sync + Send + Copy,
    ensures { EndsWithin limits words (R.remaining reader)
        (W.contents writer.old) (W.contents writer.new) (exit_status_in result) }
{
    let word_texts = match texts_of(words) {
        Ok(word_texts) => word_texts,
        Err(fault) => return refuse(console, &fault),
    };
    match read_line(alloc, word_texts.as_slice()) {
        Ok(order) => serve_and_tell(rt, alloc, limits, &order, console, reader, writer),
        Err(fault) => refuse(console, &UsageFault::Line(fault)),
    }
}
