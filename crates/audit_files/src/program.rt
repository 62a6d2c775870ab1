//! The program, over any streams. The program audits the files that the command line names. The program's exit status
//! says what was found, or why no answer was written.
ghost use Rattle.std.specs.Prelude.{ℕ, List, Option, Some, option_map};
ghost use Rattle.std.specs.Process.{exit_status as exit_status_in};
ghost use Rattle.program_shell.specs.Ends.{EndsAnswered};
ghost use Rattle.audit_files.specs.Line.{IsTwice};
ghost use Rattle.audit_files.specs.Loading.{AreFiles};
ghost use Rattle.audit_files.specs.Program.{AnswersOrder, Ends, Serves};
ghost use Rattle.audit_files.specs.Status.{exit_status_of};

use crate::fault::FilesFault;
use crate::line::read_line;
use crate::load::{LoadedFiles, load};
use crate::order::Order;
use crate::serve::serve_files;
use crate::status::exit_status;
use program_shell::{UsageFault, lent, refuse, refuse_unread, texts_of};
use std::alloc::Global;
use std::io;
use std::io::{Read, Write};
use std::process::ExitCode;
use std::random::RandomSource;
use std::rt::Files;

// Prints why the answer is missing or incomplete. The exit status never depends on whether this text could be written.
fn tell<T: Eprint>(console: &T, order: &Order, fault: &FilesFault) {
    let _ = match fault.file() {
        Some(part) => eprintln!(console; "residency: {}: {fault}", order.path_of(part)),
        None => eprintln!(console; "residency: {fault}"),
    };
}

// Writes the answer about the loaded files, or prints why there is no answer.
fn serve_loaded<W: Write, T: Eprint, H: RandomSource>(
    rt: &H,
    alloc: Global,
    order: &Order,
    files: &LoadedFiles,
    writer: &mut W,
    console: &T,
) -> ExitCode
    ensures { (input : Option (List ℕ)) → AreFiles order.now input files.now.docket.items
        files.now.sheet.items (option_map (λ bytes. bytes.items) files.now.journal)
        → EndsAnswered (AnswersOrder order.now input
        (W.contents writer.old) (W.contents writer.new)) exit_status_of (exit_status_in result) }
{
    let serve_result = serve_files(
        rt,
        alloc,
        order.facts,
        files.docket.as_slice(),
        files.sheet.as_slice(),
        lent(&files.journal),
        writer,
    );
    if let Err(fault) = &serve_result {
        tell(console, order, fault);
    }
    ExitCode::from(exit_status(&serve_result))
}

// Reads the files that the command line names, and writes the answer.
fn serve_order<R, W, T, H>(
    rt: &H,
    alloc: Global,
    order: &Order,
    reader: &mut R,
    writer: &mut W,
    console: &T,
) -> ExitCode
where
    R: Read,
    W: Write,
    T: Eprint,
    H: RandomSource + Files + AllocGlobal,
    requires { IsTwice (Some order.now.docket.now) (Some order.now.sheet.now)
        (option_map (λ path. path.now) order.now.journal) → ⊥ }
    ensures { Serves (R.remaining reader.old) (R.remaining reader.new) (W.contents writer.old)
        (W.contents writer.new) (exit_status_in result) order.now }
{
    match load(rt, alloc, order, reader) {
        Ok(files) => serve_loaded(rt, alloc, order, &files, writer, console),
        Err(unread) => refuse_unread(console, &unread),
    }
}

/// Audits the files that the words name, and returns the exit status. The status is 0 if everything is good, and 4 if
/// something is bad. The status is 1 if memory, reading or writing failed, 2 for a wrong command line, and 3 for a file
/// at fault.
///
/// The words are those after the program's own name. Help and the version go to standard output. The reason for a
/// missing answer goes to standard error.
pub fn audit_words<R, W, T, H>(
    rt: &H,
    alloc: Global,
    words: io::Result<Vec<String>>,
    reader: &mut R,
    writer: &mut W,
    console: &T,
) -> ExitCode
where
    R: Read,
    W: Write,
    T: Print + Eprint,
    H: RandomSource + Files + AllocGlobal,
    ensures { Ends words (R.remaining reader.old) (R.remaining reader.new) (W.contents writer.old)
        (W.contents writer.new) (exit_status_in result) }
{
    let word_texts = match texts_of(words) {
        Ok(word_texts) => word_texts,
        Err(fault) => return refuse(console, &fault),
    };
    match read_line(alloc, word_texts.as_slice()) {
        Ok(order) => serve_order(rt, alloc, &order, reader, writer, console),
        Err(fault) => refuse(console, &UsageFault::Line(fault)),
    }
}
