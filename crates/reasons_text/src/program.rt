//! The program, over any streams. The program answers the question that the command line's words ask. The program's
//! exit status says whether the question was answered, and if not, why.
ghost use Rattle.std.specs.Prelude.{◌≡◌, option_copied};
ghost use Rattle.std.specs.Process.{exit_status as exit_status_in};
ghost use Rattle.program_shell.specs.Ends.{EndsServed};
ghost use Rattle.reasons_text.specs.Program.{AnswersBeside, Ends, EndsWithin, Serves};
ghost use Rattle.reasons_text.specs.Status.{exit_status_of};

use crate::answering::serve_why_within;
use crate::fault::WhyFault;
use crate::files::serve_why_files_within;
use crate::line::read_line;
use crate::question::Question;
use crate::status::exit_status;
use docket::Part;
use match_model::Limits;
use program_shell::{
    UsageFault, lent, load_input, load_path, load_path_if, refuse, refuse_unread, texts_of,
};
use std::alloc::Global;
use std::io;
use std::io::{Read, Write};
use std::process::ExitCode;
use std::random::RandomSource;
use std::rt::Files;

// Writes why a question wasn't answered. The text names these limits. No exit status depends on whether this text could
// be written.
fn print_fault<T: Eprint>(console: &T, limits: Limits, question: &Question, fault: &WhyFault) {
    let fault_text = fault.within(limits);
    let _ = match (fault.file(), question.sheet) {
        (Some(Part::Sheet), Some(path)) => eprintln!(console; "residency: {path}: {fault_text}"),
        (Some(_), _) => eprintln!(console; "residency: standard input: {fault_text}"),
        (None, _) => eprintln!(console; "residency: {fault_text}"),
    };
}

// Returns the exit status after a question. If the question wasn't answered, writes why.
fn exit_code_of<T: Eprint>(
    console: &T,
    limits: Limits,
    question: &Question,
    question_result: &Result<(), WhyFault>,
) -> ExitCode
    ensures { exit_status_in result ≡ exit_status_of question_result.now }
{
    if let Err(fault) = question_result {
        print_fault(console, limits, question, fault);
    }
    ExitCode::from(exit_status(question_result))
}

// Answers a question over a docket from the reader and a sheet from its own file, within these limits.
fn serve_with_sheet_file<R, W, T, H>(
    rt: &H,
    alloc: Global,
    limits: Limits,
    question: &Question,
    sheet_path: &str,
    key_bytes: Option<&[u8]>,
    reader: R,
    writer: &mut W,
    console: &T,
) -> ExitCode
where
    R: Read + Drop,
    W: Write,
    T: Eprint,
    H: RandomSource + Files + AllocGlobal,
    ensures { EndsServed (AnswersBeside limits question.now (R.remaining reader)
        (option_copied key_bytes.entry) (W.contents writer.old) (W.contents writer.new))
        exit_status_of (W.contents writer.old) (W.contents writer.new) (exit_status_in result) }
{
    let sheet_bytes = match load_path(rt, sheet_path) {
        Ok(sheet_bytes) => sheet_bytes,
        Err(unread_file) => return refuse_unread(console, &unread_file),
    };
    let mut reader = reader;
    let docket_bytes = match load_input(alloc, "standard input", &mut reader) {
        Ok(docket_bytes) => docket_bytes,
        Err(unread_file) => return refuse_unread(console, &unread_file),
    };
    let question_result = serve_why_files_within(
        rt,
        alloc,
        limits,
        docket_bytes.as_slice(),
        sheet_bytes.as_slice(),
        writer,
        question.asked,
        question.without_ranks,
        key_bytes,
    );
    exit_code_of(console, limits, question, &question_result)
}

// Reads the files that the question names, and answers the question within these limits.
fn serve<R, W, T, H>(
    rt: &H,
    alloc: Global,
    limits: Limits,
    question: &Question,
    reader: R,
    writer: &mut W,
    console: &T,
) -> ExitCode
where
    R: Read + Drop,
    W: Write,
    T: Eprint,
    H: RandomSource + Files + AllocGlobal,
    ensures { Serves limits (R.remaining reader)
        (W.contents writer.old) (W.contents writer.new) (exit_status_in result) question.now }
{
    let loaded_key = match load_path_if(rt, question.key) {
        Ok(loaded_key) => loaded_key,
        Err(unread_file) => return refuse_unread(console, &unread_file),
    };
    let key_bytes = lent(&loaded_key);
    match question.sheet {
        Some(sheet_path) => {
            serve_with_sheet_file(
                rt, alloc, limits, question, sheet_path, key_bytes, reader, writer, console,
            )
        }
        None => {
            let (asked, without_ranks) = (question.asked, question.without_ranks);
            let question_result = serve_why_within(
                rt,
                alloc,
                limits,
                reader,
                writer,
                asked,
                without_ranks,
                key_bytes,
            );
            exit_code_of(console, limits, question, &question_result)
        }
    }
}

/// Answers the question that the words ask, within the standard limits, and returns the exit status. The status is 0
/// for an answer, 1 if memory, reading or writing failed, and 2 for a wrong command line. The status is 3 for a bad
/// key, a docket or a sheet at fault, a missing sheet, and an unknown name.
///
/// The words are those after the program's own name. Help and the version go to standard output. The reason for a
/// missing answer goes to standard error.
pub fn tell_words<R, W, T, H>(
    rt: &H,
    alloc: Global,
    words: io::Result<Vec<String>>,
    reader: R,
    writer: &mut W,
    console: &T,
) -> ExitCode
where
    R: Read + Drop,
    W: Write,
    T: Print + Eprint,
    H: RandomSource + Files + AllocGlobal,
    ensures { Ends words (R.remaining reader)
        (W.contents writer.old) (W.contents writer.new) (exit_status_in result) }
{
    tell_words_within(rt, alloc, Limits::Standard, words, reader, writer, console)
}

/// Does what `tell_words` does, but within these limits.
pub fn tell_words_within<R, W, T, H>(
    rt: &H,
    alloc: Global,
    limits: Limits,
    words: io::Result<Vec<String>>,
    reader: R,
    writer: &mut W,
    console: &T,
) -> ExitCode
where
    R: Read + Drop,
    W: Write,
    T: Print + Eprint,
    H: RandomSource + Files + AllocGlobal,
    ensures { EndsWithin limits words (R.remaining reader)
        (W.contents writer.old) (W.contents writer.new) (exit_status_in result) }
{
    let word_texts = match texts_of(words) {
        Ok(word_texts) => word_texts,
        Err(fault) => return refuse(console, &fault),
    };
    match read_line(alloc, word_texts.as_slice()) {
        Ok(question) => serve(rt, alloc, limits, &question, reader, writer, console),
        Err(fault) => refuse(console, &UsageFault::Line(fault)),
    }
}
