//! The program, over any streams: it seals a docket, checks a receipt or compares receipts, and its exit status tells how that
//! ended.
ghost use Rattle.std.specs.Prelude.{◌≡◌, ◌⊎◌, IfSome, None, Some, option_map};
ghost use Rattle.std.specs.Process.{exit_status as exit_status_in};
ghost use Rattle.program_shell.specs.Ends.{EndsServed};
ghost use Rattle.receipt_check.specs.Faults as faults;
ghost use Rattle.seal_text.specs.Program.{AnswersCheck, AnswersSeal, EndsBadRoot, EndsChecked, EndsSeal, ServesSeal};
ghost use Rattle.seal_text.specs.Status.{receipt_status_of, seal_status_of};

use crate::compare::{compare_pair, compare_pairs};
use crate::fault::SealFault;
use crate::line::{Order, Roots, Sources, read_line};
use crate::serve::{Wanted, serve};
use crate::status::{receipt_status, seal_status};
use docket::Part;
use program_shell::{
    UsageFault, lent, load_input, load_path, load_path_if, refuse, refuse_unread, texts_of,
};
use receipt_check::{digest_of, serve_receipt};
use std::alloc::Global;
use std::io;
use std::io::{Read, Write};
use std::process::ExitCode;
use std::random::RandomSource;
use std::rt::Files;

// The path of the file at fault, if a named file is at fault.
fn file_of<'a>(sources: &Sources<'a>, fault: &SealFault) -> Option<&'a str> {
    match fault {
        SealFault::Secret(_) => Some(sources.secret),
        SealFault::Unstable => sources.sheet,
        SealFault::Key(_) => None,
        SealFault::Files(fault) => match (fault.file(), sources.sheet) {
            (Some(Part::Docket), _) => Some("standard input"),
            (Some(_), Some(sheet)) => Some(sheet),
            (Some(_), None) => Some("standard input"),
            (None, _) => None,
        },
    }
}

// Writes why nothing was sealed. No exit status depends on whether this text could be written.
fn tell<T: Eprint>(console: &T, sources: &Sources, fault: &SealFault) {
    let _ = match file_of(sources, fault) {
        Some(file) => eprintln!(console; "residency: {file}: {fault}"),
        None => eprintln!(console; "residency: {fault}"),
    };
}

// Reads the files, and writes the roots or the receipts, as wanted.
fn seal_files<R, W, T, H>(
    rt: &H,
    alloc: Global,
    text_kind: Wanted,
    sources: &Sources,
    reader: &mut R,
    writer: &mut W,
    console: &T,
) -> ExitCode
where
    R: Read,
    W: Write,
    T: Eprint,
    H: RandomSource + Files + AllocGlobal,
    ensures { EndsServed (AnswersSeal text_kind sources.now (R.remaining reader.old)
        (W.contents writer.old) (W.contents writer.new)) seal_status_of
        (W.contents writer.old) (W.contents writer.new) (exit_status_in result) }
{
    let secret = match load_path(rt, sources.secret) {
        Ok(secret) => secret,
        Err(unread) => return refuse_unread(console, &unread),
    };
    let loaded_sheet = match load_path_if(rt, sources.sheet) {
        Ok(loaded_sheet) => loaded_sheet,
        Err(unread) => return refuse_unread(console, &unread),
    };
    let key = match load_path_if(rt, sources.key) {
        Ok(key) => key,
        Err(unread) => return refuse_unread(console, &unread),
    };
    let docket = match load_input(alloc, "standard input", reader) {
        Ok(docket) => docket,
        Err(unread) => return refuse_unread(console, &unread),
    };
    let (docket, secret) = (docket.as_slice(), secret.as_slice());
    let (sheet, key) = (lent(&loaded_sheet), lent(&key));
    let seal_result = serve(rt, alloc, text_kind, docket, sheet, key, secret, writer);
    if let Err(fault) = &seal_result {
        tell(console, sources, fault);
    }
    ExitCode::from(seal_status(&seal_result))
}

// Writes that the value of an option isn't a root, and returns the exit status.
fn refuse_root<T: Eprint>(console: &T, option_name: &str) -> ExitCode
    ensures { exit_status_in result ≡ 2 }
{
    let _ = eprintln!(console; "residency: --{option_name}: not 64 small hexadecimal digits");
    ExitCode::from(2)
}

// The root of the result, if its digits are given. None if the digits write no root.
fn outcome_of(digits: Option<&str>) -> Option<Option<[u8; 32]>>
    ensures root { IfSome result (λ root.
        option_map (λ digits. faults.digest_of digits.now) digits.entry ≡ option_map Some root) }
    ensures bad { result ≡ None
        → option_map (λ digits. faults.digest_of digits.now) digits.entry ≡ Some None }
{
    match digits {
        None => Some(None),
        Some(digits) => match digest_of(digits.as_bytes()) {
            Some(root) => Some(Some(root)),
            None => None,
        },
    }
}

// Reads a receipt, checks it against these roots, and writes what it shows, or what is wrong with it.
fn check_input<R: Read, W: Write, T: Eprint, H: RandomSource>(
    rt: &H,
    alloc: Global,
    lists_root: &[u8; 32],
    result_root: Option<&[u8; 32]>,
    reader: &mut R,
    writer: &mut W,
    console: &T,
) -> ExitCode
    ensures { EndsServed (AnswersCheck lists_root.now
        (option_map (λ root. root.now) result_root.entry)
        (R.remaining reader.old) (W.contents writer.old) (W.contents writer.new)) receipt_status_of
        (W.contents writer.old) (W.contents writer.new) (exit_status_in result) }
{
    let receipt = match load_input(alloc, "standard input", reader) {
        Ok(receipt) => receipt,
        Err(unread) => return refuse_unread(console, &unread),
    };
    let check_result = serve_receipt(
        rt,
        alloc,
        receipt.as_slice(),
        lists_root,
        result_root,
        writer,
    );
    if let Err(fault) = &check_result {
        let _ = eprintln!(console; "residency: {fault}");
    }
    ExitCode::from(receipt_status(&check_result))
}

// Reads a receipt, and checks it against the roots that these digits write.
fn check_roots<R: Read, W: Write, T: Eprint, H: RandomSource>(
    rt: &H,
    alloc: Global,
    roots: &Roots,
    reader: &mut R,
    writer: &mut W,
    console: &T,
) -> ExitCode
    ensures { EndsBadRoot roots.now (W.contents writer.old) (W.contents writer.new)
        (exit_status_in result) ⊎ EndsChecked roots.now (R.remaining reader.old)
        (W.contents writer.old) (W.contents writer.new) (exit_status_in result) }
{
    let Some(lists_root) = digest_of(roots.lists.as_bytes()) else {
        return refuse_root(console, "lists");
    };
    let Some(result_root) = outcome_of(roots.outcome) else {
        return refuse_root(console, "result");
    };
    check_input(
        rt,
        alloc,
        &lists_root,
        result_root.as_ref(),
        reader,
        writer,
        console,
    )
}

/// Seals a docket, checks a receipt or compares receipts, as the words order, and returns the exit status. The
/// status is 0 if all was written, and 4 for a receipt that is wrong and for receipts that differ. It is 1 if
/// memory, reading or writing failed, 2 for a wrong command line, and 3 for a file at fault.
///
/// The words are those after the program's own name. Help and the version go to standard output. The reason why
/// nothing was written goes to standard error.
pub fn seal_words<R, W, T, H>(
    rt: &H,
    alloc: Global,
    words: io::Result<Vec<String>>,
    reader: &mut R,
    writer: &mut W,
    console: &T,
) -> ExitCode
where
    R: Read,
    W: Write,
    T: Print + Eprint,
    H: RandomSource + Files + AllocGlobal,
    ensures { EndsSeal words (R.remaining reader.old)
        (W.contents writer.old) (W.contents writer.new) (exit_status_in result) }
{
    let word_texts = match texts_of(words) {
        Ok(word_texts) => word_texts,
        Err(fault) => return refuse(console, &fault),
    };
    match read_line(alloc, word_texts.as_slice()) {
        Ok(Order::Seal(text_kind, sources)) => {
            seal_files(rt, alloc, text_kind, &sources, reader, writer, console)
        }
        Ok(Order::Check(roots)) => check_roots(rt, alloc, &roots, reader, writer, console),
        Ok(Order::Pair(rows, paths)) => compare_pair(rt, alloc, &rows, &paths, writer, console),
        Ok(Order::Pairs(rows, directory)) => {
            compare_pairs(rt, alloc, &rows, directory, writer, console)
        }
        Err(fault) => refuse(console, &UsageFault::Line(fault)),
    }
}
