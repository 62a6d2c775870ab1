//! Comparing receipts, each read from its own file.
ghost use Rattle.std.specs.Prelude.{◌≡◌, ◌⊎◌, IfSome, None, Some};
ghost use Rattle.std.specs.Process.{exit_status as exit_status_in};
ghost use Rattle.program_shell.specs.Ends.{EndsServed};
ghost use Rattle.receipt_check.specs.Published.{published_in};
ghost use Rattle.seal_text.specs.Compared.{AnswersFolder, AnswersPair, EndsBadRow, EndsPair, EndsPairs};
ghost use Rattle.seal_text.specs.Status.{compare_status_of};

use crate::compare_line::{PublishedRows, ReceiptPaths};
use crate::directory::{load_files, paths_in, visible_path};
use crate::status::compare_status;
use program_shell::{Unread, load_path, refuse_unread};
use receipt_check::{CompareFault, Published, published_of, serve_pair, serve_pairs};
use std::alloc::Global;
use std::io::Write;
use std::process::ExitCode;
use std::random::RandomSource;
use std::rt::Files;

// Writes that the value of an option isn't the row of a root, and returns the exit status.
fn refuse_row<T: Eprint>(console: &T, option_name: &str) -> ExitCode
    ensures { exit_status_in result ≡ 2 }
{
    let _ = eprintln!(console;
        "residency: --{option_name}: not a number, a comma and 64 small hexadecimal digits"
    );
    ExitCode::from(2)
}

// Writes why receipts weren't compared. No exit status depends on whether this text could be written.
fn tell<T: Eprint>(console: &T, path: Option<&str>, fault: &CompareFault) {
    let _ = match path {
        Some(path) => eprintln!(console; "residency: {path}: {fault}"),
        None => eprintln!(console; "residency: {fault}"),
    };
}

// The path of the file at fault as it is shown, if a file is at fault.
fn path_at_fault(alloc: Global, paths: &[String], fault: &CompareFault) -> Option<String> {
    match fault {
        CompareFault::Wrong(file, _) => visible_path(alloc, paths.get(*file)?.as_str()).ok(),
        CompareFault::Memory | CompareFault::Write => None,
    }
}

// Writes that a file of a directory was not read, and returns the exit status.
fn refuse_file<T: Eprint>(alloc: Global, unread: &Unread, console: &T) -> ExitCode
    ensures { exit_status_in result ≡ 1 }
{
    let path = match unread {
        Unread::Memory(path) | Unread::Unreadable(path) => visible_path(alloc, *path),
    };
    match (path, unread) {
        (Ok(path), Unread::Unreadable(_)) => {
            refuse_unread(console, &Unread::Unreadable(path.as_str()))
        }
        (Ok(path), Unread::Memory(_)) => refuse_unread(console, &Unread::Memory(path.as_str())),
        (Err(_), _) => refuse_unread(console, &Unread::Memory("the directory")),
    }
}

// Reads two receipts, and compares them.
fn compare_two<W: Write, T: Eprint, H: RandomSource + Files + AllocGlobal>(
    rt: &H,
    alloc: Global,
    published_lists: &Published,
    published_result: &Published,
    paths: &ReceiptPaths,
    writer: &mut W,
    console: &T,
) -> ExitCode
    ensures { EndsServed (AnswersPair published_lists.now published_result.now
        (W.contents writer.old) (W.contents writer.new)) compare_status_of
        (W.contents writer.old) (W.contents writer.new) (exit_status_in result) }
{
    let resident = match load_path(rt, paths.resident) {
        Ok(resident) => resident,
        Err(unread) => return refuse_unread(console, &unread),
    };
    let programme = match load_path(rt, paths.programme) {
        Ok(programme) => programme,
        Err(unread) => return refuse_unread(console, &unread),
    };
    let (resident, programme) = (resident.as_slice(), programme.as_slice());
    let compare_result = serve_pair(
        rt,
        alloc,
        published_lists,
        published_result,
        resident,
        programme,
        writer,
    );
    if let Err(fault) = &compare_result {
        let path = match fault {
            CompareFault::Wrong(0, _) => Some(paths.resident),
            CompareFault::Wrong(_, _) => Some(paths.programme),
            CompareFault::Memory | CompareFault::Write => None,
        };
        tell(console, path, fault);
    }
    ExitCode::from(compare_status(&compare_result))
}

// Reads the receipts of a directory, and compares them.
fn compare_all<W: Write, T: Eprint, H: RandomSource + Files + AllocGlobal>(
    rt: &H,
    alloc: Global,
    published_lists: &Published,
    published_result: &Published,
    directory: &str,
    writer: &mut W,
    console: &T,
) -> ExitCode
    ensures { EndsServed (AnswersFolder published_lists.now published_result.now
        (W.contents writer.old) (W.contents writer.new)) compare_status_of
        (W.contents writer.old) (W.contents writer.new) (exit_status_in result) }
{
    let paths = match paths_in(rt, alloc, directory) {
        Ok(paths) => paths,
        Err(unread) => return refuse_unread(console, &unread),
    };
    let files = match load_files(rt, alloc, paths.as_slice()) {
        Ok(files) => files,
        Err(unread) => return refuse_file(alloc, &unread, console),
    };
    let compare_result = serve_pairs(
        rt,
        alloc,
        published_lists,
        published_result,
        files.as_slice(),
        writer,
    );
    if let Err(fault) = &compare_result {
        match path_at_fault(alloc, paths.as_slice(), fault) {
            Some(path) => tell(console, Some(path.as_str()), fault),
            None => tell(console, None, fault),
        }
    }
    ExitCode::from(compare_status(&compare_result))
}

/// Compares two receipts under the roots in these rows, and returns the exit status.
pub(crate) fn compare_pair<W: Write, T: Eprint, H: RandomSource + Files + AllocGlobal>(
    rt: &H,
    alloc: Global,
    rows: &PublishedRows,
    paths: &ReceiptPaths,
    writer: &mut W,
    console: &T,
) -> ExitCode
    ensures { EndsPair rows.now (W.contents writer.old) (W.contents writer.new)
        (exit_status_in result) }
{
    let Some(lists) = published_of(rows.lists.as_bytes()) else {
        return refuse_row(console, "lists");
    };
    let Some(outcome) = published_of(rows.outcome.as_bytes()) else {
        return refuse_row(console, "result");
    };
    compare_two(rt, alloc, &lists, &outcome, paths, writer, console)
}

/// Compares the receipts of a directory under the roots in these rows, and returns the exit status.
pub(crate) fn compare_pairs<W: Write, T: Eprint, H: RandomSource + Files + AllocGlobal>(
    rt: &H,
    alloc: Global,
    rows: &PublishedRows,
    directory: &str,
    writer: &mut W,
    console: &T,
) -> ExitCode
    ensures { EndsPairs rows.now (W.contents writer.old) (W.contents writer.new)
        (exit_status_in result) }
{
    let Some(lists) = published_of(rows.lists.as_bytes()) else {
        return refuse_row(console, "lists");
    };
    let Some(outcome) = published_of(rows.outcome.as_bytes()) else {
        return refuse_row(console, "result");
    };
    compare_all(rt, alloc, &lists, &outcome, directory, writer, console)
}
