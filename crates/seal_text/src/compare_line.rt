//! The commands that compare receipts.
ghost use Rattle.std.specs.Prelude.{◌≡◌, ◌⊎◌, IfOk, IfSome, None, codes};
ghost use Rattle.clap.specs.Words.{app_of, first_of, found_of, rows_of};
ghost use Rattle.seal_text.specs.Line.{GivesFolder, GivesPair, GivesRows, GivesTwo, NamesNoFolder, NamesNoPair, comparing_app, pair_app, pairs_app};

use crate::line::option_with_value;
use clap::{ArgMatches, Command};
use program_shell::{described, required_argument};
use std::alloc::{AllocError, Global};

const PAIR_HELP: &str =
    "Reads two receipts. The rows are those that the office published after lists and result: the number
of members, a comma and 64 small hexadecimal digits. They are never taken from a receipt.
Writes whether the two receipts agree on the resident and the programme, and how; or what they say
differently first.

Exit status: 0 where they agree, and 4 where they differ; 3 for a file that is no receipt of these
roots, whose row is named on standard error; 1 where memory, reading or writing failed; 2 for a wrong
command line.

Example: residency-seal pair --lists 8,ROOT --result 8,ROOT resident.csv programme.csv";

const PAIRS_HELP: &str =
    "Reads all files of a directory, but those whose names begin with a dot: each is a receipt. The rows
are those that the office published after lists and result: the number of members, a comma and 64
small hexadecimal digits.
Compares the receipts of each resident and each programme on its list, and of each programme and each
of its residents. Writes a sentence on each two that differ, how many members are there and how many
pairs were compared, and, if all members are there and none differ, that the placement is stable.

Exit status: 0 where the placement is stable, and 4 where that is not shown; 3 for a file that is no
receipt of these roots, or the second one of a member, whose row is named on standard error; 1 where
memory, reading or writing failed; 2 for a wrong command line.

Example: residency-seal pairs --lists 8,ROOT --result 8,ROOT receipts";

/// The published rows of both trees: each has a number, a comma and a root's digits.
#[derive(Clone, Copy, Debug, PartialEq, Eq)]
pub struct PublishedRows<'a> {
    /// The row of the lists' root.
    pub lists: &'a str,
    /// The row of the result's root.
    pub outcome: &'a str,
}

/// The paths of the files of two receipts.
#[derive(Clone, Copy, Debug, PartialEq, Eq)]
pub struct ReceiptPaths<'a> {
    /// The path of the resident's receipt.
    pub resident: &'a str,
    /// The path of the programme's receipt.
    pub programme: &'a str,
}

// The description of a command that compares, with its options for the roots.
fn comparing_command<'a>(
    alloc: Global,
    name: &'a str,
    usage: &'a str,
    about: &'a str,
    help: &'a str,
) -> Result<Command<'a>, AllocError>
    ensures { IfOk result (λ command. app_of command ≡ comparing_app name.entry.now) }
{
    let command = described(alloc, name, usage, about, help);
    let help = "The published number of members and root of the lists";
    let command = command.arg(option_with_value(alloc, "lists", "N,ROOT", help, true))?;
    let help = "The published number of members and root of the result";
    command.arg(option_with_value(alloc, "result", "N,ROOT", help, true))
}

/// The description of the command that compares two receipts.
pub(crate) fn pair_command<'a>(alloc: Global) -> Result<Command<'a>, AllocError>
    ensures { IfOk result (λ command. app_of command ≡ pair_app) }
{
    let usage = "residency-seal pair --lists N,ROOT --result N,ROOT RESIDENT PROGRAMME";
    let about = "Says whether the receipts of a resident and a programme agree";
    let command = comparing_command(alloc, "pair", usage, about, PAIR_HELP)?;
    let resident = required_argument(
        alloc,
        "resident",
        "RESIDENT",
        "The file of the resident's receipt",
    );
    let command = command.arg(resident)?;
    command.arg(required_argument(
        alloc,
        "programme",
        "PROGRAMME",
        "The file of the programme's receipt",
    ))
}

/// The description of the command that compares the receipts of a directory.
pub(crate) fn pairs_command<'a>(alloc: Global) -> Result<Command<'a>, AllocError>
    ensures { IfOk result (λ command. app_of command ≡ pairs_app) }
{
    let usage = "residency-seal pairs --lists N,ROOT --result N,ROOT DIRECTORY";
    let about = "Says whether all receipts of a directory agree";
    let command = comparing_command(alloc, "pairs", usage, about, PAIRS_HELP)?;
    command.arg(required_argument(
        alloc,
        "directory",
        "DIRECTORY",
        "The directory of the receipts",
    ))
}

// The rows of roots that a command line gives, if it gives both.
fn rows_named<'a>(matches: &ArgMatches<'a>) -> Option<PublishedRows<'a>>
    ensures rows { IfSome result (GivesRows (rows_of (found_of matches.now))) }
    ensures none { result ≡ None
        → (first_of (codes "lists") (rows_of (found_of matches.now)) ≡ None)
        ⊎ (first_of (codes "result") (rows_of (found_of matches.now)) ≡ None) }
{
    let Some(lists) = matches.get_str("lists") else {
        return None;
    };
    match matches.get_str("result") {
        Some(outcome) => Some(PublishedRows { lists, outcome }),
        None => None,
    }
}

// The files of two receipts that a command line names, if it names both.
fn receipt_paths_named<'a>(matches: &ArgMatches<'a>) -> Option<ReceiptPaths<'a>>
    ensures files { IfSome result (GivesTwo (rows_of (found_of matches.now))) }
    ensures none { result ≡ None
        → (first_of (codes "resident") (rows_of (found_of matches.now)) ≡ None)
        ⊎ (first_of (codes "programme") (rows_of (found_of matches.now)) ≡ None) }
{
    let Some(resident) = matches.get_str("resident") else {
        return None;
    };
    match matches.get_str("programme") {
        Some(programme) => Some(ReceiptPaths {
            resident,
            programme,
        }),
        None => None,
    }
}

/// The rows and the files that the words of the command `pair` give, if they give all of them.
pub(crate) fn pair_named<'a>(
    matches: &ArgMatches<'a>,
) -> Option<(PublishedRows<'a>, ReceiptPaths<'a>)>
    ensures pair { IfSome result (λ rows_and_paths.
        GivesPair (rows_of (found_of matches.now)) rows_and_paths.0 rows_and_paths.1) }
    ensures none { result ≡ None → NamesNoPair (rows_of (found_of matches.now)) }
{
    match (rows_named(matches), receipt_paths_named(matches)) {
        (Some(rows), Some(paths)) => Some((rows, paths)),
        _ => None,
    }
}

/// The rows and the directory that the words of the command `pairs` give, if they give all of them.
pub(crate) fn pairs_named<'a>(matches: &ArgMatches<'a>) -> Option<(PublishedRows<'a>, &'a str)>
    ensures pairs { IfSome result (λ rows_and_directory.
        GivesFolder (rows_of (found_of matches.now))
        rows_and_directory.0 rows_and_directory.1.now) }
    ensures none { result ≡ None → NamesNoFolder (rows_of (found_of matches.now)) }
{
    let Some(rows) = rows_named(matches) else {
        return None;
    };
    match matches.get_str("directory") {
        Some(directory) => Some((rows, directory)),
        None => None,
    }
}
