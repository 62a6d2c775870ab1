//! The command line.
ghost use Rattle.std.specs.Prelude.{◌≡◌, ◌⊎◌, IfErr, IfOk, IfSome, None, codes, false, map};
ghost use Rattle.clap.specs.Words.{HasKind, app_of, fault_of, first_of, found_of, matches_of as rows_in, rows_of, rule_of};
ghost use Rattle.program_shell.specs.Faults.{IsErrorOf};
ghost use Rattle.program_shell.specs.Flags.{IsFlagged, IsUnflagged, flag_rule, value_rule, word_rule};
ghost use Rattle.reasons_text.specs.Line.{Asks, AsksNone, IsAskedBy, Refuses, program_app, why_app};

use crate::question::{Asked, Question};
use clap::error::ErrorKind;
use clap::{Arg, ArgAction, ArgMatches, Command};
use program_shell::{LineFault, line_fault};
use std::alloc::{AllocError, Global};
use std::convert::AsStr;
use version::VERSION;

// The help about what is read and written, about the exit status, and with examples.
const HELP: &str =
    "Reads a docket on standard input, and with --sheet its sheet from a file of its own. Each is then
read as its own part: a docket has V, Q, P, R and W records, a sheet M, U and F. A record of another
part is a fault, so neither can change what the other one says. Without --sheet both are read from
standard input, the sheet's records beside the docket's.

Without a programme every programme of the resident's record is told, in order, under a first line
on how the match ended. With --all every resident is told, as CSV:
resident,programme,choice,answer,rank,last_rank,quota. The answer is matched, better (the resident
has a programme that it ranked higher), full (its places went to residents it ranked higher), unranked
(it did not rank the resident), withdrawn or blocking (the sheet is not stable).

A name is the docket's, an ID of the key, a real name of the key, or NAME (ID). One that more than one
has is told with all of them, and nobody is answered.

Exit status: 0 for an answer; 3 for a docket or a sheet at fault, without a sheet or without the name,
a name of more than one, or a bad row of the key; 2 for a wrong command line; 1 where memory, reading
or writing failed.

Examples: residency-why --sheet sheet.csv resident-250 < examples/market.csv
          residency-why --sheet sheet.csv resident-250 programme-16 < examples/market.csv
          residency-why --sheet sheet.csv --key key.csv \"Ewa Kowalska\" --without-ranks < docket.csv
          residency-why --sheet sheet.csv --all < docket.csv > answers.csv";

// The word for the resident who asks.
fn resident_argument<'a>(alloc: Global) -> Arg<'a>
    ensures rule { rule_of result ≡ word_rule (codes "resident") }
    ensures own { result.global ≡ false }
{
    Arg::new(alloc, "resident")
        .value_name("RESIDENT")
        .help("The resident who asks")
}

// The word for the programme that is asked about.
fn programme_argument<'a>(alloc: Global) -> Arg<'a>
    ensures rule { rule_of result ≡ word_rule (codes "programme") }
    ensures own { result.global ≡ false }
{
    Arg::new(alloc, "programme").value_name("PROGRAMME").help(
        "The programme asked about; without it each of the resident's record",
    )
}

// The option for an answer about all residents.
fn all_option<'a>(alloc: Global) -> Arg<'a>
    ensures rule { rule_of result ≡ flag_rule (codes "all") }
    ensures own { result.global ≡ false }
{
    Arg::new(alloc, "all")
        .long("all")
        .help("Tells every resident, as CSV")
        .action(ArgAction::SetTrue)
}

// The option that leaves ranks out of the answer.
fn without_ranks_option<'a>(alloc: Global) -> Arg<'a>
    ensures rule { rule_of result ≡ flag_rule (codes "without-ranks") }
    ensures own { result.global ≡ false }
{
    Arg::new(alloc, "without-ranks")
        .long("without-ranks")
        .help("Tells no number from a programme's list")
        .action(ArgAction::SetTrue)
}

// The option for the file with the real names.
fn key_option<'a>(alloc: Global) -> Arg<'a>
    ensures rule { rule_of result ≡ value_rule (codes "key") }
    ensures own { result.global ≡ false }
{
    Arg::new(alloc, "key").long("key").value_name("FILE").help(
        "The members' real names and IDs: rows P,programme,name,ID and R,resident,name,ID",
    )
}

// The option for the file with the sheet, if the sheet is not in the docket.
fn sheet_option<'a>(alloc: Global) -> Arg<'a>
    ensures rule { rule_of result ≡ value_rule (codes "sheet") }
    ensures own { result.global ≡ false }
{
    Arg::new(alloc, "sheet")
        .long("sheet")
        .value_name("FILE")
        .help("The sheet's own file; standard input is then the docket alone")
}

// The description of the program for the command line's parser, without its words and options.
fn program<'a>(alloc: Global) -> Result<Command<'a>, AllocError>
    ensures { IfOk result (λ command. app_of command ≡ program_app) }
{
    let program = Command::new(alloc, "residency-why").bin_name("residency-why")?;
    Ok(
        program
            .about("Says why a resident is not with a programme, by a docket and its sheet")
            .override_usage(
                "residency-why [OPTIONS] --sheet FILE RESIDENT [PROGRAMME] < docket.csv\n       residency-why [OPTIONS] --sheet FILE --all < docket.csv",
            )
            .after_help(HELP)
            .version(VERSION)
            .no_binary_name(true),
    )
}

// The description of the program for the command line's parser, with its words and options.
fn command<'a>(alloc: Global) -> Result<Command<'a>, AllocError>
    ensures { IfOk result (λ command. app_of command ≡ why_app) }
{
    let command = program(alloc)?;
    let command = command.arg(resident_argument(alloc))?;
    let command = command.arg(programme_argument(alloc))?;
    let command = command.arg(all_option(alloc))?;
    let command = command.arg(without_ranks_option(alloc))?;
    let command = command.arg(key_option(alloc))?;
    command.arg(sheet_option(alloc))
}

// What the parser finds in the words, for this command.
fn matches_of<'a, S: AsStr>(
    command: &mut Command<'a>,
    words: &'a [S],
) -> Result<ArgMatches<'a>, clap::Error>
    requires { app_of command.old ≡ why_app }
    ensures found { IfOk result (λ parsed_words.
        rows_of (found_of parsed_words) ≡ rows_in why_app (map S.text words.entry.now)) }
    ensures refused { IfErr result (HasKind (fault_of why_app (map S.text words.entry.now))) }
{
    command.try_get_matches_from_mut(words)
}

// Whom the command line's words ask about. None if they ask about nobody, or both about a resident and about
// all.
fn asked<'a>(parsed_words: &ArgMatches<'a>) -> Option<Asked<'a>>
    ensures all { IfSome result (λ asked.
        IsFlagged (codes "all") (rows_of (found_of parsed_words.now))
        → asked ≡ Asked.AllResidents) }
    ensures one { IfSome result (λ asked.
        IsUnflagged (codes "all") (rows_of (found_of parsed_words.now))
        → IsAskedBy (first_of (codes "resident") (rows_of (found_of parsed_words.now)))
        (first_of (codes "programme") (rows_of (found_of parsed_words.now))) asked) }
    ensures none { result ≡ None → AsksNone (rows_of (found_of parsed_words.now)) }
{
    let is_about_all_residents = parsed_words.get_flag("all");
    let Some(resident) = parsed_words.get_str("resident") else {
        return if is_about_all_residents {
            Some(Asked::AllResidents)
        } else {
            None
        };
    };
    if is_about_all_residents {
        return None;
    }
    match parsed_words.get_str("programme") {
        Some(programme) => Some(Asked::Pair(resident, programme)),
        None => Some(Asked::Resident(resident)),
    }
}

// The message for words that ask about nobody, or both about a resident and about all.
fn nobody_asked(command: &mut Command, is_about_all_residents: bool) -> LineFault
    ensures { IsErrorOf (λ kind. (kind ≡ ErrorKind.ArgumentConflict)
        ⊎ (kind ≡ ErrorKind.MissingRequiredArgument)) result }
{
    let error = if is_about_all_residents {
        command.error(
            ErrorKind::ArgumentConflict,
            "the argument '--all' cannot be used with '[RESIDENT]'",
        )
    } else {
        command.error(
            ErrorKind::MissingRequiredArgument,
            "a RESIDENT or '--all' is wanted",
        )
    };
    match error {
        Ok(error) => line_fault(error),
        Err(_) => LineFault::Memory,
    }
}

/// The question that the command line's words ask. The words are those after the program's own name. This
/// function isn't inlined, since its frame would stay on the stack while the rest of the program runs.
#[inline(never)]
pub fn read_line<'a, S: AsStr>(alloc: Global, words: &'a [S]) -> Result<Question<'a>, LineFault>
    ensures question { IfOk result (Asks (map S.text words.entry.now)) }
    ensures refused { IfErr result (Refuses (map S.text words.entry.now)) }
{
    let mut command = command(alloc)?;
    let parsed_words = match matches_of(&mut command, words) {
        Ok(parsed_words) => parsed_words,
        Err(error) => return Err(line_fault(error)),
    };
    let Some(asked) = asked(&parsed_words) else {
        return Err(nobody_asked(&mut command, parsed_words.get_flag("all")));
    };
    Ok(Question {
        asked,
        without_ranks: parsed_words.get_flag("without-ranks"),
        key: parsed_words.get_str("key"),
        sheet: parsed_words.get_str("sheet"),
    })
}
