//! The command line.
ghost use Rattle.std.specs.Prelude.{◌≡◌, IfErr, IfOk, IfSome, codes, false, map};
ghost use Rattle.clap.specs.Words.{HasKind, app_of, fault_of, found_of, matches_of as rows_in, rows_of, rule_of};
ghost use Rattle.program_shell.specs.Flags.{flag_rule, word_rule};
ghost use Rattle.audit_files.specs.Line.{GivesOrder, Orders, Refuses, audit_app, program_app};

use crate::order::{Order, takes_input_twice};
use clap::{Arg, ArgAction, ArgMatches, Command};
use program_shell::{LineFault, line_fault, required_argument};
use std::alloc::{AllocError, Global};
use std::convert::AsStr;
use version::VERSION;

// The help about the files, about the output, about the exit status, and with examples.
const HELP: &str =
    "Each file is read as its own part. A docket has V, Q, P, R and W records, a sheet M, U and F, a
journal C and E. A record of another part is a fault, so no file can change what another one says.
One of the files may be -, which is standard input.

Writes the rows of residency audit: S,stable or S,unstable, and what keeps the sheet from being
stable. Then Y,result where the sheet is the one result of the match, or D,RESIDENT, the first at
whom it differs. With a journal the row of residency replay follows. The facts come first, where
they are wanted: H,PART,SHA-256 for each file, T,PROGRAMMES,RESIDENTS, and W,P,PROGRAMME or
W,R,RESIDENT for each member who is withdrawn.

What it trusts: that the docket's file is the one that everybody checked. Compare its SHA-256.

Exit status: 0 where all is good; 4 where something is not; 3 for a file at fault; 2 for a wrong
command line; 1 where memory, reading or writing failed.

Examples: residency-audit docket.csv sheet.csv
          residency-audit docket.csv sheet.csv journal.csv --facts";

// The command line's argument for the journal's file.
fn journal_argument<'a>(alloc: Global) -> Arg<'a>
    ensures rule { rule_of result ≡ word_rule (codes "journal") }
    ensures own { result.global ≡ false }
{
    Arg::new(alloc, "journal")
        .value_name("JOURNAL")
        .help("The file with the events of the exchange")
}

// The command line's option for the rows of facts.
fn facts_option<'a>(alloc: Global) -> Arg<'a>
    ensures rule { rule_of result ≡ flag_rule (codes "facts") }
    ensures own { result.global ≡ false }
{
    Arg::new(alloc, "facts")
        .long("facts")
        .help("First the SHA-256 of each file, how many members there are, and who is withdrawn")
        .action(ArgAction::SetTrue)
}

// The description of the program for the command line's parser, without its files and its option.
fn program<'a>(alloc: Global) -> Result<Command<'a>, AllocError>
    ensures { IfOk result (λ command. app_of command ≡ program_app) }
{
    let program = Command::new(alloc, "residency-audit").bin_name("residency-audit")?;
    Ok(
        program
            .about("Audits a sheet, its result and its journal, each file read as its own part")
            .override_usage("residency-audit [OPTIONS] DOCKET SHEET [JOURNAL]")
            .after_help(HELP)
            .version(VERSION)
            .no_binary_name(true),
    )
}

// The description of the program for the command line's parser, with its files and its option.
fn command<'a>(alloc: Global) -> Result<Command<'a>, AllocError>
    ensures { IfOk result (λ command. app_of command ≡ audit_app) }
{
    let command = program(alloc)?;
    let command = command.arg(required_argument(
        alloc,
        "docket",
        "DOCKET",
        "The file with the quotas, the lists and the withdrawals",
    ))?;
    let command = command.arg(required_argument(
        alloc,
        "sheet",
        "SHEET",
        "The file with the placement",
    ))?;
    let command = command.arg(journal_argument(alloc))?;
    command.arg(facts_option(alloc))
}

// What the parser finds in the words, by this description of the command line.
fn matches_of<'a, S: AsStr>(
    command: &mut Command<'a>,
    words: &'a [S],
) -> Result<ArgMatches<'a>, clap::Error>
    requires { app_of command.old ≡ audit_app }
    ensures found { IfOk result (λ matches.
        rows_of (found_of matches) ≡ rows_in audit_app (map S.text words.entry.now)) }
    ensures refused { IfErr result (HasKind (fault_of audit_app (map S.text words.entry.now))) }
{
    command.try_get_matches_from_mut(words)
}

// The order that the words give, if they name the docket's file and the sheet's.
fn order_named<'a>(matches: &ArgMatches<'a>) -> Option<Order<'a>>
    ensures { IfSome result (GivesOrder (rows_of (found_of matches.now))) }
{
    let Some(docket) = matches.get_str("docket") else {
        return None;
    };
    let Some(sheet) = matches.get_str("sheet") else {
        return None;
    };
    Some(Order {
        docket,
        sheet,
        journal: matches.get_str("journal"),
        facts: matches.get_flag("facts"),
    })
}

/// The audit that the command line's words order. The words are those after the program's own name.
pub(crate) fn read_line<'a, S: AsStr>(alloc: Global, words: &'a [S]) -> Result<Order<'a>, LineFault>
    ensures order { IfOk result (Orders (map S.text words.entry.now)) }
    ensures refused { IfErr result (Refuses (map S.text words.entry.now)) }
{
    let mut command = command(alloc)?;
    let matches = match matches_of(&mut command, words) {
        Ok(matches) => matches,
        Err(error) => return Err(line_fault(error)),
    };
    match order_named(&matches) {
        Some(order) if takes_input_twice(&order) => Err(LineFault::SecondInput),
        Some(order) => Ok(order),
        None => Err(LineFault::Memory),
    }
}
