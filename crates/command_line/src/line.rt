//! The command line.
ghost use Rattle.std.specs.Prelude.{◌≡◌, ◌≤◌, IfOk, IfErr, IfSome, None, Some, codes, map, true, false};
ghost use Rattle.exchange_core.specs.Shown.{is_capacity};
ghost use Rattle.clap.specs.declared.error.kind.ErrorKind.TheVariants.{MissingSubcommand};
ghost use Rattle.clap.specs.Words.{HasKind, app_of, fault_of, found_of, new_app, rows_of, rule_of, subcommand_of, subcommand_rows_of};
ghost use Rattle.program_shell.specs.declared.fault.LineFault.TheVariants.{BadCapacity};
ghost use Rattle.program_shell.specs.Faults.{IsErrorOf};
ghost use Rattle.program_shell.specs.Flags.{flag_rule};
ghost use Rattle.command_line.specs.Line.{GivesJournal, GivesOptions, GivesRoom, GivesWorkers, HasBadRoom, IsNamed, NamesNone, Orders, Refuses, commands_app, match_app, valued_rule, workers_rule};
ghost use Rattle.command_line.specs.Options.{IsOrder, IsWithinLimits};

use crate::options::{JournalForm, MatchOptions, Order};
use clap::error::ErrorKind;
use clap::{Arg, ArgAction, ArgMatches, Command};
use docket::capacity_of;
use exchange_core::Capacity;
use program_shell::{LineFault, described, line_fault, with_command, with_commands};
use std::alloc::{AllocError, Global};
use std::convert::AsStr;
use version::VERSION;

// The help of each command: its input and output, its exit status, and an example.
const MATCH_HELP: &str =
    "Reads a docket on standard input: Q, P and R records, and W records where V,2 is the first.
A sheet or a journal in it is not used.
Writes the sheet on standard output. With --journal the journal of its events follows, and with
--journal-by-worker each event has its worker.

Exit status: 0 for a sheet; 1 where memory, a worker, reading or writing failed; 2 for a wrong
command line; 3 for a docket at fault, whose record is named on standard error.

Example: residency match --journal < examples/market.csv > result.csv";

const AUDIT_HELP: &str =
    "Reads a docket with a sheet on standard input: M, U and F records beside its own.
Writes S,stable, or S,unstable and then every cause: X a pair that isn't acceptable, O a programme
over its quota, B a blocking pair.

It trusts whoever joined what it reads: a W, P or Q row in the sheet's file changes the docket. The
auditor's program, residency-audit, reads each file as its own part.

Exit status: 0 for a stable sheet; 4 for an unstable one; 3 for a docket at fault or without a
sheet; 2 for a wrong command line; 1 where memory, reading or writing failed.

Example: cat examples/market.csv result.csv | residency audit";

const REPLAY_HELP: &str =
    "Reads a docket with a journal on standard input: C and E records beside its own, and maybe a sheet.
Writes G and the number of events for a good journal. If it is by worker, a row K follows for each
worker, with the number of its events. Else it writes N, the first event that may not follow, and
why; or D and the first resident at whom the sheet differs.

It trusts whoever joined what it reads: a W, P or Q row in the journal's file changes the docket. The
auditor's program, residency-audit, reads each file as its own part.

Exit status: 0 for a good journal; 4 for a bad one; 3 for a docket at fault or without a journal;
2 for a wrong command line; 1 where memory, reading or writing failed.

Example: cat examples/market.csv result.csv | residency replay";

// The option that says how many threads work on a match.
fn workers_option<'a>(alloc: Global) -> Arg<'a>
    ensures rule { rule_of result ≡ workers_rule }
    ensures own { result.global ≡ false }
{
    Arg::new(alloc, "workers")
        .long("workers")
        .value_name("N")
        .help("How many threads work on it: 1 to 8")
        .value_parser(clap::value_parser!(u64).range(1..=8))
        .default_value("2")
}

// The option that says how many messages each mailbox of a match has room for.
fn capacity_option<'a>(alloc: Global) -> Arg<'a>
    ensures rule { rule_of result ≡ valued_rule (codes "capacity") (codes "full") }
    ensures own { result.global ≡ false }
{
    Arg::new(alloc, "capacity")
        .long("capacity")
        .value_name("full|N")
        .help("The room of each mailbox: full, or from 1 to 1024 places")
        .default_value("full")
}

// The option that asks for the journal of a match.
fn journal_option<'a>(alloc: Global) -> Arg<'a>
    ensures rule { rule_of result ≡ flag_rule (codes "journal") }
    ensures own { result.global ≡ false }
{
    Arg::new(alloc, "journal")
        .long("journal")
        .help("Writes the journal of every event after the sheet")
        .action(ArgAction::SetTrue)
}

// The option that asks for the journal of a match with the worker of each event.
fn by_worker_option<'a>(alloc: Global) -> Arg<'a>
    ensures rule { rule_of result ≡ flag_rule (codes "journal-by-worker") }
    ensures own { result.global ≡ false }
{
    Arg::new(alloc, "journal-by-worker")
        .long("journal-by-worker")
        .help("Writes the journal with the worker of each event")
        .action(ArgAction::SetTrue)
}

// The description of the command that runs a match, with its options.
fn match_command<'a>(alloc: Global) -> Result<Command<'a>, AllocError>
    ensures { IfOk result (λ command. app_of command ≡ match_app) }
{
    let about = "Writes the sheet of the settled match";
    let usage = "residency match [OPTIONS] < docket.csv";
    let command = described(alloc, "match", usage, about, MATCH_HELP);
    let command = command.arg(workers_option(alloc))?;
    let command = command.arg(capacity_option(alloc))?;
    let command = command.arg(journal_option(alloc))?;
    command.arg(by_worker_option(alloc))
}

// The description of the command that audits a sheet.
fn audit_command<'a>(alloc: Global) -> Command<'a>
    ensures { app_of result ≡ new_app (codes "audit") }
{
    let about = "Says whether the docket's sheet is stable";
    let usage = "residency audit < docket-and-sheet.csv";
    described(alloc, "audit", usage, about, AUDIT_HELP)
}

// The description of the command that replays a journal.
fn replay_command<'a>(alloc: Global) -> Command<'a>
    ensures { app_of result ≡ new_app (codes "replay") }
{
    let about = "Says whether the docket's journal is a good exchange that gives its sheet";
    let usage = "residency replay < docket-and-journal.csv";
    described(alloc, "replay", usage, about, REPLAY_HELP)
}

// The description of the program's command line, with its commands.
fn commands<'a>(alloc: Global) -> Result<Command<'a>, AllocError>
    ensures { IfOk result (λ command. app_of command ≡ commands_app) }
{
    let about = "Runs a residency match as an exchange of offers, over a docket on standard input";
    let program = with_commands(alloc, "residency", about, VERSION)?;
    let program_with_match = with_command(program, match_command(alloc)?)?;
    let program_with_audit = with_command(program_with_match, audit_command(alloc))?;
    with_command(program_with_audit, replay_command(alloc))
}

// The number of workers that the words give, from 1 to 8; 2 if they give none.
fn workers_of(parsed_words: &ArgMatches) -> usize
    ensures some { 1 ≤ result }
    ensures few { result ≤ 8 }
    ensures given { GivesWorkers (rows_of (found_of parsed_words.now)) result }
{
    match parsed_words.get_one::<u64>("workers") {
        Some(workers) => workers.clamp(1, 8) as usize,
        None => 2,
    }
}

// The capacity of the mailboxes that the words give; `full` if they give none. A text that stands for
// no capacity is a fault.
fn room_of(parsed_words: &ArgMatches) -> Result<Capacity, LineFault>
    ensures admitted { IfOk result (λ capacity. is_capacity capacity ≡ true) }
    ensures given { IfOk result (GivesRoom (rows_of (found_of parsed_words.now))) }
    ensures fault { IfErr result (λ fault. fault ≡ BadCapacity) }
    ensures bad { IfErr result (λ fault.
        HasBadRoom (Some (codes "match", rows_of (found_of parsed_words.now)))) }
{
    match parsed_words.get_str("capacity") {
        Some(capacity_text) => capacity_of(capacity_text.as_bytes()).ok_or(LineFault::BadCapacity),
        None => Ok(Capacity::Full),
    }
}

// The form of journal that the words ask for.
fn journal_of(parsed_words: &ArgMatches) -> JournalForm
    ensures { GivesJournal (rows_of (found_of parsed_words.now)) result }
{
    if parsed_words.get_flag("journal-by-worker") {
        JournalForm::ByWorker
    } else if parsed_words.get_flag("journal") {
        JournalForm::Plain
    } else {
        JournalForm::Absent
    }
}

// The options that the words of a match give.
fn match_options(parsed_words: &ArgMatches) -> Result<MatchOptions, LineFault>
    ensures limits { IfOk result IsWithinLimits }
    ensures options { IfOk result (GivesOptions (rows_of (found_of parsed_words.now))) }
    ensures fault { IfErr result (λ fault. fault ≡ BadCapacity) }
    ensures bad { IfErr result (λ fault.
        HasBadRoom (Some (codes "match", rows_of (found_of parsed_words.now)))) }
{
    let capacity = match room_of(parsed_words) {
        Ok(capacity) => capacity,
        Err(fault) => return Err(fault),
    };
    Ok(MatchOptions {
        workers: workers_of(parsed_words),
        capacity,
        journal: journal_of(parsed_words),
    })
}

// What the parser finds in the words, by these descriptions of commands.
fn matches_of<'a, S: AsStr>(
    commands: &mut Command<'a>,
    words: &'a [S],
) -> Result<ArgMatches<'a>, clap::Error>
    requires { app_of commands.old ≡ commands_app }
    ensures found { IfOk result (λ parsed_words.
        subcommand_rows_of parsed_words ≡ subcommand_of commands_app (map S.text words.entry.now)) }
    ensures refused { IfErr result (HasKind (fault_of commands_app (map S.text words.entry.now))) }
{
    commands.try_get_matches_from_mut(words)
}

// What the words ask the program to do, or none if they name no command.
fn order_named(parsed_words: &ArgMatches) -> Result<Option<Order>, LineFault>
    ensures order { IfOk result (λ order. IfSome order IsOrder) }
    ensures named { IfOk result (λ order.
        IfSome order (IsNamed (subcommand_rows_of parsed_words.now))) }
    ensures none { IfOk result (λ order. order ≡ None
        → NamesNone (subcommand_rows_of parsed_words.now)) }
    ensures fault { IfErr result (λ fault. fault ≡ BadCapacity) }
    ensures bad { IfErr result (λ fault. HasBadRoom (subcommand_rows_of parsed_words.now)) }
{
    match parsed_words.subcommand() {
        Some(("match", options)) => match match_options(options) {
            Ok(options) => Ok(Some(Order::Match(options))),
            Err(fault) => Err(fault),
        },
        Some(("audit", _)) => Ok(Some(Order::Audit)),
        Some(("replay", _)) => Ok(Some(Order::Replay)),
        _ => Ok(None),
    }
}

// The message for words that name no command.
fn nothing_named(commands: &mut Command) -> LineFault
    ensures { IsErrorOf (λ kind. kind ≡ MissingSubcommand) result }
{
    match commands.error(ErrorKind::MissingSubcommand, "a command is wanted") {
        Ok(error) => line_fault(error),
        Err(_) => LineFault::Memory,
    }
}

/// What the words ask the program to do. The words are those after the program's own name. This function
/// isn't inlined, since its frame would stay on the stack while the rest of the program runs.
#[inline(never)]
pub fn read_line<'a, S: AsStr>(alloc: Global, words: &'a [S]) -> Result<Order, LineFault>
    ensures order { IfOk result (Orders (map S.text words.entry.now)) }
    ensures limits { IfOk result IsOrder }
    ensures refused { IfErr result (Refuses (map S.text words.entry.now)) }
{
    let mut commands = commands(alloc)?;
    let parsed_words = match matches_of(&mut commands, words) {
        Ok(parsed_words) => parsed_words,
        Err(error) => return Err(line_fault(error)),
    };
    match order_named(&parsed_words) {
        Ok(Some(order)) => Ok(order),
        Ok(None) => Err(nothing_named(&mut commands)),
        Err(fault) => Err(fault),
    }
}
