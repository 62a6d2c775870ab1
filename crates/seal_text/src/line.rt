//! The command line.
ghost use Rattle.std.specs.Prelude.{◌≡◌, IfErr, IfOk, IfSome, None, Some, codes, map, true, false};
ghost use Rattle.clap.specs.Words.{HasKind, app_of, fault_of, first_of, found_of, rows_of, rule_of, subcommand_of, subcommand_rows_of};
ghost use Rattle.clap.specs.declared.error.kind.ErrorKind.TheVariants.{MissingSubcommand};
ghost use Rattle.program_shell.specs.Faults.{IsErrorOf};
ghost use Rattle.seal_text.specs.Line.{GivesFiles, GivesRoots, IsOrdered, OrdersNothing, OrdersSeal, RefusesSeal, checking_app, option_rule, seal_app, sealed_app, sealing_app, sealing_word};

use crate::compare_line::{
    PublishedRows, ReceiptPaths, pair_command, pair_named, pairs_command, pairs_named,
};
use crate::serve::Wanted;
use clap::error::ErrorKind;
use clap::{Arg, ArgMatches, Command};
use program_shell::{LineFault, described, line_fault, with_command, with_commands};
use std::alloc::{AllocError, Global};
use std::convert::AsStr;
use version::VERSION;

// The help of each command: what it reads and writes, its exit status, and an example.
const ROOT_HELP: &str =
    "Reads a docket on standard input: V, Q, P, R and W records, and no others. The sheet's file has M, U
and F records, and no others. The secret's file has 64 hexadecimal digits, and maybe a line feed. The
key's file has P,PROGRAMME,NAME and R,RESIDENT,NAME records, with the ID as a fourth field if there is
one. With --key, the sealed list of each member in the key ends with a row N,NAME or N,NAME,ID.
Writes lists,COUNT,ROOT, and with a sheet result,COUNT,ROOT.

The sheet's rows are sealed as they are: whether it is the match's result the auditor's program tells.

Exit status: 0 for roots; 1 where memory, reading or writing failed; 2 for a wrong command line; 3 for
a file at fault, whose record is named on standard error, and for a text that is no secret.

Example: residency-seal root --secret secret.txt --sheet sheet.csv < docket.csv";

const RECEIPTS_HELP: &str =
    "Reads what residency-seal root reads. Writes the receipt of each member, the programmes and then the
residents, in the docket's order. A row member,P,NAME or member,R,NAME stands before each receipt, and
is no part of it. With a sheet each receipt has the result too, and the sheet has to be stable.

Exit status: 0 for receipts; 1 where memory, reading or writing failed; 2 for a wrong command line; 3
for a file at fault, whose record is named on standard error, for a text that is no secret, and for a
sheet that isn't stable.

Example: residency-seal receipts --secret secret.txt < docket.csv > receipts.csv";

const CHECK_HELP: &str =
    "Reads a receipt on standard input. The roots are those that the office published: 64 small hexadecimal
digits each. They are never taken from the receipt.
Writes what the receipt shows: the list as it was sealed, the result, and the reason of each choice.

Exit status: 0 for a receipt that holds; 3 for a file that isn't as it was given, and 4 for a wrong
receipt: the first row with which something is wrong is named on standard error; 1 where memory,
reading or writing failed; 2 for a wrong command line.

Example: residency-seal check --lists ROOT --result ROOT < receipt.csv";

/// The files, besides the docket, that are used for sealing.
#[derive(Clone, Copy, Debug, PartialEq, Eq)]
pub struct Sources<'a> {
    /// The secret's file.
    pub secret: &'a str,
    /// The sheet's file, if there is one.
    pub sheet: Option<&'a str>,
    /// The file of the key, if there is one.
    pub key: Option<&'a str>,
}

/// The digits of the roots that were published.
#[derive(Clone, Copy, Debug, PartialEq, Eq)]
pub struct Roots<'a> {
    /// The root of the lists.
    pub lists: &'a str,
    /// The root of the result, if there is one.
    pub outcome: Option<&'a str>,
}

/// What the command line's words order.
#[derive(Clone, Copy, Debug, PartialEq, Eq)]
pub enum Order<'a> {
    /// To seal a docket: to write its roots, or the receipts of its members.
    Seal(Wanted, Sources<'a>),
    /// To check a receipt.
    Check(Roots<'a>),
    /// To compare a resident's receipt with a programme's.
    Pair(PublishedRows<'a>, ReceiptPaths<'a>),
    /// To compare the receipts in a directory.
    Pairs(PublishedRows<'a>, &'a str),
}

/// The description of an option with a value.
pub(crate) fn option_with_value<'a>(
    alloc: Global,
    id: &'static str,
    value_name: &'static str,
    help: &'static str,
    is_required: bool,
) -> Arg<'a>
    ensures rule { rule_of result ≡ option_rule id.entry.now is_required }
    ensures own { result.global ≡ false }
{
    Arg::new(alloc, id)
        .long(id)
        .value_name(value_name)
        .help(help)
        .required(is_required)
}

// The description of a command that seals, with its options for files.
fn sealing_command<'a>(
    alloc: Global,
    name: &'a str,
    usage: &'a str,
    about: &'a str,
    help: &'a str,
) -> Result<Command<'a>, AllocError>
    ensures { IfOk result (λ command. app_of command ≡ sealing_app name.entry.now) }
{
    let command = described(alloc, name, usage, about, help);
    let secret = option_with_value(alloc, "secret", "FILE", "The file with the secret", true);
    let command = command.arg(secret)?;
    let sheet = option_with_value(alloc, "sheet", "FILE", "The file with the placement", false);
    let command = command.arg(sheet)?;
    let key = option_with_value(alloc, "key", "FILE", "The file with the real names", false);
    command.arg(key)
}

// The description of the command that checks a receipt, with its options for roots.
fn checking_command<'a>(alloc: Global) -> Result<Command<'a>, AllocError>
    ensures { IfOk result (λ command. app_of command ≡ checking_app) }
{
    let usage = "residency-seal check --lists ROOT [--result ROOT] < receipt.csv";
    let about = "Says what a receipt shows, or what is wrong with it";
    let command = described(alloc, "check", usage, about, CHECK_HELP);
    let help = "The published root of the lists";
    let command = command.arg(option_with_value(alloc, "lists", "ROOT", help, true))?;
    let help = "The published root of the result";
    command.arg(option_with_value(alloc, "result", "ROOT", help, false))
}

// The description of the program with the commands that seal and check.
fn sealed_commands<'a>(alloc: Global) -> Result<Command<'a>, AllocError>
    ensures { IfOk result (λ command. app_of command ≡ sealed_app) }
{
    let root_command = sealing_command(
        alloc,
        "root",
        "residency-seal root --secret FILE [--sheet FILE] [--key FILE] < docket.csv",
        "Writes the root of a docket's lists, and with a sheet that of the result",
        ROOT_HELP,
    )?;
    let receipts_command = sealing_command(
        alloc,
        "receipts",
        "residency-seal receipts --secret FILE [--sheet FILE] [--key FILE] < docket.csv",
        "Writes the receipt of each member",
        RECEIPTS_HELP,
    )?;
    let about = "Seals a docket under a published root, and hands each member a receipt";
    let program = with_commands(alloc, "residency-seal", about, VERSION)?;
    let program = with_command(program, root_command)?;
    let program = with_command(program, receipts_command)?;
    with_command(program, checking_command(alloc)?)
}

// The description of the program with all its commands.
fn commands<'a>(alloc: Global) -> Result<Command<'a>, AllocError>
    ensures { IfOk result (λ command. app_of command ≡ seal_app) }
{
    let program = sealed_commands(alloc)?;
    let program = with_command(program, pair_command(alloc)?)?;
    with_command(program, pairs_command(alloc)?)
}

// What the parser finds in the words, by these descriptions of commands.
fn matches_of<'a, S: AsStr>(
    commands: &mut Command<'a>,
    words: &'a [S],
) -> Result<ArgMatches<'a>, clap::Error>
    requires { app_of commands.old ≡ seal_app }
    ensures found { IfOk result (λ matches.
        subcommand_rows_of matches ≡ subcommand_of seal_app (map S.text words.entry.now)) }
    ensures refused { IfErr result (HasKind (fault_of seal_app (map S.text words.entry.now))) }
{
    commands.try_get_matches_from_mut(words)
}

// The files that a command line names, if it names the secret's file.
fn sources_of<'a>(matches: &ArgMatches<'a>) -> Option<Sources<'a>>
    ensures files { IfSome result (GivesFiles (rows_of (found_of matches.now))) }
    ensures none { result ≡ None
        → first_of (codes "secret") (rows_of (found_of matches.now)) ≡ None }
{
    match matches.get_str("secret") {
        Some(secret) => Some(Sources {
            secret,
            sheet: matches.get_str("sheet"),
            key: matches.get_str("key"),
        }),
        None => None,
    }
}

// The roots that a command line gives, if it gives the root of the lists.
fn roots_of<'a>(matches: &ArgMatches<'a>) -> Option<Roots<'a>>
    ensures roots { IfSome result (GivesRoots (rows_of (found_of matches.now))) }
    ensures none { result ≡ None
        → first_of (codes "lists") (rows_of (found_of matches.now)) ≡ None }
{
    match matches.get_str("lists") {
        Some(lists) => Some(Roots {
            lists,
            outcome: matches.get_str("result"),
        }),
        None => None,
    }
}

// The order to seal, with the files that a command line names, if it names the secret's file.
fn seal_named<'a>(text_kind: Wanted, matches: &ArgMatches<'a>) -> Option<Order<'a>>
    ensures named { IfSome result (IsOrdered (Some
        (sealing_word text_kind, rows_of (found_of matches.now)))) }
    ensures none { result ≡ None
        → first_of (codes "secret") (rows_of (found_of matches.now)) ≡ None }
{
    match sources_of(matches) {
        Some(sources) => Some(Order::Seal(text_kind, sources)),
        None => None,
    }
}

// The order that the parsed words give, if they give one.
fn order_named<'a>(matches: &ArgMatches<'a>) -> Option<Order<'a>>
    ensures named { IfSome result (IsOrdered (subcommand_rows_of matches.now)) }
    ensures none { result ≡ None → OrdersNothing (subcommand_rows_of matches.now) }
{
    match matches.subcommand() {
        Some(("root", options)) => seal_named(Wanted::Roots, options),
        Some(("receipts", options)) => seal_named(Wanted::Receipts, options),
        Some(("check", options)) => match roots_of(options) {
            Some(roots) => Some(Order::Check(roots)),
            None => None,
        },
        Some(("pair", options)) => match pair_named(options) {
            Some((rows, paths)) => Some(Order::Pair(rows, paths)),
            None => None,
        },
        Some(("pairs", options)) => match pairs_named(options) {
            Some((rows, directory)) => Some(Order::Pairs(rows, directory)),
            None => None,
        },
        _ => None,
    }
}

// The message for words that name no command.
fn nothing_named(commands: &mut Command) -> LineFault
    ensures { IsErrorOf (λ kind. kind ≡ MissingSubcommand) result }
{
    match commands.error(ErrorKind::MissingSubcommand, "a command is wanted") {
        Ok(error) => line_fault(error),
        Err(_) => LineFault::Memory,
    }
}

/// The order that the words give. The words are those after the program's own name.
pub(crate) fn read_line<'a, S: AsStr>(alloc: Global, words: &'a [S]) -> Result<Order<'a>, LineFault>
    ensures order { IfOk result (OrdersSeal (map S.text words.entry.now)) }
    ensures refused { IfErr result (RefusesSeal (map S.text words.entry.now)) }
{
    let mut commands = commands(alloc)?;
    let matches = match matches_of(&mut commands, words) {
        Ok(matches) => matches,
        Err(error) => return Err(line_fault(error)),
    };
    match order_named(&matches) {
        Some(order) => Ok(order),
        None => Err(nothing_named(&mut commands)),
    }
}
