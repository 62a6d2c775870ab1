//! How a program's commands are described to the command line's parser.
ghost use Rattle.std.specs.Prelude.{◌≡◌, IfOk, false, true};
ghost use Rattle.clap.specs.Words.{app_of, new_app, rule_of, with_subcommand};
ghost use Rattle.program_shell.specs.Flags.{of_commands, required, word_rule};

use clap::{Arg, Command};
use std::alloc::{AllocError, Global};

/// The description of a command: its name, its usage and its help.
pub fn described<'a>(
    alloc: Global,
    name: &'a str,
    usage: &'a str,
    about: &'a str,
    help: &'a str,
) -> Command<'a>
    ensures { app_of result ≡ new_app name.entry.now }
{
    let command = Command::new(alloc, name).override_usage(usage);
    command.about(about).after_help(help)
}

/// The description of a program that has commands, before its commands are added. The program's own name isn't among
/// the words.
pub fn with_commands<'a>(
    alloc: Global,
    name: &'a str,
    about: &'a str,
    version: &'a str,
) -> Result<Command<'a>, AllocError>
    ensures { IfOk result (λ program. app_of program ≡ of_commands name.entry.now) }
{
    let program = Command::new(alloc, name).bin_name(name)?;
    let program = program.about(about).version(version);
    Ok(program.no_binary_name(true).subcommand_required(true))
}

/// A program's description with one command more.
pub fn with_command<'a>(
    program: Command<'a>,
    command: Command<'a>,
) -> Result<Command<'a>, AllocError>
    requires { (app_of command).top.is_plain ≡ true }
    ensures { IfOk result (λ extended_program. app_of extended_program
        ≡ with_subcommand (app_of program.entry) (app_of command.entry).top) }
{
    program.subcommand(command)
}

/// The description of a word that a command line has to have.
pub fn required_argument<'a>(
    alloc: Global,
    id: &'static str,
    value_name: &'static str,
    help: &'static str,
) -> Arg<'a>
    ensures rule { rule_of result ≡ required (word_rule id.entry.now) }
    ensures own { result.global ≡ false }
{
    Arg::new(alloc, id)
        .value_name(value_name)
        .help(help)
        .required(true)
}
