ghost use Rattle.std.specs.Prelude.{◌≡◌, IfOk, false};
ghost use Rattle.clap.specs.Words.{app_of, rule_of};
ghost use Rattle.larch_words.specs.CommandLine.{command_and_words, command_line, option_rule, with_options};

use clap::{Arg, ArgAction, Command};
use larch_base::Memory;
use std::alloc::Global;

/// The command line: the command, any number of words, and three options of one value each. None of the words is taken
/// as the program's name.
pub(crate) fn command_line<'a>(alloc: Global) -> Result<Command<'a>, Memory>
    ensures { IfOk result (λ command. app_of command ≡ command_line) }
{
    let command = with_words(alloc)?;
    with_options(alloc, command)
}

// The command and any number of words.
fn with_words<'a>(alloc: Global) -> Result<Command<'a>, Memory>
    ensures { IfOk result (λ command. app_of command ≡ command_and_words) }
{
    let command = Command::new(alloc, "larch")
        .no_binary_name(true)
        .arg(Arg::new(alloc, "COMMAND").required(true))?
        .arg(Arg::new(alloc, "WORD").num_args(0..))?;
    Ok(command)
}

// The same with the three options.
fn with_options<'a>(alloc: Global, command: Command<'a>) -> Result<Command<'a>, Memory>
    ensures { IfOk result (λ whole. app_of whole ≡ with_options (app_of command.entry)) }
{
    let command = command
        .arg(option(alloc, "limit"))?
        .arg(option(alloc, "seed"))?
        .arg(option(alloc, "size"))?;
    Ok(command)
}

// An option that takes one value.
fn option<'a>(alloc: Global, name: &'a str) -> Arg<'a>
    ensures rule { rule_of result ≡ option_rule name.now }
    ensures own { result.global ≡ false }
{
    Arg::new(alloc, name).long(name).action(ArgAction::Set)
}
