// The command of `clap` that reads the words.
ghost use Rattle.std.specs.Prelude.{◌≡◌, IfOk, List, map, string_bytes};
ghost use Rattle.clap.specs.Simple.{app_of};
ghost use Rattle.command_words.specs.Arguments.{arguments};
ghost use Rattle.command_words.specs.ClapCommand.{AreMatchesOf, AreNames, app_for, options_of, with_flags, with_valued};
ghost use Rattle.command_words.specs.ClapCommand.{words_app};

use crate::strays::has_no_stray;
use clap::error::ErrorKind;
use clap::{Arg, ArgAction, ArgMatches, Command};
use htss_defs::OutOfMemory;
use std::alloc::Global;

/// What the words of a command with these options say, where each is a word of such a command. The options have a
/// value, or none.
pub(crate) fn read_matches<'a>(
    alloc: Global,
    valued: &[&'a str],
    flags: &[&'a str],
    words: &'a [String],
) -> Result<Option<ArgMatches<'a>>, OutOfMemory>
    requires { AreNames (options_of valued.now flags.now) }
    ensures { IfOk result (AreMatchesOf (options_of valued.now flags.now)
        (arguments (options_of valued.now flags.now) (map string_bytes words.now))) }
{
    if !has_no_stray(valued, flags, words) {
        return Ok(None);
    }
    let command = command_for(alloc, valued, flags)?;
    match command.try_get_matches_from(words) {
        Ok(matches) => Ok(Some(matches)),
        Err(error) => match error.kind() {
            ErrorKind::OutOfMemory => Err(OutOfMemory),
            _ => Ok(None),
        },
    }
}

// The command with these options and any number of other words.
fn command_for<'a>(
    alloc: Global,
    valued: &[&'a str],
    flags: &[&'a str],
) -> Result<Command<'a>, OutOfMemory>
    ensures { IfOk result (λ command. app_of command ≡ app_for (options_of valued.now flags.now)) }
{
    let command = words_command(alloc)?;
    let command = with_valued(alloc, command, valued)?;
    with_flags(alloc, command, flags)
}

fn words_command<'a>(alloc: Global) -> Result<Command<'a>, OutOfMemory>
    ensures { IfOk result (λ command. app_of command ≡ words_app) }
{
    let words = Arg::new(alloc, "words").action(ArgAction::Append);
    let command = Command::new(alloc, "htss")
        .no_binary_name(true)
        .disable_help_flag(true)
        .arg(words)?;
    Ok(command)
}

fn with_valued<'a>(
    alloc: Global,
    mut command: Command<'a>,
    valued: &[&'a str],
) -> Result<Command<'a>, OutOfMemory>
    ensures { IfOk result (λ after.
        app_of after ≡ with_valued (app_of command.entry) (map (λ s. s.now) valued.now)) }
{
    for name in valued {
        command = command.arg(Arg::new(alloc, *name).long(*name))?;
    }
    Ok(command)
}

fn with_flags<'a>(
    alloc: Global,
    mut command: Command<'a>,
    flags: &[&'a str],
) -> Result<Command<'a>, OutOfMemory>
    ensures { IfOk result (λ after.
        app_of after ≡ with_flags (app_of command.entry) (map (λ s. s.now) flags.now)) }
{
    for name in flags {
        let flag = Arg::new(alloc, *name)
            .long(*name)
            .action(ArgAction::SetTrue);
        command = command.arg(flag)?;
    }
    Ok(command)
}
