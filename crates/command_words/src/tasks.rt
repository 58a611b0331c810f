// What the words after each command say.
ghost use Rattle.std.specs.Prelude.{◌≡◌, ◌-◌, ◌^◌, IfOk, IfSome, List, Some, codes, map, string_bytes};
ghost use Rattle.std.specs.Option.{option_map};
ghost use Rattle.htss_defs.specs.Shapes.{IsShape};
ghost use Rattle.command_words.specs.Arguments.{arguments};
ghost use Rattle.command_words.specs.ClapCommand.{value_said, words_said};
ghost use Rattle.command_words.specs.Tasks.{IsInLimits, audit_task, audit_with, check_of, codes_of, command_task};
ghost use Rattle.command_words.specs.Tasks.{find_options, find_task, find_with, given_or, make_options, make_task};
ghost use Rattle.command_words.specs.Tasks.{make_with, make_words, no_options, number_in, one_file, only, run_options};
ghost use Rattle.command_words.specs.Tasks.{run_task, run_with, shape_said};

use crate::Command;
use crate::parse::read_matches;
use crate::values::{number_in, number_of};
use clap::ArgMatches;
use htss_defs::{OutOfMemory, Shape};
use std::alloc::Global;

const DEFAULT_BUDGET: u64 = 10_000_000_000;

/// What the words after `find` say.
pub(crate) fn find_command(
    alloc: Global,
    words: &[String],
) -> Result<Option<Command<'_>>, OutOfMemory>
    ensures task { IfOk result (λ read. option_map command_task read
        ≡ find_task (arguments find_options (map string_bytes words.now))) }
    ensures limits { IfOk result (λ read. IfSome read IsInLimits) }
{
    let valued = ["budget"];
    match read_matches(alloc, &valued, &[], words)? {
        Some(matches) => Ok(find_in(&matches)),
        None => Ok(None),
    }
}

fn find_in<'a>(matches: &ArgMatches<'a>) -> Option<Command<'a>>
    ensures task { option_map command_task result ≡ find_with (words_said matches.now)
        (given_or 10000000000 0 (2 ^ 64 - 1) (value_said matches.now (codes "budget"))) }
    ensures limits { IfSome result IsInLimits }
{
    let budget = budget_in(matches)?;
    match matches.get_raw("words") {
        Some([sdf, query]) => Some(Command::Find { sdf, query, budget }),
        _ => None,
    }
}

/// What the words after `check` say.
pub(crate) fn check_command(
    alloc: Global,
    words: &[String],
) -> Result<Option<Command<'_>>, OutOfMemory>
    ensures task { IfOk result (λ read. option_map command_task read
        ≡ option_map check_of (one_file (arguments no_options (map string_bytes words.now)))) }
    ensures limits { IfOk result (λ read. IfSome read IsInLimits) }
{
    match one_file(alloc, words)? {
        Some(sdf) => Ok(Some(Command::Check { sdf })),
        None => Ok(None),
    }
}

/// What the words after `codes` say.
pub(crate) fn codes_command(
    alloc: Global,
    words: &[String],
) -> Result<Option<Command<'_>>, OutOfMemory>
    ensures task { IfOk result (λ read. option_map command_task read
        ≡ option_map codes_of (one_file (arguments no_options (map string_bytes words.now)))) }
    ensures limits { IfOk result (λ read. IfSome read IsInLimits) }
{
    match one_file(alloc, words)? {
        Some(mol) => Ok(Some(Command::Codes { mol })),
        None => Ok(None),
    }
}

// The word after a command, where there is one and no other.
fn one_file(alloc: Global, words: &[String]) -> Result<Option<&str>, OutOfMemory>
    ensures { IfOk result (λ read. option_map (λ s. s.now) read
        ≡ one_file (arguments no_options (map string_bytes words.now))) }
{
    match read_matches(alloc, &[], &[], words)? {
        Some(matches) => Ok(only_word(&matches)),
        None => Ok(None),
    }
}

fn only_word<'a>(matches: &ArgMatches<'a>) -> Option<&'a str>
    ensures { option_map (λ s. s.now) result ≡ only (words_said matches.now) }
{
    match matches.get_raw("words") {
        Some([word]) => Some(word),
        _ => None,
    }
}

/// What the words after `make` say.
pub(crate) fn make_command(
    alloc: Global,
    words: &[String],
) -> Result<Option<Command<'_>>, OutOfMemory>
    ensures task { IfOk result (λ read. option_map command_task read
        ≡ make_task (arguments make_options (map string_bytes words.now))) }
    ensures limits { IfOk result (λ read. IfSome read IsInLimits) }
{
    let flags = ["summary"];
    match read_matches(alloc, &[], &flags, words)? {
        Some(matches) => Ok(make_in(&matches, matches.get_flag("summary"))),
        None => Ok(None),
    }
}

fn make_in<'a>(matches: &ArgMatches<'a>, summary: bool) -> Option<Command<'a>>
    ensures task { option_map command_task result ≡ make_words (words_said matches.now) summary }
    ensures limits { IfSome result IsInLimits }
{
    match matches.get_raw("words") {
        Some([count, seed]) => make_of(count, seed, summary),
        _ => None,
    }
}

fn make_of<'a>(count: &str, seed: &str, summary: bool) -> Option<Command<'a>>
    ensures task { option_map command_task result ≡ make_with (number_in 1 100000 count.now)
        (number_in 0 (2 ^ 64 - 1) seed.now) summary }
    ensures limits { IfSome result IsInLimits }
{
    let count = number_in(count, 1, 100_000)?;
    let seed = number_in(seed, 0, u64::MAX)?;
    Some(Command::Make {
        count: count as u32,
        seed,
        summary,
    })
}

/// What the words after `run` say.
pub(crate) fn run_command(
    alloc: Global,
    words: &[String],
) -> Result<Option<Command<'_>>, OutOfMemory>
    ensures task { IfOk result (λ read. option_map command_task read
        ≡ run_task (arguments run_options (map string_bytes words.now))) }
    ensures limits { IfOk result (λ read. IfSome read IsInLimits) }
{
    let valued = [
        "loaders",
        "searchers",
        "pages",
        "room",
        "log",
        "chain",
        "budget",
    ];
    match read_matches(alloc, &valued, &[], words)? {
        Some(matches) => Ok(run_in(&matches)),
        None => Ok(None),
    }
}

fn run_in<'a>(matches: &ArgMatches<'a>) -> Option<Command<'a>>
    ensures task { option_map command_task result ≡ run_with (only (words_said matches.now))
        (shape_said (value_said matches.now))
        (given_or 10000000000 0 (2 ^ 64 - 1) (value_said matches.now (codes "budget"))) }
    ensures limits { IfSome result IsInLimits }
{
    let script = only_word(matches)?;
    let shape = shape_in(matches)?;
    let budget = budget_in(matches)?;
    Some(Command::Run {
        script,
        shape,
        budget,
    })
}

fn shape_in(matches: &ArgMatches<'_>) -> Option<Shape>
    ensures shape { result ≡ shape_said (value_said matches.now) }
    ensures limits { IfSome result IsShape }
{
    let loaders = number_of(matches, "loaders", 2, 1, 16)?;
    let searchers = number_of(matches, "searchers", 2, 1, 16)?;
    let pages = number_of(matches, "pages", 1_048_576, 16, 4_194_304)?;
    let room = number_of(matches, "room", 4_194_304, 10, 16_777_216)?;
    let log = number_of(matches, "log", 1_048_576, 1, 1_048_576)?;
    let chain = number_of(matches, "chain", 65_535, 2, 65_535)?;
    Some(Shape {
        loaders: loaders as u8,
        searchers: searchers as u8,
        pages: pages as u32,
        room: room as u32,
        log: log as u32,
        chain: chain as u32,
    })
}

/// What the words after `audit` say.
pub(crate) fn audit_command(
    alloc: Global,
    words: &[String],
) -> Result<Option<Command<'_>>, OutOfMemory>
    ensures task { IfOk result (λ read. option_map command_task read
        ≡ audit_task (arguments no_options (map string_bytes words.now))) }
    ensures limits { IfOk result (λ read. IfSome read IsInLimits) }
{
    match read_matches(alloc, &[], &[], words)? {
        Some(matches) => Ok(audit_in(&matches)),
        None => Ok(None),
    }
}

fn audit_in<'a>(matches: &ArgMatches<'a>) -> Option<Command<'a>>
    ensures task { option_map command_task result ≡ audit_with (words_said matches.now) }
    ensures limits { IfSome result IsInLimits }
{
    match matches.get_raw("words") {
        Some([script, report]) => Some(Command::Audit { script, report }),
        _ => None,
    }
}

fn budget_in(matches: &ArgMatches<'_>) -> Option<u64>
    ensures { result ≡ given_or 10000000000 0 (2 ^ 64 - 1) (value_said matches.now (codes "budget")) }
{
    number_of(matches, "budget", DEFAULT_BUDGET, 0, u64::MAX)
}
