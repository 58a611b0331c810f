// The words of the command line, as they are read.
ghost use Rattle.std.specs.Prelude.{◌≡◌, ◌∷◌, IfOk, IfSome, List, map, string_bytes};
ghost use Rattle.std.specs.Option.{option_map};
ghost use Rattle.command_words.specs.Tasks.{IsInLimits, command_task, task_of};

use crate::Command;
use crate::tasks::{
    audit_command, check_command, codes_command, find_command, make_command, run_command,
};
use htss_defs::OutOfMemory;
use std::alloc::Global;

/// The command of the words after the program's name, or `None` exactly where they are no command line.
#[tactic(auto, unfolding(crate::specs::Tasks::task_of))]
pub fn read_words(alloc: Global, words: &[String]) -> Result<Option<Command<'_>>, OutOfMemory>
    ensures task { IfOk result (λ read. option_map command_task read ≡ task_of (map string_bytes words.now)) }
    ensures limits { IfOk result (λ read. IfSome read IsInLimits) }
{
    match words.split_first() {
        Some((command, words)) => read_command(alloc, command.as_str(), words),
        None => Ok(None),
    }
}

// The command of this name and the words after it.
#[tactic(auto, unfolding(crate::specs::Tasks::task_of))]
fn read_command<'a>(
    alloc: Global,
    command: &str,
    words: &'a [String],
) -> Result<Option<Command<'a>>, OutOfMemory>
    ensures task { IfOk result (λ read. option_map command_task read
        ≡ task_of (command.now ∷ map string_bytes words.now)) }
    ensures limits { IfOk result (λ read. IfSome read IsInLimits) }
{
    match command {
        "find" => find_command(alloc, words),
        "check" => check_command(alloc, words),
        "codes" => codes_command(alloc, words),
        "make" => make_command(alloc, words),
        "run" => run_command(alloc, words),
        "audit" => audit_command(alloc, words),
        _ => Ok(None),
    }
}
