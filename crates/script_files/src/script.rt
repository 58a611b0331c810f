// The script of a command.
ghost use Rattle.std.specs.Prelude.{[], IfOk, IfErr};
ghost use Rattle.command_words.specs.Tasks.{Task};
ghost use Rattle.command_ends.specs.Outcomes.{stop_why};
ghost use Rattle.command_ends.specs.RunText.{ScriptWasRead};
ghost use Rattle.command_ends.specs.Ends.{MayStop, ShelfGoesOn, seen};
ghost use Rattle.script_files.specs.JobFiles.{HasScript};

use command_ends::{Stop, read_file};
use outside::Shelf;
use script_text::{Script, read_script};
use std::alloc::Global;

/// The script of this name. A stop is one of each task that has this script.
#[inline(never)]
pub fn script_of<'a, F: Shelf>(
    alloc: Global,
    name: &'a str,
    shelf: &mut F,
) -> Result<Script, Stop<'a>>
    ensures read { IfOk result (λ script. ScriptWasRead (F.told shelf.old) name.now script.groups) }
    ensures stop { IfErr result (λ stop. (task : Task) → HasScript task name.now → MayStop task
        (seen F.told F.absent F.faults shelf.old) (seen F.told F.absent F.faults shelf.new)
        [] (stop_why stop)) }
    ensures goes_on { ShelfGoesOn
        (seen F.told F.absent F.faults shelf.old) (seen F.told F.absent F.faults shelf.new) }
{
    let bytes = read_file(alloc, name, shelf)?;
    match read_script(alloc, &bytes)? {
        Ok(script) => Ok(script),
        Err(fault) => Err(Stop::Script(fault.line)),
    }
}
