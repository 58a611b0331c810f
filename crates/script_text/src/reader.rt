// Scripts are read line by line.
ghost use Rattle.std.specs.Prelude.{◌≡◌, ◌+◌, ◌^◌, ◌<◌, ◌≤◌, ◌++◌, ◌∷◌, [], length, IfOk, IfErr};
ghost use Rattle.mol_section.specs.Lines.{lines_of};
ghost use Rattle.script_text.specs.Scripts.{IsFirstFault, IsScriptOf};
ghost use Rattle.script_text.specs.Grammar.{says};
ghost use Rattle.script_text.specs.Reading.{progress_after, where_taken};

use crate::saying::{Saying, saying_of};
use crate::{Group, Groups, Job, Jobs, Script, ScriptFault};
use htss_defs::OutOfMemory;
use mol_section::next_line;
use std::alloc::Global;

// The most jobs of a script.
const MOST_JOBS: u32 = 65536;

// The groups that have ended, the jobs of the one that has begun, and the number of all jobs.
#[derive(Drop)]
struct Begun {
    ended: Vec<Group>,
    jobs: Vec<Job>,
    count: u32,
}

/// The script of these bytes, or the first line at fault: one that is no line of a script, or the
/// job past the 65,536th. Lines are counted from 1, and there are fewer than 2^32 of them.
pub fn read_script(alloc: Global, bytes: &[u8]) -> Result<Result<Script, ScriptFault>, OutOfMemory>
    requires { length (lines_of bytes.now) < 2 ^ 32 }
    ensures script { IfOk result (λ read. IfOk read (IsScriptOf (lines_of bytes.now))) }
    ensures fault { IfOk result (λ read.
        IfErr read (λ fault. IsFirstFault (lines_of bytes.now) fault.line)) }
{
    let mut begun = Begun {
        ended: Vec::new(alloc),
        jobs: Vec::new(alloc),
        count: 0,
    };
    let mut rest = bytes;
    let mut number = 0;
    while let Some((line, after)) = next_line(rest) {
        number += 1;
        let taken = take_line(alloc, &mut begun, line, number)?;
        if !taken {
            return Ok(Err(ScriptFault {
                line: u64::from(number),
            }));
        }
        rest = after;
    }
    let Begun {
        mut ended,
        jobs,
        ..
    } = begun;
    ended.push(Group {
        jobs: Jobs::new(jobs),
    })?;
    Ok(Ok(Script {
        groups: Groups::new(ended),
    }))
}

// Takes the line of this number, unless it is at fault: whether it did.
fn take_line(
    alloc: Global,
    begun: &mut Begun,
    line: &[u8],
    number: u32,
) -> Result<bool, OutOfMemory>
    ensures { IfOk result (λ taken.
        progress_after number (says line.now) (record {
          count = begun.old.count;
          ended = begun.old.ended.items;
          jobs = begun.old.jobs.items;
        }) ≡ where_taken taken (record {
          count = begun.new.count;
          ended = begun.new.ended.items;
          jobs = begun.new.jobs.items;
        })) }
{
    match saying_of(alloc, line)? {
        Saying::Passed => Ok(true),
        Saying::Wrong => Ok(false),
        Saying::Settles => {
            let jobs = std::mem::replace(&mut begun.jobs, Vec::new(alloc));
            begun.ended.push(Group {
                jobs: Jobs::new(jobs),
            })?;
            Ok(true)
        }
        Saying::Asks(order) => {
            if begun.count >= MOST_JOBS {
                return Ok(false);
            }
            begun.jobs.push(Job {
                line: number,
                order,
            })?;
            begun.count += 1;
            Ok(true)
        }
    }
}
